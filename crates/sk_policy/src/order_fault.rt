// Why a list of queues is no order.
ghost use Rattle.std.specs.Prelude.{◌≡◌};
ghost use Rattle.sk_policy.specs.declared.order_fault.OrderFault.TheVariants.{Memory};

use std::alloc::AllocError;

/// Why a list of queues is no order. A place is an index into the list, from 0, and the first place that is wrong is named. Of two faults at one
/// place the name's comes first, and the weight's last.
#[derive(Clone, Copy)]
pub enum OrderFault {
    /// The list is empty.
    Empty,
    /// What stands at this place isn't a name of at most 255 bytes. Place 100 has this fault whatever stands there, since a list has at most 100
    /// queues.
    Name(usize),
    /// The name at this place stands at an earlier one too.
    Repeated(usize),
    /// The weight at this place isn't from 1 to 100.
    Weight(usize),
    /// There was no memory.
    Memory,
}

impl From<AllocError> for OrderFault {
    ghost from_gives = { λ _ e. e ≡ Memory };

    fn from(_: AllocError) -> Self {
        OrderFault::Memory
    }
}
