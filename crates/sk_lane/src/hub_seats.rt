// Seats of a shared store.
ghost use Rattle.std.specs.Prelude.{None, true};

use crate::Seats;
use sk_desk::{Book, Hub, HubFault, HubId, LockedDesk, Pass};
use std::sync::Wait;

/// The seats of a pass, at its hub. Their desks tell no calls.
#[derive(Drop)]
pub struct HubSeats<'a, R: Wait, I: HubId, B: Book> {
    pub rt: &'a R,
    pub hub: &'a Hub<I, B>,
    pub pass: Pass<I>,
}

impl<'a, R: Wait, I: HubId, B: Book> Seats for HubSeats<'a, R, I, B> {
    type Desk = LockedDesk<'a, R, I, B>;

    ghost left = { λ s. s.pass.count };

    ghost last = { λ s. s.pass.given };

    ghost past = { λ s. None };

    ghost free = { λ s. true };

    fn next(&mut self) -> Result<(u32, LockedDesk<'a, R, I, B>), HubFault> {
        let desk = self.hub.seat(self.rt, &mut self.pass)?;
        let number = desk.number();
        Ok((number, desk))
    }

    fn end(&mut self, desk: LockedDesk<'a, R, I, B>) {
        desk.end(&mut self.pass);
    }
}
