// How a launch ended.
ghost use Rattle.std.specs.Prelude.{◌≡◌, Some};
ghost use Rattle.sk_launcher.specs.Patience.{result_of};

use crate::{Counts, LaunchFault};

/// How a launch ended: how many turns came to each answer by then, and the fault that ended it, if one did.
#[derive(Drop)]
pub(crate) struct LaunchEnd {
    pub counts: Counts,
    pub fault: Option<LaunchFault>,
}

impl LaunchEnd {
    /// The end of one that this fault kept from its first turn.
    pub fn hindered(before: Counts, fault: LaunchFault) -> LaunchEnd
        ensures counts { result.counts ≡ before }
        ensures fault { result.fault ≡ Some fault }
    {
        LaunchEnd {
            counts: before,
            fault: Some(fault),
        }
    }

    /// The counts, or the fault.
    pub fn result(self) -> Result<Counts, LaunchFault>
        ensures { result ≡ result_of self }
    {
        match self.fault {
            Some(fault) => Err(fault),
            None => Ok(self.counts),
        }
    }
}
