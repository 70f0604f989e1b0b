// Who knows what is stored.
ghost use Rattle.std.specs.Prelude.{◌≡◌, ℕ, OnErr, OnOk};
ghost use Rattle.sk_base.specs.Outside.{HasCause};
ghost use Rattle.sk_held.specs.Counts.{CountsOks};

use sk_base::Failed;

/// Stores what is done, or waits for who does.
pub trait Settler: Drop {
    /// How often it has settled. The count never falls.
    ghost settled: { Self → ℕ };

    /// How often it has failed to. The count never falls.
    ghost settle_faults: { Self → ℕ };

    /// What it found stored when it last settled is stored.
    ghost stored: { Self → Type 0 };

    /// Waits until all that was done so far is stored.
    fn settle(&mut self) -> Result<(), Failed>
        ensures counts { CountsOks (settled self.old) (settled self.new) result }
        ensures stored { OnOk result (stored self.new) }
        ensures kept { OnErr result (stored self.old → stored self.new) }
        ensures cause { HasCause (settle_faults self.old) (settle_faults self.new) result };

    /// How often it has failed to.
    fn faults(&self) -> u64
        ensures { result ≡ settle_faults self.now };
}
