// When what is logged is stored.
ghost use Rattle.std.specs.Prelude.{◌≡◌, Bool, true, false};

/// Whether a settle waits until all that was logged before it is stored.
pub trait SyncMode {
    /// It always waits.
    ghost waits: { Bool };

    /// Whether a settle only looks, just now, whether the log goes on, since what is logged is stored at times of its own.
    fn only_looks(&self) -> bool
        ensures { waits ≡ true → result ≡ false };
}

/// Each settle waits.
#[derive(Clone, Copy)]
pub struct SyncAlways;

impl SyncMode for SyncAlways {
    ghost waits = { true };

    fn only_looks(&self) -> bool {
        false
    }
}
