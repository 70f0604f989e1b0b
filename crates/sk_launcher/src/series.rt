// Launches one after another: how many there were, what they counted, and how long is waited between them.
ghost use Rattle.std.specs.Prelude.{◌≡◌, ◌+◌, IfErr, None, OnOk, OnSome};
ghost use Rattle.sk_launcher.specs.Counting.{no_turns};
ghost use Rattle.sk_launcher.specs.Patience.{IsLost};

use crate::launch_end::LaunchEnd;
use crate::{Counts, LaunchFault};

/// The longest pause between two launches, in seconds.
const LONGEST_PAUSE: u32 = 30;

/// A series of launches. It goes on while the server is away: behind pauses of 1, 2, 4 seconds and so on, 30 at most, and no more of them in all than
/// its patience, since the server was last there.
#[derive(Drop)]
pub(crate) struct Series {
    /// The number of the launch that goes on, from 1.
    pub number: u64,
    /// What all before it counted.
    pub counts: Counts,
    // seconds, as the two below
    patience: u32,
    waited: u32,
    pause: u32,
}

impl Series {
    /// One that begins.
    pub fn new(patience: u32) -> Series
        ensures number { result.number ≡ 1 }
        ensures counts { result.counts ≡ no_turns }
        ensures patience { result.patience ≡ patience }
    {
        Series {
            number: 1,
            counts: Counts::none(),
            patience,
            waited: 0,
            pause: 1,
        }
    }

    // How long it waits after this fault. None where it waits no more.
    fn wait(&mut self, fault: &LaunchFault) -> Option<u32>
        ensures none { self.old.patience ≡ 0 → result ≡ None }
        ensures number { self.new.number ≡ self.old.number }
        ensures patience { self.new.patience ≡ self.old.patience }
    {
        if !matches!(fault, LaunchFault::Door) {
            self.waited = 0;
            self.pause = 1;
        }
        let left = self.patience.saturating_sub(self.waited);
        if left == 0 {
            return None;
        }
        let pause = self.pause.min(left);
        self.waited = self.waited.saturating_add(pause);
        self.pause = self.pause.saturating_mul(2).min(LONGEST_PAUSE);
        Some(pause)
    }

    // How long it waits after a launch with this end. None where it was the last.
    fn wait_after(&mut self, end: &LaunchEnd) -> Option<u32>
        ensures lost { OnSome result (IsLost end.now) }
        ensures none { self.old.patience ≡ 0 → result ≡ None }
        ensures number { self.new.number ≡ self.old.number }
        ensures patience { self.new.patience ≡ self.old.patience }
    {
        let fault = end.fault.as_ref()?;
        if !fault.is_away() {
            return None;
        }
        self.wait(fault)
    }

    /// Counts what a launch with this end counted, and answers how many seconds are waited for the next one; or the end again, where it was the last.
    pub fn go_on(&mut self, end: LaunchEnd) -> Result<u32, LaunchEnd>
        ensures lost { OnOk result (IsLost end) }
        ensures counts { OnOk result (self.new.counts ≡ end.counts) }
        ensures number { OnOk result (self.new.number ≡ self.old.number + 1) }
        ensures last { IfErr result (λ last. last ≡ end) }
        ensures none { OnOk result (self.old.patience ≡ 0 → ⊥) }
        ensures patience { self.new.patience ≡ self.old.patience }
    {
        let Some(next) = self.number.checked_add(1) else {
            return Err(end);
        };
        let Some(seconds) = self.wait_after(&end) else {
            return Err(end);
        };
        self.number = next;
        self.counts = end.counts;
        Ok(seconds)
    }
}
