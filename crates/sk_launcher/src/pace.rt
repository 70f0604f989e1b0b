// How long a worker waits for its next turn.
ghost use Rattle.std.specs.Prelude.{◌≡◌, ◌≤◌, ◌≢◌, MatchOption};
ghost use Rattle.sk_base.specs.declared.limits.TheConstants.{IDLE_PAUSE};
ghost use Rattle.sk_worker.specs.declared.turn.Turn.TheVariants.{Empty};

use sk_base::limits::IDLE_PAUSE;
use sk_worker::Turn;

/// How long a worker waits after turns that found no job: at first a part of the pause of an idle worker, as long as its place among the workers says,
/// and then that pause. So they look for jobs one after another, and not all at a time.
#[derive(Drop)]
pub(crate) struct Pace {
    first: u64,
    is_idle: bool,
}

impl Pace {
    /// The pace of the worker with this number, among so many.
    pub fn new(number: usize, workers: u32) -> Pace
        ensures { result.first ≤ IDLE_PAUSE }
    {
        let workers = u64::from(workers).max(1);
        let place = number as u64 % workers + 1;
        Pace {
            first: IDLE_PAUSE * place / workers,
            is_idle: false,
        }
    }

    /// How many milliseconds it waits after a turn. It doesn't wait after one that had a job.
    pub fn after(&mut self, last: Turn) -> Option<u64>
        ensures same { self.new.first ≡ self.old.first }
        ensures pause { MatchOption result (last ≢ Empty) (λ pause. last ≡ Empty) }
    {
        if last != Turn::Empty {
            self.is_idle = false;
            return None;
        }
        let pause = if self.is_idle { IDLE_PAUSE } else { self.first };
        self.is_idle = true;
        Some(pause)
    }
}
