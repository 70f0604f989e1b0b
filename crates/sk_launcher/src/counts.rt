// Turns by answer.
ghost use Rattle.std.specs.Prelude.{◌≡◌};
ghost use Rattle.sk_launcher.specs.Counting.{no_turns};

/// How many turns of workers came to each answer. A turn that found no job isn't counted.
#[derive(Clone, Copy, Debug, PartialEq, Eq)]
pub struct Counts {
    /// The job's run returned.
    pub done: u64,
    /// The job's run raised an error, and it is tried again later.
    pub retried: u64,
    /// The job's run raised an error, or it has no head, and it is a dead job now.
    pub buried: u64,
    /// The job's run raised an error, and it is forgotten.
    pub discarded: u64,
}

impl Counts {
    pub(crate) fn none() -> Counts
        ensures { result ≡ no_turns }
    {
        Counts {
            done: 0,
            retried: 0,
            buried: 0,
            discarded: 0,
        }
    }
}
