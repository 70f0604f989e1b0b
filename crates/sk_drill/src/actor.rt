// Who acts in a turn of a load, and what a drawn word says of it.
ghost use Rattle.std.specs.Prelude.{◌≡◌, ◌<◌};
ghost use Rattle.sk_drill.specs.Actors.{actor_of, process_of, queue_of};

/// Who acts in a turn.
#[derive(Clone, Copy)]
pub(crate) enum Actor {
    /// A client pushes the next job.
    Client,
    /// The poller of the first process does its round.
    Poller,
    /// A worker's seat is cut off.
    Crash,
    /// The worker at this seat does its next step.
    Worker(u32),
}

impl Actor {
    /// The actor that a word below 8 names.
    #[tactic(auto, unfolding(crate::specs::Actors::actor_of))]
    pub(crate) fn of(word: u32) -> Actor
        ensures { result ≡ actor_of word }
    {
        match word {
            0 | 1 => Actor::Client,
            2 => Actor::Poller,
            3 => Actor::Crash,
            _ => Actor::Worker(word - 3),
        }
    }
}

/// The queue that a word below 8 names.
#[tactic(auto, unfolding(crate::specs::Actors::queue_of))]
pub(crate) fn queue_of(word: u32) -> &'static str
    ensures { result.now ≡ queue_of word }
{
    if word < 5 {
        return "critical";
    }
    if word < 7 { "default" } else { "low" }
}

/// The process to which a worker's seat belongs: seats 1 and 2 to the first one, 3 and 4 to the second.
#[tactic(auto, unfolding(crate::specs::Actors::process_of))]
pub(crate) fn process_of(seat: u32) -> &'static str
    ensures { result.now ≡ process_of seat }
{
    if seat <= 2 { "w:1:a" } else { "w:2:b" }
}
