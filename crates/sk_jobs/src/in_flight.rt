// Which of the jobs in a seat's hands a command is about: the first, in order of fetching, that it fits. Nothing here takes memory.
ghost use Rattle.std.specs.Prelude.{◌≡◌, IfErr, IfOk};
ghost use Rattle.sk_resp.specs.Spelling.{Bytes};
ghost use Rattle.sk_model.specs.Outcome.{Outcome, refuses};
ghost use Rattle.sk_model.specs.Seats.{where_some};
ghost use Rattle.sk_seats.specs.Works.{is_buried_as, is_held_as, is_retried_as};
ghost use Rattle.sk_jobs.specs.Seated.{IsFound};

use sk_payload::JobText;
use sk_resp::{Refusal, Word};
use sk_seats::Phase;

/// The index of the job of this text that the seat holds. Else this is the refusal.
pub fn find_held(phase: &Phase, text: &Word) -> Result<usize, Refusal>
    ensures found { IfOk result (λ at. IsFound (is_held_as text.now) phase.now at) }
    ensures refused { IfErr result (λ refusal. (o : Bytes → Outcome) → where_some phase.now (is_held_as text.now) o ≡ refuses refusal) }
{
    match phase {
        Phase::Plain => Err(Refusal::NotWorker),
        Phase::Joined(_, works) => works.find_held(text.bytes()).ok_or(Refusal::OutOfTurn),
    }
}

/// The index of the job that the seat holds and that this payload follows after a failure. Else this is the refusal.
pub fn find_retried(phase: &Phase, next: &JobText) -> Result<usize, Refusal>
    ensures found { IfOk result (λ at. IsFound (is_retried_as next.now) phase.now at) }
    ensures refused { IfErr result (λ refusal. (o : Bytes → Outcome) → where_some phase.now (is_retried_as next.now) o ≡ refuses refusal) }
{
    match phase {
        Phase::Plain => Err(Refusal::NotWorker),
        Phase::Joined(_, works) => works.find_retried(next).ok_or(Refusal::OutOfTurn),
    }
}

/// The index of the job that the seat holds and that may be buried as this payload. Else this is the refusal.
pub fn find_buried(phase: &Phase, next: &JobText) -> Result<usize, Refusal>
    ensures found { IfOk result (λ at. IsFound (is_buried_as next.now) phase.now at) }
    ensures refused { IfErr result (λ refusal. (o : Bytes → Outcome) → where_some phase.now (is_buried_as next.now) o ≡ refuses refusal) }
{
    match phase {
        Phase::Plain => Err(Refusal::NotWorker),
        Phase::Joined(_, works) => works.find_buried(next).ok_or(Refusal::OutOfTurn),
    }
}
