// The jobs of the shipped program: one that returns, one that raises, and one that raises once.
ghost use Rattle.std.specs.Prelude.{◌≡◌, IfOk, None};
ghost use Rattle.sk_app.specs.Classes.{fail_outcome, flip_outcome};

use sk_payload::Head;
use sk_resp::Text;
use sk_worker::{Job, Memory, Outcome, Raised};
use std::alloc::Global;

// The error class `Failure`, with the message `asked to fail`.
fn asked_to_fail(alloc: Global) -> Result<Outcome, Memory>
    ensures { IfOk result (λ outcome. outcome ≡ fail_outcome) }
{
    Ok(Outcome::Raised(Raised {
        class: Text::new(String::from_str(alloc, "Failure")?),
        message: Text::new(String::from_str(alloc, "asked to fail")?),
    }))
}

// Raises at the job's first run, and returns at each later one.
fn fail_once(alloc: Global, head: &Head) -> Result<Outcome, Memory>
    ensures { IfOk result (λ outcome. outcome ≡ flip_outcome head.now.gen_) }
{
    if head.gen_ == 0 {
        asked_to_fail(alloc)
    } else {
        Ok(Outcome::Returned)
    }
}

/// The job of the class `Note`: it always returns. It tells no runs.
#[derive(Drop)]
pub struct Note;

impl Job for Note {
    ghost runs = { λ _. None };

    fn run(&mut self, _alloc: Global, _head: &Head) -> Result<Outcome, Memory> {
        Ok(Outcome::Returned)
    }
}

/// The job of the class `Fail`: it always raises `Failure` with the message `asked to fail`. It tells no runs.
#[derive(Drop)]
pub struct Fail;

impl Job for Fail {
    ghost runs = { λ _. None };

    fn run(&mut self, alloc: Global, _head: &Head) -> Result<Outcome, Memory> {
        asked_to_fail(alloc)
    }
}

/// The job of the class `Flip`: it raises as `Fail` at its first run, and returns at each later one. It tells no runs.
#[derive(Drop)]
pub struct Flip;

impl Job for Flip {
    ghost runs = { λ _. None };

    fn run(&mut self, alloc: Global, head: &Head) -> Result<Outcome, Memory> {
        fail_once(alloc, head)
    }
}
