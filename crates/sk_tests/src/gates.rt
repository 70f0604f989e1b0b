// Jobs behind a gate.
ghost use Rattle.std.specs.Prelude.{None, Result};
ghost use Rattle.std.specs.declared.alloc.AllocError.{AllocError};
ghost use Rattle.sk_payload.specs.declared.head.Head.{Head};
ghost use Rattle.sk_middle.specs.declared.gate.Verdict.{Verdict};

use sk_middle::{Gate, Memory, Verdict, wrap};
use sk_payload::{Head, Payload};
use sk_policy::{DelayRule, plain_delay};
use sk_resp::{Text, Word};
use sk_worker::{Job, Outcome, Raised, Registry};
use std::alloc::Global;
use std::test::Fail;

fn text(alloc: Global, text: &str) -> Result<Text, Memory> {
    Ok(Text::new(String::from_str(alloc, text)?))
}

/// The text of a job.
const NOTE: &[u8] =
    b"{\"args\":[],\"class\":\"Note\",\"created_at\":0,\"jid\":\"j1\",\"queue\":\"default\",\"retry\":true}";

// Returns.
#[derive(Drop)]
struct Quick;

impl Job for Quick {
    ghost runs = { λ _. None };

    fn run(&mut self, _alloc: Global, _head: &Head) -> Result<Outcome, Memory> {
        Ok(Outcome::Returned)
    }
}

// Raises an error for every head where it is shut.
#[derive(Drop)]
struct Barrier {
    alloc: Global,
    shut: bool,
}

impl Gate for Barrier {
    ghost answers = { λ _ _ _. Unit {0} };

    fn ask(&self, _head: &Head) -> Result<Verdict, Memory> {
        if !self.shut {
            return Ok(Verdict::Go);
        }
        Ok(Verdict::Raise(Raised {
            class: text(self.alloc, "Shut")?,
            message: text(self.alloc, "the gate is shut")?,
        }))
    }
}

// Whether a run of the job raises an error. None where there is no job to run.
fn raises<J: Job>(alloc: Global, mut job: J) -> Result<Option<bool>, Memory> {
    let payload = Payload::of(alloc, Word::new(NOTE.to_vec(alloc)?))?;
    let Some(head) = payload.head() else {
        return Ok(None);
    };
    let outcome = job.run(alloc, head)?;
    Ok(Some(matches!(outcome, Outcome::Raised(_))))
}

#[test]
fn a_gate_lets_a_run_begin_or_raises(rt: HostRuntime) -> Result<(), Fail> {
    let alloc = rt.alloc();
    let open = wrap(Quick, Barrier { alloc, shut: false });
    assert!(rt; raises(alloc, open)? == Some(false));
    let shut = wrap(Quick, Barrier { alloc, shut: true });
    assert!(rt; raises(alloc, shut)? == Some(true));
    Ok(())
}

#[test]
fn a_wrapped_job_is_added_to_a_registry(rt: HostRuntime) -> Result<(), Fail> {
    let alloc = rt.alloc();
    let mut registry = Registry::new(alloc);
    let gate = Barrier { alloc, shut: true };
    let job: Box<dyn Job + Send> = Box::new(alloc, wrap(Quick, gate))?;
    let delay: Box<dyn Fn(u32) -> u64 + Send> = Box::new(alloc, |count: u32| plain_delay(count))?;
    let added = registry.add(text(alloc, "Quick")?, job, DelayRule::new(delay));
    assert!(rt; added.is_ok());
    Ok(())
}
