// The classes of the program's workers: three to try it with, or those that another program runs.
ghost use Rattle.std.specs.Prelude.{None};

use crate::relay_line::RelayLine;
use sk_app::{Fail, Flip, Note};
use sk_edge::TcpDoor;
use sk_payload::Head;
use sk_relay::Relay;
use sk_resp::Text;
use sk_worker::{Job, Memory, Outcome};
use std::alloc::{AllocError, Global};
use std::time::Duration;

/// A job of the program's workers.
#[derive(Drop)]
pub enum WorkJob {
    Note,
    Fail,
    Flip,
    /// Another program runs it.
    Relay(Relay<TcpDoor<HostRuntime>>),
}

impl Job for WorkJob {
    ghost runs = { λ _. None };

    fn run(&mut self, alloc: Global, head: &Head) -> Result<Outcome, Memory> {
        match self {
            WorkJob::Note => Note.run(alloc, head),
            WorkJob::Fail => Fail.run(alloc, head),
            WorkJob::Flip => Flip.run(alloc, head),
            WorkJob::Relay(relay) => relay.run(alloc, head),
        }
    }
}

fn text(alloc: Global, text: &str) -> Result<Text, AllocError> {
    Ok(Text::new(String::from_str(alloc, text)?))
}

// The three that are there to try the program with.
fn own_classes(alloc: Global) -> Result<Vec<(Text, WorkJob)>, AllocError> {
    let mut classes = Vec::new(alloc);
    classes.push((text(alloc, "Note")?, WorkJob::Note))?;
    classes.push((text(alloc, "Fail")?, WorkJob::Fail))?;
    classes.push((text(alloc, "Flip")?, WorkJob::Flip))?;
    Ok(classes)
}

// Asks the program of this line, which may be silent for so long as the line says.
fn relay(rt: &HostRuntime, line: &RelayLine) -> Result<Relay<TcpDoor<HostRuntime>>, AllocError> {
    let silence = Duration::from_secs(u64::from(line.seconds));
    Ok(Relay {
        net: TcpDoor::patient(*rt, rt.alloc(), silence),
        host: text(rt.alloc(), &line.host)?,
        port: line.port,
    })
}

/// The classes of a team, each with its job: those of the line, where there is one.
pub fn classes(
    rt: &HostRuntime,
    line: Option<&RelayLine>,
) -> Result<Vec<(Text, WorkJob)>, AllocError> {
    let Some(line) = line else {
        return own_classes(rt.alloc());
    };
    let mut classes = Vec::new(rt.alloc());
    for class in &line.classes {
        classes.push((text(rt.alloc(), class)?, WorkJob::Relay(relay(rt, line)?)))?;
    }
    Ok(classes)
}
