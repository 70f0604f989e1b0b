// The program `iterate`: items that do nothing are run from the cursor that a store keeps, and how far that went is written.
ghost use Rattle.std.specs.Prelude.{◌≡◌, ◌⊎◌, Err, IfOk};
ghost use Rattle.sk_line.specs.Iterate.{IsIterate};
ghost use Rattle.sk_app.specs.Iterating.{MayRun, Runs, ran_text, told_of};
ghost use Rattle.sk_app.specs.declared.failure.Failure.TheVariants.{Memory};

use crate::Failure;
use crate::question::{AskingLine, Question};
use sk_iter::{Items, IterEnd, IterFault, Iteration, go_on};
use sk_launcher::Address;
use sk_line::{IterateLine, LineFault, read_iterate};
use sk_link::Link;
use sk_resp::{Reply, Word};
use sk_worker::Outcome;
use std::alloc::{AllocError, Global};

/// So many items, each of which does nothing and returns. They tell nothing.
#[derive(Drop)]
struct Idle {
    count: u64,
}

impl Items for Idle {
    ghost use Rattle.std.specs.Prelude.{None};

    ghost count = { λ items. items.count };

    ghost told = { λ _. None };

    fn len(&self) -> u64 {
        self.count
    }

    fn item(&mut self, _alloc: Global, _index: u64) -> Result<Outcome, AllocError> {
        Ok(Outcome::Returned)
    }
}

// How far an iteration over so many items went.
fn ran_text(alloc: Global, count: u32, iteration: &Iteration) -> Result<Word, AllocError>
    ensures { IfOk result (λ text. text ≡ ran_text count iteration.now) }
{
    let from = iteration.cursor;
    let text = match &iteration.end {
        IterEnd::Done => format!(in alloc; "ran {from} to {count}\ndone\n")?,
        IterEnd::Paused(next) => format!(in alloc; "ran {from} to {next}\n")?,
        IterEnd::Raised(index, _) => format!(in alloc; "ran {from} to {index}\n")?,
    };
    Ok(Word::new(text.into_bytes()))
}

// What is told of it.
fn told_of(alloc: Global, count: u32, found: Result<Iteration, IterFault>) -> Result<Word, Failure>
    ensures { (result ≡ Err Memory) ⊎ (result ≡ told_of count found) }
{
    match found {
        Ok(iteration) => Ok(ran_text(alloc, count, &iteration)?),
        Err(IterFault::Cursor(Reply::Bulk(bytes))) => Err(Failure::Cursor(bytes)),
        Err(IterFault::Cursor(reply) | IterFault::Refused(reply)) => Err(Failure::Refused(reply)),
        Err(IterFault::Link(fault)) => Err(Failure::Link(fault)),
        Err(IterFault::Memory) => Err(Failure::Memory),
    }
}

/// The items are run from the cursor on.
impl Question for IterateLine {
    ghost is_ready = { MayRun };

    ghost asks = { Runs };

    fn address(&self) -> &Address {
        &self.address
    }

    fn ask<L: Link>(&self, alloc: Global, link: &mut L) -> Result<Word, Failure> {
        let mut items = Idle {
            count: self.count as u64,
        };
        let jid = self.jid.text();
        let found = go_on(alloc, link, jid, &mut items, self.every, self.most as u64);
        told_of(alloc, self.count, found)
    }
}

impl AskingLine for IterateLine {
    ghost use Rattle.sk_app.specs.IterateLaws.{may_run};

    ghost is_line = { IsIterate };

    fn read(alloc: Global, words: &[String]) -> Result<Self, LineFault> {
        read_iterate(alloc, words)
    }

    ghost ready = { λ words line is. may_run words line is };
}
