// The program `limit`: its words are read, a token is drawn, a limiter is asked for a slot or a grant over a connection, and its answer is written.
ghost use Rattle.std.specs.Prelude.{◌≡◌, ◌⊎◌, Err, true};
ghost use Rattle.sk_base.specs.Outside.{Rose};
ghost use Rattle.sk_app.specs.Limiting.{Limits, asked_by, granted_text, held_text, told_of, wish_of};
ghost use Rattle.sk_app.specs.Promises.{DoLimit, LimitDone, LimitEnds};
ghost use Rattle.sk_app.specs.declared.failure.Failure.TheVariants.{Line, Memory};
ghost use Rattle.sk_limit.specs.Hold.{is_hold};

use crate::Failure;
use crate::ending::{conclude, line};
use crate::question::{Question, dial};
use sk_base::{Dice, Sink};
use sk_client::fresh_jid;
use sk_edge::Door;
use sk_launcher::Address;
use sk_limit::{HeldSlot, LimitFault, grant, hold};
use sk_line::{LimitKind, LimitLine, read_limit};
use sk_link::Link;
use sk_resp::{Text, Word};
use std::alloc::Global;

/// What a limiter is asked for.
#[derive(Drop)]
pub struct Asked {
    /// Which limiter, for what.
    pub line: LimitLine,
    /// What stands in a slot that is held: a fresh id.
    pub token: Text,
}

impl From<LimitFault> for Failure {
    ghost use Rattle.std.specs.Prelude.{◌≡◌};
    ghost use Rattle.sk_app.specs.Limiting.{by_limiter};

    ghost from_gives = { λ fault e. e ≡ by_limiter fault };

    fn from(fault: LimitFault) -> Self {
        match fault {
            LimitFault::Name => Failure::Line,
            LimitFault::Link(fault) => Failure::Link(fault),
            LimitFault::Refused(reply) => Failure::Refused(reply),
            LimitFault::Memory => Failure::Memory,
        }
    }
}

// What is told of a hold.
fn told_of_hold(
    alloc: Global,
    answer: Result<Option<HeldSlot>, LimitFault>,
) -> Result<Word, Failure>
    ensures { (result ≡ Err Memory) ⊎ (result ≡ told_of held_text answer) }
{
    match answer? {
        Some(held) => {
            let slot = format!(in alloc; "{}", held.slot)?;
            Ok(line(alloc, b"held ", slot.as_bytes())?)
        }
        None => Ok(line(alloc, b"over", b"")?),
    }
}

// What is told of a grant.
fn told_of_grant(alloc: Global, answer: Result<bool, LimitFault>) -> Result<Word, Failure>
    ensures { (result ≡ Err Memory) ⊎ (result ≡ told_of granted_text answer) }
{
    if answer? {
        return Ok(line(alloc, b"granted", b"")?);
    }
    Ok(line(alloc, b"over", b"")?)
}

/// A limiter is asked. The name, the numbers and the token have to be those of one.
impl Question for Asked {
    ghost is_ready = { λ q. is_hold (wish_of q) ≡ true };

    ghost asks = { Limits };

    fn address(&self) -> &Address {
        &self.line.address
    }

    fn ask<L: Link>(&self, alloc: Global, link: &mut L) -> Result<Word, Failure> {
        let name = self.line.name.text();
        let most = self.line.most;
        let millis = self.line.millis as u64;
        match self.line.kind {
            LimitKind::Hold => {
                let answer = hold(alloc, link, name, most, millis, self.token.text());
                told_of_hold(alloc, answer)
            }
            LimitKind::Grant => told_of_grant(alloc, grant(alloc, link, name, most, millis)),
        }
    }
}

// What `limit` comes to.
fn outcome_by<N: Door, D: Dice>(
    alloc: Global,
    words: &[String],
    net: &mut N,
    dice: &mut D,
) -> Result<Word, Failure>
    ensures told { DoLimit N.Door N.Conn.Source N.Conn.Sink D.Dice words.now net.old dice.old net.new dice.new result }
    ensures untouched { result ≡ Err Line → net.new ≡ net.old }
{
    let line = read_limit(alloc, words)?;
    let token = fresh_jid(alloc, dice)?;
    let asked = Asked { line, token };
    dial(alloc, net, &asked)
}

/// Asks the limiter that the words, which begin with `limit`, name, and writes `held`, a space, the number of the slot and LF; or `granted` and LF; or,
/// where no slot is free or the window is used up, `over` and LF. Answers the status: 0 for these, and else what [`Failure::status`] says, or 4 where the
/// sink failed.
pub fn run_limit<K: Sink, N: Door, D: Dice>(
    alloc: Global,
    words: &[String],
    sink: &mut K,
    net: &mut N,
    dice: &mut D,
) -> u8
    ensures told { LimitEnds K.Sink N.Door N.Conn.Source N.Conn.Sink D.Dice words.now sink.old net.old dice.old sink.new net.new dice.new result }

    // A line of `limit` is done, unless the door fails or one of its requests isn't answered as it wants, where the sink takes what is told.
    ensures completes { LimitDone N.Door N.Conn.Source N.Conn.Sink words.now net.old net.new result }

    // With status 4 the sink's count of faults rose.
    ensures sink_cause { result ≡ 4 → Rose (K.write_faults sink.old) (K.write_faults sink.new) }

    // With status 2 nothing was written, and no connection was made.
    ensures untouched { result ≡ 2 → (sink.new ≡ sink.old) × (net.new ≡ net.old) }
{
    let outcome = outcome_by(alloc, words, net, dice);
    conclude(alloc, sink, outcome)
}
