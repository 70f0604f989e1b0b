// What a program asks of a store: a connection is made, the question is put over it, and the connection is left to the door.
ghost use Rattle.std.specs.Prelude.{◌≡◌, ◌⊎◌, Err};
ghost use Rattle.sk_base.specs.Outside.{Rose};
ghost use Rattle.sk_app.specs.Dialogue.{Dials};
ghost use Rattle.sk_app.specs.Ending.{Ends};
ghost use Rattle.sk_app.specs.Promises.{AskDone, DoAsk, texts};
ghost use Rattle.sk_app.specs.declared.failure.Failure.TheVariants.{Line};

use crate::Failure;
use crate::ending::conclude;
use sk_base::Sink;
use sk_edge::Door;
use sk_launcher::Address;
use sk_line::LineFault;
use sk_link::{Link, WireLink};
use sk_resp::Word;
use std::alloc::Global;

/// What a program asks of a store, and tells of its answer.
pub trait Question {
    ghost use Rattle.std.specs.Prelude.{◌≡◌, ◌⊎◌, List, Result, Err};
    ghost use Rattle.sk_resp.specs.Spelling.{Bytes};
    ghost use Rattle.sk_link.specs.Call.{Call};
    ghost use Rattle.sk_app.specs.declared.failure.Failure.{Failure};
    ghost use Rattle.sk_app.specs.declared.failure.Failure.TheVariants.{Line, Memory};

    /// It may be asked.
    ghost is_ready: { Self → Type 0 };

    /// Over a link that carried these calls it was asked, and this came of it.
    ghost asks: { Self → (List Call → Type 0) → Result Bytes Failure → Type 0 };

    /// Where the store is.
    fn address(&self) -> &Address;

    /// Asks it over the link.
    fn ask<L: Link>(&self, alloc: Global, link: &mut L) -> Result<Word, Failure>
        requires { is_ready self.now }
        ensures told { (result ≡ Err Memory) ⊎ asks self.now (L.carried link.old link.new) result }
        ensures never { result ≡ Err Line → ⊥ };
}

/// A question that the words of a command line are.
pub trait AskingLine: Question {
    ghost use Rattle.std.specs.Prelude.{List, map, string_bytes};
    ghost use Rattle.clap.specs.Words.{Text};
    ghost use Rattle.sk_line.specs.Lines.{Reads};

    /// The words ask it.
    ghost is_line: { List Text → Self → Type 0 };

    /// What the words ask.
    ///
    /// Errors: `Refused` exactly where they ask nothing of the kind.
    fn read(alloc: Global, words: &[String]) -> Result<Self, LineFault>
        ensures { Reads (is_line (map string_bytes words.now)) result };

    ghost ready: { (words : List Text) (q : Self) → is_line words q → Self.is_ready q };
}

/// Asks over a connection of its own, which is left to the door.
pub fn dial<N: Door, Q: Question>(alloc: Global, net: &mut N, question: &Q) -> Result<Word, Failure>
    requires { Q.is_ready question.now }
    ensures told { Dials N.Door N.Conn.Source N.Conn.Sink net.old net.new (Q.asks question.now) result }
    ensures never { result ≡ Err Line → ⊥ }
{
    let address = question.address();
    let conn = net.connect(address.host.text(), address.port)?;
    let mut link = WireLink::new(alloc, conn);
    let outcome = question.ask(alloc, &mut link);
    net.leave(link.into_conn());
    outcome
}

// What a program comes to that asks what its words are.
fn outcome_by<N: Door, Q: AskingLine + Drop>(
    alloc: Global,
    words: &[String],
    net: &mut N,
) -> Result<Word, Failure>
    ensures told { DoAsk N.Door N.Conn.Source N.Conn.Sink (Q.is_line (texts words.now)) Q.asks net.old net.new result }
    ensures untouched { result ≡ Err Line → net.new ≡ net.old }
{
    let question = Q::read(alloc, words)?;
    dial(alloc, net, &question)
}

/// Asks what the words are, and writes what comes of it. Answers the status: 0, or what [`Failure::status`] says, or 4 where the sink failed.
pub fn run_question<K: Sink, N: Door, Q: AskingLine + Drop>(
    alloc: Global,
    words: &[String],
    sink: &mut K,
    net: &mut N,
) -> u8
    ensures told { Ends K.Sink sink.old sink.new result
        (DoAsk N.Door N.Conn.Source N.Conn.Sink (Q.is_line (texts words.now)) Q.asks net.old net.new) }

    // Such a line is done, unless the door fails or its question does, where the sink takes what is told.
    ensures completes { AskDone N.Door N.Conn.Source N.Conn.Sink (Q.is_line (texts words.now)) Q.asks net.old net.new result }

    // With status 4 the sink's count of faults rose.
    ensures sink_cause { result ≡ 4 → Rose (K.write_faults sink.old) (K.write_faults sink.new) }

    // With status 2 nothing was written, and no connection was made.
    ensures untouched { result ≡ 2 → (sink.new ≡ sink.old) × (net.new ≡ net.old) }
{
    let outcome = outcome_by::<N, Q>(alloc, words, net);
    conclude(alloc, sink, outcome)
}
