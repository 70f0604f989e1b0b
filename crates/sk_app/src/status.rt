// The program `status`: the store is asked for its page, which is written.
ghost use Rattle.std.specs.Prelude.{◌≡◌, IfOk};
ghost use Rattle.sk_base.specs.Outside.{Rose};
ghost use Rattle.sk_line.specs.Lines.{IsStatus};
ghost use Rattle.sk_app.specs.Ending.{Ends};
ghost use Rattle.sk_app.specs.Paging.{Asks, page_of, status_words};
ghost use Rattle.sk_app.specs.Promises.{DoStatus, StatusDone};

use crate::Failure;
use crate::question::{AskingLine, Question, run_question};
use sk_base::Sink;
use sk_edge::Door;
use sk_launcher::Address;
use sk_line::{LineFault, StatusLine, read_status};
use sk_link::{Link, words_of};
use sk_resp::{Reply, Word, Words};
use std::alloc::{AllocError, Global};

// `SK.STATUS`
fn status_words(alloc: Global) -> Result<Words, AllocError>
    ensures { IfOk result (λ words. words ≡ status_words) }
{
    Ok(Words::new(words_of(alloc, &[b"SK.STATUS"])?))
}

// The page that a reply is.
fn page_of(reply: Reply) -> Result<Word, Failure>
    ensures { result ≡ page_of reply }
{
    match reply {
        Reply::Bulk(page) => Ok(page),
        other => Err(Failure::Refused(other)),
    }
}

/// The store is asked for its page.
impl Question for StatusLine {
    ghost is_ready = { λ _. Unit {0} };

    ghost asks = { λ _. Asks };

    fn address(&self) -> &Address {
        &self.address
    }

    fn ask<L: Link>(&self, alloc: Global, link: &mut L) -> Result<Word, Failure> {
        let words = status_words(alloc)?;
        match link.call(alloc, &words) {
            Ok(reply) => page_of(reply),
            Err(fault) => Err(Failure::Link(fault)),
        }
    }
}

impl AskingLine for StatusLine {
    ghost is_line = { IsStatus };

    fn read(alloc: Global, words: &[String]) -> Result<Self, LineFault> {
        read_status(alloc, words)
    }

    ghost ready = { λ _ _ _. tt };
}

/// Writes the page of the store that the words, which begin with `status`, name. Answers the status: 0, or what [`Failure::status`] says, or 4 where the
/// sink failed.
pub fn run_status<K: Sink, N: Door>(
    alloc: Global,
    words: &[String],
    sink: &mut K,
    net: &mut N,
) -> u8
    ensures told { Ends K.Sink sink.old sink.new result (DoStatus N.Door N.Conn.Source N.Conn.Sink words.now net.old net.new) }

    // A line of `status` is done, unless the door fails or its request gets no page, where the sink takes the page.
    ensures completes { StatusDone N.Door N.Conn.Source N.Conn.Sink words.now net.old net.new result }

    // With status 4 the sink's count of faults rose.
    ensures sink_cause { result ≡ 4 → Rose (K.write_faults sink.old) (K.write_faults sink.new) }

    // With status 2 nothing was written, and no connection was made.
    ensures untouched { result ≡ 2 → (sink.new ≡ sink.old) × (net.new ≡ net.old) }
{
    run_question::<K, N, StatusLine>(alloc, words, sink, net)
}
