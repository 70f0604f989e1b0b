// A job in hand, and what a worker asks of it at its end. Each function asks once and hands on to the next.
ghost use Rattle.std.specs.Prelude.{◌≡◌, None};
ghost use Rattle.sk_payload.specs.Head.{head as head_of};
ghost use Rattle.sk_worker.specs.Stage.{Buries, Places, Settles, Stage, holding, releasing, returned};

use crate::Memory;
use crate::say::{release_request, say, script};
use crate::turn::{Turn, WorkFault};
use sk_link::{Answer, Link};
use sk_payload::Payload;
use sk_resp::{Text, Words};
use std::alloc::Global;

/// A payload in the private list of this process.
#[derive(Drop)]
pub(crate) struct InHand<'a> {
    pub ident: &'a Text,
    pub payload: &'a Payload,
}

impl InHand<'_> {
    // Takes the payload out of the private list.
    fn release<L: Link>(&self, alloc: Global, link: &mut L, turn: Turn) -> Result<Turn, WorkFault>
        ensures { Settles (L.carried link.old link.new) self.now.ident.now (releasing self.now.payload.now turn) result }
    {
        let words = release_request(alloc, self.ident, self.payload);
        match say(alloc, link, words, Answer::Number) {
            Ok(_) => Ok(turn),
            Err(fault) => Err(fault),
        }
    }

    /// Sends the request that gives the job its place, and releases it.
    pub(crate) fn place<L: Link>(
        &self,
        alloc: Global,
        link: &mut L,
        words: Result<Words, Memory>,
        wanted: Answer,
        turn: Turn,
    ) -> Result<Turn, WorkFault>
        ensures { (from : Stage) → Places from words wanted self.now.payload.now turn
            → Settles (L.carried link.old link.new) self.now.ident.now from result }
    {
        match say(alloc, link, words, wanted) {
            Ok(_) => self.release(alloc, link, turn),
            Err(fault) => Err(fault),
        }
    }

    /// Buries the job with this text, and releases it.
    pub(crate) fn bury<L: Link>(
        &self,
        alloc: Global,
        link: &mut L,
        text: &Payload,
    ) -> Result<Turn, WorkFault>
        ensures { (from : Stage) → Buries from text.now self.now.payload.now
            → Settles (L.carried link.old link.new) self.now.ident.now from result }
    {
        let words = script(alloc, b"SK.BURY", text);
        self.place(alloc, link, words, Answer::Report, Turn::Buried)
    }

    /// Buries a job without a head.
    pub(crate) fn bury_bare<L: Link>(&self, alloc: Global, link: &mut L) -> Result<Turn, WorkFault>
        requires { head_of self.now.payload.now ≡ None }
        ensures { Settles (L.carried link.old link.new) self.now.ident.now (holding self.now.payload.now) result }
    {
        self.bury(alloc, link, self.payload)
    }

    /// Tells the store that the run returned.
    pub(crate) fn finish<L: Link>(&self, alloc: Global, link: &mut L) -> Result<Turn, WorkFault>
        ensures { Settles (L.carried link.old link.new) self.now.ident.now (returned self.now.payload.now) result }
    {
        let words = script(alloc, b"SK.OK", self.payload);
        self.place(alloc, link, words, Answer::List, Turn::Done)
    }
}
