// How a worker fetches, and what it holds afterwards.
ghost use Rattle.std.specs.Prelude.{◌≡◌, ◌<◌, ◌++◌, [], ◌∷◌, All, OnErr, OnOk, length};
ghost use Rattle.sk_worker.specs.Promises.{Fetches, Fills};

use crate::Memory;
use crate::say::{fetch_request, say};
use crate::turn::WorkFault;
use crate::worker::Worker;
use sk_base::Dice;
use sk_link::{Answer, Link};
use sk_payload::Payload;
use sk_resp::{Reply, Text, Word};
use std::alloc::Global;
use std::collections::VecDeque;

// Whose private list jobs are moved into, from which queues, and how many are held at most.
#[derive(Drop)]
struct Fetcher<'a> {
    ident: &'a Text,
    names: &'a [Text],
    prefetch: usize,
}

// Asks the queues at these places, each until it answers null, as long as there is room.
fn fetch<L: Link>(
    alloc: Global,
    link: &mut L,
    fetcher: &Fetcher<'_>,
    places: &[usize],
    held: &mut VecDeque<Payload>,
) -> Result<(), WorkFault>
    requires { All (λ place. place < length fetcher.now.names.now) places.now }
    ensures { Fetches (L.carried link.old link.new) fetcher.now places.now held.old.items held.new.items result }
{
    if held.len() >= fetcher.prefetch {
        return Ok(());
    }
    let [place, rest @ ..] = places else {
        return Ok(());
    };
    let words = fetch_request(alloc, fetcher.ident, &fetcher.names[*place]);
    let reply = match say(alloc, link, words, Answer::Popped) {
        Ok(reply) => reply,
        Err(fault) => return Err(fault),
    };
    match reply {
        Reply::Bulk(text) => match keep(alloc, held, text) {
            Ok(()) => fetch(alloc, link, fetcher, places, held),
            Err(_) => Err(WorkFault::Memory),
        },
        _ => fetch(alloc, link, fetcher, rest, held),
    }
}

// Holds what was fetched, as the newest.
fn keep(alloc: Global, held: &mut VecDeque<Payload>, text: Word) -> Result<(), Memory>
    ensures ok { OnOk result (held.new.items ≡ held.old.items ++ text ∷ []) }
    ensures err { OnErr result (held.new.items ≡ held.old.items) }
{
    held.push_back(Payload::of(alloc, text)?)?;
    Ok(())
}

impl Worker {
    /// Fetches, where there is room: draws an order of the queues, and asks them.
    pub(crate) fn fill<L: Link, D: Dice>(
        &mut self,
        alloc: Global,
        link: &mut L,
        dice: &mut D,
    ) -> Result<(), WorkFault>
        ensures told { Fills (L.carried link.old link.new) (D.words dice.old) (D.words dice.new) self.old self.new.held.items result }
        ensures ident { self.new.ident ≡ self.old.ident }
        ensures order { self.new.order ≡ self.old.order }
        ensures plain { self.new.plain ≡ self.old.plain }
        ensures prefetch { self.new.prefetch ≡ self.old.prefetch }
    {
        if self.prefetch <= self.held.len() {
            return Ok(());
        }
        let places = match self.order.turn(alloc, dice) {
            Ok(places) => places,
            Err(_) => return Err(WorkFault::Memory),
        };
        let fetcher = Fetcher {
            ident: &self.ident,
            names: self.order.names(),
            prefetch: self.prefetch,
        };
        fetch(alloc, link, &fetcher, &places, &mut self.held)
    }
}
