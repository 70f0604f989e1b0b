// What a worker's commands on keys do: LMOVE to a private list, ZADD on `retry`, LREM on a private list.
ghost use Rattle.std.specs.Prelude.{◌≡◌, None, OnErr, false, Some};
ghost use Rattle.std.specs.Option.{MatchOption};
ghost use Rattle.sk_model.specs.Seats.{fetched_from, only, released_by, releases};
ghost use Rattle.sk_model.specs.Workers.{work};
ghost use Rattle.sk_model.specs.World.{phase_of};
ghost use Rattle.sk_store.specs.Stored.{IsReady, Executes, world};

use crate::fetches::fetch;
use crate::releases::release;
use crate::retries::retry;
use sk_base::Score;
use sk_cmd::{Scores, Side};
use sk_key::{ident_of, is_list_of, is_queue, queue_of};
use sk_resp::{Memory, Refusal, Reply, Text, Word};
use sk_seats::Phase;
use sk_store::Store;
use sk_value::{Action, WriteOp, refused};

// LMOVE queue:name sq:ident RIGHT LEFT, where the identity is that of the seat's process: the identity and the name.
fn fetched_from(ident: &Text, action: Action) -> Option<(Word, Text)>
    ensures { MatchOption result (fetched_from ident.now action ≡ None) (λ way. (way.0 ≡ ident.now) × (fetched_from ident.now action ≡ Some way.1)) }
{
    let Action::Move(source, destination, Side::Right, Side::Left) = action else {
        return None;
    };
    if is_queue(source.bytes()) && is_list_of(ident.text().as_bytes(), destination.bytes()) {
        Some((ident_of(destination), queue_of(source)))
    } else {
        None
    }
}

// The only one of pairs.
fn only(pairs: Scores) -> Option<(Score, Word)>
    ensures { result ≡ only pairs }
{
    let mut list = pairs.into_list();
    if list.len() != 1 {
        return None;
    }
    list.pop()
}

// LREM sq:ident 1 text, where the identity is that of the seat's process: the identity and the text. Takes no memory.
fn released_by(ident: &Text, key: Word, edit: WriteOp) -> Option<(Word, Word)>
    ensures { MatchOption result (released_by ident.now key edit ≡ None) (λ r. (r.0 ≡ ident.now) × (released_by ident.now key edit ≡ Some r.1)) }
{
    let WriteOp::Lrem(count, text) = edit else {
        return None;
    };
    if count == 1 && is_list_of(ident.text().as_bytes(), key.bytes()) {
        Some((ident_of(key), text))
    } else {
        None
    }
}

/// Does what a worker's command on keys does. A release takes no memory.
pub fn work(store: &mut Store, seat: u32, action: Action) -> Result<Reply, Memory>
    requires { IsReady store.old }
    ensures ran { Executes store.old (work (world store.old) seat (phase_of (world store.old) seat) action) result store.new }
    ensures release { OnErr result (releases (phase_of (world store.old) seat) action ≡ false) }
{
    let Phase::Joined(ident, _) = store.seats.get(seat) else {
        return Ok(refused(Refusal::NotWorker));
    };
    let Action::WriteOp(key, edit) = action else {
        return match fetched_from(ident, action) {
            Some((ident, queue)) => fetch(store, seat, ident, queue),
            None => Ok(refused(Refusal::OutOfTurn)),
        };
    };
    let WriteOp::Zadd(pairs) = edit else {
        return match released_by(ident, key, edit) {
            Some((ident, text)) => Ok(release(store, seat, ident, &text)),
            None => Ok(refused(Refusal::OutOfTurn)),
        };
    };
    match only(pairs) {
        Some(pair) => retry(store, seat, pair),
        None => Ok(refused(Refusal::OutOfTurn)),
    }
}
