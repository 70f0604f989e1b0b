// The index of the sets' texts: the set, the text and the score of each row of a set. The least score of a text in a set is looked up in it, and by
// the score the row. Rows of queues and of private lists have no key.
ghost use Rattle.std.specs.Prelude.{◌≡◌, ◌+◌, ◌<◌, ◌≤◌, IfOk, None, filter, not};
ghost use Rattle.sk_undo.specs.Versions.{edited};
ghost use Rattle.sk_places.specs.TextKey.{key_cmp, key_in, key_query_of, set_order, set_query, text_order, text_query};
ghost use Rattle.sk_places.specs.GoneRows.{is_in};
ghost use Rattle.sk_places.specs.TextIndex.{IsLeastScore, key_at, with_key, without_key};

use crate::Memory;
use crate::row::{Place, RowKey};
use crate::search::compare_scores;
use crate::text_key::{TextKey, compare_set, compare_text};
use sk_base::Score;
use sk_cmd::Scored;
use sk_payload::JobText;
use sk_table::hash_of;
use sk_undo::{Query, UndoMultiset};
use std::cmp::Ordering;
use std::marker::Model;

/// The keys in order, each as often as rows have it.
pub type TextIndex = UndoMultiset<TextKey>;

// All keys of a set.
#[derive(Drop)]
struct OfSet {
    set: Scored,
}

impl Query<TextKey> for OfSet {
    ghost order = { λ query. set_order query.set };

    fn cmp_key(&self, key: &TextKey) -> Ordering {
        compare_set(self.set, key)
    }

    ghost is_query = { λ query. set_query query.set };
}

// All keys of a text in a set.
#[derive(Drop)]
struct OfText<'a> {
    set: Scored,
    hash: u32,
    text: &'a [u8],
}

impl<'a> Model for OfText<'a> {
    ghost use Rattle.std.specs.Prelude.{◌≡◌};
    ghost use Rattle.sk_resp.specs.Spelling.{Bytes};
    ghost use Rattle.sk_cmd.specs.declared.argument.Scored.{Scored};
    ghost use Rattle.sk_table.specs.Hashing.{hash_of};

    ghost Value = { Scored × Bytes };

    ghost view = { λ q. (q.set, q.text.now) };

    ghost invariant = { λ q. q.hash ≡ hash_of q.text.now };
}

impl<'a> Query<TextKey> for OfText<'a> {
    ghost order = { λ query. text_order query.0 query.1 };

    fn cmp_key(&self, key: &TextKey) -> Ordering {
        compare_text(self.set, self.hash, self.text, key)
    }

    ghost is_query = { λ query. text_query query.0 query.1 };
}

// The keys of a text in a set with this score.
#[derive(Drop)]
struct OfScore<'a> {
    set: Scored,
    hash: u32,
    text: &'a [u8],
    score: Score,
}

impl<'a> Model for OfScore<'a> {
    ghost use Rattle.std.specs.Prelude.{◌≡◌};
    ghost use Rattle.sk_table.specs.Hashing.{hash_of};
    ghost use Rattle.sk_places.specs.TextKey.{Key, key_in};

    ghost Value = { Key };

    ghost view = { λ q. key_in q.set q.text.now q.score };

    ghost invariant = { λ q. q.hash ≡ hash_of q.text.now };
}

impl<'a> Query<TextKey> for OfScore<'a> {
    ghost order = { λ query. key_cmp query };

    fn cmp_key(&self, key: &TextKey) -> Ordering {
        let scores = compare_scores(self.score, key.score());
        compare_text(self.set, self.hash, self.text, key).then(scores)
    }

    ghost is_query = { λ query. key_query_of query };
}

// The query for the keys of a payload in a set with this score.
fn of_score(set: Scored, payload: &JobText, score: Score) -> OfScore<'_>
    ensures { result ≡ key_in set payload.now score }
{
    let text = payload.text().bytes();
    OfScore {
        set,
        hash: hash_of(text),
        text,
        score,
    }
}

/// The key of a row, where it is in a set. It shares the text.
pub fn key_of(row_key: &RowKey, payload: &JobText) -> Result<Option<TextKey>, Memory>
    ensures { IfOk result (λ key. key ≡ key_at row_key.now.place row_key.now.score payload.now) }
{
    match &row_key.place {
        Place::Set(set) => {
            let payload = payload.copy()?;
            Ok(Some(TextKey::new(*set, payload, row_key.score)))
        }
        _ => Ok(None),
    }
}

/// Puts the key of one more row in.
pub fn add_key(index: &mut TextIndex, key: Option<TextKey>)
    requires { 0 < index.old.room }
    ensures { index.new.list ≡ edited (with_key key index.old.list.current) index.old.list }
{
    if let Some(key) = key {
        index.put(key);
    }
}

/// Takes the key of one row out. An open step keeps it until it is closed.
pub fn drop_key(index: &mut TextIndex, place: &Place, score: Score, payload: &JobText)
    requires { 0 < index.old.room }
    ensures list { index.new.list ≡ edited (without_key (key_at place.now score payload.now) index.old.list.current) index.old.list }
    ensures room { index.old.room ≤ index.new.room + 1 }
{
    if let Place::Set(set) = place {
        index.remove(&of_score(*set, payload, score));
    }
}

/// The same where no step is open. Takes no memory.
pub fn take_key(index: &mut TextIndex, place: &Place, score: Score, payload: &JobText)
    requires { index.old.list.saved ≡ None }
    ensures { index.new.list ≡ edited (without_key (key_at place.now score payload.now) index.old.list.current) index.old.list }
{
    if let Place::Set(set) = place {
        index.take(&of_score(*set, payload, score));
    }
}

/// Takes all keys of a set out, where no step is open, and gives them to the caller. Logarithmic, and takes no memory.
pub fn take_set(index: &mut TextIndex, set: Scored) -> TextIndex
    requires { index.old.list.saved ≡ None }
    ensures { index.new.list ≡ edited (filter (λ key. not (is_in set key)) index.old.list.current) index.old.list }
{
    index.take_all(&OfSet { set })
}

/// The least score of a text in a set. Logarithmic.
pub fn least_score(index: &TextIndex, set: Scored, text: &[u8]) -> Option<Score>
    ensures { IsLeastScore set text.now result index.now.list.current }
{
    let hash = hash_of(text);
    let at = index.rank(&OfText { set, hash, text });
    if at == index.len() {
        return None;
    }
    let key = index.at(at);
    if compare_text(set, hash, text, key).is_eq() {
        Some(key.score())
    } else {
        None
    }
}
