// Edits of the list of pairs, once there is room for them.
ghost use Rattle.std.specs.Prelude.{◌≡◌, ◌+◌, ◌<◌, ◌≤◌, true, false};
ghost use Rattle.sk_undo.specs.Versions.{edited};
ghost use Rattle.sk_zset.specs.Order.{is_ordered};
ghost use Rattle.sk_zset.specs.Pairs.{added, has, put, score_of, without};

use crate::find::{place_for, place_of};
use sk_base::Score;
use sk_resp::Word;
use sk_undo::UndoList;

/// Takes the member's pair out, where it has a score.
#[tactic(auto, using(crate::proofs::Places::without_none), unfolding(crate::specs::Pairs::without))]
pub fn drop_pair(pairs: &mut UndoList<Score, Word>, score: Option<Score>, member: &[u8])
    requires room { 0 < pairs.old.room }
    requires ordered { is_ordered pairs.old.list.current ≡ true }
    requires score { score_of member.now pairs.old.list.current ≡ score }
    ensures list { pairs.new.list ≡ edited (without member.now pairs.old.list.current) pairs.old.list }
    ensures room { pairs.old.room ≤ pairs.new.room + 1 }
{
    if let Some(score) = score {
        let at = place_of(pairs, score, member);
        pairs.drop_out(at);
    }
}

// Puts a pair in at its place, where its member has none.
#[tactic(auto, unfolding(crate::specs::Pairs::put))]
fn put_pair(pairs: &mut UndoList<Score, Word>, score: Score, member: Word)
    requires room { 0 < pairs.old.room }
    requires ordered { is_ordered pairs.old.list.current ≡ true }
    requires new { has member pairs.old.list.current ≡ false }
    ensures { pairs.new.list ≡ edited (put (score, member) pairs.old.list.current) pairs.old.list }
{
    let at = place_for(pairs, score, member.bytes());
    pairs.insert(at, (score, member));
}

/// Gives the member, which had the score `was`, this score.
#[tactic(auto, using(crate::proofs::Order::ordered_without, crate::proofs::Scores::has_without))]
pub fn add_pair(pairs: &mut UndoList<Score, Word>, was: Option<Score>, score: Score, member: Word)
    requires room { 1 < pairs.old.room }
    requires ordered { is_ordered pairs.old.list.current ≡ true }
    requires was { score_of member pairs.old.list.current ≡ was }
    ensures { pairs.new.list ≡ edited (added (score, member) pairs.old.list.current) pairs.old.list }
{
    drop_pair(pairs, was, member.bytes());
    put_pair(pairs, score, member);
}
