// A text in a set of jobs, as the index of the sets' texts keeps it, and the order of such keys.
ghost use Rattle.std.specs.Prelude.{◌≡◌};
ghost use Rattle.std.proofs.Common.{rules};
ghost use Rattle.std.proofs.lemmas.Cmp.{eq_by_cmp_equiv};
ghost use Rattle.std.specs.Cmp.{partial_equiv_from_equiv, partial_order_from_total};
ghost use Rattle.std.specs.Cmp.Rules.{comparing};
ghost use Rattle.std.specs.Ordering.{as_partial_cmp, eq_by_cmp};
ghost use Rattle.sk_table.specs.Hashing.{hash_of};
ghost use Rattle.sk_places.specs.TextKey.{key_cmp, key_in, key_total, set_order, text_order};

use crate::row::set_rank;
use crate::search::compare_scores;
use sk_base::Score;
use sk_cmd::Scored;
use sk_payload::JobText;
use sk_resp::compare_bytes;
use sk_table::hash_of;
use std::cmp::Ordering;
use std::marker::Model;

/// A text in a set of jobs, and its score there. The payload shares the text with its row. Contracts see the set, the text and the score.
#[derive(Drop)]
pub struct TextKey {
    set: Scored,
    // Of the text, so that a search reads few texts.
    hash: u32,
    payload: JobText,
    score: Score,
}

impl Model for TextKey {
    ghost use Rattle.std.specs.Prelude.{◌≡◌};
    ghost use Rattle.sk_table.specs.Hashing.{hash_of};
    ghost use Rattle.sk_places.specs.TextKey.{Key, key_in};

    ghost Value = { Key };

    ghost view = { λ k. key_in k.set k.payload k.score };

    ghost invariant = { λ k. k.hash ≡ hash_of k.payload };
}

/// How a set stands to a key.
pub fn compare_set(set: Scored, key: &TextKey) -> Ordering
    ensures { result ≡ set_order set key.now }
{
    set_rank(set).cmp(&set_rank(key.set))
}

/// How a text in a set stands to a key, whatever its score: by the sets, by the texts' hashes, and then by the texts' bytes.
pub fn compare_text(set: Scored, hash: u32, text: &[u8], key: &TextKey) -> Ordering
    requires { hash ≡ hash_of text.now }
    ensures { result ≡ text_order set text.now key.now }
{
    let places = set_rank(set)
        .cmp(&set_rank(key.set))
        .then(hash.cmp(&key.hash));
    match places {
        Ordering::Equal => compare_bytes(text, key.payload.text().bytes()),
        _ => places,
    }
}

impl TextKey {
    /// Takes no memory.
    pub fn new(set: Scored, payload: JobText, score: Score) -> TextKey
        ensures { result ≡ key_in set payload score }
    {
        TextKey {
            set,
            hash: hash_of(payload.text().bytes()),
            payload,
            score,
        }
    }

    pub fn score(&self) -> Score
        ensures { result ≡ self.now.2 }
    {
        self.score
    }

    /// The order of keys: by the sets, by the texts' hashes and bytes, and then by the scores.
    pub fn compare(&self, other: &TextKey) -> Ordering
        ensures { result ≡ key_cmp self.now other.now }
    {
        let text = self.payload.text().bytes();
        let scores = compare_scores(self.score, other.score);
        compare_text(self.set, self.hash, text, other).then(scores)
    }
}

impl PartialEq for TextKey {
    ghost eq = { eq_by_cmp key_cmp };

    ghost laws = { partial_equiv_from_equiv (eq_by_cmp_equiv key_total) };

    fn eq(&self, other: &TextKey) -> bool {
        self.compare(other).is_eq()
    }
}

impl Eq for TextKey {
    ghost laws = { eq_by_cmp_equiv key_total };
}

impl Ord for TextKey {
    ghost cmp = { key_cmp };

    ghost total = { key_total };

    ghost matches_partial_cmp = { Prim.search (comparing, rules) };

    ghost matches_eq = { Prim.search (comparing, rules) };

    fn cmp(&self, other: &TextKey) -> Ordering {
        self.compare(other)
    }
}

impl PartialOrd for TextKey {
    ghost partial_cmp = { as_partial_cmp key_cmp };

    ghost laws = { partial_order_from_total key_total };

    fn partial_cmp(&self, other: &TextKey) -> Option<Ordering> {
        Some(self.compare(other))
    }
}
