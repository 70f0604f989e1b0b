// Sets (Redis, "Sets"): members in an ordered map without values, so that sets and hashes share their edits.
ghost use Rattle.std.specs.Prelude.{◌≡◌, ◌<◌, ◌^◌, [], length, map, IfOk, OnErr};
ghost use Rattle.std.specs.Map.{keys_of};
ghost use Rattle.sk_resp.specs.Reply.{wire};
ghost use Rattle.sk_resp.specs.Spelling.{bulk};
ghost use Rattle.sk_value.specs.Answer.{AnswersWith, UpdatesTo};
ghost use Rattle.sk_value.specs.Sets.{edit_set, look_set};

use crate::maps::{insert_all, remove_all};
use crate::replies::{counted, one_if};
use crate::{KeysFault, ReadOp, WriteOp};
use sk_resp::{Memory, Replies, Reply, Word, Words};
use std::alloc::Global;
use std::collections::BTreeMap;
use std::marker::Model;

/// A set of texts. Contracts see the list of them, in the order of their bytes.
#[derive(Drop)]
pub struct Members {
    map: BTreeMap<Word, ()>,
}

impl Model for Members {
    ghost use Rattle.std.specs.Prelude.{List, ℕ};
    ghost use Rattle.std.specs.Map.{keys_of};

    ghost Value = { List (List ℕ) };

    ghost view = { λ members. keys_of members.map.entries };
}

impl Members {
    /// Takes no memory.
    pub fn new(alloc: Global) -> Members
        ensures { result ≡ [] }
    {
        Members {
            map: BTreeMap::new(alloc),
        }
    }

    #[tactic(auto, using(crate::proofs::Names::how_many_keys))]
    pub fn len(&self) -> usize
        ensures is { result ≡ length self.now }
        ensures small { result < 2 ^ 63 }
    {
        self.map.len()
    }

    /// What `SMEMBERS key`, `SCARD key` and `SISMEMBER key member` answer (Redis, "Sets"). Another command is `WrongType`.
    pub fn look(&self, alloc: Global, look: &ReadOp) -> Result<Reply, KeysFault>
        ensures { AnswersWith (look_set look.now self.now) result }
    {
        look_members(alloc, &self.map, look)
    }

    /// What `SADD key member ..` and `SREM key member ..` answer, and the set afterwards. Another command is `WrongType`. SREM takes no memory.
    #[tactic(auto, using(crate::proofs::Names::keys_inserted, crate::proofs::Names::keys_removed, crate::proofs::Names::how_many_keys), unfolding(crate::specs::Sets::edit_set))]
    pub fn edit(&mut self, edit: WriteOp) -> Result<Reply, KeysFault>
        ensures done { UpdatesTo (edit_set edit self.old) result self.new }
        ensures err { OnErr result (self.new ≡ self.old) }
    {
        match edit {
            WriteOp::Sadd(more) => Ok(counted(insert_all(&mut self.map, bare(more)?)?)),
            WriteOp::Srem(others) => Ok(counted(remove_all(&mut self.map, others.list()))),
            _ => Err(KeysFault::WrongType),
        }
    }
}

/// What `SMEMBERS key`, `SCARD key` and `SISMEMBER key member` answer of the texts of a map.
#[tactic(auto, using(crate::proofs::Names::member_is_key, crate::proofs::Names::how_many_keys))]
pub fn look_members<V>(
    alloc: Global,
    map: &BTreeMap<Word, V>,
    look: &ReadOp,
) -> Result<Reply, KeysFault>
    ensures { AnswersWith (look_set look.now (keys_of map.now.entries)) result }
{
    match look {
        ReadOp::Smembers => Ok(Reply::Array(Replies::new(copies(alloc, map)?))),
        ReadOp::Scard => Ok(counted(map.len())),
        ReadOp::Sismember(text) => Ok(one_if(map.contains_key(text))),
        _ => Err(KeysFault::WrongType),
    }
}

// The texts in order, as replies.
fn copies<V>(alloc: Global, texts: &BTreeMap<Word, V>) -> Result<Vec<Reply>, Memory>
    ensures { IfOk result (λ replies. map wire replies.items ≡ map bulk (keys_of texts.now.entries)) }
{
    let mut replies = Vec::with_capacity(alloc, texts.len())?;
    for text in texts.keys() {
        replies.push(Reply::Bulk(text.copy()?))?;
    }
    Ok(replies)
}

// The texts as keys without values.
fn bare(texts: Words) -> Result<Vec<(Word, ())>, Memory>
    ensures { IfOk result (λ pairs. keys_of pairs.items ≡ texts) }
{
    let texts = texts.into_list();
    let mut pairs = Vec::with_capacity(*texts.allocator(), texts.len())?;
    for text in texts {
        pairs.push((text, ()))?;
    }
    Ok(pairs)
}
