// Hashes (Redis, "Hashes"): fields with their values in an ordered map.
ghost use Rattle.std.specs.Prelude.{◌≡◌, ◌<◌, ◌^◌, [], length, map, IfOk, OnErr};
ghost use Rattle.sk_resp.specs.Reply.{wire};
ghost use Rattle.sk_resp.specs.Spelling.{bulk};
ghost use Rattle.sk_value.specs.Answer.{AnswersWith, UpdatesTo};
ghost use Rattle.sk_value.specs.Hashes.{edit_hash, flat, look_hash};

use crate::maps::{insert_all, remove_all};
use crate::replies::counted;
use crate::{KeysFault, ReadOp, WriteOp};
use sk_resp::{Memory, Replies, Reply, Word};
use std::alloc::Global;
use std::collections::BTreeMap;
use std::marker::Model;

/// Fields, each with its value. Contracts see the list of pairs, in the order of the fields' bytes.
#[derive(Drop)]
pub struct Fields {
    map: BTreeMap<Word, Word>,
}

impl Model for Fields {
    ghost use Rattle.std.specs.Prelude.{List, ℕ};

    ghost Value = { List (List ℕ × List ℕ) };

    ghost view = { λ fields. fields.map.entries };
}

impl Fields {
    /// Takes no memory.
    pub fn new(alloc: Global) -> Fields
        ensures { result ≡ [] }
    {
        Fields {
            map: BTreeMap::new(alloc),
        }
    }

    pub fn len(&self) -> usize
        ensures is { result ≡ length self.now }
        ensures small { result < 2 ^ 63 }
    {
        self.map.len()
    }

    /// What `HGET key field`, `HLEN key` and `HGETALL key` answer (Redis, "Hashes"). Another command is `WrongType`.
    pub fn look(&self, alloc: Global, look: &ReadOp) -> Result<Reply, KeysFault>
        ensures { AnswersWith (look_hash look.now self.now) result }
    {
        match look {
            ReadOp::Hget(field) => match self.map.get(field) {
                None => Ok(Reply::Null),
                Some(value) => Ok(Reply::Bulk(value.copy()?)),
            },
            ReadOp::Hlen => Ok(counted(self.len())),
            ReadOp::Hgetall => Ok(Reply::Array(Replies::new(self.copies(alloc)?))),
            _ => Err(KeysFault::WrongType),
        }
    }

    /// What `HSET key field value ..` and `HDEL key field ..` answer, and the hash afterwards. Another command is `WrongType`. HDEL takes no
    /// memory.
    #[tactic(auto, unfolding(crate::specs::Hashes::edit_hash))]
    pub fn edit(&mut self, edit: WriteOp) -> Result<Reply, KeysFault>
        ensures done { UpdatesTo (edit_hash edit self.old) result self.new }
        ensures err { OnErr result (self.new ≡ self.old) }
    {
        match edit {
            WriteOp::Hset(more) => Ok(counted(insert_all(&mut self.map, more.into_list())?)),
            WriteOp::Hdel(fields) => Ok(counted(remove_all(&mut self.map, fields.list()))),
            _ => Err(KeysFault::WrongType),
        }
    }

    // The fields in order, each before its value, as replies.
    fn copies(&self, alloc: Global) -> Result<Vec<Reply>, Memory>
        ensures { IfOk result (λ replies. map wire replies.items ≡ map bulk (flat self.now)) }
    {
        let mut replies = Vec::with_capacity(alloc, 2 * self.map.len())?;
        for (field, value) in &self.map {
            replies.push(Reply::Bulk(field.copy()?))?;
            replies.push(Reply::Bulk(value.copy()?))?;
        }
        Ok(replies)
    }
}
