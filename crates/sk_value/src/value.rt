// What a key holds: a value of one of five kinds.
ghost use Rattle.std.specs.Prelude.{◌≡◌, ◌<◌, ◌^◌, [], IfSome, Ok, OnErr};
ghost use Rattle.sk_value.specs.Answer.{AnswersWith, UpdatesTo, counted};
ghost use Rattle.sk_value.specs.Values.{edit_in, is_empty, is_string, kind_of, look_in};

use crate::strings::{edit_string, look_string};
use crate::{Fields, Items, KeysFault, Members, ReadOp, Sorted, WriteOp};
use sk_resp::{Kind, Reply, Word};
use std::alloc::Global;

/// What a key holds. A list, a set, a hash or a sorted set that has nothing in it is held by no key.
#[derive(Drop)]
pub enum Value {
    /// Any bytes, none as well (Redis, "Strings").
    String(Word),
    /// (Redis, "Lists")
    List(Items),
    /// (Redis, "Sets")
    Set(Members),
    /// (Redis, "Hashes")
    Hash(Fields),
    /// (Redis, "Sorted sets")
    Sorted(Sorted),
}

impl Value {
    pub fn kind(&self) -> Kind
        ensures { result ≡ kind_of self.now }
    {
        match self {
            Value::String(_) => Kind::String,
            Value::List(_) => Kind::List,
            Value::Set(_) => Kind::Set,
            Value::Hash(_) => Kind::Hash,
            Value::Sorted(_) => Kind::Sorted,
        }
    }

    /// A list, a set, a hash or a sorted set with nothing in it. An empty string stays a value.
    pub fn is_empty(&self) -> bool
        ensures { result ≡ is_empty self.now }
    {
        match self {
            Value::String(_) => false,
            Value::List(items) => items.len() == 0,
            Value::Set(members) => members.len() == 0,
            Value::Hash(fields) => fields.len() == 0,
            Value::Sorted(pairs) => pairs.len() == 0,
        }
    }

    /// A string, and exactly this one.
    pub fn is_string(&self, text: &Word) -> bool
        ensures { result ≡ is_string text.now self.now }
    {
        match self {
            Value::String(own) => own == text,
            _ => false,
        }
    }

    /// What a command that reads a value answers. One for another kind is `WrongType`.
    pub fn look(&self, alloc: Global, look: &ReadOp) -> Result<Reply, KeysFault>
        ensures { AnswersWith (look_in look.now self.now) result }
    {
        match self {
            Value::String(text) => look_string(text, look),
            Value::List(items) => items.look(alloc, look),
            Value::Set(members) => members.look(alloc, look),
            Value::Hash(fields) => fields.look(alloc, look),
            Value::Sorted(pairs) => pairs.look(alloc, look),
        }
    }

    /// How many pairs an edit takes out of a sorted set, where it takes out all by their ranks or their scores. Logarithmic.
    pub fn emptied_by(&self, edit: &WriteOp) -> Option<usize>
        ensures is { IfSome result (λ count. edit_in edit.now self.now ≡ Ok (counted count, Value.Sorted [])) }
        ensures small { IfSome result (λ count. count < 2 ^ 63) }
    {
        match self {
            Value::Sorted(pairs) if pairs.is_emptied_by(edit) => Some(pairs.len()),
            _ => None,
        }
    }

    /// What a command that edits a value answers, and the value afterwards. One for another kind is `WrongType`, INCRBY of a string that is no
    /// integer `NotInt`, and past 64 bits `Overflow`. After a fault the value is as before.
    pub fn edit(&mut self, alloc: Global, edit: WriteOp) -> Result<Reply, KeysFault>
        ensures done { UpdatesTo (edit_in edit self.old) result self.new }
        ensures err { OnErr result (self.new ≡ self.old) }
    {
        match self {
            Value::String(text) => edit_string(alloc, text, edit),
            Value::List(items) => items.edit(edit),
            Value::Set(members) => members.edit(edit),
            Value::Hash(fields) => fields.edit(edit),
            Value::Sorted(pairs) => pairs.edit(edit),
        }
    }
}
