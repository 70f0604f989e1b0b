// The plain keys: a table by the names' hashes, and beside it the index of their deadlines.
ghost use Rattle.std.specs.Prelude.{◌≡◌, [], OnErr, OnOk};
ghost use Rattle.std.specs.Option.{is_some};
ghost use Rattle.sk_value.specs.Action.{action_of};
ghost use Rattle.sk_value.specs.Answer.{AnswersWith};
ghost use Rattle.sk_value.specs.Apply.{applied};
ghost use Rattle.sk_value.specs.Keys.{at, purged, without};

use crate::apply::act;
use crate::delete;
use crate::key_table::KeyTable;
use crate::named::{has_ahead, settle};
use crate::purges::purge_some;
use crate::removed::{AllKeys, RemovedKeys};
use sk_cmd::PlainCommand;
use sk_resp::{Reply, Word};
use sk_table::TextTable;
use sk_value::{Action, KeysFault, action_of};
use std::alloc::Global;
use std::collections::BTreeSet;
use std::marker::Model;
use std::mem;

/// The plain keys, each with a value and perhaps a deadline. Contracts see the list of them, in the order of the names' bytes.
#[derive(Drop)]
pub struct Keys {
    table: KeyTable,
    // The greatest moment that a purge was handed. What is over then isn't there any more, though it may still stand.
    over: u64,
    // Whether some of that may still stand.
    behind: bool,
    // What was removed at once and isn't freed yet. No contract speaks of it.
    removed: Option<AllKeys>,
}

impl Model for Keys {
    ghost use Rattle.std.specs.Prelude.{List, ℕ};
    ghost use Rattle.sk_value.specs.declared.entry.Entry.{Entry};

    ghost Value = { List (List ℕ × Entry) };

    ghost use Rattle.sk_value.specs.Keys.{purged};

    ghost view = { λ keys. purged keys.over keys.table.entries };

    ghost use Rattle.sk_keys.specs.Past.{AreKeys};

    ghost invariant = { λ keys. AreKeys keys.over keys.behind keys.table.entries keys.table.expiries };
}

impl Keys {
    /// No keys. Takes no memory.
    pub fn new(alloc: Global) -> Keys
        ensures { result ≡ [] }
    {
        Keys {
            table: KeyTable::new(alloc),
            over: 0,
            behind: false,
            removed: None,
        }
    }

    /// Removes each key whose deadline the moment has reached, and looks at no other. At most 100 of them go at once: the others still stand, and
    /// nobody sees them. Takes no memory.
    pub fn purge(&mut self, now: u64)
        ensures { self.new ≡ purged now self.old }
    {
        self.over = self.over.max(now);
        self.behind = purge_some(&mut self.table, self.over);
    }

    /// Whether a key stands under the name.
    pub fn has(&self, name: &Word) -> bool
        ensures { result ≡ is_some (at name.now self.now) }
    {
        self.table.entries.in_order();
        has_ahead(&self.table.entries, self.over, name)
    }

    /// Removes a key, and answers whether it was there. A large value is kept aside until [`Keys::take_removed`]. Takes no memory.
    pub fn remove(&mut self, name: &Word) -> bool
        ensures was { result ≡ is_some (at name.now self.old) }
        ensures rest { self.new ≡ without name.now self.old }
    {
        let there = self.has(name);
        self.table.entries.in_order();
        delete::remove(&mut self.table, name);
        there
    }

    /// Removes all keys, in constant time: their memory is kept aside until [`Keys::take_removed`]. Takes no memory.
    pub fn clear(&mut self)
        ensures { self.new ≡ [] }
    {
        self.removed = Some(AllKeys {
            entries: mem::replace(&mut self.table.entries, TextTable::new(self.table.alloc)),
            expiries: mem::replace(&mut self.table.expiries, BTreeSet::new(self.table.alloc)),
        });
        self.behind = false;
    }

    /// Whether something that was removed isn't freed yet: all keys, or large values.
    pub fn has_removed(&self) -> bool {
        self.removed.is_some() || !self.table.aside.is_empty()
    }

    /// Hands that out, to be freed. Takes no memory.
    pub fn take_removed(&mut self) -> Option<RemovedKeys>
        ensures { self.new ≡ self.old }
    {
        if !self.has_removed() {
            return None;
        }
        Some(RemovedKeys {
            all: self.removed.take(),
            values: mem::replace(&mut self.table.aside, Vec::new(self.table.alloc)),
        })
    }

    /// Does what Redis's command does at the moment `now`, in milliseconds since 1970, and gives its reply. A key whose deadline is over still
    /// counts here: `purge(now)` is meant to come before.
    ///
    /// After an error all keys are as before. `WrongType`: a key holds a value of another kind than the command is for. `NotInt`, `Overflow`:
    /// INCRBY finds no integer of 64 bits, or its sum would be none. `BadExpire`: SET is given a time to live below 1, or SET or PEXPIRE a deadline
    /// past the year 9999. `Memory`: there was none.
    pub fn act(&mut self, now: u64, action: Action) -> Result<Reply, KeysFault>
        ensures answer { AnswersWith (applied now action self.old).answer result }
        ensures ok { OnOk result (self.new ≡ (applied now action self.old).keys) }
        ensures err { OnErr result (self.new ≡ self.old) }
    {
        self.behind = settle(&mut self.table, self.over, self.behind, now, &action);
        self.over = self.over.min(now);
        act(&mut self.table, now, action)
    }

    /// The same as `act` with what the command does.
    pub fn apply(&mut self, now: u64, command: PlainCommand) -> Result<Reply, KeysFault>
        ensures answer { AnswersWith (applied now (action_of command) self.old).answer result }
        ensures ok { OnOk result (self.new ≡ (applied now (action_of command) self.old).keys) }
        ensures err { OnErr result (self.new ≡ self.old) }
    {
        self.act(now, action_of(command))
    }
}
