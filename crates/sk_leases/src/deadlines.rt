// Names with deadlines: a multiset with undo, and the index of its deadlines. Memory is taken before the first edit.
ghost use Rattle.std.specs.Prelude.{◌≡◌, [], None, true, IfOk, IsSome, OnErr, OnOk, length};
ghost use Rattle.sk_undo.specs.Versions.{begun, closed, committed, edited, undone};
ghost use Rattle.sk_leases.specs.Lists.{count_standing, names_of, put, standing, without};
ghost use Rattle.sk_leases.specs.Order.{is_ordered};

use crate::Memory;
use crate::edits::{Entries, count_named, count_standing, drop_named, purge};
use crate::expiries::{Expiries, add_expiry};
use sk_resp::Word;
use sk_undo::UndoMultiset;
use std::alloc::Global;
use std::collections::BTreeSet;
use std::marker::Model;

/// Leases by the names' bytes and then by their deadlines. Contracts see the list: what stands now, and what stood at the begin of an open step.
#[derive(Drop)]
pub struct Deadlines {
    entries: Entries,
    expiries: Expiries,
}

impl Model for Deadlines {
    ghost use Rattle.std.specs.Prelude.{List};
    ghost use Rattle.sk_undo.specs.Versions.{Versions, BothPass};
    ghost use Rattle.sk_leases.specs.Lease.{Lease};

    ghost Value = { Versions (List Lease) };

    ghost use Rattle.sk_leases.specs.Index.{covers};

    ghost view = { λ d. d.entries.list };

    ghost invariant = { λ d. BothPass (covers d.expiries) d.entries.list };
}

fn word(alloc: Global, bytes: &[u8]) -> Result<Word, Memory>
    ensures { IfOk result (λ word. word ≡ bytes.now) }
{
    Ok(Word::new(Vec::from_slice(alloc, bytes)?))
}

fn standing_names(alloc: Global, entries: &Entries, now: u64) -> Result<Vec<Word>, Memory>
    ensures { IfOk result (λ names. names.items ≡ names_of (standing now entries.now.list.current)) }
{
    let mut names = Vec::new(alloc);
    for at in 0..entries.len() {
        let (name, deadline) = entries.at(at);
        if now < *deadline {
            names.push(name.copy()?)?;
        }
    }
    Ok(names)
}

// How many leases stand. Looks at each.
fn standing_len(entries: &Entries, now: u64) -> usize
    ensures { result ≡ length (names_of (standing now entries.now.list.current)) }
{
    let mut len = 0;
    for at in 0..entries.len() {
        let (_, deadline) = entries.at(at);
        if now < *deadline {
            len += 1;
        }
    }
    len
}

impl Deadlines {
    /// Takes no memory.
    pub fn new(alloc: Global) -> Deadlines
        ensures { result ≡ closed [] }
    {
        Deadlines {
            entries: UndoMultiset::new(alloc),
            expiries: BTreeSet::new(alloc),
        }
    }

    /// Takes out what is over. What stays isn't looked at. Takes no memory.
    pub fn purge(&mut self, now: u64)
        requires { self.old.saved ≡ None }
        ensures { self.new ≡ edited (standing now self.old.current) self.old }
    {
        purge(&mut self.entries, &mut self.expiries, now);
    }

    /// Adds a lease of the name.
    #[tactic(auto, unfolding(crate::specs::Lists::put))]
    pub fn put(&mut self, alloc: Global, name: &[u8], deadline: u64) -> Result<(), Memory>
        ensures ok { OnOk result (self.new ≡ edited (put (name.now, deadline) self.old.current) self.old) }
        ensures err { OnErr result (self.new ≡ self.old) }
    {
        let lease = word(alloc, name)?;
        self.entries.reserve(1)?;
        add_expiry(&mut self.expiries, word(alloc, name)?, deadline)?;
        self.entries.put((lease, deadline));
        Ok(())
    }

    /// Makes this the only lease of the name.
    #[tactic(auto, unfolding(crate::specs::Lists::put))]
    pub fn renew(&mut self, alloc: Global, name: &[u8], deadline: u64) -> Result<(), Memory>
        ensures ok { OnOk result (self.new ≡ edited (put (name.now, deadline) (without name.now self.old.current)) self.old) }
        ensures err { OnErr result (self.new ≡ self.old) }
    {
        let lease = word(alloc, name)?;
        let count = count_named(&self.entries, name);
        self.entries.reserve(count + 1)?;
        add_expiry(&mut self.expiries, word(alloc, name)?, deadline)?;
        drop_named(&mut self.entries, name, &self.expiries);
        self.entries.put((lease, deadline));
        Ok(())
    }

    /// Drops the leases of the name.
    pub fn drop_all(&mut self, name: &[u8]) -> Result<(), Memory>
        ensures ok { OnOk result (self.new ≡ edited (without name.now self.old.current) self.old) }
        ensures err { OnErr result (self.new ≡ self.old) }
    {
        let count = count_named(&self.entries, name);
        self.entries.reserve(count)?;
        drop_named(&mut self.entries, name, &self.expiries);
        Ok(())
    }

    /// How many leases of the name stand.
    pub fn count(&self, name: &[u8], now: u64) -> usize
        ensures { result ≡ count_standing name.now now self.now.current }
    {
        count_standing(&self.entries, name, now)
    }

    /// The names whose leases stand, by their bytes.
    pub fn names(&self, alloc: Global, now: u64) -> Result<Vec<Word>, Memory>
        ensures names { IfOk result (λ names. names.items ≡ names_of (standing now self.now.current)) }
        ensures order { is_ordered self.now.current ≡ true }
    {
        let _len = self.entries.len(); // its contract says that the leases are in order
        standing_names(alloc, &self.entries, now)
    }

    /// How many leases stand, of all names.
    pub fn len(&self, now: u64) -> usize
        ensures { result ≡ length (names_of (standing now self.now.current)) }
    {
        standing_len(&self.entries, now)
    }

    pub fn begin(&mut self)
        requires { self.old.saved ≡ None }
        ensures { self.new ≡ begun self.old }
    {
        self.entries.begin();
    }

    pub fn undo(&mut self)
        requires { IsSome self.old.saved }
        ensures { self.new ≡ undone self.old }
    {
        self.entries.undo();
    }

    pub fn commit(&mut self)
        requires { IsSome self.old.saved }
        ensures { self.new ≡ committed self.old }
    {
        self.entries.commit();
    }
}
