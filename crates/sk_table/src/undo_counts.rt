// Counts under texts, by hash, whose edits in an open step can be taken back. What an entry counted is logged before it is changed, and an entry
// that counts none any more stays until its step ends, so that taking a step back takes no memory.
ghost use Rattle.std.specs.Prelude.{◌≡◌, ◌^◌, ◌<◌, ◌≤◌, [], true, IfOk, IsSome, None, OnOk, length, nat_eq, not, vec_capacity, vec_len};
ghost use Rattle.std.specs.List.Sorted.{IsStrictlySortedBy};
ghost use Rattle.std.specs.Map.{keys_of};
ghost use Rattle.std.specs.Option.{is_some};
ghost use Rattle.sk_resp.specs.WordOrder.{text_cmp};
ghost use Rattle.sk_undo.specs.Balance.{most};
ghost use Rattle.sk_undo.specs.Versions.{begun, closed, committed, edited, undone};
ghost use Rattle.sk_table.specs.Counts.{count_in, is_among, len_after, most_count, noted, with_count};
ghost use Rattle.sk_table.specs.Entries.{at};

use crate::count_table::{CountTable, clean, count_of, enter, exchange, rewind, take_out};
use crate::logged::Logged;
use crate::{Memory, TextKey, TextTable};
use std::alloc::Global;
use std::marker::Model;

// The most texts that may count.
const MOST: usize = 1 << 60;

/// How much is counted under each of at most 2^60 texts. Contracts see the list of the counts, in the order of the texts: what stands, and what
/// stood at the begin of an open step; and of which texts the counts can be changed without memory.
#[derive(Drop)]
pub struct UndoCounts<K: TextKey> {
    table: CountTable<K>,
    log: Vec<Logged<K>>,
    in_step: bool,
    // How many texts count.
    len: usize,
    // At the begin of an open step.
    len_then: usize,
    // How many entries count none. No contract speaks of it: where it is 0 there is nothing to clean up.
    nones: usize,
}

impl<K: TextKey> Model for UndoCounts<K> {
    ghost use Rattle.sk_table.specs.CountsView.{CountsView, counts_view_code};
    ghost use Rattle.sk_table.specs.Counts.{counts_in, ready_in};
    ghost use Rattle.sk_table.specs.CountsInvariant.{AreCounts};

    ghost Value = { CountsView };

    ghost coded = { counts_view_code };

    ghost view = { λ s. record { list = counts_in K.text s.in_step s.log.items s.table; ready = ready_in K.text s.in_step s.log.items s.table } };

    ghost invariant = { λ s. AreCounts K.text s.in_step s.log.items s.table s.len s.len_then };
}

// How many texts count, where one of them counted so many before and so many after.
fn len_after(len: usize, before: u32, after: u32) -> usize
    requires some { 0 < before → 0 < len }
    requires few { before ≡ 0 → len < most }
    requires small { len ≤ most }
    ensures is { result ≡ len_after len before after }
    ensures small { result ≤ most }
{
    if before == 0 && after > 0 {
        len + 1
    } else if before > 0 && after == 0 {
        len - 1
    } else {
        len
    }
}

// How many entries count none, likewise.
fn nones_after(nones: usize, before: u32, after: u32) -> usize {
    if after == 0 {
        nones.saturating_add(1)
    } else if before == 0 {
        nones.saturating_sub(1)
    } else {
        nones
    }
}

// Notes an edit down in the log of an open step.
fn note_down<K: Drop>(log: &mut Vec<Logged<K>>, in_step: bool, edit: Logged<K>)
    requires { vec_len log.old < vec_capacity log.old }
    ensures { log.new.items ≡ noted in_step edit log.old.items }
{
    if in_step {
        log.push_reserved(edit);
    }
}

impl<K: TextKey + Drop> UndoCounts<K> {
    /// Takes no memory.
    pub fn new(alloc: Global) -> UndoCounts<K>
        ensures { result.list ≡ closed [] }
    {
        UndoCounts {
            table: TextTable::new(alloc),
            log: Vec::new(alloc),
            in_step: false,
            len: 0,
            len_then: 0,
            nones: 0,
        }
    }

    /// How many texts count.
    pub fn len(&self) -> usize
        ensures is { result ≡ length self.now.list.current }
        ensures small { result ≤ most }
    {
        self.len
    }

    /// Does nothing: its contract says that the texts ascend.
    pub fn in_order(&self)
        ensures { IsStrictlySortedBy text_cmp (keys_of self.now.list.current) }
    {
        self.table.in_order();
    }

    /// How much is counted under a text.
    pub fn count(&self, text: &[u8]) -> u32
        ensures { result ≡ count_in text.now self.now.list.current }
    {
        count_of(&self.table, text)
    }

    /// The hash of the first entry where one with this hash would stand; 0 where there is none. Who looks many texts up asks this first of each, so
    /// that the processor fetches their entries side by side.
    pub fn look_at(&self, hash: u32) -> u32 {
        self.table.look_at(hash)
    }

    /// Takes the memory for changes of what the key counts, up to the end of the step, and answers what it counts. The key and the other one,
    /// which is equal to it, may be kept.
    pub fn prepare(&mut self, key: K, again: K) -> Result<u32, Memory>
        requires { K.text again ≡ K.text key }
        ensures list { self.new.list ≡ self.old.list }
        ensures is { IfOk result (λ count. count ≡ count_in (K.text key) self.old.list.current) }
        ensures some { IfOk result (λ count. is_some (at (K.text key) self.old.list.current) ≡ not (nat_eq count 0)) }
        ensures small { IfOk result (λ count. count < most_count) }
        ensures room { OnOk result (length self.new.list.current < most) }
        ensures ready { OnOk result (is_among (K.text key) self.new.ready ≡ true) }
    {
        if self.len >= MOST {
            return Err(Memory);
        }
        self.log.reserve(1)?;
        let count = enter(&mut self.table, key)?;
        if count == u32::MAX {
            return Err(Memory);
        }
        self.table.in_order();
        self.nones = nones_after(self.nones, count, count);
        note_down(&mut self.log, self.in_step, Logged { key: again, count });
        Ok(count)
    }

    /// So many count under a text that was prepared. Takes no memory.
    pub fn put(&mut self, text: &[u8], count: u32)
        requires ready { is_among text.now self.old.ready ≡ true }
        requires room { count_in text.now self.old.list.current ≡ 0 → length self.old.list.current < most }
        ensures list { self.new.list ≡ edited (with_count text.now count self.old.list.current) self.old.list }
        ensures ready { self.new.ready ≡ self.old.ready }
    {
        if let Some(before) = exchange(&mut self.table, text, count) {
            self.len = len_after(self.len, before, count);
            self.nones = nones_after(self.nones, before, count);
        }
    }

    /// None counts under the text any more; no step is open. Answers whether one did. Takes no memory.
    pub fn take(&mut self, text: &[u8]) -> bool
        requires { self.old.list.saved ≡ None }
        ensures answer { result ≡ is_some (at text.now self.old.list.current) }
        ensures list { self.new.list ≡ edited (with_count text.now 0 self.old.list.current) self.old.list }
    {
        let counted = take_out(&mut self.table, text);
        if counted {
            self.len -= 1;
        }
        counted
    }

    /// So many count under a text under which some do; no step is open. Takes no memory.
    pub fn replace(&mut self, text: &[u8], count: u32)
        requires closed { self.old.list.saved ≡ None }
        requires some { 0 < count_in text.now self.old.list.current }
        ensures { self.new.list ≡ edited (with_count text.now count self.old.list.current) self.old.list }
    {
        self.table.in_order();
        if count > 0 {
            self.put(text, count);
        } else {
            self.take(text);
        }
    }

    /// The key takes the place of an equal one, if there is one.
    pub fn renew(&mut self, key: K)
        ensures { self.new ≡ self.old }
    {
        self.table.renew(key);
    }

    /// Opens a step. Takes no memory.
    pub fn begin(&mut self)
        requires { self.old.list.saved ≡ None }
        ensures { self.new.list ≡ begun self.old.list }
    {
        self.in_step = true;
        self.len_then = self.len;
    }

    /// Closes the step, and what stood at its begin stands again. Takes no memory.
    pub fn undo(&mut self)
        requires { IsSome self.old.list.saved }
        ensures { self.new.list ≡ undone self.old.list }
    {
        rewind(&mut self.table, &self.log);
        clean(&mut self.table, &mut self.log);
        self.in_step = false;
        self.len = self.len_then;
        self.nones = 0;
    }

    /// Closes the step, and what stands now stays. Takes no memory.
    pub fn commit(&mut self)
        requires { IsSome self.old.list.saved }
        ensures { self.new.list ≡ committed self.old.list }
    {
        if self.nones == 0 {
            self.log.clear();
        } else {
            clean(&mut self.table, &mut self.log);
            self.nones = 0;
        }
        self.in_step = false;
    }
}
