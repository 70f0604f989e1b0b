// What waits to be stored: the last records of the history, as one group, and behind them a draft that a command's reply decides on.
ghost use Rattle.std.specs.Prelude.{◌≡◌, ◌⊎◌, ◌++◌, ◌∷◌, [], length, OnOk, OnErr, IfErr};
ghost use Rattle.sk_commit.specs.Shared.{IsWaiting, backed};
ghost use Rattle.sk_log.specs.declared.fault.LogFault.TheVariants.{Full, Memory};

use crate::{History, LogId, Prefix};
use sk_log::{Group, LogFault, Record};
use std::marker::Model;

/// The most records of one history.
const MOST: u64 = 1 << 60;

/// All that was logged: a number of records that leaders took before, those that wait behind them, and a draft, which may yet be dropped. Contracts see
/// the history and the draft.
#[derive(Drop)]
pub struct Pending<I: LogId> {
    history: History<I>,
    prefix: Prefix<I>,
    taken: u64,
    // what waits, and the draft behind it
    group: Group,
    draft: Option<Record>,
}

impl<I: LogId> Model for Pending<I> {
    ghost use Rattle.sk_commit.specs.Shared.{Backed, IsDrafted, draft_in};

    ghost Value = { Backed };

    ghost view = { λ p. record { history = p.prefix; draft = draft_in p.draft } };

    ghost invariant = { λ p. IsDrafted p.prefix p.taken (draft_in p.draft) p.group };
}

/// What a leader took: a group, the number of records before it, and the history up to its end. Contracts see that history.
#[derive(Drop)]
pub struct Taken<I: LogId> {
    prefix: Prefix<I>,
    before: u64,
    group: Group,
}

impl<I: LogId> Model for Taken<I> {
    ghost use Rattle.std.specs.Prelude.{List};
    ghost use Rattle.sk_log.specs.File.{Body};
    ghost use Rattle.sk_commit.specs.Shared.{IsWaiting, backed};

    ghost Value = { List Body };

    ghost view = { λ t. t.prefix };

    ghost invariant = { λ t. IsWaiting t.prefix t.before t.group };
}

impl<I: LogId> Taken<I> {
    /// How many records that history has.
    pub fn len(&self) -> u64
        ensures { result ≡ length self.now }
    {
        self.prefix.len()
    }

    /// The history up to the group's end, how many records stand before the group, and the group.
    pub fn into_parts(self) -> (Prefix<I>, u64, Group)
        ensures prefix { result.0 ≡ self }
        ensures waits { IsWaiting self result.1 result.2 }
    {
        let Taken {
            prefix,
            before,
            group,
        } = self;
        (prefix, before, group)
    }
}

impl<I: LogId> Pending<I> {
    /// Nothing was logged. What stands in the group is taken out.
    pub fn new(history: History<I>, prefix: Prefix<I>, group: Group) -> Pending<I>
        requires { prefix ≡ [] }
        ensures { result ≡ backed [] }
    {
        let mut group = group;
        group.clear();
        Pending {
            history,
            prefix,
            taken: 0,
            group,
            draft: None,
        }
    }

    /// What was logged so far: who settles this knows all of it in the file.
    pub fn seen(&self) -> Prefix<I>
        ensures { result ≡ self.now.history }
    {
        self.prefix.again()
    }

    /// Takes the memory of a record, which is logged or dropped next. `Memory` comes where there was none, `Full` where the history has 2^60 records.
    /// There is no draft then.
    pub fn draft(&mut self, entry: Record) -> Result<(), LogFault>
        requires { self.old.draft ≡ [] }
        ensures ok { OnOk result (self.new ≡ record self.old { draft = entry ∷ [] }) }
        ensures err { OnErr result (self.new ≡ self.old) }
        ensures only { IfErr result (λ e. (e ≡ Memory) ⊎ (e ≡ Full)) }
    {
        if self.prefix.len() >= MOST {
            return Err(LogFault::Full);
        }
        self.group.push(&entry)?;
        self.draft = Some(entry);
        Ok(())
    }

    /// Drops the draft, if there is one. Takes no memory.
    pub fn drop_draft(&mut self)
        ensures { self.new ≡ backed self.old.history }
    {
        if let Some(entry) = self.draft.take() {
            self.group.take_back(&entry);
        }
    }

    /// Logs the draft: it stands behind all others in the history, and waits. `Full` where the history has a record that didn't come this way: the draft
    /// is dropped then. Takes no memory.
    pub fn keep(&mut self) -> Result<(), LogFault>
        ensures ok { OnOk result (self.new ≡ backed (self.old.history ++ self.old.draft)) }
        ensures err { OnErr result (self.new ≡ backed self.old.history) }
        ensures only { IfErr result (λ e. e ≡ Full) }
    {
        let Some(entry) = self.draft.take() else {
            return Ok(());
        };
        let mut prefix = self.prefix.again();
        if !prefix.add(&self.history, &entry) {
            self.group.take_back(&entry);
            return Err(LogFault::Full);
        }
        self.prefix = prefix;
        Ok(())
    }

    /// Logs a record: it stands behind all others in the history, and waits. `Memory` comes where there was none; `Full` where the history has 2^60
    /// records, or one that didn't come this way. Nothing has changed then.
    pub fn log(&mut self, entry: Record) -> Result<(), LogFault>
        requires { self.old.draft ≡ [] }
        ensures ok { OnOk result (self.new ≡ backed (self.old.history ++ entry ∷ [])) }
        ensures err { OnErr result (self.new ≡ self.old) }
        ensures only { IfErr result (λ e. (e ≡ Memory) ⊎ (e ≡ Full)) }
    {
        self.draft(entry)?;
        self.keep()
    }

    /// All that waits goes to a leader, who gives a group for what comes next; what stands in that is taken out. Takes no memory.
    pub fn take(&mut self, spare: Group) -> Taken<I>
        requires { self.old.draft ≡ [] }
        ensures same { self.new ≡ self.old }
        ensures taken { result ≡ self.old.history }
    {
        let mut spare = spare;
        spare.clear();
        let group = std::mem::replace(&mut self.group, spare);
        let before = self.taken;
        self.taken = self.prefix.len();
        Taken {
            prefix: self.prefix.again(),
            before,
            group,
        }
    }
}
