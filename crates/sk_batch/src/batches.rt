// Nested batches, as two lists whose edits in an open step can be taken back: the batches, the newest first, each with its numbers, and the members of
// all of them. Each call finds first what is to be done and takes all memory for it; only then does it change anything.
ghost use Rattle.std.specs.Prelude.{◌≡◌, ◌^◌, ◌≤◌, [], None, Ok, Err, IfErr, IfOk, IfSome, IsSome, MatchOption, OnErr, OnOk, length, option_map};
ghost use Rattle.std.specs.Result.{result_err};
ghost use Rattle.sk_batch.specs.Events.{died, died_fires, joined, made, made_fires, reported, reported_fires, returned, returned_fires};
ghost use Rattle.sk_batch.specs.Faults.{add_fault, batch_fault, bid_fault, is_full, jids_fault, make_fault};
ghost use Rattle.sk_batch.specs.Stat.{IsSmall, stat};
ghost use Rattle.sk_batch.specs.declared.batch_fault.BatchFault.TheVariants as fault;
ghost use Rattle.sk_undo.specs.Versions.{begun, closed, committed, edited, undone};

use crate::batch_list::BatchList;
use crate::event::Event;
use crate::faults::{check_batch, check_bid, check_jids};
use crate::make::{join, make};
use crate::notify::notify;
use crate::stats::stat;
use crate::{Batch, BatchFault, BatchStat, Firing, Member, Memory, Progress};
use sk_resp::Word;
use sk_undo::UndoList;
use std::alloc::Global;
use std::marker::Model;

/// Nested batches, and what came of the jobs in them. Contracts see the lists of the batches and of their members: what stands now, and what
/// stood at the begin of an open step.
#[derive(Drop)]
pub struct Batches {
    alloc: Global,
    most: u64,
    batches: BatchList,
    members: UndoList<Progress, Member>,
}

impl Model for Batches {
    ghost use Rattle.sk_undo.specs.Versions.{Versions};
    ghost use Rattle.sk_batch.specs.Batched.{Batched};

    ghost Value = { Versions Batched };

    ghost use Rattle.sk_batch.specs.Whole.{batched_in, is_sound};

    ghost view = { batched_in };

    ghost invariant = { is_sound };
}

impl Batches {
    /// No batches, and at most so many later. Takes no memory.
    pub fn new(alloc: Global, most: u64) -> Batches
        ensures { result ≡ closed (record { most = most; batches = []; members = [] }) }
    {
        Batches {
            alloc,
            most,
            batches: BatchList::new(alloc),
            members: UndoList::new(alloc),
        }
    }

    /// How many batches there are.
    pub fn len(&self) -> u64
        ensures is { result ≡ length self.now.current.batches }
        ensures few { result ≤ 2 ^ 60 }
    {
        self.batches.len() as u64
    }

    /// Whether there are as many batches as there may be.
    pub fn is_full(&self) -> bool
        ensures { result ≡ is_full self.now.current }
    {
        self.most <= self.batches.len() as u64
    }

    /// The numbers of a batch, where it was made: none is above 2^60. Takes no memory.
    pub fn stat(&self, bid: &[u8]) -> Option<BatchStat>
        ensures is { result ≡ stat bid.now self.now.current }
        ensures small { IfSome result IsSmall }
    {
        stat(&self.batches, &self.members, bid)
    }

    /// The rules on the bid and the parent of a new batch: [`BatchFault::NoBatch`], [`BatchFault::RepeatedBid`] and [`BatchFault::Settled`], in
    /// this order. Takes no memory.
    pub fn check_bid(&self, bid: &[u8], parent: Option<&[u8]>) -> Result<(), BatchFault>
        ensures { result_err result ≡ bid_fault bid.now (option_map (λ p. p.now) parent.entry) self.now.current None }
    {
        check_bid(&self.batches, bid, parent)
    }

    /// The rules on a batch that gets jobs: [`BatchFault::NoBatch`] and [`BatchFault::Settled`], in this order. Takes no memory.
    pub fn check_batch(&self, bid: &[u8]) -> Result<(), BatchFault>
        ensures { result_err result ≡ batch_fault bid.now self.now.current None }
    {
        check_batch(&self.batches, bid)
    }

    /// The rule on the jids of new members, [`BatchFault::RepeatedJid`]. Takes no memory.
    pub fn check_jids(&self, bid: &[u8], jids: &[Word]) -> Result<(), BatchFault>
        ensures { result_err result ≡ jids_fault bid.now jids.now self.now.current None }
    {
        check_jids(self.alloc, &self.members, bid, jids)
    }

    // All rules on a new batch and its first jobs.
    #[tactic(auto, using(crate::proofs::Refusals::bid_kept, crate::proofs::Refusals::bid_broken, crate::proofs::Refusals::jids_kept, crate::proofs::Refusals::jids_broken))]
    fn check_make(&self, batch: &Batch, jids: &[Word]) -> Result<(), BatchFault>
        ensures { result_err result ≡ make_fault batch.now.bid batch.now.parent jids.now self.now.current }
    {
        let bid = batch.bid.bytes();
        self.check_bid(bid, batch.parent.as_ref().map(Word::bytes))?;
        self.check_jids(bid, jids)?;
        if self.is_full() {
            Err(BatchFault::Full)
        } else {
            Ok(())
        }
    }

    // All rules on jobs that are added to a batch.
    #[tactic(auto, using(crate::proofs::Refusals::batch_kept, crate::proofs::Refusals::batch_broken))]
    fn check_add(&self, bid: &[u8], jids: &[Word]) -> Result<(), BatchFault>
        ensures { result_err result ≡ add_fault bid.now jids.now self.now.current }
    {
        self.check_batch(bid)?;
        self.check_jids(bid, jids)
    }

    /// Makes a batch with its first jobs, and answers what is fired: where there are none, its complete and its success.
    #[tactic(auto, using(crate::proofs::Order::ordered_put_all))]
    pub fn make(
        &mut self,
        alloc: Global,
        batch: Batch,
        jids: Vec<Word>,
    ) -> Result<Vec<Firing>, BatchFault>
        ensures fault { MatchOption (make_fault batch.bid batch.parent jids.items self.old.current) (IfErr result (λ e. e ≡ fault.Memory)) (λ f. result ≡ Err f) }
        ensures fires { IfOk result (λ firings. firings.items ≡ made_fires batch jids.items) }
        ensures ok { OnOk result (self.new ≡ edited (made batch jids.items self.old.current) self.old) }
        ensures err { OnErr result (self.new ≡ self.old) }
    {
        self.check_make(&batch, &jids)?;
        match make(alloc, &mut self.batches, &mut self.members, batch, jids) {
            Ok(firings) => Ok(firings),
            Err(_) => Err(BatchFault::Memory),
        }
    }

    /// Adds jobs to a batch.
    #[tactic(auto, using(crate::proofs::Order::ordered_put_all))]
    pub fn add(&mut self, alloc: Global, bid: &[u8], jids: Vec<Word>) -> Result<(), BatchFault>
        ensures fault { MatchOption (add_fault bid.now jids.items self.old.current) (IfErr result (λ e. e ≡ fault.Memory)) (λ f. result ≡ Err f) }
        ensures ok { OnOk result (self.new ≡ edited (joined bid.now jids.items self.old.current) self.old) }
        ensures err { OnErr result (self.new ≡ self.old) }
    {
        self.check_add(bid, &jids)?;
        match join(alloc, &mut self.batches, &mut self.members, bid, jids) {
            Ok(()) => Ok(()),
            Err(_) => Err(BatchFault::Memory),
        }
    }

    /// A run of a job of the batch has ended badly. Answers what is fired. A job that is no member of this batch leaves all as it is.
    #[tactic(auto, using(crate::proofs::Order::ordered_retagged))]
    pub fn reported(&mut self, alloc: Global, bid: &[u8], jid: &[u8]) -> Result<Vec<Firing>, Memory>
        ensures fires { IfOk result (λ firings. firings.items ≡ reported_fires bid.now jid.now self.old.current) }
        ensures ok { OnOk result (self.new ≡ edited (reported bid.now jid.now self.old.current) self.old) }
        ensures err { OnErr result (self.new ≡ self.old) }
    {
        notify(
            alloc,
            &mut self.batches,
            &mut self.members,
            Event::Reported,
            bid,
            jid,
        )
    }

    /// A run of a job of the batch has ended well; the job is reported too. Answers what is fired. A job that is no member of this batch
    /// leaves all as it is.
    #[tactic(auto, using(crate::proofs::Order::ordered_retagged))]
    pub fn returned(&mut self, alloc: Global, bid: &[u8], jid: &[u8]) -> Result<Vec<Firing>, Memory>
        ensures fires { IfOk result (λ firings. firings.items ≡ returned_fires bid.now jid.now self.old.current) }
        ensures ok { OnOk result (self.new ≡ edited (returned bid.now jid.now self.old.current) self.old) }
        ensures err { OnErr result (self.new ≡ self.old) }
    {
        notify(
            alloc,
            &mut self.batches,
            &mut self.members,
            Event::Returned,
            bid,
            jid,
        )
    }

    /// A job of the batch was buried: the batch and each one above it die, where they haven't yet. The job is reported too. Answers what is fired.
    /// A job that is no member of this batch leaves all as it is.
    #[tactic(auto, using(crate::proofs::Order::ordered_retagged))]
    pub fn died(&mut self, alloc: Global, bid: &[u8], jid: &[u8]) -> Result<Vec<Firing>, Memory>
        ensures fires { IfOk result (λ firings. firings.items ≡ died_fires bid.now jid.now self.old.current) }
        ensures ok { OnOk result (self.new ≡ edited (died bid.now jid.now self.old.current) self.old) }
        ensures err { OnErr result (self.new ≡ self.old) }
    {
        notify(
            alloc,
            &mut self.batches,
            &mut self.members,
            Event::Died,
            bid,
            jid,
        )
    }

    /// Opens a step. Takes no memory.
    pub fn begin(&mut self)
        requires { self.old.saved ≡ None }
        ensures { self.new ≡ begun self.old }
    {
        self.batches.begin();
        self.members.begin();
    }

    /// Closes the step, and what stood at its begin stands again. Takes no memory.
    pub fn undo(&mut self)
        requires { IsSome self.old.saved }
        ensures { self.new ≡ undone self.old }
    {
        self.batches.undo();
        self.members.undo();
    }

    /// Closes the step, and what stands now stays. Takes no memory.
    pub fn commit(&mut self)
        requires { IsSome self.old.saved }
        ensures { self.new ≡ committed self.old }
    {
        self.batches.commit();
        self.members.commit();
    }
}
