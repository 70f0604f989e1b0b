// SK.BPUSH bid parent complete success death [payload ..], SK.BADD bid payload .., SK.BSTAT bid: batches of jobs (Sidekiq's wiki, "Batches"). A
// batch and its jobs come in one step, whole or not at all.
ghost use Rattle.std.specs.Prelude.{◌≡◌, ◌≢◌, ◌&&◌, IfOk, OnErr, OnOk, None, cond, false, length, not, true};
ghost use Rattle.std.specs.Result.{result_err};
ghost use Rattle.sk_payload.specs.Head.{head as head_of, jid_of};
ghost use Rattle.sk_payload.specs.Member.{is_name};
ghost use Rattle.sk_batch.specs.Events.{joined, made, made_fires};
ghost use Rattle.sk_batch.specs.Faults.{add_fault, bid_fault, breaks, is_full as has_most, jids_fault, make_fault};
ghost use Rattle.sk_batch.specs.declared.batch_fault.BatchFault.TheVariants as fault;
ghost use Rattle.sk_model.specs.Batches.{all_may_join, are_callbacks, batch_add, batch_of, batch_push, batch_stat, fault_say, is_callback, jids_of, may_call, may_join, or_none, push_jobs, unless};
ghost use Rattle.sk_model.specs.Change.{perform};
ghost use Rattle.sk_model.specs.Outcome.{Realizes, Outcome, refuses};
ghost use Rattle.sk_model.specs.Room.{HasRoom, is_too_much};
ghost use Rattle.sk_undo.specs.Versions.{edited};
ghost use Rattle.sk_value.specs.Answer.{counted};
ghost use Rattle.sk_jobs.specs.Batching.{IsTold, batch_in, try_join, try_make, unless_err};
ghost use Rattle.sk_jobs.specs.Callbacks.{AreCovered};
ghost use Rattle.sk_store.specs.Stored.{InStep, IsReady, Executes, world};

use crate::callbacks::{push_callbacks, push_job, word_of};
use sk_base::limits::LONGEST_ID;
use sk_batch::{Batch, BatchFault, Batches, Callbacks, Firing};
use sk_payload::{JobText, job_texts_of};
use sk_places::Origin;
use sk_resp::{Memory, Refusal, Replies, Reply, Say, Word, Words};
use sk_store::{Store, bytes_of};
use sk_value::{as_reply, counted, one_if, refused};
use std::alloc::Global;
use std::marker::Model;

/// The words of `SK.BPUSH`. An empty word is none.
#[derive(Drop)]
pub struct BatchWords {
    /// The id of the new batch, a name of at most 64 bytes.
    pub bid: Word,
    /// The batch that it is in.
    pub parent: Word,
    /// The job that is pushed when the batch is complete.
    pub complete: Word,
    /// The job that is pushed when it has succeeded.
    pub success: Word,
    /// The job that is pushed when it has died.
    pub death: Word,
    /// Its first jobs.
    pub texts: Words,
}

// ## The words

// An empty word is none.
fn or_none(word: Word) -> Option<Word>
    ensures { result ≡ or_none word }
{
    if word.bytes().is_empty() {
        None
    } else {
        Some(word)
    }
}

// The job of a callback, where there is one. Its text is parsed here, once.
fn callback_of(alloc: Global, word: Word) -> Result<Option<JobText>, Memory>
    ensures { IfOk result (λ callback. callback ≡ or_none word) }
{
    match or_none(word) {
        Some(text) => Ok(Some(JobText::of(alloc, text)?)),
        None => Ok(None),
    }
}

// The batch that words tell of.
fn batch_of(
    alloc: Global,
    bid: Word,
    parent: Word,
    complete: Word,
    success: Word,
    death: Word,
) -> Result<Batch, Memory>
    ensures { IfOk result (λ batch. batch ≡ batch_of bid parent complete success death) }
{
    let callbacks = Callbacks {
        complete: callback_of(alloc, complete)?,
        success: callback_of(alloc, success)?,
        death: callback_of(alloc, death)?,
    };
    Ok(Batch {
        bid,
        parent: or_none(parent),
        callbacks,
    })
}

// The job that a payload names.
fn jid_of(alloc: Global, payload: &JobText) -> Result<Option<Word>, Memory>
    ensures { IfOk result (λ jid. jid ≡ jid_of payload.now) }
{
    match payload.jid() {
        Some(jid) => Ok(Some(word_of(alloc, jid)?)),
        None => Ok(None),
    }
}

// The jobs that payloads name.
fn jids_of(alloc: Global, payloads: &[JobText]) -> Result<Vec<Word>, Memory>
    ensures { IfOk result (λ jids. jids.items ≡ jids_of payloads.now) }
{
    let mut jids = Vec::with_capacity(alloc, payloads.len())?;
    for payload in payloads {
        if let Some(jid) = jid_of(alloc, payload)? {
            jids.push(jid)?;
        }
    }
    Ok(jids)
}

// The jobs that a batch gets. Contracts see their texts.
#[derive(Drop)]
struct Jobs {
    payloads: Vec<JobText>,
    jids: Vec<Word>,
    // of all texts together
    bytes: u128,
}

impl Model for Jobs {
    ghost use Rattle.std.specs.Prelude.{◌≡◌, List, ℕ};
    ghost use Rattle.sk_model.specs.Batches.{jids_of};
    ghost use Rattle.sk_model.specs.Room.{bytes_of};

    ghost Value = { List (List ℕ) };

    ghost view = { λ j. j.payloads.items };

    ghost invariant = { λ j. (j.jids.items ≡ jids_of j.payloads.items) × (j.bytes ≡ bytes_of j.payloads.items) };
}

impl Jobs {
    // Each text is parsed here, once.
    fn of(alloc: Global, texts: Words) -> Result<Jobs, Memory>
        ensures { IfOk result (λ jobs. jobs ≡ texts) }
    {
        let bytes = bytes_of(texts.list());
        let payloads = job_texts_of(alloc, texts.into_list())?;
        let jids = jids_of(alloc, &payloads)?;
        Ok(Jobs {
            payloads,
            jids,
            bytes,
        })
    }

    fn jids(&self) -> &[Word]
        ensures { result.now ≡ jids_of self.now }
    {
        &self.jids
    }

    // The text of each of them names the batch.
    fn may_join(&self, bid: &[u8]) -> bool
        ensures { result ≡ all_may_join bid.now self.now }
    {
        self.payloads.iter().all(|payload| may_join(bid, payload))
    }

    // They are more than the store takes.
    fn are_too_much(&self, store: &Store) -> bool
        ensures is { result ≡ is_too_much (world store.now) self.now }
        ensures room { result ≡ false → HasRoom (length self.now) (world store.now).tally }
    {
        let count = self.payloads.len();
        count > 0 && store.is_full(count, self.bytes)
    }
}

// ## The rules

// The bytes are the id of a batch.
fn is_bid(bid: &[u8]) -> bool
    ensures { result ≡ is_name LONGEST_ID bid.now }
{
    sk_base::is_name(bid, LONGEST_ID)
}

// The text of the job names the batch.
fn may_join(bid: &[u8], payload: &JobText) -> bool
    ensures { result ≡ may_join bid.now (head_of payload.now) }
{
    let Some(head) = payload.head() else {
        return false;
    };
    match head.bid() {
        Some(other) => other == bid,
        None => false,
    }
}

/// The job is of no batch, and without a lock.
pub fn may_call(payload: &JobText) -> bool
    ensures { result ≡ may_call (head_of payload.now) }
{
    match payload.head() {
        Some(head) => head.bid().is_none() && head.lock().is_none(),
        None => false,
    }
}

// There is no job, or it may be a callback's.
fn is_callback(callback: &Option<JobText>) -> bool
    ensures { result ≡ is_callback callback.now }
{
    match callback {
        Some(payload) => may_call(payload),
        None => true,
    }
}

fn are_callbacks(callbacks: &Callbacks) -> bool
    ensures { result ≡ are_callbacks callbacks.now }
{
    is_callback(&callbacks.complete)
        && is_callback(&callbacks.success)
        && is_callback(&callbacks.death)
}

// What is told of a rule of the batches that is broken.
fn say_of(fault: BatchFault) -> Say
    ensures { result ≡ fault_say fault }
{
    match fault {
        BatchFault::NoBatch => Say::Refused(Refusal::NoBatch),
        BatchFault::RepeatedBid => Say::Refused(Refusal::RepeatedBid),
        BatchFault::Settled => Say::Refused(Refusal::Settled),
        BatchFault::RepeatedJid => Say::Refused(Refusal::RepeatedJid),
        BatchFault::Full => Say::Refused(Refusal::Full),
        BatchFault::Memory => Say::Oom,
    }
}

// A rule of the batches is broken, as it is told.
fn told(checked: Result<(), BatchFault>) -> Result<(), Say>
    ensures told { (o : Outcome) → unless (result_err checked) o ≡ unless_err result o }
    ensures kept { OnOk result (result_err checked ≡ None) }
{
    match checked {
        Ok(()) => Ok(()),
        Err(fault) => Err(say_of(fault)),
    }
}

// What isn't so is refused.
fn check(passes: bool, refusal: Refusal) -> Result<(), Say>
    ensures { (o : Outcome) → cond (not passes) (refuses refusal) o ≡ unless_err result o }
{
    if passes {
        Ok(())
    } else {
        Err(Say::Refused(refusal))
    }
}

// The callbacks of a new batch may be called, and its jobs may join it.
fn are_fit(batch: &Batch, jobs: &Jobs) -> bool
    ensures { result ≡ (are_callbacks batch.now.callbacks && all_may_join batch.now.bid jobs.now) }
{
    are_callbacks(&batch.callbacks) && jobs.may_join(batch.bid.bytes())
}

// The rules on the id and the parent of a new batch.
fn check_bid(batches: &Batches, batch: &Batch) -> Result<(), BatchFault>
    ensures { result_err result ≡ bid_fault batch.now.bid batch.now.parent batches.now.current None }
{
    batches.check_bid(batch.bid.bytes(), batch.parent.as_ref().map(Word::bytes))
}

// The rules on the jids of a new batch, and there may be one more.
fn check_new(batches: &Batches, bid: &[u8], jids: &[Word]) -> Result<(), BatchFault>
    ensures { result_err result ≡ jids_fault bid.now jids.now batches.now.current (breaks (has_most batches.now.current) fault.Full None) }
{
    batches.check_jids(bid, jids)?;
    if batches.is_full() {
        Err(BatchFault::Full)
    } else {
        Ok(())
    }
}

// The rules on a new batch and its first jobs, in the order in which they are told. Where there is room for the jobs, the rules on their jids are
// left to `Batches::make`, which looks at them too.
fn check_push(store: &Store, batch: &Batch, jobs: &Jobs) -> Result<(), Say>
    ensures told { batch_push (world store.now) batch.now jobs.now ≡ unless_err result (try_make batch.now jobs.now (world store.now)) }
    ensures room { OnOk result (HasRoom (length jobs.now) (world store.now).tally) }
{
    let bid = batch.bid.bytes();
    check(is_bid(bid), Refusal::NoBatch)?;
    told(check_bid(&store.batches, batch))?;
    check(are_fit(batch, jobs), Refusal::BadPayload)?;
    if !jobs.are_too_much(store) {
        return Ok(());
    }
    told(check_new(&store.batches, bid, jobs.jids()))?;
    Err(Say::Refused(Refusal::Full))
}

// The rules on jobs that a batch gets, in the same way, with `Batches::add`.
fn check_add(store: &Store, bid: &[u8], jobs: &Jobs) -> Result<(), Say>
    ensures told { batch_add (world store.now) bid.now jobs.now ≡ unless_err result (try_join bid.now jobs.now (world store.now)) }
    ensures room { OnOk result (HasRoom (length jobs.now) (world store.now).tally) }
{
    told(store.batches.check_batch(bid))?;
    check(jobs.may_join(bid), Refusal::BadPayload)?;
    if !jobs.are_too_much(store) {
        return Ok(());
    }
    told(store.batches.check_jids(bid, jobs.jids()))?;
    Err(Say::Refused(Refusal::Full))
}

// ## The jobs come

// The jobs are pushed, one after another, each at the left end of the queue that its head names.
fn push_jobs(store: &mut Store, payloads: Vec<JobText>) -> Result<(), Memory>
    requires { HasRoom (length payloads.items) (world store.old).tally }
    ensures ok { OnOk result (world store.new ≡ perform (world store.old) (push_jobs payloads.items)) }
    ensures step { InStep store.old store.new }
{
    for payload in payloads {
        push_job(store, payload, Origin::Outside)?;
    }
    Ok(())
}

// What is told of a rule that is broken. Want of memory is none.
fn told_of(broken: BatchFault) -> Result<Say, Memory>
    ensures told { IfOk result (λ say. say ≡ fault_say broken) }
    ensures rule { OnOk result (broken ≢ fault.Memory) }
{
    match broken {
        BatchFault::Memory => Err(Memory),
        _ => Ok(say_of(broken)),
    }
}

// The batch is made, or the rule that is broken is told.
fn make_batch(
    alloc: Global,
    batches: &mut Batches,
    batch: Batch,
    jids: Vec<Word>,
) -> Result<Result<Vec<Firing>, Say>, Memory>
    ensures told { IfOk result (λ done. IsTold (make_fault batch.bid batch.parent jids.items batches.old.current) done) }
    ensures fires { IfOk result (λ done. IfOk done (λ firings. firings.items ≡ made_fires batch jids.items)) }
    ensures ok { IfOk result (λ done. OnOk done (batches.new ≡ edited (made batch jids.items batches.old.current) batches.old)) }
    ensures same { IfOk result (λ done. OnErr done (batches.new ≡ batches.old)) }
    ensures step { batches.new.saved ≡ batches.old.saved }
{
    match batches.make(alloc, batch, jids) {
        Ok(firings) => Ok(Ok(firings)),
        Err(fault) => Ok(Err(told_of(fault)?)),
    }
}

// The batch gets the jobs, in the same way.
fn add_jobs(
    alloc: Global,
    batches: &mut Batches,
    bid: &[u8],
    jids: Vec<Word>,
) -> Result<Result<(), Say>, Memory>
    ensures told { IfOk result (λ added. IsTold (add_fault bid.now jids.items batches.old.current) added) }
    ensures ok { IfOk result (λ added. OnOk added (batches.new ≡ edited (joined bid.now jids.items batches.old.current) batches.old)) }
    ensures same { IfOk result (λ added. OnErr added (batches.new ≡ batches.old)) }
    ensures step { batches.new.saved ≡ batches.old.saved }
{
    match batches.add(alloc, bid, jids) {
        Ok(()) => Ok(Ok(())),
        Err(fault) => Ok(Err(told_of(fault)?)),
    }
}

// The batch is made with its jobs, and they are pushed; without any it fires at once. Where a rule is broken nothing has changed, and after want of
// memory a part of it is done.
fn make_open(store: &mut Store, batch: Batch, jobs: Jobs) -> Result<Reply, Memory>
    requires room { HasRoom (length jobs) (world store.old).tally }
    requires covered { AreCovered store.old }
    ensures ok { IfOk result (λ reply. Realizes (world store.old) (try_make batch jobs (world store.old)) reply (world store.new)) }
    ensures step { InStep store.old store.new }
{
    let made = make_batch(store.alloc, &mut store.batches, batch, jobs.jids)?;
    let firings = match made {
        Ok(firings) => firings,
        Err(say) => return Ok(Reply::Say(say)),
    };
    let _batches = store.batches.len(); // for what it says of their number
    push_jobs(store, jobs.payloads)?;
    let _pushes = store.places.push_count(); // and this of the clients' pushes
    let fired = push_callbacks(store, firings)?;
    as_reply(store.alloc, fired)
}

// The batch gets the jobs, and they are pushed, in the same way.
fn join_open(store: &mut Store, bid: &[u8], jobs: Jobs) -> Result<Reply, Memory>
    requires room { HasRoom (length jobs) (world store.old).tally }
    ensures ok { IfOk result (λ reply. Realizes (world store.old) (try_join bid.now jobs (world store.old)) reply (world store.new)) }
    ensures step { InStep store.old store.new }
{
    let count = jobs.payloads.len();
    let added = add_jobs(store.alloc, &mut store.batches, bid, jobs.jids)?;
    if let Err(say) = added {
        return Ok(Reply::Say(say));
    }
    push_jobs(store, jobs.payloads)?;
    Ok(counted(count))
}

// ## The commands

/// SK.BPUSH: a batch is made with its first jobs, and they are pushed. Without any its complete and its success are fired at once. The answer names
/// what was fired, the batch and the kind of each firing. Each text is parsed here, once. It is refused with
///
/// - [`Refusal::NoBatch`], where the id is no name, or there is no such parent,
/// - [`Refusal::RepeatedBid`], where a batch of the id is there,
/// - [`Refusal::Settled`], where the parent has no open job,
/// - [`Refusal::BadPayload`], where a callback has no head, a batch or a lock, or where the text of a job doesn't name the batch,
/// - [`Refusal::RepeatedJid`], where a job comes twice, and
/// - [`Refusal::Full`], where there are as many batches, rows, bytes or pushes as there may be.
pub fn push_batch(store: &mut Store, words: BatchWords) -> Result<Reply, Memory>
    requires ready { IsReady store.old }
    requires covered { AreCovered store.old }
    ensures { Executes store.old (batch_push (world store.old) (batch_in words) words.texts) result store.new }
{
    let batch = batch_of(
        store.alloc,
        words.bid,
        words.parent,
        words.complete,
        words.success,
        words.death,
    )?;
    let jobs = Jobs::of(store.alloc, words.texts)?;
    if let Err(say) = check_push(store, &batch, &jobs) {
        return Ok(Reply::Say(say));
    }
    store.begin();
    let done = make_open(store, batch, jobs);
    store.close(done)
}

/// SK.BADD: a batch gets more jobs, and they are pushed. The answer tells how many they are. Each text is parsed here, once. It is refused with
///
/// - [`Refusal::NoBatch`], where there is no such batch,
/// - [`Refusal::Settled`], where it has no open job,
/// - [`Refusal::BadPayload`], where the text of a job doesn't name the batch,
/// - [`Refusal::RepeatedJid`], where a job comes twice, or is in the batch, and
/// - [`Refusal::Full`], where there are as many rows, bytes or pushes as there may be.
pub fn add_to_batch(store: &mut Store, bid: &Word, texts: Words) -> Result<Reply, Memory>
    requires { IsReady store.old }
    ensures { Executes store.old (batch_add (world store.old) bid.now texts) result store.new }
{
    let jobs = Jobs::of(store.alloc, texts)?;
    if let Err(say) = check_add(store, bid.bytes(), &jobs) {
        return Ok(Reply::Say(say));
    }
    store.begin();
    let done = join_open(store, bid.bytes(), jobs);
    store.close(done)
}

/// SK.BSTAT: how many members the batch has, how many of them haven't returned and how many weren't reported, 1 where one was buried and else 0, and
/// how many members of the batch and of those within it haven't returned. It is refused where there is no such batch.
pub fn batch_stat(store: &Store, bid: &Word) -> Result<Reply, Memory>
    requires { IsReady store.now }
    ensures { Executes store.now (batch_stat (world store.now) bid.now) result store.now }
{
    let Some(stat) = store.batches.stat(bid.bytes()) else {
        return Ok(refused(Refusal::NoBatch));
    };
    let mut parts = Vec::with_capacity(store.alloc, 5)?;
    parts.push(counted(stat.members as usize))?;
    parts.push(counted(stat.pending as usize))?;
    parts.push(counted(stat.unreported as usize))?;
    parts.push(one_if(stat.died))?;
    parts.push(counted(stat.pending_under as usize))?;
    Ok(Reply::Array(Replies::new(parts)))
}
