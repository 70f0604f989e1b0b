// All that one worker's thread does: it works at one seat after another, until it has taken its turns.
ghost use Rattle.std.specs.Prelude.{◌≡◌, ◌≤◌, ◌<◌, ◌+◌, ◌*◌, ◌∷◌, [], codes, true, IfOk};
ghost use Rattle.sk_policy.specs.Order.{strict_order};
ghost use Rattle.sk_lane.specs.Drawing.{first_crashes};
ghost use Rattle.sk_lane.specs.Lane.{WorksAt, task};
ghost use Rattle.sk_lane.specs.Progress.{KeepsRules};
ghost use Rattle.sk_lane.specs.Story.{Seated, sitting};
ghost use Rattle.sk_lane.specs.Threads.{IsThread, TellsStory};
ghost use Rattle.sk_lane.specs.Turns.{ident_of};

use crate::shift::{Shift, still};
use crate::{Crashes, Drawing, Memory, SeatLink, Seats, Story};
use rand_core::SeedableRng;
use rand_pcg::Lcg64Xsh32;
use sk_edge::PcgDice;
use sk_policy::{DelayRule, QueueOrder};
use sk_resp::Text;
use sk_worker::{Registry, Worker};
use std::alloc::Global;

/// What a thread keeps between its workers.
#[derive(Drop)]
struct Thread {
    number: u32,
    order: QueueOrder,
    rule: DelayRule,
    dice: PcgDice,
    crashes: Crashes,
}

// The queue `default` alone.
fn order(alloc: Global) -> Result<QueueOrder, Memory>
    ensures { IfOk result (λ order. order ≡ strict_order (codes "default" ∷ [])) }
{
    let mut names = Vec::new(alloc);
    names.push(Text::new(String::from_str(alloc, "default")?))?;
    QueueOrder::strict(names).map_err(|_| Memory)
}

// The process of this worker.
fn ident(alloc: Global, number: u32) -> Result<Text, Memory>
    ensures { IfOk result (λ ident. ident ≡ ident_of number) }
{
    Ok(Text::new(format!(in alloc; "w:{number}:d")?))
}

impl Thread {
    fn new(
        alloc: Global,
        seed: u64,
        number: u32,
        crashes: u32,
        rule: DelayRule,
    ) -> Result<Thread, Memory>
        ensures { IfOk result (λ thread. IsThread number rule (first_crashes seed number crashes) thread) }
    {
        let own = seed.wrapping_add(100).wrapping_add(u64::from(number));
        Ok(Thread {
            number,
            order: order(alloc)?,
            rule,
            dice: PcgDice::new(Lcg64Xsh32::seed_from_u64(own)),
            crashes: Crashes::new(seed, number, crashes),
        })
    }
}

// Takes a seat, works there, and ends it. Answers how many turns are left then, too.
fn sit<S: Seats>(
    alloc: Global,
    seats: &mut S,
    thread: Thread,
    registry: &mut Registry,
    todo: u64,
) -> Result<(Story, u64, Thread), Memory>
    requires some { 0 < todo }
    requires free { S.free seats.old ≡ true }
    requires order { thread.order ≡ strict_order (codes "default" ∷ []) }
    requires number { thread.number ≤ 16 }
    ensures free { S.free seats.new ≡ true }
    ensures story { IfOk result (λ r. TellsStory runs thread registry.old todo r.0 registry.new r.1 r.2.crashes) }
    ensures seated { IfOk result (λ r. Seated (sitting S.Seats seats.old) (sitting S.Seats seats.new) r.0.seat r.0.asks.items) }
    ensures thread { IfOk result (λ r. IsThread thread.number thread.rule r.2.crashes r.2) }
    ensures number { IfOk result (λ r. r.0.thread ≡ thread.number + 1) }
    ensures less { IfOk result (λ r. r.1 < todo) }
    ensures registry { KeepsRules registry.old registry.new }
{
    let Thread {
        number,
        order,
        rule,
        dice,
        crashes,
    } = thread;
    let worker = Worker::new(alloc, ident(alloc, number)?, order, rule, 1);
    let Ok((seat, desk)) = seats.next() else {
        return Err(Memory);
    };
    let mut shift = Shift {
        link: SeatLink::new(alloc, desk, still(), crashes),
        worker,
        dice,
        marks: Vec::new(alloc),
    };
    let played = shift.play(alloc, registry, todo);
    let Shift {
        link,
        worker,
        dice,
        marks,
    } = shift;
    let SeatLink {
        desk,
        clock: _clock,
        asks,
        drawing,
    } = link;
    seats.end(desk);
    let left = played?;
    let (order, rule) = worker.retire();
    let Drawing { crashes, .. } = drawing;
    let story = Story {
        thread: number + 1,
        seat,
        asks,
        marks,
    };
    let thread = Thread {
        number,
        order,
        rule,
        dice,
        crashes,
    };
    Ok((story, left, thread))
}

/// All that worker `number`, from 1 to 16, does in a drill with `jobs` jobs, from 1 to 20,000, and `crashes` crashes as its own share. It waits only
/// where its seats wait.
///
/// The process of worker `i` is `w:i:d`. At each seat it sends `SK.BEAT ident` and `SK.JOIN ident`, and takes turns of a [`Worker`] that asks the queue
/// `default` alone and holds one job at most; no job is given back at the end. It takes `2 * jobs` turns. Each of these counts as one of them: a beat or
/// a join that isn't answered `+OK`, a turn that ends at an error reply, at a job that can't fail once more or at a crash. Behind such a turn it ends its
/// desk, and goes on at the next seat with a new worker, which has the queues and the plain rule of the one before; behind its last turn it takes no
/// new seat. Its clocks stand at 1,700,000,000,000 ms.
///
/// Before each call that a turn makes it draws a word of 32 bits, as long as it has crashes left. Where the word is a multiple of 16, the link fails
/// there: the store isn't asked, and a crash less is left. The words come from `Lcg64Xsh32::seed_from_u64(seed + number)`, and those of the dice from
/// `Lcg64Xsh32::seed_from_u64(seed + 100 + number)`, as [`PcgDice`] draws them. Both sums wrap.
///
/// It answers a story for each seat, in order. There is no memory where the store answers `-OOM want of memory`, too.
pub fn lane<S: Seats>(
    alloc: Global,
    seats: &mut S,
    seed: u64,
    jobs: u64,
    number: u32,
    crashes: u32,
    registry: &mut Registry,
    rule: DelayRule,
) -> Result<Vec<Story>, Memory>
    requires number { (1 ≤ number) × (number ≤ 16) }
    requires jobs { (1 ≤ jobs) × (jobs ≤ 20000) }
    requires seats { 2 * jobs ≤ S.left seats.old }
    requires free { S.free seats.old ≡ true }
    ensures told { IfOk result (λ s. WorksAt S.Seats runs (task seed jobs number crashes) rule registry.old seats.old registry.new seats.new s.items) }
    ensures free { S.free seats.new ≡ true }
    ensures classes { registry.new.classes ≡ registry.old.classes }
    ensures rules { registry.new.rules ≡ registry.old.rules }
{
    let mut thread = Thread::new(alloc, seed, number, crashes, rule)?;
    let mut stories = Vec::new(alloc);
    let mut left = 2 * jobs;
    while left > 0 {
        let (story, rest, next) = sit(alloc, seats, thread, registry, left)?;
        stories.push(story)?;
        thread = next;
        left = rest;
    }
    Ok(stories)
}
