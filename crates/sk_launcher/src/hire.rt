// How a worker gets its connection and joins.
ghost use Rattle.std.specs.Prelude.{◌≡◌, ◌≤◌, ◌<◌, ◌+◌, ◌∷◌, [], IfOk, IfErr, OnOk, OnErr, All, false, length, vec_len, vec_capacity};
ghost use Rattle.sk_base.specs.declared.limits.TheConstants.{MOST_PREFETCH};
ghost use Rattle.sk_launcher.specs.Connections.{Gives};
ghost use Rattle.sk_launcher.specs.Launching.{Hindered};
ghost use Rattle.sk_launcher.specs.Promises.{Failed, HiresNext, HiresStaff, Starts, Wire, told_by};
ghost use Rattle.sk_launcher.specs.Working.{worker_settings};

use crate::pace::Pace;
use crate::processor::Processor;
use crate::tally::Tally;
use crate::worker_thread::WorkerThread;
use crate::{LaunchFault, WorkSettings};
use sk_base::Clock;
use sk_edge::{Door, PcgDice};
use sk_link::WireLink;
use sk_policy::{DelayRule, QueueOrder};
use sk_resp::Text;
use sk_worker::{Registry, Worker};
use std::alloc::Global;
use std::collections::VecDeque;

/// What a new worker needs besides its team: who it is, its queues, its pace, and its connection.
#[derive(Drop)]
pub(crate) struct Post<N: Door> {
    pub ident: Text,
    pub order: QueueOrder,
    pub pace: Pace,
    pub conn: N::Conn,
}

/// The next worker's post, by its number.
pub(crate) fn open_post<N: Door>(
    alloc: Global,
    settings: &WorkSettings,
    number: usize,
    net: &mut N,
) -> Result<Post<N>, LaunchFault>
    ensures given { IfOk result (λ post. Gives (told_by N.Door net.old) post.conn (told_by N.Door net.new)) }
    ensures post { IfOk result (λ post. (post.ident ≡ settings.now.ident) × (post.order ≡ settings.now.order)) }
    ensures err { OnErr result (told_by N.Door net.new ≡ told_by N.Door net.old) }
    ensures cause { IfErr result (λ f. Hindered (Failed N.Door net.old net.new) (f ∷ [])) }
    ensures later { N.door_faults net.old ≤ N.door_faults net.new }
{
    let ident = settings.ident.copy()?;
    let order = settings.order.copy(alloc)?;
    let conn = net.connect(settings.address.host.text(), settings.address.port)?;
    let pace = Pace::new(number, settings.threads);
    Ok(Post {
        ident,
        order,
        pace,
        conn,
    })
}

/// What workers are made of, in the order in which they get it: their teams, the rules of classes without a job, and their dice.
#[derive(Drop)]
pub(crate) struct Outfit {
    pub teams: VecDeque<Registry>,
    pub rules: VecDeque<DelayRule>,
    pub dice: VecDeque<PcgDice>,
}

// Starts a worker with what its post and the next outfit give, and lets it join.
fn start<N: Door, C: Clock>(
    alloc: Global,
    prefetch: u32,
    post: Post<N>,
    registry: Registry,
    plain: DelayRule,
    dice: PcgDice,
    clock: &C,
) -> WorkerThread<WireLink<N::Conn>, C, PcgDice>
    requires { (1 ≤ prefetch) × (prefetch ≤ MOST_PREFETCH) }
    ensures { Starts (Wire N.Conn.Source N.Conn.Sink) C.Clock runs post.conn (worker_settings post.ident post.order prefetch)
        registry plain dice result }
{
    let worker = Worker::new(alloc, post.ident, post.order, plain, prefetch as usize);
    let mut thread = WorkerThread {
        processor: Processor {
            worker,
            registry,
            tally: Tally::new(),
            fault: None,
        },
        pace: post.pace,
        link: WireLink::new(alloc, post.conn),
        clock: clock.twin(),
        dice,
    };
    thread.join(alloc);
    thread
}

// Hires one worker, where there is an outfit left.
fn hire_one<N: Door, C: Clock>(
    alloc: Global,
    settings: &WorkSettings,
    outfit: &mut Outfit,
    net: &mut N,
    clock: &C,
) -> Result<WorkerThread<WireLink<N::Conn>, C, PcgDice>, LaunchFault>
    requires prefetch { (1 ≤ settings.now.prefetch) × (settings.now.prefetch ≤ MOST_PREFETCH) }
    requires teams { 0 < length outfit.old.teams.items }
    requires rules { 0 < length outfit.old.rules.items }
    requires dice { 0 < length outfit.old.dice.items }
    ensures hired { IfOk result (λ w. HiresNext N.Door N.Conn.Source N.Conn.Sink C.Clock runs settings.now net.old outfit.old w net.new outfit.new) }
    ensures teams { OnOk result (length outfit.new.teams.items + 1 ≡ length outfit.old.teams.items) }
    ensures rules { OnOk result (length outfit.new.rules.items + 1 ≡ length outfit.old.rules.items) }
    ensures dice { OnOk result (length outfit.new.dice.items + 1 ≡ length outfit.old.dice.items) }
    ensures err { OnErr result ((told_by N.Door net.new ≡ told_by N.Door net.old) × (outfit.new ≡ outfit.old)) }
    ensures cause { IfErr result (λ f. Hindered (Failed N.Door net.old net.new) (f ∷ [])) }
    ensures later { N.door_faults net.old ≤ N.door_faults net.new }
{
    let post = open_post(alloc, settings, outfit.teams.len(), net)?;
    let Some(team) = outfit.teams.pop_front() else {
        unreachable!()
    };
    let Some(plain) = outfit.rules.pop_front() else {
        unreachable!()
    };
    let Some(dice) = outfit.dice.pop_front() else {
        unreachable!()
    };
    Ok(start(alloc, settings.prefetch, post, team, plain, dice, clock))
}

/// Hires as many workers as the settings say, up to the first that has a fault. Where the door gives no connection, or there is no memory, there are
/// fewer.
pub(crate) fn hire_all<N: Door, C: Clock>(
    alloc: Global,
    settings: &WorkSettings,
    outfit: &mut Outfit,
    net: &mut N,
    clock: &C,
    staff: &mut Vec<WorkerThread<WireLink<N::Conn>, C, PcgDice>>,
) -> Result<(), LaunchFault>
    requires prefetch { (1 ≤ settings.now.prefetch) × (settings.now.prefetch ≤ MOST_PREFETCH) }
    requires room { (vec_len staff.old ≡ 0) × (settings.now.threads ≤ vec_capacity staff.old) }
    requires teams { settings.now.threads ≤ length outfit.old.teams.items }
    requires rules { settings.now.threads ≤ length outfit.old.rules.items }
    requires dice { settings.now.threads ≤ length outfit.old.dice.items }
    ensures hired { HiresStaff N.Door N.Conn.Source N.Conn.Sink C.Clock runs settings.now net.old outfit.old staff.new net.new outfit.new }
    ensures enough { OnOk result (All (λ w. w.processor.worker.ended ≡ false) staff.new.items → vec_len staff.new ≡ settings.now.threads) }
    ensures few { vec_len staff.new ≤ settings.now.threads }
    ensures left { length outfit.new.teams.items + vec_len staff.new ≡ length outfit.old.teams.items }
    ensures cause { IfErr result (λ f. Hindered (Failed N.Door net.old net.new) (f ∷ [])) }
    ensures later { N.door_faults net.old ≤ N.door_faults net.new }
{
    while staff.len() < settings.threads as usize {
        let worker = hire_one(alloc, settings, outfit, net, clock)?;
        let is_broken = worker.is_broken();
        staff.push_reserved(worker);
        if is_broken {
            return Ok(());
        }
    }
    Ok(())
}
