// Threads that push to one store, each on a seat of its own.
ghost use Rattle.std.specs.Prelude.{◌≡◌, ◌+◌, ◌*◌, ◌<◌, ◌^◌, All, IfOk, OnErr, vec_len};
ghost use Rattle.sk_model.specs.World.{first};

use crate::calls::Given;
use crate::calls::desks::{Size, read_size};
use crate::command::{hand_in, words_of};
use crate::output::Output;
use crate::text::{invalid, numbers};
use sk_base::StepClock;
use sk_desk::{Desk, Hub, HubBlank, HubId, NoBook, Pass};
use sk_resp::Reply;
use std::alloc::{AllocError, Global};
use std::io;
use std::marker::Brand;
use std::sync::Wait;
use std::thread::{self, Threads};

/// A pass to one seat, and how many of its pushes were answered by a number.
#[derive(Drop)]
struct Pusher<I: HubId> {
    pass: Pass<I>,
    pushed: u64,
}

/// What the threads share.
#[derive(Drop)]
struct Shared<'a, R: Wait + Sync, I: HubId> {
    rt: &'a R,
    alloc: Global,
    hub: &'a Hub<I, NoBook>,
    pushes: u64,
}

// The push of a job that no other one is like.
fn push<D: Desk>(alloc: Global, desk: &mut D, seat: u32, number: u64) -> io::Result<Reply> {
    let mut command = Output::new(alloc);
    command.say("LPUSH queue:a {\"args\":[],\"class\":\"Note\",");
    command.count("\"jid\":\"s", u64::from(seat), "");
    command.count("n", number, "\",\"queue\":\"a\"}");
    let words = words_of(alloc, command.text()?)?;
    let mut clock = StepClock { now: 0, step: 0 };
    hand_in(alloc, desk, &words, &mut clock)
}

impl<I: HubId> Pusher<I> {
    // Pushes its jobs on its seat.
    fn run<R: Wait + Sync>(&mut self, shared: &Shared<'_, R, I>)
        ensures { self.new.pass.parts ≡ self.old.pass.parts }
    {
        let Ok(mut desk) = shared.hub.seat(shared.rt, &mut self.pass) else {
            return;
        };
        let seat = desk.number();
        let mut pushed: u64 = 0;
        for number in 0..shared.pushes {
            if let Ok(Reply::Int(_)) = push(shared.alloc, &mut desk, seat, number) {
                pushed = pushed.saturating_add(1);
            }
        }
        self.pushed = pushed;
        desk.end(&mut self.pass);
    }
}
// A pusher for each thread.
fn pushers<I: HubId>(
    alloc: Global,
    pass: &mut Pass<I>,
    threads: u64,
) -> Result<Vec<Pusher<I>>, AllocError>
    requires { threads < pass.old.count }
    ensures parts { IfOk result (λ pushers. pass.new.parts + 2 * vec_len pushers ≡ pass.old.parts) }
    ensures err { OnErr result (pass.new.parts ≡ pass.old.parts) }
    ensures two_each { IfOk result (λ pushers. All (λ it. it.pass.parts ≡ 2) pushers.items) }
{
    let mut pushers = Vec::with_capacity(alloc, threads as usize)?;
    while (pushers.len() as u64) < threads {
        pushers.push_reserved(Pusher {
            pass: pass.split(1),
            pushed: 0,
        });
    }
    Ok(pushers)
}

// How many pushes were answered by a number. The passes are joined.
fn gather<I: HubId>(mut pushers: Vec<Pusher<I>>, pass: &mut Pass<I>) -> u64
    requires { All (λ it. it.pass.parts ≡ 2) pushers.items }
    ensures { pass.new.parts ≡ pass.old.parts + 2 * vec_len pushers }
{
    let mut pushed: u64 = 0;
    while let Some(pusher) = pushers.pop() {
        let Pusher {
            pass: own,
            pushed: its,
        } = pusher;
        pushed = pushed.saturating_add(its);
        pass.join(own);
    }
    pushed
}

// How many pushes were answered by a number, of so many threads, each with so many pushes. The pass has its parts again.
fn push_all<R: Threads + Wait + Sync, I: HubId + Send + Sync>(
    shared: &Shared<'_, R, I>,
    pass: &mut Pass<I>,
    threads: u64,
) -> Result<u64, AllocError>
    requires { (0 < threads) × (threads < pass.old.count) }
    ensures { pass.new.parts ≡ pass.old.parts }
{
    let mut pushers = pushers(shared.alloc, pass, threads)?;
    thread::for_each_mut(
        shared.rt,
        pushers.as_mut_slice(),
        threads as usize,
        &|_: usize, pusher: &mut Pusher<I>|
            ensures { pusher.new.pass.parts ≡ pusher.old.pass.parts }
        { pusher.run(shared) },
    );
    Ok(gather(pushers, pass))
}

fn threads_on<R: Threads + Wait + Sync, I: HubId + Send + Sync>(
    rt: &R,
    blank: HubBlank,
    alloc: Global,
    size: Size,
    pushes: u64,
) -> Result<Output, AllocError>
    requires blank { blank ≡ record { acks = I.acks; asks = I.asks; cuts = I.cuts } }
    requires start { first size.limits ≡ I.start }
    requires size { (0 < size.numbers) × (size.numbers + 1 < 2 ^ 32) }
{
    let (hub, mut pass) = Hub::<I, NoBook>::new(alloc, blank, size.limits, NoBook);
    let shared = Shared {
        rt,
        alloc,
        hub: &hub,
        pushes,
    };
    let pushed = push_all(&shared, &mut pass, u64::from(size.numbers));
    let (acknowledged, tally) = hub.close().finish(&mut pass);
    let mut out = Output::new(alloc);
    out.count("pushed ", pushed?, "");
    out.count(" acknowledged ", acknowledged, "");
    out.count(" outside ", tally.outside, "");
    out.count(" live ", tally.live, "\n");
    Ok(out)
}

/// What comes of threads that push. The first word is how many jobs each of them pushes; then come how many threads there are, and the rows, the
/// bytes and the batches of the store.
pub fn push_row<R: Threads + Wait + Sync>(
    rt: &R,
    alloc: Global,
    given: &Given<'_>,
) -> io::Result<Output> {
    let numbers = numbers(alloc, given.words)?;
    let [pushes, rest @ ..] = numbers.as_slice() else {
        return Err(invalid());
    };
    let size = read_size(rest)?;
    Ok(threads_on::<R, Brand>(rt, HubBlank::new(), alloc, size, *pushes)?)
}
