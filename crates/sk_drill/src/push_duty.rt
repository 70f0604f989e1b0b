// The thread that pushes the jobs.
ghost use Rattle.std.specs.Prelude.{◌≡◌, [], IfOk, IfSome, OnOk, map, true};
ghost use Rattle.sk_compare.specs.Exchange.{exchange_of};
ghost use Rattle.sk_drill.specs.Crews.{PushedAt};
ghost use Rattle.sk_drill.specs.Telling.{OnTime, PushesOne, Pushed, StaysOnTime, push_moment};

use crate::Memory;
use crate::duty::Duty;
use crate::load::START;
use crate::requests::push;
use sk_base::StepClock;
use sk_desk::Desk;
use sk_lane::{Crashes, SeatLink, Seats, Story};
use sk_link::Link;
use std::alloc::Global;

// Pushes one job over a link.
fn push_one<D: Desk>(alloc: Global, link: &mut SeatLink<D, StepClock>, k: u64) -> Result<(), Memory>
    ensures pushed { OnOk result (PushesOne k (map exchange_of link.old.asks.items) (map exchange_of link.new.asks.items)) }
    ensures time { OnOk result (StaysOnTime link.old link.new) }
{
    let words = push(alloc, k, b"default")?;
    match link.call(alloc, &words) {
        Ok(_) => Ok(()),
        Err(_) => Err(Memory),
    }
}

// Pushes the jobs.
fn push_all<D: Desk>(
    alloc: Global,
    link: &mut SeatLink<D, StepClock>,
    jobs: u64,
) -> Result<(), Memory>
    requires empty { link.old.asks.items ≡ [] }
    requires clock { link.old.clock ≡ record { now = 1700000000000; step = 0 } }
    ensures pushed { OnOk result (Pushed jobs (map exchange_of link.new.asks.items)) }
    ensures time { OnOk result (OnTime push_moment link.new) }
{
    for k in 0..jobs {
        push_one(alloc, link, k + 1)?;
    }
    Ok(())
}

// Pushes them from the next seat, and ends that.
fn push_jobs<S: Seats>(alloc: Global, seats: &mut S, jobs: u64) -> Result<Story, Memory>
    requires { S.free seats.old ≡ true }
    ensures { IfOk result (PushedAt (S.last seats.old) (S.left seats.old) jobs) }
{
    let Ok((seat, desk)) = seats.next() else {
        return Err(Memory);
    };
    let clock = StepClock {
        now: START,
        step: 0,
    };
    let mut link = SeatLink::new(alloc, desk, clock, Crashes::new(0, 0, 0));
    let pushed = push_all(alloc, &mut link, jobs);
    let SeatLink {
        desk,
        clock: _clock,
        asks,
        drawing: _drawing,
    } = link;
    seats.end(desk);
    pushed?;
    Ok(Story {
        thread: 0,
        seat,
        asks,
        marks: Vec::new(alloc),
    })
}

/// It pushes the jobs 1 to `jobs` one by one to the queue `default`, and keeps its story, where there was memory.
#[derive(Drop)]
pub(crate) struct PushDuty<S: Drop> {
    pub seats: S,
    pub jobs: u64,
    pub story: Option<Story>,
}

impl<S: Seats + Drop> Duty for PushDuty<S> {
    ghost ready = { λ a. S.free a.seats ≡ true };

    ghost did = { λ a b. IfSome b.story (PushedAt (S.last a.seats) (S.left a.seats) a.jobs) };

    fn run(&mut self, alloc: Global) {
        self.story = match push_jobs(alloc, &mut self.seats, self.jobs) {
            Ok(story) => Some(story),
            Err(_) => None,
        };
    }
}
