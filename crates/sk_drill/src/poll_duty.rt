// The thread of the poller.
ghost use Rattle.std.specs.Prelude.{◌≡◌, [], IfOk, IfSome, OnOk, map, true};
ghost use Rattle.sk_compare.specs.Exchange.{exchange_of};
ghost use Rattle.sk_poller.specs.Stage.{watch_of};
ghost use Rattle.sk_drill.specs.Crews.{PolledAt};
ghost use Rattle.sk_drill.specs.Telling.{HasEnded, OnTime, Polled, StaysOnTime, TakesTurn, poll_moment, watch};

use crate::Memory;
use crate::duty::Duty;
use crate::load::START;
use rand_core::SeedableRng;
use rand_pcg::Lcg64Xsh32;
use sk_base::StepClock;
use sk_desk::Desk;
use sk_edge::PcgDice;
use sk_lane::{Crashes, SeatLink, Seats, Story};
use sk_poller::{PollFault, PollReport, Poller};
use sk_resp::Text;
use std::alloc::Global;

/// By how many milliseconds a clock of the poller's thread goes on at each reading.
const STEP: u64 = 1_000;

// The poller of the process `w:0:d`, without periodic jobs.
fn poller(alloc: Global) -> Result<Poller, Memory>
    ensures { IfOk result (λ poller. watch_of poller ≡ watch) }
{
    let ident = Text::new(String::from_str(alloc, "w:0:d")?);
    Ok(Poller::new(ident, Vec::new(alloc), 0))
}

fn clock() -> StepClock
    ensures { result ≡ record { now = 1700000000000; step = 1000 } }
{
    StepClock {
        now: START,
        step: STEP,
    }
}

// Whether the poller goes on behind a turn.
fn goes_on(turn: Result<PollReport, PollFault>) -> Result<(), Memory>
    ensures { OnOk result (HasEnded turn) }
{
    match turn {
        Ok(_) => Ok(()),
        Err(PollFault::Refused(_)) => Ok(()),
        Err(_) => Err(Memory),
    }
}

// Takes one turn over a link.
fn take_turn<D: Desk>(
    alloc: Global,
    poller: &Poller,
    link: &mut SeatLink<D, StepClock>,
    clock: &mut StepClock,
    dice: &mut PcgDice,
) -> Result<(), Memory>
    requires { watch_of poller.now ≡ watch }
    ensures polled { OnOk result (TakesTurn clock.old link.old clock.new link.new) }
    ensures time { OnOk result (StaysOnTime link.old link.new) }
{
    goes_on(poller.turn(alloc, link, clock, dice))
}

// Takes so many turns over a link, and marks each with the number of asks before it.
fn poll_all<D: Desk>(
    alloc: Global,
    poller: &Poller,
    link: &mut SeatLink<D, StepClock>,
    turns: u64,
    marks: &mut Vec<u64>,
) -> Result<(), Memory>
    requires watch { watch_of poller.now ≡ watch }
    requires empty { (link.old.asks.items ≡ []) × (marks.old.items ≡ []) }
    requires clock { link.old.clock ≡ record { now = 1700000000000; step = 1000 } }
    ensures polled { OnOk result (Polled turns (map exchange_of link.new.asks.items) marks.new.items) }
    ensures time { OnOk result (OnTime poll_moment link.new) }
{
    let mut clock = clock();
    // It draws no word, since it has no periodic jobs.
    let mut dice = PcgDice::new(Lcg64Xsh32::seed_from_u64(0));
    for _turn in 0..turns {
        marks.push(link.asks.len() as u64)?;
        take_turn(alloc, poller, link, &mut clock, &mut dice)?;
    }
    Ok(())
}

// Takes them from the next seat, and ends that.
fn poll<S: Seats>(alloc: Global, seats: &mut S, turns: u64) -> Result<Story, Memory>
    requires { S.free seats.old ≡ true }
    ensures { IfOk result (PolledAt (S.last seats.old) (S.left seats.old) turns) }
{
    let poller = poller(alloc)?;
    let Ok((seat, desk)) = seats.next() else {
        return Err(Memory);
    };
    let mut link = SeatLink::new(alloc, desk, clock(), Crashes::new(0, 0, 0));
    let mut marks = Vec::new(alloc);
    let polled = poll_all(alloc, &poller, &mut link, turns, &mut marks);
    let SeatLink {
        desk,
        clock: _clock,
        asks,
        drawing: _drawing,
    } = link;
    seats.end(desk);
    polled?;
    Ok(Story {
        thread: 1,
        seat,
        asks,
        marks,
    })
}

/// It takes so many turns of a poller, and keeps its story, where there was memory.
#[derive(Drop)]
pub(crate) struct PollDuty<S: Drop> {
    pub seats: S,
    pub turns: u64,
    pub story: Option<Story>,
}

impl<S: Seats + Drop> Duty for PollDuty<S> {
    ghost ready = { λ a. S.free a.seats ≡ true };

    ghost did = { λ a b. IfSome b.story (PolledAt (S.last a.seats) (S.left a.seats) a.turns) };

    fn run(&mut self, alloc: Global) {
        self.story = match poll(alloc, &mut self.seats, self.turns) {
            Ok(story) => Some(story),
            Err(_) => None,
        };
    }
}
