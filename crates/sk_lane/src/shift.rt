// A worker at one seat: it beats and joins, and takes its turns.
ghost use Rattle.std.specs.Prelude.{◌≡◌, ◌<◌, ◌||◌, [], true, false, IfOk, OnOk};
ghost use Rattle.std.specs.Result.{is_err};
ghost use Rattle.sk_worker.specs.Broken.{is_lost};
ghost use Rattle.sk_worker.specs.Request.{join_words};
ghost use Rattle.sk_lane.specs.Carrying.{KeepsCalls, state_of};
ghost use Rattle.sk_lane.specs.Drawing.{at_rest, is_off};
ghost use Rattle.sk_lane.specs.Progress.{KeepsRules, KeepsWorker, Said, Stands, is_memory};
ghost use Rattle.sk_lane.specs.Shifts.{PlaysStory, TakesTurn, TakesTurns};
ghost use Rattle.sk_lane.specs.Story.{beat_words};
ghost use Rattle.sk_lane.specs.Turns.{moment};

use crate::{Memory, SeatLink};
use sk_base::{Clock, StepClock};
use sk_desk::Desk;
use sk_edge::PcgDice;
use sk_link::{Answer, AskFault, ask, words_of};
use sk_resp::Words;
use sk_worker::{Registry, Turn, WorkFault, Worker};
use std::alloc::Global;

/// The moment at which the clocks of a lane stand, in milliseconds since 1970: 14 November 2023.
const MOMENT: u64 = 1_700_000_000_000;

/// A clock that stands at that moment.
pub(crate) fn still() -> StepClock
    ensures { result ≡ record { now = moment; step = 0 } }
{
    StepClock {
        now: MOMENT,
        step: 0,
    }
}

fn wants_memory(fault: &WorkFault) -> bool
    ensures { result ≡ is_memory fault.now }
{
    matches!(fault, WorkFault::Memory)
}

/// A worker at its seat.
pub(crate) struct Shift<D: Desk, C: Clock> {
    pub link: SeatLink<D, C>,
    pub worker: Worker,
    pub dice: PcgDice,
    /// For each turn that was begun, the number of asks before it.
    pub marks: Vec<u64>,
}

impl<D: Desk, C: Clock> Shift<D, C> {
    // `SK.BEAT ident`
    fn beat_request(&self, alloc: Global) -> Result<Words, Memory>
        ensures { IfOk result (λ words. words ≡ beat_words self.now.worker.ident) }
    {
        let ident = self.worker.ident.text().as_bytes();
        Ok(Words::new(words_of(alloc, &[b"SK.BEAT", ident])?))
    }

    // Whether the beat was answered `+OK`.
    fn beat(&mut self, alloc: Global) -> Result<bool, Memory>
        requires stands { Stands (C.moments self.old.link.clock) }
        requires rest { self.old.link.drawing.in_turn ≡ false }
        ensures said { IfOk result (Said (beat_words self.old.worker.ident) (state_of D.Desk C.Clock self.old.link) (state_of D.Desk C.Clock self.new.link)) }
        ensures worker { self.new.worker ≡ self.old.worker }
        ensures marks { self.new.marks.items ≡ self.old.marks.items }
    {
        let words = self.beat_request(alloc)?;
        match ask(alloc, &mut self.link, &words, Answer::Okay) {
            Ok(_) => Ok(true),
            Err(AskFault::Refused(_)) => Ok(false),
            Err(AskFault::Link(_)) => Err(Memory),
        }
    }

    // Whether the join was answered `+OK`.
    fn join(&mut self, alloc: Global) -> Result<bool, Memory>
        requires stands { Stands (C.moments self.old.link.clock) }
        requires rest { self.old.link.drawing.in_turn ≡ false }
        requires whole { self.old.worker.ended ≡ false }
        ensures said { IfOk result (Said (join_words self.old.worker.ident) (state_of D.Desk C.Clock self.old.link) (state_of D.Desk C.Clock self.new.link)) }
        ensures whole { IfOk result (λ okay. okay ≡ true → self.new.worker.ended ≡ false) }
        ensures worker { KeepsWorker self.old.worker self.new.worker }
        ensures held { self.new.worker.held.items ≡ self.old.worker.held.items }
        ensures marks { self.new.marks.items ≡ self.old.marks.items }
    {
        match self.worker.join(alloc, &mut self.link) {
            Ok(()) => Ok(true),
            Err(WorkFault::Refused(_)) => Ok(false),
            Err(_) => Err(Memory),
        }
    }

    // A turn, with a clock of its own.
    fn turn(&mut self, alloc: Global, registry: &mut Registry) -> Result<Turn, WorkFault>
        requires whole { self.old.worker.ended ≡ false }
        ensures told { TakesTurn D.Desk C.Clock runs self.old registry.old self.new registry.new result }
        ensures link { is_off self.new.link.drawing ≡ (is_off self.old.link.drawing || is_lost result) }
        ensures ended { self.new.worker.ended ≡ is_err result }
        ensures worker { KeepsWorker self.old.worker self.new.worker }
        ensures registry { KeepsRules registry.old registry.new }
        ensures marks { self.new.marks.items ≡ self.old.marks.items }
    {
        let mut clock = still();
        self.worker.turn(alloc, &mut self.link, registry, &mut clock, &mut self.dice)
    }

    // Whether a turn that ended so wanted memory.
    fn broken_off(&self, fault: WorkFault) -> Result<(), Memory>
        ensures fault { OnOk result (is_memory fault ≡ false) }
        ensures fed { OnOk result (self.now.link.drawing.starved ≡ false) }
    {
        if wants_memory(&fault) || self.link.drawing.starved {
            return Err(Memory);
        }
        Ok(())
    }

    // Takes the turns that are left, up to one that doesn't end well, and answers how many are left then.
    fn take_turns(
        &mut self,
        alloc: Global,
        registry: &mut Registry,
        todo: u64,
    ) -> Result<u64, Memory>
        requires some { 0 < todo }
        requires stands { Stands (C.moments self.old.link.clock) }
        requires on { is_off self.old.link.drawing ≡ false }
        requires whole { self.old.worker.ended ≡ false }
        ensures told { IfOk result (λ left. TakesTurns runs self.old registry.old todo self.new registry.new left) }
        ensures calls { OnOk result (KeepsCalls D.Desk self.old.link self.new.link) }
        ensures less { IfOk result (λ left. left < todo) }
        ensures worker { KeepsWorker self.old.worker self.new.worker }
        ensures registry { KeepsRules registry.old registry.new }
    {
        let mut left = todo;
        while left > 0 {
            self.marks.push(self.link.asks.len() as u64)?;
            left -= 1;
            match self.turn(alloc, registry) {
                Ok(_) => {}
                Err(fault) => {
                    self.broken_off(fault)?;
                    return Ok(left);
                }
            }
        }
        Ok(0)
    }

    /// All that happens at the seat. Answers how many turns are left then.
    pub(crate) fn play(
        &mut self,
        alloc: Global,
        registry: &mut Registry,
        todo: u64,
    ) -> Result<u64, Memory>
        requires some { 0 < todo }
        requires stands { Stands (C.moments self.old.link.clock) }
        requires rest { self.old.link.drawing ≡ at_rest self.old.link.drawing.crashes }
        requires asks { self.old.link.asks.items ≡ [] }
        requires marks { self.old.marks.items ≡ [] }
        requires held { self.old.worker.held.items ≡ [] }
        requires whole { self.old.worker.ended ≡ false }
        ensures told { IfOk result (λ left. PlaysStory runs self.old registry.old todo self.new registry.new left) }
        ensures calls { OnOk result (KeepsCalls D.Desk self.old.link self.new.link) }
        ensures less { IfOk result (λ left. left < todo) }
        ensures worker { KeepsWorker self.old.worker self.new.worker }
        ensures registry { KeepsRules registry.old registry.new }
    {
        if !self.beat(alloc)? {
            return Ok(todo - 1);
        }
        if !self.join(alloc)? {
            return Ok(todo - 1);
        }
        self.link.drawing.in_turn = true;
        self.take_turns(alloc, registry, todo)
    }
}
