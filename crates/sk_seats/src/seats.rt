// What the seats are doing. A worker's seat is kept with its phase, by its number; every other seat is Plain. The jobs in a seat's hands change
// without memory. A filter counts the jobs in all hands, so that the seats are looked at only for a job that they may have.
ghost use Rattle.std.specs.Prelude.{◌≡◌, ◌<◌, [], IfOk, OnErr, OnOk, false, length, option_copied, replicate};
ghost use Rattle.std.specs.BTreeMap.Range.{entries_between};
ghost use Rattle.std.specs.Map.{values_of};
ghost use Rattle.std.specs.Ordering.{nat_cmp};
ghost use Rattle.sk_payload.specs.Head.{names};
ghost use Rattle.sk_seats.specs.Phases.{has, holding, is_plain, or_plain, phase_in, releasing_at, staging_at, turned, works_of};
ghost use Rattle.sk_seats.specs.Held.{held_by};
ghost use Rattle.sk_seats.specs.JobFilter.{with_phases, without_jobs};
ghost use Rattle.sk_seats.specs.Next.{IsNext, first_joined};
ghost use Rattle.sk_seats.specs.Order.{InOrder};
ghost use Rattle.sk_seats.specs.Works.{most_works};

use crate::job_filter::JobFilter;
use crate::phase::Phase;
use crate::work::Stage;
use crate::works::Works;
use sk_base::limits::MOST_PREFETCH;
use sk_payload::JobText;
use sk_resp::{Memory, Text};
use std::alloc::Global;
use std::collections::BTreeMap;
use std::marker::Model;
use std::ops::Bound;

// How many counts there are at least for each seat: 64 for each job that it may have. With all hands full a place of a job is then another's once in
// 21 times, and all three are about once in ten thousand.
const COUNTS: usize = 64 * MOST_PREFETCH;

/// The phases of the seats. Contracts see the seats that aren't Plain, each with its phase, in the order of their numbers.
#[derive(Drop)]
pub struct Seats {
    alloc: Global,
    phases: BTreeMap<u32, Phase>,
    plain: Phase,
    in_hands: JobFilter,
}

impl Model for Seats {
    ghost use Rattle.sk_seats.specs.Phases.{Phases};

    ghost Value = { Phases };

    ghost use Rattle.sk_seats.specs.Seats.{SeatInvariant};

    ghost view = { λ seats. seats.phases.entries };

    ghost invariant = { SeatInvariant };
}

impl Seats {
    /// All seats are Plain. Takes no memory.
    pub fn new(alloc: Global) -> Seats
        ensures { result ≡ [] }
    {
        Seats {
            alloc,
            phases: BTreeMap::new(alloc),
            plain: Phase::Plain,
            in_hands: JobFilter::none(alloc),
        }
    }

    /// What a seat is doing. Logarithmic.
    pub fn get(&self, seat: u32) -> &Phase
        ensures is { result.now ≡ phase_in self.now seat }
        ensures order { InOrder self.now }
    {
        match self.phases.get(&seat) {
            Some(phase) => phase,
            None => &self.plain,
        }
    }

    /// Whether some seat has a payload of this payload's job. Constant where none has, for all but about one in ten thousand jobs: else the workers'
    /// seats are looked at, one after another.
    #[tactic(auto, using(crate::proofs::Seating::among_values))]
    pub fn have(&self, payload: &JobText) -> bool
        ensures { result ≡ held_by self.now payload.now }
    {
        let Some(jid) = payload.jid() else {
            return false;
        };
        if !self.in_hands.may_have(jid) {
            return false;
        }
        for phase in self.phases.values() {
            if has(phase, jid) {
                return true;
            }
        }
        false
    }

    /// The least seat above this one that isn't Plain, or the least of all where none is given. None exactly where there is none. Logarithmic, and
    /// takes no memory.
    #[tactic(auto, using(crate::proofs::Upwards::next_above, crate::proofs::Upwards::next_of_all))]
    pub fn next(&self, after: Option<u32>) -> Option<u32>
        ensures { IsNext self.now after result }
    {
        match after {
            Some(seat) => first_from(&self.phases, Bound::Excluded(seat)),
            None => first_from(&self.phases, Bound::Unbounded),
        }
    }

    // There are counts enough for one more seat. Where they are too few, the works of all seats are counted anew, with room for twice as many seats.
    fn make_room(&mut self) -> Result<(), Memory>
        ensures { self.new ≡ self.old }
    {
        let size = self.phases.len().saturating_add(1).saturating_mul(COUNTS);
        if self.in_hands.len() < size {
            self.in_hands = counted(self.alloc, &self.phases, size.saturating_mul(2))?;
        }
        Ok(())
    }

    /// The seat is one of this process, without a job. Takes the memory to count its jobs.
    pub fn join(&mut self, seat: u32, ident: Text) -> Result<(), Memory>
        ensures ok { OnOk result (self.new ≡ turned seat (Phase.Joined ident []) self.old) }
        ensures err { OnErr result (self.new ≡ self.old) }
    {
        self.make_room()?;
        let works = Works::new(self.alloc)?;
        let before = self.phases.insert(seat, Phase::Joined(ident, works))?;
        count_out(&mut self.in_hands, before.as_ref());
        let_go(before);
        Ok(())
    }

    /// A worker's seat has fetched a job. Takes no memory.
    pub fn hold(&mut self, seat: u32, payload: JobText)
        requires joined { is_plain (phase_in self.old seat) ≡ false }
        requires room { length (works_of (phase_in self.old seat)) < most_works }
        ensures { self.new ≡ turned seat (holding payload (phase_in self.old seat)) self.old }
    {
        self.in_hands.add(&payload);
        match self.phases.get_mut(&seat) {
            Some(phase) => phase.hold(payload),
            None => unreachable!(),
        }
    }

    /// The work at an index of those in a seat's hands is at this stage from now on. Takes no memory.
    pub fn stage(&mut self, seat: u32, at: usize, stage: Stage)
        requires { at < length (works_of (phase_in self.old seat)) }
        ensures { self.new ≡ turned seat (staging_at at stage (phase_in self.old seat)) self.old }
    {
        match self.phases.get_mut(&seat) {
            Some(phase) => phase.stage(at, stage),
            None => unreachable!(),
        }
    }

    /// A seat lets go of the work at an index of those in its hands. Takes no memory.
    pub fn release(&mut self, seat: u32, at: usize)
        requires { at < length (works_of (phase_in self.old seat)) }
        ensures { self.new ≡ turned seat (releasing_at at (phase_in self.old seat)) self.old }
    {
        match self.phases.get_mut(&seat) {
            Some(phase) => {
                phase.count_out_at(at, &mut self.in_hands);
                phase.release(at);
            }
            None => unreachable!(),
        }
    }

    /// The seat is Plain from now on, and lets go of all works in its hands. Takes no memory.
    #[tactic(auto, using(crate::proofs::Seating::dropped))]
    pub fn cut(&mut self, seat: u32)
        ensures { self.new ≡ turned seat Phase.Plain self.old }
    {
        count_out(&mut self.in_hands, self.phases.get(&seat));
        let_go(self.phases.remove(&seat));
    }
}

// The first seat from a bound on that isn't Plain.
fn first_from(phases: &BTreeMap<u32, Phase>, start: Bound<u32>) -> Option<u32>
    ensures { result ≡ first_joined (entries_between nat_cmp start Bound.Unbounded phases.now.entries) }
{
    for (seat, phase) in phases.range((start, Bound::Unbounded)) {
        if let Phase::Joined(..) = phase {
            return Some(*seat);
        }
    }
    None
}

// No longer counts the jobs in the hands of a seat with this phase.
fn count_out(filter: &mut JobFilter, phase: Option<&Phase>)
    ensures { filter.new ≡ without_jobs (works_of (or_plain (option_copied phase.entry))) filter.old }
{
    if let Some(phase) = phase {
        phase.count_out(filter);
    }
}

// A filter of so many counts, in which the jobs in the hands of all seats are counted.
fn counted(alloc: Global, phases: &BTreeMap<u32, Phase>, size: usize) -> Result<JobFilter, Memory>
    ensures { IfOk result (λ filter. filter ≡ with_phases (values_of phases.now.entries) (replicate size 0)) }
{
    let mut filter = JobFilter::new(alloc, size)?;
    for phase in phases.values() {
        phase.count_in(&mut filter);
    }
    Ok(filter)
}

// Lets go of a phase.
fn let_go(_phase: Option<Phase>) {}

// The payload's head names the job.
fn names(payload: &JobText, jid: &[u8]) -> bool
    ensures { result ≡ names payload.now jid.now }
{
    match payload.jid() {
        Some(named) => named == jid,
        None => false,
    }
}

// The seat has a payload of the job.
fn has(phase: &Phase, jid: &[u8]) -> bool
    ensures { result ≡ has jid.now phase.now }
{
    match phase {
        Phase::Plain => false,
        Phase::Joined(_, works) => works.list().iter().any(|work| names(&work.payload, jid)),
    }
}
