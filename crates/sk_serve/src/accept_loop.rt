// One accept loop: it serves one connection after another, each on a seat of its own, and leaves each to its ear.
ghost use Rattle.std.specs.Prelude.{◌≡◌, ◌≢◌, ◌⊎◌, ◌≤◌, ◌*◌, ◌↔◌, IfOk, IfErr, IfSome, IsSome, IsTrue, Some, Err, true, false};
ghost use Rattle.sk_base.specs.Outside.{Rose};
ghost use Rattle.sk_edge.specs.Doors.{IsNudged};
ghost use Rattle.sk_serve.specs.Server.{Runs, ServedBy, end_of, stands};
ghost use Rattle.sk_serve.specs.Attending.{Attends};
ghost use Rattle.sk_desk.specs.declared.hub.HubFault.TheVariants as hub_fault;

use crate::SessionEnd;
use crate::attend::{Ending, attend};
use crate::gate::{Gate, GatedDesk};
use crate::reserve::Reserve;
use crate::shared::Shared;
use sk_base::{Clock, Conn, Failed};
use sk_desk::{Book, HubFault, HubId, Pass, SeriesDesk};
use sk_edge::Ear;
use sk_held::Settlers;
use std::marker::Model;
use std::sync::Wait;

/// How an accept loop ended.
#[derive(Clone, Copy, PartialEq, Eq)]
pub enum LoopEnd {
    /// It served as many connections as it was to, or another loop had ended.
    Done,
    /// A session of it ended by SHUTDOWN.
    Shutdown,
    /// Its ear failed.
    Failed,
    /// Its pass had no number left for a connection that it accepted.
    Spent,
    /// There was no memory for a seat.
    Memory,
    /// What was done before the replies of a session of it couldn't be stored.
    Unsettled,
}

/// An ear, a clock, and a pass with two parts for each of its numbers. Contracts see these, how many numbers there were at first, how many connections
/// were served, whether a session ended by SHUTDOWN, and how the loop ended.
#[derive(Drop)]
pub struct AcceptLoop<E: Ear, K: Clock, I: HubId> {
    ear: E,
    clock: K,
    pass: Pass<I>,
    numbers: u32,
    served: u32,
    shut: bool,
    end: LoopEnd,
}

impl<E: Ear, K: Clock, I: HubId> Model for AcceptLoop<E, K, I> {
    ghost use Rattle.sk_serve.specs.Server.{LoopView, IsLoop};

    ghost Value = { LoopView E K };

    ghost view = { λ l. record { ear = l.ear; clock = l.clock; pass = l.pass; numbers = l.numbers; served = l.served; shut = l.shut; end = l.end } };

    ghost invariant = { λ l. IsLoop l.pass l.numbers l.served l.end };
}

// Serves one connection on a new seat.
fn serve_one<R: Wait + Sync, C: Conn, K: Clock, I: HubId, B: Book, W: Settlers, G: Gate>(
    shared: &Shared<'_, R, I, B, W, G>,
    pass: &mut Pass<I>,
    conn: C,
    clock: &mut K,
    reserve: &mut Reserve,
) -> (C, Result<Ending, HubFault>)
    ensures parts { pass.new.parts ≡ pass.old.parts }
    ensures served { ServedBy W.holds_back B.wants_words C.Source C.Sink K.Clock W.Settler.Settler
        pass.old clock.old conn pass.new clock.new result }
    ensures fault { IfErr result.1 (λ fault. (pass.new ≡ pass.old) × (clock.new ≡ clock.old) × (result.0 ≡ conn)) }
    ensures spent { result.1 ≡ Err hub_fault.Spent → pass.old.count ≡ 0 }
{
    let desk = match shared.hub.seat(shared.rt, pass) {
        Ok(desk) => desk,
        Err(fault) => return (conn, Err(fault)),
    };
    let seat = desk.number();
    let desk = SeriesDesk::new(desk);
    let mut gated = GatedDesk::new(desk, shared.gate, reserve.take(), seat);
    let (conn, ending) = attend(shared.alloc, shared.settlers, &mut gated, conn, clock);
    let (desk, kept) = gated.into_parts();
    *reserve = kept;
    desk.end(pass);
    (conn, Ok(ending))
}

// Wakes each other loop. It goes on with the others where that failed.
#[tactic(auto, using(crate::proofs::Loops::rose_from, crate::proofs::Loops::rose_on))]
fn wake<E: Ear>(ear: &mut E, others: usize) -> Result<(), Failed>
    ensures later { E.ear_faults ear.old ≤ E.ear_faults ear.new }
    ensures failed { IfErr result (λ e. Rose (E.ear_faults ear.old) (E.ear_faults ear.new)) }
    ensures count { IsNudged (E.nudged ear.old) others (E.nudged ear.new) }
    ensures beside { (E.heard ear.new ≡ E.heard ear.old) × (E.kept ear.new ≡ E.kept ear.old) }
{
    let mut woken = Ok(());
    for _other in 0..others {
        if ear.nudge().is_err() {
            woken = Err(Failed);
        }
    }
    woken
}

// How a loop ends where there was no seat.
fn end_at(fault: HubFault) -> LoopEnd
    ensures is { result ≡ end_of fault }
    ensures failed { result ≢ LoopEnd.Failed }
    ensures cause { result ≢ LoopEnd.Done }
    ensures settled { result ≢ LoopEnd.Unsettled }
{
    match fault {
        HubFault::Spent => LoopEnd::Spent,
        HubFault::Memory => LoopEnd::Memory,
    }
}

// Why a loop ends behind such a session. None where it goes on.
fn cause_of(how: Ending) -> Option<LoopEnd>
    ensures cause { IfSome result (λ end. (end ≢ LoopEnd.Done) × (end ≢ LoopEnd.Failed) × (end ≢ LoopEnd.Spent)) }
    ensures shut { IfSome result (λ end. end ≡ LoopEnd.Shutdown → how.end ≡ SessionEnd.Shutdown) }
    ensures unsettled { IfSome result (λ end. end ≡ LoopEnd.Unsettled → how.unsettled ≡ true) }
    ensures ends { how.unsettled ≡ true → result ≡ Some LoopEnd.Unsettled }
    ensures ends_shut { how.end ≡ SessionEnd.Shutdown → IsSome result }
{
    if how.unsettled {
        return Some(LoopEnd::Unsettled);
    }
    match how.end {
        SessionEnd::Shutdown => Some(LoopEnd::Shutdown),
        _ => None,
    }
}

// Whether a session ended by SHUTDOWN: one before, or that by which the loop ends.
fn has_shut(was: bool, end: LoopEnd) -> bool
    ensures { result ≡ true → (was ≡ true) ⊎ (end ≡ LoopEnd.Shutdown) }
{
    was || end == LoopEnd::Shutdown
}

impl<E: Ear, K: Clock, I: HubId> AcceptLoop<E, K, I> {
    pub fn new(ear: E, clock: K, pass: Pass<I>, numbers: u32) -> AcceptLoop<E, K, I>
        requires { (pass.parts ≡ 2 * numbers) × (pass.count ≡ numbers) × (pass.amount ≡ 0) }
        ensures { result ≡ record { ear = ear; clock = clock; pass = pass; numbers = numbers; served = 0; shut = false; end = LoopEnd.Done } }
    {
        AcceptLoop {
            ear,
            clock,
            pass,
            numbers,
            served: 0,
            shut: false,
            end: LoopEnd::Done,
        }
    }

    // The loop ends by this cause, and wakes the others, which are to end.
    fn stop<R: Wait + Sync, B: Book, W: Settlers, G: Gate>(
        &mut self,
        shared: &Shared<'_, R, I, B, W, G>,
        end: LoopEnd,
    )
        requires cause { end ≢ LoopEnd.Done }
        requires spent { end ≡ LoopEnd.Spent → self.old.pass.count ≡ 0 }
        ensures same { (self.new.numbers ≡ self.old.numbers) × (self.new.shut ≡ self.old.shut) }
        ensures counts { (self.new.served ≡ self.old.served) × (self.new.pass ≡ self.old.pass) }
        ensures stands { stands E.Ear self.new ≡ stands E.Ear self.old }
        ensures later { E.ear_faults self.old.ear ≤ E.ear_faults self.new.ear }
        ensures failed { self.new.end ≡ LoopEnd.Failed → end ≢ LoopEnd.Failed → Rose (E.ear_faults self.old.ear) (E.ear_faults self.new.ear) }
        ensures ended { (self.new.end ≡ end) ⊎ (self.new.end ≡ LoopEnd.Failed) }
        ensures woke { IsNudged (E.nudged self.old.ear) shared.now.others (E.nudged self.new.ear) }
    {
        self.end = end;
        shared.stop();
        if wake(&mut self.ear, shared.others).is_err() {
            self.end = LoopEnd::Failed;
        }
    }

    // Waits for the next connection and serves it. False where the loop has ended.
    fn step<R: Wait + Sync, B: Book, W: Settlers, G: Gate>(
        &mut self,
        shared: &Shared<'_, R, I, B, W, G>,
        reserve: &mut Reserve,
    ) -> bool
        requires { self.old.end ≡ LoopEnd.Done }
        ensures { Runs E.Ear (Attends W.holds_back B.wants_words E.Conn.Source E.Conn.Sink K.Clock W.Settler.Settler)
            shared.now.others self.old self.new }
    {
        let Ok(conn) = self.ear.accept() else {
            self.stop(shared, LoopEnd::Failed);
            return false;
        };
        if shared.is_stopped() {
            self.ear.leave(conn);
            return false;
        }
        let (conn, served) = serve_one(shared, &mut self.pass, conn, &mut self.clock, reserve);
        self.ear.leave(conn);
        match served {
            Ok(how) => {
                self.served += 1;
                let Some(end) = cause_of(how) else {
                    return true;
                };
                self.shut = has_shut(self.shut, end);
                self.stop(shared, end);
                false
            }
            Err(fault) => {
                self.stop(shared, end_at(fault));
                false
            }
        }
    }

    // It ended by a cause of its own, or has served as many connections as it was to.
    fn is_over(&self, sessions: u64) -> bool
        ensures { result ≡ false → self.now.end ≡ LoopEnd.Done }
    {
        !self.is_at(LoopEnd::Done) || sessions != 0 && self.has_served(sessions)
    }

    /// Serves connections until the loop ends. One that ended by a cause of its own serves no more.
    pub fn run<R: Wait + Sync, B: Book, W: Settlers, G: Gate>(
        &mut self,
        shared: &Shared<'_, R, I, B, W, G>,
    )
        ensures { Runs E.Ear (Attends W.holds_back B.wants_words E.Conn.Source E.Conn.Sink K.Clock W.Settler.Settler)
            shared.now.others self.old self.new }
    {
        let mut reserve = Reserve::new(shared.alloc);
        for _ in shared.rt.forever() {
            if self.is_over(shared.sessions) || !self.step(shared, &mut reserve) {
                return;
            }
        }
    }

    pub fn is_at(&self, end: LoopEnd) -> bool
        ensures { IsTrue result ↔ self.now.end ≡ end }
    {
        self.end == end
    }

    // Its pass was used up.
    #[tactic(auto, using(crate::proofs::Loops::all_used))]
    pub fn is_spent(&self) -> bool
        ensures end { IsTrue result ↔ self.now.end ≡ LoopEnd.Spent }
        ensures all { IsTrue result → self.now.served ≡ self.now.numbers }
    {
        self.end == LoopEnd::Spent
    }

    pub fn has_served(&self, sessions: u64) -> bool
        ensures { IsTrue result ↔ self.now.served ≡ sessions }
    {
        u64::from(self.served) == sessions
    }

    // A session of it ended by SHUTDOWN.
    pub fn is_shut(&self) -> bool
        ensures { result ≡ self.now.shut }
    {
        self.shut
    }

    /// The ear, the pass, and how many connections were served.
    pub fn into_parts(self) -> (E, Pass<I>, u32)
        ensures parts { result.1.parts ≡ 2 * self.numbers }
        ensures same { (result.0 ≡ self.ear) × (result.1 ≡ self.pass) × (result.2 ≡ self.served) }
    {
        let AcceptLoop {
            ear,
            clock: _,
            pass,
            numbers: _,
            served,
            shut: _,
            end: _,
        } = self;
        (ear, pass, served)
    }
}
