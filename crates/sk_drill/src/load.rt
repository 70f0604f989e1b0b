// A load: what it still holds, and the events of its turns.
ghost use Rattle.std.specs.Prelude.{◌≡◌, ◌+◌, ◌^◌, ◌<◌, ◌++◌, ◌∷◌, [], IfOk, OnOk, map, Some};
ghost use Rattle.sk_base.specs.declared.limits.TheConstants.{LAST_GENERATION};
ghost use Rattle.sk_payload.specs.Head.{head as head_of};
ghost use Rattle.sk_drill.specs.Load.{Gives, after_failure, asks, batches_part, crash_part, drawn, fail_part, failed_text, fate_of, fetch_part, first_load, held_part, later, one, opening_part, poll_part, push_part, put_away, stage_part, word, work_part};

use crate::Memory;
use crate::actor::{process_of, queue_of};
use crate::events::{Event, Events};
use crate::requests::{cron, fetch, push, push_batch, push_first, release, request, retry};
use rand_core::SeedableRng;
use rand_core::utils::NextWord;
use rand_pcg::Lcg64Xsh32;
use sk_base::limits::LAST_GENERATION;
use sk_payload::{Head, Payload};
use sk_policy::{Decision, decide, plain_delay};
use sk_resp::Words;
use sk_seats::{Phase, Stage, Work};
use std::alloc::Global;
use std::marker::Model;

/// The moment at which a load begins, in milliseconds since 1970: 14 November 2023.
pub(crate) const START: u64 = 1_700_000_000_000;

/// The seat from which clients and the poller speak.
const CLIENT: u32 = 0;

/// The most jobs that are pushed in one command at the beginning.
const FIRST_PUSH: u64 = 1_000;

/// What a load still holds. Contracts see it without its allocator.
#[derive(Drop)]
pub(crate) struct Load {
    alloc: Global,
    draws: Lcg64Xsh32,
    jobs: u64,
    pushed: u64,
    moment: u64,
    crons: u64,
}

impl Model for Load {
    ghost use Rattle.sk_drill.specs.Load.{LoadState};

    ghost Value = { LoadState };

    ghost view = { λ l. record { draws = l.draws; jobs = l.jobs; pushed = l.pushed; moment = l.moment; crons = l.crons } };
}

impl Load {
    /// A load of so many jobs, made from a number. Takes no memory.
    #[tactic(auto, unfolding(crate::specs::Load::first_load))]
    pub(crate) fn new(alloc: Global, seed: u64, jobs: u64) -> Load
        ensures { result ≡ first_load seed jobs }
    {
        Load {
            alloc,
            draws: Lcg64Xsh32::seed_from_u64(seed),
            jobs,
            pushed: 0,
            moment: START,
            crons: 0,
        }
    }

    /// Draws the next word, modulo a number.
    #[tactic(auto, unfolding(crate::specs::Load::word, crate::specs::Load::behind_word))]
    pub(crate) fn draw(&mut self, sides: u32) -> u32
        requires { 0 < sides }
        ensures word { result ≡ word sides self.old }
        ensures below { result < sides }
        ensures drawn { self.new ≡ drawn self.old }
    {
        self.draws.next_word() % sides
    }

    // Adds a seat's command, at the load's moment.
    fn add(&self, seat: u32, words: Words, events: &mut Events) -> Result<(), Memory>
        ensures { OnOk result (events.new ≡ events.old ++ asks self.now seat words ∷ []) }
    {
        events.push(Event::Ask(seat, self.moment, words))
    }

    // One command of a seat.
    fn one(&self, seat: u32, words: Words) -> Result<Events, Memory>
        ensures { IfOk result (λ events. events ≡ asks self.now seat words ∷ []) }
    {
        let mut events = Events::new(self.alloc);
        self.add(seat, words, &mut events)?;
        Ok(events)
    }

    // Adds a client's command of these words.
    fn say(&self, parts: &[&[u8]], events: &mut Events) -> Result<(), Memory>
        ensures { OnOk result (events.new ≡ events.old ++ asks self.now 0 (map (λ part. part.now) parts.now) ∷ []) }
    {
        let words = request(self.alloc, parts)?;
        self.add(CLIENT, words, events)
    }

    /// The next job is pushed, where one is left.
    #[tactic(auto, unfolding(crate::specs::Load::push_part))]
    pub(crate) fn push(&mut self) -> Result<Events, Memory>
        ensures { IfOk result (λ events. Gives (push_part self.old) events self.new) }
    {
        if self.pushed >= self.jobs {
            return Ok(Events::new(self.alloc));
        }
        let queue = queue_of(self.draw(8));
        self.pushed += 1;
        let words = push(self.alloc, self.pushed, queue.as_bytes())?;
        self.one(CLIENT, words)
    }

    /// The poller does its round.
    #[tactic(auto, unfolding(crate::specs::Load::poll_part))]
    pub(crate) fn poll(&mut self) -> Result<Events, Memory>
        requires { self.old.crons < 2 ^ 62 }
        ensures { IfOk result (λ events. Gives (poll_part self.old) events self.new) }
    {
        self.crons += 1;
        let mut events = Events::new(self.alloc);
        self.say(&[b"SK.BEAT", b"w:1:a"], &mut events)?;
        self.say(&[b"SK.BEAT", b"w:2:b"], &mut events)?;
        self.say(&[b"SK.DUE", b"schedule", b"100"], &mut events)?;
        self.say(&[b"SK.DUE", b"retry", b"100"], &mut events)?;
        self.say(&[b"SK.RESCUE"], &mut events)?;
        self.say(&[b"SK.LEAD", b"w:1:a"], &mut events)?;
        let words = cron(self.alloc, self.moment, 8_000_000 + self.crons)?;
        self.add(CLIENT, words, &mut events)?;
        Ok(events)
    }

    /// A worker's seat is cut off.
    #[tactic(auto, unfolding(crate::specs::Load::crash_part))]
    pub(crate) fn crash(&mut self) -> Result<Events, Memory>
        ensures { IfOk result (λ events. Gives (crash_part self.old) events self.new) }
    {
        let seat = 1 + self.draw(4);
        let mut events = Events::new(self.alloc);
        events.push(Event::Cut(seat))?;
        Ok(events)
    }

    // What is sent of a failed job, by the decision.
    fn put_away(&self, payload: &Payload, next: &Payload, fate: Decision) -> Result<Words, Memory>
        ensures { IfOk result (λ words. words ≡ put_away payload.now next.now fate) }
    {
        match fate {
            Decision::Discard => request(self.alloc, &[b"SK.DROP", payload.text().bytes()]),
            Decision::Bury => request(self.alloc, &[b"SK.BURY", next.text().bytes()]),
            Decision::Retry(score) => retry(self.alloc, score, next.text().bytes()),
        }
    }

    // What becomes of a job that failed.
    fn fated(&self, payload: &Payload, head: &Head, jitter: u32) -> Result<Words, Memory>
        requires head { head_of payload.now ≡ Some head.now }
        requires early { head.now.gen_ < LAST_GENERATION }
        requires jitter { jitter < 10 }
        ensures { IfOk result (λ words. words ≡ put_away payload.now (failed_text payload.now self.now.moment) (fate_of head.now self.now.moment jitter)) }
    {
        let Ok(next) = payload.failed(self.alloc, self.moment, "Failure", "asked to fail") else {
            return Err(Memory);
        };
        let fate = decide(head, self.moment, u64::from(jitter), plain_delay(head.gen_));
        self.put_away(payload, &next, fate)
    }

    // What is sent of a job that failed.
    #[tactic(auto, unfolding(crate::specs::Load::after_failure))]
    fn after_failure(&self, payload: &Payload, jitter: u32) -> Result<Words, Memory>
        requires { jitter < 10 }
        ensures { IfOk result (λ words. words ≡ after_failure payload.now self.now.moment jitter) }
    {
        let Some(head) = payload.head() else {
            return request(self.alloc, &[b"SK.BURY", payload.text().bytes()]);
        };
        if head.gen_ < LAST_GENERATION {
            return self.fated(payload, head, jitter);
        }
        request(self.alloc, &[b"SK.BURY", payload.text().bytes()])
    }

    // The job in a seat's hands fails.
    #[tactic(auto, unfolding(crate::specs::Load::fail_part))]
    fn fail(&mut self, seat: u32, payload: &Payload) -> Result<Events, Memory>
        ensures { IfOk result (λ events. Gives (fail_part self.old seat payload.now) events self.new) }
    {
        let words = request(self.alloc, &[b"SK.FAIL", payload.text().bytes()])?;
        let mut events = self.one(seat, words)?;
        let jitter = self.draw(10);
        let words = self.after_failure(payload, jitter)?;
        self.add(seat, words, &mut events)?;
        Ok(events)
    }

    // A command that names the job in a seat's hands.
    fn script(&self, seat: u32, name: &[u8], payload: &Payload) -> Result<Events, Memory>
        ensures { IfOk result (λ events. events ≡ asks self.now seat (name.now ∷ payload.now ∷ []) ∷ []) }
    {
        let words = request(self.alloc, &[name, payload.text().bytes()])?;
        self.one(seat, words)
    }

    // The job in a seat's hands was run.
    #[tactic(auto, unfolding(crate::specs::Load::held_part))]
    fn run(&mut self, seat: u32, payload: &Payload) -> Result<Events, Memory>
        ensures { IfOk result (λ events. Gives (held_part self.old seat payload.now) events self.new) }
    {
        match self.draw(8) {
            0 => self.script(seat, b"SK.BACK", payload),
            1 => self.fail(seat, payload),
            _ => self.script(seat, b"SK.OK", payload),
        }
    }

    // The seat releases a job that it is done with.
    fn release(&self, seat: u32, payload: &Payload) -> Result<Events, Memory>
        ensures { IfOk result (λ events. Gives (stage_part self.now seat payload.now Stage.Put) events self.now) }
    {
        let ident = process_of(seat).as_bytes();
        let words = release(self.alloc, ident, payload.text().bytes())?;
        self.one(seat, words)
    }

    fn settle(&mut self, seat: u32, work: &Work) -> Result<Events, Memory>
        ensures { IfOk result (λ events. Gives (stage_part self.old seat work.now.payload work.now.stage) events self.new) }
    {
        let payload = Payload::of(self.alloc, work.payload.text().copy()?)?;
        match work.stage {
            Stage::Held => self.run(seat, &payload),
            Stage::Put | Stage::Settled(_) => self.release(seat, &payload),
        }
    }

    // The seat fetches a job from a queue that is drawn.
    #[tactic(auto, unfolding(crate::specs::Load::fetch_part))]
    fn fetch(&mut self, seat: u32) -> Result<Events, Memory>
        ensures { IfOk result (λ events. Gives (fetch_part self.old seat) events self.new) }
    {
        let queue = queue_of(self.draw(8));
        let ident = process_of(seat).as_bytes();
        let words = fetch(self.alloc, ident, queue.as_bytes())?;
        self.one(seat, words)
    }

    // The seat becomes a worker's.
    fn join(&self, seat: u32) -> Result<Events, Memory>
        ensures { IfOk result (λ events. Gives (work_part self.now seat Phase.Plain) events self.now) }
    {
        let words = request(self.alloc, &[b"SK.JOIN", process_of(seat).as_bytes()])?;
        self.one(seat, words)
    }

    /// The worker at this seat does its next step, by what the seat is doing.
    pub(crate) fn work(&mut self, seat: u32, phase: &Phase) -> Result<Events, Memory>
        ensures { IfOk result (λ events. Gives (work_part self.old seat phase.now) events self.new) }
    {
        match phase {
            Phase::Plain => self.join(seat),
            Phase::Joined(_, works) => match works.list() {
                [] => self.fetch(seat),
                [work, ..] => self.settle(seat, work),
            },
        }
    }

    /// Time goes on by less than 200 milliseconds.
    pub(crate) fn wait(&mut self)
        requires { self.old.moment < 2 ^ 62 }
        ensures { self.new ≡ later self.old }
    {
        let millis = self.draw(200);
        self.moment += u64::from(millis);
    }

    // Two batches with the next two jobs, where so many are left.
    fn batches(&mut self) -> Result<Events, Memory>
        requires { self.old.pushed < 2 ^ 62 }
        ensures { IfOk result (λ events. Gives (batches_part self.old) events self.new) }
    {
        let mut events = Events::new(self.alloc);
        if self.pushed + 1 >= self.jobs {
            return Ok(events);
        }
        let outer = push_batch(self.alloc, b"p", b"", 9_000_001, self.pushed + 1)?;
        self.add(CLIENT, outer, &mut events)?;
        let inner = push_batch(self.alloc, b"c", b"p", 9_000_002, self.pushed + 2)?;
        self.add(CLIENT, inner, &mut events)?;
        self.pushed += 2;
        Ok(events)
    }

    /// The events with which a load begins.
    #[tactic(auto, unfolding(crate::specs::Load::opening_part))]
    pub(crate) fn opening(&mut self) -> Result<Events, Memory>
        ensures { IfOk result (λ events. Gives (opening_part self.old) events self.new) }
    {
        let mut events = Events::new(self.alloc);
        self.say(&[b"SK.BEAT", b"w:1:a"], &mut events)?;
        self.say(&[b"SK.BEAT", b"w:2:b"], &mut events)?;
        self.say(&[b"SK.LEAD", b"w:1:a"], &mut events)?;
        self.pushed = self.jobs.min(FIRST_PUSH);
        let words = push_first(self.alloc, self.pushed)?;
        self.add(CLIENT, words, &mut events)?;
        let batches = self.batches()?;
        events.extend(batches)?;
        Ok(events)
    }
}
