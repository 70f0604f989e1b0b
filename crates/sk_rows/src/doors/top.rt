// The top call.
ghost use Rattle.std.specs.Prelude.{◌≡◌, ◌≤◌, vec_len, IfSome};
ghost use Rattle.sk_middle.specs.Identity.{KeepsIdentity};
ghost use Rattle.sk_base.specs.declared.limits.TheConstants.{MOST_WORKERS};

use sk_app::{cap, run};
use sk_base::{Feed, ListDice, StepClock, Tray};
use sk_disk::{MemDisk, MemShelf, Shelf};
use sk_edge::MemDoor;
use sk_middle::ClientChain;
use sk_payload::JobDraft;
use sk_policy::DelayRule;
use sk_resp::Text;
use sk_row_calls::text::{invalid, words};
use sk_row_calls::{Given, Output, Peers, add_ending};
use sk_worker::Registry;
use std::alloc::{AllocError, Global};
use std::io;
use std::sync::Wait;
use std::thread::Threads;
use std::time::Clock;

// Stops the jobs of the queue `held`.
fn hold(draft: JobDraft) -> Option<JobDraft>
    ensures { IfSome result (KeepsIdentity draft) }
{
    if draft.queue.text() == "held" {
        return None;
    }
    Some(draft)
}

// A shelf with the file, or with an empty one.
fn shelf_of(alloc: Global, file: Option<MemDisk>) -> Result<MemShelf, AllocError> {
    match file {
        Some(file) => Ok(MemShelf::new(file)),
        None => Ok(MemShelf::new(MemDisk::new(alloc, Vec::new(alloc), u64::MAX)?)),
    }
}

/// What the top call talks to and goes by.
#[derive(Drop)]
struct Scene {
    words: Vec<String>,
    source: Feed,
    sink: Tray,
    door: MemDoor,
    shelf: MemShelf,
    clock: StepClock,
    dice: ListDice,
    tells_file: bool,
}

impl Scene {
    fn of(alloc: Global, given: &Given<'_>, peers: Peers) -> io::Result<Scene> {
        let tells_file = peers.file.is_some();
        let shelf = shelf_of(alloc, peers.file)?;
        let words = words(alloc, given.words)?;
        let (clock, dice) = (given.clock()?, given.dice(alloc)?);
        Ok(Scene {
            words,
            source: peers.source,
            sink: peers.sink,
            door: MemDoor::new(alloc, peers.heard, peers.dialled),
            shelf,
            clock,
            dice,
            tells_file,
        })
    }

    // The status of the top call. What it promises stands in no proof above this one.
    fn status<R: Threads + Wait + Sync + Clock>(
        &mut self,
        rt: &R,
        alloc: Global,
        teams: &mut Vec<Registry>,
        rules: Vec<DelayRule>,
        chain: &ClientChain,
    ) -> u8
        requires rules { vec_len rules ≡ vec_len teams.old }
        requires few { vec_len teams.old ≤ MOST_WORKERS }
    {
        run(
            rt,
            alloc,
            &self.words,
            teams,
            rules,
            chain,
            &mut self.source,
            &mut self.sink,
            &mut self.door,
            &mut self.shelf,
            &mut self.clock,
            &mut self.dice,
        )
    }

    // Appends the bytes of the file.
    fn add_file(&mut self, out: &mut Output) {
        out.say("@file\n");
        match self.shelf.open("") {
            Ok(file) => out.lines(file.bytes()),
            Err(_) => out.say("given away\n"),
        }
    }

    // What came of it. Where the row gives a file, the bytes that it has then stand behind all.
    fn told(mut self, alloc: Global, status: u8) -> Output {
        let mut out = Output::new(alloc);
        add_ending(&mut out, status, &self.sink, &self.door);
        if self.tells_file {
            self.add_file(&mut out);
        }
        out
    }
}

// The name of a function of the chain.
fn name(alloc: Global, text: &str) -> Result<Text, AllocError> {
    Ok(Text::new(String::from_str(alloc, text)?))
}

// What comes of the top call with a chain of `cap` and `hold`.
fn run_chained<R: Threads + Wait + Sync + Clock>(
    rt: &R,
    alloc: Global,
    mut scene: Scene,
    teams: &mut Vec<Registry>,
    rules: Vec<DelayRule>,
) -> io::Result<Output>
    requires rules { vec_len rules ≡ vec_len teams.old }
    requires few { vec_len teams.old ≤ MOST_WORKERS }
{
    let (cap_name, hold_name) = (name(alloc, "cap")?, name(alloc, "hold")?);
    let first: Box<dyn Fn(JobDraft) -> Option<JobDraft> + Send> = Box::new(
        alloc,
        |draft: JobDraft| -> Option<JobDraft>
            ensures { IfSome result (KeepsIdentity draft) }
        { cap(draft) },
    )?;
    let second: Box<dyn Fn(JobDraft) -> Option<JobDraft> + Send> = Box::new(
        alloc,
        |draft: JobDraft| -> Option<JobDraft>
            ensures { IfSome result (KeepsIdentity draft) }
        { hold(draft) },
    )?;
    let mut chain = ClientChain::new(alloc);
    if chain.add(cap_name, first).is_err() || chain.add(hold_name, second).is_err() {
        return Err(invalid());
    }
    let status = scene.status(rt, alloc, teams, rules, &chain);
    Ok(scene.told(alloc, status))
}

/// What comes of the top call, with these teams and rules, and a chain of `cap` and `hold` where the row has one.
pub fn run_top<R: Threads + Wait + Sync + Clock>(
    rt: &R,
    alloc: Global,
    given: &Given<'_>,
    peers: Peers,
    teams: &mut Vec<Registry>,
    rules: Vec<DelayRule>,
) -> io::Result<Output>
    requires rules { vec_len rules ≡ vec_len teams.old }
    requires few { vec_len teams.old ≤ MOST_WORKERS }
{
    let mut scene = Scene::of(alloc, given, peers)?;
    if given.chained {
        return run_chained(rt, alloc, scene, teams, rules);
    }
    let chain = ClientChain::new(alloc);
    let status = scene.status(rt, alloc, teams, rules, &chain);
    Ok(scene.told(alloc, status))
}
