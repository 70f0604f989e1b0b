// Calls with teams: the classes and the delay rules of each team.
ghost use Rattle.std.specs.Prelude.{◌≤◌};
ghost use Rattle.sk_base.specs.declared.limits.TheConstants.{LONGEST_DELAY};

use crate::doors::run_top;
use crate::drills::drill_row;
use crate::row_job::RowJob;
use sk_app::{Fail, Flip};
use sk_base::limits::{LONGEST_DELAY, MOST_WORKERS};
use sk_policy::{DelayRule, plain_delay};
use sk_resp::Text;
use sk_row_calls::text::{count, invalid, words};
use sk_row_calls::{Given, Lines, Output, Peers, import_of, lane_row, run_workers};
use sk_worker::{Job, Registry};
use std::alloc::{AllocError, Global};
use std::io;
use std::sync::atomic::AtomicU64;
use std::sync::{Arc, Wait};
use std::thread::Threads;
use std::time::Clock;

/// A team: after how many seconds its jobs are tried again, and jobs of no class that it has; 0: by the plain rule.
#[derive(Clone, Copy)]
struct Team {
    own: u64,
    plain: u64,
}

/// A team by the plain rule.
const PLAIN: Team = Team { own: 0, plain: 0 };

/// What a call with teams goes by.
#[derive(Drop)]
struct Scene {
    words: Vec<String>,
    peers: Peers,
    lines: Lines,
    runs: Arc<AtomicU64, Global>,
}

impl Scene {
    fn of(alloc: Global, given: &Given<'_>) -> io::Result<Scene> {
        let words = words(alloc, given.words)?;
        let lines = Lines::new(alloc)?;
        let runs = Arc::new(alloc, AtomicU64::new(0))?;
        let peers = Peers::read(alloc, given.parts)?;
        Ok(Scene {
            words,
            peers,
            lines,
            runs,
        })
    }

    // The classes that each team has: what the words of a drill name, and else Note; Fail for rows with rules.
    fn classes(&self, alloc: Global, given: &Given<'_>) -> Result<Vec<String>, AllocError> {
        let names = match given.call {
            "drill" => return names_behind(alloc, &self.words),
            "run" if given.ruled => "Fail",
            "work" => "Note Flip",
            "iterjob" => "Import",
            _ => "Note",
        };
        let mut classes = Vec::new(alloc);
        for name in names.split(' ') {
            classes.push(String::from_str(alloc, name)?)?;
        }
        Ok(classes)
    }

    // The teams: for rows with rules two, and for a drill as many as its words say. For an iterable job, whose own link is the first of the
    // connections, there is a rule for each worker, and the first team has the job.
    fn teams(&self, alloc: Global, given: &Given<'_>) -> io::Result<Vec<Team>> {
        let count = match (given.call, self.words.as_slice()) {
            ("drill", [_seed, _jobs, workers, ..]) => count(workers)? as usize,
            ("iterjob", _) => self.peers.dialled.len().saturating_sub(1),
            _ => 1,
        };
        let mut teams = Vec::new(alloc);
        if given.call == "run" && given.ruled {
            teams.push(Team { own: 60, plain: 30 })?;
            teams.push(Team { own: 70, plain: 40 })?;
        } else {
            teams.resize(count, PLAIN)?;
        }
        Ok(teams)
    }

    // The job of a class. The jobs of lanes and drills count their runs.
    fn job(&mut self, alloc: Global, given: &Given<'_>, class: &str) -> io::Result<RowJob> {
        if given.call == "lane" || given.call == "drill" {
            return Ok(RowJob::Counted(Arc::try_clone(&self.runs)?));
        }
        match class {
            "Flip" => Ok(RowJob::Flip(Flip)),
            "Fail" => Ok(RowJob::Fail(Fail)),
            "Import" => self.import(alloc),
            _ => Ok(RowJob::note()),
        }
    }

    // The job that is cut.
    fn import(&mut self, alloc: Global) -> io::Result<RowJob> {
        let import = import_of(alloc, &self.words, &mut self.peers, &self.lines)?;
        Ok(RowJob::import(import))
    }

    // The classes of a team, each with its job. Only the first team has the job that is cut.
    fn jobs(
        &mut self,
        alloc: Global,
        given: &Given<'_>,
        classes: &[String],
        is_first: bool,
    ) -> io::Result<Vec<(Text, RowJob)>> {
        let mut jobs = Vec::new(alloc);
        if given.call == "iterjob" && !is_first {
            return Ok(jobs);
        }
        for class in classes {
            let name = Text::new(class.clone()?);
            jobs.push((name, self.job(alloc, given, class)?))?;
        }
        Ok(jobs)
    }

    // The teams, each with its classes.
    fn crew(&mut self, alloc: Global, given: &Given<'_>) -> io::Result<Vec<Crew>> {
        let classes = self.classes(alloc, given)?;
        let mut crew = Vec::new(alloc);
        for team in self.teams(alloc, given)? {
            let jobs = self.jobs(alloc, given, &classes, crew.is_empty())?;
            crew.push(Crew { team, jobs })?;
        }
        Ok(crew)
    }
}

/// A team and its classes, each with its job.
#[derive(Drop)]
struct Crew {
    team: Team,
    jobs: Vec<(Text, RowJob)>,
}

// The classes that the words of a drill name.
fn names_behind(alloc: Global, words: &[String]) -> Result<Vec<String>, AllocError> {
    let mut names = Vec::new(alloc);
    if let [_seed, _jobs, _workers, _crashes, classes @ ..] = words {
        for class in classes {
            names.push(class.clone()?)?;
        }
    }
    Ok(names)
}

// After how many seconds a job is tried again that failed so often; by the plain rule where these are 0.
fn delay(seconds: u64, count: u32) -> u64
    ensures { result ≤ LONGEST_DELAY }
{
    if seconds == 0 {
        plain_delay(count)
    } else {
        seconds.min(LONGEST_DELAY)
    }
}

// What comes of the call with these teams and a plain rule for each.
fn play_with<R: Threads + Wait + Sync + Clock>(
    rt: &R,
    alloc: Global,
    given: &Given<'_>,
    scene: Scene,
    mut teams: Vec<Registry>,
    rules: Vec<DelayRule>,
) -> io::Result<Output>
    requires { 0 ≤ 1 }
{
    if rules.len() != teams.len() || teams.len() > MOST_WORKERS {
        return Err(invalid());
    }
    match given.call {
        "run" => run_top(rt, alloc, given, scene.peers, &mut teams, rules),
        "drill" => drill_row(rt, alloc, &scene.words, &mut teams, rules, &scene.runs),
        _ => play_first(alloc, given, scene, teams, rules),
    }
}

// What comes of the call with the first team.
fn play_first(
    alloc: Global,
    given: &Given<'_>,
    scene: Scene,
    mut teams: Vec<Registry>,
    mut rules: Vec<DelayRule>,
) -> io::Result<Output>
    requires { 0 ≤ 1 }
{
    let Scene {
        words,
        peers,
        lines,
        runs,
    } = scene;
    let Some(team) = teams.first_mut() else {
        return Err(invalid());
    };
    if given.call != "lane" {
        return run_workers(alloc, given, &words, team, rules, peers.dialled, &lines);
    }
    let Some(rule) = rules.pop() else {
        return Err(invalid());
    };
    lane_row(alloc, &words, team, rule, &runs)
}

// Adds a class to a team.
fn add(
    team: &mut Registry,
    class: Text,
    job: Box<dyn Job + Send>,
    rule: DelayRule,
) -> io::Result<()>
    requires { 0 ≤ 1 }
{
    match team.add(class, job, rule) {
        Ok(()) => Ok(()),
        Err(_) => Err(invalid()),
    }
}

// What comes of the call with this crew.
fn play_crew<R: Threads + Wait + Sync + Clock>(
    rt: &R,
    alloc: Global,
    given: &Given<'_>,
    scene: Scene,
    crew: Vec<Crew>,
) -> io::Result<Output> {
    let mut teams = Vec::new(alloc);
    let mut rules = Vec::new(alloc);
    for Crew { team, jobs } in crew {
        let Team { own, plain } = team;
        let mut registry = Registry::new(alloc);
        for (class, job) in jobs {
            let job: Box<dyn Job + Send> = Box::new(alloc, job)?;
            let rule: Box<dyn Fn(u32) -> u64 + Send> = Box::new(
                alloc,
                move |count: u32| -> u64
                    ensures { result ≤ LONGEST_DELAY }
                { delay(own, count) },
            )?;
            add(&mut registry, class, job, DelayRule::new(rule))?;
        }
        let rule: Box<dyn Fn(u32) -> u64 + Send> = Box::new(
            alloc,
            move |count: u32| -> u64
                ensures { result ≤ LONGEST_DELAY }
            { delay(plain, count) },
        )?;
        teams.push(registry)?;
        rules.push(DelayRule::new(rule))?;
    }
    play_with(rt, alloc, given, scene, teams, rules)
}

/// What comes of a call with teams.
pub fn with_teams<R: Threads + Wait + Sync + Clock>(
    rt: &R,
    alloc: Global,
    given: &Given<'_>,
) -> io::Result<Output> {
    let mut scene = Scene::of(alloc, given)?;
    let crew = scene.crew(alloc, given)?;
    play_crew(rt, alloc, given, scene, crew)
}
