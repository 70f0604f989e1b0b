// Rows of calls in memory: who connects and what he sends, what the clock and the dice tell, and what must come of it.
mod top;

use crate::difference::difference;
use crate::report::Report;
use crate::teams::with_teams;
use sk_row_calls::text::{halves, invalid};
use sk_row_calls::{Given, Output, call};
use std::alloc::Global;
use std::io;
use std::sync::Wait;
use std::thread::Threads;
use std::time::Clock;
pub use top::run_top;

// What comes of the call.
fn play<R: Threads + Wait + Sync + Clock>(
    rt: &R,
    alloc: Global,
    given: &Given<'_>,
) -> io::Result<Output> {
    match given.call {
        "run" | "work" | "iterjob" | "lane" | "drill" => with_teams(rt, alloc, given),
        _ => call(rt, alloc, given),
    }
}

/// A row: what is given, what is wanted of it, and whether something else must come.
#[derive(Clone, Copy)]
struct Row<'a> {
    name: &'a str,
    given: &'a str,
    wanted: &'a str,
    must_differ: bool,
}

impl<'a> Row<'a> {
    // Between what is given and what must come of it stands `then`; with `but not` in its place something else must come. Another text is invalid
    // data.
    fn read(text: &'a str) -> io::Result<Row<'a>> {
        let Some((name, row)) = text.split_once('\n') else {
            return Err(invalid());
        };
        if let Some((given, wanted)) = row.split_once("\nthen\n") {
            let must_differ = false;
            return Ok(Row {
                name,
                given,
                wanted,
                must_differ,
            });
        }
        match row.split_once("\nbut not\n") {
            Some((given, wanted)) => {
                let must_differ = true;
                Ok(Row {
                    name,
                    given,
                    wanted,
                    must_differ,
                })
            }
            None => Err(invalid()),
        }
    }

    // What is wrong with what came.
    fn wrong(&self, alloc: Global, came: &[u8]) -> Option<Output> {
        let came = came.strip_suffix(b"\n").unwrap_or(came);
        let differs = difference(alloc, came, self.wanted.as_bytes());
        if !self.must_differ {
            return differs;
        }
        if differs.is_some() {
            return None;
        }
        let mut wrong = Output::new(alloc);
        wrong.say("differs in nothing, and must");
        Some(wrong)
    }
}

// What is wrong with what comes of a row.
fn wrong_with<R: Threads + Wait + Sync + Clock>(
    rt: &R,
    alloc: Global,
    row: &Row<'_>,
) -> io::Result<Option<Output>> {
    let given = Given::read(row.given)?;
    let came = play(rt, alloc, &given)?.into_bytes()?;
    Ok(row.wrong(alloc, &came))
}

/// Runs the rows. Empty lines stand between them, and between them and remarks, which begin with `#`.
pub fn run<R: Threads + Wait + Sync + Clock + Print>(
    rt: &R,
    alloc: Global,
    rows: &str,
    report: &mut Report,
) -> io::Result<()> {
    for row in rows.trim_end().split("\n\n") {
        if !row.starts_with('#') {
            let row = Row::read(row)?;
            report.add(rt, row.name, wrong_with(rt, alloc, &row)?)?;
        }
    }
    Ok(())
}

// The call of a line of lanes, of drills, or of transcripts.
fn call_of<'a>(name: &str, line: &'a str) -> io::Result<Given<'a>> {
    match name {
        "lanes" => Ok(Given::new("lane", line)),
        "transcripts" => Ok(Given::new("talk", line)),
        _ => {
            let (call, words) = halves(line)?;
            Ok(Given::new(call, words))
        }
    }
}

/// What comes of rows of lanes, of drills or of transcripts; of lanes and drills behind each row itself. Lines that begin with `#` say what the next
/// row shows.
pub fn told<R: Threads + Wait + Sync + Clock>(
    rt: &R,
    alloc: Global,
    name: &str,
    rows: &str,
) -> io::Result<Output> {
    let mut out = Output::new(alloc);
    for line in rows.lines() {
        let is_remark = line.is_empty() || line.starts_with('#');
        if is_remark || name != "transcripts" {
            out.say(line);
            out.say("\n");
        }
        if !is_remark {
            out.append(play(rt, alloc, &call_of(name, line)?)?);
        }
    }
    Ok(out)
}
