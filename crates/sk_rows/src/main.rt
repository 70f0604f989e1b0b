//! Runs all rows but those of the program's own input and output: what is given, and what must come of it. Contracts leave want of memory free as an
//! answer, and none can say what a call through the store's lock did; rows show both.
#![tactic(auto)]

mod difference;
mod doors;
mod drills;
mod report;
mod row_job;
mod teams;
mod worked;

use difference::difference;
use report::Report;
use sk_row_calls::len_of_pushes;
use sk_row_calls::text::{invalid, number, path_of};
use std::alloc::Global;
use std::process::ExitCode;
use std::{env, fs, io};

// The words `pushes` and a number: so many jobs are pushed, for a measurement of time. How many bytes that took.
fn measure(alloc: Global, word: &str, count: &str) -> io::Result<usize> {
    if word != "pushes" {
        return Err(invalid());
    }
    len_of_pushes(alloc, number(count)?)
}

/// With no words all rows. With the words `pushes` and a number so many jobs are pushed, for a measurement of time.
fn main(rt: HostRuntime) -> io::Result<ExitCode> {
    let alloc = rt.alloc();
    let mut words = env::args(&rt)?;
    if let Some(word) = words.nth(1) {
        let Some(count) = words.next() else {
            return Err(invalid());
        };
        let len = measure(alloc, word.as_str(), count.as_str())?;
        println!(rt; "{len} bytes")?;
        return Ok(ExitCode::SUCCESS);
    }
    let mut report = Report { rows: 0, wrong: 0 };
    worked::run(&rt, &mut report)?;
    let rows = fs::read_to_string(&rt, "doors.txt")?;
    doors::run(&rt, alloc, rows.as_str(), &mut report)?;
    for name in ["lanes", "drills", "transcripts"] {
        let rows = fs::read_to_string(&rt, path_of(alloc, name, ".txt")?.as_str())?;
        let came = doors::told(&rt, alloc, name, rows.as_str())?.into_bytes()?;
        let wanted = fs::read(&rt, path_of(alloc, name, ".out")?.as_str())?;
        report.add(&rt, name, difference(alloc, &came, &wanted))?;
    }
    report.print(&rt)?;
    Ok(ExitCode::from(u8::from(report.wrong > 0)))
}
