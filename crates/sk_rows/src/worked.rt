// Worked rows: files of input and of what must be answered. `rows.txt` lists them, a line `FORM STATUS NAME LIMITS` each.
use crate::difference::difference;
use crate::report::Report;
use sk_row_calls::text::{halves, path_of};
use sk_row_calls::{came_of, expand};
use std::{fs, io};

// The bytes of a row's file: what it is given (`.in`) or what it must answer (`.out`), where `repeats:` stands before its form in the notation of
// repeats.
fn file(rt: &HostRuntime, form: &str, name: &str, kind: &str) -> io::Result<Vec<u8>> {
    let path = path_of(rt.alloc(), name, kind)?;
    if !form.starts_with("repeats:") {
        return fs::read(rt, path.as_str());
    }
    let lines = fs::read_to_string(rt, path.as_str())?;
    expand(rt.alloc(), lines.as_str())
}

// Runs the row of a line of the list.
fn run_row(rt: &HostRuntime, report: &mut Report, line: &str) -> io::Result<()> {
    let (form, rest) = halves(line)?;
    if form == "wire" || form == "repeats" || form == "unlike:wire" {
        return Ok(());
    }
    let (_status, rest) = halves(rest)?;
    let (name, room) = rest.split_once(' ').unwrap_or((rest, ""));
    let given = file(rt, form, name, ".in")?;
    let came = came_of(rt.alloc(), form, room, &given)?.into_bytes()?;
    let wanted = file(rt, form, name, ".out")?;
    report.add(rt, name, difference(rt.alloc(), &came, &wanted))
}

/// Runs the worked rows but those in the forms `wire` and `repeats`: these are the program's own input and output, and it runs them itself.
pub fn run(rt: &HostRuntime, report: &mut Report) -> io::Result<()> {
    let index = fs::read_to_string(rt, "rows.txt")?;
    for line in index.lines() {
        run_row(rt, report, line)?;
    }
    Ok(())
}
