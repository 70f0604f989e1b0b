// What a soak or a drill came to.
ghost use Rattle.std.specs.Prelude.{◌≡◌, IfOk, string_bytes};
ghost use Rattle.sk_drill.specs.DrillText.{drill_lines, drill_text};
ghost use Rattle.sk_drill.specs.SoakText.{front_lines, soak_text};

use crate::Memory;
use sk_resp::Word;
use sk_status::{Tally, tally_text};
use std::alloc::Global;

/// What a soak or a drill came to.
#[derive(Clone, Copy, Drop)]
pub struct Summary {
    /// How many events there were.
    pub events: u64,
    /// The store's tally after the last of them.
    pub tally: Tally,
}

// What was run, and how many events there were.
fn front_lines(alloc: Global, seed: u64, jobs: u64, events: u64) -> Result<String, Memory>
    ensures { IfOk result (λ text. string_bytes text ≡ front_lines seed jobs events) }
{
    format!(in alloc; "soak seed {seed} jobs {jobs}\nevents {events}\n")
}

/// The text of the summary of a soak of so many jobs, made from the seed: a line `soak seed s jobs n`, a line `events e`, and the ten lines of the tally,
/// each ended by LF.
pub fn write_soak(alloc: Global, seed: u64, jobs: u64, summary: &Summary) -> Result<Word, Memory>
    ensures { IfOk result (λ text. text ≡ soak_text seed jobs summary.now) }
{
    let mut text = Vec::new(alloc);
    text.extend_from_slice(front_lines(alloc, seed, jobs, summary.events)?.as_bytes())?;
    text.extend_from_slice(&tally_text(alloc, &summary.tally)?)?;
    Ok(Word::new(text))
}

// What was run, and how many events there were.
fn drill_lines(
    alloc: Global,
    seed: u64,
    jobs: u64,
    workers: u32,
    crashes: u32,
    events: u64,
) -> Result<String, Memory>
    ensures { IfOk result (λ text. string_bytes text ≡ drill_lines seed jobs workers crashes events) }
{
    format!(in alloc;
        "drill seed {seed} jobs {jobs} workers {workers} crashes {crashes}\nevents {events}\n"
    )
}

/// The text of the summary of a drill: a line `drill seed s jobs n workers w crashes c`, a line `events e`, and the ten lines of the tally, each ended by
/// LF.
pub fn write_drill(
    alloc: Global,
    seed: u64,
    jobs: u64,
    workers: u32,
    crashes: u32,
    summary: &Summary,
) -> Result<Word, Memory>
    ensures { IfOk result (λ text. text ≡ drill_text seed jobs workers crashes summary.now) }
{
    let mut text = Vec::new(alloc);
    let lines = drill_lines(alloc, seed, jobs, workers, crashes, summary.events)?;
    text.extend_from_slice(lines.as_bytes())?;
    text.extend_from_slice(&tally_text(alloc, &summary.tally)?)?;
    Ok(Word::new(text))
}
