// The tally of rows: how they came, and how the jobs in them ended.
ghost use Rattle.std.specs.Prelude.{◌≡◌, ◌++◌, IfOk, OnOk};
ghost use Rattle.sk_resp.specs.Spelling.{joined};
ghost use Rattle.sk_status.specs.Tally.{came_lines, job_lines, tally_bytes};

use crate::Memory;
use crate::line::write_line;
use std::alloc::Global;

/// Rows by how they came, and jobs by how they ended. `outside + inner` is the sum of all others.
#[derive(Clone, Copy, Drop)]
pub struct Tally {
    /// Rows that clients pushed.
    pub outside: u64,
    /// Rows that callbacks and periodic jobs pushed.
    pub inner: u64,
    /// Rows, of both, whose text has no head.
    pub bare: u64,
    /// Rows, of both, whose job was there already.
    pub again: u64,
    /// Jobs that are live.
    pub live: u64,
    /// Jobs that returned.
    pub returned: u64,
    /// Jobs that were discarded after their last run.
    pub discarded: u64,
    /// Jobs that clients deleted.
    pub deleted: u64,
    /// Jobs that were trimmed from the dead set.
    pub trimmed: u64,
    /// Jobs that were pushed again while they were live.
    pub muddled: u64,
}

// How rows came.
fn write_came(alloc: Global, out: &mut Vec<u8>, tally: &Tally) -> Result<(), Memory>
    ensures { OnOk result (out.new.items ≡ out.old.items ++ joined (came_lines tally.now)) }
{
    write_line(alloc, out, "outside", tally.outside)?;
    write_line(alloc, out, "inner", tally.inner)?;
    write_line(alloc, out, "bare", tally.bare)?;
    write_line(alloc, out, "again", tally.again)
}

// Where their jobs are.
fn write_jobs(alloc: Global, out: &mut Vec<u8>, tally: &Tally) -> Result<(), Memory>
    ensures { OnOk result (out.new.items ≡ out.old.items ++ joined (job_lines tally.now)) }
{
    write_line(alloc, out, "live", tally.live)?;
    write_line(alloc, out, "returned", tally.returned)?;
    write_line(alloc, out, "discarded", tally.discarded)?;
    write_line(alloc, out, "deleted", tally.deleted)?;
    write_line(alloc, out, "trimmed", tally.trimmed)?;
    write_line(alloc, out, "muddled", tally.muddled)
}

/// The tally as text: ten lines `name number`, in the order of the fields.
#[tactic(auto, using(crate::proofs::Joined::joined_both))]
pub fn tally_text(alloc: Global, tally: &Tally) -> Result<Vec<u8>, Memory>
    ensures { IfOk result (λ text. text.items ≡ tally_bytes tally.now) }
{
    let mut out = Vec::new(alloc);
    write_came(alloc, &mut out, tally)?;
    write_jobs(alloc, &mut out, tally)?;
    Ok(out)
}
