// The status page.
ghost use Rattle.std.specs.Prelude.{◌≡◌, ◌++◌, IfOk, OnOk};
ghost use Rattle.sk_resp.specs.Spelling.{joined};
ghost use Rattle.sk_status.specs.Page.{first_lines, last_lines, page_text, queue_line, queue_lines};

use crate::Memory;
use crate::counts::Counts;
use crate::line::write_line;
use std::alloc::Global;

/// What the page tells.
#[derive(Drop)]
pub struct Numbers {
    /// Runs that came to an end, whether the job returned or failed.
    pub processed: u64,
    /// Runs that failed.
    pub failed: u64,
    /// Processes whose heartbeat stands.
    pub processes: u64,
    /// How many jobs wait in each queue, by the bytes of the queues' names.
    pub queues: Counts,
    /// Jobs that are being run.
    pub busy: u64,
    /// Jobs in the schedule.
    pub scheduled: u64,
    /// Jobs that wait for a retry.
    pub retries: u64,
    /// Dead jobs.
    pub dead: u64,
    /// Batches that were ever made.
    pub batches: u64,
    /// Live jobs.
    pub live: u64,
}

fn write_first(alloc: Global, out: &mut Vec<u8>, n: &Numbers) -> Result<(), Memory>
    ensures { OnOk result (out.new.items ≡ out.old.items ++ joined (first_lines n.now)) }
{
    write_line(alloc, out, "processed", n.processed)?;
    write_line(alloc, out, "failed", n.failed)?;
    write_line(alloc, out, "processes", n.processes)
}

fn write_queue(alloc: Global, out: &mut Vec<u8>, name: &str, jobs: u64) -> Result<(), Memory>
    ensures { OnOk result (out.new.items ≡ out.old.items ++ queue_line (name.now, jobs)) }
{
    let named = format!(in alloc; "queue {name}")?;
    write_line(alloc, out, &named, jobs)
}

fn write_queues(alloc: Global, out: &mut Vec<u8>, queues: &Counts) -> Result<(), Memory>
    ensures { OnOk result (out.new.items ≡ out.old.items ++ joined (queue_lines queues.now)) }
{
    for (name, jobs) in queues.list() {
        write_queue(alloc, out, name.text(), *jobs)?;
    }
    Ok(())
}

fn write_last(alloc: Global, out: &mut Vec<u8>, n: &Numbers) -> Result<(), Memory>
    ensures { OnOk result (out.new.items ≡ out.old.items ++ joined (last_lines n.now)) }
{
    write_line(alloc, out, "busy", n.busy)?;
    write_line(alloc, out, "scheduled", n.scheduled)?;
    write_line(alloc, out, "retries", n.retries)?;
    write_line(alloc, out, "dead", n.dead)?;
    write_line(alloc, out, "batches", n.batches)?;
    write_line(alloc, out, "live", n.live)
}

/// The status page: one line for each number, `name number`, in the order of the fields. For the queues there is a line `queue name number` each.
pub fn page(alloc: Global, n: &Numbers) -> Result<Vec<u8>, Memory>
    ensures { IfOk result (λ text. text.items ≡ page_text n.now) }
{
    let mut out = Vec::new(alloc);
    write_first(alloc, &mut out, n)?;
    write_queues(alloc, &mut out, &n.queues)?;
    write_last(alloc, &mut out, n)?;
    Ok(out)
}
