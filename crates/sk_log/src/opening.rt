// Opening a log: its bodies are run, up to the first closed gate. Nothing is written.
ghost use Rattle.std.specs.Prelude.{◌≡◌, ◌⊎◌, ◌≤◌, ℕ, List, IfOk, IfErr, OnOk, Err, IsErrOf};
ghost use Rattle.sk_base.specs.Outside.{Rose};
ghost use Rattle.sk_disk.specs.Images.{Narrows};
ghost use Rattle.sk_log.specs.File.{Begins};
ghost use Rattle.sk_log.specs.Reading.{Begun, Blames, EachFile, HasRun, IsClosed, IsDamaged, IsOpened, OnlyRead};
ghost use Rattle.sk_log.specs.declared.fault.LogFault.TheVariants.{Damaged, Disk as DiskFault, Full, Memory, NotALog};

use crate::reading::{begins, look};
use crate::replayer::ReplayFault;
use crate::window::Window;
use crate::{Found, Log, LogFault, Replayer};
use sk_disk::Disk;
use std::alloc::Global;

const END: u64 = 1 << 60;

// Runs one body.
fn replay<R: Replayer>(replayer: &mut R, body: &[u8], at: u64) -> Result<(), LogFault>
    ensures ran { OnOk result (R.runs replayer.old body.now replayer.new) }
    ensures damaged { (n : ℕ) → result ≡ Err (Damaged n) → (n ≡ at) × R.refuses replayer.old body.now }
    ensures only { IfErr result (λ e. (e ≡ Damaged at) ⊎ (e ≡ Memory)) }
{
    match replayer.run(body) {
        Ok(()) => Ok(()),
        Err(ReplayFault::Refused) => Err(LogFault::Damaged { at }),
        Err(ReplayFault::Memory) => Err(LogFault::Memory),
    }
}

// Runs all bodies from the first gate on, and answers where the closed gate stands.
fn run_all<D: Disk, R: Replayer>(
    alloc: Global,
    disk: &mut D,
    replayer: &mut R,
) -> Result<u64, LogFault>
    ensures only_read { OnlyRead D.reads D.may_leave D.moment D.left_since disk.old disk.new }
    ensures opened { IfOk result (λ at. HasRun R.runs IsClosed (Begun (D.reads disk.old)) at replayer.old replayer.new) }
    ensures damaged { (at : ℕ) → result ≡ Err (Damaged at) → IsDamaged R.runs R.refuses (Begun (D.reads disk.old)) at replayer.old }
    ensures only { result ≡ Err NotALog → ⊥ }
    ensures room { result ≡ Err Full → ⊥ }
    ensures later { D.disk_faults disk.old ≤ D.disk_faults disk.new }
    ensures disk { IsErrOf result DiskFault → Rose (D.disk_faults disk.old) (D.disk_faults disk.new) }
{
    let mut window = Window::new(alloc)?;
    let mut at = 8;
    while at < END {
        match look(alloc, &mut window, disk, at)? {
            Found::Shut => return Ok(at),
            Found::Broken => return Err(LogFault::Damaged { at }),
            Found::Whole(body) => {
                replay(replayer, &body, at)?;
                at = at.saturating_add(5 + body.len() as u64);
            }
        }
    }
    Err(LogFault::Damaged { at })
}

// The same, but for whose fault damage is.
fn open_file<D: Disk, R: Replayer>(
    alloc: Global,
    disk: &mut D,
    replayer: &mut R,
) -> Result<Log, LogFault>
    ensures only_read { OnlyRead D.reads D.may_leave D.moment D.left_since disk.old disk.new }
    ensures settled { OnOk result (Narrows (D.reads disk.old) (D.may_leave disk.new)) }
    ensures opened { IfOk result (λ log. IsOpened R.runs (D.reads disk.old) (D.may_leave disk.new) log replayer.old replayer.new) }
    ensures not_a_log { result ≡ Err NotALog → (c : List ℕ) → D.reads disk.old c → Begins c → ⊥ }
    ensures damaged { (at : ℕ) → result ≡ Err (Damaged at) → IsDamaged R.runs R.refuses (D.reads disk.old) at replayer.old }
    ensures room { result ≡ Err Full → ⊥ }
    ensures later { D.disk_faults disk.old ≤ D.disk_faults disk.new }
    ensures disk { IsErrOf result DiskFault → Rose (D.disk_faults disk.old) (D.disk_faults disk.new) }
{
    disk.sync()?;
    if !begins(disk)? {
        return Err(LogFault::NotALog);
    }
    Ok(Log::at(run_all(alloc, disk, replayer)?))
}

/// Runs the bodies of a log up to its first closed gate. It writes nothing: what a crash leaves was there before.
pub fn open<D: Disk, R: Replayer>(
    alloc: Global,
    disk: &mut D,
    replayer: &mut R,
) -> Result<Log, LogFault>
    ensures only_read { OnlyRead D.reads D.may_leave D.moment D.left_since disk.old disk.new }
    ensures settled { OnOk result (Narrows (D.reads disk.old) (D.may_leave disk.new)) }
    ensures opened { IfOk result (λ log. IsOpened R.runs (D.reads disk.old) (D.may_leave disk.new) log replayer.old replayer.new) }
    ensures not_a_log { result ≡ Err NotALog → (c : List ℕ) → D.reads disk.old c → Begins c → ⊥ }
    ensures damaged { (at : ℕ) → result ≡ Err (Damaged at) → IsDamaged R.runs R.refuses (D.reads disk.old) at replayer.old }
    ensures blamed { (at : ℕ) → result ≡ Err (Damaged at) → EachFile (D.reads disk.old) (Blames R.runs R.refuses replayer.old) }
    ensures room { result ≡ Err Full → ⊥ }
    ensures later { D.disk_faults disk.old ≤ D.disk_faults disk.new }
    ensures disk { IsErrOf result DiskFault → Rose (D.disk_faults disk.old) (D.disk_faults disk.new) }
{
    open_file(alloc, disk, replayer)
}
