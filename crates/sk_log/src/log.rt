// Appending: lengths, bodies and a closed gate behind the closed gate, a sync, the gate opened, and a sync.
ghost use Rattle.std.specs.Prelude.{◌≡◌, ◌⊎◌, ◌↔◌, ◌<◌, ◌≤◌, ◌+◌, ◌^◌, ◌++◌, [], ◌∷◌, ℕ, List, length, IfOk, IfErr, OnOk, Err, IsErrOf};
ghost use Rattle.sk_base.specs.Outside.{Rose, HasCause};
ghost use Rattle.sk_log.specs.Appending.{Adds, AddsAll, AddsAllOrKeeps, AddsOrKeeps, Holds, Keeps, Opens, OpensOrKeeps, PutsBehind};
ghost use Rattle.sk_log.specs.File.{Body, IsAt, IsGroup, Stages};
ghost use Rattle.sk_log.specs.declared.fault.LogFault.TheVariants.{Disk as DiskFault, Full};

use crate::{Group, LogFault, Record};
use sk_base::Failed;
use sk_disk::Disk;
use std::marker::Model;

const MOST: u64 = 1 << 50;

/// Where the file's closed gate stands.
#[derive(Drop)]
pub struct Log {
    gate: u64,
}

impl Model for Log {
    ghost use Rattle.std.specs.Prelude.{ℕ};

    ghost Value = { ℕ };

    ghost view = { λ log. log.gate };
}

// Writes records behind the closed gate.
fn stage<D: Disk>(disk: &mut D, gate: u64, bytes: &[u8]) -> Result<(), Failed>
    requires { gate < 2 ^ 63 }
    ensures any_moment { Keeps D.may_leave D.moment D.left_since gate disk.old disk.new }
    ensures staged { OnOk result (PutsBehind gate bytes.now (D.may_leave disk.old) (D.may_leave disk.new)) }
    ensures cause { HasCause (D.disk_faults disk.old) (D.disk_faults disk.new) result }
{
    disk.write_at(gate + 1, bytes)?;
    disk.sync()?;
    Ok(())
}

// Opens the gate before them.
fn open_gate<D: Disk>(disk: &mut D, gate: u64) -> Result<(), Failed>
    ensures any_moment { OpensOrKeeps D.may_leave D.moment D.left_since gate disk.old disk.new }
    ensures opened { OnOk result (Opens gate (D.may_leave disk.old) (D.may_leave disk.new)) }
    ensures cause { HasCause (D.disk_faults disk.old) (D.disk_faults disk.new) result }
{
    disk.write_at(gate, &[1])?;
    disk.sync()?;
    Ok(())
}

// Both, one after the other.
fn add<D: Disk>(disk: &mut D, gate: u64, bytes: &[u8]) -> Result<(), Failed>
    requires { gate < 2 ^ 63 }
    ensures any_moment { AddsAllOrKeeps D.may_leave D.moment D.left_since (λ group. Stages group bytes.now) gate disk.old disk.new }
    ensures added { OnOk result (Holds (λ group. Stages group bytes.now) gate (D.may_leave disk.old) (D.may_leave disk.new)) }
    ensures cause { HasCause (D.disk_faults disk.old) (D.disk_faults disk.new) result }
{
    stage(disk, gate, bytes)?;
    open_gate(disk, gate)?;
    Ok(())
}

impl Log {
    // The log of a file whose closed gate stands there.
    pub(crate) fn at(gate: u64) -> Log
        ensures { result ≡ gate }
    {
        Log { gate }
    }

    /// Makes a log of a file that has no bytes. Nothing is said of a crash within.
    pub fn create<D: Disk>(disk: &mut D) -> Result<Log, LogFault>
        ensures ready { IfOk result (λ log. ((c : List ℕ) → D.reads disk.old c → c ≡ []) → IsAt [] log (D.may_leave disk.new)) }
        ensures later { D.disk_faults disk.old ≤ D.disk_faults disk.new }
        ensures only { IfErr result (λ e. (e ≡ DiskFault) × Rose (D.disk_faults disk.old) (D.disk_faults disk.new)) }
    {
        disk.write_at(0, b"SKLOG001\0")?;
        disk.sync()?;
        Ok(Log { gate: 8 })
    }

    // Appends what is staged.
    fn extend<D: Disk>(&mut self, disk: &mut D, bytes: &[u8]) -> Result<(), LogFault>
        ensures any_moment { AddsAllOrKeeps D.may_leave D.moment D.left_since (λ group. Stages group bytes.now) self.old disk.old disk.new }
        ensures ok { OnOk result (AddsAll (λ group. Stages group bytes.now) self.old (D.may_leave disk.old) self.new (D.may_leave disk.new)) }
        ensures later { D.disk_faults disk.old ≤ D.disk_faults disk.new }
        ensures disk { IsErrOf result DiskFault → Rose (D.disk_faults disk.old) (D.disk_faults disk.new) }
        ensures full { (result ≡ Err Full) ↔ (2 ^ 50 < self.old + length bytes.now + 1) }
        ensures only { IfErr result (λ e. (e ≡ DiskFault) ⊎ (e ≡ Full)) }
    {
        let len = bytes.len() as u64;
        if self.gate > MOST || len > MOST || self.gate + len + 1 > MOST {
            return Err(LogFault::Full);
        }
        let Ok(()) = add(disk, self.gate, bytes) else {
            return Err(LogFault::Disk);
        };
        self.gate += len;
        Ok(())
    }

    /// Appends a record. Where each file that a crash may leave stands for these bodies and the log is at their closed gate, a crash at any moment of
    /// the call leaves a file of these bodies, or of these and the record's. At `Ok` each has the record's.
    pub fn append<D: Disk>(&mut self, disk: &mut D, entry: &Record) -> Result<(), LogFault>
        ensures any_moment { AddsOrKeeps D.may_leave D.moment D.left_since (entry.now ∷ []) self.old disk.old disk.new }
        ensures ok { OnOk result (Adds (entry.now ∷ []) self.old (D.may_leave disk.old) self.new (D.may_leave disk.new)) }
        ensures later { D.disk_faults disk.old ≤ D.disk_faults disk.new }
        ensures disk { IsErrOf result DiskFault → Rose (D.disk_faults disk.old) (D.disk_faults disk.new) }
        ensures full { (result ≡ Err Full) ↔ (2 ^ 50 < self.old + length entry.now + 6) }
        ensures only { IfErr result (λ e. (e ≡ DiskFault) ⊎ (e ≡ Full)) }
    {
        self.extend(disk, entry.bytes())
    }

    /// Appends a group: a crash at any moment of the call leaves a file of these bodies, or of these and all of the group's.
    pub fn append_all<D: Disk>(&mut self, disk: &mut D, group: &Group) -> Result<(), LogFault>
        ensures any_moment { AddsAllOrKeeps D.may_leave D.moment D.left_since (λ more. IsGroup more group.now) self.old disk.old disk.new }
        ensures ok { OnOk result (AddsAll (λ more. IsGroup more group.now) self.old (D.may_leave disk.old) self.new (D.may_leave disk.new)) }
        ensures later { D.disk_faults disk.old ≤ D.disk_faults disk.new }
        ensures disk { IsErrOf result DiskFault → Rose (D.disk_faults disk.old) (D.disk_faults disk.new) }
        ensures full { (result ≡ Err Full) ↔ ((1 < length group.now) × (2 ^ 50 < self.old + length group.now)) }
        ensures only { IfErr result (λ e. (e ≡ DiskFault) ⊎ (e ≡ Full)) }
    {
        if group.is_empty() {
            return Ok(());
        }
        self.extend(disk, group.staged())
    }
}
