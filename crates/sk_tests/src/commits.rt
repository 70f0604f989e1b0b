// What no clause says: that two threads which share a log find their records in its file where the disk's calls pass, and have no answer where they
// fail.
ghost use Rattle.std.specs.Prelude.{◌≡◌, List};
ghost use Rattle.sk_commit.specs.Shared.{IsStart};
ghost use Rattle.sk_log.specs.File.{Body};

use sk_commit::{Committer, LogId, NewHistory, Pending, PlainBacklog, Stored};
use sk_disk::{Disk, MemDisk};
use sk_log::{Group, Log, LogFault, Record, ReplayFault, Replayer, open, record_of};
use std::alloc::Global;
use std::marker::{Brand, Model};
use std::sync::Wait;
use std::test::Fail;
use std::thread::{self, Threads};

/// Puts the bodies that it is given to run behind one another.
#[derive(Drop)]
struct Joined {
    text: Vec<u8>,
}

impl Model for Joined {
    ghost use Rattle.std.specs.Prelude.{List, ℕ};

    ghost Value = { List ℕ };

    ghost view = { λ j. j.text.items };
}

impl Replayer for Joined {
    ghost use Rattle.std.specs.Prelude.{⊤};

    ghost runs = { λ _ _ _. ⊤ };

    ghost refuses = { λ _ _. ⊥ };

    fn run(&mut self, body: &[u8]) -> Result<(), ReplayFault> {
        match self.text.extend_from_slice(body) {
            Ok(()) => Ok(()),
            Err(_) => Err(ReplayFault::Memory),
        }
    }
}

// Logs a record, and says whether it is in the file then.
fn log_one<I: LogId, D: Disk + Drop, R: Wait>(
    rt: &R,
    committer: &Committer<D, I>,
    backlog: &PlainBacklog<I>,
    entry: Record,
) -> Result<bool, LogFault> {
    let me = backlog.log(rt, entry)?;
    Ok(committer.settle(rt, backlog, &me).is_ok())
}

// Two threads log a record each. Answers the file, if both found their records in it.
fn log_two<I: LogId + Send + Sync, D: Disk + Drop + Send, R: Threads + Wait + Sync>(
    rt: &R,
    alloc: Global,
    new: NewHistory,
    file: (D, Log),
) -> Result<Option<D>, LogFault>
    requires id { new ≡ I.book }
    requires start { IsStart I.starts file.1 (D.may_leave file.0) }
    requires count { D.disk_faults file.0 ≡ I.faults }
    requires since { D.moment file.0 ≡ I.since }
    requires any { (history : List Body) → I.holds history }
{
    let (disk, log) = file;
    let (history, prefix) = new.named::<I>();
    let stored = Stored::new(disk, log, prefix.again());
    let committer = Committer::new(stored, Group::new(alloc)?);
    let backlog = PlainBacklog::new(Pending::new(history, prefix, Group::new(alloc)?));
    let (one, two) = (record_of(alloc, b"1")?, record_of(alloc, b"2")?);
    let (one, two) = thread::join(
        rt,
        || log_one(rt, &committer, &backlog, one),
        || log_one(rt, &committer, &backlog, two),
    );
    if !(one? && two?) {
        return Ok(None);
    }
    Ok(committer.close().ok().map(|stored| stored.into_parts().0))
}

// A log of no records, in a file whose first calls pass.
fn made(alloc: Global, passes: u64) -> Result<(MemDisk, Log), LogFault> {
    let mut disk = MemDisk::new(alloc, Vec::new(alloc), passes)?;
    let log = Log::create(&mut disk)?;
    Ok((disk, log))
}

#[test]
fn two_threads_find_their_records_in_the_file_unless_it_fails(rt: HostRuntime) -> Result<(), Fail> {
    let alloc = rt.alloc();
    let none = log_two::<Brand, MemDisk, HostRuntime>(
        &rt,
        alloc,
        NewHistory::new(),
        made(alloc, 2)?,
    )?;
    assert!(rt; none.is_none());
    let disk = log_two::<Brand, MemDisk, HostRuntime>(
        &rt,
        alloc,
        NewHistory::new(),
        made(alloc, 1_000)?,
    )?;
    let disk = disk.ok_or("both find them")?;
    let mut image = MemDisk::new(alloc, disk.bytes().to_vec(alloc)?, 1_000)?;
    let mut read = Joined {
        text: Vec::new(alloc),
    };
    open(alloc, &mut image, &mut read)?;
    let text = read.text.as_slice();
    assert!(rt; text == b"12".as_slice() || text == b"21".as_slice());
    Ok(())
}
