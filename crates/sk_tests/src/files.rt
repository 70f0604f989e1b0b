// What no clause says: that a log is made, appended to and opened where there is memory, in memory and in a file of the system, and that the file of
// one opening is refused to another.
ghost use Rattle.std.specs.Prelude.{◌<◌, ◌^◌, length};

use sk_disk::{Disk, FileShelf, MemDisk, MemShelf, Shelf};
use sk_log::{Group, Log, LogFault, ReplayFault, Replayer, open, record_of};
use std::alloc::Global;
use std::io::ErrorKind;
use std::marker::Model;
use std::test::Fail;
use std::time::SystemTime;
use std::{env, fs};

/// Keeps the bodies that it is given to run, each with a bar behind it.
#[derive(Drop)]
struct Bodies {
    text: Vec<u8>,
}

impl Model for Bodies {
    ghost use Rattle.std.specs.Prelude.{List, ℕ};

    ghost Value = { List ℕ };

    ghost view = { λ b. b.text.items };
}

impl Replayer for Bodies {
    ghost use Rattle.std.specs.Prelude.{⊤};

    ghost runs = { λ _ _ _. ⊤ };

    ghost refuses = { λ _ _. ⊥ };

    fn run(&mut self, body: &[u8]) -> Result<(), ReplayFault> {
        if self.text.extend_from_slice(body).is_err() || self.text.push(b'|').is_err() {
            return Err(ReplayFault::Memory);
        }
        Ok(())
    }
}

// Appends a record of this body.
fn append<D: Disk>(alloc: Global, log: &mut Log, disk: &mut D, body: &[u8]) -> Result<(), LogFault>
    requires { length body.now < 2 ^ 25 }
{
    let record = record_of(alloc, body)?;
    log.append(disk, &record)
}

// Puts a record of this body into a group.
fn push(alloc: Global, group: &mut Group, body: &[u8]) -> Result<(), LogFault>
    requires { length body.now < 2 ^ 25 }
{
    let record = record_of(alloc, body)?;
    group.push(&record)?;
    Ok(())
}

// Makes a log of one record and a group of two.
fn fill<D: Disk>(alloc: Global, disk: &mut D) -> Result<(), LogFault> {
    let mut log = Log::create(disk)?;
    append(alloc, &mut log, disk, b"one")?;
    let mut group = Group::new(alloc)?;
    push(alloc, &mut group, b"")?;
    push(alloc, &mut group, b"three")?;
    log.append_all(disk, &group)
}

// Opens a log, appends one more record, and answers the bodies that were read, each with a bar behind it.
fn reopen<D: Disk>(alloc: Global, disk: &mut D) -> Result<Vec<u8>, LogFault> {
    let mut read = Bodies {
        text: Vec::new(alloc),
    };
    let mut log = open(alloc, disk, &mut read)?;
    append(alloc, &mut log, disk, b"four")?;
    Ok(read.text)
}

// Makes a log at this path, and tells whether another opening was refused meanwhile.
fn fill_at<S: Shelf>(alloc: Global, shelf: &mut S, path: &str) -> Result<bool, Fail> {
    let mut disk = shelf.open(path)?;
    fill(alloc, &mut disk)?;
    let is_refused = shelf.open(path).is_err();
    shelf.leave(disk);
    Ok(is_refused)
}

// What the next opening of the log at this path reads.
fn read_at<S: Shelf>(alloc: Global, shelf: &mut S, path: &str) -> Result<Vec<u8>, Fail> {
    let mut disk = shelf.open(path)?;
    let read = reopen(alloc, &mut disk)?;
    shelf.leave(disk);
    Ok(read)
}

#[test]
fn a_log_in_memory_is_read_as_it_was_appended(rt: HostRuntime) -> Result<(), Fail> {
    let alloc = rt.alloc();
    let mut shelf = MemShelf::new(MemDisk::new(alloc, Vec::new(alloc), 1_000)?);
    assert!(rt; fill_at(alloc, &mut shelf, "any")?);
    let disk = shelf.open("any")?;
    let told = b"SKLOG001\x01\0\0\0\x03one\x01\0\0\0\0\x01\0\0\0\x05three\0";
    assert_eq!(rt; disk.bytes(), told.as_slice());
    shelf.leave(disk);
    let read = read_at(alloc, &mut shelf, "any")?;
    assert_eq!(rt; read.as_slice(), b"one||three|".as_slice());
    let read = read_at(alloc, &mut shelf, "any")?;
    assert_eq!(rt; read.as_slice(), b"one||three|four|".as_slice());
    Ok(())
}

// A name that no other run of this test has at the same time.
fn fresh_folder(rt: &HostRuntime) -> Result<String, Fail> {
    let since = SystemTime::now(rt)?.duration_since(SystemTime::UNIX_EPOCH)?;
    let folder = env::temp_dir(rt)?;
    Ok(format!(in rt.alloc(); "{}/sidekiq-test-{}", folder.display(), since.as_nanos())?)
}

// Whether a log at this path is read as it was appended, and is one opening's alone.
fn is_kept(rt: HostRuntime, path: &str) -> Result<bool, Fail> {
    let mut shelf = FileShelf::new(rt);
    if !fill_at(rt.alloc(), &mut shelf, path)? {
        return Ok(false);
    }
    let is_locked = matches!(shelf.last_error(), Some(e) if e.kind() == ErrorKind::WouldBlock);
    let mut disk = shelf.open(path)?;
    let is_whole = disk.size() == Ok(32);
    shelf.leave(disk);
    let first = read_at(rt.alloc(), &mut shelf, path)?;
    let second = read_at(rt.alloc(), &mut shelf, path)?;
    let is_read = first.as_slice() == b"one||three|".as_slice()
        && second.as_slice() == b"one||three|four|".as_slice();
    Ok(is_locked && is_whole && is_read)
}

#[test]
fn a_log_in_a_file_is_read_as_it_was_appended_and_is_one_openings_alone(
    rt: HostRuntime,
) -> Result<(), Fail> {
    let folder = fresh_folder(&rt)?;
    let path = format!(in rt.alloc(); "{folder}/log")?;
    assert!(rt; FileShelf::new(rt).open(&path).is_err());
    fs::create_dir(&rt, folder.as_str())?;
    assert!(rt; is_kept(rt, &path)?);
    assert!(rt; FileShelf::new(rt).open("/dev/null").is_err());
    fs::remove_dir_all(&rt, folder.as_str())?;
    Ok(())
}
