// The files of the system. A file is made where it isn't there, and its folder is synced, so that no crash takes its name; a lock keeps others out.
ghost use Rattle.std.specs.Prelude.{◌≡◌, None};

use crate::{FileDisk, Shelf};
use sk_base::Failed;
use std::fs::{File, OpenOptions};
use std::io::{self, ErrorKind};
use std::marker::Model;
use std::rt::Files;

/// The files of the system. Contracts see how often an opening has failed. It closes the files that are left to it.
#[derive(Drop)]
pub struct FileShelf<R: Files<File = File> + Drop> {
    rt: R,
    last: Option<io::Error>,
    faults: u64,
}

impl<R: Files<File = File> + Drop> Model for FileShelf<R> {
    ghost use Rattle.std.specs.Prelude.{ℕ};

    ghost Value = { ℕ };

    ghost view = { λ s. s.faults };
}

// The folder in which a path's last name stands.
fn folder_of(path: &str) -> &str {
    match path.rsplit_once('/') {
        Some(("", _)) => "/",
        Some((folder, _)) => folder,
        None => ".",
    }
}

// The file of a path, made where it isn't there, and its name in the folder on the device. Whoever else has opened it so keeps it until then.
fn open_file<R: Files<File = File>>(rt: &R, path: &str) -> io::Result<File> {
    let mut how = OpenOptions::new();
    how.read(true).write(true).create(true);
    let file = how.open(rt, path)?;
    file.try_lock()?;
    if !file.metadata()?.is_file() {
        return Err(io::Error::from(ErrorKind::InvalidInput));
    }
    File::open(rt, folder_of(path))?.sync_all()?;
    Ok(file)
}

impl<R: Files<File = File> + Drop> FileShelf<R> {
    /// A shelf over the system's files.
    pub fn new(rt: R) -> FileShelf<R>
        ensures { result ≡ 0 }
    {
        FileShelf {
            rt,
            last: None,
            faults: 0,
        }
    }

    /// The error of the system with which an opening failed last.
    pub fn last_error(&self) -> Option<&io::Error> {
        self.last.as_ref()
    }
}

impl<R: Files<File = File> + Drop> Shelf for FileShelf<R> {
    type Disk = FileDisk;

    ghost stands = { λ _. None };

    ghost shelf_faults = { λ s. s };

    /// Opens the file for reading and writing, and locks it (`flock`): it fails with `WouldBlock` where another opening has it, and with
    /// `InvalidInput` where the path is no regular file. Each opening syncs the folder, since who made the file may have been killed before.
    fn open(&mut self, path: &str) -> Result<FileDisk, Failed> {
        match open_file(&self.rt, path) {
            Ok(file) => Ok(FileDisk::new(file)),
            Err(error) => {
                self.last = Some(error);
                self.faults = self.faults.saturating_add(1);
                Err(Failed)
            }
        }
    }

    /// Closes the file, which lets go of its lock.
    fn leave(&mut self, _disk: FileDisk) {}
}
