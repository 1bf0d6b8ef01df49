//! The file of `--out`, which gets the record whole or stays as it was.
ghost use Rattle.std.specs.Prelude.{◌≡◌, None};
ghost use Rattle.std.specs.Io.{WritesAtMost};

use std::fs::{File, OpenOptions, Permissions};
use std::io::{ErrorKind, Write};
use std::path::PathBuf;
use std::{fs, io};
use svid_lines::Keep;
use svid_replay::{Record, UseStore};
use svid_share::{ToolFault, put_record};
use svid_wire::{Sink, Stopped};

// How many names beside a file are tried: one is taken for each run that was killed while it wrote.
const NAMES: u32 = 1000;

// A new file beside another.
#[derive(Drop)]
struct Beside {
    name: String,
    file: File,
}

// A regular file to replace.
#[derive(Drop)]
struct Replaced {
    path: PathBuf,
    allows: Permissions,
    // whether this run made it
    made: bool,
    beside: Option<Beside>,
}

/// Where the record goes. A regular file is replaced: the record is written to a new file beside it, which then takes its name.
/// Anything else, such as a pipe, is written to.
#[derive(Drop)]
pub struct Kept<'a> {
    rt: &'a HostRuntime,
    file: File,
    replaced: Option<Replaced>,
    faults: u64,
}

// The file of this name, and whether it had to be made. Its content stays.
fn open_or_make(rt: &HostRuntime, path: &str) -> io::Result<(File, bool)> {
    match OpenOptions::new().write(true).open(rt, path) {
        Ok(file) => Ok((file, false)),
        Err(error) if error.kind() == ErrorKind::NotFound => {
            let file = OpenOptions::new().write(true).create(true).open(rt, path)?;
            Ok((file, true))
        }
        Err(error) => Err(error),
    }
}

// A new file under a name that is free.
fn make_beside(rt: &HostRuntime, path: &str) -> io::Result<Beside> {
    for number in 0..NAMES {
        let name = format!(in rt.alloc(); "{path}.svid-{number}")?;
        match OpenOptions::new()
            .write(true)
            .create_new(true)
            .open(rt, name.as_str())
        {
            Ok(file) => {
                // (as for the other files: none gets the number of a closed standard stream)
                let file = file.try_clone()?;
                return Ok(Beside { name, file });
            }
            Err(error) if error.kind() == ErrorKind::AlreadyExists => {}
            Err(error) => return Err(error),
        }
    }
    Err(io::Error::from(ErrorKind::AlreadyExists))
}

// Gives the new file the other's name, once its bytes are on the disk.
fn put_in_place(rt: &HostRuntime, beside: &Beside, path: &str) -> io::Result<()> {
    beside.file.sync_all()?;
    fs::rename(rt, beside.name.as_str(), path)
}

impl Replaced {
    fn write(&mut self, rt: &HostRuntime, piece: &[u8]) -> io::Result<usize>
        ensures bound { WritesAtMost result piece.now }
    {
        if self.beside.is_none() {
            let beside = make_beside(rt, self.path.as_str())?;
            beside.file.set_permissions(self.allows.clone()?)?;
            self.beside = Some(beside);
        }
        match &mut self.beside {
            Some(beside) => beside.file.write(piece),
            None => Ok(0),
        }
    }

    fn keep(&mut self, rt: &HostRuntime) -> io::Result<()> {
        let Some(beside) = self.beside.take() else {
            return Ok(());
        };
        let placed = put_in_place(rt, &beside, self.path.as_str());
        match placed {
            Ok(()) => self.made = false,
            Err(_) => self.beside = Some(beside),
        }
        placed
    }

    // Removes what this run made. (There is no way to report that it can't.)
    fn discard(&mut self, rt: &HostRuntime) {
        if let Some(beside) = self.beside.take() {
            let _ = fs::remove_file(rt, beside.name.as_str());
        }
        if self.made {
            let _ = fs::remove_file(rt, self.path.as_str());
        }
    }
}

impl<'a> Kept<'a> {
    /// Opens the file of this name, or makes an empty one. Its content stays.
    pub fn open(rt: &'a HostRuntime, path: &str) -> io::Result<Kept<'a>> {
        let (opened, made) = open_or_make(rt, path)?;
        // (as for the other files: none gets the number of a closed standard stream)
        let file = opened.try_clone()?;
        let about = file.metadata()?;
        let replaced = if about.is_file() {
            Some(Replaced {
                path: fs::canonicalize(rt, path)?,
                allows: about.permissions(),
                made,
                beside: None,
            })
        } else {
            None
        };
        Ok(Kept {
            rt,
            file,
            replaced,
            faults: 0,
        })
    }

    /// Leaves the file as it was before this run, unless the record is kept.
    pub fn discard(&mut self) {
        if let Some(replaced) = &mut self.replaced {
            replaced.discard(self.rt);
        }
    }

    fn write(&mut self, piece: &[u8]) -> io::Result<usize>
        ensures bound { WritesAtMost result piece.now }
        ensures faults { self.new.faults ≡ self.old.faults }
    {
        match &mut self.replaced {
            Some(replaced) => replaced.write(self.rt, piece),
            None => self.file.write(piece),
        }
    }

    fn put_in_place(&mut self) -> io::Result<()>
        ensures faults { self.new.faults ≡ self.old.faults }
    {
        match &mut self.replaced {
            Some(replaced) => replaced.keep(self.rt),
            None => Ok(()),
        }
    }
}

impl<'a> Sink for Kept<'a> {
    ghost told = { λ _. None };

    ghost stops = { λ k. k.faults };

    fn put(&mut self, piece: &[u8]) -> Result<usize, Stopped> {
        match self.write(piece) {
            Ok(taken) if taken > 0 || piece.is_empty() => Ok(taken),
            _ => {
                self.faults = self.faults.saturating_add(1);
                Err(Stopped)
            }
        }
    }

    fn faults(&self) -> u64 {
        self.faults
    }
}

impl<'a> Keep for Kept<'a> {
    ghost kept = { λ _. None };

    fn take_record<T: UseStore>(&mut self, state: &Record<T>) -> Result<(), ToolFault> {
        put_record(state, self)
    }

    fn keep(&mut self) -> Result<(), Stopped> {
        match self.put_in_place() {
            Ok(()) => Ok(()),
            Err(_) => {
                self.faults = self.faults.saturating_add(1);
                Err(Stopped)
            }
        }
    }
}
