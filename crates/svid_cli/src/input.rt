//! The inputs of the program.
ghost use Rattle.std.specs.Prelude.{◌≡◌, None, take};
ghost use Rattle.std.specs.Io.{ReadsAtMost};
ghost use Rattle.svid_cli.specs.Input.{first_after};

use std::fs::File;
use std::io::{Cursor, ErrorKind, Read, Stdin};
use std::time::Duration;
use std::{io, thread};
use svid_wire::{Source, Stopped};

/// Where bytes come from: standard input, a file, or bytes that the program made from one.
#[derive(Drop)]
pub enum Stream {
    Stdin(Stdin),
    File(File),
    Made(Cursor<Vec<u8>>),
}

/// An input of the program. Where it is non-blocking and has no bytes yet, the program looks again a hundred times a second.
#[derive(Drop)]
pub struct Input<'a> {
    rt: &'a HostRuntime,
    stream: Stream,
    first: Option<u8>,
    faults: u64,
}

// Waits for a source that is not ready, or passes on its result.
fn wait_for<R: Read>(rt: &HostRuntime, from: &mut R, room: &mut [u8]) -> io::Result<usize>
    ensures bound { ReadsAtMost result room.new }
{
    for _ in 0..u64::MAX {
        match from.read(room) {
            Err(error) if error.kind() == ErrorKind::WouldBlock => {
                thread::sleep(rt, Duration::from_millis(10));
            }
            answer => return answer,
        }
    }
    Err(io::Error::from(ErrorKind::WouldBlock))
}

// The first byte of an input after these bytes came, by the first byte before them.
fn first_after(first: Option<u8>, piece: &[u8]) -> Option<u8>
    ensures { result ≡ first_after first piece.now }
{
    match first {
        Some(byte) => Some(byte),
        None => piece.first().copied(),
    }
}

impl<'a> Input<'a> {
    /// An input before its first byte.
    pub fn new(rt: &'a HostRuntime, stream: Stream) -> Input<'a> {
        Input {
            rt,
            stream,
            first: None,
            faults: 0,
        }
    }

    /// The first byte, once one was read.
    pub fn first(&self) -> Option<u8>
        ensures { result ≡ self.now.first }
    {
        self.first
    }

    /// The bytes that the program made.
    pub fn made(&self) -> &[u8] {
        match &self.stream {
            Stream::Made(bytes) => bytes.get_ref(),
            _ => &[],
        }
    }

    fn read(&mut self, room: &mut [u8]) -> io::Result<usize>
        ensures bound { ReadsAtMost result room.new }
        ensures faults { self.new.faults ≡ self.old.faults }
        ensures first { self.new.first ≡ self.old.first }
    {
        match &mut self.stream {
            Stream::Stdin(stdin) => wait_for(self.rt, stdin, room),
            Stream::File(file) => wait_for(self.rt, file, room),
            Stream::Made(bytes) => bytes.read(room),
        }
    }
}

impl<'a> Source for Input<'a> {
    ghost left = { λ _. None };

    ghost stops = { λ i. i.faults };

    fn get(&mut self, room: &mut [u8]) -> Result<usize, Stopped> {
        match self.read(room) {
            Ok(given) => {
                self.first = first_after(self.first, &room[..given]);
                Ok(given)
            }
            Err(_) => {
                self.faults = self.faults.saturating_add(1);
                Err(Stopped)
            }
        }
    }

    fn faults(&self) -> u64 {
        self.faults
    }
}
