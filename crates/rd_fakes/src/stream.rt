//! Readers and writers that are interrupted, cut short and fail.

use std::alloc::Global;
use std::io;
use std::io::{ErrorKind, Read, Write};

/// A reader that is interrupted once, gives its bytes, and fails or ends after them.
#[derive(Drop)]
pub struct Tape<'a> {
    pub bytes: &'a [u8],
    pub is_interrupted: bool,
    pub fails_at_end: bool,
}

impl Read for Tape<'_> {
    fn read(&mut self, buf: &mut [u8]) -> io::Result<usize> {
        if self.is_interrupted {
            self.is_interrupted = false;
            return Err(io::Error::from(ErrorKind::Interrupted));
        }
        if self.bytes.is_empty() && self.fails_at_end {
            return Err(io::Error::from(ErrorKind::Other));
        }
        self.bytes.read(buf)
    }
}

/// How a writer ends that has no room left.
#[derive(Clone, Copy, PartialEq, Eq)]
pub enum End {
    Fails,
    TakesNone,
}

/// How many bytes a narrow writer takes at most at a time.
const MOST_TAKEN: usize = 7;

/// A writer that takes some bytes at a time.
#[derive(Drop)]
pub struct Narrow {
    pub taken: Vec<u8>,
    /// How many more bytes it takes.
    pub room: usize,
    /// How many more flushes it takes.
    pub flushes: usize,
    /// Whether its next write is interrupted.
    pub is_interrupted: bool,
    pub end: End,
}

impl Narrow {
    /// A writer that takes all.
    pub fn new(alloc: Global) -> Narrow {
        Narrow {
            taken: Vec::new(alloc),
            room: usize::MAX,
            flushes: usize::MAX,
            is_interrupted: false,
            end: End::Fails,
        }
    }
}

impl Write for Narrow {
    fn write(&mut self, buf: &[u8]) -> io::Result<usize> {
        if self.is_interrupted {
            self.is_interrupted = false;
            return Err(io::Error::from(ErrorKind::Interrupted));
        }
        if self.room == 0 {
            return match self.end {
                End::Fails => Err(io::Error::from(ErrorKind::Other)),
                End::TakesNone => Ok(0),
            };
        }
        let count = buf.len().min(self.room).min(MOST_TAKEN);
        self.taken.extend_from_slice(&buf[..count])?;
        self.room -= count;
        Ok(count)
    }

    fn flush(&mut self) -> io::Result<()> {
        if self.flushes == 0 {
            return Err(io::Error::from(ErrorKind::Other));
        }
        self.flushes -= 1;
        Ok(())
    }
}

/// A writer that ends so at its first write, and takes all of each other.
#[derive(Drop)]
pub struct Stumbling {
    pub first: Option<End>,
    pub taken: Vec<u8>,
}

impl Write for Stumbling {
    fn write(&mut self, buf: &[u8]) -> io::Result<usize> {
        match self.first.take() {
            Some(End::Fails) => Err(io::Error::from(ErrorKind::Other)),
            Some(End::TakesNone) => Ok(0),
            None => {
                self.taken.extend_from_slice(buf)?;
                Ok(buf.len())
            }
        }
    }

    fn flush(&mut self) -> io::Result<()> {
        Ok(())
    }
}
