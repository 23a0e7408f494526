//! Readers and writers for tests: they move few bytes a call, count their calls, and fail at a chosen call.

use std::alloc::Global;
use std::io;
use std::io::{ErrorKind, Read, Write};

/// A reader over memory.
#[derive(Drop)]
pub struct Giver<'a> {
    rest: &'a [u8],
    most: usize,
    fails_at: Option<u64>,
    pub calls: u64,
}

impl<'a> Giver<'a> {
    /// Returns a reader that gives at most `most` bytes a call. The call with the number `fails_at` fails, where 1 is
    /// the first; with `None` no call fails.
    pub fn new(rest: &'a [u8], most: usize, fails_at: Option<u64>) -> Self {
        Giver {
            rest,
            most,
            fails_at,
            calls: 0,
        }
    }
}

impl Read for Giver<'_> {
    fn read(&mut self, buf: &mut [u8]) -> io::Result<usize> {
        self.calls = self.calls.saturating_add(1);
        if self.fails_at == Some(self.calls) {
            return Err(io::Error::from(ErrorKind::Interrupted));
        }
        let n = self.most.min(buf.len());
        self.rest.read(&mut buf[..n])
    }
}

/// A reader of a given number of zeros.
#[derive(Drop)]
pub struct Zeros {
    pub left: usize,
}

impl Read for Zeros {
    fn read(&mut self, buf: &mut [u8]) -> io::Result<usize> {
        let n = self.left.min(buf.len());
        buf[..n].fill(0);
        self.left -= n;
        Ok(n)
    }
}

/// A reader that never ends, and gives the same bytes in each call.
#[derive(Drop)]
pub struct Endless<'a> {
    pub piece: &'a [u8; 8],
    pub calls: u64,
}

impl Read for Endless<'_> {
    fn read(&mut self, buf: &mut [u8]) -> io::Result<usize> {
        self.calls = self.calls.saturating_add(1);
        let piece = self.piece;
        let n = piece.len().min(buf.len());
        buf[..n].copy_from_slice(&piece[..n]);
        Ok(n)
    }
}

/// The ways in which a call of a writer goes wrong.
#[derive(Clone, Copy, Debug, PartialEq, Eq)]
pub enum Refusal {
    /// The call fails.
    Fails,
    /// The call takes no byte.
    TakesNone,
}

/// A writer to memory.
#[derive(Drop)]
pub struct Taker {
    pub taken: Vec<u8>,
    most: usize,
    fails_at: Option<u64>,
    refusal: Refusal,
    pub calls: u64,
}

impl Taker {
    /// Returns a writer that takes at most `most` bytes a call. The call with the number `fails_at` goes wrong, where 1
    /// is the first; with `None` no call does.
    pub fn new(alloc: Global, most: usize, fails_at: Option<u64>, refusal: Refusal) -> Self {
        Taker {
            taken: Vec::new(alloc),
            most,
            fails_at,
            refusal,
            calls: 0,
        }
    }
}

impl Write for Taker {
    fn write(&mut self, buf: &[u8]) -> io::Result<usize> {
        self.calls = self.calls.saturating_add(1);
        if self.fails_at == Some(self.calls) {
            return match self.refusal {
                Refusal::Fails => Err(io::Error::from(ErrorKind::Interrupted)),
                Refusal::TakesNone => Ok(0),
            };
        }
        let n = self.most.min(buf.len());
        self.taken.write(&buf[..n])
    }

    fn flush(&mut self) -> io::Result<()> {
        self.calls = self.calls.saturating_add(1);
        if self.fails_at == Some(self.calls) {
            return Err(io::Error::from(ErrorKind::Interrupted));
        }
        Ok(())
    }
}
