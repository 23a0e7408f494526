//! Sources of the bytes of a file.

ghost use Rattle.std.specs.Prelude.{◌≡◌, ℕ, List, None, Some, IfOk, OnOk, IfSome, length};
ghost use Rattle.std.specs.declared.option.Option.{Option};
ghost use Rattle.mp4_walk.specs.Source.{IsWindow};

use std::fs::File;
use std::io;
use std::io::{AsBytes, ErrorKind, Read, Seek, SeekFrom};

/// A source of bytes that can be read at any position.
pub trait Source: Drop {
    /// All bytes of the source, if they are known.
    ghost all: { Self → Option (List ℕ) } = { λ _. None };

    /// Returns the number of bytes.
    fn length(&mut self) -> io::Result<u64>
        ensures value { IfSome (all self.old) (λ B. IfOk result (λ n. n ≡ length B)) }
        ensures keeps { all self.new ≡ all self.old };

    /// Fills `buffer` with the bytes starting at position `at`. Fails with `UnexpectedEof` if the source has fewer.
    fn read_at(&mut self, at: u64, buffer: &mut [u8]) -> io::Result<()>
        ensures bytes { OnOk result (IfSome (all self.old) (λ B. IsWindow B at buffer.new)) }
        ensures keeps { all self.new ≡ all self.old };

    /// Returns all bytes of the source if they are in memory, so that callers can read them without a copy.
    fn in_memory(&self) -> Option<&[u8]>
        ensures bytes { IfSome result (λ bytes. all self.now ≡ Some bytes.now) }
    {
        None
    }
}

/// A file of the operating system. No clause says which bytes it has, since other programs may write to it.
impl Source for File {
    fn length(&mut self) -> io::Result<u64> {
        self.seek(SeekFrom::End(0))
    }

    fn read_at(&mut self, at: u64, buffer: &mut [u8]) -> io::Result<()> {
        self.seek(SeekFrom::Start(at))?;
        self.read_exact(buffer)
    }
}

/// Bytes in memory.
impl Source for &[u8] {
    ghost all = { λ s. Some s.now };

    fn length(&mut self) -> io::Result<u64> {
        Ok(self.len() as u64)
    }

    fn read_at(&mut self, at: u64, buffer: &mut [u8]) -> io::Result<()> {
        let all: &[u8] = *self;
        if at > all.len() as u64 {
            return Err(io::Error::from(ErrorKind::UnexpectedEof));
        }
        let mut rest = &all[at as usize..];
        rest.read_exact(buffer)
    }

    fn in_memory(&self) -> Option<&[u8]> {
        Some(*self)
    }
}

/// A borrowed source.
impl<S: Source> Source for &mut S {
    ghost all = { λ s. S.all s.now };

    fn length(&mut self) -> io::Result<u64> {
        S::length(*self)
    }

    fn read_at(&mut self, at: u64, buffer: &mut [u8]) -> io::Result<()> {
        S::read_at(*self, at, buffer)
    }

    fn in_memory(&self) -> Option<&[u8]> {
        S::in_memory(*self)
    }
}
