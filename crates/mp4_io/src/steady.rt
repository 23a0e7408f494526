//! A reader or a writer of the system that repeats calls after a signal, and keeps the error of a failed call.

ghost use Rattle.std.specs.Prelude.{◌≡◌, ◌≢◌, ◌↔◌, Some, IfErr, IsTrue, length};
ghost use Rattle.std.specs.IoError.{error_kind};
ghost use Rattle.std.specs.Io.{ReadsAtMost, WritesAtMost};
ghost use Rattle.std.specs.Io.KnownBytes.{Keeps, ReadConsumes, WriteAppends};
ghost use Rattle.mp4_io.specs.Steady.{IsClosed};

use std::io;
use std::io::{ErrorKind, Read, Write};

/// A reader or a writer that repeats interrupted calls, and keeps the last error.
#[derive(Drop)]
pub struct Steady<T> {
    /// The reader or the writer.
    pub inner: T,
    /// The error of the last failed call, if there was one.
    pub error: Option<io::Error>,
}

/// Returns whether `error` says that a signal interrupted the call.
fn is_interrupted(error: &io::Error) -> bool
    ensures { IsTrue result ↔ (error_kind error.now ≡ ErrorKind.Interrupted) }
{
    error.kind() == ErrorKind::Interrupted
}

/// Returns whether `error` says that the reader of a pipe has closed it.
pub fn is_closed_pipe(error: &io::Error) -> bool
    ensures { IsTrue result ↔ (error_kind error.now ≡ ErrorKind.BrokenPipe) }
{
    error.kind() == ErrorKind::BrokenPipe
}

/// Returns the error for a call that was interrupted 2^64 times.
fn never_ends() -> io::Error
    ensures { error_kind result ≡ ErrorKind.TimedOut }
{
    io::Error::from(ErrorKind::TimedOut)
}

impl<T> Steady<T> {
    /// Returns a reader or a writer over `inner`, of which no call has failed.
    pub fn new(inner: T) -> Self
        ensures inner { result.inner ≡ inner }
        ensures error { result.error ≡ None }
    {
        Steady { inner, error: None }
    }

    /// Returns whether the last call that failed was a write to a closed pipe.
    pub fn is_closed(&self) -> bool
        ensures { IsTrue result ↔ IsClosed self.now.error }
    {
        match &self.error {
            Some(error) => is_closed_pipe(error),
            None => false,
        }
    }

    /// Stores `error`, and returns it.
    fn keep(&mut self, error: io::Error) -> io::Error
        ensures kept { self.new.error ≡ Some error }
        ensures same { (result ≡ error) × (self.new.inner ≡ self.old.inner) }
    {
        self.error = Some(error);
        error
    }
}

impl<R: Read> Read for Steady<R> {
    ghost remaining = { λ s. R.remaining s.inner };

    fn read(&mut self, buf: &mut [u8]) -> io::Result<usize>
        ensures bound { ReadsAtMost result buf.new }
        ensures bytes { ReadConsumes (R.remaining self.old.inner) (R.remaining self.new.inner) result buf.new }
        ensures retried { IfErr result (λ e. error_kind e ≢ ErrorKind.Interrupted) }
        ensures kept { IfErr result (λ e. self.new.error ≡ Some e) }
    {
        for _ in 0..u64::MAX {
            match self.inner.read(buf) {
                Ok(n) => return Ok(n),
                Err(error) => {
                    if !is_interrupted(&error) {
                        return Err(self.keep(error));
                    }
                }
            }
        }
        Err(self.keep(never_ends()))
    }
}

impl<W: Write> Write for Steady<W> {
    ghost contents = { λ s. W.contents s.inner };

    fn write(&mut self, buf: &[u8]) -> io::Result<usize>
        ensures bound { WritesAtMost result buf.now }
        ensures bytes { WriteAppends (W.contents self.old.inner) (W.contents self.new.inner) result buf.now }
        ensures retried { IfErr result (λ e. error_kind e ≢ ErrorKind.Interrupted) }
        ensures kept { IfErr result (λ e. self.new.error ≡ Some e) }
    {
        for _ in 0..u64::MAX {
            match self.inner.write(buf) {
                Ok(n) => return Ok(n),
                Err(error) => {
                    if !is_interrupted(&error) {
                        return Err(self.keep(error));
                    }
                }
            }
        }
        Err(self.keep(never_ends()))
    }

    fn flush(&mut self) -> io::Result<()>
        ensures bytes { Keeps (W.contents self.old.inner) (W.contents self.new.inner) }
        ensures retried { IfErr result (λ e. error_kind e ≢ ErrorKind.Interrupted) }
        ensures kept { IfErr result (λ e. self.new.error ≡ Some e) }
    {
        for _ in 0..u64::MAX {
            match self.inner.flush() {
                Ok(()) => return Ok(()),
                Err(error) => {
                    if !is_interrupted(&error) {
                        return Err(self.keep(error));
                    }
                }
            }
        }
        Err(self.keep(never_ends()))
    }
}
