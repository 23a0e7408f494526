//! The two ends of a run: a reader and a writer, each with a mark that is set once a call of it has failed.

ghost use Rattle.std.specs.Prelude.{◌≡◌, ◌≤◌, ◌||◌, false, length, is_none, IfSome};
ghost use Rattle.mp4_io.specs.Ends.{Pulls, Pushes};

use std::io::{Read, Write};

/// The input: a reader, with a mark for failed calls.
#[derive(Drop)]
pub struct Input<R: Read> {
    /// The reader.
    pub inner: R,
    /// True if a call of the reader has failed. Once set, the mark stays set.
    pub failed: bool,
}

/// The output: a writer, with a mark for failed calls.
#[derive(Drop)]
pub struct Output<W: Write> {
    /// The writer.
    pub inner: W,
    /// True if a call of the writer has failed, or has taken no byte of a piece that is not empty. Once set, the mark
    /// stays set.
    pub failed: bool,
}

impl<R: Read> Input<R> {
    /// Returns the input from `inner`, of which no call has failed.
    pub fn new(inner: R) -> Self
        ensures inner { result.inner ≡ inner }
        ensures failed { result.failed ≡ false }
    {
        Input {
            inner,
            failed: false,
        }
    }

    /// Reads once, into the front of `buf`, and returns the number of bytes read: 0 at the end of the input, or if
    /// `buf` is empty. Returns `None` if the call failed or was interrupted.
    pub fn pull(&mut self, buf: &mut [u8]) -> Option<usize>
        ensures bound { IfSome result (λ n. n ≤ length buf.new) }
        ensures bytes { Pulls (R.remaining self.old.inner) (R.remaining self.new.inner) result buf.new }
        ensures failed { self.new.failed ≡ (self.old.failed || is_none result) }
    {
        match self.inner.read(buf) {
            Ok(n) => Some(n),
            Err(_) => {
                self.failed = true;
                None
            }
        }
    }
}

impl<W: Write> Output<W> {
    /// Returns the output to `inner`, of which no call has failed.
    pub fn new(inner: W) -> Self
        ensures inner { result.inner ≡ inner }
        ensures failed { result.failed ≡ false }
    {
        Output {
            inner,
            failed: false,
        }
    }

    /// Writes once, from the front of `piece`, and returns the number of bytes taken. Returns `None` if the call failed
    /// or was interrupted, or if it took no byte of a piece that is not empty.
    pub fn push(&mut self, piece: &[u8]) -> Option<usize>
        ensures bound { IfSome result (λ n. n ≤ length piece.now) }
        ensures bytes { Pushes (W.contents self.old.inner) (W.contents self.new.inner) result piece.now }
        ensures failed { self.new.failed ≡ (self.old.failed || is_none result) }
    {
        match self.inner.write(piece) {
            Ok(n) if n > 0 || piece.is_empty() => Some(n),
            _ => {
                self.failed = true;
                None
            }
        }
    }
}
