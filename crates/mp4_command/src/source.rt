//! A source that keeps its errors.

ghost use Rattle.std.specs.Prelude.{◌≡◌, None, IfOk, IfSome, OnOk, length};
ghost use Rattle.mp4_command.specs.LastError.{last_error};
ghost use Rattle.mp4_walk.specs.Source.{IsWindow};

use mp4_walk::Source;
use std::io;

/// A source that keeps the error of the last failed call.
#[derive(Drop)]
pub struct Kept<S: Source> {
    /// The source.
    inner: S,
    /// The error of the last failed call, if there was one.
    pub error: Option<io::Error>,
}

impl<S: Source> Kept<S> {
    /// Returns a source over `inner`, of which no call has failed.
    pub fn new(inner: S) -> Self
        ensures source { result.inner ≡ inner }
        ensures error { result.error ≡ None }
    {
        Kept { inner, error: None }
    }
}

impl<S: Source> Source for Kept<S> {
    ghost all = { λ s. S.all s.inner };

    fn length(&mut self) -> io::Result<u64>
        ensures value { IfSome (S.all self.old.inner) (λ B. IfOk result (λ n. n ≡ length B)) }
        ensures keeps { S.all self.new.inner ≡ S.all self.old.inner }
        ensures error { self.new.error ≡ last_error self.old.error result }
    {
        match self.inner.length() {
            Ok(length) => Ok(length),
            Err(error) => {
                self.error = Some(error);
                Err(error)
            }
        }
    }

    fn read_at(&mut self, at: u64, buffer: &mut [u8]) -> io::Result<()>
        ensures bytes { OnOk result (IfSome (S.all self.old.inner) (λ B. IsWindow B at buffer.new)) }
        ensures keeps { S.all self.new.inner ≡ S.all self.old.inner }
        ensures error { self.new.error ≡ last_error self.old.error result }
    {
        match self.inner.read_at(at, buffer) {
            Ok(()) => Ok(()),
            Err(error) => {
                self.error = Some(error);
                Err(error)
            }
        }
    }

    fn in_memory(&self) -> Option<&[u8]> {
        self.inner.in_memory()
    }
}
