//! The progress of a write, on a terminal.

ghost use Rattle.std.specs.Prelude.{◌≡◌};

use std::io;
use std::io::{IsTerminal, Write};
use std::time::Instant;

/// A writer that shows on a terminal how much of a file is written, once a second.
#[derive(Drop)]
pub struct Progress<W: Write> {
    /// The writer.
    pub inner: W,
    rt: HostRuntime,
    total: u64,
    written: u64,
    last: Option<Instant>,
    is_shown: bool,
}

impl<W: Write> Progress<W> {
    /// Returns a writer over `inner`, to which `total` bytes will be written.
    pub fn new(rt: &HostRuntime, inner: W, total: u64) -> Self
        ensures { result.inner ≡ inner }
    {
        let last = if rt.stderr().is_terminal() {
            Instant::now(rt).ok()
        } else {
            None
        };
        Progress {
            inner,
            rt: *rt,
            total,
            written: 0,
            last,
            is_shown: false,
        }
    }

    /// Shows how much is written.
    fn show(&mut self)
        ensures { self.new.inner ≡ self.old.inner }
    {
        let rt = self.rt;
        let parts = 100 * u128::from(self.written.min(self.total));
        let percent = parts / u128::from(self.total.max(1));
        let _ = eprint!(rt; "\rmp4remux: {percent} % written");
        self.is_shown = true;
        self.last = Instant::now(&rt).ok();
    }

    /// Counts `count` more bytes, and shows them if a second has passed.
    fn add(&mut self, count: usize)
        ensures { self.new.inner ≡ self.old.inner }
    {
        self.written = self.written.saturating_add(count as u64);
        let rt = self.rt;
        let Some(last) = self.last else {
            return;
        };
        match last.elapsed(&rt) {
            Ok(passed) if passed.as_secs() > 0 => self.show(),
            _ => {}
        }
    }

    /// Removes the line of the progress.
    pub fn clear(&mut self)
        ensures { self.new.inner ≡ self.old.inner }
    {
        if self.is_shown {
            let rt = self.rt;
            let _ = eprint!(rt; "\r\x1b[K");
            self.is_shown = false;
        }
    }
}

impl<W: Write> Write for Progress<W> {
    ghost contents = { λ s. W.contents s.inner };

    fn write(&mut self, buf: &[u8]) -> io::Result<usize> {
        match self.inner.write(buf) {
            Ok(count) => {
                self.add(count);
                Ok(count)
            }
            Err(error) => Err(error),
        }
    }

    fn flush(&mut self) -> io::Result<()> {
        self.inner.flush()
    }
}
