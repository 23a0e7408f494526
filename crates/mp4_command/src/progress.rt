//! The progress of a run over many files, on a terminal.

ghost use Rattle.std.specs.Prelude.{◌≡◌, ◌+◌, ◌-◌, ◌^◌, min};

use std::io::IsTerminal;
use std::time::Instant;

/// Shows on standard error how many files are read, once a second.
#[derive(Drop)]
pub struct FileProgress {
    rt: HostRuntime,
    total: usize,
    /// The number of files that are read.
    pub done: usize,
    last: Option<Instant>,
    is_shown: bool,
}

impl FileProgress {
    /// Returns the progress of a run over `total` files. Nothing is shown unless `wanted`, standard error is a terminal
    /// and there are several files.
    pub fn new(rt: &HostRuntime, total: usize, wanted: bool) -> Self
        ensures { result.done ≡ 0 }
    {
        let last = if wanted && total > 1 && rt.stderr().is_terminal() {
            Instant::now(rt).ok()
        } else {
            None
        };
        FileProgress {
            rt: *rt,
            total,
            done: 0,
            last,
            is_shown: false,
        }
    }

    /// Shows how many files are read. The cursor stays at the beginning of the line, so that a message or an output,
    /// which is longer, replaces the line.
    fn show(&mut self)
        ensures { self.new.done ≡ self.old.done }
    {
        let rt = self.rt;
        let _ = eprint!(rt; "{} of {} files\r", self.done, self.total);
        self.is_shown = true;
        self.last = Instant::now(&rt).ok();
    }

    /// Counts a file that is read, and shows the progress if a second has passed.
    pub fn add(&mut self)
        ensures { self.new.done ≡ min (self.old.done + 1) (2 ^ 64 - 1) }
    {
        self.done = self.done.saturating_add(1);
        let rt = self.rt;
        let Some(last) = self.last else {
            return;
        };
        match last.elapsed(&rt) {
            Ok(passed) if passed.as_secs() > 0 => self.show(),
            _ => {}
        }
    }

    /// Removes the line of the progress.
    pub fn clear(&mut self)
        ensures { self.new.done ≡ self.old.done }
    {
        if self.is_shown {
            let rt = self.rt;
            let _ = eprint!(rt; "\x1b[K");
            self.is_shown = false;
        }
    }
}
