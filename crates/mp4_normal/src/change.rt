//! The changes of a stream.

ghost use Rattle.std.specs.Prelude.{◌≡◌, ◌≤◌, ◌++◌, [], length, take, drop, OnOk, IfErr};
ghost use Rattle.mp4_frame.specs.declared.error.Error.TheVariants.{OutOfMemory};
ghost use Rattle.mp4_normal.specs.Changes.{AreBefore, made_from, made_of};

use mp4_frame::Result;
use std::alloc::Global;

/// A part of a stream that new bytes replace.
#[derive(Clone, Copy)]
pub struct Change {
    /// The offset of the first replaced byte.
    pub begin: usize,
    /// The offset after the last replaced byte.
    pub end: usize,
    /// The end of the new bytes, as an offset in the new bytes of all changes. They begin where those of the change
    /// before end.
    pub to: usize,
}

/// The changes of a stream, from left to right.
#[derive(Drop)]
pub struct Changes {
    /// The new bytes of all changes.
    pub fresh: Vec<u8>,
    /// The changes.
    pub list: Vec<Change>,
    /// The number of replaced bytes.
    pub gone: usize,
    /// The largest excess of new bytes over replaced bytes, after any number of the changes.
    pub growth: usize,
}

impl Changes {
    /// Returns no changes.
    pub fn none(alloc: Global) -> Self
        ensures before { AreBefore result (length result.fresh.items) 0 }
        ensures list { result.list.items ≡ [] }
    {
        Changes {
            fresh: Vec::new(alloc),
            list: Vec::new(alloc),
            gone: 0,
            growth: 0,
        }
    }

    /// Replaces `stream[begin..end]` with the new bytes starting at `from`. If both are equal, nothing changes. The
    /// only error is out of memory.
    pub fn replace(&mut self, stream: &[u8], from: usize, begin: usize, end: usize) -> Result<()>
        requires order { begin ≤ end }
        requires within { end ≤ length stream.now }
        requires fresh { from ≤ length self.old.fresh.items }
        requires before { AreBefore self.old from begin }
        ensures made { OnOk result
            (made_of self.new stream.now end ≡ made_from (take from self.old.fresh.items) stream.now begin 0 0
            self.old.list.items ++ drop from self.old.fresh.items) }
        ensures before { OnOk result (AreBefore self.new (length self.new.fresh.items) end) }
        ensures error { IfErr result (λ e. e ≡ OutOfMemory) }
    {
        if self.fresh[from..] == stream[begin..end] {
            self.fresh.truncate(from);
            return Ok(());
        }
        let to = self.fresh.len();
        self.gone += end - begin;
        self.growth = self.growth.max(to.saturating_sub(self.gone));
        self.list.push(Change { begin, end, to })?;
        Ok(())
    }
}
