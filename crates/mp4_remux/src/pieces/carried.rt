//! The origin of the bytes of a new file.

ghost use Rattle.std.specs.Prelude.{◌≡◌, ◌↔◌, ◌+◌, ◌<◌, ◌≤◌, IsTrue, length, take};
ghost use Rattle.mp4_remux.specs.Pieces.{Carries, after, after_old, lengths};

use crate::pieces::piece::Piece;

/// A run of `size` bytes of the new file. It begins `at` bytes after the place that a search has reached, and should
/// come from the position `from` of the old file.
#[derive(Clone, Copy)]
pub struct Run {
    /// The number of bytes before it.
    pub at: u64,
    /// The number of its bytes.
    pub size: u64,
    /// The position in the old file.
    pub from: u64,
}

/// Returns what is left of `run` after the range from `begin` to `end` of the old file, in which it begins. Returns
/// `None` if it comes from another position.
fn after_old(begin: u64, end: u64, run: Run) -> Option<Run>
    requires { begin + run.at < end }
    ensures { result ≡ after_old begin end run }
{
    if run.from < begin || run.from - begin != run.at {
        return None;
    }
    let part = (end - run.from).min(run.size);
    Some(Run {
        at: 0,
        size: run.size - part,
        from: run.from + part,
    })
}

/// Returns what is left of `run` after `piece`. Returns `None` if it begins in the piece and doesn't come from its
/// position of the old file.
fn after(piece: &Piece, run: Run) -> Option<Run>
    ensures { result ≡ after piece.now run }
{
    let long = piece.length();
    if long <= run.at {
        return Some(Run {
            at: run.at - long,
            size: run.size,
            from: run.from,
        });
    }
    match piece {
        Piece::New(_) => None,
        Piece::Old { begin, end } => after_old(*begin, *end, run),
    }
}

/// Returns whether `size` bytes of the new file at position `at` are those of the old file at position `from`, one by
/// one, by `pieces`. New bytes come from nowhere, whatever they are.
pub fn carries(pieces: &[Piece], at: u64, size: u64, from: u64) -> bool
    ensures { IsTrue result ↔ Carries pieces.now at size from }
{
    let mut run = Run { at, size, from };
    for piece in pieces {
        if run.size == 0 {
            return true;
        }
        match after(piece, run) {
            Some(next) => run = next,
            None => return false,
        }
    }
    run.size == 0
}

/// Returns the same as `carries`, but begins after the first `passed` pieces. These have `before` bytes, and the bytes
/// at `at` are after them.
pub fn carries_after(
    pieces: &[Piece],
    passed: usize,
    before: u64,
    at: u64,
    size: u64,
    from: u64,
) -> bool
    requires passed { passed ≤ length pieces.now }
    requires before { before ≡ lengths (take passed pieces.now) }
    requires order { before ≤ at }
    ensures { IsTrue result ↔ Carries pieces.now at size from }
{
    carries(&pieces[passed..], at - before, size, from)
}
