//! The pieces of a new file.

ghost use Rattle.std.specs.Prelude.{◌≡◌, ◌↔◌, ◌+◌, ◌++◌, ℕ, List, IsTrue, IfSome};
ghost use Rattle.mp4_remux.specs.Pieces.{AreWithin, IsWithin, bytes_of, long};

/// A piece of a new file.
#[derive(Debug, Drop)]
pub enum Piece {
    /// New bytes.
    New(Vec<u8>),
    /// A range of the old file.
    Old {
        /// The position of its first byte.
        begin: u64,
        /// The position after its last byte.
        end: u64,
    },
}

impl Piece {
    /// Returns the number of bytes.
    pub fn length(&self) -> u64
        ensures { result ≡ long self.now }
    {
        match self {
            Piece::New(bytes) => bytes.len() as u64,
            Piece::Old { begin, end } => end.saturating_sub(*begin),
        }
    }

    /// Returns whether the piece is new, or a range of an old file of `length` bytes.
    pub fn is_within(&self, length: u64) -> bool
        ensures { IsTrue result ↔ IsWithin length self.now }
    {
        match self {
            Piece::New(_) => true,
            Piece::Old { begin, end } => *begin <= *end && *end <= length,
        }
    }

    /// Returns this piece and the piece `next` after it as one, if both are ranges of the old file and `next` begins
    /// where this one ends.
    pub fn joined(&self, next: &Piece) -> Option<Piece>
        ensures bytes { IfSome result
            (λ p. (B : List ℕ) → bytes_of B p ≡ bytes_of B self.now ++ bytes_of B next.now) }
        ensures length { IfSome result (λ p. long p ≡ long self.now + long next.now) }
    {
        match self {
            Piece::New(_) => None,
            Piece::Old { begin, end } => match next {
                Piece::New(_) => None,
                Piece::Old {
                    begin: after,
                    end: last,
                } => {
                    if *begin <= *end && *end == *after && *after <= *last {
                        Some(Piece::Old {
                            begin: *begin,
                            end: *last,
                        })
                    } else {
                        None
                    }
                }
            },
        }
    }
}

/// Returns whether each of `pieces` is new, or a range of an old file of `length` bytes.
pub fn are_within(pieces: &[Piece], length: u64) -> bool
    ensures { IsTrue result ↔ AreWithin length pieces.now }
{
    for piece in pieces {
        if !piece.is_within(length) {
            return false;
        }
    }
    true
}
