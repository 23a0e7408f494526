//! Returns a new file as rows of pieces and as new bytes, or the reason why there is none.

ghost use Rattle.std.specs.Prelude.{◌≡◌, ◌++◌, [], ◌∷◌, IfOk, OnOk, length};
ghost use Rattle.mp4_c.specs.NewFiles.{ArePieces, FillsFile, FillsReason, new_of, row_of};

use crate::text_part::put_front;
use mp4_c_boxes::status::{NO_ROOM, OK};
use mp4_remux::pieces::Piece;
use std::alloc::{AllocError, Global};

/// There is no such new file. No error and no other status has this number.
pub const REFUSED: u32 = 103;

/// A piece of a new file: bytes of the old file, or new bytes.
#[repr(C)]
#[derive(Clone, Copy)]
pub struct PieceRow {
    /// The position of its first byte, in the old file or in the array of the new bytes.
    pub position: u64,
    /// The number of its bytes.
    pub length: u64,
    /// 1 if it is in the array of the new bytes, 0 if it is in the old file.
    pub is_new: u8,
}

/// The numbers of elements of the arrays of a new file, and what was done.
#[repr(C)]
#[derive(Clone, Copy)]
pub struct NewFile {
    /// The number of pieces.
    pub piece_count: usize,
    /// The number of new bytes.
    pub new_bytes: usize,
    /// The number of bytes of the reason why there is no new file, or 0 if there is one.
    pub text_bytes: usize,
    /// The number of bytes of the new file.
    pub length: u64,
    /// The number of fragments that are made or joined.
    pub fragments: u64,
    /// The number of samples in new tables.
    pub samples: u64,
    /// The position of a moved `moov` in the old file.
    pub moved_from: u64,
    /// The position of a moved `moov` in the new file.
    pub moved_to: u64,
}

/// The pieces of a new file as rows, and its new bytes, one piece after the other.
#[derive(Drop)]
pub struct FoundFile {
    /// The rows.
    pub rows: Vec<PieceRow>,
    /// The new bytes.
    pub bytes: Vec<u8>,
}

/// Returns the row of `piece`, before which there are `at` new bytes.
fn row_of(at: usize, piece: &Piece) -> PieceRow
    ensures { result ≡ row_of at piece.now }
{
    match piece {
        Piece::New(bytes) => PieceRow {
            position: at as u64,
            length: bytes.len() as u64,
            is_new: 1,
        },
        Piece::Old { begin, end } => PieceRow {
            position: *begin,
            length: end.saturating_sub(*begin),
            is_new: 0,
        },
    }
}

/// Appends the bytes of `piece` to `bytes` if they are new.
fn push_new(piece: &Piece, bytes: &mut Vec<u8>) -> Result<(), AllocError>
    ensures { OnOk result (bytes.new.items ≡ bytes.old.items ++ new_of piece.now) }
{
    match piece {
        Piece::New(new) => bytes.extend_from_slice(new),
        Piece::Old { begin: _, end: _ } => Ok(()),
    }
}

/// Appends the row of `piece` and its new bytes to `found`.
fn push_piece(piece: &Piece, found: &mut FoundFile) -> Result<(), AllocError>
    ensures rows { OnOk result
        (found.new.rows.items ≡ found.old.rows.items ++ row_of (length found.old.bytes.items) piece.now ∷ []) }
    ensures bytes { OnOk result (found.new.bytes.items ≡ found.old.bytes.items ++ new_of piece.now) }
{
    let row = row_of(found.bytes.len(), piece);
    push_new(piece, &mut found.bytes)?;
    found.rows.push(row)?;
    Ok(())
}

/// Returns the rows of `pieces` and their new bytes.
pub(crate) fn found_file(alloc: Global, pieces: &[Piece]) -> Result<FoundFile, AllocError>
    ensures { IfOk result (λ found. ArePieces pieces.now found) }
{
    let mut found = FoundFile {
        rows: Vec::new(alloc),
        bytes: Vec::new(alloc),
    };
    for piece in pieces {
        push_piece(piece, &mut found)?;
    }
    Ok(found)
}

/// Copies `found` to the fronts of `pieces` and `bytes`. Returns `OK`, or `NO_ROOM` if one of the arrays is too short;
/// both then stay as they are.
pub(crate) fn fill_file(found: &FoundFile, pieces: &mut [PieceRow], bytes: &mut [u8]) -> u32
    ensures { FillsFile result found.now pieces.old pieces.new bytes.old bytes.new }
{
    if pieces.len() < found.rows.len() || bytes.len() < found.bytes.len() {
        return NO_ROOM;
    }
    put_front(pieces, &found.rows);
    put_front(bytes, &found.bytes);
    OK
}

/// Copies `reason` to the front of `text`. Returns `REFUSED`, or `NO_ROOM` if `text` is too short, which then stays as
/// it is.
pub(crate) fn fill_reason(reason: &[u8], text: &mut [u8]) -> u32
    ensures { FillsReason result reason.now text.old text.new }
{
    if text.len() < reason.len() {
        return NO_ROOM;
    }
    put_front(text, reason);
    REFUSED
}
