//! Lists of pieces of bytes, one after the other.

ghost use Rattle.std.specs.Prelude.{◌≡◌, ℕ, List, IfOk};
ghost use Rattle.json.specs.Json.{Json};
ghost use Rattle.json.specs.Value.{value_view};
ghost use Rattle.mp4_shown.specs.Lists.{seen_list};
ghost use Rattle.mp4_shown.specs.Runs.{seen_bytes};
ghost use Rattle.mp4_shown.specs.Object.{left};
ghost use Rattle.mp4_shown.specs.TakenPieces.{concat, pieces_in, pieces_taken};
ghost use Rattle.mp4_shown.specs.Taking.{Taking, TakesAs};

use crate::taken::each::{TakeItem, take_each};
use crate::taken::error::{Reason, Result, refuse};
use crate::taken::list::{number_of, take_list};
use crate::taken::object::Object;
use crate::taken::run::take_bytes;
use crate::{BytesName, ListName, Pieces};
use json::Value;
use mp4_frame::Entries;
use std::alloc::{AllocError, Global};

/// A kind of pieces that are taken out of JSON.
pub trait TakePieces: Pieces {
    /// The bytes that are taken from the value of an entry. The path of a member begins in the entry.
    ghost taken: { Self → Json → Taking (List ℕ) };

    /// Takes the bytes of a piece from the value of an entry.
    fn take(&self, alloc: Global, value: Value<'_>) -> Result<Entries<u8>>
        ensures { TakesAs (λ bytes. bytes) result (taken self.now (value_view value.entry)) };
}

/// An entry that is a piece.
#[derive(Drop)]
struct PieceItem<P> {
    pieces: P,
}

impl<P: TakePieces> TakeItem<Entries<u8>> for PieceItem<P> {
    ghost taken = { λ by j. P.TakePieces.taken by.pieces j };

    fn take(&self, alloc: Global, value: Value<'_>) -> Result<Entries<u8>> {
        self.pieces.take(alloc, value)
    }
}

/// Returns the bytes of all `pieces`.
fn joined(alloc: Global, pieces: &[Entries<u8>]) -> std::result::Result<Vec<u8>, AllocError>
    ensures { IfOk result (λ bytes. bytes.items ≡ concat pieces.now) }
{
    let mut bytes = Vec::new(alloc);
    for piece in pieces {
        bytes.extend_from_slice(piece.as_slice())?;
    }
    Ok(bytes)
}

/// Takes the list `name` of pieces out, which have to be `count`. Returns the bytes of all of them. `count_name` is the
/// name of the count.
fn take_listed<P: TakePieces>(
    alloc: Global,
    name: ListName,
    pieces: P,
    count_name: &str,
    count: u64,
    object: &mut Object<'_>,
) -> Result<Vec<u8>>
    ensures { TakesAs (λ bytes. (bytes.items, left object.new)) result
        (pieces_in (seen_list name.entry) (P.TakePieces.taken pieces) count_name.now count (left object.old)) }
{
    let items = take_list(alloc, name, object)?;
    if number_of(items.as_slice()) as u64 != count {
        return Err(refuse(alloc, count_name, Reason::Contradiction));
    }
    let taken: Vec<Entries<u8>> = take_each(alloc, name.0, &PieceItem { pieces }, items)?;
    Ok(joined(alloc, taken.as_slice())?)
}

/// Takes the pieces of a `PiecesOf` out: those of the list, which have to be `count`, and the bytes after them, or else
/// all bytes. `count_name` is the name of the count.
pub fn take_pieces<P: TakePieces>(
    alloc: Global,
    names: (ListName, (BytesName, BytesName)),
    pieces: P,
    count_name: &str,
    count: u64,
    object: &mut Object<'_>,
) -> Result<Entries<u8>>
    ensures { TakesAs (λ bytes. (bytes, left object.new)) result
        (pieces_taken (seen_list names.entry.0) (seen_bytes names.entry.1.0) (seen_bytes names.entry.1.1)
        (P.TakePieces.taken pieces) count_name.now count (left object.old)) }
{
    if !object.has(names.0.0) {
        return Ok(take_bytes(alloc, names.1.0, object)?.into());
    }
    let mut bytes = take_listed(alloc, names.0, pieces, count_name, count, object)?;
    let rest = take_bytes(alloc, names.1.1, object)?;
    bytes.extend_from_slice(rest.as_slice())?;
    Ok(bytes.into())
}
