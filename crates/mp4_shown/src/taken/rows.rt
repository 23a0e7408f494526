//! Counted lists of rows of bytes.

ghost use Rattle.std.specs.Prelude.{◌≡◌, ◌^◌};
ghost use Rattle.json.specs.Value.{value_view};
ghost use Rattle.mp4_shown.specs.TakenLists.{bytes_entry, entries_taken, list_below};
ghost use Rattle.mp4_shown.specs.TakenValues.{sized_hex_in};

use crate::taken::each::{TakeItem, take_each};
use crate::taken::error::{Reason, Result, refuse};
use crate::taken::list::take_list_of;
use crate::taken::object::Object;
use crate::taken::take::TakeShape;
use crate::{ListName, NamedShape};
use hex::{FromHex, FromHexError};
use json::Value;
use mp4_declared::{Context, Count, Rows};
use mp4_frame::Entries;
use std::alloc::Global;

/// Returns the `E` bytes whose hexadecimal digits are the text `value`.
fn row_in<const E: usize>(value: &Value<'_>) -> std::result::Result<[u8; E], Reason>
    ensures { result ≡ sized_hex_in E (value_view value.now) }
{
    let Some(digits) = value.as_str() else {
        return Err(Reason::NotHex);
    };
    match <[u8; E]>::from_hex(digits) {
        Ok(row) => Ok(row),
        Err(FromHexError::InvalidStringLength) => Err(Reason::WrongLength),
        Err(
            FromHexError::InvalidHexCharacter { .. }
            | FromHexError::OddLength
            | FromHexError::OutOfMemory,
        ) => Err(Reason::NotHex),
    }
}

/// An entry that is `E` bytes.
#[derive(Drop)]
struct BytesItem<const E: usize>;

impl<const E: usize> TakeItem<[u8; E]> for BytesItem<E> {
    ghost taken = { λ by j. bytes_entry E j };

    fn take(&self, alloc: Global, value: Value<'_>) -> Result<[u8; E]> {
        match row_in::<E>(&value) {
            Ok(row) => Ok(row),
            Err(reason) => Err(refuse(alloc, "", reason)),
        }
    }
}

impl<C: Count, const E: usize> TakeShape for Rows<C, E> {
    type Names = ListName;

    type Taken = Entries<[u8; E]>;

    ghost Known = { ⟦<Rows<C, E> as NamedShape>⟧.Seen };

    ghost known = { ⟦<Rows<C, E> as NamedShape>⟧.seen };

    ghost taken = { λ name c ms. entries_taken (bytes_entry E) name (list_below (256 ^ C.WIDTH) name ms) };

    fn take(
        alloc: Global,
        name: &ListName,
        _context: Context,
        object: &mut Object<'_>,
    ) -> Result<Entries<[u8; E]>> {
        let items = take_list_of::<C>(alloc, *name, object)?;
        let rows: Vec<[u8; E]> = take_each(alloc, name.0, &BytesItem::<E>, items)?;
        Ok(rows.into())
    }
}
