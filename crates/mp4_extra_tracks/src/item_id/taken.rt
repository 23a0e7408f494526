//! The number of an item.

ghost use Rattle.std.specs.Prelude.{◌≡◌, ◌*◌, ◌≤◌};
ghost use Rattle.mp4_extra_tracks.specs.ItemId.{item_width};
ghost use Rattle.mp4_shown.specs.TakenNumbers.{number_taken};

use super::ItemId;
use mp4_declared::Context;
use mp4_shown::taken::{Object, Result, TakeShape, take_number};
use mp4_shown::{NamedShape, NumberName};
use std::alloc::Global;

/// Returns the number of bits of the number of an item in `version`.
fn item_bits<const V: u8>(version: u8) -> u32
    ensures value { result ≡ 8 * item_width V version }
    ensures few { result ≤ 32 }
{
    if version < V { 16 } else { 32 }
}

impl<const V: u8> TakeShape for ItemId<V> {
    type Names = NumberName;

    type Taken = u32;

    ghost Known = { ⟦<ItemId<V> as NamedShape>⟧.Seen };

    ghost known = { ⟦<ItemId<V> as NamedShape>⟧.seen };

    ghost taken = { λ name c ms. number_taken name (8 * item_width V c.version) ms };

    fn take(
        alloc: Global,
        name: &NumberName,
        context: Context,
        object: &mut Object<'_>,
    ) -> Result<u32> {
        let bits = item_bits::<V>(context.version);
        Ok(take_number(alloc, *name, bits, object)? as u32)
    }
}
