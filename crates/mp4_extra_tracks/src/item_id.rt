//! The number of an item.

ghost use Rattle.mp4_declared.specs.Shape.{number_shape};
ghost use Rattle.mp4_declared.specs.ShapeLaws.{number_laws};
ghost use Rattle.mp4_extra_tracks.specs.ItemId.{item_width};
ghost use Rattle.mp4_shown.specs.Members.{whole_number};
ghost use Rattle.mp4_shown.specs.Numbers.{NumberName as SeenName, seen_number, shown_number};
ghost use Rattle.std.specs.Prelude.{◌≡◌};

mod taken;

use mp4_declared::{Context, PutShape, Shape};
use mp4_frame::{Result, put_u16, put_u32, u16_at, u32_at};
use mp4_shown::{FieldSink, NamedShape, NumberName, ShowShape, View, put_number};
use std::alloc::Global;

/// The number of an item, or a number of items: 16 bits in versions below `V`, and 32 bits in later versions.
pub struct ItemId<const V: u8>;

/// Returns the number of bytes of the number of an item in `version`.
#[inline]
fn item_width<const V: u8>(version: u8) -> usize
    ensures { result ≡ item_width V version }
{
    if version < V { 2 } else { 4 }
}

impl<const V: u8> Shape for ItemId<V> {
    type Value = u32;

    ghost shape = { number_shape (λ c. item_width V c.version) };

    ghost shape_laws = { number_laws (λ c. item_width V c.version) };

    #[inline]
    fn is_fixed() -> bool {
        true
    }

    #[inline]
    fn front(context: Context) -> usize {
        item_width::<V>(context.version)
    }

    #[inline]
    fn read(
        _alloc: Global,
        bytes: &[u8],
        at: usize,
        _end: u64,
        context: Context,
    ) -> Result<(u32, usize)> {
        if context.version < V {
            Ok((u16_at(bytes, at).into(), at + 2))
        } else {
            Ok((u32_at(bytes, at), at + 4))
        }
    }
}

impl<const V: u8> PutShape<u32> for ItemId<V> {
    ghost content = { λ n. n };

    #[inline]
    fn size(context: Context, _value: u32) -> u64 {
        item_width::<V>(context.version) as u64
    }

    #[inline]
    fn fits(context: Context, value: u32) -> bool {
        V <= context.version || value < 1 << 16
    }

    #[inline]
    fn put(out: &mut [u8], at: usize, context: Context, value: u32) -> usize {
        if context.version < V {
            put_u16(out, at, value as u16)
        } else {
            put_u32(out, at, value)
        }
    }
}

impl<const V: u8> NamedShape for ItemId<V> {
    type Value = u32;

    type Names = NumberName;

    ghost Seen = { SeenName };

    ghost seen = { seen_number };

    ghost shown = { λ name view n. shown_number name n };

    ghost whole = { λ name view n. whole_number name n };
}

impl<const V: u8> ShowShape<u32> for ItemId<V> {
    ghost content = { λ n. n };

    fn show<K: FieldSink>(
        name: &NumberName,
        _view: View,
        value: &u32,
        sink: &mut K,
    ) -> mp4_shown::Result<()> {
        put_number(*name, u64::from(*value), sink)
    }
}
