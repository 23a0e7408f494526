//! Unsigned numbers, times, and reserved bytes.

ghost use Rattle.std.specs.Prelude.{◌≡◌, ◌==◌, Ok, if◌then◌else◌};
ghost use Rattle.mp4_shown.specs.TakenNumbers.{number_taken};

use crate::taken::error::Result;
use crate::taken::number::take_number;
use crate::taken::object::Object;
use crate::taken::take::TakeShape;
use crate::{NamedShape, NumberName};
use mp4_declared::{Context, Time, U8, U16, U24, U32, U64, Zeros};
use std::alloc::Global;

impl TakeShape for U8 {
    type Names = NumberName;

    type Taken = u8;

    ghost Known = { ⟦<U8 as NamedShape>⟧.Seen };

    ghost known = { ⟦<U8 as NamedShape>⟧.seen };

    ghost taken = { λ name c ms. number_taken name 8 ms };

    fn take(
        alloc: Global,
        name: &NumberName,
        _context: Context,
        object: &mut Object<'_>,
    ) -> Result<u8> {
        Ok(take_number(alloc, *name, 8, object)? as u8)
    }
}

impl TakeShape for U16 {
    type Names = NumberName;

    type Taken = u16;

    ghost Known = { ⟦<U16 as NamedShape>⟧.Seen };

    ghost known = { ⟦<U16 as NamedShape>⟧.seen };

    ghost taken = { λ name c ms. number_taken name 16 ms };

    fn take(
        alloc: Global,
        name: &NumberName,
        _context: Context,
        object: &mut Object<'_>,
    ) -> Result<u16> {
        Ok(take_number(alloc, *name, 16, object)? as u16)
    }
}

impl TakeShape for U24 {
    type Names = NumberName;

    type Taken = u32;

    ghost Known = { ⟦<U24 as NamedShape>⟧.Seen };

    ghost known = { ⟦<U24 as NamedShape>⟧.seen };

    ghost taken = { λ name c ms. number_taken name 24 ms };

    fn take(
        alloc: Global,
        name: &NumberName,
        _context: Context,
        object: &mut Object<'_>,
    ) -> Result<u32> {
        Ok(take_number(alloc, *name, 24, object)? as u32)
    }
}

impl TakeShape for U32 {
    type Names = NumberName;

    type Taken = u32;

    ghost Known = { ⟦<U32 as NamedShape>⟧.Seen };

    ghost known = { ⟦<U32 as NamedShape>⟧.seen };

    ghost taken = { λ name c ms. number_taken name 32 ms };

    fn take(
        alloc: Global,
        name: &NumberName,
        _context: Context,
        object: &mut Object<'_>,
    ) -> Result<u32> {
        Ok(take_number(alloc, *name, 32, object)? as u32)
    }
}

impl TakeShape for U64 {
    type Names = NumberName;

    type Taken = u64;

    ghost Known = { ⟦<U64 as NamedShape>⟧.Seen };

    ghost known = { ⟦<U64 as NamedShape>⟧.seen };

    ghost taken = { λ name c ms. number_taken name 64 ms };

    fn take(
        alloc: Global,
        name: &NumberName,
        _context: Context,
        object: &mut Object<'_>,
    ) -> Result<u64> {
        take_number(alloc, *name, 64, object)
    }
}

/// Returns the number of bits of a time in `version`.
fn time_bits(version: u8) -> u32
    ensures { result ≡ (if version == 0 then 32 else 64) }
{
    if version == 0 { 32 } else { 64 }
}

impl TakeShape for Time {
    type Names = NumberName;

    type Taken = u64;

    ghost Known = { ⟦<Time as NamedShape>⟧.Seen };

    ghost known = { ⟦<Time as NamedShape>⟧.seen };

    ghost taken = { λ name c ms. number_taken name (if c.version == 0 then 32 else 64) ms };

    fn take(
        alloc: Global,
        name: &NumberName,
        context: Context,
        object: &mut Object<'_>,
    ) -> Result<u64> {
        take_number(alloc, *name, time_bits(context.version), object)
    }
}

/// Reserved bytes aren't shown, and have no member.
impl<const N: usize> TakeShape for Zeros<N> {
    type Names = ();

    type Taken = ();

    ghost Known = { ⟦<Zeros<N> as NamedShape>⟧.Seen };

    ghost known = { ⟦<Zeros<N> as NamedShape>⟧.seen };

    ghost taken = { λ names c ms. Ok (tt, ms) };

    fn take(
        _alloc: Global,
        _names: &(),
        _context: Context,
        _object: &mut Object<'_>,
    ) -> Result<()> {
        Ok(())
    }
}
