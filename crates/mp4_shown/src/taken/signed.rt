//! Signed numbers and times.

ghost use Rattle.std.specs.Prelude.{◌≡◌, ◌==◌, ◌^◌, ◌-◌, pos, negsuc, if◌then◌else◌};
ghost use Rattle.mp4_shown.specs.TakenNumbers.{signed_taken};

use crate::taken::error::Result;
use crate::taken::number::take_signed;
use crate::taken::object::Object;
use crate::taken::take::TakeShape;
use crate::{NamedShape, NumberName};
use mp4_declared::{Context, I8, I16, I32, SignedTime};
use std::alloc::Global;

impl TakeShape for I8 {
    type Names = NumberName;

    type Taken = i8;

    ghost Known = { ⟦<I8 as NamedShape>⟧.Seen };

    ghost known = { ⟦<I8 as NamedShape>⟧.seen };

    ghost taken = { λ name c ms. signed_taken name (negsuc (2 ^ 7 - 1)) (pos (2 ^ 7 - 1)) ms };

    fn take(
        alloc: Global,
        name: &NumberName,
        _context: Context,
        object: &mut Object<'_>,
    ) -> Result<i8> {
        Ok(take_signed(alloc, *name, -(1 << 7), (1 << 7) - 1, object)? as i8)
    }
}

impl TakeShape for I16 {
    type Names = NumberName;

    type Taken = i16;

    ghost Known = { ⟦<I16 as NamedShape>⟧.Seen };

    ghost known = { ⟦<I16 as NamedShape>⟧.seen };

    ghost taken = { λ name c ms. signed_taken name (negsuc (2 ^ 15 - 1)) (pos (2 ^ 15 - 1)) ms };

    fn take(
        alloc: Global,
        name: &NumberName,
        _context: Context,
        object: &mut Object<'_>,
    ) -> Result<i16> {
        Ok(take_signed(alloc, *name, -(1 << 15), (1 << 15) - 1, object)? as i16)
    }
}

impl TakeShape for I32 {
    type Names = NumberName;

    type Taken = i32;

    ghost Known = { ⟦<I32 as NamedShape>⟧.Seen };

    ghost known = { ⟦<I32 as NamedShape>⟧.seen };

    ghost taken = { λ name c ms. signed_taken name (negsuc (2 ^ 31 - 1)) (pos (2 ^ 31 - 1)) ms };

    fn take(
        alloc: Global,
        name: &NumberName,
        _context: Context,
        object: &mut Object<'_>,
    ) -> Result<i32> {
        Ok(take_signed(alloc, *name, -(1 << 31), (1 << 31) - 1, object)? as i32)
    }
}

/// Returns the least signed time in `version`.
fn least(version: u8) -> i64
    ensures { result ≡ (if version == 0 then negsuc (2 ^ 31 - 1) else negsuc (2 ^ 63 - 1)) }
{
    if version == 0 { -(1 << 31) } else { i64::MIN }
}

/// Returns the largest signed time in `version`.
fn most(version: u8) -> i64
    ensures { result ≡ (if version == 0 then pos (2 ^ 31 - 1) else pos (2 ^ 63 - 1)) }
{
    if version == 0 {
        (1 << 31) - 1
    } else {
        i64::MAX
    }
}

impl TakeShape for SignedTime {
    type Names = NumberName;

    type Taken = i64;

    ghost Known = { ⟦<SignedTime as NamedShape>⟧.Seen };

    ghost known = { ⟦<SignedTime as NamedShape>⟧.seen };

    ghost taken = { λ name c ms. signed_taken name (if c.version == 0 then negsuc (2 ^ 31 - 1) else negsuc (2 ^ 63 - 1))
        (if c.version == 0 then pos (2 ^ 31 - 1) else pos (2 ^ 63 - 1)) ms };

    fn take(
        alloc: Global,
        name: &NumberName,
        context: Context,
        object: &mut Object<'_>,
    ) -> Result<i64> {
        let version = context.version;
        take_signed(alloc, *name, least(version), most(version), object)
    }
}
