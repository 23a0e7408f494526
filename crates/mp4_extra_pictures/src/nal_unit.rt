//! Takes the NAL units of an `avcC` and of an `hvcC` back out of their JSON.

ghost use Rattle.json.specs.Value.{value_view};
ghost use Rattle.mp4_extra_pictures.specs.TakenUnits.{avc_unit, hevc_unit, unit_bytes};
ghost use Rattle.mp4_shown.specs.Taking.{TakesAs};

use crate::avcc::AvcNalUnit;
use crate::hvcc::HevcNalUnit;
use json::Value;
use mp4_declared::Context;
use mp4_frame::Entries;
use mp4_shown::taken::{Reason, Result, TakeEntry, hex_in, refuse};
use std::alloc::Global;

/// Returns the bytes of the NAL unit that `value` is, which a number of 16 bits counts.
fn unit_bytes(alloc: Global, value: &Value<'_>) -> Result<Entries<u8>>
    ensures { TakesAs (λ bytes. bytes) result (unit_bytes (value_view value.now)) }
{
    let bytes = hex_in(alloc, "", value)?;
    if bytes.len() < 1 << 16 {
        Ok(bytes.into())
    } else {
        Err(refuse(alloc, "", Reason::WrongLength))
    }
}

/// The entry is the bytes of the unit.
impl TakeEntry for HevcNalUnit {
    ghost taken = { λ c j. hevc_unit j };

    fn take(alloc: Global, _context: Context, value: Value<'_>) -> Result<HevcNalUnit> {
        let bytes = unit_bytes(alloc, &value)?;
        Ok(HevcNalUnit { bytes })
    }
}

/// The entry is the bytes of the unit.
impl TakeEntry for AvcNalUnit {
    ghost taken = { λ c j. avc_unit j };

    fn take(alloc: Global, _context: Context, value: Value<'_>) -> Result<AvcNalUnit> {
        let bytes = unit_bytes(alloc, &value)?;
        Ok(AvcNalUnit { bytes })
    }
}
