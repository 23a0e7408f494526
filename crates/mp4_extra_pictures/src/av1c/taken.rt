//! Takes the box back out of its JSON.

ghost use Rattle.std.specs.Prelude.{◌≡◌};
ghost use Rattle.mp4_extra_pictures.specs.TakenAv1c.{av1c_taken, config_taken, delay_is_present};
ghost use Rattle.mp4_shown.specs.Object.{left};
ghost use Rattle.mp4_shown.specs.Taking.{TakesAs};

use super::{Av1Config, Av1c};
use crate::av1c;
use mp4_declared::{Bits, EntryLayout};
use mp4_shown::taken::{NO_CONTEXT, Object, Result, TakeFields, take_bytes, take_named_by};
use std::alloc::Global;

/// The flag that says how the last four bits are named.
const DELAY_PRESENT: &str = "initial_presentation_delay_present";

/// Returns whether the flag says that a delay is present.
fn delay_is_present(object: &Object<'_>) -> bool
    ensures { result ≡ delay_is_present (left object.now) }
{
    match object.number(DELAY_PRESENT) {
        Some(number) => number == 1,
        None => false,
    }
}

/// Takes the configuration out.
fn take_config(alloc: Global, object: &mut Object<'_>) -> Result<Av1Config>
    ensures { TakesAs (λ config. (config, left object.new)) result
        (config_taken ⟦<Av1Config as EntryLayout<14, 4>>⟧.layout (left object.old)) }
{
    let is_present = delay_is_present(object);
    take_named_by::<Bits<Av1Config, 14, 4>>(alloc, &av1c::NAMES.0, NO_CONTEXT, is_present, object)
}

impl TakeFields for Av1c {
    ghost taken = { av1c_taken ⟦<Av1Config as EntryLayout<14, 4>>⟧.layout };

    fn take(alloc: Global, object: &mut Object<'_>) -> Result<Av1c> {
        let config = take_config(alloc, object)?;
        let config_obus = take_bytes(alloc, av1c::NAMES.1.0, object)?.into();
        Ok(Av1c {
            config,
            config_obus,
        })
    }
}
