//! Takes the box back out of its JSON.

ghost use Rattle.mp4_declared.specs.OwnBox.{no_context};
ghost use Rattle.mp4_extra_tracks.specs.declared.urn.TheConstants as urn;
ghost use Rattle.std.specs.Prelude.{◌≡◌};
ghost use Rattle.mp4_shown.specs.Object.{left};
ghost use Rattle.mp4_extra_tracks.specs.TakenUrn.{location_taken, urn_taken};
ghost use Rattle.mp4_shown.specs.Taking.{TakesAs};

use super::Urn;
use crate::urn;
use mp4_declared::{Full, Last, Terminated};
use mp4_shown::taken::{NO_CONTEXT, Object, Result, TakeFields, TakeShape, take_bytes};
use std::alloc::Global;

/// The fields up to the name.
type Front = Full<1, Last<Terminated>>;

/// Takes the location out, with the byte of 0 that ends it. It is empty if it is absent.
fn take_location(alloc: Global, object: &mut Object<'_>) -> Result<Vec<u8>>
    ensures { TakesAs (λ bytes. (bytes.items, left object.new)) result (location_taken (left object.old)) }
{
    let name = urn::NAMES.1.1.1.0;
    if object.has(name.0) || object.has(name.2) {
        take_bytes(alloc, name, object)
    } else {
        Ok(Vec::new(alloc))
    }
}

impl TakeFields for Urn {
    ghost taken = { urn_taken (⟦<Front as TakeShape>⟧.taken
        (urn.NAMES.now.0, (urn.NAMES.now.1.0, (urn.NAMES.now.1.1.0, tt))) no_context) };

    fn take(alloc: Global, object: &mut Object<'_>) -> Result<Urn> {
        let names = (urn::NAMES.0, (urn::NAMES.1.0, (urn::NAMES.1.1.0, ())));
        let (version, (flags, (name, ()))) = Front::take(alloc, &names, NO_CONTEXT, object)?;
        let location = take_location(alloc, object)?.into();
        Ok(Urn {
            version,
            flags,
            name,
            location,
        })
    }
}
