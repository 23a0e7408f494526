//! Takes the box back out of its JSON.

ghost use Rattle.mp4_shown.specs.TakenShapes.{declared_taken};
ghost use Rattle.mp4_extra_sound.specs.declared.dops.TheConstants.{NAMES};
ghost use Rattle.mp4_extra_sound.specs.TakenDops.{mapping_taken};

use super::{ChannelMapping, Dops, DopsShown, NAMES};
use mp4_declared::{Context, DeclaredBox};
use mp4_frame::Entries;
use mp4_shown::taken::{
    Object, Result, TakeFields, TakeShape, push_number, take_bytes, take_declared, take_number,
};
use mp4_shown::{BytesName, NamedShape, NumberName};
use std::alloc::Global;

impl TakeShape for ChannelMapping {
    type Names = (NumberName, (NumberName, (BytesName, BytesName)));

    type Taken = Entries<u8>;

    ghost Known = { ⟦<ChannelMapping as NamedShape>⟧.Seen };

    ghost known = { ⟦<ChannelMapping as NamedShape>⟧.seen };

    ghost taken = { λ names c ms. mapping_taken names ms };

    fn take(
        alloc: Global,
        names: &(NumberName, (NumberName, (BytesName, BytesName))),
        _context: Context,
        object: &mut Object<'_>,
    ) -> Result<Entries<u8>> {
        let (streams, (coupled, (channels, too_few))) = *names;
        if !object.has(streams.0) {
            return Ok(take_bytes(alloc, too_few, object)?.into());
        }
        let mut bytes = Vec::new(alloc);
        push_number(take_number(alloc, streams, 8, object)?, 1, &mut bytes)?;
        push_number(take_number(alloc, coupled, 8, object)?, 1, &mut bytes)?;
        let rest = take_bytes(alloc, channels, object)?;
        bytes.extend_from_slice(rest.as_slice())?;
        Ok(bytes.into())
    }
}

impl TakeFields for Dops {
    ghost taken = { declared_taken ⟦<Dops as DeclaredBox>⟧.layout (⟦<DopsShown as TakeShape>⟧.taken NAMES.now) };

    fn take(alloc: Global, object: &mut Object<'_>) -> Result<Dops> {
        take_declared::<Dops, DopsShown>(alloc, NAMES, object)
    }
}
