//! Takes the box back out of its JSON.

ghost use Rattle.mp4_declared.specs.OwnBox.{no_context};
ghost use Rattle.mp4_extra_pictures.specs.declared.avcc.TheConstants as avcc;
ghost use Rattle.mp4_extra_pictures.specs.TakenAvcc.{avcc_taken, end_taken, sets_taken};
ghost use Rattle.mp4_shown.specs.Object.{left};
ghost use Rattle.mp4_shown.specs.TakenShapes.{made_of};
ghost use Rattle.mp4_shown.specs.Taking.{TakesAs};

use super::{AvcConfig, AvcExtension, AvcExtensionShape, AvcNalUnit, Avcc, has_format};
use crate::avcc;
use crate::tail::AtEnd;
use mp4_declared::{Bits, DeclaredEntry, Each, EntryLayout, U8};
use mp4_frame::Entries;
use mp4_shown::taken::{
    NO_CONTEXT, Object, Reason, Result, TakeFields, TakeShape, refuse, take_bytes,
};
use std::alloc::Global;

/// A field of the format of samples, by which it is known.
const CHROMA_FORMAT: &str = "chroma_format";

/// Takes the sequence parameter sets out, which have to be `count`.
fn take_sets(alloc: Global, count: u8, object: &mut Object<'_>) -> Result<Entries<AvcNalUnit>>
    ensures { TakesAs (λ sets. (sets, left object.new)) result
        (sets_taken (⟦<Each<U8, AvcNalUnit> as TakeShape>⟧.taken avcc.NAMES.now.1.0 no_context) count
        (left object.old)) }
{
    let name = avcc::NAMES.1.0;
    let sets = Each::<U8, AvcNalUnit>::take(alloc, &name, NO_CONTEXT, object)?;
    if sets.len() == usize::from(count) {
        Ok(sets)
    } else {
        Err(refuse(alloc, name.0, Reason::WrongCount))
    }
}

/// Takes the format of samples out, and what follows it.
fn take_extension(alloc: Global, object: &mut Object<'_>) -> Result<AvcExtension>
    ensures { TakesAs (λ extension. (extension, left object.new)) result
        (made_of ⟦<AvcExtension as DeclaredEntry>⟧.layout.value
        (⟦<AvcExtensionShape as TakeShape>⟧.taken avcc.EXTENSION.now no_context) (left object.old)) }
{
    let content = AvcExtensionShape::take(alloc, avcc::EXTENSION, NO_CONTEXT, object)?;
    Ok(AvcExtension::from_content(content))
}

/// Takes the end of a configuration of this `profile` out: the format of samples if it is present, or else other bytes.
/// Four other bytes would be read as the format of samples.
fn take_end(
    alloc: Global,
    profile: u8,
    object: &mut Object<'_>,
) -> Result<AtEnd<AvcExtension, Entries<u8>>>
    ensures { TakesAs (λ end. (end, left object.new)) result
        (end_taken (made_of ⟦<AvcExtension as DeclaredEntry>⟧.layout.value
        (⟦<AvcExtensionShape as TakeShape>⟧.taken avcc.EXTENSION.now no_context)) profile (left object.old)) }
{
    if has_format(profile) && object.has(CHROMA_FORMAT) {
        return Ok(AtEnd::Known(take_extension(alloc, object)?));
    }
    let name = avcc::NAMES.1.1.1.0;
    let bytes = take_bytes(alloc, name, object)?;
    if has_format(profile) && 4 <= bytes.len() {
        return Err(refuse(alloc, name.0, Reason::WrongLength));
    }
    Ok(AtEnd::Other(bytes.into()))
}

impl TakeFields for Avcc {
    ghost taken = { avcc_taken ⟦<AvcConfig as EntryLayout<8, 6>>⟧.layout
        (λ name. ⟦<Each<U8, AvcNalUnit> as TakeShape>⟧.taken name no_context)
        (made_of ⟦<AvcExtension as DeclaredEntry>⟧.layout.value
        (⟦<AvcExtensionShape as TakeShape>⟧.taken avcc.EXTENSION.now no_context)) };

    fn take(alloc: Global, object: &mut Object<'_>) -> Result<Avcc> {
        let config = Bits::<AvcConfig, 8, 6>::take(alloc, &avcc::NAMES.0, NO_CONTEXT, object)?;
        let sequence_parameter_sets = take_sets(
            alloc,
            config.num_of_sequence_parameter_sets,
            object,
        )?;
        let picture_parameter_sets = Each::<U8, AvcNalUnit>::take(
            alloc,
            &avcc::NAMES.1.1.0,
            NO_CONTEXT,
            object,
        )?;
        let extension = take_end(alloc, config.avc_profile_indication, object)?;
        Ok(Avcc {
            config,
            sequence_parameter_sets,
            picture_parameter_sets,
            extension,
        })
    }
}
