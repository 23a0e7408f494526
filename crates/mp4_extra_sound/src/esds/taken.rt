//! Takes the box back out of its JSON.

ghost use Rattle.mp4_shown.specs.TakenShapes.{declared_taken};
ghost use Rattle.mp4_extra_sound.specs.declared.esds.TheConstants.{NAMES};
ghost use Rattle.std.specs.Prelude.{◌≡◌, ℕ, ◌<◌, ◌^◌, IfOk, slice_index};
ghost use Rattle.json.specs.Value.{value_view};
ghost use Rattle.mp4_declared.specs.OwnBox.{no_context};
ghost use Rattle.mp4_extra_sound.specs.AudioConfig.{audio_config};
ghost use Rattle.mp4_extra_sound.specs.declared.esds.TheConstants as esds;
ghost use Rattle.mp4_extra_sound.specs.TakenEsds.{audio_numbers, audio_taken, config_in, config_taken, content_taken};
ghost use Rattle.mp4_extra_sound.specs.TakenEsds.{descriptor_members, descriptor_taken, es_taken, fits_size, is_config};
ghost use Rattle.mp4_extra_sound.specs.TakenEsds.{layer_bytes, layer_fields_taken, layer_numbers_taken, layer_taken};
ghost use Rattle.mp4_extra_sound.specs.TakenEsds.{layer_widths, options_taken};
ghost use Rattle.mp4_shown.specs.Object.{all_of, left};
ghost use Rattle.mp4_shown.specs.Taking.{TakesAs};

use super::{
    CONFIG, CONTENT, DESCRIPTOR_NAMES, DecoderConfig, DecoderStream, Descriptor, ES, EsDescriptor,
    EsFlags, EsOptions, Esds, EsdsShape, LAYER, LAYER_REST, NAMES, OPTIONS, PREDEFINED,
    audio_bytes,
};
use crate::audio_config::{AUDIO, AUDIO_NAME, EXTENSION, audio_config};
use json::Value;
use mp4_declared::{
    Bits, Bytes, Context, DeclaredBox, EachToEnd, EntryLayout, HasContext, If, IfFlags, Last, U8,
    U16, U32,
};
use mp4_frame::Entries;
use mp4_shown::taken::{
    NO_CONTEXT, Object, Reason, Result, TakeEntry, TakeFields, TakeShape, end_object, joined,
    object_in, push_number, refuse, take_bytes, take_declared, take_number, take_numbers,
};
use std::alloc::{AllocError, Global};

/// The widths of the flags of a synchronization layer, in bits.
const FLAG_WIDTHS: [u8; 8] = [1, 1, 1, 1, 1, 1, 1, 1];

/// The widths of the last numbers of a synchronization layer, in bits.
const LENGTH_WIDTHS: [u8; 4] = [4, 5, 5, 2];

/// The widths of all numbers of a synchronization layer, in bits.
const LAYER_WIDTHS: [u8; 18] = [1, 1, 1, 1, 1, 1, 1, 1, 32, 32, 8, 8, 8, 8, 4, 5, 5, 2];

/// A number of a synchronization layer that isn't predefined, by which its numbers are known.
const TIME_STAMP_RESOLUTION: &str = "timeStampResolution";

/// Returns the bytes of the numbers of a synchronization layer.
#[tactic(auto, unfolding(mp4_frame::specs::Bytes::bytes_of_fields, mp4_frame::specs::Bytes::bytes_of_fields_onto))]
fn layer_bytes(alloc: Global, numbers: &[u64; 18]) -> std::result::Result<Vec<u8>, AllocError>
    requires { (k : ℕ) → slice_index numbers.now k < 2 ^ slice_index layer_widths k }
    ensures { IfOk result (λ bytes. bytes.items ≡ layer_bytes numbers.now) }
{
    let flags = joined(&FLAG_WIDTHS, &numbers[..8]);
    let lengths = joined(&LENGTH_WIDTHS, &numbers[14..]);
    let mut bytes = Vec::new(alloc);
    push_number(flags, 1, &mut bytes)?;
    push_number(numbers[8], 4, &mut bytes)?;
    push_number(numbers[9], 4, &mut bytes)?;
    push_number(numbers[10], 1, &mut bytes)?;
    push_number(numbers[11], 1, &mut bytes)?;
    push_number(numbers[12], 1, &mut bytes)?;
    push_number(numbers[13], 1, &mut bytes)?;
    push_number(lengths, 2, &mut bytes)?;
    Ok(bytes)
}

/// Takes the numbers of a synchronization layer out, and returns their bytes.
fn take_layer_numbers(alloc: Global, object: &mut Object<'_>) -> Result<Vec<u8>>
    ensures { TakesAs (λ bytes. (bytes.items, left object.new)) result (layer_numbers_taken (left object.old)) }
{
    let numbers = take_numbers(alloc, LAYER, &LAYER_WIDTHS, object)?;
    Ok(layer_bytes(alloc, &numbers)?)
}

/// Takes the numbers of a synchronization layer out, if it isn't predefined and has any, and returns their bytes.
fn take_layer_fields(alloc: Global, predefined: u64, object: &mut Object<'_>) -> Result<Vec<u8>>
    ensures { TakesAs (λ bytes. (bytes.items, left object.new)) result
        (layer_fields_taken predefined (left object.old)) }
{
    if predefined == 0 && object.has(TIME_STAMP_RESOLUTION) {
        take_layer_numbers(alloc, object)
    } else {
        Ok(Vec::new(alloc))
    }
}

/// Takes the configuration of a synchronization layer out, and returns its bytes.
fn take_layer(alloc: Global, object: &mut Object<'_>) -> Result<Vec<u8>>
    ensures { TakesAs (λ bytes. (bytes.items, left object.new)) result (layer_taken (left object.old)) }
{
    let predefined = take_number(alloc, PREDEFINED, 8, object)?;
    let fields = take_layer_fields(alloc, predefined, object)?;
    let rest = take_bytes(alloc, LAYER_REST, object)?;
    let mut bytes = Vec::new(alloc);
    bytes.push(predefined as u8)?;
    bytes.extend_from_slice(fields.as_slice())?;
    bytes.extend_from_slice(rest.as_slice())?;
    Ok(bytes)
}

/// Takes the content of a descriptor out, and returns its bytes.
fn take_content(alloc: Global, tag: u8, object: &mut Object<'_>) -> Result<Vec<u8>>
    ensures { TakesAs (λ bytes. (bytes.items, left object.new)) result (content_taken tag (left object.old)) }
{
    if tag == 6 && object.has(PREDEFINED.0) {
        take_layer(alloc, object)
    } else {
        take_bytes(alloc, CONTENT, object)
    }
}

/// Returns whether `size` has room in `width` bytes, of 7 bits each.
fn fits_size(width: u8, size: usize) -> bool
    ensures { result ≡ fits_size width size }
{
    if width == 1 {
        size < 128
    } else if width == 2 {
        size < 16_384
    } else if width == 3 {
        size < 2_097_152
    } else if width == 4 {
        size < 268_435_456
    } else {
        false
    }
}

/// Takes a descriptor out.
fn take_descriptor(alloc: Global, object: &mut Object<'_>) -> Result<Descriptor>
    ensures { TakesAs (λ d. (d, left object.new)) result (descriptor_members (left object.old)) }
{
    let tag = U8::take(alloc, &DESCRIPTOR_NAMES.0, NO_CONTEXT, object)?;
    let size_name = DESCRIPTOR_NAMES.1.0;
    let size_bytes = U8::take(alloc, &size_name, NO_CONTEXT, object)?;
    let content = take_content(alloc, tag, object)?;
    if !fits_size(size_bytes, content.len()) {
        return Err(refuse(alloc, size_name.0, Reason::OutOfRange));
    }
    Ok(Descriptor {
        tag,
        size_bytes,
        content: content.into(),
    })
}

impl TakeEntry for Descriptor {
    ghost taken = { λ c j. descriptor_taken j };

    fn take(alloc: Global, _context: Context, value: Value<'_>) -> Result<Descriptor> {
        let mut object = object_in(alloc, "", value)?;
        let descriptor = take_descriptor(alloc, &mut object)?;
        end_object(alloc, &object)?;
        Ok(descriptor)
    }
}

/// Takes all numbers of a configuration of MPEG-4 audio out, and those of its extension.
fn take_audio_numbers(alloc: Global, object: &mut Object<'_>) -> Result<([u64; 4], [u64; 5])>
    ensures { TakesAs (λ c. c) result (all_of audio_numbers (left object.old)) }
{
    let numbers = take_numbers(alloc, AUDIO, &[64; 4], object)?;
    let extension = take_numbers(alloc, EXTENSION, &[64; 5], object)?;
    end_object(alloc, object)?;
    Ok((numbers, extension))
}

/// Returns whether the numbers `found` are those of the configuration in `bytes`.
fn is_config(found: &([u64; 4], [u64; 5]), bytes: &[u8]) -> bool
    ensures { result ≡ is_config found.now (audio_config bytes.now) }
{
    match audio_config(bytes) {
        Some(config) => config.0 == found.0 && config.1 == found.1,
        None => false,
    }
}

/// Takes the configuration of MPEG-4 audio out, if it is present, and checks that it is that in `bytes`.
fn take_audio(alloc: Global, bytes: &[u8], object: &mut Object<'_>) -> Result<()>
    ensures { TakesAs (λ _. left object.new) result (audio_taken bytes.now (left object.old)) }
{
    let Some(value) = object.take_out(alloc, AUDIO_NAME)? else {
        return Ok(());
    };
    let mut inside = object_in(alloc, AUDIO_NAME, value)?;
    let found = match take_audio_numbers(alloc, &mut inside) {
        Ok(found) => found,
        Err(error) => return Err(error.in_group(alloc, AUDIO_NAME)),
    };
    if is_config(&found, bytes) {
        Ok(())
    } else {
        Err(refuse(alloc, AUDIO_NAME, Reason::Contradiction))
    }
}

/// The numbers of a decoder's configuration.
type ConfigNumbers = (U8, U8, Bits<DecoderStream, 4, 4>, U32, Last<U32>);

/// Takes the configuration of a decoder out, which has these `descriptors`.
fn take_config(
    alloc: Global,
    descriptors: Entries<Descriptor>,
    object: &mut Object<'_>,
) -> Result<DecoderConfig>
    ensures { TakesAs (λ config. (config, left object.new)) result
        (config_taken (⟦<ConfigNumbers as TakeShape>⟧.taken (
          esds.CONFIG.now.0,
          (
            esds.CONFIG.now.1.0,
            (esds.CONFIG.now.1.1.0, (esds.CONFIG.now.1.1.1.0, (esds.CONFIG.now.1.1.1.1.0, tt))),
          ),
        ) no_context) descriptors (left object.old)) }
{
    let names = (
        CONFIG.0,
        (
            CONFIG.1.0,
            (CONFIG.1.1.0, (CONFIG.1.1.1.0, (CONFIG.1.1.1.1.0, ()))),
        ),
    );
    let (size_bytes, (object_type_indication, rest)) = ConfigNumbers::take(
        alloc, &names, NO_CONTEXT, object,
    )?;
    let (stream, (max_bitrate, (avg_bitrate, ()))) = rest;
    take_audio(
        alloc,
        audio_bytes(object_type_indication, descriptors.as_slice()),
        object,
    )?;
    Ok(DecoderConfig {
        size_bytes,
        object_type_indication,
        stream,
        max_bitrate,
        avg_bitrate,
        descriptors,
    })
}

/// Takes the configuration of a decoder from `value`, an object of which nothing may be left.
fn config_in(
    alloc: Global,
    descriptors: Entries<Descriptor>,
    value: Value<'_>,
) -> Result<DecoderConfig>
    ensures { TakesAs (λ config. config) result
        (config_in (⟦<ConfigNumbers as TakeShape>⟧.taken (
          esds.CONFIG.now.0,
          (
            esds.CONFIG.now.1.0,
            (esds.CONFIG.now.1.1.0, (esds.CONFIG.now.1.1.1.0, (esds.CONFIG.now.1.1.1.1.0, tt))),
          ),
        ) no_context) descriptors (value_view value.entry)) }
{
    let name = ES.1.1.1.0.0;
    let mut inside = object_in(alloc, name, value)?;
    let config = match take_config(alloc, descriptors, &mut inside) {
        Ok(config) => config,
        Err(error) => return Err(error.in_group(alloc, name)),
    };
    match end_object(alloc, &inside) {
        Ok(()) => Ok(config),
        Err(error) => Err(error.in_group(alloc, name)),
    }
}

/// The parts that flags announce.
type OptionParts = (
    If<IfFlags<4>, U16>,
    If<IfFlags<2>, Bytes<U8>>,
    Last<If<IfFlags<1>, U16>>,
);

/// Takes the parts that `flags` announce out.
fn take_parts(
    alloc: Global,
    flags: &EsFlags,
    object: &mut Object<'_>,
) -> Result<<OptionParts as TakeShape>::Taken>
    ensures { TakesAs (λ parts. (parts, left object.new)) result
        (⟦<OptionParts as TakeShape>⟧.taken esds.OPTIONS.now.1 (⟦<EsFlags as HasContext>⟧.context_of flags.now)
        (left object.old)) }
{
    OptionParts::take(alloc, &OPTIONS.1, flags.context(), object)
}

impl TakeFields for EsOptions {
    ghost taken = { options_taken ⟦<EsFlags as EntryLayout<4, 1>>⟧.layout
        (λ f. ⟦<OptionParts as TakeShape>⟧.taken esds.OPTIONS.now.1 (⟦<EsFlags as HasContext>⟧.context_of f)) };

    fn take(alloc: Global, object: &mut Object<'_>) -> Result<EsOptions> {
        let flags = Bits::<EsFlags, 4, 1>::take(alloc, &OPTIONS.0, NO_CONTEXT, object)?;
        let (depends_on_es_id, (url, (ocr_es_id, ()))) = take_parts(alloc, &flags, object)?;
        Ok(EsOptions {
            flags,
            depends_on_es_id,
            url,
            ocr_es_id,
        })
    }
}

impl TakeFields for EsDescriptor {
    ghost taken = { es_taken ⟦<EsOptions as TakeFields>⟧.taken (⟦<ConfigNumbers as TakeShape>⟧.taken (
      esds.CONFIG.now.0,
      (
        esds.CONFIG.now.1.0,
        (esds.CONFIG.now.1.1.0, (esds.CONFIG.now.1.1.1.0, (esds.CONFIG.now.1.1.1.1.0, tt))),
      ),
    ) no_context) (λ name. ⟦<EachToEnd<Descriptor> as TakeShape>⟧.taken name no_context) };

    fn take(alloc: Global, object: &mut Object<'_>) -> Result<EsDescriptor> {
        let size_bytes = U8::take(alloc, &ES.0, NO_CONTEXT, object)?;
        let es_id = U16::take(alloc, &ES.1.0, NO_CONTEXT, object)?;
        let options = EsOptions::take(alloc, object)?;
        let config = object.take_one(alloc, ES.1.1.1.0.0)?;
        let lists = ES.1.1.1.1;
        let inner = EachToEnd::<Descriptor>::take(alloc, &lists.0, NO_CONTEXT, object)?;
        let descriptors = EachToEnd::<Descriptor>::take(alloc, &lists.1.0, NO_CONTEXT, object)?;
        let decoder_config = config_in(alloc, inner, config)?;
        Ok(EsDescriptor {
            size_bytes,
            es_id,
            options,
            decoder_config,
            descriptors,
        })
    }
}

impl TakeFields for Esds {
    ghost taken = { declared_taken ⟦<Esds as DeclaredBox>⟧.layout (⟦<EsdsShape as TakeShape>⟧.taken NAMES.now) };

    fn take(alloc: Global, object: &mut Object<'_>) -> Result<Esds> {
        take_declared::<Esds, EsdsShape>(alloc, NAMES, object)
    }
}
