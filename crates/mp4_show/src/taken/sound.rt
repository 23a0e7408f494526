//! The sample entry of MPEG-4 audio, its descriptors, and sample descriptions.

ghost use Rattle.std.specs.Prelude.{◌≡◌, ◌||◌, ◌==◌};
ghost use Rattle.mp4_declared.specs.OwnBox.{no_context};
ghost use Rattle.mp4_show.specs.declared.taken.sound.TheConstants.{CONFIG, ESDS, MP4A, RATE, STREAM, STSD};
ghost use Rattle.mp4_show.specs.TakenSound.{also_kept, is_object_type, is_up_stream, make_config, make_esds};
ghost use Rattle.mp4_show.specs.TakenSound.{make_mp4a, make_stream, one_kept, specific_taken, stsd_taken};
ghost use Rattle.mp4_shown.specs.TakenNumbers.{number_taken};
ghost use Rattle.mp4_shown.specs.Object.{left};
ghost use Rattle.mp4_shown.specs.TakenShapes.{made_if, made_of, taken_if};
ghost use Rattle.mp4_shown.specs.Taking.{TakesAs};
ghost use Rattle.mp4_shown.specs.declared.taken.error.Reason.TheVariants.{OutOfRange};

use crate::taken::shapes::{FieldsOf, Optional};
use crate::taken::small::Small;
use crate::taken::take_box::TakeBox;
use mp4_declared::{Full, Last, U8, U16, U24, U32};
use mp4_entries::{Avc1Box, Hev1Box, Tx3gBox, Vp09Box};
use mp4_media::FixedPoint;
use mp4_shown::taken::{NO_CONTEXT, Object, Reason, Result, TakeShape, refuse, take_number};
use mp4_shown::{FLAGS, Group, NumberName, VERSION, names_of, number};
use mp4_sound::{
    DecoderConfigDescriptor, DecoderSpecificDescriptor, ESDescriptor, EsdsBox, Mp4aBox,
    SLConfigDescriptor, StsdBox,
};
use std::alloc::Global;

/// The type of the audio objects.
const OBJECT_TYPE: NumberName = number!("audioObjectType");

/// The index of the sampling frequency.
const FREQUENCY_INDEX: NumberName = number!("samplingFrequencyIndex");

/// The sampling frequency in hertz.
const RATE: NumberName = number!("samplingFrequency");

/// The number of the configuration of channels.
const CHANNELS: NumberName = number!("channelConfiguration");

/// Returns whether `number` is that of an audio object type: 5 bits, or 31 and 6 more bits.
fn is_object_type(number: u64) -> bool
    ensures { result ≡ is_object_type number }
{
    number < 31 || (number >= 32 && number < 96)
}

/// Takes the rate of a decoder out, which only the index 15 has.
fn take_rate(alloc: Global, index: u64, object: &mut Object<'_>) -> Result<Option<u32>>
    ensures { TakesAs (λ rate. (rate, left object.new)) result
        (taken_if (index == 15) (number_taken RATE 24) (left object.old)) }
{
    if index == 15 {
        Ok(Some(take_number(alloc, RATE, 24, object)? as u32))
    } else {
        Ok(None)
    }
}

impl TakeBox for DecoderSpecificDescriptor {
    ghost taken = { specific_taken };

    fn take(alloc: Global, object: &mut Object<'_>) -> Result<DecoderSpecificDescriptor> {
        let profile = take_number(alloc, OBJECT_TYPE, 8, object)?;
        if !is_object_type(profile) {
            return Err(refuse(alloc, OBJECT_TYPE.0, Reason::OutOfRange));
        }
        let freq_index = take_number(alloc, FREQUENCY_INDEX, 4, object)?;
        let sample_rate = take_rate(alloc, freq_index, object)?;
        let chan_conf = take_number(alloc, CHANNELS, 4, object)?;
        Ok(DecoderSpecificDescriptor {
            sample_rate,
            profile: profile as u8,
            freq_index: freq_index as u8,
            chan_conf: chan_conf as u8,
        })
    }
}

/// The parts of how the decoder of a stream is configured.
type ConfigTaken = (
    U8,
    Small<6>,
    U8,
    U24,
    (U32, U32, Last<Group<FieldsOf<DecoderSpecificDescriptor>>>),
);

/// The names of its fields.
const CONFIG: &<ConfigTaken as TakeShape>::Names = &names_of!(
    number!("objectTypeIndication"),
    number!("streamType"),
    number!("upStream"),
    number!("bufferSizeDB"),
    number!("maxBitrate"),
    number!("avgBitrate"),
    ("decSpecificInfo", ())
);

/// Returns whether `number` is a direction: 0, or 2 for a stream to the server.
fn is_up_stream(number: u8) -> bool
    ensures { result ≡ is_up_stream number }
{
    number == 0 || number == 2
}

/// The direction of the stream has one bit, of the value 2.
impl TakeBox for DecoderConfigDescriptor {
    ghost taken = { made_if (λ v. is_up_stream v.1.1.0) CONFIG.now.1.1.0.0.now OutOfRange make_config
        (⟦<ConfigTaken as TakeShape>⟧.taken CONFIG.now no_context) };

    fn take(alloc: Global, object: &mut Object<'_>) -> Result<DecoderConfigDescriptor> {
        let parts = ConfigTaken::take(alloc, CONFIG, NO_CONTEXT, object)?;
        let (object_type_indication, (stream_type, (up_stream, (buffer_size_db, rest)))) = parts;
        let (max_bitrate, (avg_bitrate, (dec_specific, ()))) = rest;
        if !is_up_stream(up_stream) {
            return Err(refuse(alloc, CONFIG.1.1.0.0, Reason::OutOfRange));
        }
        Ok(DecoderConfigDescriptor {
            buffer_size_db,
            max_bitrate,
            avg_bitrate,
            dec_specific,
            object_type_indication,
            stream_type,
            up_stream,
        })
    }
}

/// The parts of what describes a stream.
type ESDescriptorTaken = (U16, Last<Group<FieldsOf<DecoderConfigDescriptor>>>);

/// The names of its fields.
const STREAM: &<ESDescriptorTaken as TakeShape>::Names = &names_of!(
    number!("ES_ID"),
    ("decConfigDescr", ())
);

impl TakeBox for ESDescriptor {
    ghost taken = { made_of make_stream (⟦<ESDescriptorTaken as TakeShape>⟧.taken STREAM.now no_context) };

    fn take(alloc: Global, object: &mut Object<'_>) -> Result<ESDescriptor> {
        let (es_id, (dec_config, ())) = ESDescriptorTaken::take(alloc, STREAM, NO_CONTEXT, object)?;
        Ok(ESDescriptor {
            es_id,
            dec_config,
            sl_config: SLConfigDescriptor::new(),
        })
    }
}

/// The parts of how MPEG-4 audio is decoded.
type EsdsTaken = Full<256, Last<Group<FieldsOf<ESDescriptor>>>>;

/// The names of its fields.
const ESDS: &<EsdsTaken as TakeShape>::Names = &names_of!(VERSION, FLAGS, ("ES", ()));

impl TakeBox for EsdsBox {
    ghost taken = { made_of make_esds (⟦<EsdsTaken as TakeShape>⟧.taken ESDS.now no_context) };

    fn take(alloc: Global, object: &mut Object<'_>) -> Result<EsdsBox> {
        let (version, (flags, rest)) = EsdsTaken::take(alloc, ESDS, NO_CONTEXT, object)?;
        let (es_desc, ()) = rest;
        Ok(EsdsBox {
            version,
            flags,
            es_desc,
        })
    }
}

/// The parts of a sample entry of MPEG-4 audio.
type Mp4aTaken = (U16, U16, U16, U32, Last<Optional<Group<FieldsOf<EsdsBox>>>>);

/// The names of its fields.
const MP4A: &<Mp4aTaken as TakeShape>::Names = &names_of!(
    number!("data_reference_index"),
    number!("channelcount"),
    number!("samplesize"),
    number!("samplerate", Fixed(16)),
    ("esds", ())
);

impl TakeBox for Mp4aBox {
    ghost taken = { made_of make_mp4a (⟦<Mp4aTaken as TakeShape>⟧.taken MP4A.now no_context) };

    fn take(alloc: Global, object: &mut Object<'_>) -> Result<Mp4aBox> {
        let (data_reference_index, (channelcount, (samplesize, (samplerate, rest)))) =
            Mp4aTaken::take(alloc, MP4A, NO_CONTEXT, object)?;
        let (esds, ()) = rest;
        Ok(Mp4aBox {
            data_reference_index,
            channelcount,
            samplesize,
            samplerate: FixedPoint::new_raw(samplerate),
            esds,
        })
    }
}
/// The parts of sample descriptions.
type StsdTaken = Full<
    256,
    (
        Optional<Group<FieldsOf<Avc1Box>>>,
        Optional<Group<FieldsOf<Hev1Box>>>,
        Optional<Group<FieldsOf<Vp09Box>>>,
        Optional<Group<FieldsOf<Mp4aBox>>>,
        Last<Optional<Group<FieldsOf<Tx3gBox>>>>,
    ),
>;

/// The names of its fields.
const STSD: &<StsdTaken as TakeShape>::Names = &names_of!(
    VERSION,
    FLAGS,
    ("avc1", ()),
    ("hev1", ()),
    ("vp09", ()),
    ("mp4a", ()),
    ("tx3g", ())
);

/// Returns whether an entry is present, after the entries before `name` and this one. Refuses a second one.
fn also_kept(alloc: Global, has_one: bool, name: &str, is_there: bool) -> Result<bool>
    ensures { TakesAs (λ one. one) result (also_kept has_one name.now is_there) }
{
    if has_one && is_there {
        Err(refuse(alloc, name, Reason::NotKept))
    } else {
        Ok(has_one || is_there)
    }
}

/// Refuses the second of five entries that are present.
fn keep_one(alloc: Global, avc1: bool, hev1: bool, vp09: bool, mp4a: bool, tx3g: bool) -> Result<()>
    ensures { TakesAs (λ v. v) result (one_kept avc1 hev1 vp09 mp4a tx3g) }
{
    let (first, (second, (third, (fourth, (fifth, ()))))) = STSD.1.1;
    let has_one = also_kept(alloc, false, first.0, avc1)?;
    let has_one = also_kept(alloc, has_one, second.0, hev1)?;
    let has_one = also_kept(alloc, has_one, third.0, vp09)?;
    let has_one = also_kept(alloc, has_one, fourth.0, mp4a)?;
    also_kept(alloc, has_one, fifth.0, tx3g)?;
    Ok(())
}

/// The box keeps one entry.
impl TakeBox for StsdBox {
    ghost taken = { stsd_taken (⟦<StsdTaken as TakeShape>⟧.taken STSD.now no_context) };

    fn take(alloc: Global, object: &mut Object<'_>) -> Result<StsdBox> {
        let (version, (flags, rest)) = StsdTaken::take(alloc, STSD, NO_CONTEXT, object)?;
        let (avc1, (hev1, (vp09, (mp4a, (tx3g, ()))))) = rest;
        keep_one(
            alloc,
            avc1.is_some(),
            hev1.is_some(),
            vp09.is_some(),
            mp4a.is_some(),
            tx3g.is_some(),
        )?;
        Ok(StsdBox {
            version,
            flags,
            avc1,
            hev1,
            vp09,
            mp4a,
            tx3g,
        })
    }
}
