//! The Opus specific box.

ghost use Rattle.mp4_extra_sound.specs.ShownMapping.{MappingNames, shown_mapping, whole_mapping};
ghost use Rattle.mp4_extra_sound.specs.declared.dops.TheConstants.{NAMES};
ghost use Rattle.mp4_frame.specs.declared.codes.TheConstants as codes;
ghost use Rattle.mp4_shown.specs.Numbers.{seen_number};
ghost use Rattle.mp4_shown.specs.Runs.{seen_bytes};
ghost use Rattle.std.proofs.Common.{refl, lit<};
ghost use Rattle.mp4_declared.specs.OwnBox.{layout_of};

mod taken;

use mp4_declared::{
    Declared, DeclaredBox, I16, Last, Rest, Shape, ShapeVisitor, U8, U16, U32, box_of, parts_of,
};
use mp4_frame::{Entries, Result, TryClone, codes};
use mp4_shown::{
    BytesName, FieldSink, HasFields, NamedShape, NumberName, ShowShape, View, names_of, number,
    put_bytes, put_number, run,
};

/// The configuration of an Opus decoder (`dOps`, Encapsulation of Opus in ISO Base Media File Format, 4.3.2).
#[derive(Debug, Drop, PartialEq, Eq)]
pub struct Dops {
    /// 0 in the standard.
    pub version: u8,
    /// The number of channels (`OutputChannelCount`).
    pub output_channel_count: u8,
    /// The number of decoded samples to discard at the start, at 48,000 Hz (`PreSkip`).
    pub pre_skip: u16,
    /// The sample rate of the original audio, in Hz (`InputSampleRate`); 0 if it is unknown.
    pub input_sample_rate: u32,
    /// The gain to apply when playing, in units of 1/256 decibel (`OutputGain`).
    pub output_gain: i16,
    /// The meaning of the channels (`ChannelMappingFamily`). 0 for one or two channels without a mapping.
    pub channel_mapping_family: u8,
    /// The mapping in families other than 0, empty in family 0. It has a byte with the number of streams
    /// (`StreamCount`), a byte with the number of streams with two channels (`CoupledCount`), and a byte for each
    /// channel (`ChannelMapping`).
    pub channel_mapping: Entries<u8>,
}

/// The content of the box: six numbers, and bytes up to its end.
pub type DopsShape = (U8, U8, U16, U32, (I16, U8, Last<Rest>));

impl DeclaredBox for Dops {
    ghost use Rattle.mp4_extra_sound.specs.contracts.dops.Dops.{struct};

    type Shape = DopsShape;

    ghost CODE = { codes.DOPS };

    ghost layout = { layout_of struct (λ _. tt) (λ _. refl) (lit< tt) };

    const CODE: u32 = codes::DOPS;

    fn from_content(found: <DopsShape as Shape>::Value) -> Dops {
        box_of!(found => Dops { version, output_channel_count, pre_skip, input_sample_rate,
            output_gain, channel_mapping_family, channel_mapping })
    }

    fn visit<Q: ShapeVisitor<Self::Shape>>(&self, out: &mut [u8]) -> Q::Answer {
        let parts = parts_of!(self => version, output_channel_count, pre_skip, input_sample_rate,
            output_gain, channel_mapping_family, channel_mapping.as_slice());
        Q::visit(parts, out)
    }

    ghost valid = { refl };
}

/// The mapping of channels, for showing only.
pub struct ChannelMapping;

impl NamedShape for ChannelMapping {
    type Value = Entries<u8>;

    type Names = (NumberName, (NumberName, (BytesName, BytesName)));

    ghost Seen = { MappingNames };

    ghost seen = { λ names. (
      seen_number names.0,
      (
        seen_number names.1.0,
        (seen_bytes names.1.1.0, seen_bytes names.1.1.1),
      ),
    ) };

    ghost shown = { λ names view bytes. shown_mapping names view.rows bytes };

    ghost whole = { λ names view bytes. whole_mapping names view.rows bytes };
}

impl<'a> ShowShape<&'a [u8]> for ChannelMapping {
    ghost content = { λ bytes. bytes.now };

    fn show<K: FieldSink>(
        names: &(NumberName, (NumberName, (BytesName, BytesName))),
        view: View,
        value: &&'a [u8],
        sink: &mut K,
    ) -> mp4_shown::Result<()> {
        let (streams, (coupled, (channels, too_few))) = *names;
        let value = *value;
        if value.len() < 2 {
            return put_bytes(too_few, view.rows, value, sink);
        }
        put_number(streams, u64::from(value[0]), sink)?;
        put_number(coupled, u64::from(value[1]), sink)?;
        put_bytes(channels, view.rows, &value[2..], sink)
    }
}

/// The content of the box, for showing only.
type DopsShown = (U8, U8, U16, U32, (I16, U8, Last<ChannelMapping>));

/// The names of the fields. The gain is in decibels.
const NAMES: &<DopsShown as NamedShape>::Names = &names_of!(
    number!("Version"),
    number!("OutputChannelCount"),
    number!("PreSkip"),
    number!("InputSampleRate"),
    number!("OutputGain", Fixed(8)),
    number!("ChannelMappingFamily"),
    (
        number!("StreamCount"),
        (
            number!("CoupledCount"),
            (run!("ChannelMapping", Bytes), run!("data_bytes", SomeBytes))
        )
    )
);

impl HasFields for Dops {
    ghost shown = { λ view b. ⟦<DopsShown as NamedShape>⟧.shown NAMES.now view
        (⟦<Dops as DeclaredBox>⟧.layout.content b) };

    ghost whole = { λ view b. ⟦<DopsShown as NamedShape>⟧.whole NAMES.now view
        (⟦<Dops as DeclaredBox>⟧.layout.content b) };

    fn show<K: FieldSink>(&self, view: View, sink: &mut K) -> mp4_shown::Result<()> {
        let parts = parts_of!(self => version, output_channel_count, pre_skip, input_sample_rate,
            output_gain, channel_mapping_family, channel_mapping.as_slice());
        DopsShown::show(NAMES, view, &parts, sink)
    }
}

impl TryClone for Dops {
    fn try_clone(&self) -> Result<Dops> {
        let channel_mapping = self.channel_mapping.try_clone()?;
        Ok(Dops {
            channel_mapping,
            ..*self
        })
    }
}

/// The Opus specific box.
pub type DopsBox = Declared<Dops>;
