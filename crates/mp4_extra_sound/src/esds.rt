//! The elementary stream descriptor box.

ghost use Rattle.mp4_extra_sound.specs.ShownDescriptors.{audio_bytes, layer_numbers, shown_content, shown_fields};
ghost use Rattle.mp4_extra_sound.specs.ShownDescriptors.{flags_of, lengths_of, shown_layer, whole_content};
ghost use Rattle.mp4_extra_sound.specs.declared.esds.TheConstants.{CONFIG, DESCRIPTOR_NAMES, ES, FLAG_WIDTHS};
ghost use Rattle.mp4_extra_sound.specs.declared.esds.TheConstants.{LAYER, NAMES, OPTIONS, STREAM_WIDTHS};
ghost use Rattle.mp4_frame.specs.Bytes.{number};
ghost use Rattle.mp4_frame.specs.declared.codes.TheConstants as codes;
ghost use Rattle.mp4_shown.specs.Hands.{Hands};
ghost use Rattle.mp4_shown.specs.Lists.{entry_of};
ghost use Rattle.mp4_shown.specs.Members.{whole_entry};
ghost use Rattle.mp4_shown.specs.Numbers.{shown_numbers};
ghost use Rattle.std.proofs.Common.{refl, lit<};
ghost use Rattle.std.specs.Prelude.{◌≡◌, ◌≤◌, ◌+◌, ◌==◌, ◌&&◌, nat_le, false, true, if◌then◌else◌, OnOk, length};
ghost use Rattle.mp4_declared.specs.OwnBox.{layout_of};
ghost use Rattle.mp4_declared.specs.DeclaredEntry.{exact_layout_of};
ghost use Rattle.mp4_declared.specs.Layout.{packed, fields_of};

mod taken;

use crate::audio_config::AudioShown;
use crate::descriptors::{DescriptorTag, Expandable, Tagged};
use mp4_declared::{
    Bits, Bytes, Context, Declared, DeclaredBox, DeclaredEntry, Dependent, EachToEnd, EntryLayout,
    EntryVisitor, Full, HasContext, If, IfFlags, Last, PutShape, Rest, Shape, ShapeVisitor, U8,
    U16, U32, box_of, clone_each, entry_of, numbers_of, parts_of,
};
use mp4_frame::{Entries, Result, TryClone, codes, u8_at, u16_at, u32_at};
use mp4_shown::{
    BytesName, FLAGS, FieldSink, Group, HasFields, Meaning, NamedShape, Nested, NumberName,
    ShowShape, ShownEntry, VERSION, View, list, names_of, number, put_bytes, put_number,
    put_numbers, run, show_shape,
};
use std::alloc::Global;

/// A descriptor that stays raw bytes (ISO/IEC 14496-1, 7.2.2.2).
#[derive(Debug, Drop, PartialEq, Eq)]
pub struct Descriptor {
    /// The kind of the descriptor: 5 for the bytes of a decoder (DecoderSpecificInfo), 6 for the synchronization layer
    /// (SLConfigDescriptor), and others.
    pub tag: u8,
    /// The number of bytes of the size of the descriptor, 1 to 4.
    pub size_bytes: u8,
    /// The content, whose size must fit `size_bytes`: at most 127, 16,383, 2,097,151 or 268,435,455 bytes.
    pub content: Entries<u8>,
}

/// The layout of a descriptor: a tag, a size in 1 to 4 bytes, and as many bytes as the size says.
pub type DescriptorShape = (U8, Expandable<Last<Rest>>);

impl DeclaredEntry for Descriptor {
    ghost use Rattle.mp4_extra_sound.specs.contracts.esds.Descriptor.{struct};

    type Shape = DescriptorShape;

    ghost layout = { exact_layout_of struct (λ _. tt) (λ _. refl) };

    fn from_content(found: <DescriptorShape as Shape>::Value) -> Descriptor {
        box_of!(found => Descriptor { tag, size_bytes, content })
    }

    fn visit<Q: EntryVisitor<Self::Shape>>(&self, question: Q, out: &mut [u8]) -> Q::Answer {
        question.visit(parts_of!(self => tag, size_bytes, content.as_slice()), out)
    }

    ghost begins = { λ _. lit< tt };
}

impl TryClone for Descriptor {
    fn try_clone(&self) -> Result<Descriptor> {
        let content = self.content.try_clone()?;
        Ok(Descriptor { content, ..*self })
    }
}

/// The name of the number of a predefined configuration of the synchronization layer (ISO/IEC 14496-1, 7.3.2.3.2).
const PREDEFINED: NumberName = number!("predefined", Named, PREDEFINED_CONFIGURATIONS);

/// The predefined configurations.
const PREDEFINED_CONFIGURATIONS: &[Meaning] = &[
    (0, "custom"),
    (1, "null SL packet header"),
    (2, "MP4 file"),
];

/// The names of the numbers of a configuration that isn't predefined. The standard sets the reserved bits.
const LAYER: &[NumberName] = &[
    number!("useAccessUnitStartFlag"),
    number!("useAccessUnitEndFlag"),
    number!("useRandomAccessPointFlag"),
    number!("hasRandomAccessUnitsOnlyFlag"),
    number!("usePaddingFlag"),
    number!("useTimeStampsFlag"),
    number!("useIdleFlag"),
    number!("durationFlag"),
    number!("timeStampResolution"),
    number!("OCRResolution"),
    number!("timeStampLength"),
    number!("OCRLength"),
    number!("AU_Length"),
    number!("instantBitrateLength"),
    number!("degradationPriorityLength"),
    number!("AU_seqNumLength"),
    number!("packetSeqNumLength"),
    number!("reserved", Reserved(3)),
];

/// The name of the bytes after the numbers of a configuration.
const LAYER_REST: BytesName = run!("data_bytes", SomeBytes);

/// The name of the bytes of another descriptor.
const CONTENT: BytesName = run!("data_bytes", Bytes);

/// Returns the numbers of a configuration of the synchronization layer that isn't predefined.
#[tactic(auto, unfolding(crate::specs::ShownDescriptors::layer_numbers))]
fn layer_numbers(bytes: &[u8]) -> [u64; 18]
    requires { 16 ≤ length bytes.now }
    ensures { result ≡ layer_numbers bytes.now }
{
    let flags = u64::from(u8_at(bytes, 1));
    let lengths = u64::from(u16_at(bytes, 14));
    [
        flags / 128,
        flags / 64 % 2,
        flags / 32 % 2,
        flags / 16 % 2,
        flags / 8 % 2,
        flags / 4 % 2,
        flags / 2 % 2,
        flags % 2,
        u64::from(u32_at(bytes, 2)),
        u64::from(u32_at(bytes, 6)),
        u64::from(u8_at(bytes, 10)),
        u64::from(u8_at(bytes, 11)),
        u64::from(u8_at(bytes, 12)),
        u64::from(u8_at(bytes, 13)),
        lengths / 4096,
        lengths / 128 % 32,
        lengths / 4 % 32,
        lengths % 4,
    ]
}

/// Hands the numbers of a configuration that isn't predefined to a sink.
fn put_layer_numbers<K: FieldSink>(bytes: &[u8], sink: &mut K) -> mp4_shown::Result<()>
    requires { 16 ≤ length bytes.now }
    ensures { OnOk result (Hands K.trace K.after sink.old
        (shown_numbers false LAYER.now (layer_numbers bytes.now)) sink.new) }
{
    put_numbers(false, LAYER, &layer_numbers(bytes), sink)
}

/// Hands a configuration that isn't predefined to a sink.
fn put_layer_fields<K: FieldSink>(rows: usize, bytes: &[u8], sink: &mut K) -> mp4_shown::Result<()>
    requires { 16 ≤ length bytes.now }
    ensures { OnOk result (Hands K.trace K.after sink.old (shown_fields rows bytes.now) sink.new) }
{
    put_layer_numbers(bytes, sink)?;
    put_bytes(LAYER_REST, rows, &bytes[16..], sink)
}

/// Returns whether a configuration of the synchronization layer has fields: it isn't predefined, and it has room for
/// them.
fn has_layer_fields(bytes: &[u8]) -> bool
    requires { 1 ≤ length bytes.now }
    ensures value { result ≡ ((number bytes.now 0 1 == 0) && nat_le 16 (length bytes.now)) }
    ensures room { result ≡ true → 16 ≤ length bytes.now }
{
    u8_at(bytes, 0) == 0 && 16 <= bytes.len()
}

/// Hands a configuration of the synchronization layer to a sink.
fn put_layer<K: FieldSink>(rows: usize, bytes: &[u8], sink: &mut K) -> mp4_shown::Result<()>
    requires { 1 ≤ length bytes.now }
    ensures { OnOk result (Hands K.trace K.after sink.old (shown_layer rows bytes.now) sink.new) }
{
    put_number(PREDEFINED, u64::from(u8_at(bytes, 0)), sink)?;
    if has_layer_fields(bytes) {
        put_layer_fields(rows, bytes, sink)
    } else {
        put_bytes(LAYER_REST, rows, &bytes[1..], sink)
    }
}

/// The tag of a descriptor and its content, for showing only.
pub struct DescriptorContent;

impl NamedShape for DescriptorContent {
    type Value = (u8, Entries<u8>);

    type Names = ();

    ghost Seen = { Unit {0} };

    ghost seen = { λ names. names };

    ghost shown = { λ names view v. shown_content view.rows v.0 v.1 };

    ghost whole = { λ names view v. whole_content view.rows v.0 v.1 };
}

impl<'a> ShowShape<(u8, &'a [u8])> for DescriptorContent {
    ghost content = { λ v. (v.0, v.1.now) };

    fn show<K: FieldSink>(
        _names: &(),
        view: View,
        value: &(u8, &'a [u8]),
        sink: &mut K,
    ) -> mp4_shown::Result<()> {
        let (tag, bytes) = *value;
        if tag == 6 && 0 < bytes.len() {
            put_layer(view.rows, bytes, sink)
        } else {
            put_bytes(CONTENT, view.rows, bytes, sink)
        }
    }
}

/// The names of tags (ISO/IEC 14496-1, 7.2.2.1).
const TAGS: &[Meaning] = &[
    (1, "ObjectDescriptor"),
    (2, "InitialObjectDescriptor"),
    (3, "ES_Descriptor"),
    (4, "DecoderConfigDescriptor"),
    (5, "DecoderSpecificInfo"),
    (6, "SLConfigDescriptor"),
    (7, "ContentIdentificationDescriptor"),
    (8, "SupplementaryContentIdentificationDescriptor"),
    (9, "IPI_DescrPointer"),
    (10, "IPMP_DescriptorPointer"),
    (11, "IPMP_Descriptor"),
    (12, "QoS_Descriptor"),
    (13, "RegistrationDescriptor"),
    (14, "ES_ID_Inc"),
    (15, "ES_ID_Ref"),
    (20, "ProfileLevelIndicationIndexDescriptor"),
    (67, "LanguageDescriptor"),
];

/// A descriptor, for showing only.
type DescriptorShown = (U8, (U8, DescriptorContent));

/// The names of the fields of a descriptor. A size in one byte is usual.
const DESCRIPTOR_NAMES: &<DescriptorShown as NamedShape>::Names = &(
    number!("tag", Named, TAGS),
    (number!("size_bytes", Reserved(1)), ()),
);

impl ShownEntry for Descriptor {
    ghost shown = { λ view d. entry_of (⟦<DescriptorShown as NamedShape>⟧.shown DESCRIPTOR_NAMES.now view
        (d.tag, (d.size_bytes, (d.tag, d.content)))) };

    ghost whole = { λ view d. whole_entry (⟦<DescriptorShown as NamedShape>⟧.shown DESCRIPTOR_NAMES.now view
        (d.tag, (d.size_bytes, (d.tag, d.content))))
        (⟦<DescriptorShown as NamedShape>⟧.whole DESCRIPTOR_NAMES.now view
        (d.tag, (d.size_bytes, (d.tag, d.content)))) };

    fn show<K: FieldSink>(&self, view: View, sink: &mut K) -> mp4_shown::Result<()> {
        let content = (self.tag, self.content.as_slice());
        sink.begin_entry()?;
        DescriptorShown::show(
            DESCRIPTOR_NAMES,
            view,
            &(self.tag, (self.size_bytes, content)),
            sink,
        )?;
        sink.end_entry()
    }
}

/// The kind of a stream, its direction, and the size of its buffer.
#[derive(Clone, Copy, Debug, Default, PartialEq, Eq)]
pub struct DecoderStream {
    /// The kind of the stream: 4 for video, 5 for sound, and others. 6 bits.
    pub stream_type: u8,
    /// True for a stream from the decoder to its source.
    pub up_stream: bool,
    /// True in the standard.
    pub reserved: bool,
    /// The size of the buffer of the decoder, in bytes. 24 bits.
    pub buffer_size_db: u32,
}

/// The widths of the fields, in bits. A field of one bit is a flag.
const STREAM_WIDTHS: [u8; 4] = [6, 1, 1, 24];

impl EntryLayout<4, 4> for DecoderStream {
    ghost use Rattle.mp4_extra_sound.specs.contracts.esds.DecoderStream.{struct};

    ghost layout = { packed (fields_of STREAM_WIDTHS) struct.as_values (λ v. struct.make v tt) (λ _. refl)
        (λ _. refl) refl };

    fn widths() -> [u8; 4] {
        STREAM_WIDTHS
    }

    fn numbers(&self) -> [u64; 4] {
        numbers_of!(self => stream_type, up_stream, reserved, buffer_size_db)
    }

    fn from_numbers(n: &[u64; 4]) -> DecoderStream {
        entry_of!(n => DecoderStream { stream_type: u8, up_stream: bool, reserved: bool, buffer_size_db: u32 })
    }

    ghost few = { lit< tt };
}

/// The tag of a decoder's configuration.
pub struct ConfigTag;

impl DescriptorTag for ConfigTag {
    ghost TAG = { 4 };

    const TAG: u8 = 4;

    ghost is_small = { lit< tt };
}

/// The configuration of a decoder (DecoderConfigDescriptor, ISO/IEC 14496-1, 7.2.6.6).
#[derive(Debug, Drop, PartialEq, Eq)]
pub struct DecoderConfig {
    /// The number of bytes of the size of the descriptor, 1 to 4.
    pub size_bytes: u8,
    /// The coding of the stream: 0x40 for MPEG-4 audio, 0x20 for MPEG-4 video, 0x6B for MP3, and others.
    pub object_type_indication: u8,
    /// The kind of the stream, its direction, and the size of its buffer.
    pub stream: DecoderStream,
    /// The largest rate of bits per second, in any second.
    pub max_bitrate: u32,
    /// The average rate of bits per second; 0 if it varies.
    pub avg_bitrate: u32,
    /// Further descriptors, the first of which has the bytes of the decoder (tag 5) if it needs any.
    pub descriptors: Entries<Descriptor>,
}

/// The layout of the configuration: a tag, a size, a number, four bytes of bits, two numbers, and descriptors.
pub type DecoderConfigShape = Tagged<
    ConfigTag,
    (
        U8,
        Bits<DecoderStream, 4, 4>,
        U32,
        U32,
        Last<EachToEnd<Descriptor>>,
    ),
>;

impl DeclaredEntry for DecoderConfig {
    ghost use Rattle.mp4_extra_sound.specs.contracts.esds.DecoderConfig.{struct};

    type Shape = DecoderConfigShape;

    ghost layout = { exact_layout_of struct (λ _. tt) (λ _. refl) };

    fn from_content(found: <DecoderConfigShape as Shape>::Value) -> DecoderConfig {
        box_of!(found => DecoderConfig { size_bytes, object_type_indication, stream, max_bitrate, avg_bitrate,
            descriptors })
    }

    fn visit<Q: EntryVisitor<Self::Shape>>(&self, question: Q, out: &mut [u8]) -> Q::Answer {
        let parts =
            parts_of!(self => size_bytes, object_type_indication, stream, max_bitrate, avg_bitrate,
            descriptors.as_slice());
        question.visit(parts, out)
    }

    ghost begins = { λ _. lit< tt };
}

impl TryClone for DecoderConfig {
    fn try_clone(&self) -> Result<DecoderConfig> {
        let alloc = *self.descriptors.allocator();
        let descriptors = clone_each(alloc, self.descriptors.as_slice())?;
        Ok(DecoderConfig {
            descriptors,
            ..*self
        })
    }
}

/// The names of object types (ISO/IEC 14496-1, 7.2.6.6.2, and the registration authority of MP4).
pub const OBJECT_TYPES: &[Meaning] = &[
    (0x01, "Systems"),
    (0x02, "Systems 2"),
    (0x20, "MPEG-4 Visual"),
    (0x21, "H.264"),
    (0x22, "H.264 parameter sets"),
    (0x23, "HEVC"),
    (0x40, "MPEG-4 Audio"),
    (0x60, "MPEG-2 Visual Simple"),
    (0x61, "MPEG-2 Visual Main"),
    (0x62, "MPEG-2 Visual SNR"),
    (0x63, "MPEG-2 Visual Spatial"),
    (0x64, "MPEG-2 Visual High"),
    (0x65, "MPEG-2 Visual 4:2:2"),
    (0x66, "MPEG-2 AAC Main"),
    (0x67, "MPEG-2 AAC LC"),
    (0x68, "MPEG-2 AAC SSR"),
    (0x69, "MPEG-2 Audio"),
    (0x6A, "MPEG-1 Visual"),
    (0x6B, "MPEG-1 Audio"),
    (0x6C, "JPEG"),
    (0x6D, "PNG"),
    (0x6E, "JPEG 2000"),
    (0xA0, "EVRC"),
    (0xA1, "SMV"),
    (0xA3, "VC-1"),
    (0xA4, "Dirac"),
    (0xA5, "AC-3"),
    (0xA6, "Enhanced AC-3"),
    (0xA9, "DTS"),
    (0xAD, "Opus"),
    (0xDD, "Vorbis"),
    (0xE1, "QCELP"),
];

/// The names of kinds of streams (ISO/IEC 14496-1, 7.2.6.6.2).
const STREAM_TYPES: &[Meaning] = &[
    (1, "object descriptors"),
    (2, "clock references"),
    (3, "scene description"),
    (4, "visual"),
    (5, "audio"),
    (6, "MPEG-7"),
    (7, "IPMP"),
    (8, "object content information"),
    (9, "MPEG-J"),
    (10, "interaction"),
    (11, "IPMP tool"),
];

/// The names of the kind of a stream and of what follows it. The standard sets the reserved bit.
const STREAMS: &[NumberName] = &[
    number!("streamType", Named, STREAM_TYPES),
    number!("upStream"),
    number!("reserved", Reserved(1)),
    number!("bufferSizeDB"),
];

/// Returns the bytes of a configuration of MPEG-4 audio, or none.
fn audio_bytes(kind: u8, descriptors: &[Descriptor]) -> &[u8]
    ensures { result.now ≡ audio_bytes kind descriptors.now }
{
    match descriptors.first() {
        Some(first) if kind == 0x40 && first.tag == 5 => first.content.as_slice(),
        _ => &[],
    }
}

/// The configuration of a decoder without its descriptors, for showing only.
type ConfigShown = (U8, U8, Bits<DecoderStream, 4, 4>, U32, (U32, AudioShown));

/// The names of the fields of the configuration.
const CONFIG: &<ConfigShown as NamedShape>::Names = &(
    number!("size_bytes", Reserved(1)),
    (
        number!("objectTypeIndication", Named, OBJECT_TYPES),
        (
            STREAMS,
            (number!("maxBitrate"), (number!("avgBitrate"), ())),
        ),
    ),
);

/// The descriptors are shown beside those of the stream, since each entry of a list has its line.
impl HasFields for DecoderConfig {
    ghost shown = { λ view d. ⟦<ConfigShown as NamedShape>⟧.shown CONFIG.now view (
      d.size_bytes,
      (
        d.object_type_indication,
        (
          d.stream,
          (
            d.max_bitrate,
            (
              d.avg_bitrate,
              audio_bytes d.object_type_indication d.descriptors,
            ),
          ),
        ),
      ),
    ) };

    ghost whole = { λ view d. ⟦<ConfigShown as NamedShape>⟧.whole CONFIG.now view (
      d.size_bytes,
      (
        d.object_type_indication,
        (
          d.stream,
          (
            d.max_bitrate,
            (
              d.avg_bitrate,
              audio_bytes d.object_type_indication d.descriptors,
            ),
          ),
        ),
      ),
    ) };

    fn show<K: FieldSink>(&self, view: View, sink: &mut K) -> mp4_shown::Result<()> {
        let audio = audio_bytes(self.object_type_indication, self.descriptors.as_slice());
        let rates = (self.max_bitrate, (self.avg_bitrate, audio));
        let parts = (
            self.size_bytes,
            (self.object_type_indication, (self.stream, rates)),
        );
        show_shape::<ConfigShown, _, K>(CONFIG, view, &parts, sink)
    }
}

/// The flags of an elementary stream descriptor, which say which parts follow, and the priority of the stream.
#[derive(Clone, Copy, Debug, Default, PartialEq, Eq)]
pub struct EsFlags {
    /// True if the stream depends on another one, `depends_on_es_id`.
    pub stream_dependence_flag: bool,
    /// True if the stream is elsewhere, at `url`.
    pub url_flag: bool,
    /// True if another stream has the clock of this one, `ocr_es_id`.
    pub ocr_stream_flag: bool,
    /// The priority of the stream. 5 bits.
    pub stream_priority: u8,
}

/// The widths of the fields, in bits. A field of one bit is a flag.
const FLAG_WIDTHS: [u8; 4] = [1, 1, 1, 5];

impl EntryLayout<4, 1> for EsFlags {
    ghost use Rattle.mp4_extra_sound.specs.contracts.esds.EsFlags.{struct};

    ghost layout = { packed (fields_of FLAG_WIDTHS) struct.as_values (λ v. struct.make v tt) (λ _. refl)
        (λ _. refl) refl };

    fn widths() -> [u8; 4] {
        FLAG_WIDTHS
    }

    fn numbers(&self) -> [u64; 4] {
        numbers_of!(self => stream_dependence_flag, url_flag, ocr_stream_flag, stream_priority)
    }

    fn from_numbers(n: &[u64; 4]) -> EsFlags {
        entry_of!(n => EsFlags { stream_dependence_flag: bool, url_flag: bool, ocr_stream_flag: bool,
            stream_priority: u8 })
    }

    ghost few = { lit< tt };
}

/// Returns `mask` if `is_set`, and otherwise 0.
fn flag(is_set: bool, mask: u32) -> u32
    ensures { result ≡ (if is_set then mask else 0) }
{
    if is_set { mask } else { 0 }
}

/// The flags 4, 2 and 1 stand for the three flags, in their order.
impl HasContext for EsFlags {
    ghost context_of = { λ f. record {
      version = 0;
      flags = (if f.stream_dependence_flag then 4 else 0)
          + ((if f.url_flag then 2 else 0) + (if f.ocr_stream_flag then 1 else 0));
    } };

    fn context(&self) -> Context {
        Context {
            version: 0,
            flags: flag(self.stream_dependence_flag, 4)
                + (flag(self.url_flag, 2) + flag(self.ocr_stream_flag, 1)),
        }
    }
}

/// The flags of an elementary stream descriptor, and its optional parts.
#[derive(Debug, Drop, PartialEq, Eq)]
pub struct EsOptions {
    /// The flags that say which parts are present, and the priority of the stream.
    pub flags: EsFlags,
    /// The id of the stream that this one depends on. `None` unless `stream_dependence_flag` is set.
    pub depends_on_es_id: Option<u16>,
    /// The place of the stream, in UTF-8, at most 255 bytes. `None` unless `url_flag` is set.
    pub url: Option<Entries<u8>>,
    /// The id of the stream with the clock. `None` unless `ocr_stream_flag` is set.
    pub ocr_es_id: Option<u16>,
}

/// The layout of the options: a byte of bits, and the parts that its flags announce.
pub type EsOptionsShape = Dependent<
    EsFlags,
    (
        If<IfFlags<4>, U16>,
        If<IfFlags<2>, Bytes<U8>>,
        Last<If<IfFlags<1>, U16>>,
    ),
    4,
    1,
>;

impl DeclaredEntry for EsOptions {
    ghost use Rattle.mp4_extra_sound.specs.contracts.esds.EsOptions.{struct};

    type Shape = EsOptionsShape;

    ghost layout = { exact_layout_of struct (λ _. tt) (λ _. refl) };

    fn from_content(found: <EsOptionsShape as Shape>::Value) -> EsOptions {
        box_of!(found => EsOptions { flags, depends_on_es_id, url, ocr_es_id })
    }

    fn visit<Q: EntryVisitor<Self::Shape>>(&self, question: Q, out: &mut [u8]) -> Q::Answer {
        let url = match &self.url {
            Some(url) => Some(url.as_slice()),
            None => None,
        };
        question.visit(
            parts_of!(self => flags, depends_on_es_id, = url, ocr_es_id),
            out,
        )
    }

    ghost begins = { λ _. lit< tt };
}

impl TryClone for EsOptions {
    fn try_clone(&self) -> Result<EsOptions> {
        let url = match &self.url {
            Some(url) => Some(url.try_clone()?),
            None => None,
        };
        Ok(EsOptions { url, ..*self })
    }
}

/// The names of the flags and of the priority.
const FLAG_NAMES: &[NumberName] = &[
    number!("streamDependenceFlag"),
    number!("URL_Flag"),
    number!("OCRstreamFlag"),
    number!("streamPriority"),
];

/// The options, for showing only.
type EsOptionsShown = (
    Bits<EsFlags, 4, 1>,
    If<IfFlags<4>, U16>,
    If<IfFlags<2>, Bytes<U8>>,
    Last<If<IfFlags<1>, U16>>,
);

/// The names of the options.
const OPTIONS: &<EsOptionsShown as NamedShape>::Names = &names_of!(
    FLAG_NAMES,
    number!("dependsOn_ES_ID"),
    run!("URLstring", Text),
    number!("OCR_ES_Id")
);

impl HasFields for EsOptions {
    ghost shown = { λ view d. ⟦<EsOptionsShown as NamedShape>⟧.shown OPTIONS.now view
        (⟦<EsOptions as DeclaredEntry>⟧.layout.content d) };

    ghost whole = { λ view d. ⟦<EsOptionsShown as NamedShape>⟧.whole OPTIONS.now view
        (⟦<EsOptions as DeclaredEntry>⟧.layout.content d) };

    fn show<K: FieldSink>(&self, view: View, sink: &mut K) -> mp4_shown::Result<()> {
        let url = match &self.url {
            Some(url) => Some(url.as_slice()),
            None => None,
        };
        let parts = parts_of!(self => flags, depends_on_es_id, = url, ocr_es_id);
        show_shape::<EsOptionsShown, _, K>(OPTIONS, view, &parts, sink)
    }
}

/// The tag of an elementary stream descriptor.
pub struct EsTag;

impl DescriptorTag for EsTag {
    ghost TAG = { 3 };

    const TAG: u8 = 3;

    ghost is_small = { lit< tt };
}

/// An elementary stream (ES_Descriptor, ISO/IEC 14496-1, 7.2.6.5).
#[derive(Debug, Drop, PartialEq, Eq)]
pub struct EsDescriptor {
    /// The number of bytes of the size of the descriptor, 1 to 4.
    pub size_bytes: u8,
    /// The id of the stream; 0 in a file.
    pub es_id: u16,
    /// The flags, the priority of the stream, and the parts that the flags announce.
    pub options: EsOptions,
    /// The configuration of the decoder.
    pub decoder_config: DecoderConfig,
    /// Further descriptors, the first of which is the configuration of the synchronization layer (tag 6).
    pub descriptors: Entries<Descriptor>,
}

/// The layout of the parts after the size: a number, options, the configuration of the decoder, and descriptors.
type EsParts = (
    U16,
    Nested<EsOptions>,
    Nested<DecoderConfig>,
    Last<EachToEnd<Descriptor>>,
);

/// The parts of an elementary stream descriptor after its size. A separate type keeps proofs short.
pub struct EsContent;

impl Shape for EsContent {
    type Value = (u16, (EsOptions, (DecoderConfig, (Entries<Descriptor>, ()))));

    ghost shape = { ⟦<EsParts as Shape>⟧.shape };

    ghost shape_laws = { ⟦<EsParts as Shape>⟧.shape_laws };

    fn is_fixed() -> bool {
        EsParts::is_fixed()
    }

    fn front(context: Context) -> usize {
        EsParts::front(context)
    }

    fn read(
        alloc: Global,
        bytes: &[u8],
        at: usize,
        end: u64,
        context: Context,
    ) -> Result<(<EsContent as Shape>::Value, usize)> {
        EsParts::read(alloc, bytes, at, end, context)
    }
}

impl<'a> PutShape<
    (
        u16,
        (&'a EsOptions, (&'a DecoderConfig, (&'a [Descriptor], ()))),
    ),
> for EsContent {
    ghost content = { λ v. (v.0, (v.1.0.now, (v.1.1.0.now, (v.1.1.1.0.now, tt)))) };

    fn size(
        context: Context,
        value: (
            u16,
            (&'a EsOptions, (&'a DecoderConfig, (&'a [Descriptor], ()))),
        ),
    ) -> u64 {
        EsParts::size(context, value)
    }

    fn fits(
        context: Context,
        value: (
            u16,
            (&'a EsOptions, (&'a DecoderConfig, (&'a [Descriptor], ()))),
        ),
    ) -> bool {
        EsParts::fits(context, value)
    }

    fn put(
        out: &mut [u8],
        at: usize,
        context: Context,
        value: (
            u16,
            (&'a EsOptions, (&'a DecoderConfig, (&'a [Descriptor], ()))),
        ),
    ) -> usize {
        EsParts::put(out, at, context, value)
    }
}

/// The layout of the descriptor: a tag, a size, and parts.
pub type EsDescriptorShape = Tagged<EsTag, EsContent>;

impl DeclaredEntry for EsDescriptor {
    ghost use Rattle.mp4_extra_sound.specs.contracts.esds.EsDescriptor.{struct};

    type Shape = EsDescriptorShape;

    ghost layout = { exact_layout_of struct (λ _. tt) (λ _. refl) };

    fn from_content(found: <EsDescriptorShape as Shape>::Value) -> EsDescriptor {
        box_of!(found => EsDescriptor { size_bytes, es_id, options, decoder_config, descriptors })
    }

    fn visit<Q: EntryVisitor<Self::Shape>>(&self, question: Q, out: &mut [u8]) -> Q::Answer {
        let options = &self.options;
        let config = &self.decoder_config;
        let parts =
            parts_of!(self => size_bytes, es_id, = options, = config, descriptors.as_slice());
        question.visit(parts, out)
    }

    ghost begins = { λ _. lit< tt };
}

impl TryClone for EsDescriptor {
    fn try_clone(&self) -> Result<EsDescriptor> {
        let options = self.options.try_clone()?;
        let decoder_config = self.decoder_config.try_clone()?;
        let alloc = *self.descriptors.allocator();
        let descriptors = clone_each(alloc, self.descriptors.as_slice())?;
        Ok(EsDescriptor {
            options,
            decoder_config,
            descriptors,
            ..*self
        })
    }
}

/// The descriptor, for showing only.
type EsShown = (
    U8,
    U16,
    Nested<EsOptions>,
    Group<Nested<DecoderConfig>>,
    (EachToEnd<Descriptor>, Last<EachToEnd<Descriptor>>),
);

/// The names of the fields of the descriptor.
const ES: &<EsShown as NamedShape>::Names = &names_of!(
    number!("ES_Descriptor_size_bytes", Reserved(1)),
    number!("ES_ID"),
    (),
    ("decConfigDescr", ()),
    list!("decoder_descriptors"),
    list!("descriptors")
);

impl HasFields for EsDescriptor {
    ghost shown = { λ view d. ⟦<EsShown as NamedShape>⟧.shown ES.now view (
      d.size_bytes,
      (
        d.es_id,
        (
          d.options,
          (
            d.decoder_config,
            (d.decoder_config.descriptors, (d.descriptors, tt)),
          ),
        ),
      ),
    ) };

    ghost whole = { λ view d. ⟦<EsShown as NamedShape>⟧.whole ES.now view (
      d.size_bytes,
      (
        d.es_id,
        (
          d.options,
          (
            d.decoder_config,
            (d.decoder_config.descriptors, (d.descriptors, tt)),
          ),
        ),
      ),
    ) };

    fn show<K: FieldSink>(&self, view: View, sink: &mut K) -> mp4_shown::Result<()> {
        let options = &self.options;
        let config = &self.decoder_config;
        let inner = config.descriptors.as_slice();
        let parts = parts_of!(self => size_bytes, es_id, = options, = config, = inner,
            descriptors.as_slice());
        show_shape::<EsShown, _, K>(ES, view, &parts, sink)
    }
}

/// The elementary stream descriptor (`esds`, ISO/IEC 14496-14, 5.6).
#[derive(Debug, Drop, PartialEq, Eq)]
pub struct Esds {
    /// 0 in the standard.
    pub version: u8,
    /// 24 bits, 0 in the standard.
    pub flags: u32,
    /// The elementary stream.
    pub es: EsDescriptor,
    /// The bytes after the descriptor, up to the end of the box. The standard has none.
    pub rest: Entries<u8>,
}

/// The content of the box: version, flags, a descriptor, and bytes up to its end.
pub type EsdsShape = Full<1, (Nested<EsDescriptor>, Last<Rest>)>;

impl DeclaredBox for Esds {
    ghost use Rattle.mp4_extra_sound.specs.contracts.esds.Esds.{struct};

    type Shape = EsdsShape;

    ghost CODE = { codes.ESDS };

    ghost layout = { layout_of struct (λ _. tt) (λ _. refl) (lit< tt) };

    const CODE: u32 = codes::ESDS;

    fn from_content(found: <EsdsShape as Shape>::Value) -> Esds {
        box_of!(found => Esds { version, flags, es, rest })
    }

    fn visit<Q: ShapeVisitor<Self::Shape>>(&self, out: &mut [u8]) -> Q::Answer {
        let es = &self.es;
        Q::visit(
            parts_of!(self => version, flags, = es, rest.as_slice()),
            out,
        )
    }

    ghost valid = { refl };
}

/// The names of the fields.
const NAMES: &<EsdsShape as NamedShape>::Names = &names_of!(
    VERSION,
    FLAGS,
    (),
    run!("data_bytes", SomeBytes)
);

impl HasFields for Esds {
    ghost shown = { λ view b. ⟦<EsdsShape as NamedShape>⟧.shown NAMES.now view
        (⟦<Esds as DeclaredBox>⟧.layout.content b) };

    ghost whole = { λ view b. ⟦<EsdsShape as NamedShape>⟧.whole NAMES.now view
        (⟦<Esds as DeclaredBox>⟧.layout.content b) };

    fn show<K: FieldSink>(&self, view: View, sink: &mut K) -> mp4_shown::Result<()> {
        let es = &self.es;
        let parts = parts_of!(self => version, flags, = es, rest.as_slice());
        show_shape::<EsdsShape, _, K>(NAMES, view, &parts, sink)
    }
}

impl TryClone for Esds {
    fn try_clone(&self) -> Result<Esds> {
        let es = self.es.try_clone()?;
        let rest = self.rest.try_clone()?;
        Ok(Esds { es, rest, ..*self })
    }
}

/// The elementary stream descriptor box.
pub type EsdsBox = Declared<Esds>;
