//! The FLAC specific box.

ghost use Rattle.mp4_extra_sound.specs.ShownBlocks.{BlockNames, block_data, seen_block, shown_block, stream_info};
ghost use Rattle.mp4_extra_sound.specs.ShownBlocks.{stream_numbers, whole_block};
ghost use Rattle.mp4_extra_sound.specs.declared.dfla.TheConstants.{BLOCK, NAMES, WIDTHS};
ghost use Rattle.mp4_frame.specs.declared.codes.TheConstants as codes;
ghost use Rattle.mp4_shown.specs.Lists.{entry_of};
ghost use Rattle.mp4_shown.specs.Members.{whole_entry};
ghost use Rattle.mp4_shown.specs.Hands.{Hands};
ghost use Rattle.mp4_shown.specs.Numbers.{seen_numbers, shown_numbers};
ghost use Rattle.std.proofs.Common.{refl, lit<, lit≤};
ghost use Rattle.std.specs.Prelude.{◌≡◌, OnOk, false, length};
ghost use Rattle.mp4_declared.specs.OwnBox.{layout_of};
ghost use Rattle.mp4_declared.specs.DeclaredEntry.{exact_layout_of};
ghost use Rattle.mp4_declared.specs.Layout.{packed, fields_of};

mod taken;

use mp4_declared::{
    Bits, Bytes, Count, Declared, DeclaredBox, DeclaredEntry, EachToEnd, EntryLayout, EntryVisitor,
    Full, Last, Shape, ShapeVisitor, box_of, clone_each, entry_of, numbers_of, parts_of,
};
use mp4_frame::{Entries, Result, TryClone, codes, u16_at, u24_at, u64_at};
use mp4_shown::{
    BytesName, FLAGS, FieldSink, HasFields, Meaning, NamedShape, NumberName, ShowShape, ShownEntry,
    VERSION, View, list, names_of, number, put_bytes, put_number, put_numbers, run,
};

/// The first byte of a block of metadata (RFC 9639, 8.1).
#[derive(Clone, Copy, Debug, Default, PartialEq, Eq)]
pub struct FlacBlockKind {
    /// True for the last block.
    pub last_metadata_block_flag: bool,
    /// The kind of data: 0 for the properties of the stream (STREAMINFO), 1 for padding, 2 for data of an application,
    /// 3 for seek points, 4 for comments (VORBIS_COMMENT), 5 for a cue sheet, 6 for a picture. 7 bits; 127 is
    /// forbidden.
    pub block_type: u8,
}

/// The widths of the fields, in bits. A field of one bit is a flag.
const WIDTHS: [u8; 2] = [1, 7];

impl EntryLayout<2, 1> for FlacBlockKind {
    ghost use Rattle.mp4_extra_sound.specs.contracts.dfla.FlacBlockKind.{struct};

    ghost layout = { packed (fields_of WIDTHS) struct.as_values (λ v. struct.make v tt) (λ _. refl) (λ _. refl) refl };

    fn widths() -> [u8; 2] {
        WIDTHS
    }

    fn numbers(&self) -> [u64; 2] {
        numbers_of!(self => last_metadata_block_flag, block_type)
    }

    fn from_numbers(n: &[u64; 2]) -> FlacBlockKind {
        entry_of!(n => FlacBlockKind { last_metadata_block_flag: bool, block_type: u8 })
    }

    ghost few = { lit< tt };
}

/// A count of 24 bits.
pub struct Count24;

impl Count for Count24 {
    ghost WIDTH = { 3 };

    const WIDTH: usize = 3;

    ghost is_short = { (lit≤ tt, lit≤ tt) };
}

/// A block of metadata (RFC 9639, 8.1).
#[derive(Debug, Drop, PartialEq, Eq)]
pub struct FlacMetadataBlock {
    /// The kind of the block.
    pub kind: FlacBlockKind,
    /// The data, at most 2^24 - 1 bytes. A STREAMINFO has 34.
    pub block_data: Entries<u8>,
}

/// The layout of a block: a byte of bits, a count of 24 bits, and that many bytes.
pub type FlacMetadataBlockShape = (Bits<FlacBlockKind, 2, 1>, Last<Bytes<Count24>>);

impl DeclaredEntry for FlacMetadataBlock {
    ghost use Rattle.mp4_extra_sound.specs.contracts.dfla.FlacMetadataBlock.{struct};

    type Shape = FlacMetadataBlockShape;

    ghost layout = { exact_layout_of struct (λ _. tt) (λ _. refl) };

    fn from_content(found: <FlacMetadataBlockShape as Shape>::Value) -> FlacMetadataBlock {
        box_of!(found => FlacMetadataBlock { kind, block_data })
    }

    fn visit<Q: EntryVisitor<Self::Shape>>(&self, question: Q, out: &mut [u8]) -> Q::Answer {
        question.visit(parts_of!(self => kind, block_data.as_slice()), out)
    }

    ghost begins = { λ _. lit< tt };
}

/// The meanings of `BlockType` (RFC 9639, 8.1).
pub const BLOCK_TYPES: &[Meaning] = &[
    (0, "STREAMINFO"),
    (1, "PADDING"),
    (2, "APPLICATION"),
    (3, "SEEKTABLE"),
    (4, "VORBIS_COMMENT"),
    (5, "CUESHEET"),
    (6, "PICTURE"),
    (127, "forbidden"),
];

/// The type of a block and its data, for showing only.
pub struct BlockData;

/// The names of the number of bytes, of the numbers and the checksum of a STREAMINFO, and of other data.
type BlockDataNames = (NumberName, (&'static [NumberName], (BytesName, BytesName)));

impl NamedShape for BlockData {
    type Value = (u8, Entries<u8>);

    type Names = BlockDataNames;

    ghost Seen = { BlockNames };

    ghost seen = { seen_block };

    ghost shown = { λ names view v. shown_block names view.rows v };

    ghost whole = { λ names view v. whole_block names view.rows v };
}

/// Returns the numbers of a STREAMINFO (RFC 9639, 8.2).
fn stream_numbers(data: &[u8]) -> [u64; 8]
    requires { length data.now ≡ 34 }
    ensures { result ≡ stream_numbers data.now }
{
    let bits = u64_at(data, 10);
    [
        u64::from(u16_at(data, 0)),
        u64::from(u16_at(data, 2)),
        u64::from(u24_at(data, 4)),
        u64::from(u24_at(data, 7)),
        bits >> 44,
        (bits >> 41) % 8 + 1,
        (bits >> 36) % 32 + 1,
        bits % (1 << 36),
    ]
}

/// Hands the numbers of a STREAMINFO to a sink.
fn put_stream_numbers<K: FieldSink>(
    names: &'static [NumberName],
    data: &[u8],
    sink: &mut K,
) -> mp4_shown::Result<()>
    requires { length data.now ≡ 34 }
    ensures { OnOk result (Hands K.trace K.after sink.old
        (shown_numbers false (seen_numbers names.entry).now (stream_numbers data.now)) sink.new) }
{
    put_numbers(false, names, &stream_numbers(data), sink)
}

/// Hands the fields of a STREAMINFO to a sink.
fn put_stream_info<K: FieldSink>(
    names: BlockDataNames,
    rows: usize,
    data: &[u8],
    sink: &mut K,
) -> mp4_shown::Result<()>
    requires { length data.now ≡ 34 }
    ensures { OnOk result (Hands K.trace K.after sink.old
        (stream_info (seen_block names.entry) rows data.now) sink.new) }
{
    let (_, (numbers, (checksum, _))) = names;
    put_stream_numbers(numbers, data, sink)?;
    put_bytes(checksum, rows, &data[18..], sink)
}

/// Hands the data of a block to a sink.
fn put_data<K: FieldSink>(
    names: BlockDataNames,
    rows: usize,
    block_type: u8,
    data: &[u8],
    sink: &mut K,
) -> mp4_shown::Result<()>
    ensures { OnOk result (Hands K.trace K.after sink.old
        (block_data (seen_block names.entry) rows block_type data.now) sink.new) }
{
    if block_type == 0 && data.len() == 34 {
        put_stream_info(names, rows, data, sink)
    } else {
        put_bytes(names.1.1.1, rows, data, sink)
    }
}

impl<'a> ShowShape<(u8, &'a [u8])> for BlockData {
    ghost content = { λ v. (v.0, v.1.now) };

    fn show<K: FieldSink>(
        names: &Self::Names,
        view: View,
        value: &(u8, &'a [u8]),
        sink: &mut K,
    ) -> mp4_shown::Result<()> {
        put_number(names.0, value.1.len() as u64, sink)?;
        put_data(*names, view.rows, value.0, value.1, sink)
    }
}

/// A block, for showing only.
type BlockShown = (Bits<FlacBlockKind, 2, 1>, BlockData);

/// The names of the kind of a block.
const KIND: &[NumberName] = &[
    number!("LastMetadataBlockFlag"),
    number!("BlockType", Named, BLOCK_TYPES),
];

/// The names of the numbers of a STREAMINFO.
const STREAM: &[NumberName] = &[
    number!("minimum_block_size"),
    number!("maximum_block_size"),
    number!("minimum_frame_size"),
    number!("maximum_frame_size"),
    number!("sample_rate"),
    number!("channels"),
    number!("bits_per_sample"),
    number!("total_samples"),
];

/// The names of the fields of a block.
const BLOCK: &<BlockShown as NamedShape>::Names = &(
    KIND,
    (
        number!("Length"),
        (STREAM, (run!("MD5", Bytes), run!("BlockData", Bytes))),
    ),
);

impl ShownEntry for FlacMetadataBlock {
    ghost shown = { λ view x. entry_of (⟦<BlockShown as NamedShape>⟧.shown BLOCK.now view
        (x.kind, (x.kind.block_type, x.block_data))) };

    ghost whole = { λ view x. whole_entry (⟦<BlockShown as NamedShape>⟧.shown BLOCK.now view
        (x.kind, (x.kind.block_type, x.block_data)))
        (⟦<BlockShown as NamedShape>⟧.whole BLOCK.now view (x.kind, (x.kind.block_type, x.block_data))) };

    fn show<K: FieldSink>(&self, view: View, sink: &mut K) -> mp4_shown::Result<()> {
        let data = (self.kind.block_type, self.block_data.as_slice());
        sink.begin_entry()?;
        BlockShown::show(BLOCK, view, &(self.kind, data), sink)?;
        sink.end_entry()
    }
}

impl TryClone for FlacMetadataBlock {
    fn try_clone(&self) -> Result<FlacMetadataBlock> {
        let block_data = self.block_data.try_clone()?;
        Ok(FlacMetadataBlock {
            block_data,
            ..*self
        })
    }
}

/// The configuration of a FLAC decoder (`dfLa`, Encapsulation of FLAC in ISO Base Media File Format, 3.3.2).
#[derive(Debug, Drop, PartialEq, Eq)]
pub struct Dfla {
    /// 0 in the standard.
    pub version: u8,
    /// 24 bits, 0 in the standard.
    pub flags: u32,
    /// The blocks of metadata of a FLAC stream. The first is its STREAMINFO.
    pub metadata_blocks: Entries<FlacMetadataBlock>,
}

/// The content of the box: version, flags, and blocks of metadata up to its end.
pub type DflaShape = Full<1, Last<EachToEnd<FlacMetadataBlock>>>;

impl DeclaredBox for Dfla {
    ghost use Rattle.mp4_extra_sound.specs.contracts.dfla.Dfla.{struct};

    type Shape = DflaShape;

    ghost CODE = { codes.DFLA };

    ghost layout = { layout_of struct (λ _. tt) (λ _. refl) (lit< tt) };

    const CODE: u32 = codes::DFLA;

    fn from_content(found: <DflaShape as Shape>::Value) -> Dfla {
        box_of!(found => Dfla { version, flags, metadata_blocks })
    }

    fn visit<Q: ShapeVisitor<Self::Shape>>(&self, out: &mut [u8]) -> Q::Answer {
        Q::visit(
            parts_of!(self => version, flags, metadata_blocks.as_slice()),
            out,
        )
    }

    ghost valid = { refl };
}

/// The names of the fields.
const NAMES: &<DflaShape as NamedShape>::Names = &names_of!(
    VERSION,
    FLAGS,
    list!("metadata_blocks")
);

impl HasFields for Dfla {
    ghost shown = { λ view b. ⟦<DflaShape as NamedShape>⟧.shown NAMES.now view
        (⟦<Dfla as DeclaredBox>⟧.layout.content b) };

    ghost whole = { λ view b. ⟦<DflaShape as NamedShape>⟧.whole NAMES.now view
        (⟦<Dfla as DeclaredBox>⟧.layout.content b) };

    fn show<K: FieldSink>(&self, view: View, sink: &mut K) -> mp4_shown::Result<()> {
        let parts = parts_of!(self => version, flags, metadata_blocks.as_slice());
        DflaShape::show(NAMES, view, &parts, sink)
    }
}

impl TryClone for Dfla {
    fn try_clone(&self) -> Result<Dfla> {
        let alloc = *self.metadata_blocks.allocator();
        let metadata_blocks = clone_each(alloc, self.metadata_blocks.as_slice())?;
        Ok(Dfla {
            metadata_blocks,
            ..*self
        })
    }
}

/// The FLAC specific box.
pub type DflaBox = Declared<Dfla>;
