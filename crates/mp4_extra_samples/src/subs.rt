//! The sub-sample information box.

ghost use Rattle.mp4_shown.specs.TakenShapes.{entry_made};
ghost use Rattle.mp4_shown.specs.TakenShapes.{declared_taken};
ghost use Rattle.mp4_extra_samples.specs.declared.subs.TheConstants.{LONG, NAMES, SAMPLE, SHORT};
ghost use Rattle.mp4_frame.specs.declared.codes.TheConstants as codes;
ghost use Rattle.mp4_shown.specs.Lists.{entry_of};
ghost use Rattle.mp4_shown.specs.Members.{whole_entry};
ghost use Rattle.std.proofs.Common.{refl, lit<};
ghost use Rattle.mp4_declared.specs.OwnBox.{layout_of};
ghost use Rattle.mp4_declared.specs.DeclaredEntry.{exact_layout_of};
ghost use Rattle.mp4_declared.specs.Layout.{packed, fields_of};
ghost use Rattle.mp4_declared.specs.DeclaredEntryLaws.{some_first};

use mp4_declared::{
    Context, Declared, DeclaredBox, DeclaredEntry, Each, EntryLayout, EntryVisitor, Full, Last,
    ListByVersion, Shape, ShapeVisitor, U16, U32, box_of, clone_each, entry_of, numbers_of,
    parts_of,
};
use mp4_frame::{Entries, Result, TryClone, codes};
use mp4_shown::taken::{self, Object, TakeEntry, TakeFields, TakeShape, take_declared, take_entry};
use mp4_shown::{
    FLAGS, FieldSink, HasFields, NamedShape, NumberName, ShowShape, ShownEntry, VERSION, View,
    list, names_of, number,
};
use std::alloc::Global;

/// A part of a sample: some of its consecutive bytes.
#[derive(Clone, Copy, Debug, Default, PartialEq, Eq)]
pub struct Subsample {
    /// The number of bytes of the part. 16 bits in version 0.
    pub subsample_size: u32,
    /// The importance of the part for the decoded quality: a higher value means more important.
    pub subsample_priority: u8,
    /// 0 if the sample cannot be decoded without the part, 1 if it can.
    pub discardable: u8,
    /// A value that the coding of the samples defines; 0 if it defines none.
    pub codec_specific_parameters: u32,
}

/// The widths of the fields in version 0, in bits.
const SHORT: [u8; 4] = [16, 8, 8, 32];

impl EntryLayout<4, 8> for Subsample {
    ghost use Rattle.mp4_extra_samples.specs.contracts.subs.Subsample.{struct};

    ghost layout = { packed (fields_of SHORT) struct.as_values (λ v. struct.make v tt) (λ _. refl) (λ _. refl) refl };

    fn widths() -> [u8; 4] {
        SHORT
    }

    fn numbers(&self) -> [u64; 4] {
        numbers_of!(self => subsample_size, subsample_priority, discardable, codec_specific_parameters)
    }

    fn from_numbers(n: &[u64; 4]) -> Subsample {
        entry_of!(n => Subsample { subsample_size: u32, subsample_priority: u8, discardable: u8,
            codec_specific_parameters: u32 })
    }

    ghost few = { lit< tt };
}

/// The widths of the fields in version 1, in bits.
const LONG: [u8; 4] = [32, 8, 8, 32];

impl EntryLayout<4, 10> for Subsample {
    ghost use Rattle.mp4_extra_samples.specs.contracts.subs.Subsample.{struct};

    ghost layout = { packed (fields_of LONG) struct.as_values (λ v. struct.make v tt) (λ _. refl) (λ _. refl) refl };

    fn widths() -> [u8; 4] {
        LONG
    }

    fn numbers(&self) -> [u64; 4] {
        numbers_of!(self => subsample_size, subsample_priority, discardable, codec_specific_parameters)
    }

    fn from_numbers(n: &[u64; 4]) -> Subsample {
        entry_of!(n => Subsample { subsample_size: u32, subsample_priority: u8, discardable: u8,
            codec_specific_parameters: u32 })
    }

    ghost few = { lit< tt };
}

/// A sample and its parts.
#[derive(Debug, Drop, PartialEq, Eq)]
pub struct SubsEntry {
    /// The distance, in decoding order, from the sample of the entry before. In the first entry it is the sample's
    /// number in the track or fragment, starting at 1.
    pub sample_delta: u32,
    /// The parts of the sample, in the order of its bytes, at most 65,535. Empty if the sample is not divided.
    pub subsamples: Entries<Subsample>,
}

/// The layout of an entry: a number, a count of 16 bits, and that many parts. Parts are longer in version 1.
pub type SubsEntryShape = (U32, Last<ListByVersion<U16, Subsample, 4, 8, 10>>);

impl DeclaredEntry for SubsEntry {
    ghost use Rattle.mp4_extra_samples.specs.contracts.subs.SubsEntry.{struct};

    type Shape = SubsEntryShape;

    ghost layout = { exact_layout_of struct (λ _. tt) (λ _. refl) };

    fn from_content(found: <SubsEntryShape as Shape>::Value) -> SubsEntry {
        box_of!(found => SubsEntry { sample_delta, subsamples })
    }

    fn visit<Q: EntryVisitor<Self::Shape>>(&self, question: Q, out: &mut [u8]) -> Q::Answer {
        question.visit(parts_of!(self => sample_delta, subsamples.as_slice()), out)
    }

    ghost begins = { λ _. some_first 4 _ (lit< tt) };
}

/// The names of the fields of a part.
const PART: &[NumberName] = &[
    number!("subsample_size"),
    number!("subsample_priority"),
    number!("discardable"),
    number!("codec_specific_parameters"),
];

/// The names of the fields of a sample.
const SAMPLE: &<SubsEntryShape as NamedShape>::Names = &names_of!(
    number!("sample_delta"),
    (list!("subsamples"), PART)
);

impl ShownEntry for SubsEntry {
    ghost shown = { λ view x. entry_of (⟦<SubsEntryShape as NamedShape>⟧.shown SAMPLE.now view
        (⟦<SubsEntry as DeclaredEntry>⟧.layout.content x)) };

    ghost whole = { λ view x. whole_entry (⟦<SubsEntryShape as NamedShape>⟧.shown SAMPLE.now view
        (⟦<SubsEntry as DeclaredEntry>⟧.layout.content x))
        (⟦<SubsEntryShape as NamedShape>⟧.whole SAMPLE.now view (⟦<SubsEntry as DeclaredEntry>⟧.layout.content x)) };

    fn show<K: FieldSink>(&self, view: View, sink: &mut K) -> mp4_shown::Result<()> {
        sink.begin_entry()?;
        SubsEntryShape::show(
            SAMPLE,
            view,
            &parts_of!(self => sample_delta, subsamples.as_slice()),
            sink,
        )?;
        sink.end_entry()
    }
}

impl TakeEntry for SubsEntry {
    ghost taken = { λ c j. entry_made ⟦<SubsEntry as DeclaredEntry>⟧.layout.value
        (⟦<SubsEntryShape as TakeShape>⟧.taken SAMPLE.now c) j };

    fn take(alloc: Global, context: Context, value: json::Value<'_>) -> taken::Result<SubsEntry> {
        take_entry::<SubsEntry, SubsEntryShape>(alloc, SAMPLE, context, value)
    }
}

impl TryClone for SubsEntry {
    fn try_clone(&self) -> Result<SubsEntry> {
        let subsamples = self.subsamples.try_clone()?;
        Ok(SubsEntry {
            subsamples,
            ..*self
        })
    }
}

/// The parts of samples (`subs`, ISO/IEC 14496-12, 8.7.7).
#[derive(Debug, Drop, PartialEq, Eq)]
pub struct Subs {
    /// 0, or 1 for parts with sizes of 32 bits.
    pub version: u8,
    /// 24 bits. Their meaning depends on the coding of the samples.
    pub flags: u32,
    /// The samples that the box describes, in decoding order, at most 2^32 - 1.
    pub entries: Entries<SubsEntry>,
}

/// The content of the box: version, flags, a count of 32 bits, and that many samples, each with its parts.
pub type SubsShape = Full<2, Last<Each<U32, SubsEntry>>>;

impl DeclaredBox for Subs {
    ghost use Rattle.mp4_extra_samples.specs.contracts.subs.Subs.{struct};

    type Shape = SubsShape;

    ghost CODE = { codes.SUBS };

    ghost layout = { layout_of struct (λ _. tt) (λ _. refl) (lit< tt) };

    const CODE: u32 = codes::SUBS;

    fn from_content(found: <SubsShape as Shape>::Value) -> Subs {
        box_of!(found => Subs { version, flags, entries })
    }

    fn visit<Q: ShapeVisitor<Self::Shape>>(&self, out: &mut [u8]) -> Q::Answer {
        Q::visit(parts_of!(self => version, flags, entries.as_slice()), out)
    }

    ghost valid = { refl };
}

/// The names of the fields.
const NAMES: &<SubsShape as NamedShape>::Names = &names_of!(
    VERSION,
    FLAGS,
    list!("entries", Counted, "entry_count")
);

impl HasFields for Subs {
    ghost shown = { λ view b. ⟦<SubsShape as NamedShape>⟧.shown NAMES.now view
        (⟦<Subs as DeclaredBox>⟧.layout.content b) };

    ghost whole = { λ view b. ⟦<SubsShape as NamedShape>⟧.whole NAMES.now view
        (⟦<Subs as DeclaredBox>⟧.layout.content b) };

    fn show<K: FieldSink>(&self, view: View, sink: &mut K) -> mp4_shown::Result<()> {
        let parts = parts_of!(self => version, flags, entries.as_slice());
        SubsShape::show(NAMES, view, &parts, sink)
    }
}

impl TakeFields for Subs {
    ghost taken = { declared_taken ⟦<Subs as DeclaredBox>⟧.layout (⟦<SubsShape as TakeShape>⟧.taken NAMES.now) };

    fn take(alloc: Global, object: &mut Object<'_>) -> taken::Result<Subs> {
        take_declared::<Subs, SubsShape>(alloc, NAMES, object)
    }
}

impl TryClone for Subs {
    fn try_clone(&self) -> Result<Subs> {
        let alloc = *self.entries.allocator();
        let entries = clone_each(alloc, self.entries.as_slice())?;
        Ok(Subs { entries, ..*self })
    }
}

/// The sub-sample information box.
pub type SubsBox = Declared<Subs>;
