//! The track fragment random access box.

ghost use Rattle.mp4_extra_samples.specs.ShownAccesses.{access_numbers, access_size, shown_access, whole_access};
ghost use Rattle.mp4_extra_samples.specs.ShownAccesses.{width_of};
ghost use Rattle.mp4_extra_samples.specs.declared.tfra.TheConstants.{NAMES, WIDTHS};
ghost use Rattle.mp4_declared.specs.Shape.{time_width};
ghost use Rattle.mp4_frame.specs.declared.codes.TheConstants as codes;
ghost use Rattle.std.proofs.Common.{refl, lit<};
ghost use Rattle.std.specs.Prelude.{◌≡◌, ◌≤◌, length};
ghost use Rattle.mp4_declared.specs.OwnBox.{layout_of};
ghost use Rattle.mp4_declared.specs.Layout.{packed, fields_of};

mod taken;

use mp4_declared::{
    Bits, Declared, DeclaredBox, EntryLayout, Full, Last, Rest, Shape, ShapeVisitor, U32, box_of,
    entry_of, numbers_of, parts_of,
};
use mp4_frame::{Entries, Result, TryClone, codes};
use mp4_shown::{
    FLAGS, FieldSink, HasFields, NamedShape, NumberName, Pieces, PiecesOf, ShowShape, VERSION,
    View, list, number, number_at, put_numbers, run,
};

/// The numbers of bytes of three fields in each entry of a `tfra`, each minus one.
#[derive(Clone, Copy, Debug, Default, PartialEq, Eq)]
pub struct TfraLengths {
    /// 0 in the standard. 26 bits.
    pub reserved: u32,
    /// The number of bytes of `traf_number`, minus one. 2 bits.
    pub length_size_of_traf_num: u8,
    /// The number of bytes of `trun_number`, minus one. 2 bits.
    pub length_size_of_trun_num: u8,
    /// The number of bytes of `sample_number`, minus one. 2 bits.
    pub length_size_of_sample_num: u8,
}

/// The widths of the fields, in bits.
const WIDTHS: [u8; 4] = [26, 2, 2, 2];

impl EntryLayout<4, 4> for TfraLengths {
    ghost use Rattle.mp4_extra_samples.specs.contracts.tfra.TfraLengths.{struct};

    ghost layout = { packed (fields_of WIDTHS) struct.as_values (λ v. struct.make v tt) (λ _. refl) (λ _. refl) refl };

    fn widths() -> [u8; 4] {
        WIDTHS
    }

    fn numbers(&self) -> [u64; 4] {
        numbers_of!(self => reserved, length_size_of_traf_num, length_size_of_trun_num, length_size_of_sample_num)
    }

    fn from_numbers(n: &[u64; 4]) -> TfraLengths {
        entry_of!(n => TfraLengths { reserved: u32, length_size_of_traf_num: u8, length_size_of_trun_num: u8,
            length_size_of_sample_num: u8 })
    }

    ghost few = { lit< tt };
}

/// The positions of a track's random access samples in fragments (`tfra`, ISO/IEC 14496-12, 8.8.10).
#[derive(Debug, Drop, PartialEq, Eq)]
pub struct Tfra {
    /// 0, or 1 for times and offsets of 64 bits.
    pub version: u8,
    /// 24 bits, 0 in the standard.
    pub flags: u32,
    /// The track (`track_ID`).
    pub track_id: u32,
    /// The sizes of the numbers in each entry.
    pub lengths: TfraLengths,
    /// The number of entries.
    pub number_of_entry: u32,
    /// The bytes of the entries, one for each random access sample. The fields are:
    ///
    /// - the presentation time of the sample (`time`) and the offset of its `moof` in the file (`moof_offset`), 32 bits
    ///   each in version 0, 64 bits each in version 1,
    /// - the number of the `traf` in the `moof` (`traf_number`), of the `trun` in the `traf` (`trun_number`), and of
    ///   the sample in the `trun` (`sample_number`). They start at 1, and `lengths` gives their sizes.
    pub entries: Entries<u8>,
}

/// The content of the box: version, flags, a number, four bytes of bits, a number, and bytes up to its end.
pub type TfraShape = Full<2, (U32, Bits<TfraLengths, 4, 4>, U32, Last<Rest>)>;

impl DeclaredBox for Tfra {
    ghost use Rattle.mp4_extra_samples.specs.contracts.tfra.Tfra.{struct};

    type Shape = TfraShape;

    ghost CODE = { codes.TFRA };

    ghost layout = { layout_of struct (λ _. tt) (λ _. refl) (lit< tt) };

    const CODE: u32 = codes::TFRA;

    fn from_content(found: <TfraShape as Shape>::Value) -> Tfra {
        box_of!(found => Tfra { version, flags, track_id, lengths, number_of_entry, entries })
    }

    fn visit<Q: ShapeVisitor<Self::Shape>>(&self, out: &mut [u8]) -> Q::Answer {
        let parts = parts_of!(self => version, flags, track_id, lengths, number_of_entry,
            entries.as_slice());
        Q::visit(parts, out)
    }

    ghost valid = { refl };
}

/// The names of the sizes of the numbers in each entry.
const LENGTHS: &[NumberName] = &[
    number!("reserved", Reserved(0)),
    number!("length_size_of_traf_num"),
    number!("length_size_of_trun_num"),
    number!("length_size_of_sample_num"),
];

/// The names of the fields of an entry.
const ACCESS: &[NumberName] = &[
    number!("time"),
    number!("moof_offset"),
    number!("traf_number"),
    number!("trun_number"),
    number!("sample_number"),
];

/// The entries of a box with this version and these sizes, for showing only.
#[derive(Clone, Copy, Drop)]
pub struct Accesses {
    /// The version of the box.
    pub version: u8,
    /// The sizes of the numbers in each entry.
    pub lengths: TfraLengths,
}

/// Returns the number of bytes of a time or of an offset in a version.
fn time_width(version: u8) -> usize
    ensures { result ≡ time_width version }
{
    if version == 0 { 4 } else { 8 }
}

/// Returns the number of bytes of a number whose `length` has two bits.
fn width_of(length: u8) -> usize
    ensures { result ≡ width_of length }
{
    usize::from(length % 4) + 1
}

/// Returns the numbers of the entry at the front of `bytes`.
fn access_numbers(accesses: Accesses, bytes: &[u8]) -> [u64; 5]
    requires { access_size accesses ≤ length bytes.now }
    ensures { result ≡ access_numbers accesses bytes.now }
{
    let time = time_width(accesses.version);
    let traf = width_of(accesses.lengths.length_size_of_traf_num);
    let trun = width_of(accesses.lengths.length_size_of_trun_num);
    let sample = width_of(accesses.lengths.length_size_of_sample_num);
    [
        number_at(bytes, 0, time),
        number_at(bytes, time, time),
        number_at(bytes, 2 * time, traf),
        number_at(bytes, 2 * time + traf, trun),
        number_at(bytes, 2 * time + traf + trun, sample),
    ]
}

impl Pieces for Accesses {
    ghost size_of = { λ accesses bytes. access_size accesses };

    ghost shown = { λ accesses view bytes. shown_access accesses bytes };

    ghost whole = { λ accesses view bytes. whole_access accesses bytes };

    fn size(&self, _bytes: &[u8]) -> usize {
        2 * time_width(self.version)
            + width_of(self.lengths.length_size_of_traf_num)
            + width_of(self.lengths.length_size_of_trun_num)
            + width_of(self.lengths.length_size_of_sample_num)
    }

    fn show<K: FieldSink>(&self, _view: View, bytes: &[u8], sink: &mut K) -> mp4_shown::Result<()> {
        put_numbers(false, ACCESS, &access_numbers(*self, bytes), sink)
    }
}

/// The content of the box, for showing only.
type TfraShown = Full<2, (U32, Bits<TfraLengths, 4, 4>, U32, PiecesOf<Accesses>)>;

/// The names of the fields.
const NAMES: &<TfraShown as NamedShape>::Names = &(
    VERSION,
    (
        FLAGS,
        (
            number!("track_ID"),
            (
                LENGTHS,
                (
                    number!("number_of_entry"),
                    (
                        list!("entries"),
                        (run!("data_bytes", Bytes), run!("data_bytes", SomeBytes)),
                    ),
                ),
            ),
        ),
    ),
);

impl HasFields for Tfra {
    ghost shown = { λ view b. ⟦<TfraShown as NamedShape>⟧.shown NAMES.now view (
      b.version,
      (
        b.flags,
        (
          b.track_id,
          (
            b.lengths,
            (
              b.number_of_entry,
              (
                record { version = b.version; lengths = b.lengths },
                (b.number_of_entry, b.entries),
              ),
            ),
          ),
        ),
      ),
    ) };

    ghost whole = { λ view b. ⟦<TfraShown as NamedShape>⟧.whole NAMES.now view (
      b.version,
      (
        b.flags,
        (
          b.track_id,
          (
            b.lengths,
            (
              b.number_of_entry,
              (
                record { version = b.version; lengths = b.lengths },
                (b.number_of_entry, b.entries),
              ),
            ),
          ),
        ),
      ),
    ) };

    fn show<K: FieldSink>(&self, view: View, sink: &mut K) -> mp4_shown::Result<()> {
        let accesses = Accesses {
            version: self.version,
            lengths: self.lengths,
        };
        let entries = (
            accesses,
            (self.number_of_entry as usize, self.entries.as_slice()),
        );
        let numbers = (self.lengths, (self.number_of_entry, entries));
        TfraShown::show(
            NAMES,
            view,
            &(self.version, (self.flags, (self.track_id, numbers))),
            sink,
        )
    }
}

impl TryClone for Tfra {
    fn try_clone(&self) -> Result<Tfra> {
        let entries = self.entries.try_clone()?;
        Ok(Tfra { entries, ..*self })
    }
}

/// The track fragment random access box.
pub type TfraBox = Declared<Tfra>;
