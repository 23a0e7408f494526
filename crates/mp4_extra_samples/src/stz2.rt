//! The compact sample sizes box.

ghost use Rattle.mp4_extra_samples.specs.ShownSizes.{SizesNames as SeenNames, are_sizes, half_at, padding, room_of};
ghost use Rattle.mp4_extra_samples.specs.ShownSizes.{shown_sizes, size_at, size_items, whole_sizes};
ghost use Rattle.mp4_extra_samples.specs.declared.stz2.TheConstants.{NAMES};
ghost use Rattle.mp4_frame.specs.declared.codes.TheConstants as codes;
ghost use Rattle.mp4_shown.specs.Event.{seen_text};
ghost use Rattle.mp4_shown.specs.Hands.{Hands};
ghost use Rattle.mp4_shown.specs.Numbers.{seen_number};
ghost use Rattle.mp4_shown.specs.Runs.{seen_bytes};
ghost use Rattle.std.proofs.Common.{refl, lit<};
ghost use Rattle.std.specs.Prelude.{◌≡◌, ◌≤◌, ◌^◌, OnOk, min};
ghost use Rattle.mp4_declared.specs.OwnBox.{layout_of};

mod taken;

use mp4_declared::{
    Declared, DeclaredBox, Full, Last, Reserved, Rest, Shape, ShapeVisitor, U8, U32, box_of,
    parts_of,
};
use mp4_frame::{Entries, Result, TryClone, codes};
use mp4_shown::{
    BytesName, FLAGS, FieldSink, HasFields, NamedShape, NumberName, ShowShape, VERSION, Value,
    View, byte_at, number, put_bytes, put_number, run,
};

/// The sizes of samples in 4, 8 or 16 bits each (`stz2`, ISO/IEC 14496-12, 8.7.3.3). An `stsz` has 32.
#[derive(Debug, Drop, PartialEq, Eq)]
pub struct Stz2 {
    /// 0 in the standard.
    pub version: u8,
    /// 24 bits, 0 in the standard.
    pub flags: u32,
    /// The number of bits of each size: 4, 8 or 16.
    pub field_size: u8,
    /// The number of samples in the track.
    pub sample_count: u32,
    /// The bytes of the samples' sizes (`entry_size`), each `field_size` bits long. Of two sizes of 4 bits in a byte,
    /// the first is in the upper half. The lower half of the last byte is 0 if the number of samples is odd.
    pub entry_sizes: Entries<u8>,
}

/// The content of the box: version, flags, three reserved bytes, two numbers, and bytes up to its end.
pub type Stz2Shape = Full<1, Reserved<3, (U8, U32, Last<Rest>)>>;

impl DeclaredBox for Stz2 {
    ghost use Rattle.mp4_extra_samples.specs.contracts.stz2.Stz2.{struct};

    type Shape = Stz2Shape;

    ghost CODE = { codes.STZ2 };

    ghost layout = { layout_of struct (λ _. tt) (λ _. refl) (lit< tt) };

    const CODE: u32 = codes::STZ2;

    fn from_content(found: <Stz2Shape as Shape>::Value) -> Stz2 {
        box_of!(found => Stz2 { version, flags, field_size, sample_count, entry_sizes })
    }

    fn visit<Q: ShapeVisitor<Self::Shape>>(&self, out: &mut [u8]) -> Q::Answer {
        let parts = parts_of!(self => version, flags, field_size, sample_count,
            entry_sizes.as_slice());
        Q::visit(parts, out)
    }

    ghost valid = { refl };
}

/// Returns the number of bytes of `count` sizes of `bits` bits.
fn room_of(bits: u8, count: u32) -> usize
    ensures { result ≡ room_of bits count }
{
    (usize::from(bits) * count as usize + 7) / 8
}

/// Returns whether `bytes` have `count` sizes of 4, 8 or 16 bits.
fn are_sizes(bits: u8, count: u32, bytes: &[u8]) -> bool
    ensures { result ≡ are_sizes bits count bytes.now }
{
    (bits == 4 || bits == 8 || bits == 16) && room_of(bits, count) <= bytes.len()
}

/// Returns the size of 4 bits of the sample with this `index`, counted from 0.
fn half_at(bytes: &[u8], index: usize) -> u8
    ensures { result ≡ half_at bytes.now index }
{
    if index % 2 == 0 {
        byte_at(bytes, index / 2) / 16
    } else {
        byte_at(bytes, index / 2) % 16
    }
}

/// Returns the size of the sample with this `index`, counted from 0.
fn size_at(bits: u8, bytes: &[u8], index: usize) -> u64
    requires { index ≤ 2 ^ 32 }
    ensures { result ≡ size_at bits bytes.now index }
{
    if bits == 4 {
        u64::from(half_at(bytes, index))
    } else if bits == 8 {
        u64::from(byte_at(bytes, index))
    } else {
        u64::from(byte_at(bytes, 2 * index)) * 256 + u64::from(byte_at(bytes, 2 * index + 1))
    }
}

/// Returns the bits after an odd number of sizes of 4 bits.
fn padding(bits: u8, count: u32, bytes: &[u8]) -> u8
    ensures { result ≡ padding bits count bytes.now }
{
    if bits == 4 && count % 2 == 1 {
        byte_at(bytes, (count / 2) as usize) % 16
    } else {
        0
    }
}

/// Hands the first `count` sizes to a sink.
fn put_sizes<K: FieldSink>(
    bits: u8,
    bytes: &[u8],
    count: u32,
    sink: &mut K,
) -> mp4_shown::Result<()>
    ensures { OnOk result (Hands K.trace K.after sink.old (size_items bits bytes.now 0 count) sink.new) }
{
    let mut index = 0;
    let mut left = count;
    while left > 0 {
        sink.item(Value::Number(size_at(bits, bytes, index)))?;
        index += 1;
        left -= 1;
    }
    Ok(())
}

/// The number of bits of each size, the number of sizes and their bytes, for showing only.
pub struct SampleSizes;

/// The names of the list of sizes, of the bits after an odd number of sizes of 4 bits, of the bytes if they are too
/// few, and of bytes after the sizes.
type SizesNames = (&'static str, (NumberName, (BytesName, BytesName)));

impl NamedShape for SampleSizes {
    type Value = (u8, (u32, Entries<u8>));

    type Names = SizesNames;

    ghost Seen = { SeenNames };

    ghost seen = { λ names. (
      seen_text names.0,
      (
        seen_number names.1.0,
        (seen_bytes names.1.1.0, seen_bytes names.1.1.1),
      ),
    ) };

    ghost shown = { λ names view v. shown_sizes names view.rows v };

    ghost whole = { λ names view v. whole_sizes names view.rows v };
}

/// Returns the smaller of `count` and `rows`.
fn least(count: u32, rows: usize) -> u32
    ensures { result ≡ min count rows }
{
    if rows < count as usize {
        rows as u32
    } else {
        count
    }
}

impl<'a> ShowShape<(u8, (u32, &'a [u8]))> for SampleSizes {
    ghost content = { λ v. (v.0, (v.1.0, v.1.1.now)) };

    fn show<K: FieldSink>(
        names: &SizesNames,
        view: View,
        value: &(u8, (u32, &'a [u8])),
        sink: &mut K,
    ) -> mp4_shown::Result<()> {
        let (name, (padding_name, (too_few, rest))) = *names;
        let (bits, (count, bytes)) = *value;
        if !are_sizes(bits, count, bytes) {
            return put_bytes(too_few, view.rows, bytes, sink);
        }
        sink.begin_list(name, count as usize)?;
        put_sizes(bits, bytes, least(count, view.rows), sink)?;
        sink.end_list()?;
        put_number(padding_name, u64::from(padding(bits, count, bytes)), sink)?;
        put_bytes(rest, view.rows, &bytes[room_of(bits, count)..], sink)
    }
}

/// The content of the box, for showing only.
type Stz2Shown = Full<1, (U8, U32, SampleSizes)>;

/// The names of the fields.
const NAMES: &<Stz2Shown as NamedShape>::Names = &(
    VERSION,
    (
        FLAGS,
        (
            number!("field_size"),
            (
                number!("sample_count"),
                (
                    "entry_size",
                    (
                        number!("padding", Reserved(0)),
                        (run!("data_bytes", Bytes), run!("data_bytes", SomeBytes)),
                    ),
                ),
            ),
        ),
    ),
);

impl HasFields for Stz2 {
    ghost shown = { λ view b. ⟦<Stz2Shown as NamedShape>⟧.shown NAMES.now view (
      b.version,
      (
        b.flags,
        (
          b.field_size,
          (b.sample_count, (b.field_size, (b.sample_count, b.entry_sizes))),
        ),
      ),
    ) };

    ghost whole = { λ view b. ⟦<Stz2Shown as NamedShape>⟧.whole NAMES.now view (
      b.version,
      (
        b.flags,
        (
          b.field_size,
          (b.sample_count, (b.field_size, (b.sample_count, b.entry_sizes))),
        ),
      ),
    ) };

    fn show<K: FieldSink>(&self, view: View, sink: &mut K) -> mp4_shown::Result<()> {
        let sizes = (
            self.field_size,
            (self.sample_count, self.entry_sizes.as_slice()),
        );
        let numbers = (self.field_size, (self.sample_count, sizes));
        Stz2Shown::show(NAMES, view, &(self.version, (self.flags, numbers)), sink)
    }
}

impl TryClone for Stz2 {
    fn try_clone(&self) -> Result<Stz2> {
        let entry_sizes = self.entry_sizes.try_clone()?;
        Ok(Stz2 {
            entry_sizes,
            ..*self
        })
    }
}

/// The compact sample sizes box.
pub type Stz2Box = Declared<Stz2>;
