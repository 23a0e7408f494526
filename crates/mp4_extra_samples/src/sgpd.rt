//! The sample group description box.

ghost use Rattle.mp4_extra_samples.specs.ShownGroups.{bit_and_rest, constant_size, encryption_numbers, has_constant};
ghost use Rattle.mp4_extra_samples.specs.ShownGroups.{kind_in, kind_of, own_length, shown_by, shown_constant};
ghost use Rattle.mp4_extra_samples.specs.ShownGroups.{shown_description, shown_encryption, shown_kind, size_by};
ghost use Rattle.mp4_extra_samples.specs.ShownGroups.{usual_size, whole_by};
ghost use Rattle.mp4_extra_samples.specs.declared.sgpd.TheConstants.{NAMES};
ghost use Rattle.mp4_extra_samples.specs.declared.sgpd.GroupKind.TheVariants as kinds;
ghost use Rattle.mp4_frame.specs.declared.codes.TheConstants as codes;
ghost use Rattle.mp4_shown.specs.Hands.{Hands};
ghost use Rattle.std.proofs.Common.{refl, lit<};
ghost use Rattle.std.specs.Prelude.{◌≡◌, ◌<◌, ◌≤◌, ◌+◌, ◌^◌, ◌++◌, [], OnOk, false, if◌then◌else◌, length, slice_range};
ghost use Rattle.mp4_shown.specs.Runs.{seen_bytes, shown_run};
ghost use Rattle.mp4_frame.specs.Bytes.{number};
ghost use Rattle.mp4_shown.specs.Numbers.{shown_number, shown_numbers};
ghost use Rattle.mp4_extra_samples.specs.declared.sgpd.TheConstants.{DESCRIPTION_LENGTH, ENCRYPTION};
ghost use Rattle.mp4_declared.specs.OwnBox.{layout_of};

mod taken;

use mp4_declared::{
    Code, Declared, DeclaredBox, FromVersion, Full, If, Last, Rest, Shape, ShapeVisitor, U32,
    box_of, parts_of,
};
use mp4_frame::{Entries, FourCC, Result, TryClone, codes, i16_at, u32_at};
use mp4_shown::{
    BytesName, FLAGS, FieldSink, HasFields, NamedShape, NumberName, Pieces, PiecesOf, ShowShape,
    VERSION, View, byte_at, list, number, put_bytes, put_number, put_numbers, put_signed, run,
};

/// The descriptions of sample groups of one kind (`sgpd`, ISO/IEC 14496-12, 8.9.3).
#[derive(Debug, Drop, PartialEq, Eq)]
pub struct Sgpd {
    /// 0, 1 for a box with a `default_length`, or 2 for one with a `default_group_description_index` too.
    pub version: u8,
    /// 24 bits, 0 in the standard.
    pub flags: u32,
    /// The kind of grouping, such as `roll`, `rap ` or `seig`.
    pub grouping_type: FourCC,
    /// The number of bytes of each description if they are all equal, else 0. `None` in version 0.
    pub default_length: Option<u32>,
    /// The number, starting at 1, of the description for samples that no `sbgp` puts into a group; 0 if there is none.
    /// `None` in versions 0 and 1.
    pub default_group_description_index: Option<u32>,
    /// The number of descriptions.
    pub entry_count: u32,
    /// The bytes of the descriptions, in a layout that `grouping_type` defines. If `default_length` is 0, each
    /// description follows its number of bytes, which has 32 bits (`description_length`).
    pub entries: Entries<u8>,
}

/// The content of the box: version, flags, a code, a number since version 1, another since version 2, a number, and
/// bytes up to its end.
pub type SgpdShape = Full<
    3,
    (
        Code,
        If<FromVersion<1>, U32>,
        If<FromVersion<2>, U32>,
        U32,
        Last<Rest>,
    ),
>;

impl DeclaredBox for Sgpd {
    ghost use Rattle.mp4_extra_samples.specs.contracts.sgpd.Sgpd.{struct};

    type Shape = SgpdShape;

    ghost CODE = { codes.SGPD };

    ghost layout = { layout_of struct (λ _. tt) (λ _. refl) (lit< tt) };

    const CODE: u32 = codes::SGPD;

    fn from_content(found: <SgpdShape as Shape>::Value) -> Sgpd {
        box_of!(found => Sgpd { version, flags, grouping_type, default_length,
            default_group_description_index, entry_count, entries })
    }

    fn visit<Q: ShapeVisitor<Self::Shape>>(&self, out: &mut [u8]) -> Q::Answer {
        let parts = parts_of!(self => version, flags, grouping_type, default_length,
            default_group_description_index, entry_count, entries.as_slice());
        Q::visit(parts, out)
    }

    ghost valid = { refl };
}

/// The `grouping_type` of samples that become decodable after others (ISO/IEC 14496-12, 10.1): `roll`.
pub const ROLL: u32 = 0x726f_6c6c;

/// The `grouping_type` of audio samples that need others before them (ISO/IEC 14496-12, 10.1): `prol`.
pub const PROL: u32 = 0x7072_6f6c;

/// The `grouping_type` of samples of random access (ISO/IEC 14496-12, 10.4): `rap `.
pub const RAP: u32 = 0x7261_7020;

/// The `grouping_type` of temporal levels (ISO/IEC 14496-12, 10.5): `tele`.
pub const TELE: u32 = 0x7465_6c65;

/// The `grouping_type` of encryption (ISO/IEC 23001-7, 6): `seig`.
pub const SEIG: u32 = 0x7365_6967;

/// The name of the length of a description.
const DESCRIPTION_LENGTH: NumberName = number!("description_length");

/// The name of the field of `roll` and `prol`.
const ROLL_DISTANCE: NumberName = number!("roll_distance");

/// The names of the fields of `rap `.
const LEADING: &[NumberName] = &[
    number!("num_leading_samples_known"),
    number!("num_leading_samples"),
];

/// The names of the fields of `tele`.
const LEVEL: &[NumberName] = &[
    number!("level_independently_decodable"),
    number!("reserved", Reserved(0)),
];

/// The names of the numbers of `seig`.
const ENCRYPTION: &[NumberName] = &[
    number!("reserved", Reserved(0)),
    number!("crypt_byte_block"),
    number!("skip_byte_block"),
    number!("isProtected"),
    number!("Per_Sample_IV_Size"),
];

/// The name of the key of `seig`.
const KID: BytesName = run!("KID", Bytes);

/// The name of the vector of `seig`, and that of its size.
const CONSTANT_IV: BytesName = run!("constant_IV", Counted, "constant_IV_size");

/// The name of a description of an unknown kind.
const UNKNOWN: BytesName = run!("data_bytes", Bytes);

/// The kind of a description.
#[derive(Clone, Copy, Drop)]
pub enum GroupKind {
    /// The number of samples before or after a sample that belong to it.
    Roll,
    /// The samples that lead to one of random access.
    RandomAccess,
    /// A temporal level.
    Level,
    /// The encryption of samples.
    Encryption,
    /// An unknown kind.
    Unknown,
}

/// Returns the kind of the descriptions of a `grouping_type`.
fn kind_of(grouping_type: u32) -> GroupKind
    ensures { result ≡ kind_of grouping_type }
{
    if grouping_type == ROLL {
        GroupKind::Roll
    } else if grouping_type == PROL {
        GroupKind::Roll
    } else if grouping_type == RAP {
        GroupKind::RandomAccess
    } else if grouping_type == TELE {
        GroupKind::Level
    } else if grouping_type == SEIG {
        GroupKind::Encryption
    } else {
        GroupKind::Unknown
    }
}

/// Returns whether all samples of a `seig` have one vector.
fn has_constant(bytes: &[u8]) -> bool
    ensures { result ≡ has_constant bytes.now }
{
    byte_at(bytes, 2) == 1 && byte_at(bytes, 3) == 0
}

/// Returns the number of bytes after the key of a `seig`.
fn constant_size(bytes: &[u8]) -> usize
    ensures { result ≡ constant_size bytes.now }
{
    if has_constant(bytes) {
        1 + usize::from(byte_at(bytes, 20))
    } else {
        0
    }
}

/// Returns the number of bytes of a description of this `kind` at the front of `bytes`, or one more than there are if
/// it isn't known.
fn usual_size(kind: GroupKind, bytes: &[u8]) -> usize
    ensures size { result ≡ usual_size kind bytes.now }
    ensures roll { kind ≡ kinds.Roll → 2 ≤ result }
    ensures encryption { kind ≡ kinds.Encryption → 20 ≤ result }
{
    match kind {
        GroupKind::Roll => 2,
        GroupKind::RandomAccess | GroupKind::Level => 1,
        GroupKind::Encryption => 20 + constant_size(bytes),
        GroupKind::Unknown => bytes.len() + 1,
    }
}

/// Returns the highest bit of the first byte, and its other bits.
fn bit_and_rest(bytes: &[u8]) -> [u64; 2]
    ensures { result ≡ bit_and_rest bytes.now }
{
    let bits = u64::from(byte_at(bytes, 0));
    [bits / 128, bits % 128]
}

/// Returns the numbers of a `seig`.
fn encryption_numbers(bytes: &[u8]) -> [u64; 5]
    ensures { result ≡ encryption_numbers bytes.now }
{
    let blocks = u64::from(byte_at(bytes, 1));
    [
        u64::from(byte_at(bytes, 0)),
        blocks / 16,
        blocks % 16,
        u64::from(byte_at(bytes, 2)),
        u64::from(byte_at(bytes, 3)),
    ]
}

/// Hands `bytes` to a sink, under their name, if they are present.
fn put_bytes_if<K: FieldSink>(
    name: BytesName,
    are_present: bool,
    rows: usize,
    bytes: &[u8],
    sink: &mut K,
) -> mp4_shown::Result<()>
    ensures { OnOk result (Hands K.trace K.after sink.old
        (if are_present then shown_run (seen_bytes name.entry) rows bytes.now else []) sink.new) }
{
    if are_present {
        put_bytes(name, rows, bytes, sink)
    } else {
        Ok(())
    }
}

/// Hands the vector of a `seig` to a sink, if there is one.
fn put_constant<K: FieldSink>(rows: usize, bytes: &[u8], sink: &mut K) -> mp4_shown::Result<()>
    requires { 20 ≤ length bytes.now }
    ensures { OnOk result (Hands K.trace K.after sink.old (shown_constant rows bytes.now) sink.new) }
{
    put_bytes_if(CONSTANT_IV, has_constant(bytes), rows, &bytes[20..], sink)
}

/// Hands the numbers of a `seig` to a sink.
fn put_encryption_numbers<K: FieldSink>(bytes: &[u8], sink: &mut K) -> mp4_shown::Result<()>
    ensures { OnOk result (Hands K.trace K.after sink.old
        (shown_numbers false ENCRYPTION.now (encryption_numbers bytes.now)) sink.new) }
{
    put_numbers(false, ENCRYPTION, &encryption_numbers(bytes), sink)
}

/// Hands the fields of a `seig` to a sink.
fn put_encryption<K: FieldSink>(rows: usize, bytes: &[u8], sink: &mut K) -> mp4_shown::Result<()>
    requires { 20 ≤ length bytes.now }
    ensures { OnOk result (Hands K.trace K.after sink.old (shown_encryption rows bytes.now) sink.new) }
{
    put_encryption_numbers(bytes, sink)?;
    put_bytes(KID, rows, &bytes[4..20], sink)?;
    put_constant(rows, bytes, sink)
}

/// Hands the fields of a description of this `kind`, which is all of `bytes`, to a sink.
fn put_kind<K: FieldSink>(
    kind: GroupKind,
    rows: usize,
    bytes: &[u8],
    sink: &mut K,
) -> mp4_shown::Result<()>
    requires roll { kind ≡ kinds.Roll → 2 ≤ length bytes.now }
    requires encryption { kind ≡ kinds.Encryption → 20 ≤ length bytes.now }
    ensures { OnOk result (Hands K.trace K.after sink.old (shown_kind kind rows bytes.now) sink.new) }
{
    match kind {
        GroupKind::Roll => put_signed(ROLL_DISTANCE, i64::from(i16_at(bytes, 0)), sink),
        GroupKind::RandomAccess => put_numbers(false, LEADING, &bit_and_rest(bytes), sink),
        GroupKind::Level => put_numbers(false, LEVEL, &bit_and_rest(bytes), sink),
        GroupKind::Encryption => put_encryption(rows, bytes, sink),
        GroupKind::Unknown => put_bytes(UNKNOWN, rows, bytes, sink),
    }
}

/// Hands a description that is all of `bytes` to a sink: its fields, or bytes if these aren't as many as its kind has.
fn put_description<K: FieldSink>(
    kind: GroupKind,
    rows: usize,
    bytes: &[u8],
    sink: &mut K,
) -> mp4_shown::Result<()>
    ensures { OnOk result (Hands K.trace K.after sink.old (shown_description kind rows bytes.now) sink.new) }
{
    if usual_size(kind, bytes) == bytes.len() {
        put_kind(kind, rows, bytes, sink)
    } else {
        put_bytes(UNKNOWN, rows, bytes, sink)
    }
}

/// Returns the number of bytes of a description after its own length, or 0 if that isn't there.
fn own_length(bytes: &[u8]) -> usize
    ensures length { result ≡ own_length bytes.now }
    ensures small { result < 2 ^ 32 }
{
    if bytes.len() < 4 {
        0
    } else {
        u32_at(bytes, 0) as usize
    }
}

/// The descriptions of a box with this type and default length, for showing only.
#[derive(Clone, Copy, Drop)]
pub struct Descriptions {
    /// The kind of grouping.
    pub grouping_type: FourCC,
    /// The number of bytes of each description, or 0 if each has its own. `None` if the box doesn't say it.
    pub default_length: Option<u32>,
}

impl Descriptions {
    /// Returns the kind of the descriptions.
    fn kind(self) -> GroupKind
        ensures { result ≡ kind_in self }
    {
        kind_of(u32::from(self.grouping_type))
    }
}

/// Hands a description after its length, at the front of `bytes`, to a sink.
fn put_own<K: FieldSink>(
    kind: GroupKind,
    rows: usize,
    bytes: &[u8],
    sink: &mut K,
) -> mp4_shown::Result<()>
    requires { 4 + own_length bytes.now ≤ length bytes.now }
    ensures { OnOk result (Hands K.trace K.after sink.old (shown_number DESCRIPTION_LENGTH (number bytes.now 0 4)
        ++ shown_description kind rows (slice_range bytes.now 4 (4 + own_length bytes.now))) sink.new) }
{
    put_number(DESCRIPTION_LENGTH, u64::from(u32_at(bytes, 0)), sink)?;
    put_description(kind, rows, &bytes[4..4 + own_length(bytes)], sink)
}

/// Returns the number of bytes of the description at the front of `bytes`, of this `kind` and default length.
fn size_by(kind: GroupKind, default_length: Option<u32>, bytes: &[u8]) -> usize
    ensures { result ≡ size_by kind default_length bytes.now }
{
    match default_length {
        None => usual_size(kind, bytes),
        Some(length) => {
            if length == 0 {
                4 + own_length(bytes)
            } else {
                length as usize
            }
        }
    }
}

/// Hands the description at the front of `bytes`, of this `kind` and default length, to a sink.
fn put_by<K: FieldSink>(
    kind: GroupKind,
    default_length: Option<u32>,
    rows: usize,
    bytes: &[u8],
    sink: &mut K,
) -> mp4_shown::Result<()>
    requires { size_by kind default_length bytes.now ≤ length bytes.now }
    ensures { OnOk result (Hands K.trace K.after sink.old
        (shown_by kind default_length rows bytes.now) sink.new) }
{
    match default_length {
        None => put_description(kind, rows, &bytes[..usual_size(kind, bytes)], sink),
        Some(length) => {
            if length == 0 {
                put_own(kind, rows, bytes, sink)
            } else {
                put_description(kind, rows, &bytes[..length as usize], sink)
            }
        }
    }
}

impl Pieces for Descriptions {
    ghost size_of = { λ d bytes. size_by (kind_in d) d.default_length bytes };

    ghost shown = { λ d view bytes. shown_by (kind_in d) d.default_length view.rows bytes };

    ghost whole = { λ d view bytes. whole_by (kind_in d) d.default_length view.rows bytes };

    fn size(&self, bytes: &[u8]) -> usize {
        size_by(self.kind(), self.default_length, bytes)
    }

    fn show<K: FieldSink>(&self, view: View, bytes: &[u8], sink: &mut K) -> mp4_shown::Result<()> {
        put_by(self.kind(), self.default_length, view.rows, bytes, sink)
    }
}

/// The content of the box, for showing only.
type SgpdShown = Full<
    3,
    (
        Code,
        If<FromVersion<1>, U32>,
        If<FromVersion<2>, U32>,
        U32,
        PiecesOf<Descriptions>,
    ),
>;

/// The names of the fields.
const NAMES: &<SgpdShown as NamedShape>::Names = &(
    VERSION,
    (
        FLAGS,
        (
            "grouping_type",
            (
                number!("default_length"),
                (
                    number!("default_group_description_index"),
                    (
                        number!("entry_count"),
                        (
                            list!("entries"),
                            (run!("data_bytes", Bytes), run!("data_bytes", SomeBytes)),
                        ),
                    ),
                ),
            ),
        ),
    ),
);

impl HasFields for Sgpd {
    ghost shown = { λ view b. ⟦<SgpdShown as NamedShape>⟧.shown NAMES.now view (
      b.version,
      (
        b.flags,
        (
          b.grouping_type,
          (
            b.default_length,
            (
              b.default_group_description_index,
              (
                b.entry_count,
                (
                  record { grouping_type = b.grouping_type; default_length = b.default_length },
                  (b.entry_count, b.entries),
                ),
              ),
            ),
          ),
        ),
      ),
    ) };

    ghost whole = { λ view b. ⟦<SgpdShown as NamedShape>⟧.whole NAMES.now view (
      b.version,
      (
        b.flags,
        (
          b.grouping_type,
          (
            b.default_length,
            (
              b.default_group_description_index,
              (
                b.entry_count,
                (
                  record { grouping_type = b.grouping_type; default_length = b.default_length },
                  (b.entry_count, b.entries),
                ),
              ),
            ),
          ),
        ),
      ),
    ) };

    fn show<K: FieldSink>(&self, view: View, sink: &mut K) -> mp4_shown::Result<()> {
        let descriptions = Descriptions {
            grouping_type: self.grouping_type,
            default_length: self.default_length,
        };
        let entries = (
            descriptions,
            (self.entry_count as usize, self.entries.as_slice()),
        );
        let optional = (
            self.default_length,
            (
                self.default_group_description_index,
                (self.entry_count, entries),
            ),
        );
        let parts = (self.version, (self.flags, (self.grouping_type, optional)));
        SgpdShown::show(NAMES, view, &parts, sink)
    }
}

impl TryClone for Sgpd {
    fn try_clone(&self) -> Result<Sgpd> {
        let entries = self.entries.try_clone()?;
        Ok(Sgpd { entries, ..*self })
    }
}

/// The sample group description box.
pub type SgpdBox = Declared<Sgpd>;
