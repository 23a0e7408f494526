//! The Enhanced AC-3 specific box.

ghost use Rattle.mp4_extra_sound.specs.ShownStreams.{dependents, shown_stream, stream_size, whole_stream};
ghost use Rattle.mp4_extra_sound.specs.declared.dec3.TheConstants.{NAMES, PARENT_WIDTHS, STREAM_WIDTHS, WIDTHS};
ghost use Rattle.mp4_frame.specs.declared.codes.TheConstants as codes;
ghost use Rattle.mp4_frame.specs.Bytes.{number};
ghost use Rattle.std.proofs.Common.{refl, lit<};
ghost use Rattle.std.specs.Prelude.{◌≡◌, ◌≤◌, ◌+◌, length};
ghost use Rattle.mp4_declared.specs.Bits.{split};
ghost use Rattle.mp4_declared.specs.OwnBox.{layout_of};
ghost use Rattle.mp4_declared.specs.Layout.{packed, fields_of};

mod taken;

use mp4_declared::{
    Bits, Declared, DeclaredBox, EntryLayout, Last, Rest, Shape, ShapeVisitor, box_of, entry_of,
    numbers_of, parts_of,
};
use mp4_frame::{Entries, Result, TryClone, codes, u24_at, u32_at};
use mp4_shown::{
    FieldSink, HasFields, NamedShape, NumberName, Pieces, PiecesOf, ShowShape, View, byte_at, list,
    number, put_numbers, run,
};

/// The first two bytes of a `dec3`.
#[derive(Clone, Copy, Debug, Default, PartialEq, Eq)]
pub struct Ec3Config {
    /// The bit rate of all streams together, in kbit/s. 13 bits.
    pub data_rate: u16,
    /// The number of independent streams, minus one. 3 bits.
    pub num_ind_sub: u8,
}

/// The widths of the fields, in bits.
const WIDTHS: [u8; 2] = [13, 3];

impl EntryLayout<2, 2> for Ec3Config {
    ghost use Rattle.mp4_extra_sound.specs.contracts.dec3.Ec3Config.{struct};

    ghost layout = { packed (fields_of WIDTHS) struct.as_values (λ v. struct.make v tt) (λ _. refl) (λ _. refl) refl };

    fn widths() -> [u8; 2] {
        WIDTHS
    }

    fn numbers(&self) -> [u64; 2] {
        numbers_of!(self => data_rate, num_ind_sub)
    }

    fn from_numbers(n: &[u64; 2]) -> Ec3Config {
        entry_of!(n => Ec3Config { data_rate: u16, num_ind_sub: u8 })
    }

    ghost few = { lit< tt };
}

/// The configuration of an Enhanced AC-3 decoder (`dec3`, ETSI TS 102 366, F.6).
#[derive(Debug, Drop, PartialEq, Eq)]
pub struct Dec3 {
    /// The bit rate and the number of streams.
    pub config: Ec3Config,
    /// The independent streams, 3 or 4 bytes each, then any further bytes up to the end of the box. A stream has these
    /// bits:
    ///
    /// - 2 for its sample rate (`fscod`),
    /// - 5 for the version of its bit stream (`bsid`),
    /// - 1 reserved,
    /// - 1 that is set for an associated service (`asvc`),
    /// - 3 for the kind of service (`bsmod`),
    /// - 3 for its channels (`acmod`),
    /// - 1 that is set if the channel of low frequencies is present (`lfeon`),
    /// - 3 reserved,
    /// - 4 for the number of streams that depend on it (`num_dep_sub`),
    /// - 9 for the locations of the dependent streams' channels (`chan_loc`) if there are any, else 1 reserved.
    pub substreams: Entries<u8>,
}

/// The content of the box: two bytes of bits, and bytes up to its end.
pub type Dec3Shape = (Bits<Ec3Config, 2, 2>, Last<Rest>);

impl DeclaredBox for Dec3 {
    ghost use Rattle.mp4_extra_sound.specs.contracts.dec3.Dec3.{struct};

    type Shape = Dec3Shape;

    ghost CODE = { codes.DEC3 };

    ghost layout = { layout_of struct (λ _. tt) (λ _. refl) (lit< tt) };

    const CODE: u32 = codes::DEC3;

    fn from_content(found: <Dec3Shape as Shape>::Value) -> Dec3 {
        box_of!(found => Dec3 { config, substreams })
    }

    fn visit<Q: ShapeVisitor<Self::Shape>>(&self, out: &mut [u8]) -> Q::Answer {
        Q::visit(parts_of!(self => config, substreams.as_slice()), out)
    }

    ghost valid = { refl };
}

/// The names of the bit rate and the number of streams.
const CONFIG: &[NumberName] = &[number!("data_rate"), number!("num_ind_sub")];

/// The names of a stream on which none depends.
const STREAM: &[NumberName] = &[
    number!("fscod"),
    number!("bsid"),
    number!("reserved_before_asvc", Reserved(0)),
    number!("asvc"),
    number!("bsmod"),
    number!("acmod"),
    number!("lfeon"),
    number!("reserved_before_num_dep_sub", Reserved(0)),
    number!("num_dep_sub"),
    number!("reserved_after_num_dep_sub", Reserved(0)),
];

/// Their widths, in bits.
const STREAM_WIDTHS: [u8; 10] = [2, 5, 1, 1, 3, 3, 1, 3, 4, 1];

/// The names of a stream on which others depend.
const PARENT: &[NumberName] = &[
    number!("fscod"),
    number!("bsid"),
    number!("reserved_before_asvc", Reserved(0)),
    number!("asvc"),
    number!("bsmod"),
    number!("acmod"),
    number!("lfeon"),
    number!("reserved_before_num_dep_sub", Reserved(0)),
    number!("num_dep_sub"),
    number!("chan_loc"),
];

/// Their widths, in bits.
const PARENT_WIDTHS: [u8; 10] = [2, 5, 1, 1, 3, 3, 1, 3, 4, 9];

/// Returns the numbers of the stream at the front of `bytes`, on which none depends.
fn stream_numbers(bytes: &[u8]) -> [u64; 10]
    requires { 3 ≤ length bytes.now }
    ensures { result ≡ split STREAM_WIDTHS (number bytes.now 0 3) }
{
    let bits = u64::from(u24_at(bytes, 0));
    [
        (bits >> 22) % 4,
        (bits >> 17) % 32,
        (bits >> 16) % 2,
        (bits >> 15) % 2,
        (bits >> 12) % 8,
        (bits >> 9) % 8,
        (bits >> 8) % 2,
        (bits >> 5) % 8,
        (bits >> 1) % 16,
        bits % 2,
    ]
}

/// Returns the numbers of the stream at the front of `bytes`, on which others depend.
fn parent_numbers(bytes: &[u8]) -> [u64; 10]
    requires { 4 ≤ length bytes.now }
    ensures { result ≡ split PARENT_WIDTHS (number bytes.now 0 4) }
{
    let bits = u64::from(u32_at(bytes, 0));
    [
        (bits >> 30) % 4,
        (bits >> 25) % 32,
        (bits >> 24) % 2,
        (bits >> 23) % 2,
        (bits >> 20) % 8,
        (bits >> 17) % 8,
        (bits >> 16) % 2,
        (bits >> 13) % 8,
        (bits >> 9) % 16,
        bits % 512,
    ]
}

/// Returns the number of streams that depend on the one at the front of `bytes`.
fn dependents(bytes: &[u8]) -> u8
    ensures { result ≡ dependents bytes.now }
{
    byte_at(bytes, 2) / 2 % 16
}

/// The independent streams, for showing only.
#[derive(Clone, Copy, Drop)]
pub struct Streams;

impl Pieces for Streams {
    ghost size_of = { λ streams bytes. stream_size bytes };

    ghost shown = { λ streams view bytes. shown_stream bytes };

    ghost whole = { λ streams view bytes. whole_stream bytes };

    fn size(&self, bytes: &[u8]) -> usize {
        3 + usize::from(dependents(bytes).min(1))
    }

    fn show<K: FieldSink>(&self, _view: View, bytes: &[u8], sink: &mut K) -> mp4_shown::Result<()> {
        if dependents(bytes) == 0 {
            put_numbers(false, STREAM, &stream_numbers(bytes), sink)
        } else {
            put_numbers(false, PARENT, &parent_numbers(bytes), sink)
        }
    }
}

/// The content of the box, for showing only.
type Dec3Shown = (Bits<Ec3Config, 2, 2>, PiecesOf<Streams>);

/// The names of the fields.
const NAMES: &<Dec3Shown as NamedShape>::Names = &(
    CONFIG,
    (
        list!("substreams"),
        (run!("data_bytes", Bytes), run!("data_bytes", SomeBytes)),
    ),
);

impl HasFields for Dec3 {
    ghost shown = { λ view b. ⟦<Dec3Shown as NamedShape>⟧.shown NAMES.now view
        (b.config, (record {}, (b.config.num_ind_sub + 1, b.substreams))) };

    ghost whole = { λ view b. ⟦<Dec3Shown as NamedShape>⟧.whole NAMES.now view
        (b.config, (record {}, (b.config.num_ind_sub + 1, b.substreams))) };

    fn show<K: FieldSink>(&self, view: View, sink: &mut K) -> mp4_shown::Result<()> {
        let count = usize::from(self.config.num_ind_sub) + 1;
        let parts = (self.config, (Streams, (count, self.substreams.as_slice())));
        Dec3Shown::show(NAMES, view, &parts, sink)
    }
}

impl TryClone for Dec3 {
    fn try_clone(&self) -> Result<Dec3> {
        let substreams = self.substreams.try_clone()?;
        Ok(Dec3 {
            substreams,
            ..*self
        })
    }
}

/// The Enhanced AC-3 specific box.
pub type Dec3Box = Declared<Dec3>;
