//! `AnyBox`, a box of any of the codec's types.

ghost use Rattle.std.specs.Prelude.{◌≡◌, ◌+◌, ◌≤◌, length, IsTrue, OnErr};
ghost use Rattle.mp4_frame.specs.Reading.{AnswersAs, map_reading};
ghost use Rattle.mp4_frame.specs.Streams.{append_read};
ghost use Rattle.mp4_frame.specs.MemberLaws.{written_member, own_name_of_member, read_back_of_member};
ghost use Rattle.mp4_stream.specs.AnyBox.{kinds, held, least_any, format_any, known_any, reading_any};
ghost use Rattle.mp4_stream.specs.AnyBoxLaws.{members};

use mp4_entries::{Avc1Box, AvcCBox, Hev1Box, HvcCBox, Tx3gBox, Vp09Box, VpccBox};
use mp4_flat::{MdhdBox, MehdBox, MfhdBox, MvhdBox, SmhdBox, TfdtBox, TkhdBox, TrexBox, VmhdBox};
use mp4_frame::{
    BoxType, ByteCursor, Holds, Mp4Box, Result, StreamBox, TryClone, WriteBox, clone_as, push_as,
    push_inside, read_as, u32_at,
};
use mp4_sound::{EsdsBox, Mp4aBox, StsdBox};
use mp4_tables::{
    Co64Box, CttsBox, ElstBox, StcoBox, StscBox, StssBox, StszBox, SttsBox, TfhdBox, TrunBox,
};
use mp4_text::{DataBox, DinfBox, DrefBox, EmsgBox, FtypBox, HdlrBox, UrlBox};
use std::alloc::Global;
use std::fmt;

/// Calls the macro `$go` with the list of all box types in brackets, followed by the other arguments.
macro_rules! of_boxes {
    ($go:ident, $($rest:tt)*) => {
        $go! {
            [
                FtypBox MvhdBox TkhdBox MdhdBox MehdBox MfhdBox SmhdBox VmhdBox TrexBox TfdtBox
                StcoBox Co64Box SttsBox CttsBox StssBox StszBox StscBox ElstBox TfhdBox TrunBox
                HdlrBox DataBox EmsgBox UrlBox DrefBox DinfBox AvcCBox Avc1Box HvcCBox Hev1Box
                VpccBox Vp09Box Tx3gBox EsdsBox Mp4aBox StsdBox
            ]
            $($rest)*
        }
    };
}

/// Matches on an `AnyBox` with an arm for each variant, binds the box inside, and evaluates the expression.
macro_rules! each {
    ([$($held:ident)*] $any:expr, $value:ident => $answer:expr) => {
        match $any {
            $(AnyBox::$held($value) => $answer,)*
        }
    };
}

/// Matches on a name with an arm for each box type. Calls the function for the box type of this name and for one or two
/// more types. The caller ensures that the name is that of a box type.
macro_rules! by_name {
    ([$($held:ident)*] $name:expr, $call:ident [$first:ident] $values:tt) => {
        match $name {
            $(BoxType::$held => $call::<$held, $first> $values,)*
            _ => unreachable!(),
        }
    };
    ([$($held:ident)*] $name:expr, $call:ident [$first:ident $second:ident] $values:tt) => {
        match $name {
            $(BoxType::$held => $call::<$held, $first, $second> $values,)*
            _ => unreachable!(),
        }
    };
}

/// Returns whether `$name` is that of a box type.
macro_rules! is_named {
    ([$($held:ident)*] $name:expr) => {
        matches!($name, $(BoxType::$held)|*)
    };
}

/// Prints an `AnyBox` as its variant, with the box inside.
macro_rules! print_any {
    ([$($held:ident)*] $any:expr, $f:expr) => {
        match $any {
            $(AnyBox::$held(value) => print_variant($f, stringify!($held), value),)*
        }
    };
}

/// A box of any of the types that the codec reads.
#[derive(Drop, PartialEq, Eq)]
pub enum AnyBox {
    FtypBox(FtypBox),
    MvhdBox(MvhdBox),
    TkhdBox(TkhdBox),
    MdhdBox(MdhdBox),
    MehdBox(MehdBox),
    MfhdBox(MfhdBox),
    SmhdBox(SmhdBox),
    VmhdBox(VmhdBox),
    TrexBox(TrexBox),
    TfdtBox(TfdtBox),
    StcoBox(StcoBox),
    Co64Box(Co64Box),
    SttsBox(SttsBox),
    CttsBox(CttsBox),
    StssBox(StssBox),
    StszBox(StszBox),
    StscBox(StscBox),
    ElstBox(ElstBox),
    TfhdBox(TfhdBox),
    TrunBox(TrunBox),
    HdlrBox(HdlrBox),
    DataBox(DataBox),
    EmsgBox(EmsgBox),
    UrlBox(UrlBox),
    DrefBox(DrefBox),
    DinfBox(DinfBox),
    AvcCBox(AvcCBox),
    Avc1Box(Avc1Box),
    HvcCBox(HvcCBox),
    Hev1Box(Hev1Box),
    VpccBox(VpccBox),
    Vp09Box(Vp09Box),
    Tx3gBox(Tx3gBox),
    EsdsBox(EsdsBox),
    Mp4aBox(Mp4aBox),
    StsdBox(StsdBox),
}

/// Prints a variant called `name` with `value` inside.
fn print_variant<W: fmt::Write>(
    f: &mut fmt::Formatter<W>,
    name: &str,
    value: &impl fmt::Debug,
) -> fmt::Result {
    f.debug_tuple(name).field(value).finish()
}

impl fmt::Debug for AnyBox {
    fn fmt<W: fmt::Write>(&self, f: &mut fmt::Formatter<W>) -> fmt::Result {
        of_boxes!(print_any, self, f)
    }
}

impl TryClone for AnyBox {
    fn try_clone(&self) -> Result<AnyBox> {
        of_boxes!(each, self, b => clone_as(b))
    }
}

impl Mp4Box for AnyBox {
    ghost format = { format_any };

    fn box_type(&self) -> BoxType {
        of_boxes!(each, self, b => b.box_type())
    }

    fn box_size(&self) -> u64 {
        of_boxes!(each, self, b => b.box_size())
    }
}

impl WriteBox for AnyBox {
    fn is_writable(&self) -> bool {
        self.writable_size().is_some()
    }

    fn put_box(&self, out: &mut [u8]) {
        self.put_at_front(out);
    }

    fn writable_size(&self) -> Option<u64> {
        of_boxes!(each, self, b => b.writable_size())
    }

    fn put_at_front(&self, out: &mut [u8]) -> usize {
        of_boxes!(each, self, b => b.put_at_front(out))
    }

    fn is_normal_form(bytes: &[u8]) -> bool {
        if bytes.len() < 8 {
            return false;
        }
        match BoxType::from(u32_at(bytes, 4)) {
            BoxType::StcoBox => StcoBox::is_normal_form(bytes),
            BoxType::Co64Box => Co64Box::is_normal_form(bytes),
            BoxType::SttsBox => SttsBox::is_normal_form(bytes),
            BoxType::CttsBox => CttsBox::is_normal_form(bytes),
            BoxType::StssBox => StssBox::is_normal_form(bytes),
            BoxType::StszBox => StszBox::is_normal_form(bytes),
            _ => false,
        }
    }

    ghost write_laws = { written_member kinds held members };
}

impl StreamBox for AnyBox {
    ghost known = { known_any };

    ghost named_reading = { reading_any };

    ghost least = { least_any };

    fn knows(name: BoxType) -> bool {
        of_boxes!(is_named, name)
    }

    fn read_named(
        alloc: Global,
        name: BoxType,
        reader: &mut ByteCursor,
        size: u64,
    ) -> Result<AnyBox> {
        of_boxes!(by_name, name, read_as[AnyBox](alloc, reader, size))
    }

    fn push_named(
        alloc: Global,
        name: BoxType,
        bytes: &[u8],
        start: u64,
        size: u64,
        boxes: &mut Vec<AnyBox>,
    ) -> Result<()> {
        of_boxes!(
            by_name,
            name,
            push_as[AnyBox](alloc, bytes, start, size, boxes)
        )
    }

    ghost own_name = { own_name_of_member kinds held members };

    ghost read_back = { read_back_of_member kinds held members };
}

/// Reads the box called `name` at offset `start` of `bytes`, like `StreamBox::push_named`, and appends it as an `E`, a
/// type that holds an `AnyBox`. The caller ensures that the codec reads boxes of this name.
pub fn push_any<E: Holds<AnyBox> + Drop>(
    alloc: Global,
    name: BoxType,
    bytes: &[u8],
    start: u64,
    size: u64,
    boxes: &mut Vec<E>,
) -> Result<()>
    requires known { IsTrue (known_any name) }
    requires room { start + size ≤ length bytes.now }
    ensures answer { AnswersAs (λ _. boxes.new.items) result
        (append_read boxes.old.items (map_reading E.wrapped (reading_any name bytes.now start size))) }
    ensures kept { OnErr result (boxes.new.items ≡ boxes.old.items) }
{
    of_boxes!(by_name, name, push_inside [AnyBox E] (alloc, bytes, start, size, boxes))
}
