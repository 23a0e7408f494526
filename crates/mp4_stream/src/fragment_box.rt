//! `FragmentBox`, a box that describes fragments.

ghost use Rattle.mp4_stream.specs.FragmentBox.{kinds, inside};
ghost use Rattle.mp4_stream.specs.FragmentBoxLaws.{members, named};

use mp4_flat::{MehdBox, MfhdBox, TfdtBox, TrexBox};
use mp4_frame::{BoxEnum, BoxType, BoxVisitor, ByteCursor, ReadBox, Result};
use mp4_tables::{TfhdBox, TrunBox};
use mp4_text::EmsgBox;
use std::alloc::Global;

/// A box that a reader of fragments needs (ISO/IEC 14496-12, 8.8, and `emsg` of ISO/IEC 23009-1). It takes 136 bytes in
/// a list, while an `AnyBox` takes 328. Boxes of other types are skipped, among them `moof` and `traf`, so read the
/// content of these as a list.
#[derive(Debug, Drop, PartialEq, Eq)]
pub enum FragmentBox {
    MehdBox(MehdBox),
    TrexBox(TrexBox),
    MfhdBox(MfhdBox),
    TfhdBox(TfhdBox),
    TfdtBox(TfdtBox),
    TrunBox(TrunBox),
    EmsgBox(EmsgBox),
}

impl BoxEnum for FragmentBox {
    ghost kinds = { kinds };

    ghost inside = { inside };

    ghost members = { members };

    fn holds(name: BoxType) -> bool {
        matches!(
            name,
            BoxType::MehdBox
                | BoxType::TrexBox
                | BoxType::MfhdBox
                | BoxType::TfhdBox
                | BoxType::TfdtBox
                | BoxType::TrunBox
                | BoxType::EmsgBox
        )
    }

    fn read(alloc: Global, name: BoxType, reader: &mut ByteCursor, size: u64) -> Result<Self> {
        Ok(match name {
            BoxType::MehdBox => FragmentBox::MehdBox(MehdBox::read_box(alloc, reader, size)?),
            BoxType::TrexBox => FragmentBox::TrexBox(TrexBox::read_box(alloc, reader, size)?),
            BoxType::MfhdBox => FragmentBox::MfhdBox(MfhdBox::read_box(alloc, reader, size)?),
            BoxType::TfhdBox => FragmentBox::TfhdBox(TfhdBox::read_box(alloc, reader, size)?),
            BoxType::TfdtBox => FragmentBox::TfdtBox(TfdtBox::read_box(alloc, reader, size)?),
            BoxType::TrunBox => FragmentBox::TrunBox(TrunBox::read_box(alloc, reader, size)?),
            _ => FragmentBox::EmsgBox(EmsgBox::read_box(alloc, reader, size)?),
        })
    }

    fn visit<Q: BoxVisitor>(&self, out: &mut [u8]) -> Q::Answer {
        match self {
            FragmentBox::MehdBox(b) => Q::visit(b, out),
            FragmentBox::TrexBox(b) => Q::visit(b, out),
            FragmentBox::MfhdBox(b) => Q::visit(b, out),
            FragmentBox::TfhdBox(b) => Q::visit(b, out),
            FragmentBox::TfdtBox(b) => Q::visit(b, out),
            FragmentBox::TrunBox(b) => Q::visit(b, out),
            FragmentBox::EmsgBox(b) => Q::visit(b, out),
        }
    }

    ghost named = { named };
}
