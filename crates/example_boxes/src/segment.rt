//! The box types of a segment as one enum.

ghost use Rattle.std.proofs.Common.{refl};
ghost use Rattle.example_boxes.specs.Segment.{kinds, inside};
ghost use Rattle.example_boxes.specs.SegmentLaws.{members, named};

use crate::ssix::{SSIX, Ssix, SsixBox, SsixShape};
use mp4_stream::author::{BoxEnum, BoxVisitor, DeclaredBox, Shape};
use mp4_stream::{BoxType, ByteCursor, MfhdBox, ReadBox, Result, TfdtBox, TrunBox};
use std::alloc::Global;

/// A box of a segment: a subsegment index, or one of three boxes of a fragment.
#[derive(Debug, Drop, PartialEq, Eq)]
pub enum SegmentBox {
    SsixBox(SsixBox),
    MfhdBox(MfhdBox),
    TfdtBox(TfdtBox),
    TrunBox(TrunBox),
}

impl BoxEnum for SegmentBox {
    ghost kinds = { kinds ⟦<SsixShape as Shape>⟧.shape ⟦<Ssix as DeclaredBox>⟧.layout };

    ghost inside = { inside ⟦<SsixShape as Shape>⟧.shape ⟦<Ssix as DeclaredBox>⟧.layout };

    ghost members = { members ⟦<SsixShape as Shape>⟧.shape ⟦<SsixShape as Shape>⟧.shape_laws
        ⟦<Ssix as DeclaredBox>⟧.layout refl };

    fn holds(name: BoxType) -> bool {
        matches!(
            name,
            BoxType::UnknownBox(SSIX) | BoxType::MfhdBox | BoxType::TfdtBox | BoxType::TrunBox
        )
    }

    fn read(alloc: Global, name: BoxType, reader: &mut ByteCursor, size: u64) -> Result<Self> {
        Ok(match name {
            BoxType::MfhdBox => SegmentBox::MfhdBox(MfhdBox::read_box(alloc, reader, size)?),
            BoxType::TfdtBox => SegmentBox::TfdtBox(TfdtBox::read_box(alloc, reader, size)?),
            BoxType::TrunBox => SegmentBox::TrunBox(TrunBox::read_box(alloc, reader, size)?),
            _ => SegmentBox::SsixBox(SsixBox::read_box(alloc, reader, size)?),
        })
    }

    fn visit<Q: BoxVisitor>(&self, out: &mut [u8]) -> Q::Answer {
        match self {
            SegmentBox::SsixBox(b) => Q::visit(b, out),
            SegmentBox::MfhdBox(b) => Q::visit(b, out),
            SegmentBox::TfdtBox(b) => Q::visit(b, out),
            SegmentBox::TrunBox(b) => Q::visit(b, out),
        }
    }

    ghost named = { named ⟦<SsixShape as Shape>⟧.shape ⟦<SsixShape as Shape>⟧.shape_laws
        ⟦<Ssix as DeclaredBox>⟧.layout refl };
}
