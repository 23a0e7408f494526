//! Declared boxes in lists of boxes.

ghost use Rattle.std.specs.Prelude.{◌≡◌};
ghost use Rattle.mp4_frame.specs.Reading.{reading};
ghost use Rattle.mp4_declared.specs.ByCode.{has_code, by_code_declared, own_name_declared, read_back_declared};
ghost use Rattle.mp4_declared.specs.ByCode.{stable_declared, code_declared};
ghost use Rattle.mp4_declared.specs.OwnBox.{reads_declared};
ghost use Rattle.mp4_declared.specs.OwnBoxLaws.{laws_declared};

use crate::declared::{Declared, DeclaredBox};
use mp4_compose::{CodedBox, StableBox};
use mp4_frame::{BoxType, ByteCursor, ReadBox, Result, StreamBox};
use std::alloc::Global;

/// Reads the boxes of its code from a list, and skips all others.
impl<T: DeclaredBox> StreamBox for Declared<T> {
    ghost known = { has_code T.CODE };

    ghost named_reading = { λ _. reading (reads_declared T.Shape.shape T.layout) };

    fn knows(name: BoxType) -> bool {
        u32::from(name) == T::CODE
    }

    fn read_named(
        alloc: Global,
        _name: BoxType,
        reader: &mut ByteCursor,
        size: u64,
    ) -> Result<Self> {
        Self::read_box(alloc, reader, size)
    }

    ghost own_name = { own_name_declared T.Shape.shape T.layout
        (laws_declared T.Shape.shape T.Shape.shape_laws T.layout T.valid) };

    ghost read_back = { read_back_declared T.Shape.shape T.layout
        (laws_declared T.Shape.shape T.Shape.shape_laws T.layout T.valid) };
}

impl<T: DeclaredBox> StableBox for Declared<T> {
    ghost stable = { stable_declared T.Shape.shape T.layout
        (laws_declared T.Shape.shape T.Shape.shape_laws T.layout T.valid) };

    ghost own_code = { code_declared T.Shape.shape T.layout
        (laws_declared T.Shape.shape T.Shape.shape_laws T.layout T.valid) };
}

/// Its code identifies the box.
impl<T: DeclaredBox> CodedBox for Declared<T> {
    ghost by_code = { by_code_declared T.CODE };
}
