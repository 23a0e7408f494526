//! Declared boxes with a check beyond their shape.

ghost use Rattle.std.specs.Prelude.{◌≡◌, ◌+◌, ◌-◌, ◌^◌, ◌↔◌, Bool, true, IsTrue, min};
ghost use Rattle.mp4_frame.specs.Format.{write_laws};
ghost use Rattle.mp4_frame.specs.Reading.{reading};
ghost use Rattle.mp4_declared.specs.ByCode.{has_code, by_code_declared, own_name_declared};
ghost use Rattle.mp4_declared.specs.CheckedByCode.{read_back_checked, stable_checked, code_checked};
ghost use Rattle.mp4_declared.specs.OwnBox.{reads_checked, format_checked};
ghost use Rattle.mp4_declared.specs.OwnBoxLaws.{laws_checked, laws_declared};

use crate::declared::{Declared, DeclaredBox, fields_at};
use mp4_compose::{CodedBox, StableBox};
use mp4_frame::{
    BoxLaws, BoxType, ByteCursor, Mp4Box, ReadBox, Result, StreamBox, TryClone, WriteBox, check,
};
use std::alloc::Global;
use std::marker::Model;
use std::ops::{Deref, DerefMut};

/// A box with a check that its shape doesn't express.
pub trait Check: DeclaredBox {
    /// The boxes that pass the check.
    ghost passes: { Self → Bool };

    /// The text of the error for a box that doesn't pass.
    const REFUSED: &'static str;

    /// Returns whether the box passes the check.
    fn passes(&self) -> bool
        ensures { result ≡ passes self.now };

    /// The normal form of a box that passes also passes.
    ghost kept: { (v : Self) → passes v ≡ true → passes (Self.layout.value (Self.layout.content v)) ≡ true };
}

/// A declared box with a check. A box that doesn't pass is refused after the faults of its content, and can't be
/// written. In all else it behaves like a `Declared`.
#[derive(Debug, Drop, PartialEq, Eq)]
pub struct Checked<T> {
    declared: Declared<T>,
}

impl<T> Model for Checked<T> {
    ghost Value = { T };

    ghost view = { λ b. b.declared };

    ghost inverse = { λ v. record { declared = v } };
}

impl<T> Checked<T> {
    /// Creates a box with these `fields`.
    pub fn new(fields: T) -> Self
        ensures { result ≡ fields }
    {
        Checked {
            declared: Declared::new(fields),
        }
    }

    /// Returns the fields of the box.
    pub fn into_fields(self) -> T
        ensures { result ≡ self }
    {
        let Checked { declared } = self;
        declared.into_fields()
    }
}

impl<T> Deref for Checked<T> {
    type Target = T;

    ghost deref_gives = { λ b fields. fields ≡ b };

    #[inline]
    fn deref(&self) -> &T {
        &self.declared
    }
}

impl<T> DerefMut for Checked<T> {
    ghost use Rattle.std.specs.Borrow.{Lends, sem};
    ghost use Rattle.mp4_declared.specs.contracts.checked.Checked.{the_row};

    ghost deref_mut_gives = { λ b fields. fields ≡ b };

    #[inline]
    fn deref_mut(&mut self) -> &mut T
        ensures* writes_back { sem 𝓛 (Lends (the_row T.row) T.row self.entry result (λ fields. fields)) }
        ensures shows { result.now ≡ self.old }
    {
        &mut self.declared
    }
}

impl<T: Default> Default for Checked<T> {
    ghost is_default = { λ b. T.is_default b };

    fn default() -> Self {
        Checked::new(T::default())
    }
}

impl<T: TryClone> TryClone for Checked<T> {
    fn try_clone(&self) -> Result<Self> {
        Ok(Checked {
            declared: self.declared.try_clone()?,
        })
    }
}

impl<T: Check> Mp4Box for Checked<T> {
    ghost format = { format_checked T.passes T.Shape.shape T.layout };

    fn box_type(&self) -> BoxType {
        self.declared.box_type()
    }

    #[inline]
    fn box_size(&self) -> u64 {
        self.declared.box_size()
    }
}

impl<T: Check> ReadBox for Checked<T> {
    ghost reads = { reads_checked T.passes T.Shape.shape T.layout };

    const LEAST: u64 = 0;

    #[tactic(auto, unfolding(crate::specs::OwnBox::reads_checked))]
    fn read_content(alloc: Global, bytes: &[u8], _start: u64, size: u64) -> Result<Self> {
        let fields: T = fields_at(alloc, bytes, size)?;
        check(fields.passes(), T::REFUSED)?;
        Ok(Checked::new(fields))
    }
}

impl<T: Check> WriteBox for Checked<T> {
    fn is_writable(&self) -> bool {
        self.declared.is_writable() && self.passes()
    }

    fn put_box(&self, out: &mut [u8]) {
        self.declared.put_box(out)
    }

    ghost write_laws = { write_laws (laws_checked T.Shape.shape T.Shape.shape_laws T.layout T.valid T.passes T.kept) };
}

impl<T: Check> BoxLaws for Checked<T> {
    ghost laws = { laws_checked T.Shape.shape T.Shape.shape_laws T.layout T.valid T.passes T.kept };
}

/// Reads the boxes of its code from a list, and skips all others.
impl<T: Check> StreamBox for Checked<T> {
    ghost known = { has_code T.CODE };

    ghost named_reading = { λ _. reading (reads_checked T.passes T.Shape.shape T.layout) };

    fn knows(name: BoxType) -> bool {
        <Declared<T> as StreamBox>::knows(name)
    }

    fn read_named(
        alloc: Global,
        _name: BoxType,
        reader: &mut ByteCursor,
        size: u64,
    ) -> Result<Self> {
        Self::read_box(alloc, reader, size)
    }

    ghost own_name = { λ v w. own_name_declared T.Shape.shape T.layout
        (laws_declared T.Shape.shape T.Shape.shape_laws T.layout T.valid) v w.0 };

    ghost read_back = { read_back_checked T.passes T.Shape.shape T.layout
        (laws_checked T.Shape.shape T.Shape.shape_laws T.layout T.valid T.passes T.kept) };
}

impl<T: Check> StableBox for Checked<T> {
    ghost stable = { stable_checked T.passes T.Shape.shape T.layout
        (laws_checked T.Shape.shape T.Shape.shape_laws T.layout T.valid T.passes T.kept) };

    ghost own_code = { code_checked T.passes T.Shape.shape T.layout
        (laws_checked T.Shape.shape T.Shape.shape_laws T.layout T.valid T.passes T.kept) };
}

/// Its code identifies the box.
impl<T: Check> CodedBox for Checked<T> {
    ghost by_code = { by_code_declared T.CODE };
}
