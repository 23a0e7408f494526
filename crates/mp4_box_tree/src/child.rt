//! A shape for a box among the fields of another box.

ghost use Rattle.std.specs.Prelude.{◌≡◌, ◌==◌, ◌+◌, ◌≤◌, IfOk, length};
ghost use Rattle.mp4_frame.specs.Reading.{AnswersAs, piece_at};
ghost use Rattle.mp4_declared.specs.OwnBox.{size_declared};
ghost use Rattle.mp4_box_tree.specs.Child.{child_shape};
ghost use Rattle.mp4_box_tree.specs.ChildShapeLaws.{child_laws};

use mp4_declared::{Context, Declared, DeclaredBox, PutShape, Shape};
use mp4_frame::{Error, Mp4Box, ReadBox, Result, WriteBox, check, piece_at, put_child, u32_at};
use std::alloc::Global;

/// The fields of a box whose layout leaves out no field, so that it is read back unchanged.
pub trait ExactFields: DeclaredBox {
    /// A value is its own normal form.
    ghost exact: { (v : Self) → Self.layout.value (Self.layout.content v) ≡ v };
}

/// The shape of a child box with the fields of `T`. The child has a header of 8 bytes and the code of `T`. It lies
/// within its parent and ends with its fields.
pub struct Child<T>(T);

/// Returns the `size` bytes at offset `at`, or end of input unless all of them are present.
#[tactic(auto, using(crate::proofs::Sizes::piece_room))]
fn whole_at(bytes: &[u8], at: usize, size: u32) -> Result<&[u8]>
    requires { at ≤ length bytes.now }
    ensures whole { AnswersAs (λ whole. whole.now) result (piece_at bytes.now at size) }
    ensures within { IfOk result (λ _. at + size ≤ length bytes.now) }
{
    let whole = piece_at(bytes, at, size as usize)?;
    Ok(whole)
}

/// Returns whether `child` encodes to exactly `size` bytes.
#[tactic(auto, using(mp4_lemmas::proofs::Numbers::same_size))]
fn has_size<T: DeclaredBox>(child: &Declared<T>, size: u32) -> bool
    ensures { result ≡ (size == size_declared T.Shape.shape T.layout child.now) }
{
    u64::from(size) == child.box_size()
}

impl<T: ExactFields> Shape for Child<T> {
    type Value = Declared<T>;

    ghost shape = { child_shape T.Shape.shape T.layout };

    ghost shape_laws = { child_laws T.Shape.shape T.Shape.shape_laws T.layout };

    #[inline]
    fn is_fixed() -> bool {
        false
    }

    #[inline]
    fn front(_context: Context) -> usize {
        8
    }

    #[tactic(auto, unfolding(crate::specs::Child::reads_child))]
    fn read(
        alloc: Global,
        bytes: &[u8],
        at: usize,
        end: u64,
        _context: Context,
    ) -> Result<(Declared<T>, usize)> {
        let size = u32_at(bytes, at);
        check(
            u32_at(bytes, at + 4) == T::CODE,
            "box of another type than the child's",
        )?;
        check(
            u64::from(size) <= end.saturating_sub(at as u64),
            "child box larger than the box around it",
        )?;
        let whole = whole_at(bytes, at, size)?;
        let child = Declared::<T>::read_content(alloc, whole, 0, u64::from(size))?;
        if !has_size(&child, size) {
            return Err(Error::InvalidData("child box does not end with its fields"));
        }
        Ok((child, at + size as usize))
    }
}

impl<'a, T: ExactFields> PutShape<&'a Declared<T>> for Child<T> {
    ghost content = { λ child. child.now };

    #[inline]
    fn size(_context: Context, value: &'a Declared<T>) -> u64 {
        value.box_size()
    }

    #[inline]
    fn fits(_context: Context, value: &'a Declared<T>) -> bool {
        value.is_writable()
    }

    #[inline]
    fn put(out: &mut [u8], at: usize, _context: Context, value: &'a Declared<T>) -> usize {
        put_child(out, at, value)
    }
}
