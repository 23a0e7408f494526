//! Declared boxes: a struct of fields, and the shape of their encoding.

ghost use Rattle.std.specs.Prelude.{◌≡◌, ℕ, ◌≤◌, ◌<◌, ◌+◌, ◌-◌, ◌^◌, ◌↔◌, ◌++◌, true, false, min, List, IsTrue, length};
ghost use Rattle.std.specs.Prelude.{take};
ghost use Rattle.mp4_frame.specs.Bytes.{bytes_of_fields};
ghost use Rattle.mp4_frame.specs.Format.{write_laws};
ghost use Rattle.mp4_frame.specs.Reading.{Answers};
ghost use Rattle.mp4_declared.specs.OwnBox.{no_context, reads_declared, format_declared, header_declared};
ghost use Rattle.mp4_declared.specs.OwnBox.{OwnLayout};
ghost use Rattle.mp4_declared.specs.OwnBoxLaws.{laws_declared};

use crate::context::Context;
use crate::shape::{PutShape, Shape};
use mp4_frame::{BoxLaws, BoxType, Error, Mp4Box, ReadBox, Result, TryClone, WriteBox, put_u32};
use std::alloc::Global;
use std::marker::Model;
use std::ops::{Deref, DerefMut};

/// The context of a shape that follows no version and flags.
const NO_CONTEXT: Context = Context {
    version: 0,
    flags: 0,
};

/// A visitor of the content of a box of the shape `S`, for its size, whether it fits, or its bytes.
pub trait ShapeVisitor<S: Shape> {
    /// The type of the answer.
    type Answer;

    /// The precondition on the content and the length of the slice.
    ghost can_visit: { S.Value → ℕ → Type 0 } = { λ _ _. Unit {0} };

    /// The relation between the content, the bytes of the slice before and after, and the answer.
    ghost answers: { S.Value → List ℕ → List ℕ → Self.Answer → Type 0 };

    /// Visits `content` and returns the answer. Writes an answer in bytes to `out`.
    fn visit<V: Copy>(content: V, out: &mut [u8]) -> Self::Answer
    where
        S: PutShape<V>,
        requires { can_visit (S.PutShape.content content) (length out.old) }
        ensures { answers (S.PutShape.content content) out.old out.new result };
}

/// The size of the content in bytes.
struct Size;

impl<S: Shape> ShapeVisitor<S> for Size {
    type Answer = u64;

    ghost answers = { λ x _ _ answer. answer ≡ min (S.shape.size no_context x) (2 ^ 64 - 1) };

    #[inline]
    fn visit<V: Copy>(content: V, _out: &mut [u8]) -> u64
    where
        S: PutShape<V>,
    {
        S::size(NO_CONTEXT, content)
    }
}

/// The test whether each number of the content fits its field.
struct Fits;

impl<S: Shape> ShapeVisitor<S> for Fits {
    type Answer = bool;

    ghost answers = { λ x _ _ answer. IsTrue answer ↔ S.shape.Fits no_context x };

    #[inline]
    fn visit<V: Copy>(content: V, _out: &mut [u8]) -> bool
    where
        S: PutShape<V>,
    {
        S::fits(NO_CONTEXT, content)
    }
}

/// The bytes of the content, written after the header.
struct Put;

impl<S: Shape> ShapeVisitor<S> for Put {
    type Answer = ();

    ghost can_visit = { λ x available. S.shape.Fits no_context x × (available ≡ 8 + S.shape.size no_context x) };

    ghost answers = { λ x old new _. new ≡ take 8 old ++ S.shape.bytes no_context x };

    #[inline]
    fn visit<V: Copy>(content: V, out: &mut [u8])
    where
        S: PutShape<V>,
    {
        S::put(out, 8, NO_CONTEXT, content);
    }
}

/// The fields of a declared box: its code, the shape of its content, and the part of the content that each field holds.
pub trait DeclaredBox: Sized + Drop {
    /// The shape of the content, which follows the box's size and code.
    type Shape: Shape;

    /// The code.
    ghost CODE: { ℕ };

    /// The content of a box, and the box that is made from some content.
    ghost layout: { OwnLayout CODE Self.Shape.Value Self };

    /// The code: the four bytes of the box's type as a number, big-endian.
    const CODE: u32;

    /// Creates the box whose content is `found`.
    fn from_content(found: <Self::Shape as Shape>::Value) -> Self
        ensures { result ≡ layout.value found };

    /// Passes the content to the visitor `Q`, and returns its answer.
    fn visit<Q: ShapeVisitor<Self::Shape>>(&self, out: &mut [u8]) -> Q::Answer
        requires { Q.can_visit (layout.content self.now) (length out.old) }
        ensures { Q.answers (layout.content self.now) out.old out.new result };

    /// Nothing follows a part that reaches to the end of the box, and the entries of a list have at least one byte.
    ghost valid: { Self.Shape.shape.valid ≡ true };
}

/// A declared box with the fields of `T`, which are read and set as its own: `sidx.timescale`.
#[derive(Debug, Drop, PartialEq, Eq)]
pub struct Declared<T> {
    fields: T,
}

impl<T> Model for Declared<T> {
    ghost Value = { T };

    ghost view = { λ b. b.fields };

    ghost inverse = { λ v. record { fields = v } };
}

impl<T> Declared<T> {
    /// Creates a box with these `fields`.
    pub fn new(fields: T) -> Self
        ensures { result ≡ fields }
    {
        Declared { fields }
    }

    /// Returns the fields of the box.
    pub fn into_fields(self) -> T
        ensures { result ≡ self }
    {
        let Declared { fields } = self;
        fields
    }
}

/// Gives read access to the fields: `sidx.timescale`.
impl<T> Deref for Declared<T> {
    type Target = T;

    ghost deref_gives = { λ b fields. fields ≡ b };

    #[inline]
    fn deref(&self) -> &T {
        &self.fields
    }
}

/// Gives write access to the fields: `sidx.timescale = 90_000`.
impl<T> DerefMut for Declared<T> {
    ghost use Rattle.std.specs.Borrow.{Lends, sem};
    ghost use Rattle.mp4_declared.specs.contracts.declared.Declared.{the_row};

    ghost deref_mut_gives = { λ b fields. fields ≡ b };

    #[inline]
    fn deref_mut(&mut self) -> &mut T
        ensures* writes_back { sem 𝓛 (Lends (the_row T.row) T.row self.entry result (λ fields. fields)) }
        ensures shows { result.now ≡ self.old }
    {
        &mut self.fields
    }
}

impl<T: Default> Default for Declared<T> {
    ghost is_default = { λ b. T.is_default b };

    fn default() -> Self {
        Declared::new(T::default())
    }
}

impl<T: TryClone> TryClone for Declared<T> {
    fn try_clone(&self) -> Result<Self> {
        Ok(Declared::new(self.fields.try_clone()?))
    }
}

/// Reads the fields of a box of `size` bytes, whose header is at the start of `bytes`.
#[inline]
#[tactic(auto, unfolding(crate::specs::OwnBox::reads_declared))]
fn read_fields<T: DeclaredBox>(alloc: Global, bytes: &[u8], size: u64) -> Result<T>
    ensures { (start : ℕ) → Answers result (reads_declared T.Shape.shape T.layout bytes.now start size) }
{
    if bytes.len() < T::Shape::front(NO_CONTEXT).saturating_add(8) {
        return Err(Error::IoError);
    }
    let (content, _) = T::Shape::read(alloc, bytes, 8, size, NO_CONTEXT)?;
    Ok(T::from_content(content))
}

/// Calls `read_fields`, and isn't inlined.
#[cold]
#[inline(never)]
fn read_last_fields<T: DeclaredBox>(alloc: Global, bytes: &[u8], size: u64) -> Result<T>
    ensures { (start : ℕ) → Answers result (reads_declared T.Shape.shape T.layout bytes.now start size) }
{
    read_fields(alloc, bytes, size)
}

/// The number of bytes after which the bounds checks of most boxes' numbers can be left out.
const ENOUGH: usize = 64;

/// Reads the fields of a box of `size` bytes, whose header is at the start of `bytes`. If `bytes` has at least `ENOUGH`
/// bytes, the compiler can leave out the bounds checks of the first numbers.
#[inline]
pub(crate) fn fields_at<T: DeclaredBox>(alloc: Global, bytes: &[u8], size: u64) -> Result<T>
    ensures { (start : ℕ) → Answers result (reads_declared T.Shape.shape T.layout bytes.now start size) }
{
    if bytes.len() < ENOUGH {
        return read_last_fields(alloc, bytes, size);
    }
    read_fields(alloc, bytes, size)
}

impl<T: DeclaredBox> Mp4Box for Declared<T> {
    ghost format = { format_declared T.Shape.shape T.layout };

    fn box_type(&self) -> BoxType {
        BoxType::from(T::CODE)
    }

    #[inline]
    fn box_size(&self) -> u64 {
        self.fields.visit::<Size>(&mut []).saturating_add(8)
    }
}

impl<T: DeclaredBox> ReadBox for Declared<T> {
    ghost reads = { reads_declared T.Shape.shape T.layout };

    const LEAST: u64 = 0;

    fn read_content(alloc: Global, bytes: &[u8], _start: u64, size: u64) -> Result<Self> {
        Ok(Declared::new(fields_at(alloc, bytes, size)?))
    }
}

/// Puts the size and the code of a box at the start of `out`.
#[tactic(auto, unfolding(mp4_frame::specs::Bytes::bytes_of_fields, mp4_frame::specs::Bytes::bytes_of_fields_onto))]
fn put_header(out: &mut [u8], size: u32, code: u32)
    requires { 8 ≤ length out.old }
    ensures { take 8 out.new ≡ bytes_of_fields (header_declared size code) }
{
    let at = put_u32(out, 0, size);
    put_u32(out, at, code);
}

impl<T: DeclaredBox> WriteBox for Declared<T> {
    fn is_writable(&self) -> bool {
        self.box_size() < 1 << 32 && self.fields.visit::<Fits>(&mut [])
    }

    fn put_box(&self, out: &mut [u8]) {
        put_header(out, self.box_size() as u32, T::CODE);
        self.fields.visit::<Put>(out)
    }

    ghost write_laws = { write_laws (laws_declared T.Shape.shape T.Shape.shape_laws T.layout T.valid) };
}

impl<T: DeclaredBox> BoxLaws for Declared<T> {
    ghost laws = { laws_declared T.Shape.shape T.Shape.shape_laws T.layout T.valid };
}
