//! A struct with a shape, as a part of a box.

ghost use Rattle.std.specs.Prelude.{◌≡◌, ◌≤◌, ◌+◌, ◌-◌, ◌^◌, ◌↔◌, ◌++◌, min, IsTrue, take};
ghost use Rattle.mp4_declared.specs.DeclaredEntry.{entry_shape};
ghost use Rattle.mp4_declared.specs.DeclaredEntryLaws.{laws_of_entry};

use crate::field_sink::FieldSink;
use crate::has_fields::HasFields;
use crate::show::{NamedShape, ShowShape};
use crate::view::View;
use mp4_declared::{Context, DeclaredEntry, EntryVisitor, PutShape, Shape};
use mp4_frame::Result;
use std::alloc::Global;

/// The size of the content in bytes.
#[derive(Clone, Copy)]
struct NestedSize {
    context: Context,
}

impl<S: Shape> EntryVisitor<S> for NestedSize {
    type Answer = u64;

    ghost answers = { λ q x _ _ answer. answer ≡ min (S.shape.size q.context x) (2 ^ 64 - 1) };

    #[inline]
    fn visit<V: Copy>(self, content: V, _out: &mut [u8]) -> u64
    where
        S: PutShape<V>,
    {
        S::size(self.context, content)
    }
}

/// The test whether each number of the content fits its field.
#[derive(Clone, Copy)]
struct NestedFits {
    context: Context,
}

impl<S: Shape> EntryVisitor<S> for NestedFits {
    type Answer = bool;

    ghost answers = { λ q x _ _ answer. IsTrue answer ↔ S.shape.Fits q.context x };

    #[inline]
    fn visit<V: Copy>(self, content: V, _out: &mut [u8]) -> bool
    where
        S: PutShape<V>,
    {
        S::fits(self.context, content)
    }
}

/// The bytes of the content, written at offset `at`. The answer is the offset after them.
#[derive(Clone, Copy)]
struct PutNested {
    context: Context,
    at: usize,
}

impl<S: Shape> EntryVisitor<S> for PutNested {
    type Answer = usize;

    ghost can_visit = { λ q x available. S.shape.Fits q.context x × (q.at + S.shape.size q.context x ≤ available) };

    ghost answers = { λ q x old new next. (next ≡ q.at + S.shape.size q.context x)
        × (take next new ≡ take q.at old ++ S.shape.bytes q.context x) };

    #[inline]
    fn visit<V: Copy>(self, content: V, out: &mut [u8]) -> usize
    where
        S: PutShape<V>,
    {
        S::put(out, self.at, self.context, content)
    }
}

/// An `X` by its own shape. A part of it that reaches to the end of a box is refused where something follows.
pub struct Nested<X>(X);

impl<X: DeclaredEntry> Shape for Nested<X> {
    type Value = X;

    ghost shape = { entry_shape X.Shape.shape X.layout };

    ghost shape_laws = { laws_of_entry X.Shape.shape X.Shape.shape_laws X.layout };

    #[inline]
    fn is_fixed() -> bool {
        X::Shape::is_fixed()
    }

    #[inline]
    fn front(context: Context) -> usize {
        X::Shape::front(context)
    }

    #[inline]
    fn read(
        alloc: Global,
        bytes: &[u8],
        at: usize,
        end: u64,
        context: Context,
    ) -> Result<(X, usize)> {
        let (content, next) = X::Shape::read(alloc, bytes, at, end, context)?;
        Ok((X::from_content(content), next))
    }
}

impl<'a, X: DeclaredEntry> PutShape<&'a X> for Nested<X> {
    ghost content = { λ entry. entry.now };

    #[inline]
    fn size(context: Context, value: &'a X) -> u64 {
        value.visit(NestedSize { context }, &mut [])
    }

    #[inline]
    fn fits(context: Context, value: &'a X) -> bool {
        value.visit(NestedFits { context }, &mut [])
    }

    #[inline]
    fn put(out: &mut [u8], at: usize, context: Context, value: &'a X) -> usize {
        value.visit(PutNested { context, at }, out)
    }
}

/// The fields of the struct are shown among those of the box.
impl<X: HasFields> NamedShape for Nested<X> {
    type Value = X;

    type Names = ();

    ghost Seen = { Unit {0} };

    ghost seen = { λ names. names };

    ghost shown = { λ names view x. X.shown view x };

    ghost whole = { λ names view x. X.whole view x };
}

impl<'a, X: HasFields> ShowShape<&'a X> for Nested<X> {
    ghost content = { λ x. x.now };

    fn show<K: FieldSink>(
        _names: &(),
        view: View,
        value: &&'a X,
        sink: &mut K,
    ) -> crate::Result<()> {
        value.show(view, sink)
    }
}
