//! A declared box with boxes after its fields.

ghost use Rattle.std.specs.Prelude.{◌≡◌, ◌+◌, ◌-◌, ◌≤◌, ◌^◌, ◌↔◌, ◌++◌, false, IfOk, IsTrue, length, take};
ghost use Rattle.mp4_frame.specs.Bytes.{bytes_of_fields};
ghost use Rattle.mp4_frame.specs.Format.{write_laws};
ghost use Rattle.mp4_frame.specs.Reading.{AnswersAs, reading};
ghost use Rattle.mp4_declared.specs.ByCode.{has_code, by_code_declared};
ghost use Rattle.mp4_declared.specs.OwnBox.{no_context, reads_declared, size_declared, header_declared};
ghost use Rattle.mp4_declared.specs.OwnBox.{format_declared};
ghost use Rattle.mp4_box_tree.specs.DeclaredContainer.{reads_declared_container, format_declared_container};
ghost use Rattle.mp4_box_tree.specs.DeclaredContainerLaws.{laws_declared_container, child_declared_container};
ghost use Rattle.mp4_box_tree.specs.DeclaredContainerLaws.{code_declared_container};

use mp4_compose::{ChildBox, CodedBox, StableBox, all_writable, read_children_as, total_size};
use mp4_declared::{Context, Declared, DeclaredBox, Shape};
use mp4_frame::{
    BoxLaws, BoxType, ByteCursor, Entries, Error, Mp4Box, ReadBox, Result, StreamBox, WriteBox,
    check, piece_at, put_boxes, put_child, put_u32,
};
use std::alloc::Global;

/// The context before version and flags are known.
const NO_CONTEXT: Context = Context {
    version: 0,
    flags: 0,
};

/// The fields of a box with boxes after them. They may not extend to the end of the box, as fields with a `Rest` do.
pub trait ContainerFields: DeclaredBox {
    /// The shape has an end before the end of the box.
    ghost has_end: { Self.Shape.shape.to_end ≡ false };
}

/// A box with declared fields, then boxes of `B` up to its end.
#[derive(Debug, Drop, PartialEq, Eq)]
pub struct DeclaredContainer<T, B> {
    /// The fields.
    pub fields: Declared<T>,
    /// The boxes in order.
    pub boxes: Entries<B>,
}

impl<T, B> DeclaredContainer<T, B> {
    /// Makes a box with these `fields` and `boxes`.
    pub fn new(fields: T, boxes: Entries<B>) -> Self
        ensures fields { result.fields ≡ fields }
        ensures boxes { result.boxes ≡ boxes }
    {
        DeclaredContainer {
            fields: Declared::new(fields),
            boxes,
        }
    }
}

/// Reads the fields of the box whose `size` bytes are `whole`. Returns them with the offset after them.
#[tactic(auto, unfolding(mp4_declared::specs::OwnBox::reads_declared))]
fn read_fields<T: ContainerFields>(alloc: Global, whole: &[u8], size: u64) -> Result<(T, usize)>
    ensures value { AnswersAs (λ r. r.0) result (reads_declared T.Shape.shape T.layout whole.now 0 size) }
    ensures next { IfOk result (λ r. r.1 ≡ size_declared T.Shape.shape T.layout r.0) }
{
    if whole.len() < T::Shape::front(NO_CONTEXT).saturating_add(8) {
        return Err(Error::IoError);
    }
    let (content, next) = T::Shape::read(alloc, whole, 8, size, NO_CONTEXT)?;
    Ok((T::from_content(content), next))
}

/// Puts a header with this `size`, then `fields`, and returns the offset after them. It first puts a box without
/// children, and then overwrites its size.
fn put_fields<T: DeclaredBox>(out: &mut [u8], size: u32, fields: &Declared<T>) -> usize
    requires writable { (format_declared T.Shape.shape T.layout).Writable fields.now }
    requires fits { size_declared T.Shape.shape T.layout fields.now ≤ length out.old }
    ensures next { result ≡ size_declared T.Shape.shape T.layout fields.now }
    ensures put { take result out.new ≡ bytes_of_fields (header_declared size T.CODE)
        ++ T.Shape.shape.bytes no_context (T.layout.content fields.now) }
{
    let next = put_child(out, 0, fields);
    put_u32(&mut out[..4], 0, size);
    next
}

impl<T: ContainerFields, B: ChildBox> Mp4Box for DeclaredContainer<T, B> {
    ghost format = { format_declared_container T.Shape.shape T.layout B.child_format };

    fn box_type(&self) -> BoxType {
        self.fields.box_type()
    }

    fn box_size(&self) -> u64 {
        B::size_of_children(self.boxes.as_slice()).saturating_add(self.fields.box_size())
    }
}

impl<T: ContainerFields, B: ChildBox> ReadBox for DeclaredContainer<T, B> {
    ghost reads = { reads_declared_container T.Shape.shape T.layout B.child_known B.child_reading };

    const LEAST: u64 = 0;

    #[tactic(auto, unfolding(crate::specs::DeclaredContainer::reads_declared_container))]
    fn read_content(alloc: Global, bytes: &[u8], _start: u64, size: u64) -> Result<Self> {
        check(size >= 8, "box size too small")?;
        let whole = piece_at(bytes, 0, size as usize)?;
        let (fields, next) = read_fields(alloc, whole, size)?;
        let boxes = B::read_children(alloc, whole, next as u64)?;
        Ok(DeclaredContainer::new(fields, boxes.into()))
    }
}

impl<T: ContainerFields, B: ChildBox> WriteBox for DeclaredContainer<T, B> {
    fn is_writable(&self) -> bool {
        self.fields.is_writable()
            && self.box_size() < 1 << 32
            && B::can_write_children(self.boxes.as_slice())
    }

    #[tactic(auto, unfolding(crate::specs::DeclaredContainer::bytes_declared_container))]
    fn put_box(&self, out: &mut [u8]) {
        let size = out.len() as u32;
        let at = put_fields(out, size, &self.fields);
        B::put_children(self.boxes.as_slice(), &mut out[at..]);
    }

    ghost write_laws = { write_laws (laws_declared_container T.Shape.shape T.Shape.shape_laws T.layout T.valid T.has_end
        B.child_laws) };
}

impl<T: ContainerFields, B: ChildBox> BoxLaws for DeclaredContainer<T, B> {
    ghost laws = { laws_declared_container T.Shape.shape T.Shape.shape_laws T.layout T.valid T.has_end B.child_laws };
}

/// A list reads the boxes of the code of `T` and skips all others.
impl<T: ContainerFields, B: ChildBox> StreamBox for DeclaredContainer<T, B> {
    ghost known = { has_code T.CODE };

    ghost named_reading = { λ _. reading
        (reads_declared_container T.Shape.shape T.layout B.child_known B.child_reading) };

    fn knows(name: BoxType) -> bool {
        u32::from(name) == T::CODE
    }

    fn read_named(
        alloc: Global,
        _name: BoxType,
        reader: &mut ByteCursor,
        size: u64,
    ) -> Result<Self> {
        Self::read_box(alloc, reader, size)
    }

    ghost own_name = { (child_declared_container T.Shape.shape T.Shape.shape_laws T.layout T.valid T.has_end
        B.child_laws).own_name };

    ghost read_back = { (child_declared_container T.Shape.shape T.Shape.shape_laws T.layout T.valid T.has_end
        B.child_laws).read_back };
}

impl<T: ContainerFields, B: ChildBox> StableBox for DeclaredContainer<T, B> {
    ghost stable = { (child_declared_container T.Shape.shape T.Shape.shape_laws T.layout T.valid T.has_end
        B.child_laws).stable };

    ghost own_code = { code_declared_container T.Shape.shape T.Shape.shape_laws T.layout T.valid T.has_end
        B.child_laws };
}

/// The code identifies the type.
impl<T: ContainerFields, B: ChildBox> CodedBox for DeclaredContainer<T, B> {
    ghost by_code = { by_code_declared T.CODE };
}

impl<T: ContainerFields, B: ChildBox> ChildBox for DeclaredContainer<T, B> {
    ghost child_format = { format_declared_container T.Shape.shape T.layout B.child_format };

    ghost child_known = { has_code T.CODE };

    ghost child_reading = { λ _. reading
        (reads_declared_container T.Shape.shape T.layout B.child_known B.child_reading) };

    fn read_children(alloc: Global, content: &[u8], at: u64) -> Result<Vec<Self>> {
        read_children_as(alloc, content, at)
    }

    fn size_of_children(boxes: &[Self]) -> u64 {
        total_size(boxes)
    }

    fn can_write_children(boxes: &[Self]) -> bool {
        all_writable(boxes)
    }

    fn put_children(boxes: &[Self], out: &mut [u8]) {
        put_boxes(boxes, out)
    }

    ghost child_laws = { child_declared_container T.Shape.shape T.Shape.shape_laws T.layout T.valid T.has_end
        B.child_laws };
}
