//! A node of a tree of boxes.

ghost use Rattle.std.specs.Prelude.{◌≡◌};
ghost use Rattle.mp4_box_tree.specs.Node.{reading_node, format_node};
ghost use Rattle.mp4_box_tree.specs.NodeLaws.{child_node, code_node};
ghost use Rattle.mp4_compose.specs.ChildBox.{child_of};
ghost use Rattle.mp4_compose.specs.Lossless.{known_lossless};

use crate::container::Container;
use mp4_compose::{
    ChildBox, Either, Lossless, StableBox, all_writable, have_short_headers, read_children_as,
    total_size,
};
use mp4_frame::{BoxType, ByteCursor, Mp4Box, Result, StreamBox, WriteBox, put_boxes};
use std::alloc::Global;
use std::marker::Model;
use std::ops::Deref;

/// A container of boxes of `L`, a box of `B`, or the bytes of a box. Bytes are kept if reading the box as a container
/// or as a `B` would lose any of them. Nest the type for a tree: `Node<Node<B, B>, B>` has containers of containers of
/// boxes of `B`.
#[derive(Debug, Drop, PartialEq, Eq)]
pub struct Node<L, B> {
    node: Lossless<Either<Container<L>, B>>,
}

impl<L, B> Model for Node<L, B> {
    ghost use Rattle.mp4_compose.specs.declared.lossless.Lossless.{Lossless};
    ghost use Rattle.mp4_compose.specs.declared.either.Either.{Either};
    ghost use Rattle.mp4_box_tree.specs.declared.container.Container.{Container};

    ghost Value = { Lossless (Either (Container L) B) };

    ghost view = { λ b. b.node };

    ghost inverse = { λ v. record { node = v } };
}

impl<L, B> Node<L, B> {
    /// Makes a node of a container, `Lossless::Typed(Either::First(container))`, of a box,
    /// `Lossless::Typed(Either::Second(b))`, or of the bytes of a box, `Lossless::Raw { .. }`.
    pub fn new(node: Lossless<Either<Container<L>, B>>) -> Self
        ensures { result ≡ node }
    {
        Node { node }
    }

    /// Returns the container, the box or the bytes.
    pub fn into_node(self) -> Lossless<Either<Container<L>, B>>
        ensures { result ≡ self }
    {
        let Node { node } = self;
        node
    }
}

/// Dereferences to the container, the box or the bytes.
impl<L, B> Deref for Node<L, B> {
    type Target = Lossless<Either<Container<L>, B>>;

    ghost deref_gives = { λ b node. node ≡ b };

    fn deref(&self) -> &Lossless<Either<Container<L>, B>> {
        &self.node
    }
}

impl<L: ChildBox, B: StableBox> Mp4Box for Node<L, B> {
    ghost format = { format_node L.child_known L.child_reading L.child_format B.known B.named_reading B.format };

    fn box_type(&self) -> BoxType {
        self.node.box_type()
    }

    fn box_size(&self) -> u64 {
        self.node.box_size()
    }
}

impl<L: ChildBox, B: StableBox> WriteBox for Node<L, B> {
    fn is_writable(&self) -> bool {
        self.node.is_writable()
    }

    fn put_box(&self, out: &mut [u8]) {
        self.node.put_box(out)
    }

    ghost write_laws = { (child_node {rest_reading = B.named_reading} L.child_laws
        (child_of B.write_laws B.own_name B.read_back B.stable) B.own_code).written };
}

impl<L: ChildBox, B: StableBox> StreamBox for Node<L, B> {
    ghost known = { known_lossless };

    ghost named_reading = { reading_node L.child_known L.child_reading L.child_format
        B.known B.named_reading B.format };

    fn knows(_name: BoxType) -> bool {
        true
    }

    fn read_named(
        alloc: Global,
        name: BoxType,
        reader: &mut ByteCursor,
        size: u64,
    ) -> Result<Self> {
        Ok(Node::new(<Lossless<Either<Container<L>, B>> as StreamBox>::read_named(
            alloc, name, reader, size,
        )?))
    }

    ghost own_name = { (child_node {rest_reading = B.named_reading} L.child_laws
        (child_of B.write_laws B.own_name B.read_back B.stable) B.own_code).own_name };

    ghost read_back = { (child_node {rest_reading = B.named_reading} L.child_laws
        (child_of B.write_laws B.own_name B.read_back B.stable) B.own_code).read_back };
}

impl<L: ChildBox, B: StableBox> StableBox for Node<L, B> {
    ghost stable = { (child_node {rest_reading = B.named_reading} L.child_laws
        (child_of B.write_laws B.own_name B.read_back B.stable) B.own_code).stable };

    ghost own_code = { code_node {rest_reading = B.named_reading} L.child_laws
        (child_of B.write_laws B.own_name B.read_back B.stable) B.own_code };
}

impl<L: ChildBox, B: StableBox> ChildBox for Node<L, B> {
    ghost child_format = { format_node L.child_known L.child_reading L.child_format
        B.known B.named_reading B.format };

    ghost child_known = { known_lossless };

    ghost child_reading = { reading_node L.child_known L.child_reading L.child_format
        B.known B.named_reading B.format };

    fn read_children(alloc: Global, content: &[u8], at: u64) -> Result<Vec<Self>> {
        read_children_as(alloc, content, at)
    }

    fn are_kept_in(content: &[u8], at: usize) -> bool {
        have_short_headers::<Self>(content, at)
    }

    fn size_of_children(boxes: &[Self]) -> u64 {
        total_size(boxes)
    }

    fn can_write_children(boxes: &[Self]) -> bool {
        all_writable(boxes)
    }

    fn put_children(boxes: &[Self], out: &mut [u8]) {
        put_boxes(boxes, out)
    }

    ghost child_laws = { child_node {rest_reading = B.named_reading} L.child_laws
        (child_of B.write_laws B.own_name B.read_back B.stable) B.own_code };
}
