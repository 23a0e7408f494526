//! A box that holds boxes.

ghost use Rattle.std.specs.Prelude.{◌≡◌, ◌↔◌, ◌-◌, IsTrue};
ghost use Rattle.mp4_frame.specs.BoxType.{code_of};
ghost use Rattle.mp4_frame.specs.Reading.{Answers, reading};
ghost use Rattle.mp4_box_tree.specs.Container.{content_container, reads_container, known_container, HasFront};
ghost use Rattle.mp4_box_tree.specs.Container.{format_container};
ghost use Rattle.mp4_box_tree.specs.ContainerLaws.{written_container, own_name_container, read_back_container};
ghost use Rattle.mp4_box_tree.specs.ContainerLaws.{stable_in_container, code_in_container, by_code_container};
ghost use Rattle.mp4_box_tree.specs.Fronts.{is_parent};

use crate::fronts::{is_parent, width_in};
use mp4_compose::{ChildBox, CodedBox, StableBox};
use mp4_frame::{
    BoxType, ByteCursor, Entries, Mp4Box, Result, StreamBox, WriteBox, bytes_from, check,
    check_end, is_whole, piece_at, put_bytes, put_u32,
};
use std::alloc::Global;

/// A box that holds boxes of `B` (ISO/IEC 14496-12, 4.2 and 8). It is one of:
///
/// - a box that holds only boxes, such as `moov` (`mp4_walk::is_container`),
/// - a `meta`, `iref`, `ipro`, `iinf`, `fiin`, `stsd`, `dref` or `trep`,
/// - a sample entry of video, audio or text,
/// - an item of an `ilst`, or a `tmcd` of a `gmhd`.
#[derive(Debug, Drop, PartialEq, Eq)]
pub struct Container<B> {
    /// The code.
    pub code: u32,
    /// The bytes of the fields before the first box. Empty in boxes that hold only boxes.
    pub fields: Entries<u8>,
    /// The boxes in order.
    pub boxes: Entries<B>,
}

/// Returns whether boxes of this `code` are containers and `fields` can be their fields.
fn has_front(code: u32, fields: &[u8]) -> bool
    ensures { IsTrue result ↔ HasFront code fields.now }
{
    is_parent(code) && fields.len() == width_in(code, fields)
}

/// Reads a container with this `code` and `size` from `bytes`, which start with its header.
#[tactic(auto, unfolding(crate::specs::Container::content_container))]
fn read_content<B: ChildBox>(
    alloc: Global,
    code: u32,
    bytes: &[u8],
    size: u64,
) -> Result<Container<B>>
    ensures { Answers result (content_container B.child_known B.child_reading code bytes.now size) }
{
    check(size >= 8, "box size too small")?;
    let content = piece_at(bytes, 8, size as usize - 8)?;
    let fields = piece_at(content, 0, width_in(code, content))?;
    let fields = Vec::from_slice(alloc, fields)?;
    let boxes = B::read_children(alloc, content, fields.len() as u64)?;
    Ok(Container {
        code,
        fields: fields.into(),
        boxes: boxes.into(),
    })
}

impl<B: ChildBox> Mp4Box for Container<B> {
    ghost format = { format_container B.child_format };

    fn box_type(&self) -> BoxType {
        BoxType::from(self.code)
    }

    fn box_size(&self) -> u64 {
        B::size_of_children(self.boxes.as_slice())
            .saturating_add(self.fields.len() as u64)
            .saturating_add(8)
    }
}

impl<B: ChildBox> WriteBox for Container<B> {
    fn is_writable(&self) -> bool {
        has_front(self.code, self.fields.as_slice())
            && self.box_size() < 1 << 32
            && B::can_write_children(self.boxes.as_slice())
    }

    #[tactic(auto, unfolding(crate::specs::Container::bytes_container, mp4_frame::specs::Bytes::bytes_of_fields, mp4_frame::specs::Bytes::bytes_of_fields_onto))]
    fn put_box(&self, out: &mut [u8]) {
        let size = out.len() as u32;
        let at = put_u32(out, 0, size);
        let at = put_u32(out, at, self.code);
        let at = put_bytes(out, at, self.fields.as_slice());
        B::put_children(self.boxes.as_slice(), &mut out[at..]);
    }

    ghost write_laws = { written_container B.child_format B.child_laws.written };
}

impl<B: ChildBox> StreamBox for Container<B> {
    ghost known = { known_container };

    ghost named_reading = { λ name. reading (reads_container B.child_known B.child_reading (code_of name)) };

    fn knows(name: BoxType) -> bool {
        is_parent(u32::from(name))
    }

    fn read_named(
        alloc: Global,
        name: BoxType,
        reader: &mut ByteCursor,
        size: u64,
    ) -> Result<Self> {
        let start = reader.position() - 8;
        check_end(start, size)?;
        let bytes = bytes_from(reader.bytes(), start);
        let value = read_content(alloc, u32::from(name), bytes, size)?;
        reader.set_position(start + size);
        Ok(value)
    }

    ghost own_name = { own_name_container B.child_format B.child_laws.written B.child_known B.child_reading };

    ghost read_back = { read_back_container B.child_format B.child_laws.written B.child_known
        B.child_reading B.child_laws.own_name B.child_laws.read_back };
}

impl<B: ChildBox> StableBox for Container<B> {
    ghost stable = { stable_in_container B.child_format B.child_laws.written B.child_known B.child_reading
        B.child_laws.stable };

    ghost own_code = { code_in_container B.child_format B.child_laws.written B.child_known B.child_reading };

    fn is_kept_in(&self, _name: BoxType, bytes: &[u8]) -> bool {
        if !is_whole(bytes, self.code) {
            return false;
        }
        B::are_kept_in(bytes_from(bytes, 8), self.fields.len())
    }
}

impl<B: ChildBox> CodedBox for Container<B> {
    ghost by_code = { by_code_container };
}
