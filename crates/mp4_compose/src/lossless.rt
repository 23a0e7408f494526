//! A box that is read as a typed box if that loses nothing, and else kept as its bytes.

ghost use Rattle.std.specs.Prelude.{◌≡◌, ◌+◌, ◌-◌, ◌==◌, [], ◌∷◌, ◌++◌, ◌≤◌, ◌<◌, ◌^◌, nat_eq, nat_lt};
ghost use Rattle.std.specs.Prelude.{◌&&◌, ◌↔◌, IsTrue, false, length, Ok, IfErr, IfOk, OnOk, OnErr};
ghost use lib.Pointwise.{pointwise};
ghost use Rattle.mp4_frame.specs.BoxType.{code_of};
ghost use Rattle.mp4_frame.specs.Bytes.{number, bytes_of_fields};
ghost use Rattle.mp4_frame.specs.Reading.{Answers, AnswersAs, reading};
ghost use Rattle.mp4_frame.specs.declared.error.Error.TheVariants.{OutOfMemory};
ghost use Rattle.mp4_compose.specs.ChildBox.{child_of};
ghost use Rattle.mp4_compose.specs.Lossless.{short_box, exact, IsKept, content_lossless, format_lossless};
ghost use Rattle.mp4_compose.specs.Lossless.{known_lossless};
ghost use Rattle.mp4_compose.specs.LosslessLaws.{by_code_exact, reading_lossless, child_lossless, stable_lossless};
ghost use Rattle.mp4_compose.specs.LosslessLaws.{code_lossless};

use crate::child_box::{ChildBox, all_writable, have_short_headers, read_children_as, total_size};
use crate::either::CodedBox;
use crate::stable_box::StableBox;
use mp4_frame::{
    BoxType, ByteCursor, Entries, Error, Mp4Box, Result, StreamBox, WriteBox, bytes_from, check,
    check_end, expect_bytes, put_boxes, put_bytes, put_u32, u32_at,
};
use std::alloc::Global;

/// A box that is read as a `B` if that loses nothing, that is, if the value is written in the same bytes. Any other box
/// is kept as its bytes. So every box that is read is written as it was, except that a header of 16 bytes becomes one
/// of 8.
#[derive(Debug, Drop, PartialEq, Eq)]
pub enum Lossless<B> {
    /// A box that `B` reads, and writes in the same bytes.
    Typed(B),
    /// A box that `B` doesn't read, or doesn't write in the same bytes.
    Raw {
        /// The code.
        code: u32,
        /// The bytes, with a header of 8 bytes.
        bytes: Entries<u8>,
    },
}

/// Fills `out` with a size, a code and a content.
#[tactic(auto, unfolding(mp4_frame::specs::Bytes::bytes_of_fields, mp4_frame::specs::Bytes::bytes_of_fields_onto))]
fn put_whole(out: &mut [u8], size: u32, code: u32, content: &[u8])
    requires { length out.old ≡ 8 + length content.now }
    ensures { out.new ≡ bytes_of_fields ((4, size) ∷ (4, code) ∷ []) ++ content.now }
{
    let at = put_u32(out, 0, size);
    let at = put_u32(out, at, code);
    put_bytes(out, at, content);
}

/// Returns whether the box at the front of `bytes`, with the code `code` and the size `size`, has a header of 8 bytes.
fn is_short(code: u32, bytes: &[u8], size: usize) -> bool
    requires { 8 ≤ length bytes.now }
    ensures { result ≡ ((number bytes.now 0 4 == size) && (number bytes.now 4 4 == code)) }
{
    u32_at(bytes, 0) as usize == size && u32_at(bytes, 4) == code
}

/// Returns a copy of the box at the front of `bytes`, with the code `code` and the size `size`. The header of the copy
/// has 8 bytes, and the header of the box does not.
#[tactic(auto, unfolding(crate::specs::Lossless::short_box))]
fn with_short_header(alloc: Global, code: u32, bytes: &[u8], size: usize) -> Result<Vec<u8>>
    requires least { 8 ≤ size }
    requires room { size ≤ length bytes.now }
    requires long { ((number bytes.now 0 4 == size) && (number bytes.now 4 4 == code)) ≡ false }
    ensures copy { IfOk result (λ v. v.items ≡ short_box code bytes.now size) }
    ensures memory { IfErr result (λ e. e ≡ OutOfMemory) }
{
    let whole = &bytes[..size];
    let mut copy = Vec::from_slice(alloc, whole)?;
    put_whole(&mut copy, (size % 0x1_0000_0000) as u32, code, &whole[8..]);
    Ok(copy)
}

/// Returns whether `value`, which was read in `bytes` under the name `name`, is written in exactly these bytes.
fn is_written_in<B: StableBox>(
    alloc: Global,
    name: BoxType,
    value: &B,
    bytes: &[u8],
) -> Result<bool>
    requires read { (B.named_reading name bytes.now 0 (length bytes.now)).outcome ≡ Ok value.now }
    requires stable { B.format.size value.now < 2 ^ 32 → B.format.Writable value.now }
    ensures exact { IfOk result (λ is_exact. is_exact ≡ (nat_lt (B.format.size value.now) (2 ^ 32)
        && pointwise nat_eq (B.format.bytes value.now) bytes.now)) }
    ensures memory { IfErr result (λ e. e ≡ OutOfMemory) }
{
    if value.is_kept_in(name, bytes) {
        return Ok(true);
    }
    let mut written = Vec::new(alloc);
    match value.write_box(&mut written) {
        Ok(_) => Ok(written.as_slice() == bytes),
        Err(Error::OutOfMemory) => Err(Error::OutOfMemory),
        Err(_) => Ok(false),
    }
}

/// Returns the box of the code `code` whose bytes are `whole`: as a `B` if that loses nothing, else as its bytes.
fn exact_in<B: StableBox>(alloc: Global, code: u32, whole: &[u8]) -> Result<Lossless<B>>
    ensures exact { IfOk result (λ v. v ≡ exact B.known B.named_reading B.format code whole.now) }
    ensures memory { IfErr result (λ e. e ≡ OutOfMemory) }
{
    let name = BoxType::from(code);
    if B::knows(name) {
        let mut reader = ByteCursor::new(whole);
        reader.set_position(8);
        match B::read_named(alloc, name, &mut reader, whole.len() as u64) {
            Ok(value) => {
                if is_written_in(alloc, name, &value, whole)? {
                    return Ok(Lossless::Typed(value));
                }
            }
            Err(Error::OutOfMemory) => return Err(Error::OutOfMemory),
            Err(_) => {}
        }
    }
    Ok(Lossless::Raw {
        code,
        bytes: Vec::from_slice(alloc, whole)?.into(),
    })
}

/// Reads the box with the code `code` and the size `size`. `bytes` begins at the box's start.
#[tactic(auto, unfolding(crate::specs::Lossless::content_lossless, crate::specs::Lossless::short_box))]
fn read_content<B: StableBox>(
    alloc: Global,
    code: u32,
    bytes: &[u8],
    size: u64,
) -> Result<Lossless<B>>
    ensures { Answers result (content_lossless B.known B.named_reading B.format code bytes.now size) }
{
    check(size >= 8, "box size too small")?;
    let size = size as usize;
    expect_bytes(bytes, 0, size)?;
    if is_short(code, bytes, size) {
        return exact_in(alloc, code, &bytes[..size]);
    }
    let copy = with_short_header(alloc, code, bytes, size)?;
    exact_in(alloc, code, &copy)
}

impl<B: StableBox> Mp4Box for Lossless<B> {
    ghost format = { format_lossless B.known B.named_reading B.format };

    fn box_type(&self) -> BoxType {
        match self {
            Lossless::Typed(b) => b.box_type(),
            Lossless::Raw { code, .. } => BoxType::from(*code),
        }
    }

    fn box_size(&self) -> u64 {
        match self {
            Lossless::Typed(b) => b.box_size(),
            Lossless::Raw { bytes, .. } => bytes.len() as u64,
        }
    }
}

/// Returns whether `bytes` are those of a box of the code `code` with a header of 8 bytes.
fn is_kept(code: u32, bytes: &[u8]) -> bool
    ensures { IsTrue result ↔ IsKept code bytes.now }
{
    bytes.len() >= 8
        && u64::from(u32_at(bytes, 0)) == bytes.len() as u64
        && u32_at(bytes, 4) == code
}

impl<B: StableBox> WriteBox for Lossless<B> {
    fn is_writable(&self) -> bool {
        match self {
            Lossless::Typed(b) => b.is_writable(),
            Lossless::Raw { code, bytes } => is_kept(*code, bytes.as_slice()),
        }
    }

    fn put_box(&self, out: &mut [u8]) {
        match self {
            Lossless::Typed(b) => b.put_box(out),
            Lossless::Raw { bytes, .. } => out.copy_from_slice(bytes.as_slice()),
        }
    }

    ghost write_laws = { (child_lossless B.known B.named_reading B.format
        (child_of B.write_laws B.own_name B.read_back B.stable)
        B.own_code).written };
}

impl<B: StableBox> StreamBox for Lossless<B> {
    ghost known = { known_lossless };

    ghost named_reading = { reading_lossless B.known B.named_reading B.format };

    fn knows(_name: BoxType) -> bool {
        true
    }

    fn read_named(
        alloc: Global,
        name: BoxType,
        reader: &mut ByteCursor,
        size: u64,
    ) -> Result<Self> {
        let start = reader.position() - 8;
        check_end(start, size)?;
        let bytes = bytes_from(reader.bytes(), start);
        let value = read_content(alloc, u32::from(name), bytes, size)?;
        reader.set_position(start + size);
        Ok(value)
    }

    ghost own_name = { (child_lossless B.known B.named_reading B.format
        (child_of B.write_laws B.own_name B.read_back B.stable)
        B.own_code).own_name };

    ghost read_back = { (child_lossless B.known B.named_reading B.format
        (child_of B.write_laws B.own_name B.read_back B.stable)
        B.own_code).read_back };
}

impl<B: StableBox> StableBox for Lossless<B> {
    ghost stable = { stable_lossless B.known B.named_reading B.format
        (child_of B.write_laws B.own_name B.read_back B.stable)
        B.own_code };

    ghost own_code = { code_lossless B.known B.named_reading B.format
        (child_of B.write_laws B.own_name B.read_back B.stable)
        B.own_code };
}

/// Boxes of all codes are read, so names with the same code are known alike.
impl<B: StableBox> CodedBox for Lossless<B> {
    ghost by_code = { by_code_exact };
}

impl<B: StableBox> ChildBox for Lossless<B> {
    ghost child_format = { format_lossless B.known B.named_reading B.format };

    ghost child_known = { known_lossless };

    ghost child_reading = { reading_lossless B.known B.named_reading B.format };

    fn read_children(alloc: Global, content: &[u8], at: u64) -> Result<Vec<Self>> {
        read_children_as(alloc, content, at)
    }

    fn are_kept_in(content: &[u8], at: usize) -> bool {
        have_short_headers::<Self>(content, at)
    }

    fn size_of_children(boxes: &[Self]) -> u64 {
        total_size(boxes)
    }

    fn can_write_children(boxes: &[Self]) -> bool {
        all_writable(boxes)
    }

    fn put_children(boxes: &[Self], out: &mut [u8]) {
        put_boxes(boxes, out)
    }

    ghost child_laws = { child_lossless B.known B.named_reading B.format
        (child_of B.write_laws B.own_name B.read_back B.stable)
        B.own_code };
}
