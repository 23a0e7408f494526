//! Bytes of a file that are read in blocks.

ghost use Rattle.std.specs.Prelude.{◌≡◌, ◌+◌, ◌≤◌, ℕ, List, Some, IfOk, OnOk, IfSome, length};
ghost use Rattle.mp4_frame.specs.Bytes.{number};
ghost use Rattle.mp4_check.specs.Blocks.{IsBlock};

use mp4_frame::{u8_at, u16_at, u24_at, u32_at};
use mp4_io::{Failure, or_read};
use mp4_walk::{BoxState, BoxWalk, Source, TreeBox, WalkContext};
use std::alloc::Global;

/// The largest number of bytes that are read at once.
pub const BLOCK: u64 = 4096;

/// Bytes of a file, one after the other.
#[derive(Drop)]
pub struct Block {
    /// The position of the first one.
    pub start: u64,
    /// The bytes.
    pub bytes: Vec<u8>,
}

/// Returns a box that stands for the `length` bytes at `position`, so that a walk reads them.
fn box_at(position: u64, length: u64) -> TreeBox
    ensures position { result.position ≡ position }
    ensures length { result.length ≡ length }
{
    TreeBox {
        depth: 0,
        code: None,
        position,
        header_length: 0,
        length,
        front: None,
        children: None,
        state: BoxState::Leaf,
        context: WalkContext {
            parent: 0,
            handler: 0,
            stsd_version: 0,
        },
    }
}

/// Returns a block without bytes.
pub fn no_block(alloc: Global) -> Block
    ensures { (file : List ℕ) → IsBlock file result }
{
    Block {
        start: 0,
        bytes: Vec::new(alloc),
    }
}

/// Returns the `length` bytes at `start`, or those up to the end of the file if there are fewer.
pub fn read_block<S: Source>(
    alloc: Global,
    walk: &mut BoxWalk<S>,
    start: u64,
    length: u64,
) -> Result<Block, Failure>
    ensures value { IfSome walk.old.bytes (λ file. IfOk result (IsBlock file)) }
    ensures kept { walk.new ≡ walk.old }
{
    if start > walk.length() {
        return Err(Failure::Read);
    }
    let bytes = or_read(walk.read_box(alloc, &box_at(start, length)))?;
    Ok(Block { start, bytes })
}

/// Returns the number in the `width` bytes at offset `at`.
fn number_of(bytes: &[u8], at: usize, width: u64) -> u32
    requires low { 1 ≤ width }
    requires high { width ≤ 4 }
    requires room { at + width ≤ length bytes.now }
    ensures { result ≡ number bytes.now at width }
{
    match width {
        1 => u32::from(u8_at(bytes, at)),
        2 => u32::from(u16_at(bytes, at)),
        3 => u24_at(bytes, at),
        _ => u32_at(bytes, at),
    }
}

/// Returns the number of `width` bytes at `at`, or `None` if `block` does not have these bytes.
pub fn number_in(block: &Block, at: u64, width: u64) -> Option<u32>
    requires low { 1 ≤ width }
    requires high { width ≤ 4 }
    ensures { (file : List ℕ) → IsBlock file block.now → IfSome result (λ n. n ≡ number file at width) }
{
    if at < block.start {
        return None;
    }
    let skip = at - block.start;
    let length = block.bytes.len() as u64;
    if skip > length || length - skip < width {
        return None;
    }
    Some(number_of(&block.bytes, skip as usize, width))
}

/// Returns the number of `width` bytes at `at`. If `block` does not have these bytes, it becomes the block that begins
/// there and ends at `end` at the latest.
pub fn number_at<S: Source>(
    alloc: Global,
    walk: &mut BoxWalk<S>,
    block: &mut Block,
    at: u64,
    width: u64,
    end: u64,
) -> Result<u32, Failure>
    requires low { 1 ≤ width }
    requires high { width ≤ 4 }
    requires inside { at + width ≤ end }
    ensures value { (file : List ℕ) → walk.old.bytes ≡ Some file → IsBlock file block.old
        → IfOk result (λ n. n ≡ number file at width) }
    ensures block { (file : List ℕ) → walk.old.bytes ≡ Some file → IsBlock file block.old
        → OnOk result (IsBlock file block.new) }
    ensures kept { walk.new ≡ walk.old }
{
    if let Some(number) = number_in(block, at, width) {
        return Ok(number);
    }
    *block = read_block(alloc, walk, at, BLOCK.min(end - at))?;
    match number_in(block, at, width) {
        Some(number) => Ok(number),
        None => Err(Failure::Read),
    }
}
