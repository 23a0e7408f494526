//! Walks over the boxes of a file that isn't in memory. C keeps the state of the walk between two boxes.

ghost use Rattle.std.specs.Prelude.{◌≡◌, ◌≤◌, length};
ghost use Rattle.mp4_c_boxes.specs.declared.status.TheConstants as statuses;
ghost use Rattle.mp4_walk.specs.FileBoxes.{top};
ghost use Rattle.mp4_c.specs.Levels.{level_at};
ghost use Rattle.mp4_c.specs.Walks.{Begins, IsWalk, WalksOn, wanted_at};

use crate::found_box::FoundBox;
use crate::walk_level::{WalkLevel, close_levels, go_on, level_at};
use mp4_c_boxes::status::{BOX_NOT_FOUND, END_OF_INPUT, OK};
use mp4_walk::step_in;

/// The greatest number of levels of a walk.
pub const LEVELS: usize = 33;

/// The greatest number of bytes of a box that a walk reads.
pub const WINDOW: u64 = 28;

/// The state of a walk over the boxes of a file.
#[repr(C)]
#[derive(Clone, Copy)]
pub struct FileWalk {
    /// The position of the next box, where the bytes that the walk wants begin.
    pub position: u64,
    /// The number of bytes that the walk wants: at most 28, and 0 after the last box.
    pub wanted: u64,
    /// The number of bytes of the file.
    pub length: u64,
    /// The number of levels at `position`.
    pub count: u64,
    /// The levels, the outermost first. Elements at and after `count` have no meaning.
    pub levels: [WalkLevel; 33],
}

/// Returns the number of bytes that a walk wants at the position `at` of the first `count` levels.
fn wanted_at(levels: &[WalkLevel], count: u64, at: u64) -> u64
    requires { count ≤ length levels.now }
    ensures { result ≡ wanted_at levels.now count at }
{
    if count == 0 {
        return 0;
    }
    levels[count as usize - 1]
        .end
        .saturating_sub(at)
        .min(WINDOW)
}

/// Returns levels that are all the top level of a file of `length` bytes.
fn top_levels(length: u64) -> [WalkLevel; 33]
    ensures { level_at result 0 ≡ top length }
{
    let top = WalkLevel {
        end: length,
        parent: 0,
        handler: 0,
        stsd_version: 0,
    };
    [top; LEVELS]
}

/// Begins a walk over a file of `length` bytes.
fn begin(length: u64, walk: &mut FileWalk)
    ensures { Begins length walk.new }
{
    let levels = top_levels(length);
    if length == 0 {
        *walk = FileWalk {
            position: 0,
            wanted: 0,
            length,
            count: 0,
            levels,
        };
        return;
    }
    *walk = FileWalk {
        position: 0,
        wanted: wanted_at(&levels, 1, 0),
        length,
        count: 1,
        levels,
    };
}

/// Begins a walk over the boxes of a file of `length` bytes. `walk` then says which bytes it wants. Returns `OK`.
#[unsafe(no_mangle)]
pub extern "C" fn mp4_walk_begin(length: u64, walk: &mut FileWalk) -> u32
    ensures status { result ≡ statuses.OK }
    ensures walk { Begins length walk.new }
{
    begin(length, walk);
    OK
}

/// Fills `found` with the next box of `walk`, whose wanted bytes are at the front of `bytes`. Returns the status:
/// `BOX_NOT_FOUND` after the last box, or `END_OF_INPUT` if `bytes` has fewer bytes than the walk wants.
#[unsafe(no_mangle)]
pub extern "C" fn mp4_walk_next(bytes: &[u8], walk: &mut FileWalk, found: &mut FoundBox) -> u32
    requires { IsWalk walk.old }
    ensures walk { IsWalk walk.new }
    ensures walks { WalksOn bytes.now result walk.old walk.new found.old found.new }
{
    if walk.wanted == 0 {
        return BOX_NOT_FOUND;
    }
    if (bytes.len() as u64) < walk.wanted {
        return END_OF_INPUT;
    }
    let depth = walk.count - 1;
    let level = level_at(&walk.levels, depth);
    let step = step_in(&bytes[..walk.wanted as usize], level, walk.position);
    let count = go_on(&mut walk.levels, depth, &step);
    walk.count = close_levels(&walk.levels, count, step.at);
    walk.position = step.at;
    walk.wanted = wanted_at(&walk.levels, walk.count, walk.position);
    *found = FoundBox::of(&step.found);
    OK
}
