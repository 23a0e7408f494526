//! The nested levels of a walk, as rows for C.

ghost use Rattle.std.specs.Prelude.{◌≡◌, ◌+◌, ◌-◌, ◌<◌, ◌≤◌, ◌⊎◌, ◌∷◌, slice_get, Some, length};
ghost use Rattle.mp4_walk.specs.FileBoxes.{GoesDeeper};
ghost use Rattle.mp4_walk.specs.Walk.{Closes, with_inner};
ghost use Rattle.mp4_c.specs.Levels.{level_of, level_at, levels_at};

use mp4_walk::{Level, Step, WalkContext};

/// A level of a walk: the top level of a file, or the content of a box.
#[repr(C)]
#[derive(Clone, Copy)]
pub struct WalkLevel {
    /// The position in the file at which the level ends.
    pub end: u64,
    /// The code of the box whose content the level is; 0 at the top level.
    pub parent: u32,
    /// The handler type of the enclosing media; 0 if no `hdlr` has been read.
    pub handler: u32,
    /// The version of that box if it is an `stsd`, else 0.
    pub stsd_version: u8,
}

/// Returns the level that `row` has, at `depth`.
fn level_of(depth: u64, row: &WalkLevel) -> Level
    ensures { result ≡ level_of depth row.now }
{
    Level {
        depth,
        end: row.end,
        context: WalkContext {
            parent: row.parent,
            handler: row.handler,
            stsd_version: row.stsd_version,
        },
    }
}

/// Returns `level` for C, without its depth.
pub(crate) fn row_of(level: &Level) -> WalkLevel
    ensures { level_of level.now.depth result ≡ level.now }
{
    WalkLevel {
        end: level.end,
        parent: level.context.parent,
        handler: level.context.handler,
        stsd_version: level.context.stsd_version,
    }
}

/// Returns the level at `depth`.
pub(crate) fn level_at(levels: &[WalkLevel], depth: u64) -> Level
    requires { depth < length levels.now }
    ensures { result ≡ level_at levels.now depth }
{
    level_of(depth, &levels[depth as usize])
}

/// Closes the first `count` levels of `levels` that end at or before the position `at`, starting at the innermost.
/// Returns the number of levels that remain.
pub(crate) fn close_levels(levels: &[WalkLevel], count: u64, at: u64) -> u64
    requires { count ≤ length levels.now }
    ensures fewer { result ≤ count }
    ensures closes { Closes at (levels_at levels.now count) (levels_at levels.now result) }
    ensures goes_on { (result ≡ 0) ⊎ (at < (level_at levels.now (result - 1)).end) }
{
    let mut left = count;
    'close: while left > 0 && levels[left as usize - 1].end <= at {
        left -= 1;
    }
    left
}

/// Updates the level at `depth` to what `step` leaves of it, and adds the level that `step` enters, if there is one.
/// Returns the number of levels.
pub(crate) fn go_on(levels: &mut [WalkLevel], depth: u64, step: &Step) -> u64
    requires size { length levels.old ≡ 33 }
    requires inside { depth < 33 }
    requires level { step.now.level.depth ≡ depth }
    requires inner { GoesDeeper step.now.level step.now.inner }
    ensures few { result ≤ 33 }
    ensures size { length levels.new ≡ 33 }
    ensures levels { levels_at levels.new result
        ≡ with_inner step.now.inner (step.now.level ∷ levels_at levels.old depth) }
{
    levels[depth as usize] = row_of(&step.level);
    match &step.inner {
        None => depth + 1,
        Some(inner) => {
            levels[depth as usize + 1] = row_of(inner);
            depth + 2
        }
    }
}
