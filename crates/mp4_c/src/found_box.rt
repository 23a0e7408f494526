//! A box as the C walk reports it.

ghost use Rattle.std.specs.Prelude.{◌≡◌};
ghost use Rattle.mp4_c.specs.Found.{state_code, found_box_of};

use mp4_walk::{BoxState, TreeBox};

/// A box of a file, or the reason why there is no box where one should begin. Positions and lengths are in bytes.
#[repr(C)]
#[derive(Clone, Copy)]
pub struct FoundBox {
    /// The position in the file at which the header begins.
    pub position: u64,
    /// The length of the box, including its header, as the header states it. If there is no box, the number of bytes
    /// that remain of the content.
    pub length: u64,
    /// The length of the header: 8 or 16. If there is no box, the same as `length`.
    pub header_length: u64,
    /// The position of the first box inside, if the walk enters the box; else 0.
    pub children: u64,
    /// The number of boxes around this one: 0 at the top level of the file.
    pub depth: u64,
    /// The four characters of the code, the first in the highest byte; 0 if the file ends before them.
    pub code: u32,
    /// The code of the enclosing box; 0 at the top level.
    pub parent: u32,
    /// The handler type of the enclosing media; 0 if no `hdlr` has been read.
    pub handler: u32,
    /// The state of the box: 0 if the walk knows no boxes inside, 1 if it enters the box, 2 if the boxes inside are too
    /// deep, 3 if the box is cut, 4 if its size is too small, 5 if fewer bytes remain than a header has.
    pub what: u8,
    /// The version of the enclosing box if it is an `stsd`, else 0.
    pub stsd_version: u8,
}

/// Returns the number of `what`.
fn state_code(what: BoxState) -> u8
    ensures { result ≡ state_code what }
{
    match what {
        BoxState::Leaf => 0,
        BoxState::Parent => 1,
        BoxState::TooDeep => 2,
        BoxState::Cut => 3,
        BoxState::Small => 4,
        BoxState::NoHeader => 5,
    }
}

impl FoundBox {
    /// Returns `found` for C.
    pub(crate) fn of(found: &TreeBox) -> FoundBox
        ensures { result ≡ found_box_of found.now }
    {
        FoundBox {
            position: found.position,
            length: found.length,
            header_length: found.header_length,
            children: found.children.unwrap_or(0),
            depth: found.depth,
            code: match found.code {
                Some(code) => u32::from(code),
                None => 0,
            },
            parent: found.context.parent,
            handler: found.context.handler,
            what: state_code(found.state),
            stsd_version: found.context.stsd_version,
        }
    }
}
