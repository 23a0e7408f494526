//! The four zero bytes with which QuickTime may end a list of boxes.

ghost use Rattle.std.specs.Prelude.{◌≡◌};
ghost use Rattle.mp4_content.specs.Terminator.{is_entry, may_end};

use mp4_frame::codes::{STSD, UDTA};
use mp4_walk::{NO_CONTENT, WalkContext, front_of};

/// Returns whether `context` is inside a sample entry. The code of the box around it is that of an entry of its media,
/// and of no other box that the walk enters.
fn is_entry(context: WalkContext) -> bool
    ensures { result ≡ is_entry context }
{
    let code = context.parent;
    let in_stsd = WalkContext {
        parent: STSD,
        ..context
    };
    let elsewhere = WalkContext {
        parent: 0,
        ..context
    };
    front_of(in_stsd, code, NO_CONTENT).is_some() && front_of(elsewhere, code, NO_CONTENT).is_none()
}

/// Returns whether four zero bytes may end the box around `context`, a `udta` or a sample entry.
pub fn may_end(context: WalkContext) -> bool
    ensures { result ≡ may_end context }
{
    context.parent == UDTA || is_entry(context)
}
