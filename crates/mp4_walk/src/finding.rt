//! Finding the box at a path.

ghost use Rattle.std.specs.Prelude.{◌≡◌, IfOk, IfSome};
ghost use Rattle.mp4_walk.specs.Paths.{at_path};
ghost use Rattle.mp4_walk.specs.FileBoxes.{boxes_of};

use crate::box_walk::BoxWalk;
use crate::path::BoxPath;
use crate::search::{Search, SearchStep, meet};
use crate::source::Source;
use crate::tree_box::TreeBox;
use std::alloc::Global;
use std::io;

/// Returns the box at `path`, or `None` if there is none. Walks over the boxes before it, and reads no contents.
pub fn find<S: Source>(alloc: Global, source: S, path: &BoxPath) -> io::Result<Option<TreeBox>>
    ensures { IfSome (S.all source) (λ B. IfOk result (λ found. found ≡ at_path 0 path.now.parts.items (boxes_of B))) }
{
    let mut tree = BoxWalk::new(alloc, source)?;
    let mut search = Search {
        depth: 0,
        before: 0,
    };
    while let Some(found) = tree.next()? {
        match meet(&path.parts, search, found) {
            SearchStep::Found => return Ok(Some(found)),
            SearchStep::Nowhere => return Ok(None),
            SearchStep::On(next) => search = next,
        }
    }
    Ok(None)
}
