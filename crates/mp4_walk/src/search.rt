//! The progress of a search for the box at a path.

ghost use Rattle.std.specs.Prelude.{◌≡◌, ◌∷◌, List};
ghost use Rattle.mp4_walk.specs.Search.{sought, sought_after};
ghost use Rattle.mp4_walk.specs.declared.tree_box.TreeBox.{TreeBox};

use crate::path::PathPart;
use crate::tree_box::TreeBox;

/// The progress of a search that has not ended.
#[derive(Clone, Copy, Debug, PartialEq, Eq)]
pub struct Search {
    /// The number of parts of the path that are found, which is the depth of the next part.
    pub depth: u64,
    /// The number of boxes with the next part's code so far, within the box of the last part that is found.
    pub before: u64,
}

/// The effect of a box on the search.
#[derive(Clone, Copy, Debug, PartialEq, Eq)]
pub enum SearchStep {
    /// The box is the one at the path.
    Found,
    /// No box is at the path.
    Nowhere,
    /// The search continues after the box.
    On(Search),
}

/// Returns the effect of the next box, `found`, on `search`.
pub fn meet(path: &[PathPart], search: Search, found: TreeBox) -> SearchStep
    ensures { (xs : List TreeBox) → sought_after path.now result found xs ≡ sought path.now search (found ∷ xs) }
{
    let Search { depth, before } = search;
    let Some(part) = path.get(depth as usize) else {
        return SearchStep::Nowhere;
    };
    let part = *part;
    if found.depth < depth {
        return SearchStep::Nowhere;
    }
    if found.depth > depth || !found.has_code(part.code) {
        return SearchStep::On(search);
    }
    if before < part.index {
        return SearchStep::On(Search {
            depth,
            before: before + 1,
        });
    }
    if depth + 1 == path.len() as u64 {
        return SearchStep::Found;
    }
    SearchStep::On(Search {
        depth: depth + 1,
        before: 0,
    })
}
