//! Theorems about trees. The bodies do nothing, since the contracts are only about the definitions.

ghost use Rattle.std.specs.Prelude.{◌≡◌, length};
ghost use Rattle.mp4_walk.specs.Fronts.{front_of};
ghost use Rattle.mp4_walk.specs.Peek.{peek};
ghost use Rattle.mp4_box_tree.specs.Agreement.{IsAsItsCodeSays};
ghost use Rattle.mp4_box_tree.specs.Fronts.{front_in};

use mp4_walk::WalkContext;

/// Proves that a tree finds the same fields before the boxes of a box as a walk, if nothing around the box contradicts
/// its code.
#[tactic(auto, using(crate::specs::Agreement::fronts_agree))]
pub fn tree_agrees_with_walk(around: WalkContext, code: u32, content: &[u8])
    ensures { IsAsItsCodeSays around code
        → front_of around code (peek content.now 0 (length content.now)) ≡ front_in code content.now }
{}
