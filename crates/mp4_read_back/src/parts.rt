//! Shapes that follow one another, and shapes with a front that isn't shown.

ghost use Rattle.mp4_read_back.specs.ComesBackLaws.{last_comes, last_part, pair_comes, pair_part};
ghost use Rattle.mp4_read_back.specs.Structure.{full_part};
ghost use Rattle.mp4_read_back.specs.StructureLaws.{full_comes};
ghost use Rattle.mp4_shown.specs.Numbers.{NumberName};
ghost use Rattle.std.specs.Prelude.{ℕ};

use crate::ComesBack;
use mp4_declared::{Full, Last, Reserved, WithSize};

impl<A: ComesBack, B: ComesBack> ComesBack for (A, B) {
    ghost Names = { A.Names × B.Names };

    ghost Value = { A.Value × B.Value };

    ghost part = { pair_part A.part B.part };

    ghost comes = { pair_comes A.part B.part A.comes B.comes };
}

impl<S: ComesBack> ComesBack for Last<S> {
    ghost Names = { S.Names × Unit {0} };

    ghost Value = { S.Value × Unit {0} };

    ghost part = { last_part S.part };

    ghost comes = { last_comes S.part S.comes };
}

/// The reserved bytes aren't shown.
impl<const N: usize, S: ComesBack> ComesBack for Reserved<N, S> {
    ghost Names = { S.Names };

    ghost Value = { S.Value };

    ghost part = { S.part };

    ghost comes = { S.comes };
}

/// The size isn't shown.
impl<S: ComesBack> ComesBack for WithSize<S> {
    ghost Names = { S.Names };

    ghost Value = { S.Value };

    ghost part = { S.part };

    ghost comes = { S.comes };
}

impl<const N: usize, S: ComesBack> ComesBack for Full<N, S> {
    ghost Names = { NumberName × (NumberName × S.Names) };

    ghost Value = { ℕ × (ℕ × S.Value) };

    ghost part = { full_part N S.part };

    ghost comes = { full_comes N S.part S.comes };
}
