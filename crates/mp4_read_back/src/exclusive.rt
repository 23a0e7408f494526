//! Parts of which only one is present, under the same names. The types are for laws only: they stand for the parts of a
//! shape that are written one after the other.

ghost use Rattle.std.specs.Prelude.{Option};
ghost use Rattle.mp4_read_back.specs.UnitLaws.{by_flag_comes, version_then_comes};
ghost use Rattle.mp4_read_back.specs.Units.{by_flag_part, version_then};

use crate::ComesBack;

/// An `A` in version 0 or a `B` in later versions, and then a `C`.
pub struct VersionThen<A, B, C>(A, B, C);

impl<A: ComesBack, B: ComesBack, C: ComesBack> ComesBack for VersionThen<A, B, C> {
    ghost Names = { A.Names × (B.Names × C.Names) };

    ghost Value = { Option A.Value × (Option B.Value × C.Value) };

    ghost part = { version_then A.part B.part C.part };

    ghost comes = { version_then_comes A.part B.part C.part A.comes B.comes C.comes };
}

/// An `A` without flag 1, or a `B` with it, at the end.
pub struct ByFlag<A, B>(A, B);

impl<A: ComesBack, B: ComesBack> ComesBack for ByFlag<A, B> {
    ghost Names = { A.Names × (B.Names × Unit {0}) };

    ghost Value = { Option A.Value × (Option B.Value × Unit {0}) };

    ghost part = { by_flag_part A.part B.part };

    ghost comes = { by_flag_comes A.part B.part A.comes B.comes };
}
