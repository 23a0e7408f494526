//! Shapes that may be absent.

ghost use Rattle.std.specs.Prelude.{Option};
ghost use Rattle.mp4_read_back.specs.Structure.{optional_part};
ghost use Rattle.mp4_read_back.specs.StructureLaws.{optional_comes};

use crate::ComesBack;
use mp4_declared::{Condition, If, OrZeros};

impl<P: Condition, S: ComesBack> ComesBack for If<P, S> {
    ghost Names = { S.Names };

    ghost Value = { Option S.Value };

    ghost part = { optional_part P.holds S.part };

    ghost comes = { optional_comes P.holds S.part S.comes };
}

impl<P: Condition, S: ComesBack, const N: usize> ComesBack for OrZeros<P, S, N> {
    ghost Names = { S.Names };

    ghost Value = { Option S.Value };

    ghost part = { optional_part P.holds S.part };

    ghost comes = { optional_comes P.holds S.part S.comes };
}
