//! Runs of bytes, and strings.

ghost use Rattle.std.specs.Prelude.{ℕ, List};
ghost use Rattle.mp4_read_back.specs.RunLaws.{array_comes, array_part, counted_comes, counted_part, pascal_comes};
ghost use Rattle.mp4_read_back.specs.RunLaws.{pascal_part, run_comes, terminated_comes, terminated_part};
ghost use Rattle.mp4_read_back.specs.RunParts.{run_part};
ghost use Rattle.mp4_shown.specs.Runs.{BytesName};

use crate::ComesBack;
use mp4_declared::{Array, Bytes, Count, Pascal, Rest, Terminated};

impl ComesBack for Rest {
    ghost Names = { BytesName };

    ghost Value = { List ℕ };

    ghost part = { run_part };

    ghost comes = { run_comes };
}

impl<C: Count> ComesBack for Bytes<C> {
    ghost Names = { BytesName };

    ghost Value = { List ℕ };

    ghost part = { counted_part C.WIDTH };

    ghost comes = { counted_comes C.WIDTH };
}

impl ComesBack for Terminated {
    ghost Names = { BytesName };

    ghost Value = { List ℕ };

    ghost part = { terminated_part };

    ghost comes = { terminated_comes };
}

impl<const N: usize> ComesBack for Pascal<N> {
    ghost Names = { BytesName };

    ghost Value = { List ℕ };

    ghost part = { pascal_part N };

    ghost comes = { pascal_comes N };
}

impl<const N: usize> ComesBack for Array<N> {
    ghost Names = { BytesName };

    ghost Value = { List ℕ };

    ghost part = { array_part N };

    ghost comes = { array_comes N };
}
