//! Signed numbers and times.

ghost use Rattle.std.specs.Prelude.{ℤ};
ghost use Rattle.mp4_read_back.specs.SignedLaws.{i8_comes, i8_part, i16_comes, i16_part, i32_comes, i32_part};
ghost use Rattle.mp4_read_back.specs.SignedLaws.{signed_time_comes, signed_time_part};
ghost use Rattle.mp4_shown.specs.Numbers.{NumberName};

use crate::ComesBack;
use mp4_declared::{I8, I16, I32, SignedTime};

impl ComesBack for I8 {
    ghost Names = { NumberName };

    ghost Value = { ℤ };

    ghost part = { i8_part };

    ghost comes = { i8_comes };
}

impl ComesBack for I16 {
    ghost Names = { NumberName };

    ghost Value = { ℤ };

    ghost part = { i16_part };

    ghost comes = { i16_comes };
}

impl ComesBack for I32 {
    ghost Names = { NumberName };

    ghost Value = { ℤ };

    ghost part = { i32_part };

    ghost comes = { i32_comes };
}

impl ComesBack for SignedTime {
    ghost Names = { NumberName };

    ghost Value = { ℤ };

    ghost part = { signed_time_part };

    ghost comes = { signed_time_comes };
}
