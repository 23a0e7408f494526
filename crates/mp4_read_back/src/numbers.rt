//! Unsigned numbers, times, and reserved bytes.

ghost use Rattle.std.specs.Prelude.{ℕ};
ghost use Rattle.mp4_read_back.specs.NumberParts.{number_part};
ghost use Rattle.mp4_read_back.specs.UnitLaws.{item_comes};
ghost use Rattle.mp4_read_back.specs.Units.{item_part};
ghost use Rattle.mp4_read_back.specs.Widths.{time_comes, time_part, u16_comes, u24_comes, u32_comes, u64_comes};
ghost use Rattle.mp4_read_back.specs.Widths.{u8_comes, zeros_come, zeros_part};
ghost use Rattle.mp4_shown.specs.Numbers.{NumberName};

use crate::ComesBack;
use mp4_declared::{Time, U8, U16, U24, U32, U64, Zeros};
use mp4_extra_tracks::item_id::ItemId;

impl ComesBack for U8 {
    ghost Names = { NumberName };

    ghost Value = { ℕ };

    ghost part = { number_part (λ _. 1) (λ _. 8) 8 };

    ghost comes = { u8_comes };
}

impl ComesBack for U16 {
    ghost Names = { NumberName };

    ghost Value = { ℕ };

    ghost part = { number_part (λ _. 2) (λ _. 16) 16 };

    ghost comes = { u16_comes };
}

impl ComesBack for U24 {
    ghost Names = { NumberName };

    ghost Value = { ℕ };

    ghost part = { number_part (λ _. 3) (λ _. 24) 24 };

    ghost comes = { u24_comes };
}

impl ComesBack for U32 {
    ghost Names = { NumberName };

    ghost Value = { ℕ };

    ghost part = { number_part (λ _. 4) (λ _. 32) 32 };

    ghost comes = { u32_comes };
}

impl ComesBack for U64 {
    ghost Names = { NumberName };

    ghost Value = { ℕ };

    ghost part = { number_part (λ _. 8) (λ _. 64) 64 };

    ghost comes = { u64_comes };
}

impl ComesBack for Time {
    ghost Names = { NumberName };

    ghost Value = { ℕ };

    ghost part = { time_part };

    ghost comes = { time_comes };
}

/// Reserved bytes aren't shown, and have no member.
impl<const N: usize> ComesBack for Zeros<N> {
    ghost Names = { Unit {0} };

    ghost Value = { Unit {0} };

    ghost part = { zeros_part };

    ghost comes = { zeros_come };
}

impl<const V: u8> ComesBack for ItemId<V> {
    ghost Names = { NumberName };

    ghost Value = { ℕ };

    ghost part = { item_part V };

    ghost comes = { item_comes V };
}
