//! Lists of codes, of numbers and of rows of bytes.

ghost use Rattle.std.specs.Prelude.{ℕ, ◌^◌, List};
ghost use Rattle.mp4_frame.specs.declared.four_cc.FourCC.{FourCC};
ghost use Rattle.mp4_read_back.specs.ItemLaws.{codes_come, numbers_come, rows_come};
ghost use Rattle.mp4_read_back.specs.Items.{codes_part, numbers_part, rows_part};
ghost use Rattle.mp4_shown.specs.Event.{Text};
ghost use Rattle.mp4_shown.specs.Lists.{ListName};

use crate::ComesBack;
use mp4_declared::{Codes, Count, Numbers, Rows};

impl ComesBack for Codes {
    ghost Names = { Text };

    ghost Value = { List FourCC };

    ghost part = { codes_part };

    ghost comes = { codes_come };
}

impl ComesBack for Numbers {
    ghost Names = { Text };

    ghost Value = { List ℕ };

    ghost part = { numbers_part };

    ghost comes = { numbers_come };
}

impl<C: Count, const E: usize> ComesBack for Rows<C, E> {
    ghost Names = { ListName };

    ghost Value = { List (List ℕ) };

    ghost part = { rows_part (256 ^ C.WIDTH) E };

    ghost comes = { rows_come C.WIDTH E C.is_short };
}
