//! Boxes that are read back from the JSON that they are shown as.

ghost use Rattle.mp4_read_back.specs.ComesBack.{all_rows};
ghost use Rattle.mp4_read_back.specs.Text.{IsReadBack};

use mp4_shown::HasFields;
use mp4_shown::taken::TakeFields;

/// A box that is read back from the JSON that it is shown as, with all rows of its lists.
pub trait ReadBack: HasFields + TakeFields {
    /// The boxes of which this is true: each number fits its field.
    ghost Fits: { Self → Type 0 };

    /// The normal form of a box.
    ghost normal: { Self → Self };

    /// The text of the box's fields as an object is taken as the normal form.
    ghost back: { (b : Self) → Fits b
        → IsReadBack (Self.HasFields.shown all_rows b) Self.TakeFields.taken (normal b) };
}
