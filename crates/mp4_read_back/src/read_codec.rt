//! Boxes of the codec that are read back from the JSON that they are shown as.

ghost use Rattle.std.specs.Prelude.{◌≡◌, Ok, Some};
ghost use Rattle.json.specs.Json.{document};
ghost use Rattle.mp4_read_back.specs.ComesBack.{all_rows};
ghost use Rattle.mp4_read_back.specs.Text.{object_text};
ghost use Rattle.mp4_show.specs.TakenCodec.{codec_document};
ghost use Rattle.mp4_stream.specs.declared.any_box.AnyBox.{AnyBox as CodecBox};

use mp4_frame::Mp4Box;
use mp4_show::{BoxFields, TakenByType};
use mp4_stream::AnyBox;

/// A box of the codec that is read back from the JSON that it is shown as, with all rows of its lists.
pub trait ReadCodec: BoxFields + Mp4Box {
    /// The box as one of the codec's.
    ghost wrapped: { Self → CodecBox };

    /// Says what else has to be true of a box that can be written.
    ghost Fits: { Self → Type 0 } = { λ b. Unit {0} };

    /// The text of the fields of a box that can be written is read as the normal form of the box.
    ghost back: { (b : Self) → Self.Mp4Box.format.Writable b → Fits b
        → codec_document ⟦<AnyBox as TakenByType>⟧.taken (Self.Mp4Box.format.name b)
        (document (object_text (Self.BoxFields.shown all_rows b)))
        ≡ Ok (Some (wrapped (Self.Mp4Box.format.normal b))) };
}
