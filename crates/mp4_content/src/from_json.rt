//! The types of boxes that are read back from their JSON.

ghost use Rattle.std.specs.Prelude.{ℕ, Option};
ghost use Rattle.json.specs.Json.{Json, document};
ghost use Rattle.mp4_content.specs.FromJson.{either_taken};
ghost use Rattle.mp4_frame.specs.BoxType.{name_of};
ghost use Rattle.mp4_show.specs.TakenCodec.{codec_document};
ghost use Rattle.mp4_shown.specs.Taking.{Taking, TakesAs};

use mp4_compose::CodedBox;
use mp4_extra::{ExtraBox, TakenByCode};
use mp4_frame::StreamBox;
use mp4_show::{TakenByType, read_codec};
use mp4_shown::taken::Result;
use mp4_stream::{AnyBox, BoxType, Either};
use std::alloc::Global;

/// A type of boxes that are read back from their JSON, by their codes.
pub trait FromJson: Sized + Drop {
    /// Gives the box with a code that a value is, or the first fault, or none if no type has the code.
    ghost taken: { ℕ → Option Json → Taking (Option Self) };

    /// Returns the box with the code `code` whose JSON is `text`: an object with its fields, in any order. Returns
    /// `None` if no type has this code.
    fn read_json(alloc: Global, code: u32, text: &str) -> Result<Option<Self>>
        ensures { TakesAs (λ b. b) result (taken code (document text.now)) };
}

impl FromJson for ExtraBox {
    ghost taken = { ⟦<ExtraBox as TakenByCode>⟧.taken };

    fn read_json(alloc: Global, code: u32, text: &str) -> Result<Option<ExtraBox>> {
        ExtraBox::from_json(alloc, code, text)
    }
}

impl FromJson for AnyBox {
    ghost taken = { λ code. codec_document ⟦<AnyBox as TakenByType>⟧.taken (name_of code) };

    fn read_json(alloc: Global, code: u32, text: &str) -> Result<Option<AnyBox>> {
        read_codec(alloc, BoxType::from(code), text)
    }
}

/// The first type that has the code counts.
impl<A: FromJson + CodedBox, B: FromJson + StreamBox> FromJson for Either<A, B> {
    ghost taken = { λ code j. either_taken (A.FromJson.taken code j) (B.FromJson.taken code j) };

    fn read_json(alloc: Global, code: u32, text: &str) -> Result<Option<Either<A, B>>> {
        if let Some(b) = A::read_json(alloc, code, text)? {
            return Ok(Some(Either::First(b)));
        }
        match B::read_json(alloc, code, text)? {
            Some(b) => Ok(Some(Either::Second(b))),
            None => Ok(None),
        }
    }
}
