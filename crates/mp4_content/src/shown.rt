//! The types of boxes that are read whole and shown.

ghost use Rattle.std.specs.Prelude.{◌≡◌, ℕ, ◌-◌, ◌≤◌, Bool, List, IsTrue};
ghost use Rattle.mp4_frame.specs.Reading.{Answers, Reading};
ghost use Rattle.mp4_frame.specs.declared.box_type.BoxType.{BoxType};
ghost use Rattle.mp4_stream.specs.AnyBox.{known_any, reading_any};
ghost use Rattle.mp4_compose.specs.Either.{known_or, reading_or};

use mp4_extra::ExtraBox;
use mp4_show::BoxFields;
use mp4_shown::HasFields;
use mp4_stream::{AnyBox, BoxType, ByteCursor, Either, Result, StreamBox};
use std::alloc::Global;

/// A type of boxes that are read by their names, and whose fields are shown.
pub trait Shown: BoxFields + Drop {
    /// The names that are read, as a function.
    ghost known: { BoxType → Bool };

    /// The reading under a name, for the bytes of the buffer, the start of the box, and its size.
    ghost named_reading: { BoxType → List ℕ → ℕ → ℕ → Reading Self };

    /// Returns whether boxes with the name `name` are read.
    fn knows(name: BoxType) -> bool
        ensures { result ≡ known name };

    /// Reads the box with the name `name` whose header was just read.
    fn read_shown(alloc: Global, name: BoxType, reader: &mut ByteCursor, size: u64) -> Result<Self>
        requires known { IsTrue (known name) }
        requires after_header { 8 ≤ reader.old.position }
        ensures answer { Answers result (named_reading name reader.old.bytes.now (reader.old.position - 8) size) };
}

/// A box of the codec, or one of the extra boxes.
pub type ShownBox = Either<ExtraBox, AnyBox>;

impl<A: StreamBox + HasFields> Shown for Either<A, AnyBox> {
    ghost known = { known_or A.known known_any };

    ghost named_reading = { reading_or A.known A.named_reading reading_any };

    fn knows(name: BoxType) -> bool {
        A::knows(name) || AnyBox::knows(name)
    }

    fn read_shown(
        alloc: Global,
        name: BoxType,
        reader: &mut ByteCursor,
        size: u64,
    ) -> Result<Either<A, AnyBox>> {
        if A::knows(name) {
            Ok(Either::First(A::read_named(alloc, name, reader, size)?))
        } else {
            Ok(Either::Second(AnyBox::read_named(alloc, name, reader, size)?))
        }
    }
}
