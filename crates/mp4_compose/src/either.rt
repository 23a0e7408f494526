//! Boxes of your own type beside boxes of another type for lists, such as `AnyBox`.

ghost use Rattle.std.specs.Prelude.{◌≡◌};
ghost use Rattle.mp4_compose.specs.Either.{ByCode, format_or, known_or, least_or, reading_or};
ghost use Rattle.mp4_compose.specs.EitherLaws.{by_code_or, written_or, own_name_or, read_back_or, stable_or, code_or};

use crate::stable_box::StableBox;
use mp4_frame::{BoxType, ByteCursor, Mp4Box, Result, StreamBox, TryClone, WriteBox};
use std::alloc::Global;

/// A type of boxes in lists that knows names only by their codes. It can therefore be the first type of an `Either`.
pub trait CodedBox: StableBox {
    /// The proof that names with the same code are known alike.
    ghost by_code: { ByCode Self.known };
}

/// A box of type `A`, or a box of type `B`. In a list, the boxes that `A` knows are read as `A`, and all others as `B`.
#[derive(Debug, Drop, PartialEq, Eq)]
pub enum Either<A, B> {
    /// A box of type `A`.
    First(A),
    /// A box of type `B`. It can't be written if `A` knows its name.
    Second(B),
}

impl<A: TryClone, B: TryClone> TryClone for Either<A, B> {
    fn try_clone(&self) -> Result<Either<A, B>> {
        match self {
            Either::First(b) => Ok(Either::First(b.try_clone()?)),
            Either::Second(b) => Ok(Either::Second(b.try_clone()?)),
        }
    }
}

impl<A: CodedBox, B: StreamBox> Mp4Box for Either<A, B> {
    ghost format = { format_or A.known A.format B.format };

    fn box_type(&self) -> BoxType {
        match self {
            Either::First(b) => b.box_type(),
            Either::Second(b) => b.box_type(),
        }
    }

    fn box_size(&self) -> u64 {
        match self {
            Either::First(b) => b.box_size(),
            Either::Second(b) => b.box_size(),
        }
    }
}

impl<A: CodedBox, B: StreamBox> WriteBox for Either<A, B> {
    fn is_writable(&self) -> bool {
        match self {
            Either::First(b) => b.is_writable(),
            Either::Second(b) => b.is_writable() && !A::knows(b.box_type()),
        }
    }

    fn put_box(&self, out: &mut [u8]) {
        match self {
            Either::First(b) => b.put_box(out),
            Either::Second(b) => b.put_box(out),
        }
    }

    ghost write_laws = { written_or A.known A.by_code A.format B.format A.write_laws B.write_laws };
}

impl<A: CodedBox, B: StreamBox> StreamBox for Either<A, B> {
    ghost known = { known_or A.known B.known };

    ghost named_reading = { reading_or A.known A.named_reading B.named_reading };

    ghost least = { least_or A.known A.least B.least };

    fn knows(name: BoxType) -> bool {
        A::knows(name) || B::knows(name)
    }

    fn read_named(
        alloc: Global,
        name: BoxType,
        reader: &mut ByteCursor,
        size: u64,
    ) -> Result<Either<A, B>> {
        if A::knows(name) {
            Ok(Either::First(A::read_named(alloc, name, reader, size)?))
        } else {
            Ok(Either::Second(B::read_named(alloc, name, reader, size)?))
        }
    }

    ghost own_name = { own_name_or A.known A.by_code A.format B.format A.named_reading B.known B.named_reading
        A.own_name B.own_name };

    ghost read_back = { read_back_or A.known A.by_code A.format B.format A.named_reading B.known B.named_reading
        A.own_name A.read_back B.read_back };
}

impl<A: CodedBox, B: StableBox> StableBox for Either<A, B> {
    ghost stable = { stable_or A.known A.by_code A.format B.format A.named_reading B.known B.named_reading
        A.stable B.own_code B.stable };

    ghost own_code = { code_or A.known A.by_code A.format B.format A.named_reading B.known B.named_reading
        A.own_code B.own_code };

    fn is_kept_in(&self, name: BoxType, bytes: &[u8]) -> bool {
        match self {
            Either::First(b) => b.is_kept_in(name, bytes),
            Either::Second(b) => b.is_kept_in(name, bytes),
        }
    }
}

/// If both types know names only by their codes, so does the `Either`.
impl<A: CodedBox, B: CodedBox> CodedBox for Either<A, B> {
    ghost by_code = { by_code_or A.by_code B.by_code };
}
