//! Functions for a type that holds boxes of several types, such as an enum of them. Each function is for one type of
//! box, since the cost of entering a function grows with all of its locals.

ghost use Rattle.std.specs.Prelude.{◌≡◌, ◌+◌, ◌-◌, ◌≤◌, max, length, IfOk, IfErr, OnOk, OnErr};
ghost use Rattle.mp4_frame.specs.Reading.{Answers, AnswersAs, map_reading, reading};
ghost use Rattle.mp4_frame.specs.Streams.{append_read};
ghost use Rattle.mp4_frame.specs.declared.error.Error.TheVariants.{OutOfMemory};

use crate::byte_cursor::ByteCursor;
use crate::error::Result;
use crate::traits::ReadBox;
use crate::try_clone::TryClone;
use std::alloc::Global;

/// A type that holds boxes of type `T`.
pub trait Holds<T>: Sized {
    /// The box as a value of this type.
    ghost wrapped: { T → Self };

    /// Returns the box `value` as a value of this type.
    fn wrap(value: T) -> Self
        ensures { result ≡ wrapped value };
}

/// Reads the box of type `T` whose header was just read, like `ReadBox::read_box`, and returns it as an `E`.
pub fn read_as<T: ReadBox + Drop, E: Holds<T>>(
    alloc: Global,
    reader: &mut ByteCursor,
    size: u64,
) -> Result<E>
    requires after_header { 8 ≤ reader.old.position }
    ensures answer { Answers result
        (map_reading E.wrapped (reading T.reads reader.old.bytes.now (reader.old.position - 8) size)) }
    ensures moved { OnOk result (reader.new.position ≡ reader.old.position - 8 + max T.LEAST size) }
    ensures kept { OnErr result (reader.new.position ≡ reader.old.position) }
    ensures bytes { reader.new.bytes ≡ reader.old.bytes }
{
    Ok(E::wrap(T::read_box(alloc, reader, size)?))
}

/// Reads the box of type `T` at offset `start` of the buffer `bytes`, like `StreamBox::push_named`, and appends it to
/// `boxes` as an `E`.
pub fn push_as<T: ReadBox + Drop, E: Holds<T> + Drop>(
    alloc: Global,
    bytes: &[u8],
    start: u64,
    size: u64,
    boxes: &mut Vec<E>,
) -> Result<()>
    requires room { start + size ≤ length bytes.now }
    ensures answer { AnswersAs (λ _. boxes.new.items) result
        (append_read boxes.old.items (map_reading E.wrapped (reading T.reads bytes.now start size))) }
    ensures kept { OnErr result (boxes.new.items ≡ boxes.old.items) }
{
    let value = T::read_content(alloc, &bytes[start as usize..], start, size)?;
    boxes.reserve(1)?;
    boxes.push_reserved(E::wrap(value));
    Ok(())
}

/// Reads the box of type `T` at offset `start` of the buffer `bytes`, like `StreamBox::push_named`, and appends it to
/// `boxes` as an `M` inside an `E`.
pub fn push_inside<T: ReadBox + Drop, M: Holds<T>, E: Holds<M> + Drop>(
    alloc: Global,
    bytes: &[u8],
    start: u64,
    size: u64,
    boxes: &mut Vec<E>,
) -> Result<()>
    requires room { start + size ≤ length bytes.now }
    ensures answer { AnswersAs (λ _. boxes.new.items) result
        (append_read boxes.old.items
        (map_reading E.wrapped (map_reading M.wrapped (reading T.reads bytes.now start size)))) }
    ensures kept { OnErr result (boxes.new.items ≡ boxes.old.items) }
{
    let value = T::read_content(alloc, &bytes[start as usize..], start, size)?;
    boxes.reserve(1)?;
    boxes.push_reserved(E::wrap(M::wrap(value)));
    Ok(())
}

/// Returns an equal box, in newly allocated memory, as an `E`.
pub fn clone_as<T: TryClone + Drop, E: Holds<T>>(value: &T) -> Result<E>
    ensures clone { IfOk result (λ clone. clone ≡ E.wrapped value.now) }
    ensures memory { IfErr result (λ e. e ≡ OutOfMemory) }
{
    Ok(E::wrap(value.try_clone()?))
}
