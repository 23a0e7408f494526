//! Whole objects, of which nothing is left.

ghost use Rattle.std.specs.Prelude.{◌≡◌};
ghost use Rattle.json.specs.Json.{document};
ghost use Rattle.json.specs.Value.{value_view};
ghost use Rattle.mp4_shown.specs.Object.{all_of, left, object_taken};
ghost use Rattle.mp4_shown.specs.TakenShapes.{declared_taken, document_taken, entry_made};
ghost use Rattle.mp4_shown.specs.Taking.{TakesAs};
ghost use Rattle.mp4_declared.specs.OwnBox.{no_context};

use crate::taken::error::{Error, Reason, Result, refuse};
use crate::taken::number::NO_CONTEXT;
use crate::taken::object::{Object, end_object, object_in};
use crate::taken::take::{TakeFields, TakeShape};
use json::{Scratch, Value};
use mp4_declared::{Context, DeclaredBox, DeclaredEntry, Shape};
use std::alloc::Global;

/// Takes an `S` out of `object`, of which nothing may be left.
pub(crate) fn take_all<S: TakeShape>(
    alloc: Global,
    names: &S::Names,
    context: Context,
    object: &mut Object<'_>,
) -> Result<S::Taken>
    ensures { TakesAs (λ v. v) result
        (all_of (S.TakeShape.taken (S.TakeShape.known names.now) context) (left object.old)) }
{
    let taken = S::take(alloc, names, context, object)?;
    end_object(alloc, object)?;
    Ok(taken)
}

/// Takes an `S` from an entry, which is an object. Nothing of it may be left.
pub fn take_members<S: TakeShape>(
    alloc: Global,
    names: &S::Names,
    context: Context,
    value: Value<'_>,
) -> Result<S::Taken>
    ensures { TakesAs (λ v. v) result
        (object_taken (S.TakeShape.taken (S.TakeShape.known names.now) context) (value_view value.entry)) }
{
    let mut object = object_in(alloc, "", value)?;
    take_all::<S>(alloc, names, context, &mut object)
}

/// Returns the value of the shape `S` whose JSON is `text`: an object with its fields, in any order.
pub fn read_shape<S: TakeShape>(alloc: Global, names: &S::Names, text: &str) -> Result<S::Taken>
    ensures { TakesAs (λ v. v) result
        (document_taken (S.TakeShape.taken (S.TakeShape.known names.now) no_context) (document text.now)) }
{
    let mut scratch: Scratch = Scratch::new(alloc);
    match Value::parse(alloc, text, &mut scratch) {
        Ok(value) => take_members::<S>(alloc, names, NO_CONTEXT, value),
        Err(json::Error::Invalid) => Err(refuse(alloc, "", Reason::NotJson)),
        Err(json::Error::OutOfMemory | json::Error::TooLong | json::Error::DuplicateKey) => {
            Err(Error::OutOfMemory)
        }
    }
}

/// The fields of a `B`.
struct FieldsOf<B>(B);

impl<B: TakeFields> TakeShape for FieldsOf<B> {
    type Names = ();

    type Taken = B;

    ghost Known = { Unit {0} };

    ghost known = { λ names. names };

    ghost taken = { λ names c ms. B.TakeFields.taken ms };

    fn take(alloc: Global, _names: &(), _context: Context, object: &mut Object<'_>) -> Result<B> {
        B::take(alloc, object)
    }
}

/// Returns the box whose JSON is `text`: an object with its fields, in any order.
pub fn read_box<B: TakeFields>(alloc: Global, text: &str) -> Result<B>
    ensures { TakesAs (λ b. b) result (document_taken B.taken (document text.now)) }
{
    read_shape::<FieldsOf<B>>(alloc, &(), text)
}

/// Takes a declared box out of `object`, by the names of the shape `S`.
pub fn take_declared<T: DeclaredBox, S: TakeShape<Taken = <T::Shape as Shape>::Value>>(
    alloc: Global,
    names: &S::Names,
    object: &mut Object<'_>,
) -> Result<T>
    ensures { TakesAs (λ b. (b, left object.new)) result
        (declared_taken T.layout (S.TakeShape.taken (S.TakeShape.known names.now)) (left object.old)) }
{
    let content = S::take(alloc, names, NO_CONTEXT, object)?;
    Ok(T::from_content(content))
}

/// Takes an entry with a shape from `value`, by the names of the shape `S`.
pub fn take_entry<X: DeclaredEntry, S: TakeShape<Taken = <X::Shape as Shape>::Value>>(
    alloc: Global,
    names: &S::Names,
    context: Context,
    value: Value<'_>,
) -> Result<X>
    ensures { TakesAs (λ x. x) result (entry_made X.layout.value
        (S.TakeShape.taken (S.TakeShape.known names.now) context) (value_view value.entry)) }
{
    let content = take_members::<S>(alloc, names, context, value)?;
    Ok(X::from_content(content))
}
