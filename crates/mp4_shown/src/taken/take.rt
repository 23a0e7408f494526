//! The traits of a shape and of a box that are taken out of JSON.

ghost use Rattle.std.specs.Prelude.{◌≡◌};
ghost use Rattle.json.specs.Json.{Json, Members};
ghost use Rattle.json.specs.Value.{value_view};
ghost use Rattle.mp4_declared.specs.declared.context.Context.{Context};
ghost use Rattle.mp4_shown.specs.Object.{left};
ghost use Rattle.mp4_shown.specs.Taking.{Taking, TakesAs};

use crate::taken::error::Result;
use crate::taken::object::Object;
use json::Value;
use mp4_declared::Context;
use std::alloc::Global;

/// A shape whose values are taken out of JSON.
pub trait TakeShape {
    /// The type of the names, which is built like that of the values.
    type Names;

    /// The type of the value that is taken, as the shape reads it.
    type Taken: Drop;

    /// The type of the names as a clause sees them in a constant.
    ghost Known: { Type 0 };

    /// The names as a clause sees them in a constant.
    ghost known: { Self.Names → Known };

    /// Gives the value that an object has under these names, and the members that are left, or the first fault.
    ghost taken: { Known → Context → Members → Taking (Self.Taken × Members) };

    /// Takes the fields of a value out of `object`, by their names.
    fn take(
        alloc: Global,
        names: &Self::Names,
        context: Context,
        object: &mut Object<'_>,
    ) -> Result<Self::Taken>
        ensures { TakesAs (λ v. (v, left object.new)) result
            (taken (known names.now) context (left object.old)) };
}

/// A box, or the fields of one, that is taken out of JSON.
pub trait TakeFields: Sized + Drop {
    /// Gives the value that an object has, and the members that are left, or the first fault.
    ghost taken: { Members → Taking (Self × Members) };

    /// Takes the fields of a box out of `object`.
    fn take(alloc: Global, object: &mut Object<'_>) -> Result<Self>
        ensures { TakesAs (λ b. (b, left object.new)) result (taken (left object.old)) };
}

/// An entry of a list that is taken out of JSON.
pub trait TakeEntry: Sized + Drop {
    /// Gives the entry that a value is, or the first fault. The path of a member begins in the entry.
    ghost taken: { Context → Json → Taking Self };

    /// Takes the entry from `value`.
    fn take(alloc: Global, context: Context, value: Value<'_>) -> Result<Self>
        ensures { TakesAs (λ x. x) result (taken context (value_view value.entry)) };
}
