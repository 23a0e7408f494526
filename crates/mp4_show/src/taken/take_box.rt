//! The traits of the codec's boxes and of their entries, as they are taken back out of JSON.

ghost use Rattle.json.specs.Json.{Json, Members};
ghost use Rattle.json.specs.Value.{value_view};
ghost use Rattle.mp4_declared.specs.declared.context.Context.{Context};
ghost use Rattle.mp4_shown.specs.Object.{left};
ghost use Rattle.mp4_shown.specs.Taking.{Taking, TakesAs};

use json::Value;
use mp4_declared::Context;
use mp4_shown::taken::{Object, Result};
use std::alloc::Global;

/// A box of the codec that is taken out of JSON, like `TakeFields`.
pub trait TakeBox: Sized + Drop {
    /// Gives the value that an object has, and the members that are left, or the first fault.
    ghost taken: { Members → Taking (Self × Members) };

    /// Takes the fields of a box out of `object`.
    fn take(alloc: Global, object: &mut Object<'_>) -> Result<Self>
        ensures { TakesAs (λ b. (b, left object.new)) result (taken (left object.old)) };
}

/// An entry of a list in a box of the codec that is taken out of JSON, like `TakeEntry`.
pub trait TakeCodecEntry: Sized + Drop {
    /// Gives the entry that a value is, or the first fault. The path of a member begins in the entry.
    ghost taken: { Context → Json → Taking Self };

    /// Takes the entry from `value`.
    fn take(alloc: Global, context: Context, value: Value<'_>) -> Result<Self>
        ensures { TakesAs (λ x. x) result (taken context (value_view value.entry)) };
}
