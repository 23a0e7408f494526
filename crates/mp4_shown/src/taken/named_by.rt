//! Parts whose names depend on a condition.

ghost use Rattle.std.specs.Prelude.{if◌then◌else◌};
ghost use Rattle.mp4_shown.specs.Object.{left};
ghost use Rattle.mp4_shown.specs.Taking.{TakesAs};

use crate::taken::error::Result;
use crate::taken::object::Object;
use crate::taken::take::TakeShape;
use mp4_declared::Context;
use std::alloc::Global;

/// Takes the `S` of a `NamedBy<S>` out: under the first names if the condition `holds`, and else under the second.
pub fn take_named_by<S: TakeShape>(
    alloc: Global,
    names: &(S::Names, S::Names),
    context: Context,
    holds: bool,
    object: &mut Object<'_>,
) -> Result<S::Taken>
    ensures { TakesAs (λ v. (v, left object.new)) result
        (if holds then S.TakeShape.taken (S.TakeShape.known names.now.0) context (left object.old)
        else S.TakeShape.taken (S.TakeShape.known names.now.1) context (left object.old)) }
{
    if holds {
        S::take(alloc, &names.0, context, object)
    } else {
        S::take(alloc, &names.1, context, object)
    }
}
