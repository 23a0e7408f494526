//! Parts that are the members of one member.

ghost use Rattle.mp4_shown.specs.Event.{Text, seen_text};
ghost use Rattle.mp4_shown.specs.TakenShapes.{group_taken};

use crate::Group;
use crate::taken::error::Result;
use crate::taken::object::{Object, object_in};
use crate::taken::take::TakeShape;
use crate::taken::whole::take_all;
use mp4_declared::Context;
use std::alloc::Global;

impl<S: TakeShape> TakeShape for Group<S> {
    type Names = (&'static str, S::Names);

    type Taken = S::Taken;

    ghost Known = { Text × S.TakeShape.Known };

    ghost known = { λ names. (seen_text names.0, S.TakeShape.known names.1) };

    ghost taken = { λ names c ms. group_taken names.0.now (S.TakeShape.taken names.1 c) ms };

    fn take(
        alloc: Global,
        names: &(&'static str, S::Names),
        context: Context,
        object: &mut Object<'_>,
    ) -> Result<S::Taken> {
        let value = object.take_one(alloc, names.0)?;
        let mut inside = object_in(alloc, names.0, value)?;
        match take_all::<S>(alloc, &names.1, context, &mut inside) {
            Ok(value) => Ok(value),
            Err(error) => Err(error.in_group(alloc, names.0)),
        }
    }
}
