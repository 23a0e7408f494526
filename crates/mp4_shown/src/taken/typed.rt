//! A tag, and what it says that follows.

ghost use Rattle.mp4_shown.specs.Event.{Text, seen_text};
ghost use Rattle.mp4_shown.specs.TakenShapes.{typed_taken};

use crate::taken::code::take_code;
use crate::taken::error::Result;
use crate::taken::object::Object;
use crate::taken::take::TakeShape;
use mp4_declared::{Context, OfType, Tag, Typed};
use std::alloc::Global;

impl<K: Tag, S: TakeShape, T: TakeShape> TakeShape for Typed<K, S, T> {
    type Names = (&'static str, (S::Names, T::Names));

    type Taken = OfType<S::Taken, T::Taken>;

    ghost Known = { Text × (S.TakeShape.Known × T.TakeShape.Known) };

    ghost known = { λ names. (seen_text names.0, (S.TakeShape.known names.1.0, T.TakeShape.known names.1.1)) };

    ghost taken = { λ names c ms. typed_taken K.TAG names.0.now (S.TakeShape.taken names.1.0 c)
        (T.TakeShape.taken names.1.1 c) ms };

    fn take(
        alloc: Global,
        names: &(&'static str, (S::Names, T::Names)),
        context: Context,
        object: &mut Object<'_>,
    ) -> Result<OfType<S::Taken, T::Taken>> {
        let tag = u32::from(take_code(alloc, names.0, object)?);
        if tag == K::TAG {
            Ok(OfType::Own(S::take(alloc, &names.1.0, context, object)?))
        } else {
            Ok(OfType::Other(tag, T::take(alloc, &names.1.1, context, object)?))
        }
    }
}
