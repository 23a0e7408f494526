//! Shapes that may be absent. A part that is absent has no members.

ghost use Rattle.mp4_shown.specs.TakenShapes.{taken_if};

use crate::taken::error::Result;
use crate::taken::object::Object;
use crate::taken::take::TakeShape;
use mp4_declared::{Condition, Context, If, OrZeros};
use std::alloc::Global;

impl<P: Condition, S: TakeShape> TakeShape for If<P, S> {
    type Names = S::Names;

    type Taken = Option<S::Taken>;

    ghost Known = { S.TakeShape.Known };

    ghost known = { S.TakeShape.known };

    ghost taken = { λ names c ms. taken_if (P.holds c) (S.TakeShape.taken names c) ms };

    fn take(
        alloc: Global,
        names: &S::Names,
        context: Context,
        object: &mut Object<'_>,
    ) -> Result<Option<S::Taken>> {
        if P::holds(context) {
            Ok(Some(S::take(alloc, names, context, object)?))
        } else {
            Ok(None)
        }
    }
}

impl<P: Condition, S: TakeShape, const N: usize> TakeShape for OrZeros<P, S, N> {
    type Names = S::Names;

    type Taken = Option<S::Taken>;

    ghost Known = { S.TakeShape.Known };

    ghost known = { S.TakeShape.known };

    ghost taken = { λ names c ms. taken_if (P.holds c) (S.TakeShape.taken names c) ms };

    fn take(
        alloc: Global,
        names: &S::Names,
        context: Context,
        object: &mut Object<'_>,
    ) -> Result<Option<S::Taken>> {
        if P::holds(context) {
            Ok(Some(S::take(alloc, names, context, object)?))
        } else {
            Ok(None)
        }
    }
}
