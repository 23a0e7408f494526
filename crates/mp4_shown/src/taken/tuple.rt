//! Three to five shapes, one after the other: the first one, and then the others.

use crate::taken::error::Result;
use crate::taken::object::Object;
use crate::taken::take::TakeShape;
use mp4_declared::Context;
use std::alloc::Global;

impl<A: TakeShape, B: TakeShape, C: TakeShape> TakeShape for (A, B, C) {
    type Names = (A::Names, (B::Names, C::Names));

    type Taken = (A::Taken, (B::Taken, C::Taken));

    ghost Known = { ⟦<(A, (B, C)) as TakeShape>⟧.Known };

    ghost known = { ⟦<(A, (B, C)) as TakeShape>⟧.known };

    ghost taken = { ⟦<(A, (B, C)) as TakeShape>⟧.taken };

    fn take(
        alloc: Global,
        names: &Self::Names,
        context: Context,
        object: &mut Object<'_>,
    ) -> Result<Self::Taken> {
        <(A, (B, C)) as TakeShape>::take(alloc, names, context, object)
    }
}

impl<A: TakeShape, B: TakeShape, C: TakeShape, D: TakeShape> TakeShape for (A, B, C, D) {
    type Names = (A::Names, (B::Names, (C::Names, D::Names)));

    type Taken = (A::Taken, (B::Taken, (C::Taken, D::Taken)));

    ghost Known = { ⟦<(A, (B, C, D)) as TakeShape>⟧.Known };

    ghost known = { ⟦<(A, (B, C, D)) as TakeShape>⟧.known };

    ghost taken = { ⟦<(A, (B, C, D)) as TakeShape>⟧.taken };

    fn take(
        alloc: Global,
        names: &Self::Names,
        context: Context,
        object: &mut Object<'_>,
    ) -> Result<Self::Taken> {
        <(A, (B, C, D)) as TakeShape>::take(alloc, names, context, object)
    }
}

impl<A, B, C, D, E> TakeShape for (A, B, C, D, E)
where
    A: TakeShape,
    B: TakeShape,
    C: TakeShape,
    D: TakeShape,
    E: TakeShape,
{
    type Names = (A::Names, (B::Names, (C::Names, (D::Names, E::Names))));

    type Taken = (A::Taken, (B::Taken, (C::Taken, (D::Taken, E::Taken))));

    ghost Known = { ⟦<(A, (B, C, D, E)) as TakeShape>⟧.Known };

    ghost known = { ⟦<(A, (B, C, D, E)) as TakeShape>⟧.known };

    ghost taken = { ⟦<(A, (B, C, D, E)) as TakeShape>⟧.taken };

    fn take(
        alloc: Global,
        names: &Self::Names,
        context: Context,
        object: &mut Object<'_>,
    ) -> Result<Self::Taken> {
        <(A, (B, C, D, E)) as TakeShape>::take(alloc, names, context, object)
    }
}
