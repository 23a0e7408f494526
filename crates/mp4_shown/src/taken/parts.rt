//! Shapes that follow one another, and shapes with a front that isn't shown.

ghost use Rattle.mp4_shown.specs.Numbers.{NumberName as SeenName, seen_number};
ghost use Rattle.mp4_shown.specs.TakenShapes.{full_taken, map_taken, pair_taken};

use crate::NumberName;
use crate::taken::error::{Reason, Result, refuse};
use crate::taken::number::take_number;
use crate::taken::object::Object;
use crate::taken::take::TakeShape;
use mp4_declared::{Context, Full, Last, Reserved, WithSize};
use std::alloc::Global;

impl<A: TakeShape, B: TakeShape> TakeShape for (A, B) {
    type Names = (A::Names, B::Names);

    type Taken = (A::Taken, B::Taken);

    ghost Known = { A.TakeShape.Known × B.TakeShape.Known };

    ghost known = { λ names. (A.TakeShape.known names.0, B.TakeShape.known names.1) };

    ghost taken = { λ names c ms. pair_taken (A.TakeShape.taken names.0 c) (B.TakeShape.taken names.1 c) ms };

    fn take(
        alloc: Global,
        names: &(A::Names, B::Names),
        context: Context,
        object: &mut Object<'_>,
    ) -> Result<(A::Taken, B::Taken)> {
        let first = A::take(alloc, &names.0, context, object)?;
        let second = B::take(alloc, &names.1, context, object)?;
        Ok((first, second))
    }
}

impl<S: TakeShape> TakeShape for Last<S> {
    type Names = (S::Names, ());

    type Taken = (S::Taken, ());

    ghost Known = { S.TakeShape.Known × Unit {0} };

    ghost known = { λ names. (S.TakeShape.known names.0, tt) };

    ghost taken = { λ names c ms. map_taken (λ v. (v, tt)) (S.TakeShape.taken names.0 c ms) };

    fn take(
        alloc: Global,
        names: &(S::Names, ()),
        context: Context,
        object: &mut Object<'_>,
    ) -> Result<(S::Taken, ())> {
        Ok((S::take(alloc, &names.0, context, object)?, ()))
    }
}

impl<const N: usize, S: TakeShape> TakeShape for Reserved<N, S> {
    type Names = S::Names;

    type Taken = S::Taken;

    ghost Known = { S.TakeShape.Known };

    ghost known = { S.TakeShape.known };

    ghost taken = { S.TakeShape.taken };

    fn take(
        alloc: Global,
        names: &S::Names,
        context: Context,
        object: &mut Object<'_>,
    ) -> Result<S::Taken> {
        S::take(alloc, names, context, object)
    }
}

/// The size isn't shown. It follows from the value.
impl<S: TakeShape> TakeShape for WithSize<S> {
    type Names = S::Names;

    type Taken = S::Taken;

    ghost Known = { S.TakeShape.Known };

    ghost known = { S.TakeShape.known };

    ghost taken = { S.TakeShape.taken };

    fn take(
        alloc: Global,
        names: &S::Names,
        context: Context,
        object: &mut Object<'_>,
    ) -> Result<S::Taken> {
        S::take(alloc, names, context, object)
    }
}

impl<const N: usize, S: TakeShape> TakeShape for Full<N, S> {
    type Names = (NumberName, (NumberName, S::Names));

    type Taken = (u8, (u32, S::Taken));

    ghost Known = { SeenName × (SeenName × S.TakeShape.Known) };

    ghost known = { λ names. (seen_number names.0, (seen_number names.1.0, S.TakeShape.known names.1.1)) };

    ghost taken = { λ names c ms. full_taken N names.0 names.1.0 (S.TakeShape.taken names.1.1) ms };

    fn take(
        alloc: Global,
        names: &(NumberName, (NumberName, S::Names)),
        _context: Context,
        object: &mut Object<'_>,
    ) -> Result<(u8, (u32, S::Taken))> {
        let version = take_number(alloc, names.0, 8, object)? as u8;
        if usize::from(version) >= N {
            return Err(refuse(alloc, names.0.0, Reason::NoVersion));
        }
        let flags = take_number(alloc, names.1.0, 24, object)? as u32;
        let rest = S::take(alloc, &names.1.1, Context { version, flags }, object)?;
        Ok((version, (flags, rest)))
    }
}
