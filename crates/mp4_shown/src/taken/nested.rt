//! Structs with fields as parts of a box.

use crate::taken::{Object, Result, TakeFields, TakeShape};
use crate::{HasFields, NamedShape, Nested};
use mp4_declared::Context;
use std::alloc::Global;

/// The fields of the struct are among those of the box.
impl<X: HasFields + TakeFields> TakeShape for Nested<X> {
    type Names = ();

    type Taken = X;

    ghost Known = { ⟦<Nested<X> as NamedShape>⟧.Seen };

    ghost known = { ⟦<Nested<X> as NamedShape>⟧.seen };

    ghost taken = { λ names c ms. X.TakeFields.taken ms };

    fn take(alloc: Global, _names: &(), _context: Context, object: &mut Object<'_>) -> Result<X> {
        X::take(alloc, object)
    }
}
