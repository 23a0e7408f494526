//! Boxes of the codec beside boxes that declare the names of their fields.

ghost use Rattle.mp4_compose.specs.declared.either.Either.TheVariants as either;

use crate::box_fields::BoxFields;
use mp4_shown::{FieldSink, HasFields, Result, View};
use mp4_stream::Either;

/// A declared box is shown by the names that it declares.
impl<A: HasFields, B: BoxFields> BoxFields for Either<A, B> {
    ghost shown = { λ view. elim [
      | either.First b ↦ A.shown view b
      | either.Second b ↦ B.shown view b
    ] };

    ghost whole = { λ view. elim [
      | either.First b ↦ A.whole view b
      | either.Second b ↦ B.whole view b
    ] };

    fn show<K: FieldSink>(&self, view: View, sink: &mut K) -> Result<()> {
        match self {
            Either::First(b) => b.show(view, sink),
            Either::Second(b) => b.show(view, sink),
        }
    }
}
