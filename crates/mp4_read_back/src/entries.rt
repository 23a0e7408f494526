//! Lists of entries, each of which has a shape, and structs with fields as parts of a box.

ghost use Rattle.std.specs.Prelude.{List, ◌^◌};
ghost use Rattle.mp4_read_back.specs.ListLaws.{any_list_comes, counted_comes};
ghost use Rattle.mp4_read_back.specs.Lists.{any_list_part, list_part};
ghost use Rattle.mp4_shown.specs.Lists.{ListName};

use crate::{ComesBack, EntryComesBack};
use mp4_declared::{Count, Each, EachToEnd};
use mp4_shown::{EntriesOf, Nested};

impl<C: Count, X: EntryComesBack> ComesBack for Each<C, X> {
    ghost Names = { ListName };

    ghost Value = { List X };

    ghost part = { list_part (256 ^ C.WIDTH) (λ (n : ListName). n) (λ (n : ListName). tt) X.part };

    ghost comes = { counted_comes (λ (n : ListName). n) (λ (n : ListName). tt) X.part X.comes C.WIDTH C.is_short };
}

impl<X: EntryComesBack> ComesBack for EachToEnd<X> {
    ghost Names = { ListName };

    ghost Value = { List X };

    ghost part = { any_list_part (λ (n : ListName). n) (λ (n : ListName). tt) X.part };

    ghost comes = { any_list_comes (λ (n : ListName). n) (λ (n : ListName). tt) X.part X.comes };
}

impl<X: EntryComesBack> ComesBack for EntriesOf<X> {
    ghost Names = { ListName };

    ghost Value = { List X };

    ghost part = { any_list_part (λ (n : ListName). n) (λ (n : ListName). tt) X.part };

    ghost comes = { any_list_comes (λ (n : ListName). n) (λ (n : ListName). tt) X.part X.comes };
}

/// The fields of the struct are among those of the box.
impl<X: ComesBack> ComesBack for Nested<X> {
    ghost Names = { X.Names };

    ghost Value = { X.Value };

    ghost part = { X.part };

    ghost comes = { X.comes };
}
