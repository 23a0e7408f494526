//! The metadata of a file.

ghost use Rattle.std.specs.Prelude.{◌≡◌, ℕ, List, Option, None};
ghost use Rattle.std.specs.Option.{option_map, option_copied, option_and_then};
ghost use Rattle.std.specs.Cow.{cow_str_bytes};

use std::borrow::CowStr;

/// The metadata of a file. In contracts a string is its bytes.
pub trait Metadata<'a> {
    ghost title: { Self → Option (List ℕ) };

    ghost year: { Self → Option ℕ };

    ghost poster: { Self → Option (List ℕ) };

    ghost summary: { Self → Option (List ℕ) };

    /// Returns the title.
    fn title(&self) -> Option<CowStr<'_>>
        ensures { option_map cow_str_bytes result ≡ title self.now };

    /// Returns the year of release.
    fn year(&self) -> Option<u32>
        ensures { result ≡ year self.now };

    /// Returns the bytes of a picture, the poster or cover.
    fn poster(&self) -> Option<&[u8]>
        ensures { option_copied result ≡ poster self.now };

    /// Returns the summary.
    fn summary(&self) -> Option<CowStr<'_>>
        ensures { option_map cow_str_bytes result ≡ summary self.now };
}

/// Returns the metadata of the value behind the reference.
impl<'a, T: Metadata<'a>> Metadata<'a> for &'a T {
    ghost title = { λ m. T.title m.now };

    ghost year = { λ m. T.year m.now };

    ghost poster = { λ m. T.poster m.now };

    ghost summary = { λ m. T.summary m.now };

    fn title(&self) -> Option<CowStr<'_>> {
        (**self).title()
    }

    fn year(&self) -> Option<u32> {
        (**self).year()
    }

    fn poster(&self) -> Option<&[u8]> {
        (**self).poster()
    }

    fn summary(&self) -> Option<CowStr<'_>> {
        (**self).summary()
    }
}

/// Returns the metadata of the value in a `Some`. A `None` has no metadata.
impl<'a, T: Metadata<'a>> Metadata<'a> for Option<T> {
    ghost title = { option_and_then T.title };

    ghost year = { option_and_then T.year };

    ghost poster = { option_and_then T.poster };

    ghost summary = { option_and_then T.summary };

    fn title(&self) -> Option<CowStr<'_>> {
        match self {
            Some(value) => value.title(),
            None => None,
        }
    }

    fn year(&self) -> Option<u32> {
        match self {
            Some(value) => value.year(),
            None => None,
        }
    }

    fn poster(&self) -> Option<&[u8]> {
        match self {
            Some(value) => value.poster(),
            None => None,
        }
    }

    fn summary(&self) -> Option<CowStr<'_>> {
        match self {
            Some(value) => value.summary(),
            None => None,
        }
    }
}
