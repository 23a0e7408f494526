//! Tests of metadata and its keys.

use mp4_stream::{Metadata, MetadataKey};
use std::alloc::Global;
use std::borrow::CowStr;
use std::hash::{DefaultHasher, Hash, Hasher};
use test_shared::helpers::debug_text;

fn hash_of(key: &MetadataKey) -> u64 {
    let mut state = DefaultHasher::new();
    key.hash(&mut state);
    state.finish()
}

/// Returns whether a clone of `key` has the same hash.
fn clone_hashes_alike(key: &MetadataKey) -> bool {
    match key.clone() {
        Ok(clone) => hash_of(&clone) == hash_of(key),
        Err(_) => false,
    }
}

/// Returns whether `Debug` prints `key` as `name`.
fn is_printed(alloc: Global, key: &MetadataKey, name: &str) -> bool {
    match debug_text(alloc, key) {
        Ok(text) => text.as_str() == name,
        Err(_) => false,
    }
}

/// Returns whether a clone of `key` has the same hash, and `Debug` prints `key` as `name`.
fn is_named(alloc: Global, key: MetadataKey, name: &str) -> bool {
    clone_hashes_alike(&key) && is_printed(alloc, &key, name)
}

#[test]
fn equal_keys_hash_alike(rt: HostRuntime) {
    let alloc = rt.alloc();
    assert!(rt;
        is_named(alloc, MetadataKey::Title, "Title")
            && is_named(alloc, MetadataKey::Year, "Year")
            && is_named(alloc, MetadataKey::Poster, "Poster")
            && is_named(alloc, MetadataKey::Summary, "Summary")
            && hash_of(&MetadataKey::Title) != hash_of(&MetadataKey::Year)
    );
}

/// A film with a title and a year.
#[derive(Clone, Copy)]
struct Film {
    title: &'static str,
    year: u32,
}

impl<'a> Metadata<'a> for Film {
    ghost use Rattle.std.specs.Prelude.{Some, None};

    ghost title = { λ film. Some film.title.now };

    ghost year = { λ film. Some film.year };

    ghost poster = { λ _. None };

    ghost summary = { λ _. None };

    fn title(&self) -> Option<CowStr<'_>> {
        Some(CowStr::Borrowed(self.title))
    }

    fn year(&self) -> Option<u32> {
        Some(self.year)
    }

    fn poster(&self) -> Option<&[u8]> {
        None
    }

    fn summary(&self) -> Option<CowStr<'_>> {
        None
    }
}

/// Returns whether the title `found` is `expected`, or both are `None`.
fn is_title(found: Option<CowStr<'_>>, expected: Option<&str>) -> bool {
    match found {
        Some(title) => expected == Some(title.as_str()),
        None => expected.is_none(),
    }
}

/// Returns whether `metadata` has this title and this year, and nothing else.
fn has_only<'a, M: Metadata<'a>>(metadata: &M, title: Option<&str>, year: Option<u32>) -> bool {
    is_title(metadata.title(), title)
        && metadata.year() == year
        && metadata.poster().is_none()
        && metadata.summary().is_none()
}

/// Returns whether a reference to `film` and an option with `film` have its metadata, and an empty option has none.
fn is_passed_on(film: Film) -> bool {
    has_only(&film, Some("Metropolis"), Some(1927))
        && has_only(&&film, Some("Metropolis"), Some(1927))
        && has_only(&Some(film), Some("Metropolis"), Some(1927))
        && has_only(&None::<Film>, None, None)
}

#[test]
fn metadata_is_passed_on(rt: HostRuntime) {
    let film = Film {
        title: "Metropolis",
        year: 1927,
    };
    assert!(rt; is_passed_on(film));
}
