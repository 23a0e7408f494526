//! Tests of lists of entries that are changed in place.

use mp4_stream::{Entries, Error};
use test_shared::boxes::tables::list;

/// Adds 1 to each of `entries`, modulo 2^32.
fn count_on(entries: &mut Entries<u32>) {
    for entry in entries {
        *entry = entry.wrapping_add(1);
    }
}

/// Changes the second of `entries` to 7. Returns whether there is no fourth.
fn change_second(entries: &mut Entries<u32>) -> bool {
    if let Some(entry) = entries.get_mut(1) {
        *entry = 7;
    }
    entries.get_mut(3).is_none()
}

/// Returns the largest of `entries`, or 0 if there are none.
fn largest(entries: &Entries<u32>) -> u32 {
    let mut largest = 0;
    for entry in entries {
        largest = largest.max(*entry);
    }
    largest
}

/// Reverses `entries` and then clears them. Returns whether they were `reversed` after the first step, with 268 as the
/// largest, and none are left.
fn is_reversed(entries: &mut Entries<u32>, reversed: &[u32]) -> bool {
    entries.as_mut_slice().reverse();
    let is_same = entries.as_slice() == reversed;
    let is_largest = largest(entries) == 268;
    entries.clear();
    is_same && is_largest && entries.is_empty()
}

/// Returns whether each change to the entries in `made` happens in place.
fn are_changed(made: Result<Entries<u32>, Error>) -> bool {
    match made {
        Ok(mut entries) => {
            count_on(&mut entries);
            change_second(&mut entries) && is_reversed(&mut entries, &[4, 7, 268])
        }
        Err(_) => false,
    }
}

#[test]
fn entries_are_changed_in_place(rt: HostRuntime) {
    assert!(rt; are_changed(list(rt.alloc(), &[267, 1970, 3])));
}
