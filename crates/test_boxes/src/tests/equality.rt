//! Tests that `==` tells strings and lists of equal length apart, so that a comparison with an expected value means
//! something.

use mp4_stream::{Error, Text, TryClone};
use std::alloc::Global;
use test_shared::boxes::tables::list;
use test_shared::made;

/// Returns whether the value in `made` has a clone that is equal to it.
fn is_cloned<T: TryClone + PartialEq + Drop>(made: Result<T, Error>) -> bool {
    made::cloned(made).is_ok()
}

/// Returns whether both values exist and are unequal in either order.
fn differ<T: PartialEq + Drop>(made: Result<T, Error>, other: Result<T, Error>) -> bool {
    match (made, other) {
        (Ok(made), Ok(other)) => made != other && other != made,
        _ => false,
    }
}

/// Returns whether the text "abc" differs from the text `other`.
fn abc_differs(alloc: Global, other: &str) -> bool {
    differ(Text::from_str(alloc, "abc"), Text::from_str(alloc, other))
}

/// Returns whether the text "abc" differs from texts that have other letters, or more or fewer.
fn strings_differ(alloc: Global) -> bool {
    abc_differs(alloc, "xbc")
        && abc_differs(alloc, "axc")
        && abc_differs(alloc, "abx")
        && abc_differs(alloc, "cab")
        && abc_differs(alloc, "ab")
        && abc_differs(alloc, "abcd")
        && abc_differs(alloc, "")
}

#[test]
fn strings_of_one_length_differ(rt: HostRuntime) {
    assert!(rt; is_cloned(Text::from_str(rt.alloc(), "abc")) && strings_differ(rt.alloc()));
}

/// Returns whether the list of 1, 2 and 3 differs from the list `other`.
fn counting_differs(alloc: Global, other: &[u32]) -> bool {
    differ(list(alloc, &[1, 2, 3]), list(alloc, other))
}

/// Returns whether the list of 1, 2 and 3 differs from lists that have other numbers, or fewer.
fn lists_differ(alloc: Global) -> bool {
    counting_differs(alloc, &[4, 2, 3])
        && counting_differs(alloc, &[1, 4, 3])
        && counting_differs(alloc, &[1, 2, 4])
        && counting_differs(alloc, &[3, 1, 2])
        && counting_differs(alloc, &[1, 2])
}

#[test]
fn lists_of_one_length_differ(rt: HostRuntime) {
    assert!(rt; is_cloned(list(rt.alloc(), &[1, 2, 3])) && lists_differ(rt.alloc()));
}
