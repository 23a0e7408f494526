//! Tests of the strings of boxes.

use mp4_stream::{Error, Text};
use std::alloc::Global;

/// Returns whether `text` has the letters, the bytes and the length of "foo".
fn has_foo(text: &Text) -> bool {
    text.as_str() == "foo"
        && text.as_bytes() == b"foo".as_slice()
        && text.len() == 3
        && !text.is_empty()
        && text.is_utf8()
}

/// Returns whether the text in `made` is "foo", and is converted to that string.
fn is_foo(made: Result<Text, Error>) -> bool {
    match made {
        Ok(text) => has_foo(&text) && text.into_string().as_str() == "foo",
        Err(_) => false,
    }
}

/// Returns whether a new text is empty.
fn new_is_empty(alloc: Global) -> bool {
    Text::new(alloc).is_empty()
}

#[test]
fn texts_are_strings(rt: HostRuntime) {
    assert!(rt; is_foo(Text::from_str(rt.alloc(), "foo")) && new_is_empty(rt.alloc()));
}
