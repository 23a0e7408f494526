//! A box as a value: a change, a clone, `==`, `Debug` and the default.

use crate::tests::own_boxes::ssix::index;
use example_boxes::{FIEL, Fiel, FielBox, SsixBox, SsixRange, set_flags};
use mp4_stream::{Result as Made, TryClone};
use std::alloc::Global;
use test_shared::helpers::debug_text;

/// The default range.
const ZEROS: SsixRange = SsixRange {
    level: 0,
    range_size: 0,
};

/// Returns whether `clone` is equal to `ssix` until it is changed.
fn is_clone(mut clone: SsixBox, ssix: &SsixBox) -> bool {
    let is_equal = clone == *ssix;
    set_flags(&mut clone, 7);
    is_equal && clone != *ssix && clone.flags == 7
}

/// Returns whether the box in `made` has a clone that is equal until it is changed.
fn is_cloned(made: Made<SsixBox>) -> bool {
    match made {
        Ok(ssix) => match ssix.try_clone() {
            Ok(clone) => is_clone(clone, &ssix),
            Err(_) => false,
        },
        Err(_) => false,
    }
}

/// The fields of a box.
const FIELDS: Fiel = Fiel {
    count: 2,
    detail: 9,
};

/// Returns whether `Debug` prints the box with its fields.
fn is_printed(alloc: Global) -> bool {
    match debug_text(alloc, &FielBox::new(FIELDS)) {
        Ok(text) => text.as_str() == "Declared { fields: Fiel { count: 2, detail: 9 } }",
        Err(_) => false,
    }
}

/// Returns whether the box has its fields, and others after a change.
fn is_changed() -> bool {
    let mut fiel = FielBox::new(FIELDS);
    let is_equal = fiel == FielBox::new(FIELDS) && fiel.count == 2;
    fiel.detail = 14;
    is_equal && fiel != FielBox::new(FIELDS) && fiel.into_fields().detail == 14
}

#[test]
fn a_box_is_a_value(rt: HostRuntime) {
    let alloc = rt.alloc();
    assert!(rt; is_cloned(index(alloc)) && is_printed(alloc) && is_changed());
    assert!(rt; FIEL.to_be_bytes() == *b"fiel" && SsixRange::default() == ZEROS);
}
