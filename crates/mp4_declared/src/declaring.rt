//! For crates that declare boxes: `use mp4_declared::declaring::*` imports shapes, traits, and macros. The macros write
//! the bodies of functions of a box and its entries, from a list of the fields.

pub use crate::{
    Array, Bits, Bytes, Check, Checked, Declared, DeclaredBox, DeclaredEntry, Each, EachToEnd,
    EntryLayout, EntryVisitor, FromVersion, Full, I8, I16, I32, If, IfFlags, Last, List, Pascal,
    Reserved, Rest, Rows, Shape, ShapeVisitor, Terminated, Time, U8, U16, U24, U32, U64, box_of,
    entry_of, numbers_of, parts_of,
};
pub use mp4_frame::{Entries, TryClone};

/// Returns the struct of some content: `box_of!(found => Prft { version, flags, reference_track_id, ntp_timestamp,
/// media_time })`. The fields are in the order of the content.
#[macro_export]
macro_rules! box_of {
    (@back [$($done:ident)*] $found:ident $name:ident $fields:tt $first:ident $($more:ident)*) => {
        $crate::box_of!(@back [$first $($done)*] $found $name $fields $($more)*)
    };
    (@back $done:tt $found:ident $name:ident $fields:tt) => {
        $crate::box_of!(@nest $done () $found $name $fields)
    };
    (@nest [$last:ident $($before:ident)*] $nested:tt $found:ident $name:ident $fields:tt) => {
        $crate::box_of!(@nest [$($before)*] ($last, $nested) $found $name $fields)
    };
    (@nest [] $nested:tt $found:ident $name:ident [$($field:ident)+]) => {{
        let $nested = $found;
        $name { $($field),+ }
    }};
    ($found:ident => $name:ident { $($field:ident),+ }) => {
        $crate::box_of!(@back [] $found $name [$($field)+] $($field)+)
    };
}

/// Returns the content of a struct: `parts_of!(self => version, flags, entries.as_slice(), = ids)`. The fields are in
/// the order of the content. A field that can't be copied is followed by a call. `= ids` uses a variable instead of a
/// field.
#[macro_export]
macro_rules! parts_of {
    (@ $of:ident) => { () };
    (@ $of:ident , $($rest:tt)+) => { $crate::parts_of!(@ $of $($rest)+) };
    (@ $of:ident = $part:ident $($rest:tt)*) => { ($part, $crate::parts_of!(@ $of $($rest)*)) };
    (@ $of:ident $field:ident . $call:ident () $($rest:tt)*) => {
        ($of.$field.$call(), $crate::parts_of!(@ $of $($rest)*))
    };
    (@ $of:ident $field:ident $($rest:tt)*) => { ($of.$field, $crate::parts_of!(@ $of $($rest)*)) };
    ($of:ident => $($parts:tt)+) => { $crate::parts_of!(@ $of $($parts)+) };
}

/// Returns the numbers in the fields of an entry: `numbers_of!(self => is_first, size)`. A flag is 0 or 1.
#[macro_export]
macro_rules! numbers_of {
    ($entry:ident => $($field:ident),+) => { [$(u64::from($entry.$field)),+] };
}

/// Returns the entry of some numbers: `entry_of!(numbers => Entry { is_first: bool, size: u32 })`. The fields are in
/// the order of the numbers, each with its type.
#[macro_export]
macro_rules! entry_of {
    (@ $n:ident $name:ident [$($k:tt)*] [$($made:tt)*]) => { $name { $($made)* } };
    (@ $n:ident $name:ident [$k:tt $($next:tt)*] [$($made:tt)*] $field:ident bool $($rest:tt)*) => {
        $crate::entry_of!(@ $n $name [$($next)*] [$($made)* $field: $n[$k] == 1,] $($rest)*)
    };
    (@ $n:ident $name:ident [$k:tt $($next:tt)*] [$($made:tt)*] $field:ident $type:ident $($rest:tt)*) => {
        $crate::entry_of!(@ $n $name [$($next)*] [$($made)* $field: $n[$k] as $type,] $($rest)*)
    };
    ($n:ident => $name:ident { $($field:ident: $type:ident),+ }) => {
        $crate::entry_of!(@ $n $name [0 1 2 3 4 5 6 7 8 9 10 11 12 13 14 15] [] $($field $type)+)
    };
}
