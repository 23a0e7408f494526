//! Macros that write the names of the fields of a box.

/// Writes the name of a number: `number!("hSpacing")`, or `number!("OutputGain", Fixed(8))` with how it is shown, or
/// `number!("flags", Flags(6), MEANINGS)` with what its values or flags mean.
#[macro_export]
macro_rules! number {
    ($name:expr) => { ($name, $crate::NumberAs::Plain, &[]) };
    ($name:expr, $as:ident) => { ($name, $crate::NumberAs::$as, &[]) };
    ($name:expr, $as:ident ( $of:expr )) => { ($name, $crate::NumberAs::$as($of), &[]) };
    ($name:expr, $as:ident, $meanings:expr) => { ($name, $crate::NumberAs::$as, $meanings) };
    ($name:expr, $as:ident ( $of:expr ), $meanings:expr) => {
        ($name, $crate::NumberAs::$as($of), $meanings)
    };
}

/// Writes the name of a run of bytes: `run!("default_KID", Bytes)`. A text has the name of its bytes too, which ends in
/// `_hex`: `run!("namespace", Text)`. A count has its own name: `run!("default_constant_IV", Counted,
/// "default_constant_IV_size")`.
#[macro_export]
macro_rules! run {
    ($name:literal, Text) => { ($name, $crate::BytesAs::Text, concat!($name, "_hex")) };
    ($name:literal, Ended) => { ($name, $crate::BytesAs::Ended, concat!($name, "_hex")) };
    ($name:literal, $as:ident) => { ($name, $crate::BytesAs::$as, "") };
    ($name:literal, $as:ident, $count:literal) => { ($name, $crate::BytesAs::$as, $count) };
}

/// Writes the name of a list: `list!("references")`, `list!("offsets", Items)`, or `list!("entries", Counted,
/// "entry_count")`.
#[macro_export]
macro_rules! list {
    ($name:literal) => { ($name, $crate::ListAs::Entries, "") };
    ($name:literal, $as:ident) => { ($name, $crate::ListAs::$as, "") };
    ($name:literal, $as:ident, $count:literal) => { ($name, $crate::ListAs::$as, $count) };
}

/// Writes the names of the fields of a box, in the order of its content: `names_of!(number!("hSpacing"),
/// number!("vSpacing"))`.
#[macro_export]
macro_rules! names_of {
    () => { () };
    ($name:expr $(, $more:expr)* $(,)?) => { ($name, $crate::names_of!($($more),*)) };
}
