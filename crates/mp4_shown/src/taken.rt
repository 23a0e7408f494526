//! Takes a box back out of its JSON. The shape of the box and the names of its fields say what is taken out of a JSON
//! object, as they say what is shown of the box.

mod big_endian;
mod bytes;
mod code;
mod codes;
mod decimal;
mod each;
mod entries;
mod error;
mod group;
pub mod integer;
mod list;
mod lists;
mod named_by;
mod nested;
mod number;
mod numbers;
mod object;
mod optional;
mod parts;
mod pieces;
mod rows;
mod run;
mod signed;
mod take;
mod tuple;
mod typed;
mod whole;

pub use big_endian::{joined, push_number};
pub use bytes::has_no_zero;
pub use code::{code_in, latin_in, take_code};
pub use codes::{WideItem, take_array};
pub use each::{TakeItem, take_each};
pub use entries::EntryItem;
pub use error::{Error, Reason, Refusal, Result, refuse};
pub use list::{number_of, take_count, take_list};
pub use named_by::take_named_by;
pub use number::{
    NO_CONTEXT, agrees, take_number, take_numbers, take_signed, whole_in, with_suffix,
};
pub use object::{Object, end_object, object_in};
pub use pieces::{TakePieces, take_pieces};
pub use run::{check_bytes, hex_in, small_in, take_bytes, take_text};
pub use take::{TakeEntry, TakeFields, TakeShape};
pub use whole::{read_box, read_shape, take_declared, take_entry, take_members};
