//! For authors of box types: hands the fields of a box to a sink, each by the name that the standard gives it. What is
//! handed over follows from the shape of the box and the names of its fields. So does how a box is taken back from
//! JSON. For enums of such boxes there are the definition of their types, its laws, and macros over the list of the
//! types.
#![tactic(auto)]

mod bytes;
mod bytes_name;
mod codes;
mod entries;
mod enums;
mod field_sink;
mod group;
mod has_fields;
mod list_name;
mod lists;
mod macros;
mod named_by;
mod nested;
mod number_name;
mod numbers;
mod numbers_at;
mod optional;
mod parts;
mod pieces;
mod rows;
mod show;
mod signed;
pub mod taken;
mod tuple;
mod typed;
mod value;
mod view;

pub use bytes_name::{BytesAs, BytesName, put_bytes};
pub use entries::{EntriesOf, ShownEntry};
pub use enums::{Catalogued, Described, read_declared, show_held, take_held, visit_held};
pub use field_sink::{FieldSink, Result};
pub use group::Group;
pub use has_fields::{HasFields, put_fields};
pub use list_name::{ListAs, ListName};
pub use named_by::NamedBy;
pub use nested::Nested;
pub use number_name::{FLAGS, NumberAs, NumberName, VERSION, put_number, put_numbers, put_signed};
pub use numbers_at::{byte_at, number_at};
pub use pieces::{Pieces, PiecesOf};
pub use show::{NamedShape, ShowShape, show_shape};
pub use value::{Matrix, Meaning, Value};
pub use view::View;
