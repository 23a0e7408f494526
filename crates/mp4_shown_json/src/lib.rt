//! Writes the fields of a box as JSON: their names, values and order are those that `mp4_shown` hands over.
#![tactic(auto)]

mod code;
mod decimal;
mod fields_json;
mod fixed;
mod json_sink;

pub use code::push_latin;
pub use fields_json::json_of;
pub use fixed::{power, push_fraction};
pub use json_sink::JsonSink;
