//! The fields of the boxes that the codec reads, by name, and the text that a person reads of any box.
#![tactic(auto)]

mod box_fields;
mod code;
mod dates;
mod either;
mod escape;
mod escaped_json;
mod fields;
mod flag_names;
mod fronts;
mod language;
mod lists;
mod look;
mod number_text;
mod placed;
mod row;
mod sound_front;
mod taken;
mod text_sink;
mod value;
mod value_text;

pub use box_fields::{BoxFields, put_fields};
pub use code::push_code;
pub use escape::{is_escaped, push_escaped};
pub use escaped_json::json_text;
pub use fields::{DATA_TYPES, integer, integer_width};
pub use fronts::{
    put_entry, put_full_head, put_list_head, put_reference, put_terminator, put_usertype,
    put_visual,
};
pub use look::Look;
pub use mp4_shown::{Result, Value};
pub use number_text::push_number;
pub use sound_front::put_sound;
pub use taken::{TakenByType, read_codec};
pub use text_sink::{TextSink, columns, push_colored};
