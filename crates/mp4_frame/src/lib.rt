//! For readers and writers of MP4 boxes, and for authors of box types: errors, codes, the cursor, headers, the traits
//! of a box, and lists of boxes.
#![tactic(auto)]

mod box_enum;
mod box_header;
mod box_type;
mod byte_cursor;
mod child;
pub mod codes;
mod entries;
mod error;
mod four_cc;
mod frame;
mod front;
pub mod laws;
mod list;
mod member;
mod normal_form;
mod number;
mod one_child;
mod put;
mod read;
mod reading;
mod skip;
mod table;
mod text;
mod traits;
mod try_clone;
mod write;

pub use box_enum::{BoxEnum, BoxVisitor};
pub use box_header::{
    BoxHeader, HEADER_EXT_SIZE, HEADER_SIZE, header_is_read_back, read_box_header_ext,
    write_box_header_ext,
};
pub use box_type::{BoxType, code_is_kept, name_is_kept};
pub use byte_cursor::ByteCursor;
pub use child::{Parent, last_child};
pub use entries::Entries;
pub use error::{Error, Result};
pub use four_cc::{FourCC, is_four_cc};
pub use frame::{Frame, frame_at};
pub use front::{front_box, whole_box};
pub use list::{BoxSpan, list_boxes};
pub use member::{Holds, clone_as, push_as, push_inside, read_as};
pub use normal_form::{is_whole, is_whole_table};
pub use number::{i8_at, i16_at, i32_at, u8_at, u16_at, u24_at, u32_at, u64_at};
pub use one_child::{any_child, child_content, child_head, named_child, optional_child};
pub use put::{
    put_bytes, put_child, put_full_box, put_i8, put_i16, put_i32, put_u8, put_u16, put_u24,
    put_u32, put_u64, put_zeros,
};
pub use read::read_boxes_as;
pub use reading::{bytes_from, check, check_end, expect_bytes, piece_at, rows_at};
pub use skip::{box_start, skip_box, skip_bytes, skip_bytes_to};
pub use table::{
    TableEntry, all_fit, is_writable_table, put_entries, put_table, read_table, table_size,
};
pub use text::Text;
pub use traits::{BoxLaws, Mp4Box, ReadBox, ReadsWithoutMemory, StreamBox, WriteBox};
pub use try_clone::TryClone;
pub use write::{put_boxes, write_boxes, write_zeros};
