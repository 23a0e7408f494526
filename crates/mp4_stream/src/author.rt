//! For authors of box types: functions, traits and types that callers of boxes don't need. `docs/OWN-BOX.md` shows a
//! box that is made of them. They are for:
//! - checking that bytes are present, reading numbers at offsets, and putting numbers and bytes;
//! - times, tables and children;
//! - declared boxes and entries;
//! - enums of several box types.

pub use mp4_declared::{
    Array, Bits, Bytes, Check, Checked, Condition, Context, Count, Declared, DeclaredBox,
    DeclaredEntry, Each, EachToEnd, EntryLayout, EntryVisitor, FromVersion, Full, I8, I16, I32, If,
    IfFlags, Last, List, NOT_FILLED, Pascal, PutShape, Reserved, Rest, Rows, Shape, ShapeVisitor,
    Terminated, Time, U8, U16, U24, U32, U64, Zeros, entries_fit, entries_of, put_rows,
};
pub use mp4_flat::{put_time, time_at, time_fits, version_of_times, width_of_time};
pub use mp4_frame::{
    BoxEnum, BoxVisitor, Frame, Parent, TableEntry, all_fit, any_child, bytes_from, check,
    child_content, child_head, clone_as, codes, expect_bytes, i8_at, i16_at, i32_at, is_four_cc,
    is_whole, is_whole_table, is_writable_table, last_child, named_child, optional_child, piece_at,
    push_as, push_inside, put_bytes, put_child, put_entries, put_full_box, put_i8, put_i16,
    put_i32, put_table, put_u8, put_u16, put_u24, put_u32, put_u64, put_zeros, read_as, read_table,
    rows_at, table_size, u8_at, u16_at, u24_at, u32_at, u64_at,
};
pub use mp4_tables::read_rows;
