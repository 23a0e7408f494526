//! For `mp4boxes` and the C library: the normal form of a stream of boxes, made in the bytes of the stream.
//!
//! A first walk reads every box, and notes the bytes that change. A second walk changes them, and can't fail. So a
//! refused stream stays as it was, and unchanged bytes are not copied.
#![tactic(auto)]

mod change;
mod find;
mod make;
mod normal;

pub use normal::{normal_form, normalize};
