//! Edits of the boxes of a file: the ranges of bytes that they replace, and the edits that shortcuts stand for.

mod boxed;
mod edit;
mod finding;
mod hiding;
mod inserting;
mod naming;
mod opened;
mod path_text;
mod planning;
mod refusal;
mod shortcut;
mod sized;
mod splice;
mod tags;
mod tracks;

pub use edit::{Edit, Parent};
pub use naming::{Named, check_order, name_splices};
pub use path_text::text_of;
pub use planning::plan_spliced;
pub use refusal::EditRefusal;
pub use shortcut::{Shortcut, edits_of};
pub use sized::count_sized;
pub use splice::{Splice, has_byte, place};
pub use tags::{cover_data, text_data};
pub use tracks::packed_language;
