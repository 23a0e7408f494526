//! The two forms of a file: samples in fragments, or in tables. Plans the fragmented form of a file with tables, and
//! the form with tables of a fragmented file. No clause says how a plan is made: `check_in_form` accepts only a file of
//! the other form that keeps every sample of every track.

mod budget;
mod chunk_place;
mod cursor;
mod cuts;
mod cutting;
mod defragmenting;
mod dependencies;
mod form;
mod fragment_index;
mod fragment_part;
mod fragmenting;
mod joined_groups;
mod moof;
mod movie_copy;
mod new_bytes;
mod new_edits;
mod new_tables;
mod obstacles;
mod planned;
mod ranges;
mod refusal;
mod rendering;
mod sample_groups;
mod times;
mod tops;
mod tracks;

pub use cutting::{PlannedPart, plan_part};
pub use defragmenting::{Defragmented, plan_tables};
pub use form::Form;
pub use fragment_part::FragmentPart;
pub use fragmenting::{FragmentOptions, Fragmented, plan_fragments};
pub use planned::check_in_form;
pub use refusal::FormRefusal;
