//! For programs: an input that is read to its end, and an output that is written whole. Each end has a mark that is set
//! once a call of it has failed, so a program knows which end made a run fail.
#![tactic(auto)]

mod ends;
mod failure;
mod steady;
mod whole;

pub use ends::{Input, Output};
pub use failure::{Failure, or_read, read_failure};
pub use steady::{Steady, is_closed_pipe};
pub use whole::{flush, pull_after, read_all, skip_all, write_all};
