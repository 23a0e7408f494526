//! A part of a file: a run of the samples of each track, chosen by times of the presentation. Plans a file with these
//! samples. No clause says how the plan is made: `check_part` accepts only a file that has the right run of each track.

mod bound;
mod check;
mod last;
pub(crate) mod origin;
mod part;
mod planned;
mod refusal;
mod run;

pub use bound::{Bound, Line, Moment};
pub use check::keeps_part;
pub use last::{Place, last_of};
pub use part::Part;
pub use planned::check_part;
pub use refusal::PartRefusal;
pub use run::{PartSamples, PartTeller};
