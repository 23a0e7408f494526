//! A new file that is planned as pieces: new bytes, and ranges of an old file. Finds out which bytes of the new file
//! come from the old one, and reads and writes the new file without making it in memory.

mod carried;
mod flat;
mod holes;
pub mod laws;
mod piece;
mod plan;
mod source;
mod write;

pub use carried::{carries, carries_after};
pub use flat::{are_alike, flat_plan};
pub use holes::{Hole, are_equal_except};
pub use piece::{Piece, are_within};
pub use plan::{Place, Plan, PlanError};
pub use source::{PieceSource, new_file, shared};
pub use write::write_pieces;
