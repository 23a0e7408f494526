//! For maintainers: the parts that all tests of the codec share, which are boxes with their bytes, two vectors of each
//! type, and checks of a box.
#![tactic(auto)]

pub mod boxes;
pub mod helpers;
pub mod made;
pub mod vectors;
