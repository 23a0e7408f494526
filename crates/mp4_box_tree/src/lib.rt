//! Reads boxes that hold boxes as trees, and writes them again without loss.
#![tactic(auto)]

mod box_tree;
mod child;
mod container;
mod declared_container;
mod entry_codes;
mod fronts;
pub mod laws;
mod node;
mod sample_entry;

pub use box_tree::{AllBoxes, BoxTree, Within};
pub use child::{Child, ExactFields};
pub use container::Container;
pub use declared_container::{ContainerFields, DeclaredContainer};
pub use fronts::is_parent;
pub use node::Node;
pub use sample_entry::{
    AudioFields, AudioFirst, AudioSecond, AudioVersion, VisualFields, data_reference_index,
};
