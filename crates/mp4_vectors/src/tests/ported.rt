//! The tests of the Rust crate `mp4`, module by module.

mod entries;
mod flat;
mod headers;
mod sound;
mod tables;
mod text;
