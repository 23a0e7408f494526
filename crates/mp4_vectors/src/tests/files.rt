//! Tests with hand-written files, tables and fragments.

mod boxes;
mod compact_sizes;
mod disagreements;
mod edits;
mod fragments;
mod tables;
mod track;
mod track_fragments;
mod tree;
