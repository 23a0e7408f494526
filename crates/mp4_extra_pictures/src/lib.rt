//! Reads and writes the boxes that describe how pictures are coded and shown, and has an enum of them. Each box type is
//! declared by its shape, in a file of its name.
#![tactic(auto)]

pub mod auxc;
pub mod av1c;
pub mod avcc;
pub mod btrt;
pub mod clap;
pub mod clli;
pub mod colr;
pub mod counted;
pub mod dvcc;
pub mod dvvc;
pub mod fiel;
pub mod hvcc;
pub mod imir;
pub mod irot;
pub mod ispe;
pub mod mdcv;
mod nal_unit;
pub mod pasp;
pub mod picture_box;
pub mod pixi;
pub mod tail;
pub mod vpcc;
pub mod vvcc;
