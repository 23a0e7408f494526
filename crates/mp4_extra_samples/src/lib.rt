//! Reads and writes the boxes that describe samples, fragments and segments, and has an enum of them. Each box type is
//! declared by its shape, in a file of its name.
#![tactic(auto)]

pub mod cslg;
pub mod leva;
pub mod mfro;
pub mod prft;
pub mod saio;
pub mod saiz;
pub mod sample_box;
pub mod sbgp;
pub mod sdtp;
pub mod senc;
pub mod sgpd;
pub mod sidx;
pub mod ssix;
pub mod styp;
pub mod stz2;
pub mod subs;
pub mod tfra;
