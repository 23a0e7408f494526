//! Reads and writes the boxes of sound, text and hints, and has an enum of them: how they are coded, and the headers of
//! their media. Each box type is declared by its shape, in a file of its name.
#![tactic(auto)]

pub mod alac;
pub mod audio_config;
pub mod chan;
pub mod chnl;
pub mod dac3;
pub mod dec3;
pub mod descriptors;
pub mod dfla;
pub mod dops;
pub mod enda;
pub mod esds;
pub mod ftab;
pub mod gmin;
pub mod hmhd;
pub mod nmhd;
pub mod sound_box;
pub mod srat;
pub mod sthd;
pub mod stpp;
pub mod tcmi;
pub mod text;
pub mod tx3g;
pub mod wvtt;
