//! Tests of what bytes and contracts don't show. Tests of a single box are in a file of its name, and the others in a
//! file for their subject. The numbers in new entries count up from 0x81, so that no two numbers of an entry are equal.

mod avc1;
mod clones;
mod codes;
mod configurations;
mod cut_streams;
mod defaults;
mod entries;
mod equality;
mod examples;
mod extra;
mod hev1;
mod invalid_texts;
mod iterator;
mod languages;
mod large;
mod laws;
mod lists;
mod memory;
mod metadata;
mod mp4a;
mod own_boxes;
mod streams;
mod stsd;
mod texts;
mod unwritable;
mod vp09;
