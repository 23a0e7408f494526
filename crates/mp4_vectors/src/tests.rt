//! Tests with hand-computed bytes and answers, one file for each box or subject.

mod codes;
mod cursor;
mod cuts;
mod entries;
mod esds;
mod files;
mod fixed_points;
mod flat;
mod ftyp;
mod headers;
mod in_place;
mod kept;
mod media_tables;
mod memory;
mod mp4a;
mod ported;
mod printed;
mod references;
mod samples;
mod sizes;
mod stco;
mod streams;
mod stsc;
mod stsd;
mod tables;
mod texts;
