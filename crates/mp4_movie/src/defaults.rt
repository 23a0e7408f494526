//! The defaults of tracks for their fragments (ISO/IEC 14496-12, 8.8.3).

ghost use Rattle.std.specs.Prelude.{◌≡◌, ℕ, ◌++◌, Some, IfOk, IfSome, OnOk};
ghost use Rattle.std.specs.BTreeMap.{get};
ghost use Rattle.std.specs.Option.{option_or};
ghost use Rattle.std.specs.Ordering.{nat_cmp};
ghost use Rattle.mp4_movie.specs.Defaults.{AreDefaults, errors_of, of_track, ok_of, trexes};

use crate::error::BoxError;
use crate::found::value_at;
use crate::level::{first_in, inside, movie_in};
use mp4_flat::TrexBox;
use mp4_frame::codes;
use mp4_walk::{BoxWalk, Source, TreeBox};
use std::alloc::Global;
use std::collections::BTreeMap;
use std::io;
use std::io::ErrorKind;

/// The defaults of tracks for their fragments: each `trex` in the first `mvex` of the first `moov`.
#[derive(Debug, Drop)]
pub struct Defaults {
    /// The first `trex` of each track_ID, among those that can be read.
    pub by_track: BTreeMap<u32, TrexBox>,
    /// The fault of each `trex` that can't be read, in the order of the file.
    pub faults: Vec<BoxError>,
}

/// Stores `trex`, unless its track has one already.
fn keep_first(trex: TrexBox, by_track: &mut BTreeMap<u32, TrexBox>) -> io::Result<()>
    ensures { OnOk result
        ((q : ℕ) → get nat_cmp by_track.new q ≡ option_or (get nat_cmp by_track.old q) (of_track q (Some trex))) }
{
    let id = trex.track_id;
    if by_track.contains_key(&id) {
        return Ok(());
    }
    match by_track.insert(id, trex) {
        Ok(_) => Ok(()),
        Err(_) => Err(io::Error::from(ErrorKind::OutOfMemory)),
    }
}

/// Stores the value of a `trex`, unless its track has one already, or its fault.
fn keep(trex: Result<TrexBox, BoxError>, defaults: &mut Defaults) -> io::Result<()>
    ensures by_track { OnOk result ((q : ℕ) → get nat_cmp defaults.new.by_track q
        ≡ option_or (get nat_cmp defaults.old.by_track q) (of_track q (ok_of trex))) }
    ensures faults { OnOk result (defaults.new.faults.items ≡ defaults.old.faults.items ++ errors_of trex) }
{
    match trex {
        Ok(trex) => keep_first(trex, &mut defaults.by_track),
        Err(error) => {
            defaults.faults.push(error)?;
            Ok(())
        }
    }
}

/// Returns the defaults in `boxes`, the boxes of a file.
pub fn defaults_of<S: Source>(
    alloc: Global,
    walk: &mut BoxWalk<S>,
    boxes: &[TreeBox],
) -> io::Result<Defaults>
    ensures value { IfSome walk.old.bytes
        (λ file. IfOk result (λ defaults. AreDefaults file (trexes boxes.now) defaults)) }
    ensures kept { walk.new ≡ walk.old }
{
    let mut defaults = Defaults {
        by_track: BTreeMap::new(alloc),
        faults: Vec::new(alloc),
    };
    let mut rest = inside(movie_in(boxes), 1, codes::MVEX);
    while let Some(place) = first_in(rest, 2, codes::TREX) {
        let trex = value_at::<TrexBox, S>(alloc, walk, codes::TREX, &place.found)?;
        keep(trex, &mut defaults)?;
        rest = place.after;
    }
    Ok(defaults)
}
