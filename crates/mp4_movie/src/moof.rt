//! The fragments of a `moof`.

ghost use Rattle.std.specs.Prelude.{◌≡◌, ℕ, IfOk, IfSome};
ghost use Rattle.std.specs.BTreeMap.{get};
ghost use Rattle.std.specs.Ordering.{nat_cmp};
ghost use Rattle.mp4_frame.specs.FourCC.{four_cc_of};
ghost use Rattle.mp4_frame.specs.declared.codes.TheConstants as names;
ghost use Rattle.mp4_movie.specs.Fragments.{AreFragments, AreOfMoof, AreOfMoofs, IsStep};
ghost use Rattle.mp4_movie.specs.Levels.{all_in};

use crate::defaults::defaults_of;
use crate::error::{BoxError, MovieError};
use crate::fragment::fragment_in;
use crate::level::first_in;
use crate::track_fragment::TrackFragment;
use mp4_flat::TrexBox;
use mp4_frame::codes;
use mp4_walk::{BoxWalk, Source, TreeBox};
use std::alloc::Global;
use std::collections::BTreeMap;
use std::io;

/// The fragments of a `moof`.
#[derive(Debug, Drop)]
pub struct MoofFragments {
    /// The position of the `moof` in the file, in bytes.
    pub position: u64,
    /// For each `traf`, in order, the fragment of the track that its header names, or why it is none.
    pub fragments: Vec<Result<TrackFragment, BoxError>>,
}

/// The fragment that a `traf` is, or why it is none, and the end of its data, if that is known.
#[derive(Debug, Drop)]
struct Parsed {
    fragment: Result<TrackFragment, BoxError>,
    next: Option<u64>,
}

/// Returns the fragment that a `traf` is, or why it is none. `boxes` begins with the boxes inside it.
fn parse_traf<S: Source>(
    alloc: Global,
    walk: &mut BoxWalk<S>,
    boxes: &[TreeBox],
    defaults: &BTreeMap<u32, TrexBox>,
    moof: u64,
    end: Option<u64>,
) -> io::Result<Parsed>
    ensures value { IfSome walk.old.bytes
        (λ file. IfOk result (λ t. IsStep file (λ (q : ℕ). get nat_cmp defaults.now q) moof end boxes.now t.fragment
        t.next)) }
    ensures kept { walk.new ≡ walk.old }
{
    match fragment_in(alloc, walk, boxes, defaults, moof, end) {
        Ok(fragment) => {
            let next = fragment.fragment(0).end();
            Ok(Parsed {
                fragment: Ok(fragment),
                next,
            })
        }
        Err(MovieError::Box(error)) => Ok(Parsed {
            fragment: Err(error),
            next: None,
        }),
        Err(MovieError::Io(error)) => Err(error),
    }
}

/// Returns the fragments of the `moof` at position `moof`. `boxes` begins with the boxes inside it.
fn fragments_in<S: Source>(
    alloc: Global,
    walk: &mut BoxWalk<S>,
    boxes: &[TreeBox],
    defaults: &BTreeMap<u32, TrexBox>,
    moof: u64,
) -> io::Result<Vec<Result<TrackFragment, BoxError>>>
    ensures value { IfSome walk.old.bytes
        (λ file. IfOk result (λ fragments. AreOfMoof file (λ (q : ℕ). get nat_cmp defaults.now q) moof boxes.now
        fragments.items)) }
    ensures kept { walk.new ≡ walk.old }
{
    let mut fragments = Vec::with_capacity(alloc, 1)?;
    let mut end = Some(moof);
    let mut rest = boxes;
    'trafs: while let Some(place) = first_in(rest, 1, codes::TRAF) {
        let parsed = parse_traf(alloc, walk, place.after, defaults, moof, end)?;
        fragments.push(parsed.fragment)?;
        end = parsed.next;
        rest = place.after;
    }
    Ok(fragments)
}

/// Returns the fragments of each `moof` in `boxes`, with these defaults.
fn moofs_in<S: Source>(
    alloc: Global,
    walk: &mut BoxWalk<S>,
    boxes: &[TreeBox],
    defaults: &BTreeMap<u32, TrexBox>,
) -> io::Result<Vec<MoofFragments>>
    ensures value { IfSome walk.old.bytes
        (λ file. IfOk result (λ moofs. AreOfMoofs file (λ (q : ℕ). get nat_cmp defaults.now q)
        (all_in 0 (four_cc_of names.MOOF) boxes.now) moofs.items)) }
    ensures kept { walk.new ≡ walk.old }
{
    let mut moofs = Vec::new(alloc);
    let mut rest = boxes;
    'moofs: while let Some(place) = first_in(rest, 0, codes::MOOF) {
        let position = place.found.position;
        let fragments = fragments_in(alloc, walk, place.after, defaults, position)?;
        moofs.push(MoofFragments {
            position,
            fragments,
        })?;
        rest = place.after;
    }
    Ok(moofs)
}

/// Returns the fragments of each `moof` of a file with these boxes.
pub fn fragments_of<S: Source>(
    alloc: Global,
    walk: &mut BoxWalk<S>,
    boxes: &[TreeBox],
) -> io::Result<Vec<MoofFragments>>
    ensures value { IfSome walk.old.bytes (λ file. IfOk result (λ moofs. AreFragments file boxes.now moofs.items)) }
    ensures kept { walk.new ≡ walk.old }
{
    let defaults = defaults_of(alloc, walk, boxes)?;
    moofs_in(alloc, walk, boxes, &defaults.by_track)
}
