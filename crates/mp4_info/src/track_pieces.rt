//! The fragments of each track of a file, which are collected in one pass.

ghost use Rattle.std.specs.Prelude.{◌≡◌, ◌++◌, ◌==◌, [], ◌∷◌, ℕ, false, if◌then◌else◌, IfOk, OnOk};
ghost use Rattle.std.specs.BTreeMap.{get};
ghost use Rattle.std.specs.Option.{option_copied};
ghost use Rattle.std.specs.Ordering.{nat_cmp};
ghost use Rattle.mp4_info.specs.RunTimes.{answer_times, fragment_times, moof_times};
ghost use Rattle.mp4_info.specs.Totals.{answer_pieces, moof_pieces, piece_of};
ghost use Rattle.mp4_info.specs.TrackPieces.{AreByTrack, pieces_in, times_in};

use crate::run_times::push_fragment;
use crate::totals::{Piece, piece_of};
use mp4_movie::{BoxError, MoofFragments, TrackFragment};
use mp4_tables::SttsEntry;
use std::alloc::{AllocError, Global};
use std::collections::BTreeMap;

/// The fragments of a track, in the order of the file.
#[derive(Debug, Drop)]
pub struct TrackPieces {
    /// The totals of each.
    pub pieces: Vec<Piece>,
    /// The durations of their samples, in the form of an `stts`.
    pub times: Vec<SttsEntry>,
}

/// The fragments of all tracks.
#[derive(Debug, Drop)]
pub struct AllPieces {
    /// The fragments of each track that has fragments, by its track_ID.
    pub by_track: BTreeMap<u32, TrackPieces>,
}

/// Takes the fragments of the track with the track_ID `id` out of `by_track`.
fn take_track(alloc: Global, id: u32, by_track: &mut BTreeMap<u32, TrackPieces>) -> TrackPieces
    ensures pieces { result.pieces.items ≡ pieces_in (get nat_cmp by_track.old id) }
    ensures times { result.times.items ≡ times_in (get nat_cmp by_track.old id) }
    ensures others { (q : ℕ) → (q == id) ≡ false → get nat_cmp by_track.new q ≡ get nat_cmp by_track.old q }
{
    match by_track.remove(&id) {
        Some(track) => track,
        None => TrackPieces {
            pieces: Vec::new(alloc),
            times: Vec::new(alloc),
        },
    }
}

/// Appends `fragment` to those of a track.
fn push_piece(fragment: &TrackFragment, track: &mut TrackPieces) -> Result<(), AllocError>
    ensures pieces { OnOk result (track.new.pieces.items ≡ track.old.pieces.items ++ piece_of fragment.now ∷ []) }
    ensures times { OnOk result (track.new.times.items ≡ track.old.times.items ++ fragment_times fragment.now) }
{
    track.pieces.push(piece_of(fragment))?;
    push_fragment(fragment, &mut track.times)
}

/// Adds `fragment` to those of its track.
fn add_fragment(
    alloc: Global,
    fragment: &TrackFragment,
    by_track: &mut BTreeMap<u32, TrackPieces>,
) -> Result<(), AllocError>
    ensures pieces { OnOk result ((q : ℕ) → pieces_in (get nat_cmp by_track.new q)
        ≡ pieces_in (get nat_cmp by_track.old q)
        ++ (if fragment.now.header.track_id == q then piece_of fragment.now ∷ [] else [])) }
    ensures times { OnOk result ((q : ℕ) → times_in (get nat_cmp by_track.new q)
        ≡ times_in (get nat_cmp by_track.old q)
        ++ (if fragment.now.header.track_id == q then fragment_times fragment.now else [])) }
{
    let id = fragment.header.track_id;
    let mut track = take_track(alloc, id, by_track);
    push_piece(fragment, &mut track)?;
    by_track.insert(id, track)?;
    Ok(())
}

/// Adds the fragment that a `traf` is, if it is one.
fn add_answer(
    alloc: Global,
    answer: &Result<TrackFragment, BoxError>,
    by_track: &mut BTreeMap<u32, TrackPieces>,
) -> Result<(), AllocError>
    ensures pieces { OnOk result ((q : ℕ) → pieces_in (get nat_cmp by_track.new q)
        ≡ pieces_in (get nat_cmp by_track.old q) ++ answer_pieces q answer.now) }
    ensures times { OnOk result ((q : ℕ) → times_in (get nat_cmp by_track.new q)
        ≡ times_in (get nat_cmp by_track.old q) ++ answer_times q answer.now) }
{
    match answer {
        Ok(fragment) => add_fragment(alloc, fragment, by_track),
        Err(_) => Ok(()),
    }
}

/// Adds the fragments of a `moof`.
fn add_moof(
    alloc: Global,
    moof: &MoofFragments,
    by_track: &mut BTreeMap<u32, TrackPieces>,
) -> Result<(), AllocError>
    ensures pieces { OnOk result ((q : ℕ) → pieces_in (get nat_cmp by_track.new q)
        ≡ pieces_in (get nat_cmp by_track.old q) ++ moof_pieces q moof.now) }
    ensures times { OnOk result ((q : ℕ) → times_in (get nat_cmp by_track.new q)
        ≡ times_in (get nat_cmp by_track.old q) ++ moof_times q moof.now) }
{
    let answers = moof.fragments.as_slice();
    for index in 0..answers.len() {
        add_answer(alloc, &answers[index], by_track)?;
    }
    Ok(())
}

/// Returns the fragments of each track, by its track_ID. Takes one step for each fragment, and for each size, duration
/// and flag that a run lists.
pub fn all_pieces(alloc: Global, moofs: &[MoofFragments]) -> Result<AllPieces, AllocError>
    ensures { IfOk result (AreByTrack moofs.now) }
{
    let mut by_track = BTreeMap::new(alloc);
    for index in 0..moofs.len() {
        add_moof(alloc, &moofs[index], &mut by_track)?;
    }
    Ok(AllPieces { by_track })
}

/// Returns the fragments of a track, if it has some.
pub fn pieces_in(track: Option<&TrackPieces>) -> &[Piece]
    ensures { result.now ≡ pieces_in (option_copied track.entry) }
{
    match track {
        Some(track) => track.pieces.as_slice(),
        None => &[],
    }
}

/// Returns the durations of the samples of the fragments of a track, if it has some.
pub fn times_in(track: Option<&TrackPieces>) -> &[SttsEntry]
    ensures { result.now ≡ times_in (option_copied track.entry) }
{
    match track {
        Some(track) => track.times.as_slice(),
        None => &[],
    }
}
