//! The rules of fragments.

ghost use Rattle.std.specs.Prelude.{◌≡◌, ℕ, [], ◌++◌, IfOk, OnOk, None, Some, option_and_then};
ghost use Rattle.std.specs.BTreeMap.{get};
ghost use Rattle.std.specs.Ordering.{nat_cmp};
ghost use Rattle.mp4_check.specs.FaultValues.{values_of};
ghost use Rattle.mp4_check.specs.FragmentFaults.{AreFacts, File, IsGoing, Times, back_from, found_at, header_faults};
ghost use Rattle.mp4_check.specs.FragmentFaults.{in_that, is_here, next_end, next_times, position_of, runs_faults};
ghost use Rattle.mp4_check.specs.FragmentFaults.{time_faults, time_of, traf_faults, values_in, with_time};
ghost use Rattle.mp4_check.specs.FragmentValues.{fragment_header, value_of_traf, value_of_values};
ghost use Rattle.mp4_frame.specs.FourCC.{four_cc_of};
ghost use Rattle.mp4_frame.specs.declared.codes.TheConstants as names;
ghost use Rattle.mp4_movie.specs.Levels.{first_in};
ghost use Rattle.mp4_check.specs.Media.{AreInOrder};

use crate::fault::{Fault, Reason, What};
use crate::media::Media;
use crate::outside::runs_outside;
use crate::tracks::Met;
use crate::trafs::{FragmentHeader, TrafValues, fragment_header, traf_values};
use mp4_content::{in_fragment, or_memory};
use mp4_flat::TrexBox;
use mp4_frame::codes::{TFDT, TFHD};
use mp4_io::Failure;
use mp4_movie::{BoxLocation, first_in};
use mp4_show::Result;
use mp4_walk::{BoxWalk, Source, TreeBox};
use std::alloc::Global;
use std::collections::BTreeMap;

/// The facts of the rest of the file that the rules of fragments need.
#[derive(Drop)]
pub struct FileFacts {
    /// The media data of the file.
    pub media: Media,
    /// True if the file has a `moov`.
    pub has_moov: bool,
    /// The tracks of the movie.
    pub tracks: Met,
    /// The defaults of the tracks for their fragments.
    pub defaults: BTreeMap<u32, TrexBox>,
}

/// The place of a `traf` among the fragments of a file.
#[derive(Clone, Copy, Debug, PartialEq, Eq)]
pub struct TrafPlace {
    /// The position of its `moof`.
    pub moof: u64,
    /// The number of `moof` boxes before its `moof`.
    pub moof_number: u64,
    /// The number of `traf` boxes before it in its `moof`.
    pub number: u64,
}

/// The state that goes on from one `traf` to the next.
#[derive(Drop)]
pub struct Going {
    /// The end of the data of the last `traf`, or the position of the `moof` before its first `traf`, if it is known.
    pub end: Option<u64>,
    /// The time of the last fragment of each track that states one.
    pub times: BTreeMap<u32, u64>,
}

impl Going {
    /// Returns what is known before the first `moof` of a file.
    pub fn new(alloc: Global) -> Going
        ensures { IsGoing [] None result }
    {
        Going {
            end: None,
            times: BTreeMap::new(alloc),
        }
    }
}

/// Appends the fault `what` of the box at `position`, which is the first one at `codes` in the `traf` at `place`.
pub fn push_fault(
    alloc: Global,
    place: TrafPlace,
    codes: &[u32],
    position: u64,
    what: What,
    faults: &mut Vec<Fault>,
) -> Result<()>
    ensures { OnOk result (values_of faults.new.items ≡ values_of faults.old.items
        ++ in_that place.moof_number place.number codes.now position (Some what)) }
{
    let path = in_fragment(alloc, place.moof_number, place.number, codes)?;
    faults.push(Fault {
        position,
        path,
        what,
        reason: Reason::None,
    })?;
    Ok(())
}

/// Returns whether the runs of the fragment with the values `values` are in this file, at known places.
fn is_here(values: &TrafValues, facts: &FileFacts) -> bool
    ensures { (f : File) → AreFacts f facts.now → result ≡ is_here f (value_of_values values.now) }
{
    if values.is_absolute && !facts.has_moov {
        return false;
    }
    !facts.tracks.away.contains_key(&values.track_id)
}

/// Appends the fault of the runs of a `traf` at `position`, if some are outside the media data. `values` has its
/// values, if they are known.
fn run_faults(
    alloc: Global,
    place: TrafPlace,
    position: u64,
    values: &Option<TrafValues>,
    facts: &FileFacts,
    faults: &mut Vec<Fault>,
) -> Result<()>
    requires { AreInOrder 0 facts.now.media.extents.items }
    ensures { (f : File) → AreFacts f facts.now → OnOk result (values_of faults.new.items
        ≡ values_of faults.old.items
        ++ runs_faults f place.moof_number place.number position (value_of_traf values.now)) }
{
    let Some(values) = values else {
        return Ok(());
    };
    let Some(places) = &values.places else {
        return Ok(());
    };
    if !is_here(values, facts) {
        return Ok(());
    }
    match runs_outside(&places.runs, &facts.media) {
        Some(outside) => {
            let what = What::RunsOutside(outside);
            push_fault(alloc, place, &[], position, what, faults)
        }
        None => Ok(()),
    }
}

/// Appends the fault of the header of a `traf`, if its track is none of the movie. `header` has its values, if they are
/// known.
fn header_faults(
    alloc: Global,
    place: TrafPlace,
    header: Option<FragmentHeader>,
    facts: &FileFacts,
    faults: &mut Vec<Fault>,
) -> Result<()>
    ensures { (f : File) → AreFacts f facts.now → OnOk result (values_of faults.new.items
        ≡ values_of faults.old.items ++ header_faults f place.moof_number place.number header) }
{
    let Some(header) = header else {
        return Ok(());
    };
    if !facts.has_moov || facts.tracks.headers.contains_key(&header.track_id) {
        return Ok(());
    }
    let what = What::NoTrack(header.track_id);
    push_fault(alloc, place, &[TFHD], header.position, what, faults)
}

/// Returns the fault of a fragment that starts at `time`, if the one before it of the same track starts later.
fn time_what(time: u64, earlier: Option<u64>) -> Option<What>
    ensures { result ≡ option_and_then (back_from time) earlier }
{
    match earlier {
        Some(earlier) if time < earlier => Some(What::TimeBack { time, earlier }),
        _ => None,
    }
}

/// Returns the position of the first `tfdt` in a `traf`, or 0 if there is none. `boxes` begins with the boxes inside
/// the `traf`.
fn time_position(boxes: &[TreeBox]) -> u64
    ensures { result ≡ position_of (first_in 2 (four_cc_of names.TFDT) boxes.now) }
{
    match first_in(boxes, 2, TFDT) {
        Some(place) => place.found.position,
        None => 0,
    }
}

/// Appends the fault of the time of a `traf`, if it goes back, and stores the time. `values` has its values, if they
/// are known, and `boxes` begins with the boxes inside it.
fn time_faults(
    alloc: Global,
    place: TrafPlace,
    values: &Option<TrafValues>,
    boxes: &[TreeBox],
    times: &mut BTreeMap<u32, u64>,
    faults: &mut Vec<Fault>,
) -> Result<()>
    ensures faults { (ts : Times) → ((id : ℕ) → get nat_cmp times.old id ≡ time_of id ts)
        → OnOk result (values_of faults.new.items ≡ values_of faults.old.items
        ++ time_faults ts place.moof_number place.number boxes.now (value_of_traf values.now)) }
    ensures times { (ts : Times) → ((id : ℕ) → get nat_cmp times.old id ≡ time_of id ts)
        → OnOk result ((id : ℕ) → get nat_cmp times.new id
        ≡ time_of id (next_times ts (value_of_traf values.now))) }
{
    let Some(values) = values else {
        return Ok(());
    };
    let Some(time) = values.time else {
        return Ok(());
    };
    if let Some(what) = time_what(time, times.get(&values.track_id).copied()) {
        let position = time_position(boxes);
        push_fault(alloc, place, &[TFDT], position, what, faults)?;
    }
    times.insert(values.track_id, time)?;
    Ok(())
}

/// Returns the end of the data of a `traf` with these values.
fn end_of(values: &Option<TrafValues>) -> Option<u64>
    ensures { result ≡ next_end (value_of_traf values.now) }
{
    match values {
        Some(
            TrafValues {
                places: Some(places),
                ..
            },
        ) => places.end,
        _ => None,
    }
}

/// Appends the faults of the `traf` at `traf` with these values.
fn push_faults(
    alloc: Global,
    place: TrafPlace,
    traf: BoxLocation<'_>,
    header: Option<FragmentHeader>,
    values: &Option<TrafValues>,
    facts: &FileFacts,
    times: &mut BTreeMap<u32, u64>,
    faults: &mut Vec<Fault>,
) -> Result<()>
    requires { AreInOrder 0 facts.now.media.extents.items }
    ensures faults { (f : File) (ts : Times) → AreFacts f facts.now
        → ((id : ℕ) → get nat_cmp times.old id ≡ time_of id ts)
        → header ≡ fragment_header f.bytes traf.entry.after.now
        → OnOk result (values_of faults.new.items ≡ values_of faults.old.items
        ++ traf_faults f ts place.moof_number place.number (found_at traf.entry) (value_of_traf values.now)) }
    ensures times { (ts : Times) → ((id : ℕ) → get nat_cmp times.old id ≡ time_of id ts)
        → OnOk result ((id : ℕ) → get nat_cmp times.new id
        ≡ time_of id (next_times ts (value_of_traf values.now))) }
{
    run_faults(alloc, place, traf.found.position, values, facts, faults)?;
    header_faults(alloc, place, header, facts, faults)?;
    time_faults(alloc, place, values, traf.after, times, faults)
}

/// Returns the values of the `traf` at `traf`, unless it is not whole, or a box of it is missing or has a fault.
fn whole_values<S: Source>(
    alloc: Global,
    walk: &mut BoxWalk<S>,
    traf: BoxLocation<'_>,
    moof: u64,
    end: Option<u64>,
    facts: &FileFacts,
) -> std::result::Result<Option<TrafValues>, Failure>
    ensures value { (f : File) → walk.old.bytes ≡ Some f.bytes → AreFacts f facts.now
        → IfOk result (λ r. value_of_traf r ≡ values_in f moof end (found_at traf.entry)) }
    ensures kept { walk.new ≡ walk.old }
{
    if !traf.found.is_whole() {
        return Ok(None);
    }
    traf_values(alloc, walk, traf.after, moof, end, &facts.defaults)
}

/// Returns the faults of the `traf` at `traf`, and stores in `going` what goes on after it.
pub fn traf_faults<S: Source>(
    alloc: Global,
    walk: &mut BoxWalk<S>,
    traf: BoxLocation<'_>,
    place: TrafPlace,
    facts: &FileFacts,
    going: &mut Going,
) -> std::result::Result<Vec<Fault>, Failure>
    requires { AreInOrder 0 facts.now.media.extents.items }
    ensures value { (f : File) (times : Times) → walk.old.bytes ≡ Some f.bytes → AreFacts f facts.now
        → IsGoing times going.old.end going.old
        → IfOk result (λ faults. values_of faults.items
        ≡ traf_faults f times place.moof_number place.number (found_at traf.entry)
        (values_in f place.moof going.old.end (found_at traf.entry))) }
    ensures going { (f : File) (times : Times) → walk.old.bytes ≡ Some f.bytes → AreFacts f facts.now
        → IsGoing times going.old.end going.old
        → OnOk result (IsGoing (next_times times (values_in f place.moof going.old.end (found_at traf.entry)))
        (next_end (values_in f place.moof going.old.end (found_at traf.entry))) going.new) }
    ensures kept { walk.new ≡ walk.old }
{
    let header = fragment_header(alloc, walk, traf.after)?;
    let values = whole_values(alloc, walk, traf, place.moof, going.end, facts)?;
    going.end = end_of(&values);
    let mut faults = Vec::new(alloc);
    or_memory(push_faults(
        alloc,
        place,
        traf,
        header,
        &values,
        facts,
        &mut going.times,
        &mut faults,
    ))?;
    Ok(faults)
}
