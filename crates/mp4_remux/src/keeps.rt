//! Whether a new file keeps the media of an old one.

ghost use Rattle.std.specs.Prelude.{◌≡◌, ℕ, IfOk, IfSome, OnOk, length};
ghost use Rattle.mp4_remux.specs.Pieces.{AreWithin, spelled};
ghost use Rattle.mp4_remux.specs.Carried.{CarriesMedia};
ghost use Rattle.mp4_remux.specs.Groups.{in_group};
ghost use Rattle.mp4_remux.specs.Told.{AreFragmentsOf};
ghost use Rattle.mp4_remux.specs.Whole.{KeepsMedia};

use crate::groups::{Groups, fragments_of};
use crate::pieces::Plan;
use crate::refusal::{Refusal, Stop, TrackPlace, in_fragments};
use crate::track::{check_track, same_id};
use mp4_movie::Movie;
use mp4_walk::Source;
use std::alloc::Global;

/// Returns the fragments of all tracks of `movie`.
pub(crate) fn groups_of<S: Source>(alloc: Global, movie: &mut Movie<S>) -> Result<Groups, Stop>
    ensures value { IfSome movie.old.bytes
        (λ B. IfOk result (λ groups. (id : ℕ) → AreFragmentsOf B id (in_group groups id))) }
    ensures kept { movie.new ≡ movie.old }
{
    match fragments_of(alloc, movie) {
        Ok(groups) => Ok(groups),
        Err(error) => Err(in_fragments(error)),
    }
}

/// Checks that every track of the movie `before` of the old file is one of the movie `after` of the new file, by the
/// origin of each byte of its samples.
fn check_tracks<S: Source, T: Source>(
    alloc: Global,
    before: &mut Movie<S>,
    after: &mut Movie<T>,
    plan: &Plan,
) -> Result<(), Stop>
    ensures value { OnOk result (IfSome before.old.bytes
        (λ B. IfSome after.old.bytes (λ C. CarriesMedia plan.now B C))) }
    ensures before { before.new ≡ before.old }
    ensures after { after.new ≡ after.old }
{
    let were = before.tracks(alloc)?;
    let are = after.tracks(alloc)?;
    if are.len() != were.len() {
        return Err(Stop::Refused(Refusal::Tracks {
            before: were.len(),
            after: are.len(),
        }));
    }
    let old = groups_of(alloc, before)?;
    let new = groups_of(alloc, after)?;
    for number in 0..were.len() {
        let track = TrackPlace {
            number: number.saturating_add(1),
            position: were[number].position,
        };
        let Some(id) = same_id(&were[number], &are[number]) else {
            return Err(Stop::Refused(Refusal::Headers(track)));
        };
        check_track(
            alloc,
            before,
            after,
            number,
            old.of_track(id),
            new.of_track(id),
            plan,
            track,
        )?;
    }
    Ok(())
}

/// Checks that the new file, whose movie is `after`, keeps the media of the old file, whose movie is `before`. The new
/// file is what `plan` spells out over the old file. No media data are read. Takes the memory of the fragments of both
/// files, and of the sample tables and the chunks of one track in both.
pub fn keeps_media<S: Source, T: Source>(
    alloc: Global,
    before: &mut Movie<S>,
    after: &mut Movie<T>,
    plan: &Plan,
) -> Result<(), Stop>
    ensures value { OnOk result (IfSome before.old.bytes (λ B. IfSome after.old.bytes
        (λ C. AreWithin (length B) plan.now → C ≡ spelled B plan.now → KeepsMedia B C))) }
    ensures before { before.new ≡ before.old }
    ensures after { after.new ≡ after.old }
{
    check_tracks(alloc, before, after, plan)
}
