//! Whether a new file is an old file in its other form.

ghost use Rattle.std.specs.Prelude.{◌≡◌, None, Some, length, IfOk, IfSome, OnOk};
ghost use Rattle.mp4_frame.specs.FourCC.{four_cc_of};
ghost use Rattle.mp4_frame.specs.declared.codes.TheConstants as codes;
ghost use Rattle.mp4_movie.specs.Levels.{first_in};
ghost use Rattle.mp4_walk.specs.FileBoxes.{boxes_of};
ghost use Rattle.mp4_remux.specs.Forms.{ChangesForm, HasEmptyTables, HasForm, IsFragmented, listed};
ghost use Rattle.mp4_remux.specs.declared.forms.form.Form.{Form};
ghost use Rattle.mp4_remux.specs.Pieces.{AreWithin, spelled};

use crate::forms::form::Form;
use crate::forms::refusal::FormRefusal;
use crate::keeps::keeps_media;
use crate::pieces::{Plan, new_file};
use crate::planned::PlannedFile;
use crate::refusal::{Stop, TrackPlace, in_track};
use mp4_frame::codes;
use mp4_movie::{Movie, SampleBoxes, first_in};
use mp4_walk::{Source, TreeBox};
use std::alloc::Global;

/// Returns the number of samples in `tables`, or 0 if there are none.
fn listed(tables: &Option<SampleBoxes>) -> u32
    ensures { result ≡ listed tables.now }
{
    match tables {
        Some(boxes) => boxes.stsz.sample_count,
        None => 0,
    }
}

/// Checks that the tables of track `number`, counted from 0, list no samples.
fn check_empty<S: Source>(
    alloc: Global,
    movie: &mut Movie<S>,
    number: usize,
    track: TrackPlace,
) -> Result<(), Stop>
    ensures value { OnOk result (IfSome movie.old.bytes (λ C. HasEmptyTables C number)) }
    ensures kept { movie.new ≡ movie.old }
{
    match movie.samples(alloc, number) {
        Ok(tables) => {
            if listed(&tables) > 0 {
                return Err(Stop::from(FormRefusal::Listed(track)));
            }
            Ok(())
        }
        Err(error) => Err(in_track(error, track)),
    }
}

/// Checks that the tables of `movie` list no samples.
fn check_fragmented<S: Source>(alloc: Global, movie: &mut Movie<S>) -> Result<(), Stop>
    ensures value { OnOk result (IfSome movie.old.bytes IsFragmented) }
    ensures kept { movie.new ≡ movie.old }
{
    let tracks = movie.tracks(alloc)?;
    for number in 0..tracks.len() {
        let track = TrackPlace {
            number: number.saturating_add(1),
            position: tracks[number].position,
        };
        check_empty(alloc, movie, number, track)?;
    }
    Ok(())
}

/// Checks that there is no `moof` in the top level of `boxes`.
fn check_joined(boxes: &[TreeBox]) -> Result<(), Stop>
    ensures { OnOk result (first_in 0 (four_cc_of codes.MOOF) boxes.now ≡ None) }
{
    match first_in(boxes, 0, codes::MOOF) {
        Some(_) => Err(Stop::from(FormRefusal::Left)),
        None => Ok(()),
    }
}

/// Checks that all samples of `movie` are listed as in `form`.
fn check_form<S: Source>(alloc: Global, movie: &mut Movie<S>, form: Form) -> Result<(), Stop>
    requires boxes { IfSome movie.old.bytes (λ C. movie.old.boxes ≡ boxes_of C) }
    ensures value { OnOk result (IfSome movie.old.bytes (HasForm form)) }
    ensures kept { movie.new ≡ movie.old }
{
    match form {
        Form::Fragments => check_fragmented(alloc, movie),
        Form::Tables => check_joined(movie.boxes()),
    }
}

/// Returns the movie of `new`, if all its samples are listed as in `form`.
fn open_in<S: Source>(alloc: Global, new: S, form: Form) -> Result<Movie<S>, Stop>
    ensures bytes { IfOk result (λ movie. movie.bytes ≡ S.all new) }
    ensures form { IfOk result (λ _. IfSome (S.all new) (HasForm form)) }
{
    let mut movie = Movie::open(alloc, new)?;
    check_form(alloc, &mut movie, form)?;
    Ok(movie)
}

/// Returns the source `old` of the old file, if the new file that `plan` spells out over it is that file in `form`.
/// `new` is a source of the new file.
fn checked<S: Source, T: Source>(
    alloc: Global,
    form: Form,
    old: S,
    new: T,
    plan: &Plan,
) -> Result<S, Stop>
    ensures source { IfOk result (λ source. S.all source ≡ S.all old) }
    ensures form { IfOk result (λ _. IfSome (S.all old)
        (λ B. AreWithin (length B) plan.now → T.all new ≡ Some (spelled B plan.now)
        → ChangesForm form B (spelled B plan.now))) }
{
    let mut before = Movie::open(alloc, old)?;
    let mut after = open_in(alloc, new, form)?;
    keeps_media(alloc, &mut before, &mut after, plan)?;
    let (walk, _) = before.into_parts();
    Ok(walk.into_source())
}

/// Returns the new file that `plan` spells out over the file `source`, if every track keeps its samples, as many and in
/// the same order, each with the same times, sync flag, description and bytes, and if all samples are listed as in
/// `form`. `again` is a second source of the same file, since the old and the new file are compared. It does not matter
/// how the plan was made. Needs the memory that `keeps_media` does.
pub fn check_in_form<S: Source, T: Source>(
    alloc: Global,
    form: Form,
    source: S,
    again: T,
    plan: Plan,
) -> Result<PlannedFile<S>, Stop>
    ensures source { IfOk result (λ p. S.all p.source ≡ S.all source) }
    ensures plan { IfOk result (λ p. p.plan.value ≡ plan) }
    ensures within { IfOk result (λ p. IfSome (S.all source) (λ B. AreWithin (length B) p.plan.value)) }
    ensures form { IfOk result (λ p. IfSome (S.all source)
        (λ B. T.all again ≡ Some B → ChangesForm form B (spelled B p.plan.value))) }
{
    let PlannedFile { source, plan } = PlannedFile::new(alloc, source, plan)?;
    let new = new_file(again, &plan)?;
    let source = checked(alloc, form, source, new, &plan)?;
    Ok(PlannedFile { source, plan })
}
