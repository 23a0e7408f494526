//! The dependencies of samples, as an `sdtp` has them: a byte for each sample (ISO/IEC 14496-12, 8.6.4).

use crate::forms::moof::usual_dependencies;
use crate::forms::refusal::FormStop;
use mp4_movie::TrackFragment;
use mp4_tables::TrunBox;

/// Returns the dependencies in the flags of a sample of a fragment.
fn dependencies_in(flags: u32) -> u8 {
    (flags / 0x10_0000 % 0x100) as u8
}

/// Returns the flags of sample `index` of `run`, if the run has no flags for it and the default is `default`.
fn flags_at(run: &TrunBox, index: u32, default: u32) -> u32 {
    let unlisted = if index == 0 {
        run.first_sample_flags.unwrap_or(default)
    } else {
        default
    };
    match run.sample_flags.as_slice().get(index as usize) {
        Some(flags) => *flags,
        None => unlisted,
    }
}

/// Adds the dependencies of the samples of `run`.
fn push_run(all: &mut Vec<u8>, run: &TrunBox, default: u32) -> Result<(), FormStop> {
    for index in 0..run.sample_count {
        all.push(dependencies_in(flags_at(run, index, default)))?;
    }
    Ok(())
}

/// Returns the dependencies of the samples of a track: `known` are those of the first samples in tables, of which there
/// are `count`, and the others are in `fragments`. A byte of 0 says that nothing is known.
pub(crate) fn all_dependencies(
    known: Vec<u8>,
    count: u32,
    fragments: &[TrackFragment],
) -> Result<Vec<u8>, FormStop> {
    let mut all = known;
    all.resize(count as usize, 0)?;
    for fragment in fragments {
        let default = fragment
            .header
            .default_sample_flags
            .unwrap_or(fragment.defaults.default_sample_flags);
        for run in &fragment.runs {
            push_run(&mut all, run, default)?;
        }
    }
    Ok(all)
}

/// Returns whether the dependencies of a sample say more than its sync flag.
pub(crate) fn says_more(dependencies: u8, is_sync: bool) -> bool {
    dependencies != 0 && dependencies != usual_dependencies(is_sync)
}
