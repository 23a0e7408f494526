//! An iterator over the samples of a track.

ghost use Rattle.std.specs.Prelude.{◌≡◌};
ghost use Rattle.std.specs.Iterator.{at_most};
ghost use Rattle.mp4_samples.specs.Samples.{AreConsistent};
ghost use Rattle.mp4_samples.specs.Gives.{begins};

use crate::sample::Sample;
use crate::state::{State, first_state, next_state};
use crate::tables::Tables;
use std::iter::FusedIterator;
use std::marker::Model;

/// The samples of a track, from the first to the last. The iterator visits each entry of a table once, so a sample
/// takes constant time on average. Contracts see a `Progress`.
#[derive(Drop)]
pub struct Samples<'a> {
    tables: Tables<'a>,
    state: State,
}

impl<'a> Model for Samples<'a> {
    ghost use Rattle.mp4_samples.specs.Gives.{Progress};
    ghost use Rattle.mp4_samples.specs.Steps.{IsInStep};

    ghost Value = { Progress };

    ghost view = { λ s. record { tables = s.tables; number = s.state.number } };

    ghost invariant = { λ s. IsInStep s.tables s.state };
}

impl<'a> Samples<'a> {
    /// Returns an iterator over the samples of `tables`, which agree with one another.
    pub(crate) fn new(tables: Tables<'a>) -> Samples<'a>
        requires { AreConsistent tables }
        ensures { result ≡ begins tables.entry }
    {
        Samples {
            tables,
            state: first_state(&tables),
        }
    }

    /// Returns the number of the next sample, counted from 0.
    pub fn number(&self) -> u32
        ensures { result ≡ self.now.number }
    {
        self.state.number
    }
}

impl<'a> Iterator for Samples<'a> {
    ghost use Rattle.mp4_samples.specs.Gives.{GivesSample, samples_left};

    type Item = Sample;

    ghost next_gives = { GivesSample };

    ghost remaining = { λ s. at_most (samples_left s) };

    #[inline]
    fn next(&mut self) -> Option<Sample> {
        if self.state.number >= self.tables.stsz.sample_count {
            return None;
        }
        let (sample, state) = next_state(&self.tables, &[], self.state);
        self.state = state;
        Some(sample)
    }
}

impl<'a> FusedIterator for Samples<'a> {}
