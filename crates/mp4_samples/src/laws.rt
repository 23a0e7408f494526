//! Laws that follow from the definitions. The bodies are empty, since the contracts are only about the definitions.

ghost use Rattle.mp4_samples.specs.Laws.{SampleIsUnique, DisagreementRefutes, SamplesAreAdjacent, SamplesDoNotOverlap};
ghost use Rattle.mp4_samples.specs.Laws.{TimesFollow, TimesDoNotDecrease, DurationsAddUp, EntriesAddUp};
ghost use Rattle.mp4_samples.specs.FragmentLaws.{FragmentSampleIsUnique, RunSamplesAreAdjacent, RunSamplesDoNotOverlap};
ghost use Rattle.mp4_samples.specs.FragmentLaws.{FragmentTimesFollow, FragmentTimesDoNotDecrease, FragmentBegins};
ghost use Rattle.mp4_samples.specs.FragmentLaws.{FragmentDurationsAddUp, FragmentCountsAddUp};
ghost use Rattle.mp4_samples.specs.FragmentLaws.{FragmentSamplesAreCounted};

/// Proves that the tables determine each sample, so that the iterator and `sample` give the same one.
#[tactic(auto, using(crate::proofs::Unique::unique))]
pub fn sample_is_unique()
    ensures { SampleIsUnique }
{}

/// Proves that tables with a disagreement are not consistent.
#[tactic(auto, using(crate::proofs::Refuted::refutes))]
pub fn disagreement_refutes()
    ensures { DisagreementRefutes }
{}

/// Proves that each sample of a chunk begins where the sample before it ends, and that no two share a byte.
#[tactic(auto, using(crate::proofs::Order::adjacent, crate::proofs::Order::apart))]
pub fn samples_of_a_chunk_follow()
    ensures adjacent { SamplesAreAdjacent }
    ensures apart { SamplesDoNotOverlap }
{}

/// Proves that a sample starts when the sample before it ends, and that no later sample starts before then.
#[tactic(auto, using(crate::proofs::Order::follow, crate::proofs::Order::in_order))]
pub fn times_follow()
    ensures next { TimesFollow }
    ensures order { TimesDoNotDecrease }
{}

/// Proves that the last sample ends at the sum of all durations. This is the sum over the entries of `stts` if they
/// count as many samples as `stsz`.
#[tactic(auto, using(crate::proofs::Order::add_up, crate::proofs::Order::entries_add_up))]
pub fn durations_add_up()
    ensures samples { DurationsAddUp }
    ensures entries { EntriesAddUp }
{}

/// Proves that the boxes of a fragment determine each sample.
pub fn fragment_sample_is_unique()
    ensures { FragmentSampleIsUnique }
{}

/// Proves that each sample of a run of a fragment begins where the sample before it ends, and that no two share a byte.
pub fn samples_of_a_run_follow()
    ensures adjacent { RunSamplesAreAdjacent }
    ensures apart { RunSamplesDoNotOverlap }
{}

/// Proves that a sample of a fragment starts when the sample before it ends, even if that is in another run. The first
/// sample starts when the fragment does.
pub fn fragment_times_follow()
    ensures next { FragmentTimesFollow }
    ensures order { FragmentTimesDoNotDecrease }
    ensures first { FragmentBegins }
{}

/// Proves that a fragment has as many samples as its runs count, and that the last one ends at the sum of all
/// durations.
pub fn fragment_adds_up()
    ensures counts { FragmentCountsAddUp }
    ensures counted { FragmentSamplesAreCounted }
    ensures durations { FragmentDurationsAddUp }
{}
