//! Laws of the boxes of this crate, in addition to those of every box. Each function's contract is a law, and its body
//! is empty: nothing is read or written.

ghost use Rattle.std.specs.Prelude.{◌≡◌, ◌+◌, ◌<◌, ◌≤◌, ℕ, List, length, Ok};
ghost use Rattle.mp4_frame.specs.Equality.{IsEquality};
ghost use Rattle.mp4_frame.specs.OneChild.{child_head};
ghost use Rattle.mp4_frame.specs.Reading.{TakesNone};
ghost use Rattle.mp4_frame.specs.declared.codes.TheConstants as codes;
ghost use Rattle.mp4_frame.specs.declared.frame.Frame.{Frame};
ghost use Rattle.mp4_sound.specs.DecoderConfig.{in_decoder_config};
ghost use Rattle.mp4_sound.specs.EsDescriptor.{in_es_descriptor};
ghost use Rattle.mp4_sound.specs.Esds.{in_esds};
ghost use Rattle.mp4_sound.specs.Stsd.{reads_stsd};
ghost use Rattle.mp4_sound.specs.Walk.{walk};

use crate::{
    DecoderConfigDescriptor, DecoderSpecificDescriptor, ESDescriptor, EsdsBox, Mp4aBox,
    SLConfigDescriptor, StsdBox,
};

/// Shows that every descriptor of a walk is read: a larger limit than the number of bytes changes nothing.
pub fn descriptors_are_read_to_their_end()
    ensures in_esds { (bytes : List ℕ) (bound from more : ℕ) → 0 < from → from ≤ length bytes
        → walk in_esds bytes bound (length bytes + more) from ≡ walk in_esds bytes bound (length bytes) from }
    ensures in_es_descriptor { (bytes : List ℕ) (bound from more : ℕ) → 0 < from → from ≤ length bytes
        → walk in_es_descriptor bytes bound (length bytes + more) from
        ≡ walk in_es_descriptor bytes bound (length bytes) from }
    ensures in_decoder_config { (bytes : List ℕ) (bound from more : ℕ) → 0 < from → from ≤ length bytes
        → walk in_decoder_config bytes bound (length bytes + more) from
        ≡ walk in_decoder_config bytes bound (length bytes) from }
{}

/// Shows that reading an `stsd` takes no memory, unless its entry is an `avc1`.
pub fn only_avc1_takes_memory()
    ensures { (bytes : List ℕ) (start size : ℕ)
        → (16 < size → (entry : Frame) → (child_head bytes size 16).outcome ≡ Ok entry → ¬ (entry.code ≡ codes.AVC1))
        → TakesNone (reads_stsd bytes start size) }
{}

/// Shows that `==` of two values compares all of their fields.
pub fn equality_is_of_all_fields()
    ensures esds { IsEquality ⟦<EsdsBox as PartialEq>⟧.eq }
    ensures mp4a { IsEquality ⟦<Mp4aBox as PartialEq>⟧.eq }
    ensures stsd { IsEquality ⟦<StsdBox as PartialEq>⟧.eq }
    ensures es_descriptor { IsEquality ⟦<ESDescriptor as PartialEq>⟧.eq }
    ensures decoder_config { IsEquality ⟦<DecoderConfigDescriptor as PartialEq>⟧.eq }
    ensures decoder_specific { IsEquality ⟦<DecoderSpecificDescriptor as PartialEq>⟧.eq }
    ensures sl_config { IsEquality ⟦<SLConfigDescriptor as PartialEq>⟧.eq }
{}
