//! The laws of equality of tables and their entries, and the numbers of flags. You can call each of these functions to
//! use its law in a proof. It does nothing when it runs.

ghost use Rattle.std.specs.Prelude.{◌≡◌};
ghost use Rattle.mp4_frame.specs.Equality.{IsEquality};
ghost use Rattle.mp4_tables.specs.declared.tfhd.TheConstants.TfhdBox as tfhd;
ghost use Rattle.mp4_tables.specs.declared.trun.TheConstants.TrunBox as trun;

use crate::{
    Co64Box, CttsBox, CttsEntry, ElstBox, ElstEntry, StcoBox, StscBox, StscEntry, StssBox, StszBox,
    SttsBox, SttsEntry, TfhdBox, TrunBox,
};

/// States that `==` compares all fields, for each type of entries.
pub fn equality_of_entries_is_of_all_fields()
    ensures stts { IsEquality ⟦<SttsEntry as PartialEq>⟧.eq }
    ensures ctts { IsEquality ⟦<CttsEntry as PartialEq>⟧.eq }
    ensures stsc { IsEquality ⟦<StscEntry as PartialEq>⟧.eq }
    ensures elst { IsEquality ⟦<ElstEntry as PartialEq>⟧.eq }
{}

/// States that `==` compares all fields, for each type of boxes.
pub fn equality_is_of_all_fields()
    ensures stco { IsEquality ⟦<StcoBox as PartialEq>⟧.eq }
    ensures co64 { IsEquality ⟦<Co64Box as PartialEq>⟧.eq }
    ensures stts { IsEquality ⟦<SttsBox as PartialEq>⟧.eq }
    ensures ctts { IsEquality ⟦<CttsBox as PartialEq>⟧.eq }
    ensures stss { IsEquality ⟦<StssBox as PartialEq>⟧.eq }
    ensures stsz { IsEquality ⟦<StszBox as PartialEq>⟧.eq }
    ensures stsc { IsEquality ⟦<StscBox as PartialEq>⟧.eq }
    ensures elst { IsEquality ⟦<ElstBox as PartialEq>⟧.eq }
    ensures tfhd { IsEquality ⟦<TfhdBox as PartialEq>⟧.eq }
    ensures trun { IsEquality ⟦<TrunBox as PartialEq>⟧.eq }
{}

/// States the flags of the optional fields of a `tfhd` (ISO/IEC 14496-12, 8.8.7).
pub fn flags_of_tfhd()
    ensures base_data_offset { tfhd.FLAG_BASE_DATA_OFFSET ≡ 0x01 }
    ensures sample_description_index { tfhd.FLAG_SAMPLE_DESCRIPTION_INDEX ≡ 0x02 }
    ensures default_sample_duration { tfhd.FLAG_DEFAULT_SAMPLE_DURATION ≡ 0x08 }
    ensures default_sample_size { tfhd.FLAG_DEFAULT_SAMPLE_SIZE ≡ 0x10 }
    ensures default_sample_flags { tfhd.FLAG_DEFAULT_SAMPLE_FLAGS ≡ 0x20 }
{}

/// States the flags of the optional fields and of the lists of a `trun` (ISO/IEC 14496-12, 8.8.8).
pub fn flags_of_trun()
    ensures data_offset { trun.FLAG_DATA_OFFSET ≡ 0x01 }
    ensures first_sample_flags { trun.FLAG_FIRST_SAMPLE_FLAGS ≡ 0x04 }
    ensures sample_duration { trun.FLAG_SAMPLE_DURATION ≡ 0x100 }
    ensures sample_size { trun.FLAG_SAMPLE_SIZE ≡ 0x200 }
    ensures sample_flags { trun.FLAG_SAMPLE_FLAGS ≡ 0x400 }
    ensures sample_cts { trun.FLAG_SAMPLE_CTS ≡ 0x800 }
{}
