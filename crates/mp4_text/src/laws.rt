//! Laws of the boxes of this crate, besides the laws of every box. You can call each of these functions to use its law
//! in a proof. It does nothing when it runs.

ghost use Rattle.std.specs.Prelude.{◌≡◌, ◌+◌, ℕ, List};
ghost use Rattle.mp4_frame.specs.Children.{children};
ghost use Rattle.mp4_frame.specs.Equality.{IsEquality};
ghost use Rattle.mp4_frame.specs.declared.codes.TheConstants as codes;
ghost use Rattle.mp4_text.specs.Dref.{reads_dref};

use crate::{DataBox, DinfBox, DrefBox, EmsgBox, FtypBox, HdlrBox, UrlBox};

/// States that every box in a `dinf` is read: a search for more boxes than the `dinf` has bytes has the same result.
pub fn dinf_is_read_to_its_end()
    ensures { (bytes : List ℕ) (start size more : ℕ)
        → children reads_dref codes.DREF bytes start size (size + more) 8
        ≡ children reads_dref codes.DREF bytes start size size 8 }
{}

/// States that `==` compares all fields, for each type of boxes.
pub fn equality_is_of_all_fields()
    ensures ftyp { IsEquality ⟦<FtypBox as PartialEq>⟧.eq }
    ensures hdlr { IsEquality ⟦<HdlrBox as PartialEq>⟧.eq }
    ensures data { IsEquality ⟦<DataBox as PartialEq>⟧.eq }
    ensures emsg { IsEquality ⟦<EmsgBox as PartialEq>⟧.eq }
    ensures url { IsEquality ⟦<UrlBox as PartialEq>⟧.eq }
    ensures dref { IsEquality ⟦<DrefBox as PartialEq>⟧.eq }
    ensures dinf { IsEquality ⟦<DinfBox as PartialEq>⟧.eq }
{}
