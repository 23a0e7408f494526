//! Codes of four characters, and tags with what they say that follows.

ghost use Rattle.mp4_declared.specs.declared.typed.OfType.{OfType};
ghost use Rattle.mp4_frame.specs.declared.four_cc.FourCC.{FourCC};
ghost use Rattle.mp4_read_back.specs.CodeLaws.{code_comes, typed_comes};
ghost use Rattle.mp4_read_back.specs.Codes.{code_part, typed_part};
ghost use Rattle.mp4_shown.specs.Event.{Text};

use crate::ComesBack;
use mp4_declared::{Code, Tag, Typed};

impl ComesBack for Code {
    ghost Names = { Text };

    ghost Value = { FourCC };

    ghost part = { code_part };

    ghost comes = { code_comes };
}

impl<K: Tag, S: ComesBack, T: ComesBack> ComesBack for Typed<K, S, T> {
    ghost Names = { Text × (S.Names × T.Names) };

    ghost Value = { OfType S.Value T.Value };

    ghost part = { typed_part K.TAG S.part T.part };

    ghost comes = { typed_comes K.TAG K.is_small S.part T.part S.comes T.comes };
}
