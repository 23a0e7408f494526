//! Parts that are shown as one field with members.

ghost use Rattle.mp4_read_back.specs.Structure.{group_part};
ghost use Rattle.mp4_read_back.specs.StructureLaws.{group_comes};
ghost use Rattle.mp4_shown.specs.Event.{Text};

use crate::ComesBack;
use mp4_shown::Group;

impl<S: ComesBack> ComesBack for Group<S> {
    ghost Names = { Text × S.Names };

    ghost Value = { S.Value };

    ghost part = { group_part S.part };

    ghost comes = { group_comes S.part S.comes };
}
