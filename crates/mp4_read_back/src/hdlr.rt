//! The handler reference box.

ghost use Rattle.std.proofs.Common.{refl};
ghost use Rattle.mp4_declared.specs.OwnBox.{no_context};
ghost use Rattle.mp4_extra_tracks.specs.declared.hdlr.TheConstants.{NAMES};
ghost use Rattle.mp4_read_back.specs.CombinedLaws.{part_back};
ghost use Rattle.mp4_read_back.specs.HandlerLaws.{handler_comes};
ghost use Rattle.mp4_read_back.specs.Handlers.{handler_part};

use crate::ReadBack;
use mp4_extra_tracks::hdlr::Hdlr;

impl ReadBack for Hdlr {
    ghost Fits = { λ b. handler_part.Fits no_context b };

    ghost normal = { λ b. b };

    ghost back = { part_back handler_part NAMES.now handler_comes refl };
}
