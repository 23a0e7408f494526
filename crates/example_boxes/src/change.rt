//! A change of a box.

ghost use Rattle.std.specs.Prelude.{◌≡◌};

use crate::ssix::SsixBox;

/// Sets the flags of `ssix` to `flags`.
pub fn set_flags(ssix: &mut SsixBox, flags: u32)
    ensures { ssix.new ≡ record ssix.old { flags = flags } }
{
    ssix.flags = flags;
}
