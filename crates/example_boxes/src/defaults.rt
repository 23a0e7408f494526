//! Callers of `mp4_flat`, whose contracts state the values of defaults.

ghost use Rattle.std.specs.Prelude.{◌≡◌};

use mp4_flat::{MehdBox, VmhdBox};

/// Returns the default `mehd`, with a duration of 0.
pub fn default_extent() -> MehdBox
    ensures { result ≡ record { version = 0; flags = 0; fragment_duration = 0 } }
{
    MehdBox::default()
}

/// Returns the default `vmhd`, with a black color.
pub fn default_video() -> VmhdBox
    ensures { result ≡ record
        { version = 0; flags = 0; graphics_mode = 0; op_color = record { red = 0; green = 0; blue = 0 } } }
{
    VmhdBox::default()
}
