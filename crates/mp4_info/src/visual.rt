//! The profile and level of MPEG-4 video.

ghost use Rattle.std.specs.Prelude.{◌≡◌};
ghost use Rattle.mp4_info.specs.Visual.{is_start, level_in, visual_level};

/// Returns whether `bytes` begin with the start code of a visual object sequence, and a byte follows it.
fn is_start(bytes: &[u8]) -> bool
    ensures { result ≡ is_start bytes.now }
{
    bytes.len() > 4 && bytes[0] == 0 && bytes[1] == 0 && bytes[2] == 1 && bytes[3] == 0xB0
}

/// Returns the byte after the start code with which `bytes` begin, or `None` if they begin otherwise.
#[tactic(auto, unfolding(crate::specs::Visual::level_in))]
fn level_in(bytes: &[u8]) -> Option<u8>
    ensures { result ≡ level_in bytes.now }
{
    if is_start(bytes) {
        Some(bytes[4])
    } else {
        None
    }
}

/// Returns the byte after the first start code of a visual object sequence in `bytes`, the content of an `esds`: the
/// profile and level of MPEG-4 video. Returns `None` if there is no such byte.
pub fn visual_level(bytes: &[u8]) -> Option<u8>
    ensures { result ≡ visual_level bytes.now }
{
    for index in 0..bytes.len() {
        if let Some(level) = level_in(&bytes[index..]) {
            return Some(level);
        }
    }
    None
}
