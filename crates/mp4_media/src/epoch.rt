//! Creation times.

ghost use Rattle.std.specs.Prelude.{◌≡◌, ◌+◌, ◌<◌, ◌≤◌};

/// The number of seconds from the start of 1904 to the start of 1970.
const SECONDS_TO_1970: u64 = 2_082_844_800;

/// Converts `time` from seconds since the start of 1904 (ISO/IEC 14496-12, 8.2.2) to seconds since the start of 1970.
/// A `time` below 2082844800, the start of 1970, is returned unchanged, as if it counted from 1970 already.
pub fn creation_time(time: u64) -> u64
    ensures since_1904 { 2082844800 ≤ time → result + 2082844800 ≡ time }
    ensures since_1970 { time < 2082844800 → result ≡ time }
{
    if time >= SECONDS_TO_1970 {
        time - SECONDS_TO_1970
    } else {
        time
    }
}
