//! The HLS playlist of segments (RFC 8216).

use mp4_remux::forms::FragmentPart;
use std::alloc::{AllocError, Global};

/// The number of microseconds in a second.
const SECOND: u64 = 1_000_000;

/// Returns the name of segment `number`, counted from 1.
pub(crate) fn segment_name(alloc: Global, number: usize) -> Result<String, AllocError> {
    format!(in alloc; "segment-{number}.m4s")
}

/// Returns `ticks` of the timescale `scale` in microseconds, rounded.
fn microseconds_of(ticks: u64, scale: u32) -> u64 {
    if scale == 0 {
        return 0;
    }
    let wide = u128::from(scale);
    let parts = u128::from(ticks) * u128::from(SECOND);
    u64::try_from(parts.saturating_add(wide / 2) / wide).unwrap_or(u64::MAX)
}

/// Returns the longest duration of a segment in seconds, rounded up.
fn longest(parts: &[FragmentPart], scale: u32) -> u64 {
    let mut most: u64 = 0;
    for part in parts {
        let seconds = microseconds_of(part.duration, scale).div_ceil(SECOND);
        most = most.max(seconds);
    }
    most
}

/// Returns whether each segment begins with a sync sample.
fn are_independent(parts: &[FragmentPart]) -> bool {
    for part in parts {
        if !part.is_sync {
            return false;
        }
    }
    true
}

/// Returns the playlist of the segments `parts`, whose times are in the timescale `scale`.
pub(crate) fn playlist_of(
    alloc: Global,
    parts: &[FragmentPart],
    scale: u32,
) -> Result<String, AllocError> {
    let most = longest(parts, scale);
    let mut text = format!(in alloc;
        "#EXTM3U\n#EXT-X-VERSION:7\n#EXT-X-TARGETDURATION:{most}\n#EXT-X-PLAYLIST-TYPE:VOD\n"
    )?;
    if are_independent(parts) {
        text.push_str("#EXT-X-INDEPENDENT-SEGMENTS\n")?;
    }
    text.push_str("#EXT-X-MAP:URI=\"init.mp4\"\n")?;
    let mut number: usize = 1;
    for part in parts {
        let all = microseconds_of(part.duration, scale);
        let (seconds, others) = (all / SECOND, all % SECOND);
        let name = segment_name(alloc, number)?;
        let line = format!(in alloc; "#EXTINF:{seconds}.{others:06},\n{name}\n")?;
        text.push_str(line.as_str())?;
        number = number.saturating_add(1);
    }
    text.push_str("#EXT-X-ENDLIST\n")?;
    Ok(text)
}
