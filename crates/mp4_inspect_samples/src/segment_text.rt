//! The text of the row of a `moof`, in each form.

ghost use Rattle.std.specs.Prelude.{◌≡◌, ◌++◌, string_bytes, OnOk};
ghost use Rattle.mp4_inspect_samples.specs.SegmentText.{csv_bytes, csv_segment, csv_times, json_bytes, json_end};
ghost use Rattle.mp4_inspect_samples.specs.SegmentText.{json_front, json_segment, json_times, maybe_time_column};
ghost use Rattle.mp4_inspect_samples.specs.SegmentText.{plain_bytes, plain_segment, plain_times, segment_text};
ghost use Rattle.mp4_inspect_samples.specs.SegmentText.{wide_maybe_column, wide_maybe_time_column};

use crate::clock::Clock;
use crate::row_text::{
    Form, push_maybe, push_number, push_padded, push_time_column, push_wide, push_wide_time,
};
use std::alloc::AllocError;

/// The row of a `moof`: its bytes with those of its media data, and the times of its first fragment.
#[derive(Clone, Copy, Debug, PartialEq, Eq)]
pub struct Segment {
    /// Its number in the file, starting at 1.
    pub number: u64,
    /// The position of the `moof`, in bytes.
    pub offset: u64,
    /// The number of bytes from the `moof` to the next `moof`, or to the end of the last media data.
    pub size: u64,
    /// The track_ID of the first fragment, if it can be read.
    pub track: Option<u32>,
    /// The decode time of the first sample of the first fragment, in the timescale of its media, if it is known.
    pub start: Option<u64>,
    /// The duration of the samples of the first fragment, in the timescale of its media, if it is known.
    pub duration: Option<u64>,
    /// The timescale of the media of that track, and the unit in which times are written.
    pub clock: Clock,
}

/// Appends a time after `before`, or `unknown` if it is unknown.
#[tactic(auto, unfolding(crate::specs::SegmentText::maybe_time_column))]
fn push_maybe_time(
    before: &str,
    unknown: &str,
    clock: Clock,
    time: Option<u64>,
    out: &mut String,
) -> Result<(), AllocError>
    ensures { OnOk result
        (string_bytes out.new ≡ string_bytes out.old ++ maybe_time_column before.now unknown.now clock time) }
{
    match time {
        Some(time) => push_time_column(before, unknown, clock, time, out),
        None => {
            out.push_str(before)?;
            out.push_str(unknown)
        }
    }
}

/// Appends a number of a width after `before`, or a dash if it is unknown.
#[tactic(auto, unfolding(crate::specs::SegmentText::wide_maybe_column))]
fn push_wide_maybe(
    before: &str,
    width: usize,
    number: Option<u32>,
    out: &mut String,
) -> Result<(), AllocError>
    ensures { OnOk result
        (string_bytes out.new ≡ string_bytes out.old ++ wide_maybe_column before.now width number) }
{
    match number {
        Some(number) => push_wide(before, width, u64::from(number), out),
        None => push_padded(before, width, "-", out),
    }
}

/// Appends a time of a width after `before`, or a dash if it is unknown. `cell` has room for its digits.
#[tactic(auto, unfolding(crate::specs::SegmentText::wide_maybe_time_column))]
fn push_wide_maybe_time(
    before: &str,
    width: usize,
    clock: Clock,
    time: Option<u64>,
    cell: &mut String,
    out: &mut String,
) -> Result<(), AllocError>
    ensures { OnOk result
        (string_bytes out.new ≡ string_bytes out.old ++ wide_maybe_time_column before.now width clock time) }
{
    match time {
        Some(time) => push_wide_time(before, width, clock, time, cell, out),
        None => push_padded(before, width, "-", out),
    }
}

/// Appends the number and the bytes of a row, as numbers between commas.
#[tactic(auto, unfolding(crate::specs::SegmentText::csv_bytes))]
fn push_csv_bytes(row: &Segment, out: &mut String) -> Result<(), AllocError>
    ensures { OnOk result (string_bytes out.new ≡ string_bytes out.old ++ csv_bytes row.now) }
{
    push_number("", row.number, out)?;
    push_number(",", row.offset, out)?;
    push_number(",", row.size, out)
}

/// Appends the track and the times of a row, as numbers between commas.
#[tactic(auto, unfolding(crate::specs::SegmentText::csv_times))]
fn push_csv_times(row: &Segment, out: &mut String) -> Result<(), AllocError>
    ensures { OnOk result (string_bytes out.new ≡ string_bytes out.old ++ csv_times row.now) }
{
    push_maybe(",", row.track, "", out)?;
    push_maybe_time(",", "", row.clock, row.start, out)?;
    push_maybe_time(",", "", row.clock, row.duration, out)?;
    push_maybe(",", row.clock.timescale, "", out)
}

/// Appends a row as a line of numbers between commas.
#[tactic(auto, unfolding(crate::specs::SegmentText::csv_segment))]
fn push_csv(row: &Segment, out: &mut String) -> Result<(), AllocError>
    ensures { OnOk result (string_bytes out.new ≡ string_bytes out.old ++ csv_segment row.now) }
{
    push_csv_bytes(row, out)?;
    push_csv_times(row, out)?;
    out.push_str("\n")
}

/// Appends the number and the bytes of a row, as members of a JSON object.
#[tactic(auto, unfolding(crate::specs::SegmentText::json_bytes))]
fn push_json_bytes(row: &Segment, out: &mut String) -> Result<(), AllocError>
    ensures { OnOk result (string_bytes out.new ≡ string_bytes out.old ++ json_bytes row.now) }
{
    push_number("{\"number\": ", row.number, out)?;
    push_number(", \"offset\": ", row.offset, out)?;
    push_number(", \"size\": ", row.size, out)
}

/// Appends the track and the start of a row, as members of a JSON object.
#[tactic(auto, unfolding(crate::specs::SegmentText::json_times))]
fn push_json_times(row: &Segment, out: &mut String) -> Result<(), AllocError>
    ensures { OnOk result (string_bytes out.new ≡ string_bytes out.old ++ json_times row.now) }
{
    push_maybe(", \"track\": ", row.track, "null", out)?;
    push_maybe_time(", \"start\": ", "null", row.clock, row.start, out)
}

/// Appends the bytes, the track and the start of a row, as members of a JSON object.
#[tactic(auto, unfolding(crate::specs::SegmentText::json_front))]
fn push_json_front(row: &Segment, out: &mut String) -> Result<(), AllocError>
    ensures { OnOk result (string_bytes out.new ≡ string_bytes out.old ++ json_front row.now) }
{
    push_json_bytes(row, out)?;
    push_json_times(row, out)
}

/// Appends the duration and the timescale of a row, as members of a JSON object.
#[tactic(auto, unfolding(crate::specs::SegmentText::json_end))]
fn push_json_end(row: &Segment, out: &mut String) -> Result<(), AllocError>
    ensures { OnOk result (string_bytes out.new ≡ string_bytes out.old ++ json_end row.now) }
{
    push_maybe_time(", \"duration\": ", "null", row.clock, row.duration, out)?;
    push_maybe(", \"timescale\": ", row.clock.timescale, "null", out)
}

/// Appends a row as a JSON object.
#[tactic(auto, unfolding(crate::specs::SegmentText::json_segment))]
fn push_json(row: &Segment, out: &mut String) -> Result<(), AllocError>
    ensures { OnOk result (string_bytes out.new ≡ string_bytes out.old ++ json_segment row.now) }
{
    push_json_front(row, out)?;
    push_json_end(row, out)?;
    out.push_str("}")
}

/// Appends the number and the bytes of a row, as aligned columns.
#[tactic(auto, unfolding(crate::specs::SegmentText::plain_bytes))]
fn push_plain_bytes(row: &Segment, out: &mut String) -> Result<(), AllocError>
    ensures { OnOk result (string_bytes out.new ≡ string_bytes out.old ++ plain_bytes row.now) }
{
    push_wide("", 8, row.number, out)?;
    push_wide("  ", 12, row.offset, out)?;
    push_wide("  ", 11, row.size, out)
}

/// Appends the track and the times of a row, as aligned columns. `cell` has room for a time.
#[tactic(auto, unfolding(crate::specs::SegmentText::plain_times))]
fn push_plain_times(row: &Segment, cell: &mut String, out: &mut String) -> Result<(), AllocError>
    ensures { OnOk result (string_bytes out.new ≡ string_bytes out.old ++ plain_times row.now) }
{
    push_wide_maybe("  ", 10, row.track, out)?;
    push_wide_maybe_time("  ", 12, row.clock, row.start, cell, out)?;
    push_wide_maybe_time("  ", 12, row.clock, row.duration, cell, out)
}

/// Appends a row as a line of aligned columns. `cell` has room for a time.
#[tactic(auto, unfolding(crate::specs::SegmentText::plain_segment))]
fn push_plain(row: &Segment, cell: &mut String, out: &mut String) -> Result<(), AllocError>
    ensures { OnOk result (string_bytes out.new ≡ string_bytes out.old ++ plain_segment row.now) }
{
    push_plain_bytes(row, out)?;
    push_plain_times(row, cell, out)?;
    out.push_str("\n")
}

/// Appends a row. As JSON it follows a comma if it follows another row. `cell` has room for a time.
pub fn push_segment(
    form: Form,
    follows: bool,
    row: &Segment,
    cell: &mut String,
    out: &mut String,
) -> Result<(), AllocError>
    ensures { OnOk result (string_bytes out.new ≡ string_bytes out.old ++ segment_text form follows row.now) }
{
    match form {
        Form::Text => push_plain(row, cell, out),
        Form::Csv => push_csv(row, out),
        Form::Json => {
            out.push_str(if follows { ",\n" } else { "\n" })?;
            push_json(row, out)
        }
    }
}
