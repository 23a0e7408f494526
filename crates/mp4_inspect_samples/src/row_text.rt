//! The text of a row, in each form.

ghost use Rattle.std.specs.Prelude.{◌≡◌, ◌++◌, replicate, min, string_bytes, OnOk};
ghost use Rattle.mp4_inspect_samples.specs.RowText.{padded, column, wide_column};
ghost use Rattle.mp4_inspect_samples.specs.RowText.{maybe_column, shown_column, time_column, wide_shown_column};
ghost use Rattle.mp4_inspect_samples.specs.RowText.{wide_time_column};
ghost use Rattle.mp4_inspect_samples.specs.RowText.{sync_number, csv_place, csv_time, csv_kind, csv_text, json_place};
ghost use Rattle.mp4_inspect_samples.specs.RowText.{json_time, json_shown, json_front, json_duration, json_sync};
ghost use Rattle.mp4_inspect_samples.specs.RowText.{json_entry, json_kind, json_text, plain_place, plain_time};
ghost use Rattle.mp4_inspect_samples.specs.RowText.{plain_kind, plain_text, row_text};

use crate::clock::Clock;
use crate::row::{Row, Shown};
use crate::time_text::{push_shown, push_time};
use std::alloc::AllocError;

/// The form of rows.
#[derive(Clone, Copy, Debug, PartialEq, Eq)]
pub enum Form {
    /// Aligned columns, with a heading for each track.
    Text,
    /// Numbers between commas, with one line of names in front.
    Csv,
    /// An array of objects.
    Json,
}

/// Appends a number after some text.
#[tactic(auto, unfolding(crate::specs::RowText::column))]
pub fn push_number(before: &str, number: u64, out: &mut String) -> Result<(), AllocError>
    ensures { OnOk result (string_bytes out.new ≡ string_bytes out.old ++ column before.now number) }
{
    let mut buffer = itoa::Buffer::new();
    out.push_str(before)?;
    out.push_str(buffer.format(number))?;
    Ok(())
}

/// Appends a number that can be unknown after `before`, or `unknown` if it is.
#[tactic(auto, unfolding(crate::specs::RowText::maybe_column))]
pub fn push_maybe(
    before: &str,
    number: Option<u32>,
    unknown: &str,
    out: &mut String,
) -> Result<(), AllocError>
    ensures { OnOk result
        (string_bytes out.new ≡ string_bytes out.old ++ maybe_column before.now unknown.now number) }
{
    match number {
        Some(number) => push_number(before, u64::from(number), out),
        None => {
            out.push_str(before)?;
            out.push_str(unknown)
        }
    }
}

/// Appends a time after some text, or `unknown` if its seconds are unknown.
#[tactic(auto, unfolding(crate::specs::RowText::time_column))]
pub fn push_time_column(
    before: &str,
    unknown: &str,
    clock: Clock,
    time: u64,
    out: &mut String,
) -> Result<(), AllocError>
    ensures { OnOk result
        (string_bytes out.new ≡ string_bytes out.old ++ time_column before.now unknown.now clock time) }
{
    out.push_str(before)?;
    push_time(unknown, clock, time, out)
}

/// Appends a presentation time after some text, or `unknown` if there is none or its seconds are unknown.
#[tactic(auto, unfolding(crate::specs::RowText::shown_column))]
fn push_shown_column(
    before: &str,
    unknown: &str,
    clock: Clock,
    shown: Shown,
    out: &mut String,
) -> Result<(), AllocError>
    ensures { OnOk result
        (string_bytes out.new ≡ string_bytes out.old ++ shown_column before.now unknown.now clock shown) }
{
    out.push_str(before)?;
    push_shown(unknown, clock, shown, out)
}

/// Returns `count` spaces, at most 16.
fn spaces(count: usize) -> &'static str
    ensures { result.now ≡ replicate (min count 16) 32 }
{
    match count {
        0 => "",
        1 => " ",
        2 => "  ",
        3 => "   ",
        4 => "    ",
        5 => "     ",
        6 => "      ",
        7 => "       ",
        8 => "        ",
        9 => "         ",
        10 => "          ",
        11 => "           ",
        12 => "            ",
        13 => "             ",
        14 => "              ",
        15 => "               ",
        _ => "                ",
    }
}

/// Appends digits after some text and spaces, so that spaces and digits are of a width.
pub fn push_padded(
    before: &str,
    width: usize,
    digits: &str,
    out: &mut String,
) -> Result<(), AllocError>
    ensures { OnOk result (string_bytes out.new ≡ string_bytes out.old ++ (before.now ++ padded width digits.now)) }
{
    out.push_str(before)?;
    out.push_str(spaces(width.saturating_sub(digits.len())))?;
    out.push_str(digits)?;
    Ok(())
}

/// Appends a number of a width after some text.
#[tactic(auto, unfolding(crate::specs::RowText::wide_column))]
pub fn push_wide(
    before: &str,
    width: usize,
    number: u64,
    out: &mut String,
) -> Result<(), AllocError>
    ensures { OnOk result (string_bytes out.new ≡ string_bytes out.old ++ wide_column before.now width number) }
{
    let mut buffer = itoa::Buffer::new();
    push_padded(before, width, buffer.format(number), out)
}

/// Appends a time of a width after some text. `cell` has room for its digits.
#[tactic(auto, unfolding(crate::specs::RowText::wide_time_column))]
pub fn push_wide_time(
    before: &str,
    width: usize,
    clock: Clock,
    time: u64,
    cell: &mut String,
    out: &mut String,
) -> Result<(), AllocError>
    ensures { OnOk result
        (string_bytes out.new ≡ string_bytes out.old ++ wide_time_column before.now width clock time) }
{
    cell.clear();
    push_time("-", clock, time, cell)?;
    push_padded(before, width, cell.as_str(), out)
}

/// Appends a presentation time of a width after some text. `cell` has room for its digits.
#[tactic(auto, unfolding(crate::specs::RowText::wide_shown_column))]
fn push_wide_shown(
    before: &str,
    width: usize,
    clock: Clock,
    shown: Shown,
    cell: &mut String,
    out: &mut String,
) -> Result<(), AllocError>
    ensures { OnOk result
        (string_bytes out.new ≡ string_bytes out.old ++ wide_shown_column before.now width clock shown) }
{
    cell.clear();
    push_shown("-", clock, shown, cell)?;
    push_padded(before, width, cell.as_str(), out)
}

/// Returns 1 for a sync sample, or 0 for another.
fn sync_number(is_sync: bool) -> u64
    ensures { result ≡ sync_number is_sync }
{
    if is_sync { 1 } else { 0 }
}

/// Appends the track, the number and the offset of a row, as numbers between commas.
#[tactic(auto, unfolding(crate::specs::RowText::csv_place))]
fn push_csv_place(row: &Row, out: &mut String) -> Result<(), AllocError>
    ensures { OnOk result (string_bytes out.new ≡ string_bytes out.old ++ csv_place row.now) }
{
    push_maybe("", row.track, "", out)?;
    push_number(",", row.number, out)?;
    push_number(",", row.offset, out)
}

/// Appends the size and the times of a row, as numbers between commas.
#[tactic(auto, unfolding(crate::specs::RowText::csv_time))]
fn push_csv_time(row: &Row, out: &mut String) -> Result<(), AllocError>
    ensures { OnOk result (string_bytes out.new ≡ string_bytes out.old ++ csv_time row.now) }
{
    push_number(",", u64::from(row.size), out)?;
    push_time_column(",", "", row.clock, row.decode_time, out)?;
    push_shown_column(",", "", row.clock, row.presentation, out)
}

/// Appends the duration of a row and what follows it, as numbers between commas.
#[tactic(auto, unfolding(crate::specs::RowText::csv_kind))]
fn push_csv_kind(row: &Row, out: &mut String) -> Result<(), AllocError>
    ensures { OnOk result (string_bytes out.new ≡ string_bytes out.old ++ csv_kind row.now) }
{
    push_time_column(",", "", row.clock, u64::from(row.duration), out)?;
    push_number(",", sync_number(row.is_sync), out)?;
    push_number(",", u64::from(row.description), out)?;
    push_maybe(",", row.clock.timescale, "", out)
}

/// Appends a row as a line of numbers between commas.
#[tactic(auto, unfolding(crate::specs::RowText::csv_text))]
fn push_csv(row: &Row, out: &mut String) -> Result<(), AllocError>
    ensures { OnOk result (string_bytes out.new ≡ string_bytes out.old ++ csv_text row.now) }
{
    push_csv_place(row, out)?;
    push_csv_time(row, out)?;
    push_csv_kind(row, out)?;
    out.push_str("\n")
}

/// Appends the track, the number and the offset of a row, as members of a JSON object.
#[tactic(auto, unfolding(crate::specs::RowText::json_place))]
fn push_json_place(row: &Row, out: &mut String) -> Result<(), AllocError>
    ensures { OnOk result (string_bytes out.new ≡ string_bytes out.old ++ json_place row.now) }
{
    push_maybe("{\"track\": ", row.track, "null", out)?;
    push_number(", \"number\": ", row.number, out)?;
    push_number(", \"offset\": ", row.offset, out)
}

/// Appends the size and the decode time of a row, as members of a JSON object.
#[tactic(auto, unfolding(crate::specs::RowText::json_time))]
fn push_json_time(row: &Row, out: &mut String) -> Result<(), AllocError>
    ensures { OnOk result (string_bytes out.new ≡ string_bytes out.old ++ json_time row.now) }
{
    push_number(", \"size\": ", u64::from(row.size), out)?;
    push_time_column(
        ", \"decode_time\": ",
        "null",
        row.clock,
        row.decode_time,
        out,
    )
}

/// Appends the presentation time of a row, as a member of a JSON object.
#[tactic(auto, unfolding(crate::specs::RowText::json_shown))]
fn push_json_shown(row: &Row, out: &mut String) -> Result<(), AllocError>
    ensures { OnOk result (string_bytes out.new ≡ string_bytes out.old ++ json_shown row.now) }
{
    push_shown_column(
        ", \"presentation_time\": ",
        "null",
        row.clock,
        row.presentation,
        out,
    )
}

/// Appends the place and the times of a row, as members of a JSON object.
#[tactic(auto, unfolding(crate::specs::RowText::json_front))]
fn push_json_front(row: &Row, out: &mut String) -> Result<(), AllocError>
    ensures { OnOk result (string_bytes out.new ≡ string_bytes out.old ++ json_front row.now) }
{
    push_json_place(row, out)?;
    push_json_time(row, out)?;
    push_json_shown(row, out)
}

/// Appends the duration of a row, as a member of a JSON object.
#[tactic(auto, unfolding(crate::specs::RowText::json_duration))]
fn push_json_duration(row: &Row, out: &mut String) -> Result<(), AllocError>
    ensures { OnOk result (string_bytes out.new ≡ string_bytes out.old ++ json_duration row.now) }
{
    push_time_column(
        ", \"duration\": ",
        "null",
        row.clock,
        u64::from(row.duration),
        out,
    )
}

/// Appends whether a row is of a sync sample, as a member of a JSON object.
#[tactic(auto, unfolding(crate::specs::RowText::json_sync))]
fn push_json_sync(row: &Row, out: &mut String) -> Result<(), AllocError>
    ensures { OnOk result (string_bytes out.new ≡ string_bytes out.old ++ json_sync row.now) }
{
    push_number(", \"sync\": ", sync_number(row.is_sync), out)
}

/// Appends the sample entry of a row, as a member of a JSON object.
#[tactic(auto, unfolding(crate::specs::RowText::json_entry))]
fn push_json_entry(row: &Row, out: &mut String) -> Result<(), AllocError>
    ensures { OnOk result (string_bytes out.new ≡ string_bytes out.old ++ json_entry row.now) }
{
    push_number(", \"description\": ", u64::from(row.description), out)?;
    push_maybe(", \"timescale\": ", row.clock.timescale, "null", out)
}

/// Appends the duration of a row and what follows it, as members of a JSON object.
#[tactic(auto, unfolding(crate::specs::RowText::json_kind))]
fn push_json_kind(row: &Row, out: &mut String) -> Result<(), AllocError>
    ensures { OnOk result (string_bytes out.new ≡ string_bytes out.old ++ json_kind row.now) }
{
    push_json_duration(row, out)?;
    push_json_sync(row, out)?;
    push_json_entry(row, out)
}

/// Appends a row as a JSON object.
#[tactic(auto, unfolding(crate::specs::RowText::json_text))]
fn push_json(row: &Row, out: &mut String) -> Result<(), AllocError>
    ensures { OnOk result (string_bytes out.new ≡ string_bytes out.old ++ json_text row.now) }
{
    push_json_front(row, out)?;
    push_json_kind(row, out)?;
    out.push_str("}")
}

/// Appends the number, the offset and the size of a row, as aligned columns.
#[tactic(auto, unfolding(crate::specs::RowText::plain_place))]
fn push_plain_place(row: &Row, out: &mut String) -> Result<(), AllocError>
    ensures { OnOk result (string_bytes out.new ≡ string_bytes out.old ++ plain_place row.now) }
{
    push_wide("", 8, row.number, out)?;
    push_wide("  ", 12, row.offset, out)?;
    push_wide("  ", 9, u64::from(row.size), out)
}

/// Appends the times and the duration of a row, as aligned columns.
#[tactic(auto, unfolding(crate::specs::RowText::plain_time))]
fn push_plain_time(row: &Row, cell: &mut String, out: &mut String) -> Result<(), AllocError>
    ensures { OnOk result (string_bytes out.new ≡ string_bytes out.old ++ plain_time row.now) }
{
    push_wide_time("  ", 12, row.clock, row.decode_time, cell, out)?;
    push_wide_shown("  ", 17, row.clock, row.presentation, cell, out)?;
    push_wide_time("  ", 9, row.clock, u64::from(row.duration), cell, out)
}

/// Appends the other columns of a row, as aligned columns.
#[tactic(auto, unfolding(crate::specs::RowText::plain_kind))]
fn push_plain_kind(row: &Row, out: &mut String) -> Result<(), AllocError>
    ensures { OnOk result (string_bytes out.new ≡ string_bytes out.old ++ plain_kind row.now) }
{
    push_wide("  ", 4, sync_number(row.is_sync), out)?;
    push_wide("  ", 11, u64::from(row.description), out)
}

/// Appends a row as a line of aligned columns, without its track.
#[tactic(auto, unfolding(crate::specs::RowText::plain_text))]
fn push_plain(row: &Row, cell: &mut String, out: &mut String) -> Result<(), AllocError>
    ensures { OnOk result (string_bytes out.new ≡ string_bytes out.old ++ plain_text row.now) }
{
    push_plain_place(row, out)?;
    push_plain_time(row, cell, out)?;
    push_plain_kind(row, out)?;
    out.push_str("\n")
}

/// Appends a row. As JSON it follows a comma if it follows another row. `cell` has room for a time.
pub fn push_row(
    form: Form,
    follows: bool,
    row: &Row,
    cell: &mut String,
    out: &mut String,
) -> Result<(), AllocError>
    ensures { OnOk result (string_bytes out.new ≡ string_bytes out.old ++ row_text form follows row.now) }
{
    match form {
        Form::Text => push_plain(row, cell, out),
        Form::Csv => push_csv(row, out),
        Form::Json => {
            out.push_str(if follows { ",\n" } else { "\n" })?;
            push_json(row, out)
        }
    }
}
