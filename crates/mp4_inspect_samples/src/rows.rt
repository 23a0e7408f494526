//! Writing the rows of samples.

ghost use Rattle.std.specs.Prelude.{◌≡◌, ◌||◌, true, false, None, IfOk, OnOk, OnErr};
ghost use Rattle.std.specs.Io.KnownBytes.{Appends};
ghost use Rattle.mp4_io.specs.Ends.{is_write, is_read};
ghost use Rattle.mp4_samples.specs.Fragments.{IsFragmentSample};
ghost use Rattle.mp4_samples.specs.Samples.{IsSample, sample_count};
ghost use Rattle.mp4_inspect_samples.specs.Listed.{EndsListed};
ghost use Rattle.mp4_inspect_samples.specs.Row.{IsShown, labels_of};
ghost use Rattle.mp4_inspect_samples.specs.RowText.{row_text};
ghost use Rattle.mp4_inspect_samples.specs.declared.row.Shown.{Shown as When};
ghost use Rattle.mp4_inspect_samples.specs.Rows.{Begins, BeginsRows, WritesFragment, WritesRows};
ghost use Rattle.mp4_inspect_samples.specs.Rows.{entry_text, has_row};

use crate::limit::{Limit, empty_after, is_listed};
use crate::row::{Row, RowRule, row_of, shown_of};
use crate::row_text::{Form, push_row};
use mp4_io::{Failure, Output, write_all};
use mp4_samples::{Fragment, FragmentFault, Sample, SampleTables};
use std::alloc::Global;
use std::io::Write;

/// The form of the rows, and the state after those that are written.
#[derive(Drop)]
pub struct RowWriter {
    /// The form of the rows.
    pub form: Form,
    /// True if a row or a heading was written before.
    pub follows: bool,
    /// The text of the last row or heading.
    pub text: String,
    /// The text of the last time.
    pub cell: String,
}

impl RowWriter {
    /// Returns a writer on which nothing was written.
    pub fn new(alloc: Global, form: Form) -> RowWriter
        ensures form { result.form ≡ form }
        ensures none { result.follows ≡ false }
    {
        RowWriter {
            form,
            follows: false,
            text: String::new(alloc),
            cell: String::new(alloc),
        }
    }
}

/// Writes a row.
fn write_row<W: Write>(
    row: &Row,
    writer: &mut RowWriter,
    output: &mut Output<W>,
) -> Result<(), Failure>
    ensures row { OnOk result
        (Appends (W.contents output.old.inner) (W.contents output.new.inner)
        (row_text writer.old.form writer.old.follows row.now)) }
    ensures begins { OnErr result
        (Begins (W.contents output.old.inner) (W.contents output.new.inner)
        (row_text writer.old.form writer.old.follows row.now)) }
    ensures form { writer.new.form ≡ writer.old.form }
    ensures follows { OnOk result (writer.new.follows ≡ true) }
    ensures not_read { is_read result ≡ false }
    ensures failed { output.new.failed ≡ (output.old.failed || is_write result) }
{
    writer.text.clear();
    push_row(
        writer.form,
        writer.follows,
        row,
        &mut writer.cell,
        &mut writer.text,
    )?;
    writer.follows = true;
    write_all(output, writer.text.as_bytes())
}

/// Writes the row of `sample`, which has the number `number` in its track. Writes nothing for a sample that is no sync
/// sample, if only those have rows.
fn write_sample<W: Write>(
    rule: &RowRule<'_>,
    number: u64,
    sample: &Sample,
    writer: &mut RowWriter,
    output: &mut Output<W>,
) -> Result<(), Failure>
    ensures row { OnOk result ((t : When) × IsShown (labels_of rule.now).edits sample.now t
        × Appends (W.contents output.old.inner) (W.contents output.new.inner)
        (entry_text writer.old.form (labels_of rule.now) writer.old.follows number sample.now t)) }
    ensures begins { OnErr result ((t : When) × IsShown (labels_of rule.now).edits sample.now t
        × Begins (W.contents output.old.inner) (W.contents output.new.inner)
        (entry_text writer.old.form (labels_of rule.now) writer.old.follows number sample.now t)) }
    ensures form { writer.new.form ≡ writer.old.form }
    ensures follows { OnOk result
        (writer.new.follows ≡ (writer.old.follows || has_row (labels_of rule.now) sample.now)) }
    ensures not_read { is_read result ≡ false }
    ensures failed { output.new.failed ≡ (output.old.failed || is_write result) }
{
    let shown = shown_of(rule.edits, sample);
    if rule.sync && !sample.is_sync {
        return Ok(());
    }
    write_row(&row_of(rule, number, sample, shown), writer, output)
}

/// The end of the rows of the tables of a track.
#[derive(Clone, Copy, Debug, PartialEq, Eq)]
pub struct RowsEnd {
    /// The number of the last sample of the track that is written.
    pub count: u64,
    /// The number of samples without bytes in a row up to it, counted up to `MOST_EMPTY`.
    pub empty: u32,
    /// The next sample, if it isn't listed.
    pub unlisted: Option<Sample>,
}

/// Writes the rows of the samples of the tables of a track, up to the first that isn't listed.
pub fn write_rows<W: Write>(
    tables: &SampleTables<'_>,
    rule: &RowRule<'_>,
    limit: Limit,
    writer: &mut RowWriter,
    output: &mut Output<W>,
) -> Result<RowsEnd, Failure>
    ensures rows { IfOk result (λ end.
        WritesRows (IsSample tables.now) limit writer.old.form (labels_of rule.now) 0 0 end.count end.empty
        writer.old.follows
        writer.new.follows (W.contents output.old.inner) (W.contents output.new.inner)) }
    ensures ends { IfOk result (λ end.
        EndsListed (IsSample tables.now) limit (sample_count tables.now) end.count end.empty end.unlisted) }
    ensures begins { OnErr result
        (BeginsRows (IsSample tables.now) limit writer.old.form (labels_of rule.now) 0 0 writer.old.follows
        (W.contents output.old.inner) (W.contents output.new.inner)) }
    ensures form { writer.new.form ≡ writer.old.form }
    ensures not_read { is_read result ≡ false }
    ensures failed { output.new.failed ≡ (output.old.failed || is_write result) }
{
    let mut samples = tables.samples();
    let mut count: u64 = 0;
    let mut empty = 0;
    for _ in 0..u64::MAX {
        match samples.next() {
            Some(sample) => {
                if !is_listed(limit, empty, &sample) {
                    return Ok(RowsEnd {
                        count,
                        empty,
                        unlisted: Some(sample),
                    });
                }
                count = u64::from(samples.number());
                empty = empty_after(empty, &sample);
                write_sample(rule, count, &sample, writer, output)?;
            }
            None => {
                return Ok(RowsEnd {
                    count,
                    empty,
                    unlisted: None,
                });
            }
        }
    }
    Err(Failure::Memory)
}

/// The end of the rows of a fragment.
#[derive(Clone, Copy, Debug, PartialEq, Eq)]
pub struct FragmentEnd {
    /// The number of the last sample of the track that is written.
    pub count: u64,
    /// The time at which it ends, in the timescale of the media.
    pub time: u64,
    /// The number of samples without bytes in a row up to it, counted up to `MOST_EMPTY`.
    pub empty: u32,
    /// The next sample, if it isn't listed.
    pub unlisted: Option<Sample>,
    /// The fault of the next sample, if it has one.
    pub fault: Option<FragmentFault>,
}

/// Writes the rows of the samples of a fragment of a track, up to the first that isn't listed or has a fault. `before`
/// samples of the track come before it, the last `empty_before` of them without bytes. 2^64 - 1 samples are out of
/// memory.
pub fn write_fragment_rows<W: Write>(
    fragment: &Fragment<'_>,
    rule: &RowRule<'_>,
    limit: Limit,
    before: u64,
    empty_before: u32,
    writer: &mut RowWriter,
    output: &mut Output<W>,
) -> Result<FragmentEnd, Failure>
    ensures rows { IfOk result
        (WritesFragment fragment.now limit writer.old.form (labels_of rule.now) before empty_before writer.old.follows
        writer.new.follows (W.contents output.old.inner) (W.contents output.new.inner)) }
    ensures begins { OnErr result
        (BeginsRows (IsFragmentSample fragment.now) limit writer.old.form (labels_of rule.now) before empty_before
        writer.old.follows
        (W.contents output.old.inner) (W.contents output.new.inner)) }
    ensures form { writer.new.form ≡ writer.old.form }
    ensures not_read { is_read result ≡ false }
    ensures failed { output.new.failed ≡ (output.old.failed || is_write result) }
{
    let mut samples = fragment.samples();
    let mut count = before;
    let mut empty = empty_before;
    for _ in 0..u64::MAX {
        match samples.next() {
            Some(Ok(sample)) => {
                if !is_listed(limit, empty, &sample) {
                    return Ok(FragmentEnd {
                        count,
                        time: samples.time(),
                        empty,
                        unlisted: Some(sample),
                        fault: None,
                    });
                }
                if count == u64::MAX {
                    return Err(Failure::Memory);
                }
                count += 1;
                empty = empty_after(empty, &sample);
                write_sample(rule, count, &sample, writer, output)?;
            }
            Some(Err(fault)) => {
                return Ok(FragmentEnd {
                    count,
                    time: samples.time(),
                    empty,
                    unlisted: None,
                    fault: Some(fault),
                });
            }
            None => {
                return Ok(FragmentEnd {
                    count,
                    time: samples.time(),
                    empty,
                    unlisted: None,
                    fault: None,
                });
            }
        }
    }
    Err(Failure::Memory)
}
