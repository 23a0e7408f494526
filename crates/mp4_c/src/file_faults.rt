//! Lists the faults of a file.

ghost use Rattle.std.specs.Prelude.{◌≡◌, [], ◌∷◌, IfOk, OnOk};
ghost use Rattle.mp4_c.specs.FaultRows.{AddsFaults, AreFaults, ChecksFile, CopiesName, FillsFaults, code_at};
ghost use Rattle.mp4_c.specs.FaultRows.{code_number, name_at, severity_number, table_of};
ghost use Rattle.mp4_c.specs.FaultRowsLaws.{adds_more, adds_none};
ghost use Rattle.mp4_check.specs.FaultValues.{value_of};
ghost use Rattle.mp4_content.specs.PathTexts.{path_shown};

use crate::text_part::{TextPart, push_part, put_front};
use mp4_c_boxes::status::{NO_ROOM, OK, OUT_OF_MEMORY};
use mp4_c_boxes::to_rows::copy_rows;
use mp4_check::{Code, Fault, FaultForm, Severity, Told, path_text, words_of, write_faults_as};
use mp4_content::{Shown, ShownBox, or_memory};
use mp4_extra_samples::sidx::SidxBox;
use mp4_frame::ReadBox;
use mp4_io::{Failure, or_read};
use mp4_walk::BoxWalk;
use std::alloc::{AllocError, Global};

/// A fault of a file.
#[repr(C)]
#[derive(Clone, Copy)]
pub struct FaultRow {
    /// The position of the box that has the fault, or 0 if no box has it.
    pub position: u64,
    /// The path of that box, in the text.
    pub path: TextPart,
    /// The words for people, in the text.
    pub text: TextPart,
    /// The number of the code.
    pub code: u32,
    /// The number of the severity: 1 for an error, 2 for a warning.
    pub severity: u32,
}

/// The numbers of elements of the arrays of faults.
#[repr(C)]
#[derive(Clone, Copy)]
pub struct FaultTable {
    /// The number of faults.
    pub count: usize,
    /// The number of bytes of all their texts.
    pub text_bytes: usize,
}

/// The faults of a file, and the texts of their paths and words, one after the other.
#[derive(Drop)]
pub struct FoundFaults {
    /// The faults.
    pub rows: Vec<FaultRow>,
    /// The texts.
    pub text: Vec<u8>,
}

/// Returns the number of `code`. It never changes.
fn code_number(code: Code) -> u32
    ensures { result ≡ code_number code }
{
    match code {
        Code::NotMp4 => 1,
        Code::FileCut => 2,
        Code::BoxCut => 3,
        Code::BoxTooSmall => 4,
        Code::BoxInvalid => 5,
        Code::BoxRepeated => 6,
        Code::BoxMissing => 7,
        Code::SizesUnlisted => 8,
        Code::AvcWithoutSets => 9,
        Code::MovieMissing => 10,
        Code::TrackIdZero => 11,
        Code::TrackIdRepeated => 12,
        Code::TrackIdUnknown => 13,
        Code::TablesDisagree => 14,
        Code::ChunkOutsideMedia => 15,
        Code::ChunksOverlap => 16,
        Code::MediaDuration => 17,
        Code::TrackDuration => 18,
        Code::MovieDuration => 19,
        Code::RunOutsideMedia => 20,
        Code::DecodeTimeBack => 21,
        Code::IndexSizes => 22,
        Code::NalUnitsMisfit => 23,
        Code::PcmFramesCut => 24,
    }
}

/// Returns the code with the number `number`, if there is one.
fn code_at(number: u32) -> Option<Code>
    ensures { result ≡ code_at number }
{
    match number {
        1 => Some(Code::NotMp4),
        2 => Some(Code::FileCut),
        3 => Some(Code::BoxCut),
        4 => Some(Code::BoxTooSmall),
        5 => Some(Code::BoxInvalid),
        6 => Some(Code::BoxRepeated),
        7 => Some(Code::BoxMissing),
        8 => Some(Code::SizesUnlisted),
        9 => Some(Code::AvcWithoutSets),
        10 => Some(Code::MovieMissing),
        11 => Some(Code::TrackIdZero),
        12 => Some(Code::TrackIdRepeated),
        13 => Some(Code::TrackIdUnknown),
        14 => Some(Code::TablesDisagree),
        15 => Some(Code::ChunkOutsideMedia),
        16 => Some(Code::ChunksOverlap),
        17 => Some(Code::MediaDuration),
        18 => Some(Code::TrackDuration),
        19 => Some(Code::MovieDuration),
        20 => Some(Code::RunOutsideMedia),
        21 => Some(Code::DecodeTimeBack),
        22 => Some(Code::IndexSizes),
        23 => Some(Code::NalUnitsMisfit),
        24 => Some(Code::PcmFramesCut),
        _ => None,
    }
}

/// Returns the number of `severity`.
fn severity_number(severity: Severity) -> u32
    ensures { result ≡ severity_number severity }
{
    match severity {
        Severity::Failure => 1,
        Severity::Warning => 2,
    }
}

/// Appends `fault`, with the text of its path and its words, to `found`.
fn push_fault(
    fault: &Fault,
    path: &str,
    words: &str,
    found: &mut FoundFaults,
) -> Result<(), AllocError>
    ensures { path.now ≡ path_shown fault.now.path.items
        → OnOk result (AddsFaults (value_of fault.now ∷ []) found.old found.new) }
{
    let code = fault.what.code();
    let path = push_part(path.as_bytes(), &mut found.text)?;
    let text = push_part(words.as_bytes(), &mut found.text)?;
    found.rows.push(FaultRow {
        position: fault.position,
        path,
        text,
        code: code_number(code),
        severity: severity_number(code.severity()),
    })?;
    Ok(())
}

/// The form of faults for C: a row for each, and its texts.
#[derive(Clone, Copy)]
pub struct RowForm;

impl FaultForm<FoundFaults> for RowForm {
    ghost writes = { λ _ _ vs old new _. AddsFaults vs old new };

    ghost writes_none = { λ _ _ found. adds_none found };

    ghost writes_more = { λ _ _ _ _ vs ws a b c. adds_more vs ws a b c };

    fn write(
        &self,
        alloc: Global,
        fault: &Fault,
        told: Told,
        output: &mut FoundFaults,
    ) -> Result<Told, Failure> {
        let path = or_memory(path_text(alloc, &fault.path))?;
        let words = or_memory(words_of(alloc, fault))?;
        or_memory(push_fault(fault, path.as_str(), words.as_str(), output))?;
        Ok(told)
    }
}

/// The summary before the first fault.
const NOTHING_TOLD: Told = Told {
    any: false,
    failures: false,
    warnings: false,
};

/// Returns the faults of the file `bytes`.
fn faults_in<B: Shown>(alloc: Global, bytes: &[u8]) -> Result<FoundFaults, Failure>
    ensures { IfOk result (AreFaults B.known B.named_reading ⟦<SidxBox as ReadBox>⟧.reads bytes.now) }
{
    let mut walk = or_read(BoxWalk::new(alloc, bytes))?;
    let boxes = or_read(walk.rest(alloc))?;
    let mut found = FoundFaults {
        rows: Vec::new(alloc),
        text: Vec::new(alloc),
    };
    write_faults_as::<B, _, RowForm, FoundFaults>(
        alloc,
        &mut walk,
        &boxes,
        RowForm,
        NOTHING_TOLD,
        &mut found,
    )?;
    Ok(found)
}

/// Copies `found` to the fronts of `rows` and `text`. Returns `OK`, or `NO_ROOM` if one of the arrays is too short;
/// both then stay as they are.
fn fill_faults(found: &FoundFaults, rows: &mut [FaultRow], text: &mut [u8]) -> u32
    ensures { FillsFaults result found.now (record { rows = rows.old; text = text.old })
        (record { rows = rows.new; text = text.new }) }
{
    if rows.len() < found.rows.len() || text.len() < found.text.len() {
        return NO_ROOM;
    }
    put_front(rows, &found.rows);
    put_front(text, &found.text);
    OK
}

/// Returns the numbers of elements of `found`.
fn table_of(found: &FoundFaults) -> FaultTable
    ensures { result ≡ table_of found.now }
{
    FaultTable {
        count: found.rows.len(),
        text_bytes: found.text.len(),
    }
}

/// Copies the faults of the file `bytes` to `rows`, and their texts to `text`. Fills `table`. Returns the status.
fn copy_faults<B: Shown>(
    alloc: Global,
    bytes: &[u8],
    rows: &mut [FaultRow],
    text: &mut [u8],
    table: &mut FaultTable,
) -> u32
    ensures { ChecksFile B.known B.named_reading ⟦<SidxBox as ReadBox>⟧.reads bytes.now result
        (record { rows = rows.old; text = text.old }) (record { rows = rows.new; text = text.new })
        table.old table.new }
{
    match faults_in::<B>(alloc, bytes) {
        Ok(found) => {
            *table = table_of(&found);
            fill_faults(&found, rows, text)
        }
        Err(_) => OUT_OF_MEMORY,
    }
}

/// Copies the faults that `mp4inspect check` finds in the file `bytes` to `rows`, in its order. Copies the texts of
/// their paths and words to `text`, and fills `table` with the numbers of elements. Returns the status.
#[unsafe(no_mangle)]
pub extern "C" fn mp4_check_file(
    alloc: Global,
    bytes: &[u8],
    rows: &mut [FaultRow],
    text: &mut [u8],
    table: &mut FaultTable,
) -> u32
    ensures { ChecksFile ⟦<ShownBox as Shown>⟧.known ⟦<ShownBox as Shown>⟧.named_reading
        ⟦<SidxBox as ReadBox>⟧.reads bytes.now result (record { rows = rows.old; text = text.old })
        (record { rows = rows.new; text = text.new }) table.old table.new }
{
    copy_faults::<ShownBox>(alloc, bytes, rows, text, table)
}

/// Returns the word of the code with the number `code`, such as `box-cut`. There is no word for another number.
fn name_at(code: u32) -> &'static str
    ensures { result.now ≡ name_at code }
{
    match code_at(code) {
        Some(code) => code.word(),
        None => "",
    }
}

/// Copies the word of the code with the number `code` to `text`: ASCII characters without a zero after them. Their
/// number is written to `count`, and is 0 if no code has this number. Returns the status.
#[unsafe(no_mangle)]
pub extern "C" fn mp4_fault_name(code: u32, text: &mut [u8], count: &mut usize) -> u32
    ensures { CopiesName code result text.old text.new count.new }
{
    copy_rows(Ok(name_at(code)), text, count)
}
