//! Plans new files, which are those that `mp4remux` writes.

ghost use Rattle.std.specs.Prelude.{◌≡◌};
ghost use Rattle.mp4_c.specs.Changes.{MakesEdited};
ghost use Rattle.mp4_c.specs.NewFiles.{ReturnsFile, ReturnsPlan, ReturnsReason, done_in, file_of, options_of};
ghost use Rattle.mp4_c.specs.NewFiles.{refused_of, times_of};
ghost use Rattle.mp4_remux_files.specs.Tasks.{MakesFile};
ghost use Rattle.mp4_remux_files.specs.declared.task.Task.TheVariants as tasks;

use crate::change::{ChangeFault, ChangeRow, NoChange, changes_of};
use crate::new_file::{FoundFile, NewFile, PieceRow, fill_file, fill_reason, found_file};
use mp4_c_boxes::status::OUT_OF_MEMORY;
use mp4_remux::forms::FragmentOptions;
use mp4_remux::pieces::Plan;
use mp4_remux_files::{Done, Refusal, Stop, Task, Times, plan_task};
use std::alloc::{AllocError, Global};

/// The reason why a part is refused that lasts for no time.
const NO_TIME: &str = "the part has to end after it begins";

/// The options of the fragments of a new file.
#[repr(C)]
#[derive(Clone, Copy)]
pub struct FragmentRow {
    /// The number of nanoseconds that each fragment but the last has at least. If it is 0, a video is cut at each sync
    /// sample, and other media every two seconds.
    pub least: u64,
    /// 0 for no `sidx` before the fragments.
    pub has_sidx: u8,
    /// 0 for no `mfra` after the fragments.
    pub has_mfra: u8,
    /// 0 for no `styp` before each fragment.
    pub has_styp: u8,
}

/// Returns the options in `row`.
fn options_of(row: &FragmentRow) -> FragmentOptions
    ensures { result ≡ options_of row.now }
{
    FragmentOptions {
        least: if row.least == 0 {
            None
        } else {
            Some(row.least)
        },
        has_sidx: row.has_sidx != 0,
        has_mfra: row.has_mfra != 0,
        is_segmented: row.has_styp != 0,
    }
}

/// Returns the counts of a new file that is not there, for a reason of `text_bytes` bytes.
fn refused_of(text_bytes: usize) -> NewFile
    ensures { result ≡ refused_of text_bytes }
{
    NewFile {
        piece_count: 0,
        new_bytes: 0,
        text_bytes,
        length: 0,
        fragments: 0,
        samples: 0,
        moved_from: 0,
        moved_to: 0,
    }
}

/// Returns the counts of a new file with `done`, and without pieces.
fn done_in(done: Done) -> NewFile
    ensures { result ≡ done_in done }
{
    let mut file = refused_of(0);
    match done {
        Done::Moved(moved) => {
            file.moved_from = moved.begin;
            file.moved_to = moved.insert;
        }
        Done::Copied => {}
        Done::Edited(_) => {}
        Done::Fragmented(count) => file.fragments = count as u64,
        Done::Joined { fragments, samples } => {
            file.fragments = fragments;
            file.samples = samples;
        }
        Done::Cut(samples) => file.samples = samples,
    }
    file
}

/// Returns the counts of the new file `found`, of `length` bytes, with `done`.
fn file_of(found: &FoundFile, length: u64, done: Done) -> NewFile
    ensures { result ≡ file_of found.now length done }
{
    let mut file = done_in(done);
    file.piece_count = found.rows.len();
    file.new_bytes = found.bytes.len();
    file.length = length;
    file
}

/// Copies the pieces of `plan` to `pieces` and its new bytes to `new_bytes`, and fills `file`. Returns the status.
fn copy_plan(
    alloc: Global,
    plan: &Plan,
    done: Done,
    pieces: &mut [PieceRow],
    new_bytes: &mut [u8],
    file: &mut NewFile,
) -> u32
    ensures { ReturnsPlan plan.now done result pieces.old pieces.new new_bytes.old new_bytes.new file.old file.new }
{
    match found_file(alloc, plan.pieces()) {
        Ok(found) => {
            *file = file_of(&found, plan.length(), done);
            fill_file(&found, pieces, new_bytes)
        }
        Err(_) => OUT_OF_MEMORY,
    }
}

/// Copies `reason`, unless memory for it was refused, to `text`, and fills `file`. Returns the status.
fn copy_reason(reason: Result<String, AllocError>, text: &mut [u8], file: &mut NewFile) -> u32
    ensures { ReturnsReason result text.old text.new file.old file.new }
{
    match reason {
        Ok(reason) => {
            *file = refused_of(reason.len());
            fill_reason(reason.as_bytes(), text)
        }
        Err(_) => OUT_OF_MEMORY,
    }
}

/// Copies the text of `refusal` to `text`, and fills `file`. Returns the status.
fn copy_refusal(alloc: Global, refusal: &Refusal, text: &mut [u8], file: &mut NewFile) -> u32
    ensures { ReturnsReason result text.old text.new file.old file.new }
{
    copy_reason(format!(in alloc; "{refusal}"), text, file)
}

/// Copies the number of the row that is no change, and its fault, to `text`, and fills `file`. Returns the status.
fn copy_fault(alloc: Global, wrong: NoChange, text: &mut [u8], file: &mut NewFile) -> u32
    ensures { ReturnsReason result text.old text.new file.old file.new }
{
    let NoChange { index, fault } = wrong;
    if fault == ChangeFault::Memory {
        return OUT_OF_MEMORY;
    }
    copy_reason(format!(in alloc; "change {index}: {fault}"), text, file)
}

/// Plans the new file of `task` over the file `bytes`, and copies its pieces to `pieces` and its new bytes to
/// `new_bytes`. If there is none, copies the reason to `text`. Fills `file`. Returns the status.
fn copy_task(
    alloc: Global,
    task: Task,
    bytes: &[u8],
    pieces: &mut [PieceRow],
    new_bytes: &mut [u8],
    text: &mut [u8],
    file: &mut NewFile,
) -> u32
    ensures { ReturnsFile (λ done C. MakesFile task bytes.now done C) bytes.now result
        (record { pieces = pieces.old; bytes = new_bytes.old; text = text.old })
        (record { pieces = pieces.new; bytes = new_bytes.new; text = text.new }) file.old file.new }
{
    match plan_task(alloc, task, bytes, bytes, bytes) {
        Ok((planned, done)) => copy_plan(alloc, &planned.plan, done, pieces, new_bytes, file),
        Err(Stop::Refused(refusal)) => copy_refusal(alloc, &refusal, text, file),
        Err(Stop::Failed(_)) => OUT_OF_MEMORY,
    }
}

/// Plans the file `bytes` with its `moov` before its media data. Copies the pieces to `pieces` and the new bytes to
/// `new_bytes`, or the reason of a refusal to `text`, and fills `file`. Returns the status.
#[unsafe(no_mangle)]
pub extern "C" fn mp4_faststart(
    alloc: Global,
    bytes: &[u8],
    pieces: &mut [PieceRow],
    new_bytes: &mut [u8],
    text: &mut [u8],
    file: &mut NewFile,
) -> u32
    ensures { ReturnsFile (λ done C. MakesFile tasks.FastStart bytes.now done C) bytes.now result
        (record { pieces = pieces.old; bytes = new_bytes.old; text = text.old })
        (record { pieces = pieces.new; bytes = new_bytes.new; text = text.new }) file.old file.new }
{
    copy_task(alloc, Task::FastStart, bytes, pieces, new_bytes, text, file)
}

/// Plans the file `bytes` with `changes`, whose parts are in `data`. Copies the pieces to `pieces` and the new bytes to
/// `new_bytes`, or the reason of a refusal to `text`, and fills `file`. Returns the status.
#[unsafe(no_mangle)]
pub extern "C" fn mp4_edit(
    alloc: Global,
    bytes: &[u8],
    changes: &[ChangeRow],
    data: &[u8],
    pieces: &mut [PieceRow],
    new_bytes: &mut [u8],
    text: &mut [u8],
    file: &mut NewFile,
) -> u32
    ensures { ReturnsFile (λ done C. MakesEdited data.now changes.now bytes.now done C) bytes.now result
        (record { pieces = pieces.old; bytes = new_bytes.old; text = text.old })
        (record { pieces = pieces.new; bytes = new_bytes.new; text = text.new }) file.old file.new }
{
    match changes_of(alloc, changes, data) {
        Ok(changes) => copy_task(
            alloc,
            Task::Edit(changes),
            bytes,
            pieces,
            new_bytes,
            text,
            file,
        ),
        Err(wrong) => copy_fault(alloc, wrong, text, file),
    }
}

/// Plans the file `bytes` with all samples in fragments, by `options`. Copies the pieces to `pieces` and the
/// new bytes to `new_bytes`, or the reason of a refusal to `text`, and fills `file`. Returns the status.
#[unsafe(no_mangle)]
pub extern "C" fn mp4_fragment(
    alloc: Global,
    bytes: &[u8],
    options: &FragmentRow,
    pieces: &mut [PieceRow],
    new_bytes: &mut [u8],
    text: &mut [u8],
    file: &mut NewFile,
) -> u32
    ensures { ReturnsFile (λ done C. MakesFile (tasks.Fragment (options_of options.now)) bytes.now done C) bytes.now
        result (record { pieces = pieces.old; bytes = new_bytes.old; text = text.old })
        (record { pieces = pieces.new; bytes = new_bytes.new; text = text.new }) file.old file.new }
{
    let task = Task::Fragment(options_of(options));
    copy_task(alloc, task, bytes, pieces, new_bytes, text, file)
}

/// Plans the file `bytes` with all samples in tables. Copies the pieces to `pieces` and the new bytes to `new_bytes`,
/// or the reason of a refusal to `text`, and fills `file`. Returns the status.
#[unsafe(no_mangle)]
pub extern "C" fn mp4_defragment(
    alloc: Global,
    bytes: &[u8],
    pieces: &mut [PieceRow],
    new_bytes: &mut [u8],
    text: &mut [u8],
    file: &mut NewFile,
) -> u32
    ensures { ReturnsFile (λ done C. MakesFile tasks.Defragment bytes.now done C) bytes.now result
        (record { pieces = pieces.old; bytes = new_bytes.old; text = text.old })
        (record { pieces = pieces.new; bytes = new_bytes.new; text = text.new }) file.old file.new }
{
    copy_task(
        alloc,
        Task::Defragment,
        bytes,
        pieces,
        new_bytes,
        text,
        file,
    )
}

/// Plans the part of the file `bytes` between the times `from` and `to`, in nanoseconds. Copies the pieces to `pieces`
/// and the new bytes to `new_bytes`, or the reason of a refusal to `text`, and fills `file`. Returns the status.
#[unsafe(no_mangle)]
pub extern "C" fn mp4_cut(
    alloc: Global,
    bytes: &[u8],
    from: u64,
    to: u64,
    pieces: &mut [PieceRow],
    new_bytes: &mut [u8],
    text: &mut [u8],
    file: &mut NewFile,
) -> u32
    ensures { ReturnsFile (λ done C. MakesFile (tasks.Cut (times_of from to)) bytes.now done C) bytes.now result
        (record { pieces = pieces.old; bytes = new_bytes.old; text = text.old })
        (record { pieces = pieces.new; bytes = new_bytes.new; text = text.new }) file.old file.new }
{
    if to <= from {
        return copy_reason(String::from_str(alloc, NO_TIME), text, file);
    }
    let task = Task::Cut(Times { from, to });
    copy_task(alloc, task, bytes, pieces, new_bytes, text, file)
}
