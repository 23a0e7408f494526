//! The lists of the track fragment run box, which are read from its rows.

ghost use Rattle.std.specs.Prelude.{◌≡◌, ◌≤◌, ◌<◌, ◌+◌, ◌++◌, ◌↔◌, [], IsTrue, IfOk, IfErr, length, vec_capacity};
ghost use Rattle.std.specs.Prelude.{vec_len};
ghost use Rattle.mp4_frame.specs.Reading.{Answers};
ghost use Rattle.mp4_tables.specs.Flagged.{width_if};
ghost use Rattle.mp4_tables.specs.TrunRows.{row_flags, row_length};
ghost use Rattle.mp4_tables.specs.TrunLists.{column_if, lists_of, reads_lists, count_if, IsListed};

use crate::flagged::width_if;
use crate::rows::{append_numbers, read_rows};
use crate::trun::row_flags::RowFlags;
use mp4_frame::{Entries, Error, Result, all_fit};
use std::alloc::Global;

/// The number of rows that are read at a time. A row has at most 16 bytes.
const PART: usize = 512;

/// The numbers in the rows of a run, with a list for each list flag.
#[derive(Drop)]
pub(crate) struct TrunLists {
    pub(crate) durations: Entries<u32>,
    pub(crate) sizes: Entries<u32>,
    pub(crate) flags: Entries<u32>,
    pub(crate) cts: Entries<u32>,
}

/// Returns an empty list, with memory for `count` numbers if the flag of the list is set.
fn numbers_for(alloc: Global, is_flagged: bool, count: usize) -> Result<Vec<u32>>
    ensures empty { IfOk result (λ numbers. numbers.items ≡ []) }
    ensures room { IfOk result (λ numbers. count_if is_flagged count ≤ vec_capacity numbers) }
    ensures memory { IfErr result (λ e. e ≡ Error.OutOfMemory) }
{
    if is_flagged {
        Ok(Vec::with_capacity(alloc, count)?)
    } else {
        Ok(Vec::new(alloc))
    }
}

/// Appends to `numbers` the number of four bytes at offset `at` of each row, if the flag of the list is set. The list
/// must have room for them.
#[tactic(auto, unfolding(crate::specs::TrunLists::column_if, crate::specs::Flagged::width_if))]
fn append_column<const E: usize>(
    numbers: &mut Vec<u32>,
    rows: &[[u8; E]],
    is_flagged: bool,
    at: usize,
)
    requires within { at + width_if is_flagged 4 ≤ E }
    requires room { vec_len numbers.old + count_if is_flagged (length rows.now) ≤ vec_capacity numbers.old }
    ensures appended { numbers.new.items ≡ numbers.old.items ++ column_if is_flagged at rows.now }
    ensures len { vec_len numbers.new ≡ vec_len numbers.old + count_if is_flagged (length rows.now) }
    ensures capacity { vec_capacity numbers.new ≡ vec_capacity numbers.old }
{
    if is_flagged {
        append_numbers(numbers, rows, at);
    }
}

/// Returns the lists of `rows`. It fills them from one part of the rows after the other: a part stays in the nearest
/// cache until each list has the numbers of that part. The only error is out of memory.
#[tactic(auto, using(crate::proofs::TrunRows::column_moves, crate::proofs::TrunRows::room_for_part, crate::proofs::TrunRows::room_after), unfolding(crate::specs::TrunLists::column_if))]
fn lists_of_rows<const E: usize>(alloc: Global, rows: &[[u8; E]], flags: u32) -> Result<TrunLists>
    requires { E ≡ row_length (row_flags flags) }
    ensures value { IfOk result (λ lists. lists ≡ lists_of (row_flags flags) rows.now) }
    ensures memory { IfErr result (λ e. e ≡ Error.OutOfMemory) }
{
    let has = RowFlags::of(flags);
    let size_at = width_if(has.duration, 4);
    let flags_at = size_at + width_if(has.size, 4);
    let cts_at = flags_at + width_if(has.flags, 4);
    // For the prover: a number at `cts_at` ends within its row.
    let _end = cts_at + width_if(has.cts, 4);
    let mut durations = numbers_for(alloc, has.duration, rows.len())?;
    let mut sizes = numbers_for(alloc, has.size, rows.len())?;
    let mut sample_flags = numbers_for(alloc, has.flags, rows.len())?;
    let mut cts = numbers_for(alloc, has.cts, rows.len())?;
    let mut rest = rows;
    while !rest.is_empty() {
        let (part, after) = rest.split_at(rest.len().min(PART));
        append_column(&mut durations, part, has.duration, 0);
        append_column(&mut sizes, part, has.size, size_at);
        append_column(&mut sample_flags, part, has.flags, flags_at);
        append_column(&mut cts, part, has.cts, cts_at);
        rest = after;
    }
    Ok(TrunLists {
        durations: durations.into(),
        sizes: sizes.into(),
        flags: sample_flags.into(),
        cts: cts.into(),
    })
}

/// Reads the lists of `count` rows of `E` bytes each, starting at offset `at`.
#[tactic(auto, unfolding(crate::specs::TrunLists::reads_lists))]
fn read_rows_of<const E: usize>(
    alloc: Global,
    bytes: &[u8],
    size: u64,
    flags: u32,
    at: usize,
    count: u32,
) -> Result<TrunLists>
    requires nonempty { 0 < E }
    requires length { E ≡ row_length (row_flags flags) }
    ensures { Answers result (reads_lists bytes.now size (row_flags flags) at count) }
{
    // For the prover: a row has at most 16 bytes.
    let _length = RowFlags::of(flags).row_length();
    let rows = read_rows::<E>(
        bytes,
        size,
        at,
        u64::from(count),
        "trun sample_count indicates more values than could fit in the box",
    )?;
    lists_of_rows(alloc, rows, flags)
}

/// Reads the lists of `count` rows, starting at offset `at`. If a row has no bytes, no row is visited.
pub(crate) fn read_lists(
    alloc: Global,
    bytes: &[u8],
    size: u64,
    flags: u32,
    at: usize,
    count: u32,
) -> Result<TrunLists>
    ensures { Answers result (reads_lists bytes.now size (row_flags flags) at count) }
{
    let length = RowFlags::of(flags).row_length();
    if length == 4 {
        read_rows_of::<4>(alloc, bytes, size, flags, at, count)
    } else if length == 8 {
        read_rows_of::<8>(alloc, bytes, size, flags, at, count)
    } else if length == 12 {
        read_rows_of::<12>(alloc, bytes, size, flags, at, count)
    } else if length == 16 {
        read_rows_of::<16>(alloc, bytes, size, flags, at, count)
    } else {
        Ok(TrunLists {
            durations: Entries::new(alloc),
            sizes: Entries::new(alloc),
            flags: Entries::new(alloc),
            cts: Entries::new(alloc),
        })
    }
}

/// Returns the number of entries that a list must have: `count` if its flag is set, else 0.
fn count_if(is_flagged: bool, count: u32) -> usize
    ensures { result ≡ count_if is_flagged count }
{
    if is_flagged { count as usize } else { 0 }
}

/// Returns whether the list `numbers` has `count` entries if its flag is set, and none otherwise.
pub(crate) fn is_listed(is_flagged: bool, count: u32, numbers: &[u32]) -> bool
    ensures { IsTrue result ↔ IsListed is_flagged count numbers.now }
{
    numbers.len() == count_if(is_flagged, count) && all_fit(numbers)
}
