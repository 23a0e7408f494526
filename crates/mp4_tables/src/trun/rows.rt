//! The rows of the track fragment run box, which are written from its lists.

ghost use Rattle.std.specs.Prelude.{◌≡◌, ◌≤◌, ◌+◌, ◌*◌, ◌++◌, length, take, slice_get};
ghost use Rattle.mp4_tables.specs.Flagged.{width_if, optional};
ghost use Rattle.mp4_tables.specs.TrunLists.{HasAt};
ghost use Rattle.mp4_tables.specs.TrunRows.{row_flags, row_length};
ghost use Rattle.mp4_tables.specs.Trun.{ListedTrun, rows_trun};

use crate::trun::TrunBox;
use crate::trun::row_flags::RowFlags;
use mp4_frame::put_u32;

/// Writes the number at index `i` of a list to `out` at offset `at`, if the flag of the list is set. Returns the offset
/// after it.
#[tactic(auto, using(crate::proofs::TrunRows::number_put), unfolding(crate::specs::Flagged::width_if))]
fn put_number(out: &mut [u8], at: usize, is_flagged: bool, numbers: &[u32], i: usize) -> usize
    requires has { HasAt is_flagged i numbers.now }
    requires room { at + width_if is_flagged 4 ≤ length out.old }
    ensures next { result ≡ at + width_if is_flagged 4 }
    ensures put { take result out.new ≡ take at out.old ++ optional 4 (slice_get numbers.now i) }
{
    if is_flagged {
        put_u32(out, at, numbers[i])
    } else {
        at
    }
}

/// Writes the rows of `trun` from offset `at` to the end of `out`. The list flags are constants, so the length of a row
/// is a constant too, and no flag is checked for each row.
fn put_rows_of<const DURATION: bool, const SIZE: bool, const FLAGS: bool, const CTS: bool>(
    out: &mut [u8],
    at: usize,
    trun: &TrunBox,
)
    requires listed { ListedTrun trun.now }
    requires has { row_flags trun.now.flags ≡ record { duration = DURATION; size = SIZE; flags = FLAGS; cts = CTS } }
    requires room { at + row_length (row_flags trun.now.flags) * trun.now.sample_count ≡ length out.old }
    ensures { out.new ≡ take at out.old ++ rows_trun trun.now trun.now.sample_count }
{
    let durations = trun.sample_durations.as_slice();
    let sizes = trun.sample_sizes.as_slice();
    let flags = trun.sample_flags.as_slice();
    let cts = trun.sample_cts.as_slice();
    let mut next = at;
    for i in 0..trun.sample_count as usize {
        let size_at = put_number(out, next, DURATION, durations, i);
        let flags_at = put_number(out, size_at, SIZE, sizes, i);
        let cts_at = put_number(out, flags_at, FLAGS, flags, i);
        next = put_number(out, cts_at, CTS, cts, i);
    }
}

/// Writes the rows of `trun` from offset `at` to the end of `out`. Each combination of list flags has its own loop.
pub(crate) fn put_rows(out: &mut [u8], at: usize, trun: &TrunBox)
    requires listed { ListedTrun trun.now }
    requires room { at + row_length (row_flags trun.now.flags) * trun.now.sample_count ≡ length out.old }
    ensures { out.new ≡ take at out.old ++ rows_trun trun.now trun.now.sample_count }
{
    let has = RowFlags::of(trun.flags);
    match (has.duration, has.size, has.flags, has.cts) {
        (true, true, true, true) => put_rows_of::<true, true, true, true>(out, at, trun),
        (true, true, true, false) => put_rows_of::<true, true, true, false>(out, at, trun),
        (true, true, false, true) => put_rows_of::<true, true, false, true>(out, at, trun),
        (true, true, false, false) => put_rows_of::<true, true, false, false>(out, at, trun),
        (true, false, true, true) => put_rows_of::<true, false, true, true>(out, at, trun),
        (true, false, true, false) => put_rows_of::<true, false, true, false>(out, at, trun),
        (true, false, false, true) => put_rows_of::<true, false, false, true>(out, at, trun),
        (true, false, false, false) => put_rows_of::<true, false, false, false>(out, at, trun),
        (false, true, true, true) => put_rows_of::<false, true, true, true>(out, at, trun),
        (false, true, true, false) => put_rows_of::<false, true, true, false>(out, at, trun),
        (false, true, false, true) => put_rows_of::<false, true, false, true>(out, at, trun),
        (false, true, false, false) => put_rows_of::<false, true, false, false>(out, at, trun),
        (false, false, true, true) => put_rows_of::<false, false, true, true>(out, at, trun),
        (false, false, true, false) => put_rows_of::<false, false, true, false>(out, at, trun),
        (false, false, false, true) => put_rows_of::<false, false, false, true>(out, at, trun),
        // The rows have no bytes, so none is visited.
        (false, false, false, false) => {}
    }
}
