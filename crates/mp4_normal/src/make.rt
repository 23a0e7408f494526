//! The second walk over a stream, which makes the changes in its bytes.

ghost use Rattle.std.specs.Prelude.{◌≡◌, ◌+◌, ◌-◌, ◌≤◌, ◌++◌, length, take, drop, OnOk, OnErr, IfErr, vec_len};
ghost use Rattle.mp4_frame.specs.declared.error.Error.TheVariants.{OutOfMemory};
ghost use Rattle.mp4_normal.specs.Changes.{AreBefore, made_of, part};

use crate::change::{Change, Changes};
use mp4_frame::{Result, write_zeros};

/// The progress of making changes.
#[derive(Clone, Copy)]
pub struct Made {
    /// The number of the stream's bytes that are done.
    begin: usize,
    /// The number of new bytes that are used.
    from: usize,
    /// The number of bytes of the result so far.
    done: usize,
}

/// Moves `bytes[begin..end]` to offset `to`, which is at most `begin`.
fn move_back(bytes: &mut [u8], begin: usize, end: usize, to: usize)
    requires order { begin ≤ end }
    requires behind { to ≤ begin }
    requires within { end ≤ length bytes.old }
    ensures moved { take (to + (end - begin)) bytes.new ≡ take to bytes.old ++ part bytes.old begin end }
    ensures len { length bytes.new ≡ length bytes.old }
    ensures rest { drop end bytes.new ≡ drop end bytes.old }
{
    if to < begin {
        bytes.copy_within(begin..end, to);
    }
}

/// Copies `fresh` into `bytes` at offset `at`.
fn put_at(bytes: &mut [u8], at: usize, fresh: &[u8])
    requires room { at + length fresh.now ≤ length bytes.old }
    ensures put { take (at + length fresh.now) bytes.new ≡ take at bytes.old ++ fresh.now }
    ensures len { length bytes.new ≡ length bytes.old }
    ensures rest { drop (at + length fresh.now) bytes.new ≡ drop (at + length fresh.now) bytes.old }
{
    bytes[at..at + fresh.len()].copy_from_slice(fresh);
}

/// Lengthens `bytes` by `growth`, and moves its old bytes to its end. After an `Err`, which is out of memory, it is as
/// it was.
fn make_room(bytes: &mut Vec<u8>, growth: usize) -> Result<()>
    ensures moved { OnOk result (drop growth bytes.new.items ≡ bytes.old.items) }
    ensures len { OnOk result (vec_len bytes.new ≡ vec_len bytes.old + growth) }
    ensures kept { OnErr result (bytes.new.items ≡ bytes.old.items) }
    ensures error { IfErr result (λ e. e ≡ OutOfMemory) }
{
    if growth > 0 {
        let length = bytes.len();
        write_zeros(bytes, growth as u64)?;
        bytes.copy_within(..length, growth);
    }
    Ok(())
}

/// Makes one change: the stream's bytes before it move to the end of the result, and the new bytes follow. In `bytes`,
/// each byte of the stream is at its offset plus `growth`.
fn make_change(bytes: &mut [u8], fresh: &[u8], growth: usize, made: Made, change: Change) -> Made
    requires begin { made.begin ≤ change.begin }
    requires end { change.begin ≤ change.end }
    requires within { change.end + growth ≤ length bytes.old }
    requires from { made.from ≤ change.to }
    requires to { change.to ≤ length fresh.now }
    requires behind { made.done ≤ made.begin + growth }
    requires room { made.done + (change.begin - made.begin) + (change.to - made.from) ≤ change.end + growth }
    ensures made { take result.done bytes.new ≡ take made.done bytes.old
        ++ (part bytes.old (made.begin + growth) (change.begin + growth) ++ part fresh.now made.from change.to) }
    ensures len { length bytes.new ≡ length bytes.old }
    ensures rest { drop (change.end + growth) bytes.new ≡ drop (change.end + growth) bytes.old }
    ensures begin { result.begin ≡ change.end }
    ensures from { result.from ≡ change.to }
    ensures done { result.done ≡ made.done + (change.begin - made.begin) + (change.to - made.from) }
{
    move_back(bytes, made.begin + growth, change.begin + growth, made.done);
    let at = made.done + (change.begin - made.begin);
    put_at(bytes, at, &fresh[made.from..change.to]);
    Made {
        begin: change.end,
        from: change.to,
        done: at + (change.to - made.from),
    }
}

/// Makes all changes in a stream that is at the end of `bytes`, and moves its last bytes to the result. Returns the
/// length of the result.
fn make_all(bytes: &mut [u8], changes: &Changes) -> usize
    requires room { changes.now.growth ≤ length bytes.old }
    requires before { AreBefore changes.now (length changes.now.fresh.items)
        (length (drop changes.now.growth bytes.old)) }
    ensures made { take result bytes.new ≡ made_of changes.now (drop changes.now.growth bytes.old)
        (length (drop changes.now.growth bytes.old)) }
    ensures len { length bytes.new ≡ length bytes.old }
    ensures within { result ≤ length bytes.new }
{
    let mut made = Made {
        begin: 0,
        from: 0,
        done: 0,
    };
    for index in 0..changes.list.len() {
        let change = changes.list[index];
        made = make_change(bytes, &changes.fresh, changes.growth, made, change);
    }
    let begin = made.begin + changes.growth;
    let end = bytes.len();
    move_back(bytes, begin, end, made.done);
    made.done + (end - begin)
}

/// Makes `changes` in the stream `bytes`. After an `Err`, which is out of memory, `bytes` is as it was.
pub fn make(bytes: &mut Vec<u8>, changes: &Changes) -> Result<()>
    requires before { AreBefore changes.now (length changes.now.fresh.items) (length bytes.old.items) }
    ensures made { OnOk result (bytes.new.items ≡ made_of changes.now bytes.old.items (length bytes.old.items)) }
    ensures kept { OnErr result (bytes.new.items ≡ bytes.old.items) }
    ensures error { IfErr result (λ e. e ≡ OutOfMemory) }
{
    make_room(bytes, changes.growth)?;
    let done = make_all(bytes, changes);
    bytes.truncate(done);
    Ok(())
}
