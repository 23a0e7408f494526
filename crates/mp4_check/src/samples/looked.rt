//! The samples that were looked at, and those with a fault.

ghost use Rattle.std.specs.Prelude.{◌≡◌, ◌+◌, ◌<◌, ◌^◌, IfOk, IfSome};
ghost use Rattle.mp4_check.specs.Looked.{frame_fault, is_seen, looked_at, noted, nothing, part_of};
ghost use Rattle.mp4_check.specs.Looked.{unit_fault, with_sample};

use crate::samples::kind::{Kind, kind_at};
use crate::samples::units::past_unit;
use mp4_io::Failure;
use mp4_samples::Sample;
use mp4_walk::{BoxWalk, Source};
use std::alloc::Global;

/// A sample with a fault.
#[derive(Clone, Copy, Debug, PartialEq, Eq)]
pub struct SampleFault {
    /// Its number among the samples that were looked at, counted from 1.
    pub number: u64,
    /// The offset of its first byte.
    pub offset: u64,
    /// The number of its bytes.
    pub size: u32,
    /// The position of its first NAL unit that ends after it, or the number of bytes of a frame.
    pub cause: u64,
}

/// The samples with one kind of fault.
#[derive(Clone, Copy, Debug, PartialEq, Eq)]
pub struct Wrong {
    /// The number of these samples.
    pub count: u64,
    /// The first of them.
    pub first: Option<SampleFault>,
}

/// The samples of a track or of a fragment that were looked at.
#[derive(Clone, Copy, Debug, PartialEq, Eq)]
pub struct Looked {
    /// The number of bytes that more samples may have.
    pub left: u64,
    /// The number of samples.
    pub all: u64,
    /// Those that NAL units don't fill.
    pub units: Wrong,
    /// Those with a part of a frame.
    pub frames: Wrong,
}

/// Returns no samples, if samples may have `left` bytes.
pub fn nothing(left: u64) -> Looked
    ensures { result ≡ nothing left }
{
    let none = Wrong {
        count: 0,
        first: None,
    };
    Looked {
        left,
        all: 0,
        units: none,
        frames: none,
    }
}

/// Returns whether `sample` is looked at after those in `looked`: a file of `length` bytes has its bytes, and it is no
/// larger than the bytes that are left. A sample without bytes counts as one byte.
pub fn is_seen(length: u64, looked: Looked, sample: &Sample) -> bool
    ensures { result ≡ is_seen length looked sample.now }
{
    let end = u128::from(sample.offset) + u128::from(sample.size);
    end <= u128::from(length) && u64::from(sample.size.max(1)) <= looked.left
}

/// Returns the position of the first NAL unit of `sample` that ends after it, if the sample is of a kind with NAL units
/// and one does.
fn unit_fault<S: Source>(
    alloc: Global,
    walk: &mut BoxWalk<S>,
    kind: Kind,
    sample: &Sample,
) -> Result<Option<u64>, Failure>
    requires { sample.now.offset + sample.now.size < 2 ^ 64 }
    ensures value { IfSome walk.old.bytes (λ file. IfOk result (λ r. r ≡ unit_fault file kind sample.now)) }
    ensures kept { walk.new ≡ walk.old }
{
    match kind {
        Kind::Units(byte) => {
            let end = sample.offset + u64::from(sample.size);
            past_unit(alloc, walk, u64::from(byte % 4 + 1), sample.offset, end)
        }
        _ => Ok(None),
    }
}

/// Returns the number of bytes of a frame, if a sample of `size` bytes has a part of one.
fn part_of(frame: u64, size: u32) -> Option<u64>
    ensures { result ≡ part_of frame size }
{
    if frame > 0 && u64::from(size) % frame > 0 {
        Some(frame)
    } else {
        None
    }
}

/// Returns the number of bytes of a frame, if a sample of this kind with `size` bytes has a part of one. A sample of
/// one byte may be a whole frame in QuickTime.
fn frame_fault(kind: Kind, size: u32) -> Option<u64>
    ensures { result ≡ frame_fault kind size }
{
    match kind {
        Kind::Frames(frame) => part_of(frame, size),
        Kind::Counted(frame) if size != 1 => part_of(frame, size),
        _ => None,
    }
}

/// Returns `wrong` with `sample`, if `cause` says why it is wrong. It is sample `number`.
fn noted(number: u64, wrong: Wrong, sample: &Sample, cause: Option<u64>) -> Wrong
    ensures { result ≡ noted number wrong sample.now cause }
{
    let Some(cause) = cause else {
        return wrong;
    };
    Wrong {
        count: wrong.count.saturating_add(1),
        first: match wrong.first {
            None => Some(SampleFault {
                number,
                offset: sample.offset,
                size: sample.size,
                cause,
            }),
            first => first,
        },
    }
}

/// Returns `looked` with `sample`, which has the position `past` of a unit that ends after it, and the bytes `frame` of
/// a frame of which it has a part.
fn with_sample(looked: Looked, sample: &Sample, past: Option<u64>, frame: Option<u64>) -> Looked
    ensures { result ≡ with_sample looked sample.now past frame }
{
    let all = looked.all.saturating_add(1);
    Looked {
        left: looked.left.saturating_sub(u64::from(sample.size.max(1))),
        all,
        units: noted(all, looked.units, sample, past),
        frames: noted(all, looked.frames, sample, frame),
    }
}

/// Returns `looked` after a look at `sample`. `kinds` has the kind of the samples of each entry.
pub fn looked_at<S: Source>(
    alloc: Global,
    walk: &mut BoxWalk<S>,
    kinds: &[Kind],
    looked: Looked,
    sample: &Sample,
) -> Result<Looked, Failure>
    requires { sample.now.offset + sample.now.size < 2 ^ 64 }
    ensures value { IfSome walk.old.bytes
        (λ file. IfOk result (λ r. r ≡ looked_at file kinds.now looked sample.now)) }
    ensures kept { walk.new ≡ walk.old }
{
    let kind = kind_at(kinds, sample.sample_description_index);
    let past = unit_fault(alloc, walk, kind, sample)?;
    let frame = frame_fault(kind, sample.size);
    Ok(with_sample(looked, sample, past, frame))
}
