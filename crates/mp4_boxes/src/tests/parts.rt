//! Lists of inputs that are read in parts, each of which cuts a header somewhere.

use super::fakes::{Endless, Giver, Refusal, Taker};
use crate::command::Command;
use crate::fault::RunFault;
use crate::list::list_input;
use crate::program::run_command;
use mp4_io::{Input, Output, skip_all};
use mp4_stream::Error;
use std::alloc::Global;
use std::process::Abort;

/// A box of 17 bytes with a header of 16, one of 9 bytes, one of 16 bytes that is only a header, and one with 5 bytes
/// of content that extends to the end. The name of the second has the first and the last printable character.
const BOXES: [u8; 55] = *b"\0\0\0\x01free\0\0\0\0\0\0\0\x11a\0\0\0\x09 s~ b\
    \0\0\0\x01udta\0\0\0\0\0\0\0\x10\0\0\0\0mdatcdefg";

/// The lines of `BOXES`.
const LINES: &[u8] = b"0 17 free\n17 9  s~ \n26 16 udta\n42 13 mdat\n";

/// Lists `bytes` from a reader that gives `most` bytes a call and fails at the call `fails_at`. Returns the result and
/// the output.
fn list(
    rt: &(impl Abort + Alloc<A = Global>),
    bytes: &[u8],
    most: usize,
    fails_at: Option<u64>,
) -> (Result<u64, RunFault>, Vec<u8>, u64) {
    let mut input = Input::new(Giver::new(bytes, most, fails_at));
    let mut output = Output::new(Taker::new(rt.alloc(), 100, None, Refusal::Fails));
    let result = run_command(rt.alloc(), Command::List, &mut input, &mut output);
    assert!(rt; input.failed == matches!(result, Err(RunFault::Read)));
    let calls = input.inner.calls;
    (result, output.inner.taken, calls)
}

#[test]
fn headers_that_are_split_anywhere(rt: HostRuntime) {
    for most in 1..BOXES.len() + 1 {
        let (result, written, calls) = list(&rt, &BOXES, most, None);
        assert!(rt;
            matches!(result, Ok(n) if n == LINES.len() as u64),
            "{most}"
        );
        assert!(rt; written.as_slice() == LINES, "{most}");
        assert_eq!(rt; calls, BOXES.len().div_ceil(most) as u64 + 1, "{most}");
    }
}

/// A box ends after 0, 17, 26 and 42 bytes. With 50 bytes or more the last box has its header and extends to the end.
/// If the input ends anywhere else, a header or a box is cut.
#[test]
fn inputs_that_end_anywhere(rt: HostRuntime) {
    for end in 0..BOXES.len() {
        for most in [1, 3, 7, 64] {
            let (result, written, _) = list(&rt, &BOXES[..end], most, None);
            if matches!(end, 0 | 17 | 26 | 42 | 50..) {
                assert!(rt; result.is_ok(), "{end} {most}");
                assert!(rt; written.is_empty() == (end == 0), "{end} {most}");
            } else {
                assert!(rt;
                    matches!(result, Err(RunFault::Boxes(Error::IoError))),
                    "{end} {most}"
                );
                assert!(rt; written.is_empty(), "{end} {most}");
            }
        }
    }
}

/// Returns `BOXES` in which the box of 16 bytes has a size of 15, smaller than its header.
fn with_a_fault() -> [u8; 55] {
    let mut bytes = BOXES;
    bytes[41] = 15;
    bytes
}

/// The offset after the header with the fault.
const FAULT: usize = 42;

/// Reading stops at the fault, so a later read that would fail is not made.
#[test]
fn a_fault_and_a_failed_read(rt: HostRuntime) {
    let bytes = with_a_fault();
    for most in 1..bytes.len() + 1 {
        let reads = FAULT.div_ceil(most) as u64;
        for bad_read in 1..reads + 3 {
            let (result, written, calls) = list(&rt, &bytes, most, Some(bad_read));
            if bad_read <= reads {
                assert!(rt; matches!(result, Err(RunFault::Read)), "{most} {bad_read}");
            } else {
                assert!(rt;
                    matches!(result, Err(RunFault::Boxes(Error::InvalidData(_)))),
                    "{most} {bad_read}"
                );
            }
            assert!(rt; written.is_empty(), "{most} {bad_read}");
            assert_eq!(rt; calls, bad_read.min(reads), "{most} {bad_read}");
        }
    }
}

/// An input that never ends, and whose first box has a fault.
#[test]
fn a_fault_of_an_endless_input(rt: HostRuntime) {
    let mut input = Input::new(Endless {
        piece: b"\0\0\0\x02free",
        calls: 0,
    });
    let mut output = Output::new(Taker::new(rt.alloc(), 100, None, Refusal::Fails));
    let result = run_command(rt.alloc(), Command::List, &mut input, &mut output);
    assert!(rt; matches!(result, Err(RunFault::Boxes(Error::InvalidData(_)))));
    assert_eq!(rt; input.inner.calls, 1);
    assert!(rt; output.inner.taken.is_empty());
}

/// The end of a list.
#[derive(Clone, Copy, Debug, PartialEq, Eq)]
enum End {
    /// With `LINES`.
    Listed,
    /// With a fault of a size.
    Invalid,
    /// Out of memory.
    Memory,
    /// In another way.
    Other,
}

/// Returns how a list ended.
fn end_of(list: &Result<Vec<u8>, RunFault>) -> End {
    match list {
        Ok(lines) => {
            if lines.as_slice() == LINES {
                End::Listed
            } else {
                End::Other
            }
        }
        Err(RunFault::Boxes(Error::InvalidData(_))) => End::Invalid,
        Err(RunFault::Boxes(Error::OutOfMemory)) => End::Memory,
        Err(_) => End::Other,
    }
}

/// Lists `bytes` from a reader that gives `most` bytes a call, with at most `limit` bytes of input. Returns the end of
/// the list and the number of calls of the reader.
fn list_up_to(alloc: Global, bytes: &[u8], most: usize, limit: usize) -> (End, u64) {
    let mut input = Input::new(Giver::new(bytes, most, None));
    let end = end_of(&list_input(alloc, &mut input, limit as u64));
    (end, input.inner.calls)
}

/// An input may have exactly the limit of bytes. A longer one is out of memory at the call that passes the limit.
#[test]
fn inputs_at_a_limit(rt: HostRuntime) {
    for most in [1, 3, 16, 64] {
        for limit in 0..BOXES.len() + 3 {
            let (end, calls) = list_up_to(rt.alloc(), &BOXES, most, limit);
            if limit < BOXES.len() {
                assert_eq!(rt; end, End::Memory, "{most} {limit}");
                assert_eq!(rt; calls, (limit / most) as u64 + 1, "{most} {limit}");
            } else {
                assert_eq!(rt; end, End::Listed, "{most} {limit}");
            }
        }
    }
}

/// A fault before the limit is returned, and one after it is not found.
#[test]
fn faults_at_a_limit(rt: HostRuntime) {
    let bytes = with_a_fault();
    for most in [1, 3, 16, 64] {
        let read = FAULT.next_multiple_of(most).min(bytes.len());
        for limit in 0..bytes.len() + 3 {
            let (end, _) = list_up_to(rt.alloc(), &bytes, most, limit);
            let wanted = if limit < read {
                End::Memory
            } else {
                End::Invalid
            };
            assert_eq!(rt; end, wanted, "{most} {limit}");
        }
    }
}

/// Inputs that never end: boxes in a row, and a box that extends to the end.
#[test]
fn endless_inputs_at_a_limit(rt: HostRuntime) {
    for piece in [b"\0\0\0\x08free", b"\0\0\0\0free"] {
        let mut input = Input::new(Endless { piece, calls: 0 });
        let end = end_of(&list_input(rt.alloc(), &mut input, 1000));
        assert_eq!(rt; end, End::Memory);
        assert_eq!(rt; input.inner.calls, 126);
        assert!(rt; !input.failed);
    }
}

/// Each call of the reader fails in turn, also in the box that extends to the end.
#[test]
fn reads_that_fail_anywhere(rt: HostRuntime) {
    for most in [1, 5, 16, 64] {
        let reads = BOXES.len().div_ceil(most) as u64 + 1;
        for bad_read in 1..reads + 1 {
            let (result, written, calls) = list(&rt, &BOXES, most, Some(bad_read));
            assert!(rt; matches!(result, Err(RunFault::Read)), "{most} {bad_read}");
            assert!(rt; written.is_empty(), "{most} {bad_read}");
            assert_eq!(rt; calls, bad_read, "{most} {bad_read}");
        }
    }
}

#[test]
fn bytes_that_are_skipped(rt: HostRuntime) {
    let mut buffer = [0; 4];
    let mut input = Input::new(Giver::new(&BOXES, 3, None));
    assert!(rt; matches!(skip_all(&mut input, &mut buffer, 55), Ok(55)));
    let mut input = Input::new(Giver::new(&BOXES, 3, None));
    assert!(rt;
        matches!(
            skip_all(&mut input, &mut buffer, 54),
            Err(mp4_io::Failure::Memory)
        )
    );
    let mut input = Input::new(Giver::new(&BOXES, 64, Some(15)));
    assert!(rt;
        matches!(
            skip_all(&mut input, &mut buffer, u64::MAX),
            Err(mp4_io::Failure::Read)
        )
    );
    assert!(rt; input.failed && input.inner.calls == 15);
}
