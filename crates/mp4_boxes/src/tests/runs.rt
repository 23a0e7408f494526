//! Runs over readers and writers that fail or move few bytes a call.

use super::fakes::{Giver, Refusal, Taker, Zeros};
use super::{INPUT, LISTED};
use crate::command::Command;
use crate::engine::{finish, read_all};
use crate::fault::RunFault;
use crate::list::run_list;
use crate::program::run_command;
use linked_list_allocator::LocalHeap;
use mp4_io::{Input, Output};
use mp4_stream::Error;
use std::alloc::Global;
use std::test::Fail;

/// The commands, with the output of each for the stored input.
const COMMANDS: [(Command, &[u8]); 2] = [(Command::Normal, &INPUT), (Command::List, &LISTED)];

/// The largest number of bytes that a call of the reader gives.
const GIVEN: usize = 10;

/// The largest number of bytes that a call of the writer takes.
const TAKEN: usize = 7;

/// A number of calls that no run over the stored input reaches.
const CALLS: u64 = 10;

/// Inputs with the output of `run_list` for each: a header of 16 bytes, a name that is not printable, a name that ends
/// with a space, and a last box of size 0.
const LISTS: [(&[u8], &[u8]); 4] = [
    (
        b"\0\0\0\x01mdat\0\0\0\0\0\0\0\x13\x01\x02\x03",
        b"0 19 mdat\n",
    ),
    (b"\0\0\0\x08\xa9nam", b"0 8 0xa96e616d\n"),
    (b"\0\0\0\x0curl \0\0\0\x01", b"0 12 url \n"),
    (
        b"\0\0\0\x18ftypisom\0\0\x02\0isommp41\0\0\0\0mdat\x01\x02\x03",
        b"0 24 ftyp\n24 11 mdat\n",
    ),
];

/// The end of a run.
#[derive(Clone, Copy, Debug, PartialEq, Eq)]
enum End {
    /// With this number of bytes.
    Written(u64),
    /// With a failed read.
    Read,
    /// With a failed write.
    Write,
    /// With another fault.
    Other,
}

/// Returns how a run ended.
fn end_of(outcome: &Result<u64, RunFault>) -> End {
    match outcome {
        Ok(bytes) => End::Written(*bytes),
        Err(RunFault::Read) => End::Read,
        Err(RunFault::Write) => End::Write,
        Err(_) => End::Other,
    }
}

/// The part of a run that is compared.
#[derive(Clone, Copy, Debug, PartialEq, Eq)]
struct Run {
    end: End,
    /// The number of calls of the reader.
    reads: u64,
    /// The number of calls of the writer.
    writes: u64,
    /// The number of bytes that the writer took, if they are the first of the expected output.
    taken: Option<usize>,
    /// The marks of a failed end, of the reader and of the writer.
    failed: (bool, bool),
}

/// Returns the number of bytes of `taken`, if they are the first of `expected`.
fn front_of(taken: &[u8], expected: &[u8]) -> Option<usize> {
    (expected.get(..taken.len()) == Some(taken)).then_some(taken.len())
}

/// Runs a command over the stored input. The calls with the numbers `bad_read` and `bad_write` go wrong.
fn run_with_bad_calls(
    alloc: Global,
    (command, expected): (Command, &[u8]),
    refusal: Refusal,
    bad_read: u64,
    bad_write: u64,
) -> Run {
    let mut input = Input::new(Giver::new(&INPUT, GIVEN, Some(bad_read)));
    let mut output = Output::new(Taker::new(alloc, TAKEN, Some(bad_write), refusal));
    let end = end_of(&run_command(alloc, command, &mut input, &mut output));
    Run {
        end,
        reads: input.inner.calls,
        writes: output.inner.calls,
        taken: front_of(&output.inner.taken, expected),
        failed: (input.failed, output.failed),
    }
}

/// Returns what `run_with_bad_calls` has to return. The last call of the reader is at the end of the input, and the
/// last call of the writer is the flush.
fn expected_run(expected: &[u8], bad_read: u64, bad_write: u64) -> Run {
    let reads = INPUT.len().div_ceil(GIVEN) as u64 + 1;
    let pieces = expected.len().div_ceil(TAKEN) as u64;
    let good_writes = bad_write.saturating_sub(1);
    if bad_read <= reads {
        Run {
            end: End::Read,
            reads: bad_read,
            writes: 0,
            taken: Some(0),
            failed: (true, false),
        }
    } else if good_writes <= pieces {
        let taken = (good_writes as usize).saturating_mul(TAKEN);
        Run {
            end: End::Write,
            reads,
            writes: bad_write,
            taken: Some(taken.min(expected.len())),
            failed: (false, true),
        }
    } else {
        Run {
            end: End::Written(expected.len() as u64),
            reads,
            writes: pieces.saturating_add(1),
            taken: Some(expected.len()),
            failed: (false, false),
        }
    }
}

#[test]
fn each_call_fails_in_turn(rt: HostRuntime) {
    for (command, expected) in COMMANDS {
        for refusal in [Refusal::Fails, Refusal::TakesNone] {
            for bad_read in 1..CALLS {
                for bad_write in 1..CALLS + 1 {
                    let case = (command, refusal, bad_read, bad_write);
                    let run = run_with_bad_calls(
                        rt.alloc(),
                        (command, expected),
                        refusal,
                        bad_read,
                        bad_write,
                    );
                    let wanted = expected_run(expected, bad_read, bad_write);
                    assert_eq!(rt; run, wanted, "{case:?}");
                }
            }
        }
    }
}

#[test]
fn lists_of_literal_inputs(rt: HostRuntime) {
    for (bytes, lines) in LISTS {
        let mut input = Input::new(Giver::new(bytes, GIVEN, None));
        let mut output = Output::new(Taker::new(rt.alloc(), TAKEN, None, Refusal::Fails));
        let result = run_list(rt.alloc(), &mut input, &mut output);
        assert!(rt; matches!(result, Ok(n) if n == lines.len() as u64));
        assert!(rt; output.inner.taken.as_slice() == lines);
    }
}

#[test]
fn one_byte_a_call(rt: HostRuntime) {
    for (command, expected) in COMMANDS {
        let mut input = Input::new(Giver::new(&INPUT, 1, None));
        let mut output = Output::new(Taker::new(rt.alloc(), 1, None, Refusal::Fails));
        let result = run_command(rt.alloc(), command, &mut input, &mut output);
        assert!(rt; matches!(result, Ok(n) if n == expected.len() as u64));
        assert!(rt; output.inner.taken.as_slice() == expected);
        assert!(rt; !input.failed && !output.failed);
    }
}

/// Returns the result of a call of the reader, the buffer after it, and the mark of a failed end.
fn pulled(input: &mut Input<Giver<'_>>, buf: &mut [u8; 8]) -> (Option<usize>, [u8; 8], bool) {
    let result = input.pull(buf);
    (result, *buf, input.failed)
}

/// Returns what three calls of a reader give whose second call fails.
fn three_pulls() -> [(Option<usize>, [u8; 8], bool); 3] {
    let mut input = Input::new(Giver::new(&INPUT, 3, Some(2)));
    let mut buf = [0u8; 8];
    [
        pulled(&mut input, &mut buf),
        pulled(&mut input, &mut buf),
        pulled(&mut input, &mut buf),
    ]
}

/// Returns the result of a call of the writer, and the mark of a failed end.
fn pushed(output: &mut Output<Taker>, bytes: &[u8]) -> (Option<usize>, bool) {
    let result = output.push(bytes);
    (result, output.failed)
}

/// Returns what four calls of a writer give whose third call takes no byte, and whether the bytes of the others were
/// taken.
fn four_pushes(alloc: Global) -> ([(Option<usize>, bool); 4], bool) {
    let mut output = Output::new(Taker::new(alloc, 3, Some(3), Refusal::TakesNone));
    let results = [
        pushed(&mut output, b"isom"),
        pushed(&mut output, b""),
        pushed(&mut output, b"mp41"),
        pushed(&mut output, b"mp"),
    ];
    (
        results,
        output.inner.taken.as_slice() == b"isomp".as_slice(),
    )
}

#[test]
fn one_call_of_an_end(rt: HostRuntime) {
    let pulls = three_pulls();
    assert!(rt;
        pulls
            == [
                (Some(3), [0x00, 0x00, 0x00, 0, 0, 0, 0, 0], false),
                (None, [0x00, 0x00, 0x00, 0, 0, 0, 0, 0], true),
                (Some(3), [0x18, 0x66, 0x74, 0, 0, 0, 0, 0], true),
            ]
    );
    let pushes = [
        (Some(3), false),
        (Some(0), false),
        (None, true),
        (Some(2), true),
    ];
    assert!(rt; four_pushes(rt.alloc()) == (pushes, true));
}

#[test]
fn an_endless_reader_is_out_of_memory(rt: HostRuntime) -> Result<(), Fail> {
    let heap = LocalHeap::new(rt.alloc(), 1_000_000)?;
    let mut input = Input::new(std::io::repeat(0));
    let result = read_all(&heap, &mut input);
    assert!(rt; matches!(result, Err(RunFault::Boxes(Error::OutOfMemory))));
    assert!(rt; !input.failed);
    Ok(())
}

/// Heaps of growing size: the first is too small for the first request, later ones for the second and so on, and the
/// last are large enough for all.
#[test]
fn each_growth_is_refused_in_turn(rt: HostRuntime) -> Result<(), Fail> {
    const ALL: usize = 200_000;
    // The number of bytes that were read before each refused request.
    let mut refusals: Vec<usize> = Vec::new(rt.alloc());
    let mut is_read = false;
    for blocks in 1..32 {
        let heap = LocalHeap::new(rt.alloc(), blocks * 32_768)?;
        let mut input = Input::new(Zeros { left: ALL });
        match read_all(&heap, &mut input) {
            Ok(bytes) => {
                assert_eq!(rt; bytes.len(), ALL);
                assert!(rt; bytes.iter().all(|byte| *byte == 0));
                is_read = true;
            }
            Err(RunFault::Boxes(Error::OutOfMemory)) => {
                assert!(rt; !is_read);
                let read = ALL.saturating_sub(input.inner.left);
                if refusals.last() != Some(&read) {
                    refusals.push(read)?;
                }
            }
            Err(_) => assert!(rt; false),
        }
        assert!(rt; !input.failed);
    }
    assert!(rt; is_read);
    assert_eq!(rt; refusals.as_slice(), [0, 65_536, 131_072].as_slice());
    Ok(())
}

#[test]
fn a_failed_flush_is_a_failed_write(rt: HostRuntime) {
    let mut output = Output::new(Taker::new(rt.alloc(), TAKEN, Some(2), Refusal::Fails));
    assert!(rt; finish(&mut output).is_ok());
    assert!(rt; !output.failed);
    assert!(rt; matches!(finish(&mut output), Err(RunFault::Write)));
    assert!(rt; output.failed);
    assert!(rt; finish(&mut output).is_ok());
    assert!(rt; output.failed);
}
