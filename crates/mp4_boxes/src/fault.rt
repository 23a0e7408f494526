//! The fault that ends a run early.

ghost use Rattle.std.specs.Prelude.{◌≡◌, Some};
ghost use Rattle.mp4_boxes.specs.declared.fault.RunFault.TheVariants.{Boxes};
ghost use Rattle.mp4_boxes.specs.Fault.{fault_of, fault_text};

use mp4_io::Failure;
use mp4_stream::Error;
use std::fmt;

/// The fault that ends a run early.
#[derive(Debug, Drop)]
pub enum RunFault {
    /// A call of the reader failed.
    Read,
    /// A call of the writer failed, or took no byte of a piece that is not empty.
    Write,
    /// The boxes could not be read or written, or memory was refused.
    Boxes(Error),
}

impl From<Error> for RunFault {
    ghost from_gives = { λ e fault. fault ≡ Boxes e };

    fn from(e: Error) -> RunFault {
        RunFault::Boxes(e)
    }
}

impl From<Failure> for RunFault {
    ghost from_gives = { λ failure fault. fault ≡ fault_of failure };

    fn from(failure: Failure) -> RunFault {
        match failure {
            Failure::Read => RunFault::Read,
            Failure::Write => RunFault::Write,
            Failure::Memory => RunFault::Boxes(Error::OutOfMemory),
        }
    }
}

impl fmt::Display for RunFault {
    ghost output = { λ fault. Some (fault_text fault) };

    fn fmt<W: fmt::Write>(&self, f: &mut fmt::Formatter<W>) -> fmt::Result {
        match self {
            RunFault::Read => f.write_str("read failed"),
            RunFault::Write => f.write_str("write failed"),
            RunFault::Boxes(Error::IoError) => f.write_str("end of input"),
            RunFault::Boxes(Error::InvalidData(_)) => f.write_str("invalid data"),
            RunFault::Boxes(Error::OutOfMemory) => f.write_str("out of memory"),
            // The only other error of the codec is a dinf box without its dref child.
            RunFault::Boxes(_) => f.write_str("dref not found"),
        }
    }
}
