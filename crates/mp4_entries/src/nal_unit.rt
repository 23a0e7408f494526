//! A parameter set.

ghost use Rattle.std.specs.Prelude.{◌≡◌, [], IfOk, IfErr};
ghost use Rattle.mp4_frame.specs.declared.error.Error.TheVariants.{OutOfMemory};

use mp4_frame::{Entries, Result, TryClone};
use std::alloc::Global;

/// A unit of the network abstraction layer, here a parameter set (ISO/IEC 14496-15, 5.3.3.1).
#[derive(Debug, Drop, PartialEq, Eq)]
pub struct NalUnit {
    /// The bytes of the unit, without its length. At most 65535 bytes can be written.
    pub bytes: Entries<u8>,
}

impl NalUnit {
    /// Creates a unit without bytes. This takes no memory.
    pub fn default_in(alloc: Global) -> NalUnit
        ensures { result ≡ record { bytes = [] } }
    {
        NalUnit {
            bytes: Entries::new(alloc),
        }
    }

    /// Creates a unit with a copy of `bytes`. The only error is out of memory.
    pub fn from_bytes(alloc: Global, bytes: &[u8]) -> Result<NalUnit>
        ensures unit { IfOk result (λ unit. unit ≡ record { bytes = bytes.now }) }
        ensures memory { IfErr result (λ e. e ≡ OutOfMemory) }
    {
        Ok(NalUnit {
            bytes: Vec::from_slice(alloc, bytes)?.into(),
        })
    }
}

impl TryClone for NalUnit {
    fn try_clone(&self) -> Result<NalUnit> {
        Ok(NalUnit {
            bytes: self.bytes.try_clone()?,
        })
    }
}
