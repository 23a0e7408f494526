//! Clones of lists whose entries own memory.

ghost use Rattle.std.specs.Prelude.{◌≡◌, IfOk, IfErr};
ghost use Rattle.mp4_frame.specs.declared.error.Error.TheVariants.{OutOfMemory};

use mp4_frame::{Entries, Result, TryClone};
use std::alloc::Global;

/// Returns a clone of `entries`, which shares no memory with them. The only error is out of memory.
pub fn clone_each<X: TryClone + Drop>(alloc: Global, entries: &[X]) -> Result<Entries<X>>
    ensures clone { IfOk result (λ clone. clone ≡ entries.now) }
    ensures memory { IfErr result (λ e. e ≡ OutOfMemory) }
{
    let mut clone = Entries::new(alloc);
    for entry in entries {
        clone.push(entry.try_clone()?)?;
    }
    Ok(clone)
}
