//! The failures of memory.

ghost use Rattle.std.specs.Prelude.{◌≡◌, Ok, IfOk, IfErr};

use mp4_io::Failure;

/// Returns the outcome of a call that fails only if it is out of memory.
pub fn or_memory<T: Drop>(outcome: mp4_show::Result<T>) -> Result<T, Failure>
    ensures ok { IfOk result (λ value. outcome ≡ Ok value) }
    ensures error { IfErr result (λ failure. failure ≡ Failure.Memory) }
{
    match outcome {
        Ok(value) => Ok(value),
        Err(_) => Err(Failure::Memory),
    }
}
