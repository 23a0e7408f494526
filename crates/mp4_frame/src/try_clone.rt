//! Cloning that can run out of memory.

ghost use Rattle.std.specs.Prelude.{◌≡◌, IfOk, IfErr};
ghost use Rattle.mp4_frame.specs.declared.error.Error.TheVariants.{OutOfMemory};

use crate::error::Result;

/// A type whose values can be cloned. The only error is out of memory.
pub trait TryClone: Sized {
    /// Returns an equal value, in newly allocated memory.
    fn try_clone(&self) -> Result<Self>
        ensures clone { IfOk result (λ clone. clone ≡ self.now) }
        ensures memory { IfErr result (λ e. e ≡ OutOfMemory) };
}
