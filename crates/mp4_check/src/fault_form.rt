//! The forms in which the faults of a file are written.

ghost use Rattle.std.specs.Prelude.{[], ◌∷◌, ◌++◌, List, IfOk};
ghost use Rattle.mp4_check.specs.FaultValues.{Value, value_of};
ghost use Rattle.mp4_check.specs.declared.lines.Told.{Told};

use crate::fault::Fault;
use crate::lines::Told;
use mp4_io::Failure;
use std::alloc::Global;

/// A form in which faults are written to an output of the type `O`, in their order.
pub trait FaultForm<O>: Copy {
    /// The faults with these values are written, and no others. The two summaries are those before and after them.
    ghost writes: { Self → Told → List Value → O → O → Told → Type 0 };

    /// The proof that nothing is written without a fault.
    ghost writes_none: { (form : Self) (told : Told) (a : O) → writes form told [] a a told };

    /// The proof that faults may be written in parts, one after the other.
    ghost writes_more: { (form : Self) (told between now : Told) (vs ws : List Value) (a b c : O)
        → writes form told vs a b between → writes form between ws b c now → writes form told (vs ++ ws) a c now };

    /// Writes `fault`. Returns the summary `told` with it.
    fn write(
        &self,
        alloc: Global,
        fault: &Fault,
        told: Told,
        output: &mut O,
    ) -> Result<Told, Failure>
        ensures { IfOk result (λ now. writes self.now told (value_of fault.now ∷ []) output.old output.new now) };
}
