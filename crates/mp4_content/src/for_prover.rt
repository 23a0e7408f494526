//! Functions for the prover, which needs a contract where a branch would double its paths.

ghost use Rattle.std.specs.Prelude.{◌≡◌, ◌||◌};

/// For the prover: returns whether one of two is true.
pub fn either(first: bool, second: bool) -> bool
    ensures { result ≡ (first || second) }
{
    first || second
}
