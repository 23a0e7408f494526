//! Changes of the positions in a file, which offsets follow.

ghost use Rattle.std.specs.Prelude.{◌≡◌, ℕ, IfSome};

/// A change of the positions in a file.
pub trait Shift {
    /// The offset in place of another one. It is 2^64 or more if there is none.
    ghost after: { Self → ℕ → ℕ };

    /// Returns the offset in place of `offset`, or `None` if there is none or it is past 2^64 - 1.
    fn shifted(&self, offset: u64) -> Option<u64>
        ensures { IfSome result (λ o. o ≡ after self.now offset) };
}
