//! The mark of a name that is not UTF-8. `clap` takes only text, so it gets such a name escaped and marked.

ghost use Rattle.std.specs.Prelude.{◌≡◌, ◌≢◌, ◌++◌, ◌∷◌, [], ℕ, List, IfSome, IfNone};

/// The last character of a word that is not UTF-8: the only character that no word of a command line has.
pub const MARK: char = '\0';

/// Returns the escaped form of `name` if it has the mark, or `None` if the name is UTF-8.
pub fn unreadable(name: &str) -> Option<&str>
    ensures some { IfSome result (λ text. name.now ≡ text.now ++ 0 ∷ []) }
    ensures none { IfNone result ((text : List ℕ) → name.now ≢ text ++ 0 ∷ []) }
{
    name.strip_suffix(MARK)
}
