//! Strings, which contracts see only as their bytes.

ghost use Rattle.std.specs.Prelude.{◌≡◌, ◌==◌, ◌↔◌, [], IfOk, IfErr, IsTrue, length, nat_eq, string_bytes};
ghost use Rattle.std.specs.Cmp.{partial_equiv_from_equiv};
ghost use Rattle.std.specs.Cmp.Lexicographic.{pointwise, nat_list_eq_equiv};
ghost use Rattle.std.specs.Str.{IsUtf8};
ghost use Rattle.mp4_frame.specs.declared.error.Error.TheVariants.{OutOfMemory};
ghost use Rattle.mp4_frame.specs.Text.{text_or};

use crate::error::Result;
use crate::try_clone::TryClone;
use std::alloc::Global;
use std::fmt;
use std::marker::Model;
use std::ops::Deref;

/// A string, which contracts see as its UTF-8 bytes. `into()` makes it from a `String`, and `into_string()` turns it
/// into one. Neither takes memory. Two strings are equal if their bytes are equal.
#[derive(Drop)]
pub struct Text {
    string: String,
}

impl Model for Text {
    ghost use Rattle.std.specs.Prelude.{List, ℕ, string_bytes};

    ghost Value = { List ℕ };

    ghost view = { λ t. string_bytes t.string };
}

impl Text {
    /// Returns an empty string, which takes no memory.
    pub fn new(alloc: Global) -> Text
        ensures { result ≡ [] }
    {
        Text {
            string: String::new(alloc),
        }
    }

    /// Returns a copy of `text`.
    pub fn from_str(alloc: Global, text: &str) -> Result<Text>
        ensures text { IfOk result (λ t. t ≡ text.now) }
        ensures memory { IfErr result (λ e. e ≡ OutOfMemory) }
    {
        Ok(Text {
            string: String::from_str(alloc, text)?,
        })
    }

    /// Returns a copy of `bytes` if they are UTF-8, else a copy of `other`.
    #[tactic(auto, using(crate::specs::TextLaws::text_as_is, crate::specs::TextLaws::text_replaced))]
    pub fn from_utf8_or(alloc: Global, bytes: &[u8], other: &str) -> Result<Text>
        ensures text { IfOk result (λ t. t ≡ text_or other.now bytes.now) }
        ensures memory { IfErr result (λ e. e ≡ OutOfMemory) }
    {
        match str::from_utf8(bytes) {
            Ok(text) => Text::from_str(alloc, text),
            Err(_) => Text::from_str(alloc, other),
        }
    }

    /// Returns the string as a `String`.
    pub fn into_string(self) -> String
        ensures { string_bytes result ≡ self }
    {
        self.string
    }

    /// Returns the string as a `&str`.
    pub fn as_str(&self) -> &str
        ensures { result.now ≡ self.now }
    {
        self.string.as_str()
    }

    /// Returns the UTF-8 bytes of the string.
    pub fn as_bytes(&self) -> &[u8]
        ensures { result.now ≡ self.now }
    {
        self.string.as_bytes()
    }

    /// Returns the number of bytes.
    pub fn len(&self) -> usize
        ensures { result ≡ length self.now }
    {
        self.as_bytes().len()
    }

    /// Returns whether the string is empty.
    pub fn is_empty(&self) -> bool
        ensures { result ≡ (length self.now == 0) }
    {
        self.as_bytes().is_empty()
    }

    /// Returns `true`. For the prover: a value that was read has the range of its type.
    pub fn is_utf8(&self) -> bool
        ensures { IsTrue result ↔ IsUtf8 self.now }
    {
        // For the prover: a value that was read has the range of its type.
        let _text = self.string.as_str();
        true
    }
}

impl TryClone for Text {
    fn try_clone(&self) -> Result<Text> {
        Ok(Text {
            string: self.string.clone()?,
        })
    }
}

impl From<String> for Text {
    ghost from_gives = { λ s t. t ≡ string_bytes s };

    fn from(string: String) -> Text {
        Text { string }
    }
}

/// Lets a `Text` be read like a `String`.
impl Deref for Text {
    type Target = String;

    ghost deref_gives = { λ t s. string_bytes s ≡ t };

    fn deref(&self) -> &String {
        &self.string
    }
}

impl fmt::Debug for Text {
    fn fmt<W: fmt::Write>(&self, f: &mut fmt::Formatter<W>) -> fmt::Result {
        fmt::Debug::fmt(&self.string, f)
    }
}

impl PartialEq for Text {
    ghost eq = { λ x y. pointwise nat_eq x y };

    ghost laws = { partial_equiv_from_equiv nat_list_eq_equiv };

    fn eq(&self, other: &Text) -> bool {
        self.as_bytes() == other.as_bytes()
    }
}

impl Eq for Text {
    ghost laws = { nat_list_eq_equiv };
}
