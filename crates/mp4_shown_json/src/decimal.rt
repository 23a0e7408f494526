//! Decimals that are numbers of JSON.

ghost use Rattle.std.specs.Prelude.{◌≡◌, IsTrue};
ghost use Rattle.json.specs.Print.{IsNumber};
ghost use Rattle.mp4_shown_json.specs.Tokens.{is_number};

/// Returns whether `text` is a number of JSON (RFC 8259, section 6).
pub(crate) fn is_number(text: &str) -> bool
    ensures same { result ≡ is_number text.now }
    ensures number { IsTrue result → IsNumber text.now }
{
    json::is_number(text)
}
