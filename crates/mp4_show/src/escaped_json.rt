//! The text of fields as JSON.

ghost use Rattle.std.specs.Prelude.{◌≡◌, [], IfOk};
ghost use Rattle.std.specs.Str.{IsUtf8};
ghost use Rattle.json.specs.Print.{print};
ghost use Rattle.mp4_show.specs.Escaped.{json_escaped};

use crate::escape::into_json;
use mp4_shown::Result;
use mp4_shown_json::JsonSink;
use std::alloc::Global;

/// Returns the text of what `sink` has written, with a number such as `\u009b` for each character of `is_escaped`.
pub fn json_text(alloc: Global, sink: JsonSink) -> Result<Vec<u8>>
    ensures text { sink.out.before ≡ []
        → IfOk result (λ text. text.items ≡ json_escaped (print sink.out.tokens)) }
    ensures utf8 { sink.out.before ≡ [] → IfOk result (λ text. IsUtf8 text.items) }
{
    match String::from_utf8(sink.into_text()) {
        Ok(text) => Ok(into_json(alloc, text)?.into_bytes()),
        Err(error) => Ok(error.into_bytes()),
    }
}
