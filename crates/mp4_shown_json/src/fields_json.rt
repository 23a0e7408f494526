//! The fields of a box as a JSON text.

ghost use Rattle.std.specs.Prelude.{◌≡◌, ◌^◌, ◌-◌, true, IfOk};
ghost use Rattle.json.specs.Json.{Members};
ghost use Rattle.json.specs.Print.{print};
ghost use Rattle.mp4_shown_json.specs.Tokens.{all_tokens};
ghost use Rattle.mp4_shown_json.specs.Whole.{tokens_of_members};

use crate::json_sink::JsonSink;
use mp4_shown::{HasFields, Result, put_fields};
use std::alloc::Global;

/// Returns the fields of a box as the members of a JSON object, without its brackets.
pub fn json_of<B: HasFields>(alloc: Global, fields: &B) -> Result<Vec<u8>>
    ensures text { IfOk result (λ text. text.items
        ≡ print (all_tokens (B.shown (record { rows = 2 ^ 64 - 1; columns = true }) fields.now))) }
    ensures members { IfOk result (λ text. (ms : Members) × (text.items ≡ print (tokens_of_members ms))) }
{
    let mut sink = JsonSink::new(alloc);
    put_fields(fields, &mut sink)?;
    Ok(sink.into_text())
}
