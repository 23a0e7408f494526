//! Whole numbers in JSON.

ghost use Rattle.std.specs.Prelude.{◌≡◌};
ghost use Rattle.json.specs.Value.{value_view};
ghost use Rattle.mp4_shown.specs.TakenValues.{signed_in, whole_in};

use json::Value;

/// Returns the whole number below 2^64 that `value` is, or `None` if it is none.
pub fn unsigned_in(value: &Value<'_>) -> Option<u64>
    ensures { result ≡ whole_in (value_view value.now) }
{
    value.as_u64()
}

/// Returns the whole number of 64 bits with a sign that `value` is, or `None` if it is none.
pub fn signed_in(value: &Value<'_>) -> Option<i64>
    ensures { result ≡ signed_in (value_view value.now) }
{
    value.as_i64()
}
