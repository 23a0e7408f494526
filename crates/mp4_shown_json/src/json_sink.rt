//! The fields of a box as JSON.

ghost use Rattle.std.specs.Prelude.{◌≡◌, ℕ, ◌^◌, ◌-◌, true, false, List, [], ◌∷◌, ◌++◌, OnOk, codes, map};
ghost use Rattle.std.specs.Str.{IsUtf8};
ghost use Rattle.std.specs.Str.Lossy.{utf8_lossy};
ghost use Rattle.hex.specs.Hex.{encode_lower};
ghost use Rattle.json.specs.Print.{print};
ghost use Rattle.json.specs.Token.{Token, begin_array, begin_object, end_array, end_object, key, number, string};
ghost use Rattle.mp4_shown.specs.Event.{bytes_of_code, shown_of};
ghost use Rattle.mp4_shown_json.specs.Fixed.{fixed_text};
ghost use Rattle.mp4_shown_json.specs.Tokens.{Puts, code_text, code_token, decimal_token, first_row, fixed_member};
ghost use Rattle.mp4_shown_json.specs.Tokens.{is_number, last_bytes, matrix_members, meaning_tokens, second_row};
ghost use Rattle.mp4_shown_json.specs.Tokens.{signed_token, then_event, third_row, value_tokens};

use crate::code::push_latin;
use crate::decimal::is_number;
use crate::fixed::push_fixed;
use json::Writer;
use mp4_frame::FourCC;
use mp4_shown::{FieldSink, Matrix, Result, Value, View};
use std::alloc::Global;

/// Takes the fields of a box as members of a JSON object.
#[derive(Drop)]
pub struct JsonSink {
    alloc: Global,
    /// The writer of the members.
    pub out: Writer,
}

impl JsonSink {
    /// Creates a sink that has taken nothing.
    pub fn new(alloc: Global) -> JsonSink
        ensures before { result.out.before ≡ [] }
        ensures tokens { result.out.tokens ≡ [] }
    {
        JsonSink {
            alloc,
            out: Writer::new(Vec::new(alloc)),
        }
    }

    /// Returns the text of what is written.
    pub fn into_text(self) -> Vec<u8>
        ensures text { result.items ≡ self.out.before ++ print self.out.tokens }
        ensures utf8 { IsUtf8 (print self.out.tokens) }
    {
        let JsonSink { alloc: _, out } = self;
        out.into_inner()
    }

    /// Writes a code: a text of four characters, each of the number of its byte.
    pub fn code(&mut self, code: FourCC) -> Result<()>
        ensures { OnOk result (Puts self.old.out self.new.out (string (code_text code.value) ∷ [])) }
    {
        let mut text = String::new(self.alloc);
        push_latin(code, &mut text)?;
        self.out.string(text.as_str())?;
        Ok(())
    }

    /// Writes codes, one after the other.
    fn items(&mut self, codes: &[FourCC]) -> Result<()>
        ensures { OnOk result (Puts self.old.out self.new.out (map code_token (map bytes_of_code codes.now))) }
    {
        for code in codes {
            self.code(*code)?;
        }
        Ok(())
    }

    /// Writes codes as an array.
    fn codes(&mut self, codes: &[FourCC]) -> Result<()>
        ensures { OnOk result (Puts self.old.out self.new.out
            (begin_array ∷ (map code_token (map bytes_of_code codes.now) ++ end_array ∷ []))) }
    {
        self.out.begin_array()?;
        self.items(codes)?;
        self.out.end_array()?;
        Ok(())
    }

    /// Writes bytes as a text of their hexadecimal digits.
    fn bytes(&mut self, bytes: &[u8]) -> Result<()>
        ensures { OnOk result (Puts self.old.out self.new.out (string (encode_lower bytes.now) ∷ [])) }
    {
        let digits = hex::encode(self.alloc, bytes)?;
        self.out.string(digits.as_str())?;
        Ok(())
    }

    /// Writes the last `count` bytes of a number, as a text of their hexadecimal digits.
    fn hex(&mut self, number: u64, count: usize) -> Result<()>
        ensures { OnOk result (Puts self.old.out self.new.out (string (encode_lower (last_bytes count number)) ∷ [])) }
    {
        let bytes = number.to_be_bytes();
        self.bytes(&bytes[8 - count.min(8)..])
    }

    /// Writes `text`, with U+FFFD for what is not UTF-8 in it.
    fn text(&mut self, text: &[u8]) -> Result<()>
        ensures { OnOk result (Puts self.old.out self.new.out (string (utf8_lossy text.now) ∷ [])) }
    {
        let text = String::from_utf8_lossy(self.alloc, text)?;
        self.out.string(text.as_str())?;
        Ok(())
    }

    /// Writes a fixed-point number as an exact decimal.
    fn fixed(&mut self, negative: bool, size: u64, bits: u32) -> Result<()>
        ensures { OnOk result (Puts self.old.out self.new.out (number (fixed_text negative size bits) ∷ [])) }
    {
        let mut text = String::new(self.alloc);
        push_fixed(negative, size, bits, &mut text)?;
        self.out.number(text.as_str())?;
        Ok(())
    }

    /// Writes a decimal: as a number if JSON has it as one, and otherwise as text.
    fn decimal(&mut self, text: &str) -> Result<()>
        ensures { OnOk result (Puts self.old.out self.new.out (decimal_token (is_number text.now) text.now ∷ [])) }
    {
        if is_number(text) {
            self.out.number(text)?;
        } else {
            self.out.string(text)?;
        }
        Ok(())
    }

    /// Writes a whole number that may be negative.
    fn signed(&mut self, number: i64) -> Result<()>
        ensures { OnOk result (Puts self.old.out self.new.out (signed_token number ∷ [])) }
    {
        self.out.i64(number)?;
        Ok(())
    }

    /// Writes numbers, one after the other.
    fn number_items(&mut self, numbers: &[i16]) -> Result<()>
        ensures { OnOk result (Puts self.old.out self.new.out (map signed_token numbers.now)) }
    {
        for number in numbers {
            self.signed(i64::from(*number))?;
        }
        Ok(())
    }

    /// Writes numbers as an array.
    fn numbers(&mut self, numbers: &[i16]) -> Result<()>
        ensures { OnOk result (Puts self.old.out self.new.out
            (begin_array ∷ (map signed_token numbers.now ++ end_array ∷ []))) }
    {
        self.out.begin_array()?;
        self.number_items(numbers)?;
        self.out.end_array()?;
        Ok(())
    }

    /// Writes a member that is a fixed-point number.
    fn fixed_member(&mut self, name: &str, number: i32, bits: u32) -> Result<()>
        ensures { OnOk result (Puts self.old.out self.new.out (fixed_member name.now number bits)) }
    {
        let number = i64::from(number);
        self.out.key(name)?;
        self.fixed(number.is_negative(), number.unsigned_abs(), bits)
    }

    /// Writes the first three members of a transformation.
    fn first_row(&mut self, matrix: &Matrix) -> Result<()>
        ensures { OnOk result (Puts self.old.out self.new.out (first_row matrix.now)) }
    {
        self.fixed_member("a", matrix.a, 16)?;
        self.fixed_member("b", matrix.b, 16)?;
        self.fixed_member("u", matrix.u, 30)
    }

    /// Writes the next three members of a transformation.
    fn second_row(&mut self, matrix: &Matrix) -> Result<()>
        ensures { OnOk result (Puts self.old.out self.new.out (second_row matrix.now)) }
    {
        self.fixed_member("c", matrix.c, 16)?;
        self.fixed_member("d", matrix.d, 16)?;
        self.fixed_member("v", matrix.v, 30)
    }

    /// Writes the last three members of a transformation.
    fn third_row(&mut self, matrix: &Matrix) -> Result<()>
        ensures { OnOk result (Puts self.old.out self.new.out (third_row matrix.now)) }
    {
        self.fixed_member("x", matrix.x, 16)?;
        self.fixed_member("y", matrix.y, 16)?;
        self.fixed_member("w", matrix.w, 30)
    }

    /// Writes a transformation as an object.
    fn matrix(&mut self, matrix: &Matrix) -> Result<()>
        ensures { OnOk result (Puts self.old.out self.new.out
            (begin_object ∷ (matrix_members matrix.now ++ end_object ∷ []))) }
    {
        self.out.begin_object()?;
        self.first_row(matrix)?;
        self.second_row(matrix)?;
        self.third_row(matrix)?;
        self.out.end_object()?;
        Ok(())
    }

    /// Writes a value.
    fn value(&mut self, value: Value<'_>) -> Result<()>
        ensures { OnOk result (Puts self.old.out self.new.out (value_tokens (shown_of value.entry))) }
    {
        match value {
            Value::Number(number)
            | Value::Named(number, _)
            | Value::Date(number)
            | Value::Flags(number, _, _) => {
                self.out.u64(number)?;
                Ok(())
            }
            Value::Signed(number) | Value::MediaTime(number) => self.signed(number),
            Value::Float(_, decimal) => self.decimal(decimal),
            Value::Fixed(number, bits) => self.fixed(false, number, bits),
            Value::SignedFixed(number, bits) => {
                self.fixed(number.is_negative(), number.unsigned_abs(), bits)
            }
            Value::Hex(number, count) => self.hex(number, count),
            Value::Code(code) => self.code(code),
            Value::Codes(codes) => self.codes(codes),
            Value::Text(text) => self.text(text),
            Value::Bytes(bytes) => self.bytes(bytes),
            Value::Numbers(numbers) => self.numbers(numbers),
            Value::Matrix(matrix) => self.matrix(matrix),
        }
    }

    /// Writes a member with `meaning`, under `name` with `_name` after it.
    fn named(&mut self, name: &str, meaning: &str) -> Result<()>
        ensures { OnOk result (Puts self.old.out self.new.out
            (key (name.now ++ codes "_name") ∷ string meaning.now ∷ [])) }
    {
        let mut key = String::new(self.alloc);
        key.push_str(name)?;
        key.push_str("_name")?;
        self.out.key(key.as_str())?;
        self.out.string(meaning)?;
        Ok(())
    }

    /// Writes the meaning of a number, if it has one.
    fn meaning(&mut self, name: &str, value: Value<'_>) -> Result<()>
        ensures { OnOk result (Puts self.old.out self.new.out (meaning_tokens name.now (shown_of value.entry))) }
    {
        match value {
            Value::Named(_, meaning) => self.named(name, meaning),
            Value::Number(_)
            | Value::Signed(_)
            | Value::Flags(_, _, _)
            | Value::Date(_)
            | Value::Fixed(_, _)
            | Value::SignedFixed(_, _)
            | Value::Hex(_, _)
            | Value::Code(_)
            | Value::Codes(_)
            | Value::Text(_)
            | Value::Bytes(_)
            | Value::Float(_, _)
            | Value::MediaTime(_)
            | Value::Numbers(_)
            | Value::Matrix(_) => Ok(()),
        }
    }
}

impl FieldSink for JsonSink {
    ghost Trace = { List ℕ × List Token };

    ghost trace = { λ sink. (sink.out.before, sink.out.tokens) };

    ghost after = { then_event };

    ghost wanted = { λ _. record { rows = 2 ^ 64 - 1; columns = true } };

    fn view(&self) -> View {
        View {
            rows: usize::MAX,
            columns: true,
        }
    }

    fn field(&mut self, name: &str, value: Value<'_>) -> Result<()> {
        self.out.key(name)?;
        self.value(value)?;
        self.meaning(name, value)
    }

    fn begin_list(&mut self, name: &str, total: usize) -> Result<()> {
        let _ = total;
        self.out.key(name)?;
        self.out.begin_array()?;
        Ok(())
    }

    fn item(&mut self, value: Value<'_>) -> Result<()> {
        self.value(value)
    }

    fn begin_entry(&mut self) -> Result<()> {
        self.out.begin_object()?;
        Ok(())
    }

    fn end_entry(&mut self) -> Result<()> {
        self.out.end_object()?;
        Ok(())
    }

    fn end_list(&mut self) -> Result<()> {
        self.out.end_array()?;
        Ok(())
    }

    fn begin_group(&mut self, name: &str) -> Result<()> {
        self.out.key(name)?;
        self.out.begin_object()?;
        Ok(())
    }

    fn end_group(&mut self) -> Result<()> {
        self.out.end_object()?;
        Ok(())
    }
}
