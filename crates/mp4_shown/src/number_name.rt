//! The name of a number, and how a person reads it.

ghost use Rattle.std.specs.Prelude.{◌≡◌, ◌<◌, IfSome, OnOk, length, map};
ghost use Rattle.std.specs.List.{position};
ghost use Rattle.mp4_shown.specs.Event.{shown_of, seen_meaning};
ghost use Rattle.mp4_shown.specs.Hands.{Hands};
ghost use Rattle.mp4_shown.specs.Numbers.{is_hidden, named_in, seen_number, shown_in, shown_number, shown_numbers};
ghost use Rattle.mp4_shown.specs.Numbers.{shown_signed, value_of};
ghost use Rattle.mp4_shown.specs.Places.{means};

use crate::field_sink::{FieldSink, Result};
use crate::value::{Meaning, Value};

/// The look of a number.
#[derive(Clone, Copy)]
pub enum NumberAs {
    /// As the number.
    Plain,
    /// As the number with its meaning. A number without one is shown as it is.
    Named,
    /// As flags, in this many hexadecimal digits.
    Flags(usize),
    /// As seconds since the start of 1904.
    Date,
    /// As a fixed-point number with this many bits after the point.
    Fixed(u32),
    /// As bytes, this many.
    Hex(usize),
    /// As reserved bits: as the number, unless it is this one, which the standard has.
    Reserved(u64),
}

/// The name of a number, how it is shown, and what its values or flags mean. It is a tuple so that a clause can name a
/// constant that holds it. `number!` writes one.
pub type NumberName = (&'static str, NumberAs, &'static [Meaning]);

/// The version of a full box.
pub const VERSION: NumberName = ("version", NumberAs::Plain, &[]);

/// The flags of a full box whose flags have no meanings.
pub const FLAGS: NumberName = ("flags", NumberAs::Flags(6), &[]);

/// Returns the place of the first meaning of `number` in `meanings`, or `None` if it has none.
fn place_of(meanings: &[Meaning], number: u64) -> Option<usize>
    ensures place { result ≡ position (means number) meanings.now }
    ensures inside { IfSome result (λ i. i < length meanings.now) }
{
    meanings.iter().position(|meaning| meaning.0 == number)
}

/// Returns `number` with its first meaning in `meanings`, or the number if it has none.
fn named(meanings: &'static [Meaning], number: u64) -> Value<'static>
    ensures { shown_of result ≡ named_in (map seen_meaning meanings.now) number }
{
    match place_of(meanings, number) {
        Some(place) => Value::Named(number, meanings[place].1),
        None => Value::Number(number),
    }
}

/// Returns whether `number` is left out: whether it is reserved and has the standard's value.
fn is_hidden(name: NumberName, number: u64) -> bool
    ensures { result ≡ is_hidden name.entry.1 number }
{
    match name.1 {
        NumberAs::Plain
        | NumberAs::Named
        | NumberAs::Flags(_)
        | NumberAs::Date
        | NumberAs::Fixed(_)
        | NumberAs::Hex(_) => false,
        NumberAs::Reserved(usual) => number == usual,
    }
}

/// Returns `number` as its name says that it is shown.
fn value_of(name: NumberName, number: u64) -> Value<'static>
    ensures { shown_of result ≡ value_of (seen_number name.entry) number }
{
    let (_, number_as, meanings) = name;
    match number_as {
        NumberAs::Plain | NumberAs::Reserved(_) => Value::Number(number),
        NumberAs::Named => named(meanings, number),
        NumberAs::Flags(digits) => Value::Flags(number, digits, meanings),
        NumberAs::Date => Value::Date(number),
        NumberAs::Fixed(bits) => Value::Fixed(number, bits),
        NumberAs::Hex(count) => Value::Hex(number, count),
    }
}

/// Hands `number` to a sink, under its name.
pub fn put_number<K: FieldSink>(name: NumberName, number: u64, sink: &mut K) -> Result<()>
    ensures { OnOk result (Hands K.trace K.after sink.old (shown_number (seen_number name.entry) number) sink.new) }
{
    if is_hidden(name, number) {
        return Ok(());
    }
    sink.field(name.0, value_of(name, number))
}

/// Hands a number that may be negative to a sink, under its name.
pub fn put_signed<K: FieldSink>(name: NumberName, number: i64, sink: &mut K) -> Result<()>
    ensures { OnOk result (Hands K.trace K.after sink.old (shown_signed (seen_number name.entry) number) sink.new) }
{
    match name.1 {
        NumberAs::Fixed(bits) => sink.field(name.0, Value::SignedFixed(number, bits)),
        NumberAs::Plain
        | NumberAs::Named
        | NumberAs::Flags(_)
        | NumberAs::Date
        | NumberAs::Hex(_)
        | NumberAs::Reserved(_) => sink.field(name.0, Value::Signed(number)),
    }
}

/// Hands a number of an entry to a sink, as an item or under its name.
fn put_in<K: FieldSink>(as_items: bool, name: NumberName, number: u64, sink: &mut K) -> Result<()>
    ensures { OnOk result (Hands K.trace K.after sink.old
        (shown_in as_items (seen_number name.entry, number)) sink.new) }
{
    if as_items {
        return sink.item(value_of(name, number));
    }
    put_number(name, number, sink)
}

/// Hands the numbers of an entry to a sink, each as an item or by the name of its place.
pub fn put_numbers<K: FieldSink>(
    as_items: bool,
    names: &[NumberName],
    numbers: &[u64],
    sink: &mut K,
) -> Result<()>
    ensures { OnOk result (Hands K.trace K.after sink.old
        (shown_numbers as_items (map seen_number names.now) numbers.now) sink.new) }
{
    for i in 0..names.len().min(numbers.len()) {
        put_in(as_items, names[i], numbers[i], sink)?;
    }
    Ok(())
}
