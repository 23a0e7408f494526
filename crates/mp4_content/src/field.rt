//! The places of values in a JSON value, by texts such as `entries[0].media_time`.

ghost use Rattle.std.specs.Prelude.{◌≡◌, ◌++◌, IfOk, None, Some, if◌then◌else◌, map, option_map};
ghost use Rattle.json.specs.Value.{value_view};
ghost use Rattle.mp4_content.specs.Field.{entry_number, field_places, member_places, place_of, value_after, value_at};

use json::Value;
use std::alloc::{AllocError, Global};

/// A step from a JSON value to one inside of it.
#[derive(Clone, Copy, Debug)]
pub enum Step<'a> {
    /// To the member with this name.
    Member(&'a str),
    /// To the entry with this number, starting at 0.
    Entry(usize),
}

/// Returns the number that `text` is, with a bracket after it.
fn entry_number(text: &str) -> Option<usize>
    ensures { result ≡ entry_number text.now }
{
    text.strip_suffix(']')?.parse::<usize>().ok()
}

/// Adds the steps to the member that `text` names, or to an entry of it: a name, and numbers in brackets after it.
/// Returns whether it is such a text.
fn push_member<'a>(text: &'a str, steps: &mut Vec<Step<'a>>) -> Result<bool, AllocError>
    ensures { IfOk result
        (λ valid. option_map (λ ps. map place_of steps.old.items ++ ps) (member_places text.now)
        ≡ (if valid then Some (map place_of steps.new.items) else None)) }
{
    let mut pieces = text.split('[');
    let Some(name) = pieces.next() else {
        return Ok(false);
    };
    steps.push(Step::Member(name))?;
    for piece in pieces {
        let Some(number) = entry_number(piece) else {
            return Ok(false);
        };
        steps.push(Step::Entry(number))?;
    }
    Ok(true)
}

/// Returns the steps to the field `field`: the names of fields and members, separated by points. A number in brackets
/// after a name is that of an entry, starting at 0. Returns `None` if it is another text.
pub fn steps_of<'a>(alloc: Global, field: &'a str) -> Result<Option<Vec<Step<'a>>>, AllocError>
    ensures { IfOk result
        (λ steps. option_map (λ s. map place_of s.items) steps ≡ field_places field.now) }
{
    let mut steps = Vec::new(alloc);
    for text in field.split('.') {
        if !push_member(text, &mut steps)? {
            return Ok(None);
        }
    }
    Ok(Some(steps))
}

/// Returns the value to which `step` leads from `value`.
fn value_after<'v, 'a>(value: &'v Value<'a>, step: Step<'_>) -> Option<&'v Value<'a>>
    ensures { option_map (λ v. value_view v.now) result ≡ value_after (place_of step.entry) (value_view value.now) }
{
    match step {
        Step::Member(name) => value.get(name),
        Step::Entry(number) => value.at(number),
    }
}

/// Returns the value to which `steps` lead from `value`.
pub fn value_at<'v, 'a>(value: &'v Value<'a>, steps: &[Step<'_>]) -> Option<&'v Value<'a>>
    ensures { option_map (λ v. value_view v.now) result ≡ value_at (map place_of steps.now) (value_view value.now) }
{
    let Some((first, rest)) = steps.split_first() else {
        return Some(value);
    };
    let mut here = value_after(value, *first)?;
    for step in rest {
        here = value_after(here, *step)?;
    }
    Some(here)
}
