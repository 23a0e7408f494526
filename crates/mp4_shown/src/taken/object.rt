//! The members of a JSON object that aren't taken out yet.

ghost use Rattle.std.specs.Prelude.{◌≡◌, ◌<◌, IfNone, IfSome, None, length, option_map, position, true};
ghost use Rattle.json.specs.Value.{members_view, value_view};
ghost use Rattle.mp4_shown.specs.Object.{ended, first_of, has, left, members_in, number_at, take_one, take_out};
ghost use Rattle.mp4_shown.specs.TakenPlaces.{IsFirst, is_called};
ghost use Rattle.mp4_shown.specs.Taking.{TakesAs};

use crate::taken::error::{Reason, Result, refuse};
use crate::taken::integer::unsigned_in;
use json::Value;
use std::alloc::Global;

/// The members of a JSON object that aren't taken out yet, in their order.
#[derive(Drop)]
pub struct Object<'a> {
    /// The name and the value of each member.
    pub members: Vec<(&'a str, Value<'a>)>,
}

/// Returns the index of the first of `members` called `name`, or `None` if there is none.
fn position_of(members: &[(&str, Value<'_>)], name: &str) -> Option<usize>
    ensures place { result ≡ position (is_called name.now) members.now }
    ensures inside { IfSome result (λ i. i < length members.now) }
{
    members.iter().position(
        |member: &(&str, Value<'_>)| -> bool
            ensures { result ≡ is_called name.entry.now member.now }
        { member.0 == name },
    )
}

/// Returns the index of the first of `members` called `name`, or `None` if there is none.
fn place_of(members: &[(&str, Value<'_>)], name: &str) -> Option<usize>
    ensures there { IfSome result (λ _. has name.now (members_view members.now) ≡ true) }
    ensures found { IfSome result (IsFirst name.now members.now) }
    ensures none { IfNone result (first_of name.now (members_view members.now) ≡ None) }
    ensures inside { IfSome result (λ i. i < length members.now) }
{
    match position_of(members, name) {
        Some(place) => Some(place),
        None => None,
    }
}

impl<'a> Object<'a> {
    /// Returns whether a member called `name` is left.
    pub fn has(&self, name: &str) -> bool
        ensures { result ≡ has name.now (left self.now) }
    {
        match place_of(self.members.as_slice(), name) {
            Some(_) => true,
            None => false,
        }
    }

    /// Returns the whole number that the first member called `name` is, or `None` if it isn't there or isn't one.
    pub fn number(&self, name: &str) -> Option<u64>
        ensures { result ≡ number_at name.now (left self.now) }
    {
        let place = place_of(self.members.as_slice(), name)?;
        unsigned_in(&self.members[place].1)
    }

    /// Takes the member called `name` out and returns its value, or `None` if there is none. Refuses a second one.
    pub fn take_out(&mut self, alloc: Global, name: &str) -> Result<Option<Value<'a>>>
        ensures { TakesAs (λ value. (option_map value_view value, left self.new)) result
            (take_out name.now (left self.old)) }
    {
        let Some(place) = place_of(self.members.as_slice(), name) else {
            return Ok(None);
        };
        let (_, value) = self.members.remove(place);
        if self.has(name) {
            return Err(refuse(alloc, name, Reason::Twice));
        }
        Ok(Some(value))
    }

    /// Takes the member called `name` out and returns its value. Refuses the object if there is none.
    pub fn take_one(&mut self, alloc: Global, name: &str) -> Result<Value<'a>>
        ensures { TakesAs (λ value. (value_view value, left self.new)) result (take_one name.now (left self.old)) }
    {
        match self.take_out(alloc, name)? {
            Some(value) => Ok(value),
            None => Err(refuse(alloc, name, Reason::Missing)),
        }
    }
}

/// Refuses the first member that is left.
pub fn end_object(alloc: Global, object: &Object<'_>) -> Result<()>
    ensures { TakesAs (λ v. v) result (ended (left object.now)) }
{
    if object.members.is_empty() {
        return Ok(());
    }
    Err(refuse(alloc, object.members[0].0, Reason::Unknown))
}

/// Returns the members of the object `value`. Another value is refused, with the path `path`.
pub fn object_in<'a>(alloc: Global, path: &str, value: Value<'a>) -> Result<Object<'a>>
    ensures { TakesAs left result (members_in path.now (value_view value.entry)) }
{
    match value {
        Value::Object(members) => Ok(Object { members }),
        Value::Null | Value::Bool(_) | Value::Number(_) | Value::String(_) | Value::Array(_) => {
            Err(refuse(alloc, path, Reason::NotObject))
        }
    }
}
