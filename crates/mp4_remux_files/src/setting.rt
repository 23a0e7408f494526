//! The content of a box with new numbers in some of its fields.

ghost use Rattle.std.specs.Prelude.{◌≡◌, ◌-◌, IfOk, IsTrue};
ghost use Rattle.mp4_frame.specs.Bytes.{number};
ghost use Rattle.mp4_remux_files.specs.Fields.{AreSet, AreSetFrom};
ghost use Rattle.mp4_walk.specs.Source.{piece};

use crate::field::Field;
use crate::numbers::{NoFields, number_at};
use crate::ranges::are_same;
use std::alloc::{AllocError, Global};

/// Adds the bytes of `content` from `begin` to `end`. Returns false if there are none.
fn push_part(made: &mut Vec<u8>, content: &[u8], begin: u64, end: u64) -> Result<bool, AllocError> {
    if begin > end || end > content.len() as u64 {
        return Ok(false);
    }
    made.extend_from_slice(&content[begin as usize..end as usize])?;
    Ok(true)
}

/// Adds the number of `field`. Returns false if it doesn't fit.
fn push_number(made: &mut Vec<u8>, field: Field) -> Result<bool, AllocError> {
    if field.width == 8 {
        made.extend_from_slice(&field.value.to_be_bytes())?;
        return Ok(true);
    }
    if field.width == 4 {
        return match u32::try_from(field.value) {
            Ok(number) => {
                made.extend_from_slice(&number.to_be_bytes())?;
                Ok(true)
            }
            Err(_) => Ok(false),
        };
    }
    Ok(field.width == 0 && field.value == 0)
}

/// Returns a copy of `content` in which `fields` have their new numbers. No clause describes it, since `is_set` checks
/// it.
fn copied(alloc: Global, content: &[u8], fields: &[Field]) -> Result<Vec<u8>, NoFields> {
    let mut made = Vec::with_capacity(alloc, content.len())?;
    let mut at: u64 = 0;
    for field in fields {
        if !push_part(&mut made, content, at, field.begin)? {
            return Err(NoFields::Unknown);
        }
        if !push_number(&mut made, *field)? {
            return Err(NoFields::Unknown);
        }
        at = field.begin.saturating_add(field.width);
    }
    if push_part(&mut made, content, at, content.len() as u64)? {
        Ok(made)
    } else {
        Err(NoFields::Unknown)
    }
}

/// Returns whether the bytes of `new` from `begin` to `end` are those of `old`.
fn are_kept(old: &[u8], new: &[u8], begin: u64, end: u64) -> bool
    ensures { IsTrue result → piece new.now begin (end - begin) ≡ piece old.now begin (end - begin) }
{
    are_same(old, begin, end, new, begin, end)
}

/// Returns whether `new` has the number of `field`.
fn has_number(new: &[u8], field: Field) -> bool
    ensures { IsTrue result → number new.now field.begin field.width ≡ field.value }
{
    match number_at(new, field.begin, field.width) {
        Some(number) => number == field.value,
        None => false,
    }
}

/// Returns whether `new` has the same bytes as `old`, of the same length, except for the numbers of `fields`.
fn are_set(old: &[u8], new: &[u8], fields: &[Field]) -> bool
    ensures { IsTrue result → AreSetFrom old.now new.now 0 fields.now }
{
    let mut at: u64 = 0;
    for field in fields {
        if field.begin < at || !are_kept(old, new, at, field.begin) {
            return false;
        }
        if !has_number(new, *field) {
            return false;
        }
        match field.begin.checked_add(field.width) {
            Some(next) => at = next,
            None => return false,
        }
    }
    are_kept(old, new, at, old.len() as u64)
}

/// Returns whether `new` is `old` with the numbers of `fields`.
pub fn is_set(old: &[u8], new: &[u8], fields: &[Field]) -> bool
    ensures { IsTrue result → AreSet old.now new.now fields.now }
{
    new.len() == old.len() && are_set(old, new, fields)
}

/// Returns a copy of `content` in which `fields` have their new numbers.
pub fn set(alloc: Global, content: &[u8], fields: &[Field]) -> Result<Vec<u8>, NoFields>
    ensures { IfOk result (λ made. AreSet content.now made.items fields.now) }
{
    let made = match copied(alloc, content, fields) {
        Ok(made) => made,
        Err(fault) => return Err(fault),
    };
    if is_set(content, made.as_slice(), fields) {
        Ok(made)
    } else {
        Err(NoFields::Unknown)
    }
}
