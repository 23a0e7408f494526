//! Codes of four characters, and numbers of four bytes up to the end of a box.

ghost use Rattle.std.specs.Prelude.{[]};
ghost use Rattle.json.specs.Value.{items_view};
ghost use Rattle.mp4_shown.specs.TakenLists.{code_entry, code_taken};
ghost use Rattle.mp4_shown.specs.Object.{left};
ghost use Rattle.mp4_shown.specs.TakenRuns.{array_taken, small_in};
ghost use Rattle.mp4_shown.specs.TakenShapes.{codes_taken, small_taken};
ghost use Rattle.mp4_shown.specs.Taking.{TakesAs};

use crate::NamedShape;
use crate::taken::code::{code_in, take_code};
use crate::taken::each::{TakeItem, take_each};
use crate::taken::error::{Reason, Result, refuse};
use crate::taken::list::array_in;
use crate::taken::object::Object;
use crate::taken::run::small_in;
use crate::taken::take::TakeShape;
use json::Value;
use mp4_declared::{Code, Codes, Context, Numbers};
use mp4_frame::{Entries, FourCC};
use std::alloc::Global;

impl TakeShape for Code {
    type Names = &'static str;

    type Taken = FourCC;

    ghost Known = { ⟦<Code as NamedShape>⟧.Seen };

    ghost known = { ⟦<Code as NamedShape>⟧.seen };

    ghost taken = { λ name c ms. code_taken name.now ms };

    fn take(
        alloc: Global,
        name: &&'static str,
        _context: Context,
        object: &mut Object<'_>,
    ) -> Result<FourCC> {
        take_code(alloc, *name, object)
    }
}

/// Takes the array called `name` out.
pub fn take_array<'a>(alloc: Global, name: &str, object: &mut Object<'a>) -> Result<Vec<Value<'a>>>
    ensures { TakesAs (λ items. (items_view items.items, left object.new)) result
        (array_taken name.now (left object.old)) }
{
    let value = object.take_one(alloc, name)?;
    array_in(alloc, name, value)
}

/// An entry that is a code.
#[derive(Drop)]
struct CodeItem;

impl TakeItem<FourCC> for CodeItem {
    ghost taken = { λ by j. code_entry j };

    fn take(&self, alloc: Global, value: Value<'_>) -> Result<FourCC> {
        match code_in(&value) {
            Some(code) => Ok(code),
            None => Err(refuse(alloc, "", Reason::NotCode)),
        }
    }
}

impl TakeShape for Codes {
    type Names = &'static str;

    type Taken = Entries<FourCC>;

    ghost Known = { ⟦<Codes as NamedShape>⟧.Seen };

    ghost known = { ⟦<Codes as NamedShape>⟧.seen };

    ghost taken = { λ name c ms. codes_taken name.now ms };

    fn take(
        alloc: Global,
        name: &&'static str,
        _context: Context,
        object: &mut Object<'_>,
    ) -> Result<Entries<FourCC>> {
        let items = take_array(alloc, *name, object)?;
        let codes: Vec<FourCC> = take_each(alloc, *name, &CodeItem, items)?;
        Ok(codes.into())
    }
}

/// An entry that is a number of 32 bits.
#[derive(Drop)]
struct WordItem;

impl TakeItem<u32> for WordItem {
    ghost taken = { λ by j. small_in 32 [] j };

    fn take(&self, alloc: Global, value: Value<'_>) -> Result<u32> {
        Ok(small_in(alloc, "", 32, &value)? as u32)
    }
}

/// An entry that is a number of 64 bits.
#[derive(Drop)]
pub struct WideItem;

impl TakeItem<u64> for WideItem {
    ghost taken = { λ by j. small_in 64 [] j };

    fn take(&self, alloc: Global, value: Value<'_>) -> Result<u64> {
        small_in(alloc, "", 64, &value)
    }
}

impl TakeShape for Numbers {
    type Names = &'static str;

    type Taken = Entries<u32>;

    ghost Known = { ⟦<Numbers as NamedShape>⟧.Seen };

    ghost known = { ⟦<Numbers as NamedShape>⟧.seen };

    ghost taken = { λ name c ms. small_taken 32 name.now ms };

    fn take(
        alloc: Global,
        name: &&'static str,
        _context: Context,
        object: &mut Object<'_>,
    ) -> Result<Entries<u32>> {
        let items = take_array(alloc, *name, object)?;
        let numbers: Vec<u32> = take_each(alloc, *name, &WordItem, items)?;
        Ok(numbers.into())
    }
}
