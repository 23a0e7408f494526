//! Takes the box back out of its JSON.

ghost use Rattle.mp4_extra_pictures.specs.declared.colr.TheConstants as colr;
ghost use Rattle.mp4_extra_pictures.specs.TakenColr.{colour_bytes, colr_taken, hex_taken, nclc_taken};
ghost use Rattle.mp4_shown.specs.Object.{left};
ghost use Rattle.mp4_shown.specs.TakenShapes.{layout_taken};
ghost use Rattle.mp4_shown.specs.Taking.{TakesAs};

use super::{Colr, NCLC, NCLX, Nclx, PROF, RICC};
use crate::colr;
use mp4_declared::{EntryLayout, OfType};
use mp4_frame::Entries;
use mp4_shown::taken::{Object, Result, TakeFields, hex_in, push_number, take_code, take_numbers};
use std::alloc::Global;

/// Takes the numbers of an `nclx` out.
fn take_nclx(alloc: Global, object: &mut Object<'_>) -> Result<Nclx>
    ensures { TakesAs (λ v. (v, left object.new)) result
        (layout_taken ⟦<Nclx as EntryLayout<5, 7>>⟧.layout colr.NAMES.1.0.now (left object.old)) }
{
    let widths = <Nclx as EntryLayout<5, 7>>::widths();
    let numbers = take_numbers(alloc, colr::NAMES.1.0, &widths, object)?;
    Ok(<Nclx as EntryLayout<5, 7>>::from_numbers(&numbers))
}

/// Takes the bytes called `name` out.
fn take_hex(alloc: Global, name: &str, object: &mut Object<'_>) -> Result<Entries<u8>>
    ensures { TakesAs (λ bytes. (bytes, left object.new)) result (hex_taken name.now (left object.old)) }
{
    let value = object.take_one(alloc, name)?;
    Ok(hex_in(alloc, name, &value)?.into())
}

/// Takes the three numbers of an `nclc` out.
#[tactic(auto, unfolding(mp4_frame::specs::Bytes::bytes_of_fields, mp4_frame::specs::Bytes::bytes_of_fields_onto))]
fn take_nclc(alloc: Global, object: &mut Object<'_>) -> Result<Entries<u8>>
    ensures { TakesAs (λ bytes. (bytes, left object.new)) result
        (nclc_taken (left object.old)) }
{
    let numbers = take_numbers(alloc, colr::NAMES.1.0, &[16, 16, 16], object)?;
    let mut bytes = Vec::new(alloc);
    push_number(numbers[0], 2, &mut bytes)?;
    push_number(numbers[1], 2, &mut bytes)?;
    push_number(numbers[2], 2, &mut bytes)?;
    Ok(bytes.into())
}

/// Takes the bytes after the type `tag` out.
fn take_other(alloc: Global, tag: u32, object: &mut Object<'_>) -> Result<Entries<u8>>
    ensures { TakesAs (λ bytes. (bytes, left object.new)) result (colour_bytes tag (left object.old)) }
{
    let (_, (_, (profile, unknown))) = colr::NAMES;
    if tag == RICC || tag == PROF {
        take_hex(alloc, profile, object)
    } else if tag == NCLC && !object.has(unknown) {
        take_nclc(alloc, object)
    } else {
        take_hex(alloc, unknown, object)
    }
}

impl TakeFields for Colr {
    ghost taken = { colr_taken ⟦<Nclx as EntryLayout<5, 7>>⟧.layout };

    fn take(alloc: Global, object: &mut Object<'_>) -> Result<Colr> {
        let tag = u32::from(take_code(alloc, colr::NAMES.0, object)?);
        let colour = if tag == NCLX {
            OfType::Own(take_nclx(alloc, object)?)
        } else {
            OfType::Other(tag, take_other(alloc, tag, object)?)
        };
        Ok(Colr { colour })
    }
}
