//! Boxes of items and of channels. A function for each box makes it, writes it and returns the ending.

use crate::tests::extra::{Ending, Outcome, UNFIT, WRITTEN, bytes_of, declared_ending};
use mp4_extra_sound::chnl::{ChannelStructure, Chnl};
use mp4_extra_tracks::infe::Infe;
use mp4_extra_tracks::ipma::{Ipma, ItemProperties, PropertyAssociation};
use mp4_extra_tracks::pitm::Pitm;
use mp4_stream::{Entries, FourCC};
use std::alloc::{AllocError, Global};

/// Writes a primary item.
fn pitm(alloc: Global, version: u8, item_id: u32) -> Ending {
    declared_ending(
        alloc,
        Pitm {
            version,
            flags: 0x81_8283,
            item_id,
        },
    )
}

/// Writes an item, with a type if `is_typed` is set.
fn infe(alloc: Global, version: u8, item_id: u32, is_typed: bool) -> Outcome {
    let item_type = if is_typed {
        Some(FourCC { value: *b"mime" })
    } else {
        None
    };
    let item_name = bytes_of(alloc, b"\x86\x87")?;
    let strings = bytes_of(alloc, b"\x88")?;
    Ok(declared_ending(
        alloc,
        Infe {
            version,
            flags: 0x81_8283,
            item_id,
            item_protection_index: 0x8485,
            item_type,
            item_name,
            strings,
        },
    ))
}

/// Writes an item with a zero byte in its name.
fn infe_with_zero(alloc: Global) -> Outcome {
    let item_name = bytes_of(alloc, b"\x88\x00")?;
    Ok(declared_ending(
        alloc,
        Infe {
            version: 0,
            flags: 0x81_8283,
            item_id: 0x8485,
            item_protection_index: 0x8687,
            item_type: None,
            item_name,
            strings: Entries::new(alloc),
        },
    ))
}

/// Returns an item with one property, in the list for flag 1 if `is_long` is set.
fn item(alloc: Global, property_index: u16, is_long: bool) -> Result<ItemProperties, AllocError> {
    let one = PropertyAssociation {
        essential: true,
        property_index,
    };
    let list = Some(Vec::from_slice(alloc, &[one])?.into());
    let (associations, long_associations) = if is_long { (None, list) } else { (list, None) };
    Ok(ItemProperties {
        item_id: 0x8485,
        associations,
        long_associations,
    })
}

/// Writes a box with these `flags` and the item that `item` returns.
fn ipma(alloc: Global, flags: u32, property_index: u16, is_long: bool) -> Outcome {
    let mut entries = Vec::new(alloc);
    entries.push(item(alloc, property_index, is_long)?)?;
    Ok(declared_ending(
        alloc,
        Ipma {
            version: 0,
            flags,
            entries: entries.into(),
        },
    ))
}

/// Writes the layout of channels of this `version`, with the fields of another version if `is_other` is set.
fn chnl(alloc: Global, version: u8, is_other: bool) -> Outcome {
    let (stream_structure, structure) = if (version == 0) != is_other {
        (Some(0x84), None)
    } else {
        (None, Some(ChannelStructure::default()))
    };
    let layout = bytes_of(alloc, b"\x85\x86")?;
    Ok(declared_ending(
        alloc,
        Chnl {
            version,
            flags: 0x81_8283,
            stream_structure,
            structure,
            layout,
        },
    ))
}

/// Returns whether all values that do not fit are refused.
fn are_refused(alloc: Global) -> bool {
    let endings = [
        Ok(pitm(alloc, 0, 0x1_0000)),
        Ok(pitm(alloc, 2, 0)),
        infe(alloc, 2, 0x1_0000, true),
        infe(alloc, 3, 0x1_0000, false),
        infe(alloc, 1, 7, true),
        infe(alloc, 4, 7, true),
        infe_with_zero(alloc),
        ipma(alloc, 0, 128, false),
        ipma(alloc, 1, 0x8000, true),
        ipma(alloc, 0, 7, true),
        ipma(alloc, 1, 7, false),
        chnl(alloc, 0, true),
        chnl(alloc, 1, true),
    ];
    endings == [UNFIT; 13]
}

/// Returns whether the largest numbers that fit are written.
fn are_written(alloc: Global) -> bool {
    let endings = [
        Ok(pitm(alloc, 0, 0xFFFF)),
        Ok(pitm(alloc, 1, 0xFFFF_FFFF)),
        infe(alloc, 2, 0xFFFF, true),
        infe(alloc, 3, 0xFFFF_FFFF, true),
        infe(alloc, 1, 7, false),
        ipma(alloc, 2, 127, false),
        ipma(alloc, 1, 0x7FFF, true),
        chnl(alloc, 0, false),
        chnl(alloc, 1, false),
    ];
    endings == [WRITTEN; 9]
}

#[test]
fn items_that_do_not_fit(rt: HostRuntime) {
    let alloc = rt.alloc();
    assert!(rt; are_refused(alloc));
    assert!(rt; are_written(alloc));
}
