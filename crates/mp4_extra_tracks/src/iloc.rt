//! The item location box.

ghost use Rattle.mp4_shown.specs.TakenShapes.{declared_taken};
ghost use Rattle.mp4_extra_tracks.specs.declared.iloc.TheConstants.{NAMES, WIDTHS};
ghost use Rattle.mp4_frame.specs.declared.codes.TheConstants as codes;
ghost use Rattle.mp4_declared.specs.OwnBox.{layout_of};
ghost use Rattle.mp4_declared.specs.Layout.{packed, fields_of};
ghost use Rattle.std.proofs.Common.{refl, lit<};

use crate::item_id::ItemId;
use mp4_declared::declaring::*;
use mp4_frame::{Result, codes};
use mp4_shown::taken::{self, Object, TakeFields, TakeShape, take_declared};
use mp4_shown::{
    FLAGS, FieldSink, HasFields, NamedShape, NumberName, ShowShape, VERSION, View, names_of,
    number, run,
};
use std::alloc::Global;

/// The numbers of bytes of fields of the items of an `iloc`: 0, 4 or 8.
#[derive(Clone, Copy, Debug, Default, PartialEq, Eq)]
pub struct IlocSizes {
    /// The number of bytes of `extent_offset`. 4 bits.
    pub offset_size: u8,
    /// The number of bytes of `extent_length`. 4 bits.
    pub length_size: u8,
    /// The number of bytes of `base_offset`. 4 bits.
    pub base_offset_size: u8,
    /// The number of bytes of `extent_index`; 0 in version 0. 4 bits.
    pub index_size: u8,
}

/// The widths of the fields, in bits.
const WIDTHS: [u8; 4] = [4, 4, 4, 4];

impl EntryLayout<4, 2> for IlocSizes {
    ghost use Rattle.mp4_extra_tracks.specs.contracts.iloc.IlocSizes.{struct};

    ghost layout = { packed (fields_of WIDTHS) struct.as_values (λ v. struct.make v tt) (λ _. refl) (λ _. refl) refl };

    fn widths() -> [u8; 4] {
        WIDTHS
    }

    fn numbers(&self) -> [u64; 4] {
        numbers_of!(self => offset_size, length_size, base_offset_size, index_size)
    }

    fn from_numbers(n: &[u64; 4]) -> IlocSizes {
        entry_of!(n => IlocSizes { offset_size: u8, length_size: u8, base_offset_size: u8, index_size: u8 })
    }

    ghost few = { lit< tt };
}

/// The places of items (`iloc`, ISO/IEC 14496-12, 8.11.3).
#[derive(Debug, Drop, PartialEq, Eq)]
pub struct Iloc {
    /// 0, 1 for items with a `construction_method`, or 2 for numbers of items of 32 bits too.
    pub version: u8,
    /// 24 bits, 0 in the standard.
    pub flags: u32,
    /// The numbers of bytes of fields of the items.
    pub sizes: IlocSizes,
    /// The number of items. 16 bits before version 2.
    pub item_count: u32,
    /// The bytes of the items. Each item has these fields:
    ///
    /// - the number of the item (`item_ID`), 2 bytes before version 2, and 4 in version 2,
    /// - since version 1, 12 reserved bits and 4 for the kind of its places (`construction_method`): 0 for a file, 1
    ///   for the `idat`, 2 for another item,
    /// - the number of the data reference (`data_reference_index`), 2 bytes; 0 for this file,
    /// - the offset to add to those of the extents (`base_offset`),
    /// - the number of extents (`extent_count`), 2 bytes, and that many extents, each with an index since version 1
    ///   (`extent_index`), an offset (`extent_offset`) and a length (`extent_length`).
    pub items: Entries<u8>,
}

/// The content of the box: version, flags, two bytes of bits, a number of items, and bytes up to its end.
pub type IlocShape = Full<3, (Bits<IlocSizes, 4, 2>, ItemId<2>, Last<Rest>)>;

impl DeclaredBox for Iloc {
    ghost use Rattle.mp4_extra_tracks.specs.contracts.iloc.Iloc.{struct};

    type Shape = IlocShape;

    ghost CODE = { codes.ILOC };

    ghost layout = { layout_of struct (λ _. tt) (λ _. refl) (lit< tt) };

    const CODE: u32 = codes::ILOC;

    fn from_content(found: <IlocShape as Shape>::Value) -> Iloc {
        box_of!(found => Iloc { version, flags, sizes, item_count, items })
    }

    fn visit<Q: ShapeVisitor<Self::Shape>>(&self, out: &mut [u8]) -> Q::Answer {
        let parts = parts_of!(self => version, flags, sizes, item_count, items.as_slice());
        Q::visit(parts, out)
    }

    ghost valid = { refl };
}

/// The names of the sizes.
const SIZES: &[NumberName] = &[
    number!("offset_size"),
    number!("length_size"),
    number!("base_offset_size"),
    number!("index_size"),
];

/// The names of the fields.
const NAMES: &<IlocShape as NamedShape>::Names = &names_of!(
    VERSION,
    FLAGS,
    SIZES,
    number!("item_count"),
    run!("data_bytes", SomeBytes)
);

impl HasFields for Iloc {
    ghost shown = { λ view b. ⟦<IlocShape as NamedShape>⟧.shown NAMES.now view
        (⟦<Iloc as DeclaredBox>⟧.layout.content b) };

    ghost whole = { λ view b. ⟦<IlocShape as NamedShape>⟧.whole NAMES.now view
        (⟦<Iloc as DeclaredBox>⟧.layout.content b) };

    fn show<K: FieldSink>(&self, view: View, sink: &mut K) -> mp4_shown::Result<()> {
        let parts = parts_of!(self => version, flags, sizes, item_count, items.as_slice());
        IlocShape::show(NAMES, view, &parts, sink)
    }
}

impl TakeFields for Iloc {
    ghost taken = { declared_taken ⟦<Iloc as DeclaredBox>⟧.layout (⟦<IlocShape as TakeShape>⟧.taken NAMES.now) };

    fn take(alloc: Global, object: &mut Object<'_>) -> taken::Result<Iloc> {
        take_declared::<Iloc, IlocShape>(alloc, NAMES, object)
    }
}

impl TryClone for Iloc {
    fn try_clone(&self) -> Result<Iloc> {
        let items = self.items.try_clone()?;
        Ok(Iloc { items, ..*self })
    }
}

/// The item location box.
pub type IlocBox = Declared<Iloc>;
