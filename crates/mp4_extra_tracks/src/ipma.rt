//! The item property association box.

ghost use Rattle.mp4_shown.specs.TakenShapes.{entry_made};
ghost use Rattle.mp4_shown.specs.TakenShapes.{declared_taken};
ghost use Rattle.mp4_extra_tracks.specs.ItemId.{item_width, some_item};
ghost use Rattle.mp4_extra_tracks.specs.declared.ipma.TheConstants.{ENTRY, LONG, NAMES, SHORT};
ghost use Rattle.mp4_frame.specs.declared.codes.TheConstants as codes;
ghost use Rattle.mp4_declared.specs.DeclaredEntry.{exact_layout_of};
ghost use Rattle.mp4_declared.specs.DeclaredEntryLaws.{some_first};
ghost use Rattle.mp4_declared.specs.OwnBox.{layout_of};
ghost use Rattle.mp4_declared.specs.Layout.{packed, fields_of};
ghost use Rattle.mp4_shown.specs.Lists.{entry_of};
ghost use Rattle.mp4_shown.specs.Members.{whole_entry};
ghost use Rattle.std.proofs.Common.{refl, lit<};
ghost use Rattle.std.specs.Prelude.{bit_and, ◌==◌};

use crate::item_id::ItemId;
use mp4_declared::declaring::*;
use mp4_declared::{Condition, Context, clone_each};
use mp4_frame::{Result, codes};
use mp4_shown::taken::{self, Object, TakeEntry, TakeFields, TakeShape, take_declared, take_entry};
use mp4_shown::{
    FieldSink, HasFields, Meaning, NamedShape, NumberName, ShowShape, ShownEntry, VERSION, View,
    list, names_of, number, show_shape,
};
use std::alloc::Global;

/// The condition that no flag of `MASK` is set.
pub struct WithoutFlags<const MASK: u32>;

impl<const MASK: u32> Condition for WithoutFlags<MASK> {
    ghost holds = { λ c. bit_and c.flags MASK == 0 };

    fn holds(context: Context) -> bool {
        context.flags & MASK == 0
    }
}

/// A property of an item.
#[derive(Clone, Copy, Debug, Default, PartialEq, Eq)]
pub struct PropertyAssociation {
    /// True if a reader that doesn't know the property has to ignore the item.
    pub essential: bool,
    /// The number of the property in the `ipco`, starting at 1; 0 for no property. 7 bits, or 15 if flag 1 is set.
    pub property_index: u16,
}

/// The widths of the fields without flag 1, in bits. A field of one bit is a flag.
const SHORT: [u8; 2] = [1, 7];

impl EntryLayout<2, 1> for PropertyAssociation {
    ghost use Rattle.mp4_extra_tracks.specs.contracts.ipma.PropertyAssociation.{struct};

    ghost layout = { packed (fields_of SHORT) struct.as_values (λ v. struct.make v tt) (λ _. refl) (λ _. refl) refl };

    fn widths() -> [u8; 2] {
        SHORT
    }

    fn numbers(&self) -> [u64; 2] {
        numbers_of!(self => essential, property_index)
    }

    fn from_numbers(n: &[u64; 2]) -> PropertyAssociation {
        entry_of!(n => PropertyAssociation { essential: bool, property_index: u16 })
    }

    ghost few = { lit< tt };
}

/// The widths of the fields with flag 1, in bits. A field of one bit is a flag.
const LONG: [u8; 2] = [1, 15];

impl EntryLayout<2, 2> for PropertyAssociation {
    ghost use Rattle.mp4_extra_tracks.specs.contracts.ipma.PropertyAssociation.{struct};

    ghost layout = { packed (fields_of LONG) struct.as_values (λ v. struct.make v tt) (λ _. refl) (λ _. refl) refl };

    fn widths() -> [u8; 2] {
        LONG
    }

    fn numbers(&self) -> [u64; 2] {
        numbers_of!(self => essential, property_index)
    }

    fn from_numbers(n: &[u64; 2]) -> PropertyAssociation {
        entry_of!(n => PropertyAssociation { essential: bool, property_index: u16 })
    }

    ghost few = { lit< tt };
}

/// The properties of an item.
#[derive(Debug, Drop, PartialEq, Eq)]
pub struct ItemProperties {
    /// The number of the item (`item_ID`). 16 bits in version 0.
    pub item_id: u32,
    /// The properties, at most 255. `None` if flag 1 is set.
    pub associations: Option<Entries<PropertyAssociation>>,
    /// The properties, at most 255. `None` unless flag 1 is set.
    pub long_associations: Option<Entries<PropertyAssociation>>,
}

/// The layout of an item: its number, a count of 8 bits, and that many properties, of one byte or of two.
pub type ItemPropertiesShape = (
    ItemId<1>,
    If<WithoutFlags<1>, List<U8, PropertyAssociation, 2, 1>>,
    Last<If<IfFlags<1>, List<U8, PropertyAssociation, 2, 2>>>,
);

impl DeclaredEntry for ItemProperties {
    ghost use Rattle.mp4_extra_tracks.specs.contracts.ipma.ItemProperties.{struct};

    type Shape = ItemPropertiesShape;

    ghost layout = { exact_layout_of struct (λ _. tt) (λ _. refl) };

    fn from_content(found: <ItemPropertiesShape as Shape>::Value) -> ItemProperties {
        box_of!(found => ItemProperties { item_id, associations, long_associations })
    }

    fn visit<Q: EntryVisitor<Self::Shape>>(&self, question: Q, out: &mut [u8]) -> Q::Answer {
        let associations = match &self.associations {
            Some(associations) => Some(associations.as_slice()),
            None => None,
        };
        let long_associations = match &self.long_associations {
            Some(associations) => Some(associations.as_slice()),
            None => None,
        };
        question.visit(
            parts_of!(self => item_id, = associations, = long_associations),
            out,
        )
    }

    ghost begins = { λ c. some_first (item_width 1 c.version) _ (some_item 1 c.version) };
}

/// The names of the fields of a property.
const ASSOCIATION: &[NumberName] = &[number!("essential"), number!("property_index")];

/// The names of the fields of an item.
const ENTRY: &<ItemPropertiesShape as NamedShape>::Names = &names_of!(
    number!("item_ID"),
    (list!("associations"), ASSOCIATION),
    (list!("associations"), ASSOCIATION)
);

impl ShownEntry for ItemProperties {
    ghost shown = { λ view x. entry_of (⟦<ItemPropertiesShape as NamedShape>⟧.shown ENTRY.now view
        (⟦<ItemProperties as DeclaredEntry>⟧.layout.content x)) };

    ghost whole = { λ view x. whole_entry (⟦<ItemPropertiesShape as NamedShape>⟧.shown ENTRY.now view
        (⟦<ItemProperties as DeclaredEntry>⟧.layout.content x))
        (⟦<ItemPropertiesShape as NamedShape>⟧.whole ENTRY.now view
        (⟦<ItemProperties as DeclaredEntry>⟧.layout.content x)) };

    fn show<K: FieldSink>(&self, view: View, sink: &mut K) -> mp4_shown::Result<()> {
        let associations = match &self.associations {
            Some(associations) => Some(associations.as_slice()),
            None => None,
        };
        let long_associations = match &self.long_associations {
            Some(associations) => Some(associations.as_slice()),
            None => None,
        };
        sink.begin_entry()?;
        let parts = parts_of!(self => item_id, = associations, = long_associations);
        show_shape::<ItemPropertiesShape, _, K>(ENTRY, view, &parts, sink)?;
        sink.end_entry()
    }
}

impl TakeEntry for ItemProperties {
    ghost taken = { λ c j. entry_made ⟦<ItemProperties as DeclaredEntry>⟧.layout.value
        (⟦<ItemPropertiesShape as TakeShape>⟧.taken ENTRY.now c) j };

    fn take(
        alloc: Global,
        context: Context,
        value: json::Value<'_>,
    ) -> taken::Result<ItemProperties> {
        take_entry::<ItemProperties, ItemPropertiesShape>(alloc, ENTRY, context, value)
    }
}

impl TryClone for ItemProperties {
    fn try_clone(&self) -> Result<ItemProperties> {
        let associations = match &self.associations {
            Some(associations) => Some(associations.try_clone()?),
            None => None,
        };
        let long_associations = match &self.long_associations {
            Some(associations) => Some(associations.try_clone()?),
            None => None,
        };
        Ok(ItemProperties {
            associations,
            long_associations,
            ..*self
        })
    }
}

/// The properties of items (`ipma`, ISO/IEC 23008-12, 9.3.1).
#[derive(Debug, Drop, PartialEq, Eq)]
pub struct Ipma {
    /// 0, or 1 for numbers of items of 32 bits.
    pub version: u8,
    /// 24 bits. Flag 1 means that numbers of properties have 15 bits.
    pub flags: u32,
    /// The items, at most 2^32 - 1.
    pub entries: Entries<ItemProperties>,
}

/// The content of the box: version, flags, a count of 32 bits, and that many items.
pub type IpmaShape = Full<2, Last<Each<U32, ItemProperties>>>;

impl DeclaredBox for Ipma {
    ghost use Rattle.mp4_extra_tracks.specs.contracts.ipma.Ipma.{struct};

    type Shape = IpmaShape;

    ghost CODE = { codes.IPMA };

    ghost layout = { layout_of struct (λ _. tt) (λ _. refl) (lit< tt) };

    const CODE: u32 = codes::IPMA;

    fn from_content(found: <IpmaShape as Shape>::Value) -> Ipma {
        box_of!(found => Ipma { version, flags, entries })
    }

    fn visit<Q: ShapeVisitor<Self::Shape>>(&self, out: &mut [u8]) -> Q::Answer {
        let parts = parts_of!(self => version, flags, entries.as_slice());
        Q::visit(parts, out)
    }

    ghost valid = { refl };
}

/// The flags of the box.
const PROPERTY_FLAGS: &[Meaning] = &[(0x1, "property_index of 15 bits")];

/// The names of the fields.
const NAMES: &<IpmaShape as NamedShape>::Names = &names_of!(
    VERSION,
    number!("flags", Flags(6), PROPERTY_FLAGS),
    list!("entries", Counted, "entry_count")
);

impl HasFields for Ipma {
    ghost shown = { λ view b. ⟦<IpmaShape as NamedShape>⟧.shown NAMES.now view
        (⟦<Ipma as DeclaredBox>⟧.layout.content b) };

    ghost whole = { λ view b. ⟦<IpmaShape as NamedShape>⟧.whole NAMES.now view
        (⟦<Ipma as DeclaredBox>⟧.layout.content b) };

    fn show<K: FieldSink>(&self, view: View, sink: &mut K) -> mp4_shown::Result<()> {
        let parts = parts_of!(self => version, flags, entries.as_slice());
        IpmaShape::show(NAMES, view, &parts, sink)
    }
}

impl TakeFields for Ipma {
    ghost taken = { declared_taken ⟦<Ipma as DeclaredBox>⟧.layout (⟦<IpmaShape as TakeShape>⟧.taken NAMES.now) };

    fn take(alloc: Global, object: &mut Object<'_>) -> taken::Result<Ipma> {
        take_declared::<Ipma, IpmaShape>(alloc, NAMES, object)
    }
}

impl TryClone for Ipma {
    fn try_clone(&self) -> Result<Ipma> {
        let alloc = *self.entries.allocator();
        let entries = clone_each(alloc, self.entries.as_slice())?;
        Ok(Ipma { entries, ..*self })
    }
}

/// The item property association box.
pub type IpmaBox = Declared<Ipma>;
