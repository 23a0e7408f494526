//! The metadata item keys box.

ghost use Rattle.mp4_shown.specs.TakenShapes.{entry_made};
ghost use Rattle.mp4_shown.specs.TakenShapes.{declared_taken};
ghost use Rattle.mp4_extra_tracks.specs.declared.keys.TheConstants.{KEY, NAMES};
ghost use Rattle.mp4_frame.specs.declared.codes.TheConstants as codes;
ghost use Rattle.mp4_shown.specs.Lists.{entry_of};
ghost use Rattle.mp4_shown.specs.Members.{whole_entry};
ghost use Rattle.std.proofs.Common.{refl, lit<};
ghost use Rattle.mp4_declared.specs.OwnBox.{layout_of};
ghost use Rattle.mp4_declared.specs.DeclaredEntry.{exact_layout_of};

use mp4_declared::{
    Code, Context, Declared, DeclaredBox, DeclaredEntry, Each, EntryVisitor, Full, Last, Rest,
    Shape, ShapeVisitor, U32, WithSize, box_of, clone_each, parts_of,
};
use mp4_frame::{Entries, FourCC, Result, TryClone, codes};
use mp4_shown::taken::{self, Object, TakeEntry, TakeFields, TakeShape, take_declared, take_entry};
use mp4_shown::{
    FLAGS, FieldSink, HasFields, NamedShape, ShowShape, ShownEntry, VERSION, View, list, names_of,
    run,
};
use std::alloc::Global;

/// A metadata key.
#[derive(Debug, Drop, PartialEq, Eq)]
pub struct MetadataKey {
    /// The namespace of the key: `mdta` for names like reversed domain names, `udta` for four-character codes
    /// (`Key_namespace`).
    pub namespace: FourCC,
    /// The name of the key, such as `com.apple.quicktime.title`, without a terminator (`Key_value`).
    pub value: Entries<u8>,
}

/// The layout of a key: a size, a code, and bytes up to the end that the size gives.
pub type MetadataKeyShape = WithSize<(Code, Last<Rest>)>;

impl DeclaredEntry for MetadataKey {
    ghost use Rattle.mp4_extra_tracks.specs.contracts.keys.MetadataKey.{struct};

    type Shape = MetadataKeyShape;

    ghost layout = { exact_layout_of struct (λ _. tt) (λ _. refl) };

    fn from_content(found: <MetadataKeyShape as Shape>::Value) -> MetadataKey {
        box_of!(found => MetadataKey { namespace, value })
    }

    fn visit<Q: EntryVisitor<Self::Shape>>(&self, question: Q, out: &mut [u8]) -> Q::Answer {
        question.visit(parts_of!(self => namespace, value.as_slice()), out)
    }

    ghost begins = { λ _. lit< tt };
}

/// The names of the fields of a key.
const KEY: &<MetadataKeyShape as NamedShape>::Names = &names_of!(
    "Key_namespace",
    run!("Key_value", Text)
);

impl ShownEntry for MetadataKey {
    ghost shown = { λ view x. entry_of (⟦<MetadataKeyShape as NamedShape>⟧.shown KEY.now view
        (⟦<MetadataKey as DeclaredEntry>⟧.layout.content x)) };

    ghost whole = { λ view x. whole_entry (⟦<MetadataKeyShape as NamedShape>⟧.shown KEY.now view
        (⟦<MetadataKey as DeclaredEntry>⟧.layout.content x))
        (⟦<MetadataKeyShape as NamedShape>⟧.whole KEY.now view (⟦<MetadataKey as DeclaredEntry>⟧.layout.content x)) };

    fn show<K: FieldSink>(&self, view: View, sink: &mut K) -> mp4_shown::Result<()> {
        sink.begin_entry()?;
        MetadataKeyShape::show(
            KEY,
            view,
            &parts_of!(self => namespace, value.as_slice()),
            sink,
        )?;
        sink.end_entry()
    }
}

impl TakeEntry for MetadataKey {
    ghost taken = { λ c j. entry_made ⟦<MetadataKey as DeclaredEntry>⟧.layout.value
        (⟦<MetadataKeyShape as TakeShape>⟧.taken KEY.now c) j };

    fn take(alloc: Global, context: Context, value: json::Value<'_>) -> taken::Result<MetadataKey> {
        take_entry::<MetadataKey, MetadataKeyShape>(alloc, KEY, context, value)
    }
}

impl TryClone for MetadataKey {
    fn try_clone(&self) -> Result<MetadataKey> {
        Ok(MetadataKey {
            namespace: self.namespace,
            value: self.value.try_clone()?,
        })
    }
}

/// The keys of the metadata items in an `ilst` (`keys`, QuickTime File Format, "Metadata item keys atom").
#[derive(Debug, Drop, PartialEq, Eq)]
pub struct Keys {
    /// 0 in the standard.
    pub version: u8,
    /// 24 bits, 0 in the standard.
    pub flags: u32,
    /// The keys, at most 2^32 - 1. The code of an item in the `ilst` is the number of its key, starting at 1.
    pub entries: Entries<MetadataKey>,
}

/// The content of the box: version, flags, a count of 32 bits, and that many keys.
pub type KeysShape = Full<1, Last<Each<U32, MetadataKey>>>;

impl DeclaredBox for Keys {
    ghost use Rattle.mp4_extra_tracks.specs.contracts.keys.Keys.{struct};

    type Shape = KeysShape;

    ghost CODE = { codes.KEYS };

    ghost layout = { layout_of struct (λ _. tt) (λ _. refl) (lit< tt) };

    const CODE: u32 = codes::KEYS;

    fn from_content(found: <KeysShape as Shape>::Value) -> Keys {
        box_of!(found => Keys { version, flags, entries })
    }

    fn visit<Q: ShapeVisitor<Self::Shape>>(&self, out: &mut [u8]) -> Q::Answer {
        Q::visit(parts_of!(self => version, flags, entries.as_slice()), out)
    }

    ghost valid = { refl };
}

/// The names of the fields.
const NAMES: &<KeysShape as NamedShape>::Names = &names_of!(
    VERSION,
    FLAGS,
    list!("entries", Counted, "entry_count")
);

impl HasFields for Keys {
    ghost shown = { λ view b. ⟦<KeysShape as NamedShape>⟧.shown NAMES.now view
        (⟦<Keys as DeclaredBox>⟧.layout.content b) };

    ghost whole = { λ view b. ⟦<KeysShape as NamedShape>⟧.whole NAMES.now view
        (⟦<Keys as DeclaredBox>⟧.layout.content b) };

    fn show<K: FieldSink>(&self, view: View, sink: &mut K) -> mp4_shown::Result<()> {
        let parts = parts_of!(self => version, flags, entries.as_slice());
        KeysShape::show(NAMES, view, &parts, sink)
    }
}

impl TakeFields for Keys {
    ghost taken = { declared_taken ⟦<Keys as DeclaredBox>⟧.layout (⟦<KeysShape as TakeShape>⟧.taken NAMES.now) };

    fn take(alloc: Global, object: &mut Object<'_>) -> taken::Result<Keys> {
        take_declared::<Keys, KeysShape>(alloc, NAMES, object)
    }
}

impl TryClone for Keys {
    fn try_clone(&self) -> Result<Keys> {
        let alloc = *self.entries.allocator();
        let entries = clone_each(alloc, self.entries.as_slice())?;
        Ok(Keys { entries, ..*self })
    }
}

/// The metadata item keys box.
pub type KeysBox = Declared<Keys>;
