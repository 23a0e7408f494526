//! The item information entry.

ghost use Rattle.mp4_extra_tracks.specs.ShownItems.{is_type};
ghost use Rattle.mp4_extra_tracks.specs.declared.infe.TheConstants.{MIME, NAMES, URI};
ghost use Rattle.mp4_frame.specs.declared.codes.TheConstants as codes;
ghost use Rattle.mp4_declared.specs.OwnBox.{layout_of};
ghost use Rattle.std.proofs.Common.{refl, lit<};
ghost use Rattle.std.specs.Prelude.{◌≡◌};

mod taken;

use crate::item_id::ItemId;
use mp4_declared::Code;
use mp4_declared::declaring::*;
use mp4_frame::{FourCC, Result, codes};
use mp4_shown::{
    FieldSink, HasFields, Meaning, NamedBy, NamedShape, VERSION, View, number, run, show_shape,
};

/// The `item_type` of items with a media type: `mime`.
pub const MIME: u32 = 0x6d69_6d65;

/// The `item_type` of items with a URI as their type: `uri `.
pub const URI: u32 = 0x7572_6920;

/// An item (`infe`, ISO/IEC 14496-12, 8.11.6).
#[derive(Debug, Drop, PartialEq, Eq)]
pub struct Infe {
    /// 2, 3 for an `item_id` of 32 bits, or 0 or 1 for an item without a type.
    pub version: u8,
    /// 24 bits. Flag 1 means that the item is not to be shown.
    pub flags: u32,
    /// The number of the item (`item_ID`), not 0. 16 bits before version 3.
    pub item_id: u32,
    /// The number of the item's protection in the `ipro`, starting at 1; 0 for no protection.
    pub item_protection_index: u16,
    /// The type of the item, such as `hvc1`, `grid`, `Exif` or `mime`. `None` in versions 0 and 1.
    pub item_type: Option<FourCC>,
    /// The name of the item, without the zero byte that ends it.
    pub item_name: Entries<u8>,
    /// The bytes after the name: the media type (`content_type`) and its encoding of an item of type `mime`, and the
    /// URI of an item of type `uri ` (`item_uri_type`), each ended by a zero byte. In versions 0 and 1 it has a media
    /// type and an encoding too, and in version 1 an extension.
    pub strings: Entries<u8>,
}

/// The content of the box: version, flags, the number of an item, a number, a code since version 2, a string ended by a
/// zero byte, and bytes up to its end.
pub type InfeShape = Full<
    4,
    (
        ItemId<3>,
        U16,
        If<FromVersion<2>, Code>,
        Terminated,
        Last<Rest>,
    ),
>;

impl DeclaredBox for Infe {
    ghost use Rattle.mp4_extra_tracks.specs.contracts.infe.Infe.{struct};

    type Shape = InfeShape;

    ghost CODE = { codes.INFE };

    ghost layout = { layout_of struct (λ _. tt) (λ _. refl) (lit< tt) };

    const CODE: u32 = codes::INFE;

    fn from_content(found: <InfeShape as Shape>::Value) -> Infe {
        box_of!(found => Infe { version, flags, item_id, item_protection_index, item_type, item_name, strings })
    }

    fn visit<Q: ShapeVisitor<Self::Shape>>(&self, out: &mut [u8]) -> Q::Answer {
        let parts =
            parts_of!(self => version, flags, item_id, item_protection_index, item_type, item_name.as_slice(),
            strings.as_slice());
        Q::visit(parts, out)
    }

    ghost valid = { refl };
}

/// Returns whether `item_type` has the code `code`.
fn is_type(code: u32, item_type: Option<FourCC>) -> bool
    ensures { result ≡ is_type code item_type }
{
    match item_type {
        Some(item_type) => u32::from(item_type) == code,
        None => false,
    }
}

/// The content of the box, for showing only. The name of the last bytes depends on the type of the item.
type InfeShown = Full<
    4,
    (
        ItemId<3>,
        U16,
        If<FromVersion<2>, Code>,
        Terminated,
        NamedBy<NamedBy<Rest>>,
    ),
>;

/// The flags of the box.
const ITEM_FLAGS: &[Meaning] = &[(0x1, "hidden")];

/// The names of the fields.
const NAMES: &<InfeShown as NamedShape>::Names = &(
    VERSION,
    (
        number!("flags", Flags(6), ITEM_FLAGS),
        (
            number!("item_ID"),
            (
                number!("item_protection_index"),
                (
                    "item_type",
                    (
                        run!("item_name", Text),
                        (
                            (run!("content_type", Ended), run!("content_type", Ended)),
                            (run!("item_uri_type", Ended), run!("data_bytes", SomeBytes)),
                        ),
                    ),
                ),
            ),
        ),
    ),
);

impl HasFields for Infe {
    ghost shown = { λ view b. ⟦<InfeShown as NamedShape>⟧.shown NAMES.now view (
      b.version,
      (
        b.flags,
        (
          b.item_id,
          (
            b.item_protection_index,
            (
              b.item_type,
              (b.item_name, (is_type MIME b.item_type, (is_type URI b.item_type, b.strings))),
            ),
          ),
        ),
      ),
    ) };

    ghost whole = { λ view b. ⟦<InfeShown as NamedShape>⟧.whole NAMES.now view (
      b.version,
      (
        b.flags,
        (
          b.item_id,
          (
            b.item_protection_index,
            (
              b.item_type,
              (b.item_name, (is_type MIME b.item_type, (is_type URI b.item_type, b.strings))),
            ),
          ),
        ),
      ),
    ) };

    fn show<K: FieldSink>(&self, view: View, sink: &mut K) -> mp4_shown::Result<()> {
        let is_mime = is_type(MIME, self.item_type);
        let is_uri = is_type(URI, self.item_type);
        let strings = (is_mime, (is_uri, self.strings.as_slice()));
        let named = (self.item_type, (self.item_name.as_slice(), strings));
        let item = (self.item_id, (self.item_protection_index, named));
        show_shape::<InfeShown, _, K>(NAMES, view, &(self.version, (self.flags, item)), sink)
    }
}

impl TryClone for Infe {
    fn try_clone(&self) -> Result<Infe> {
        let item_name = self.item_name.try_clone()?;
        let strings = self.strings.try_clone()?;
        Ok(Infe {
            item_name,
            strings,
            ..*self
        })
    }
}

/// The item information entry.
pub type InfeBox = Declared<Infe>;
