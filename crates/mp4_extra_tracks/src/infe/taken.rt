//! Takes the box back out of its JSON.

ghost use Rattle.mp4_declared.specs.OwnBox.{no_context};
ghost use Rattle.mp4_extra_tracks.specs.declared.infe.TheConstants as infe;
ghost use Rattle.std.specs.Prelude.{◌≡◌};
ghost use Rattle.mp4_shown.specs.Runs.{seen_bytes};
ghost use Rattle.mp4_extra_tracks.specs.TakenInfe.{infe_taken, name_of_strings};

use super::{Infe, MIME, URI, is_type};
use crate::infe;
use crate::item_id::ItemId;
use mp4_declared::{Code, FromVersion, Full, If, Last, Terminated, U16};
use mp4_shown::BytesName;
use mp4_shown::taken::{NO_CONTEXT, Object, Result, TakeFields, TakeShape, take_bytes};
use std::alloc::Global;

/// The fields up to the name of the item.
type Front = Full<4, (ItemId<3>, U16, If<FromVersion<2>, Code>, Last<Terminated>)>;

/// Returns the name of the bytes after the name of an item.
fn strings_name(is_mime: bool, is_uri: bool) -> BytesName
    ensures { seen_bytes result ≡ name_of_strings is_mime is_uri }
{
    let (mime, (uri, other)) = infe::NAMES.1.1.1.1.1.1;
    if is_mime {
        mime.0
    } else if is_uri {
        uri
    } else {
        other
    }
}

impl TakeFields for Infe {
    ghost taken = { infe_taken (⟦<Front as TakeShape>⟧.taken (
      infe.NAMES.now.0,
      (
        infe.NAMES.now.1.0,
        (
          infe.NAMES.now.1.1.0,
          (
            infe.NAMES.now.1.1.1.0,
            (
              infe.NAMES.now.1.1.1.1.0,
              (infe.NAMES.now.1.1.1.1.1.0, tt),
            ),
          ),
        ),
      ),
    ) no_context) };

    fn take(alloc: Global, object: &mut Object<'_>) -> Result<Infe> {
        let names = (
            infe::NAMES.0,
            (
                infe::NAMES.1.0,
                (
                    infe::NAMES.1.1.0,
                    (
                        infe::NAMES.1.1.1.0,
                        (infe::NAMES.1.1.1.1.0, (infe::NAMES.1.1.1.1.1.0, ())),
                    ),
                ),
            ),
        );
        let (version, (flags, item)) = Front::take(alloc, &names, NO_CONTEXT, object)?;
        let (item_id, (item_protection_index, (item_type, (item_name, ())))) = item;
        let name = strings_name(is_type(MIME, item_type), is_type(URI, item_type));
        let strings = take_bytes(alloc, name, object)?.into();
        Ok(Infe {
            version,
            flags,
            item_id,
            item_protection_index,
            item_type,
            item_name,
            strings,
        })
    }
}
