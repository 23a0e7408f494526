//! A caller of `mp4_text`, which writes the data references of a track.

ghost use Rattle.std.specs.Prelude.{◌≡◌, ◌++◌, IfOk, OnErr};
ghost use Rattle.mp4_text.specs.Dinf.{bytes_dinf};

use mp4_frame::{Result, Text, WriteBox};
use mp4_text::{DinfBox, DrefBox, UrlBox};
use std::alloc::Global;

/// Appends the data references of a track whose media data is at a URL.
pub fn append_reference(alloc: Global, url: &str, out: &mut Vec<u8>) -> Result<u64>
    ensures ok { IfOk result
        (λ _. out.new.items ≡ out.old.items
        ++ bytes_dinf (record {
          dref = record { version = 0; flags = 0; url = Some (record { version = 0; flags = 0; location = url.now }) };
        })) }
    ensures err { OnErr result (out.new.items ≡ out.old.items) }
{
    let url = UrlBox {
        version: 0,
        flags: 0,
        location: Text::from_str(alloc, url)?,
    };
    let dref = DrefBox {
        version: 0,
        flags: 0,
        url: Some(url),
    };
    DinfBox::new(dref).write_box(out)
}
