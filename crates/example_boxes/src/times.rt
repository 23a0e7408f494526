//! A caller of `mp4_flat`, which writes the decode time of a fragment.

ghost use Rattle.std.specs.Prelude.{◌≡◌, ◌++◌, ◌^◌, nat_lt, if◌then◌else◌, IfOk, IfErr, OnErr};
ghost use Rattle.mp4_flat.specs.Tfdt.{bytes_tfdt};

use mp4_flat::TfdtBox;
use mp4_frame::{Error, WriteBox};

/// Appends the decode time of a fragment, in version 0 if it fits 32 bits. It is never invalid data.
pub fn append_decode_time(time: u64, out: &mut Vec<u8>) -> Result<u64, Error>
    ensures ok { IfOk result
        (λ _. out.new.items ≡ out.old.items
        ++ bytes_tfdt (record
        { version = if nat_lt time (2 ^ 32) then 0 else 1; flags = 0; base_media_decode_time = time })) }
    ensures err { OnErr result (out.new.items ≡ out.old.items) }
    ensures memory { IfErr result (λ e. e ≡ Error.OutOfMemory) }
{
    let decode_time = TfdtBox {
        version: if time < 1 << 32 { 0 } else { 1 },
        flags: 0,
        base_media_decode_time: time,
    };
    decode_time.write_box(out)
}
