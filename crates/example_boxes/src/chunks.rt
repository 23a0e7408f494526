//! A caller of `mp4_tables`, which writes chunk offsets in 32 bits.

ghost use Rattle.std.specs.Prelude.{◌≡◌, ◌++◌, IfOk, OnErr};
ghost use Rattle.mp4_tables.specs.Stco.{made_stco, bytes_stco};

use mp4_frame::{Error, WriteBox};
use mp4_tables::{Co64Box, StcoBox};
use std::alloc::Global;

/// Appends the chunk offsets of a track in 32 bits.
pub fn append_short(alloc: Global, long: &Co64Box, out: &mut Vec<u8>) -> Result<u64, Error>
    ensures ok { IfOk result (λ _. out.new.items ≡ out.old.items ++ bytes_stco (made_stco 0 0 long.now.entries)) }
    ensures err { OnErr result (out.new.items ≡ out.old.items) }
{
    StcoBox::try_from_co64(alloc, long)?.write_box(out)
}
