//! A caller of `mp4_entries`, which writes the sample entry of a configuration and reads it back.

ghost use Rattle.std.specs.Prelude.{◌≡◌, ◌≤◌, length, IfOk};
ghost use Rattle.mp4_entries.specs.Avc1.{made_avc1, format_avc1};

use mp4_entries::Avc1Box;
use mp4_frame::laws::is_read_back_at_the_end;
use mp4_frame::{ByteCursor, ReadBox, Result, WriteBox};
use mp4_media::AvcConfig;
use std::alloc::Global;

/// Writes the sample entry of a configuration, and reads it back: its normal form, whose lengths have four bytes. The
/// caller ensures that the sequence set has at least four bytes.
pub fn written_entry(alloc: Global, config: &AvcConfig) -> Result<Avc1Box>
    requires { 4 ≤ length config.now.seq_param_set }
    ensures { IfOk result (λ entry. entry ≡ format_avc1.normal (made_avc1 config.now)) }
{
    let mut bytes = Vec::new(alloc);
    let size = Avc1Box::new(alloc, config)?.write_box(&mut bytes)?;
    is_read_back_at_the_end::<Avc1Box>();
    let mut reader = ByteCursor::new(&bytes);
    reader.set_position(8);
    Avc1Box::read_box(alloc, &mut reader, size)
}
