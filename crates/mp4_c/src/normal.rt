//! Writes the normal form of boxes.

ghost use Rattle.std.specs.Prelude.{◌≡◌, length};
ghost use Rattle.mp4_c_boxes.specs.Calls.{CopiesFound};
ghost use Rattle.mp4_normal.specs.Normal.{Normalizes, NormalRefuses};

use mp4_c_boxes::to_rows::copy_rows;
use mp4_normal::normal_form;
use std::alloc::Global;

/// Copies the boxes of `bytes` to `out` in their normal form, and writes the number of bytes to `count`. A box of a
/// type that the codec doesn't read stays as it is. Returns the status, which is `INVALID_DATA` also if a box that was
/// read is too large to be written.
#[unsafe(no_mangle)]
pub extern "C" fn mp4_normal(alloc: Global, bytes: &[u8], out: &mut [u8], count: &mut usize) -> u32
    ensures { CopiesFound (λ found. Normalizes bytes.now found) (λ e. NormalRefuses bytes.now e) (λ found. found)
        (λ found. length found) result out.old out.new count.old count.new }
{
    copy_rows(normal_form(alloc, bytes), out, count)
}
