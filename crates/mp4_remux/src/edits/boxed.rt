//! Boxes as bytes.

ghost use Rattle.std.specs.Prelude.{◌≡◌, IfOk};
ghost use Rattle.mp4_remux.specs.Tags.{box_bytes};

use std::alloc::{AllocError, Global};

/// Returns a box with this code and content. A content that is too long for a size of 32 bits is out of memory.
pub(crate) fn boxed(alloc: Global, code: u32, content: &[u8]) -> Result<Vec<u8>, AllocError>
    ensures { IfOk result (λ bytes. bytes.items ≡ box_bytes code content.now) }
{
    let Ok(size) = u32::try_from((content.len() as u64).saturating_add(8)) else {
        return Err(AllocError);
    };
    let mut bytes = Vec::new(alloc);
    bytes.extend_from_slice(&size.to_be_bytes())?;
    bytes.extend_from_slice(&code.to_be_bytes())?;
    bytes.extend_from_slice(content)?;
    Ok(bytes)
}
