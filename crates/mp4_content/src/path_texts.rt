//! The text of the path of a box.

ghost use Rattle.std.specs.Prelude.{◌≡◌, ◌++◌, string_bytes, IfOk, OnOk};
ghost use Rattle.mp4_content.specs.PathTexts.{index_shown, inner_shown, part_shown, path_shown};

use crate::path::Part;
use mp4_show::{Result, push_code, push_number};
use std::alloc::Global;

/// Appends the index of a part, unless it is 0.
fn push_index(index: u64, out: &mut String) -> Result<()>
    ensures { OnOk result (string_bytes out.new ≡ string_bytes out.old ++ index_shown index) }
{
    if index == 0 {
        return Ok(());
    }
    out.push('[')?;
    push_number(index, out)?;
    out.push(']')
}

/// Appends a part.
fn push_part(part: Part, out: &mut String) -> Result<()>
    ensures { OnOk result (string_bytes out.new ≡ string_bytes out.old ++ part_shown part) }
{
    match part.code {
        Some(code) => push_code(code, out)?,
        None => out.push('-')?,
    }
    push_index(part.index, out)
}

/// Appends parts, each after a slash.
fn push_inner(parts: &[Part], out: &mut String) -> Result<()>
    ensures { OnOk result (string_bytes out.new ≡ string_bytes out.old ++ inner_shown parts.now) }
{
    for part in parts {
        out.push('/')?;
        push_part(*part, out)?;
    }
    Ok(())
}

/// Appends a path, such as `moov/trak[1]/tkhd`: its parts, each with its index unless that is 0.
pub fn push_path(path: &[Part], out: &mut String) -> Result<()>
    ensures { OnOk result (string_bytes out.new ≡ string_bytes out.old ++ path_shown path.now) }
{
    if path.is_empty() {
        return Ok(());
    }
    push_part(path[0], out)?;
    push_inner(&path[1..], out)
}

/// Returns the text of a path, such as `moov/trak[1]/tkhd`.
pub fn path_text(alloc: Global, path: &[Part]) -> Result<String>
    ensures { IfOk result (λ text. string_bytes text ≡ path_shown path.now) }
{
    let mut text = String::new(alloc);
    push_path(path, &mut text)?;
    Ok(text)
}
