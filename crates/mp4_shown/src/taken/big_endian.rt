//! Numbers as bytes, the most significant first.

ghost use Rattle.std.specs.Prelude.{◌≡◌, ◌≤◌, ◌++◌, OnOk};
ghost use Rattle.mp4_declared.specs.Bits.{NumbersFit, bits, joined};
ghost use Rattle.mp4_frame.specs.Bytes.{be_bytes};

use std::alloc::AllocError;

/// Appends the last `width` bytes of `number`.
pub fn push_number(
    number: u64,
    width: usize,
    out: &mut Vec<u8>,
) -> std::result::Result<(), AllocError>
    requires { width ≤ 8 }
    ensures { OnOk result (out.new.items ≡ out.old.items ++ be_bytes width number) }
{
    let bytes = number.to_be_bytes();
    out.extend_from_slice(&bytes[8 - width..])?;
    Ok(())
}

/// Returns the number whose bits are those of `numbers`, each of which has its width in `widths`.
pub fn joined(widths: &[u8], numbers: &[u64]) -> u64
    requires fit { NumbersFit widths.now numbers.now }
    requires whole { bits widths.now ≤ 64 }
    ensures { result ≡ joined widths.now numbers.now }
{
    let mut joined: u128 = 0;
    for k in 0..widths.len().min(numbers.len()) {
        joined = (joined << widths[k]) + u128::from(numbers[k]);
    }
    joined as u64
}
