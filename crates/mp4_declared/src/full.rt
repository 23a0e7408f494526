//! The shape of a full box's content: version, flags, and what follows them.

ghost use Rattle.std.specs.Prelude.{◌≡◌, ◌≤◌, ◌<◌, ◌+◌, ◌^◌, ◌++◌, length, take};
ghost use Rattle.mp4_frame.specs.Bytes.{be_bytes};
ghost use Rattle.mp4_declared.specs.Shape.{full_shape};
ghost use Rattle.mp4_declared.specs.FullLaws.{full_laws};

use crate::context::Context;
use crate::shape::{PutShape, Shape, read_next};
use mp4_frame::{Error, Result, put_u32, u8_at, u24_at};
use std::alloc::Global;

/// The content of a full box (ISO/IEC 14496-12, 4.2): its version, which is below `N`, its flags, and an `S`. The `S`
/// may depend on version and flags. Boxes of other versions are refused.
pub struct Full<const N: usize, S>(S);

/// Returns the text of the error for a box whose version isn't below `versions`.
fn unknown_version(versions: usize) -> &'static str {
    match versions {
        1 => "version must be 0",
        2 => "version must be 0 or 1",
        _ => "version is too large",
    }
}

/// Puts `version` and `flags` as one number of four bytes, and returns the offset after them.
#[inline]
#[tactic(auto, using(mp4_frame::proofs::Fields::version_and_flags))]
fn put_version_and_flags(out: &mut [u8], at: usize, version: u8, flags: u32) -> usize
    requires room { at + 4 ≤ length out.old }
    requires fits { flags < 2 ^ 24 }
    ensures next { result ≡ at + 4 }
    ensures put { take result out.new ≡ (take at out.old ++ be_bytes 1 version) ++ be_bytes 3 flags }
{
    put_u32(out, at, u32::from(version) * (1 << 24) + flags)
}

impl<const N: usize, S: Shape> Shape for Full<N, S> {
    type Value = (u8, (u32, S::Value));

    ghost shape = { full_shape N S.shape };

    ghost shape_laws = { full_laws N S.shape S.shape_laws };

    #[inline]
    fn is_fixed() -> bool {
        false
    }

    #[inline]
    fn front(_context: Context) -> usize {
        4
    }

    #[inline]
    fn read(
        alloc: Global,
        bytes: &[u8],
        at: usize,
        end: u64,
        _context: Context,
    ) -> Result<((u8, (u32, S::Value)), usize)> {
        let version = u8_at(bytes, at);
        if usize::from(version) >= N {
            return Err(Error::InvalidData(unknown_version(N)));
        }
        let flags = u24_at(bytes, at + 1);
        let context = Context { version, flags };
        let (value, next) = read_next::<S>(alloc, bytes, at + 4, end, context, false)?;
        Ok(((version, (flags, value)), next))
    }
}

impl<const N: usize, S: PutShape<V>, V: Copy> PutShape<(u8, (u32, V))> for Full<N, S> {
    ghost content = { λ v. (v.0, (v.1.0, S.content v.1.1)) };

    #[inline]
    fn size(_context: Context, value: (u8, (u32, V))) -> u64 {
        let (version, (flags, value)) = value;
        S::size(Context { version, flags }, value).saturating_add(4)
    }

    #[inline]
    fn fits(_context: Context, value: (u8, (u32, V))) -> bool {
        let (version, (flags, value)) = value;
        usize::from(version) < N && flags < 1 << 24 && S::fits(Context { version, flags }, value)
    }

    #[inline]
    fn put(out: &mut [u8], at: usize, _context: Context, value: (u8, (u32, V))) -> usize {
        let (version, (flags, value)) = value;
        let next = put_version_and_flags(out, at, version, flags);
        S::put(out, next, Context { version, flags }, value)
    }
}
