//! Runs of bytes, and strings.

ghost use Rattle.std.specs.Prelude.{◌≡◌, ◌==◌, ◌^◌, length, nat_lt};
ghost use Rattle.mp4_shown.specs.TakenRuns.{has_no_zero, is_pascal, run_if, run_taken};
ghost use Rattle.mp4_shown.specs.declared.taken.error.Reason.TheVariants.{WrongLength, ZeroByte};

use crate::taken::error::{Reason, Result};
use crate::taken::list::count_fits;
use crate::taken::object::Object;
use crate::taken::run::{check_bytes, take_bytes};
use crate::taken::take::TakeShape;
use crate::{BytesName, NamedShape};
use mp4_declared::{Array, Bytes, Context, Count, Pascal, Rest, Terminated};
use mp4_frame::Entries;
use std::alloc::Global;

impl TakeShape for Rest {
    type Names = BytesName;

    type Taken = Entries<u8>;

    ghost Known = { ⟦<Rest as NamedShape>⟧.Seen };

    ghost known = { ⟦<Rest as NamedShape>⟧.seen };

    ghost taken = { λ name c ms. run_taken name ms };

    fn take(
        alloc: Global,
        name: &BytesName,
        _context: Context,
        object: &mut Object<'_>,
    ) -> Result<Entries<u8>> {
        Ok(take_bytes(alloc, *name, object)?.into())
    }
}

impl<C: Count> TakeShape for Bytes<C> {
    type Names = BytesName;

    type Taken = Entries<u8>;

    ghost Known = { ⟦<Bytes<C> as NamedShape>⟧.Seen };

    ghost known = { ⟦<Bytes<C> as NamedShape>⟧.seen };

    ghost taken = { λ name c ms. run_if name (λ bytes. nat_lt (length bytes) (256 ^ C.WIDTH)) WrongLength ms };

    fn take(
        alloc: Global,
        name: &BytesName,
        _context: Context,
        object: &mut Object<'_>,
    ) -> Result<Entries<u8>> {
        let bytes = take_bytes(alloc, *name, object)?;
        let pass = count_fits::<C>(bytes.len() as u64);
        Ok(check_bytes(alloc, *name, bytes, pass, Reason::WrongLength)?.into())
    }
}

/// Returns whether none of `bytes` is 0.
pub fn has_no_zero(bytes: &[u8]) -> bool
    ensures { result ≡ has_no_zero bytes.now }
{
    !bytes.contains(&0)
}

impl TakeShape for Terminated {
    type Names = BytesName;

    type Taken = Entries<u8>;

    ghost Known = { ⟦<Terminated as NamedShape>⟧.Seen };

    ghost known = { ⟦<Terminated as NamedShape>⟧.seen };

    ghost taken = { λ name c ms. run_if name has_no_zero ZeroByte ms };

    fn take(
        alloc: Global,
        name: &BytesName,
        _context: Context,
        object: &mut Object<'_>,
    ) -> Result<Entries<u8>> {
        let bytes = take_bytes(alloc, *name, object)?;
        let pass = has_no_zero(bytes.as_slice());
        Ok(check_bytes(alloc, *name, bytes, pass, Reason::ZeroByte)?.into())
    }
}

impl<const N: usize> TakeShape for Pascal<N> {
    type Names = BytesName;

    type Taken = Entries<u8>;

    ghost Known = { ⟦<Pascal<N> as NamedShape>⟧.Seen };

    ghost known = { ⟦<Pascal<N> as NamedShape>⟧.seen };

    ghost taken = { λ name c ms. run_if name (is_pascal N) WrongLength ms };

    fn take(
        alloc: Global,
        name: &BytesName,
        _context: Context,
        object: &mut Object<'_>,
    ) -> Result<Entries<u8>> {
        let bytes = take_bytes(alloc, *name, object)?;
        let pass = bytes.len() < N && bytes.len() < 256;
        Ok(check_bytes(alloc, *name, bytes, pass, Reason::WrongLength)?.into())
    }
}

/// Returns the array of `N` bytes.
pub(crate) fn array_of<const N: usize>(bytes: &[u8]) -> [u8; N]
    requires { length bytes.now ≡ N }
    ensures { result ≡ bytes.now }
{
    let mut value = [0; N];
    value.copy_from_slice(bytes);
    value
}

impl<const N: usize> TakeShape for Array<N> {
    type Names = BytesName;

    type Taken = [u8; N];

    ghost Known = { ⟦<Array<N> as NamedShape>⟧.Seen };

    ghost known = { ⟦<Array<N> as NamedShape>⟧.seen };

    ghost taken = { λ name c ms. run_if name (λ bytes. length bytes == N) WrongLength ms };

    fn take(
        alloc: Global,
        name: &BytesName,
        _context: Context,
        object: &mut Object<'_>,
    ) -> Result<[u8; N]> {
        let bytes = take_bytes(alloc, *name, object)?;
        let pass = bytes.len() == N;
        let bytes = check_bytes(alloc, *name, bytes, pass, Reason::WrongLength)?;
        Ok(array_of(bytes.as_slice()))
    }
}
