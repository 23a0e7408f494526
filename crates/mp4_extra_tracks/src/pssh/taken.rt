//! Takes the box back out of its JSON.

ghost use Rattle.mp4_shown.specs.TakenShapes.{declared_taken};
ghost use Rattle.mp4_extra_tracks.specs.declared.pssh.TheConstants.{NAMES};
ghost use Rattle.std.specs.Prelude.{◌≡◌, ◌==◌, Some, None, if◌then◌else◌, length, option_map};
ghost use Rattle.mp4_shown.specs.Object.{left};
ghost use Rattle.mp4_extra_tracks.specs.TakenPssh.{name_taken, some_name, system_taken};
ghost use Rattle.mp4_shown.specs.Taking.{TakesAs};

use super::{NAMES, ProtectionSystem, Pssh, PsshShown, system_name};
use mp4_declared::{Context, DeclaredBox};
use mp4_frame::u64_at;
use mp4_shown::NamedShape;
use mp4_shown::taken::{
    Object, Reason, Result, TakeFields, TakeShape, agrees, hex_in, refuse, take_declared,
};
use std::alloc::Global;

/// Returns the array of 16 bytes, or `None` if `bytes` are fewer or more.
fn id_of(bytes: &[u8]) -> Option<[u8; 16]>
    ensures { result ≡ (if length bytes.now == 16 then Some bytes.now else None) }
{
    if bytes.len() != 16 {
        return None;
    }
    let mut id = [0; 16];
    id.copy_from_slice(bytes);
    Some(id)
}

/// Returns `name`, or `None` if it is empty.
fn some_name(name: &str) -> Option<&str>
    ensures { option_map (λ s. s.now) result ≡ some_name name.now }
{
    if name.is_empty() { None } else { Some(name) }
}

/// Takes the name of the system `id` out, if it is present, and checks it.
fn take_name(alloc: Global, name: &str, id: &[u8; 16], object: &mut Object<'_>) -> Result<()>
    ensures { TakesAs (λ _. left object.new) result (name_taken name.now id.now (left object.old)) }
{
    let value = object.take_out(alloc, name)?;
    let system = system_name(u64_at(id, 0), u64_at(id, 8));
    if agrees(&value, some_name(system)) {
        Ok(())
    } else {
        Err(refuse(alloc, name, Reason::Contradiction))
    }
}

impl TakeShape for ProtectionSystem {
    type Names = (&'static str, &'static str);

    type Taken = [u8; 16];

    ghost Known = { ⟦<ProtectionSystem as NamedShape>⟧.Seen };

    ghost known = { ⟦<ProtectionSystem as NamedShape>⟧.seen };

    ghost taken = { λ names c ms. system_taken names ms };

    fn take(
        alloc: Global,
        names: &(&'static str, &'static str),
        _context: Context,
        object: &mut Object<'_>,
    ) -> Result<[u8; 16]> {
        let value = object.take_one(alloc, names.0)?;
        let bytes = hex_in(alloc, names.0, &value)?;
        let Some(id) = id_of(bytes.as_slice()) else {
            return Err(refuse(alloc, names.0, Reason::WrongLength));
        };
        take_name(alloc, names.1, &id, object)?;
        Ok(id)
    }
}

impl TakeFields for Pssh {
    ghost taken = { declared_taken ⟦<Pssh as DeclaredBox>⟧.layout (⟦<PsshShown as TakeShape>⟧.taken NAMES.now) };

    fn take(alloc: Global, object: &mut Object<'_>) -> Result<Pssh> {
        take_declared::<Pssh, PsshShown>(alloc, NAMES, object)
    }
}
