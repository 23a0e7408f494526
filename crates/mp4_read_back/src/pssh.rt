//! The protection system specific header box.

ghost use Rattle.std.proofs.Common.{refl};
ghost use Rattle.std.specs.Prelude.{ℕ, List};
ghost use Rattle.mp4_declared.specs.OwnBox.{no_context};
ghost use Rattle.mp4_extra_tracks.specs.ShownSystem.{SystemNames};
ghost use Rattle.mp4_read_back.specs.SystemLaws.{system_comes};
ghost use Rattle.mp4_read_back.specs.Systems.{system_part};
ghost use Rattle.mp4_read_back.specs.Text.{declared_back};
ghost use Rattle.mp4_read_back.specs.declared.pssh.TheConstants.{PSSH};

use crate::{ComesBack, ReadBack};
use mp4_declared::{Bytes, DeclaredBox, FromVersion, Full, If, Last, Rows, U32};
use mp4_extra_tracks::pssh::{ProtectionSystem, Pssh};
use mp4_shown::{FLAGS, NamedShape, VERSION, list, names_of, run};

impl ComesBack for ProtectionSystem {
    ghost Names = { SystemNames };

    ghost Value = { List ℕ };

    ghost part = { system_part };

    ghost comes = { system_comes };
}

/// The content of the box.
type PsshShown = Full<
    2,
    (
        ProtectionSystem,
        If<FromVersion<1>, Rows<U32, 16>>,
        Last<Bytes<U32>>,
    ),
>;

/// The names of the fields of a `pssh`.
const PSSH: &<PsshShown as NamedShape>::Names = &names_of!(
    VERSION,
    FLAGS,
    ("SystemID", "SystemID_name"),
    list!("KID"),
    run!("Data", Bytes)
);

impl ReadBack for Pssh {
    ghost Fits = { λ b. ⟦<PsshShown as ComesBack>⟧.part.Fits no_context (⟦<Pssh as DeclaredBox>⟧.layout.content b) };

    ghost normal = { λ b. ⟦<Pssh as DeclaredBox>⟧.layout.value (⟦<Pssh as DeclaredBox>⟧.layout.content b) };

    ghost back = { declared_back ⟦<Pssh as DeclaredBox>⟧.layout ⟦<PsshShown as ComesBack>⟧.part PSSH.now
        ⟦<PsshShown as ComesBack>⟧.comes refl };
}
