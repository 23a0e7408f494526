//! The protection system specific header box.

ghost use Rattle.mp4_extra_tracks.specs.declared.pssh.TheConstants.{NAMES};
ghost use Rattle.mp4_extra_tracks.specs.ShownSystem.{SystemNames as SeenNames, seen_system, shown_name};
ghost use Rattle.mp4_extra_tracks.specs.ShownSystem.{shown_system, system_name, whole_system};
ghost use Rattle.mp4_frame.specs.declared.codes.TheConstants as codes;
ghost use Rattle.mp4_shown.specs.Hands.{Hands};
ghost use Rattle.std.proofs.Common.{refl, lit<};
ghost use Rattle.std.specs.Prelude.{◌≡◌, OnOk};
ghost use Rattle.mp4_declared.specs.OwnBox.{layout_of};

mod taken;

use mp4_declared::{
    Array, Bytes, Declared, DeclaredBox, FromVersion, Full, If, Last, Rows, Shape, ShapeVisitor,
    U32, box_of, parts_of,
};
use mp4_frame::{Entries, Result, TryClone, codes, u64_at};
use mp4_shown::{
    FLAGS, FieldSink, HasFields, NamedShape, ShowShape, VERSION, Value, View, list, names_of, run,
    show_shape,
};

/// The data that a content protection system needs (`pssh`, ISO/IEC 23001-7, 8.1).
#[derive(Debug, Drop, PartialEq, Eq)]
pub struct Pssh {
    /// 0, or 1 for a box with a list of keys.
    pub version: u8,
    /// 24 bits, 0 in the standard.
    pub flags: u32,
    /// The UUID of the system (`SystemID`).
    pub system_id: [u8; 16],
    /// The UUIDs of the keys that the data is for (`KID`). `None` in version 0.
    pub key_ids: Option<Entries<[u8; 16]>>,
    /// Bytes that the system defines (`Data`).
    pub system_data: Entries<u8>,
}

/// The content of the box: version, flags, 16 bytes, in version 1 a count of 32 bits and that many keys, then a count
/// of 32 bits and that many bytes.
pub type PsshShape = Full<
    2,
    (
        Array<16>,
        If<FromVersion<1>, Rows<U32, 16>>,
        Last<Bytes<U32>>,
    ),
>;

impl DeclaredBox for Pssh {
    ghost use Rattle.mp4_extra_tracks.specs.contracts.pssh.Pssh.{struct};

    type Shape = PsshShape;

    ghost CODE = { codes.PSSH };

    ghost layout = { layout_of struct (λ _. tt) (λ _. refl) (lit< tt) };

    const CODE: u32 = codes::PSSH;

    fn from_content(found: <PsshShape as Shape>::Value) -> Pssh {
        box_of!(found => Pssh { version, flags, system_id, key_ids, system_data })
    }

    fn visit<Q: ShapeVisitor<Self::Shape>>(&self, out: &mut [u8]) -> Q::Answer {
        let key_ids = match &self.key_ids {
            Some(key_ids) => Some(key_ids.as_slice()),
            None => None,
        };
        let parts = parts_of!(self => version, flags, system_id, = key_ids, system_data.as_slice());
        Q::visit(parts, out)
    }

    ghost valid = { refl };
}

/// A protection system, for showing only: its UUID, and its name if it is a known one.
pub struct ProtectionSystem;

/// Returns the name of the system whose UUID has these two halves, or an empty text (DASH-IF, "Content protection").
fn system_name(high: u64, low: u64) -> &'static str
    ensures { result.now ≡ system_name high low }
{
    if high == 0xedef_8ba9_79d6_4ace && low == 0xa3c8_27dc_d51d_21ed {
        "Widevine"
    } else if high == 0x9a04_f079_9840_4286 && low == 0xab92_e65b_e088_5f95 {
        "PlayReady"
    } else if high == 0x94ce_86fb_07ff_4f43 && low == 0xadb8_93d2_fa96_8ca2 {
        "FairPlay"
    } else if high == 0x1077_efec_c0b2_4d02 && low == 0xace3_3c1e_52e2_fb4b {
        "Common"
    } else if high == 0xe271_9d58_a985_b3c9 && low == 0x781a_b030_af78_d30e {
        "ClearKey"
    } else {
        ""
    }
}

/// Hands the name of a system to a sink, unless it is empty.
fn put_name<K: FieldSink>(
    name: &'static str,
    system: &'static str,
    sink: &mut K,
) -> mp4_shown::Result<()>
    ensures { OnOk result (Hands K.trace K.after sink.old (shown_name name.now system.now) sink.new) }
{
    if system.is_empty() {
        return Ok(());
    }
    sink.field(name, Value::Text(system.as_bytes()))
}

impl NamedShape for ProtectionSystem {
    type Value = [u8; 16];

    type Names = (&'static str, &'static str);

    ghost Seen = { SeenNames };

    ghost seen = { seen_system };

    ghost shown = { λ names view id. shown_system names id };

    ghost whole = { λ names view id. whole_system names id };
}

impl ShowShape<[u8; 16]> for ProtectionSystem {
    ghost content = { λ id. id };

    fn show<K: FieldSink>(
        names: &(&'static str, &'static str),
        _view: View,
        value: &[u8; 16],
        sink: &mut K,
    ) -> mp4_shown::Result<()> {
        sink.field(names.0, Value::Bytes(value))?;
        put_name(
            names.1,
            system_name(u64_at(value, 0), u64_at(value, 8)),
            sink,
        )
    }
}

/// The content of the box, for showing only.
type PsshShown = Full<
    2,
    (
        ProtectionSystem,
        If<FromVersion<1>, Rows<U32, 16>>,
        Last<Bytes<U32>>,
    ),
>;

/// The names of the fields.
const NAMES: &<PsshShown as NamedShape>::Names = &names_of!(
    VERSION,
    FLAGS,
    ("SystemID", "SystemID_name"),
    list!("KID"),
    run!("Data", Bytes)
);

impl HasFields for Pssh {
    ghost shown = { λ view b. ⟦<PsshShown as NamedShape>⟧.shown NAMES.now view
        (⟦<Pssh as DeclaredBox>⟧.layout.content b) };

    ghost whole = { λ view b. ⟦<PsshShown as NamedShape>⟧.whole NAMES.now view
        (⟦<Pssh as DeclaredBox>⟧.layout.content b) };

    fn show<K: FieldSink>(&self, view: View, sink: &mut K) -> mp4_shown::Result<()> {
        let key_ids = match &self.key_ids {
            Some(key_ids) => Some(key_ids.as_slice()),
            None => None,
        };
        let parts = parts_of!(self => version, flags, system_id, = key_ids, system_data.as_slice());
        show_shape::<PsshShown, _, K>(NAMES, view, &parts, sink)
    }
}

impl TryClone for Pssh {
    fn try_clone(&self) -> Result<Pssh> {
        let key_ids = match &self.key_ids {
            Some(key_ids) => Some(key_ids.try_clone()?),
            None => None,
        };
        let system_data = self.system_data.try_clone()?;
        Ok(Pssh {
            key_ids,
            system_data,
            ..*self
        })
    }
}

/// The protection system specific header box.
pub type PsshBox = Declared<Pssh>;
