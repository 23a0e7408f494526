//! Boxes of tracks, protection, items and metadata.

ghost use Rattle.mp4_declared.specs.OwnBox.{no_context};
ghost use Rattle.mp4_read_back.specs.StructLaws.{struct_entry_comes};
ghost use Rattle.mp4_read_back.specs.Structs.{struct_entry};
ghost use Rattle.mp4_read_back.specs.Text.{declared_back};
ghost use Rattle.mp4_read_back.specs.declared.tracks.TheConstants.{ALIS, ELNG, FRMA, ILOC, IODS, IPMA, IPMA_ENTRY};
ghost use Rattle.mp4_read_back.specs.declared.tracks.TheConstants.{KEYS, KEYS_KEY, KIND, MEAN, NAME, PITM, SCHM, TENC};
ghost use Rattle.mp4_read_back.specs.declared.tracks.TheConstants.{TREF, TREF_REFERENCE};
ghost use Rattle.std.proofs.Common.{refl};

use crate::exclusive::ByFlag;
use crate::{ComesBack, EntryComesBack, ReadBack};
use mp4_declared::{DeclaredBox, DeclaredEntry, List, U8};
use mp4_extra_tracks::alis::{Alis, AlisShape};
use mp4_extra_tracks::elng::{Elng, ElngShape};
use mp4_extra_tracks::frma::{Frma, FrmaShape};
use mp4_extra_tracks::iloc::{Iloc, IlocShape};
use mp4_extra_tracks::iods::{Iods, IodsShape};
use mp4_extra_tracks::ipma::{
    Ipma, IpmaShape, ItemProperties, ItemPropertiesShape, PropertyAssociation,
};
use mp4_extra_tracks::item_id::ItemId;
use mp4_extra_tracks::keys::{Keys, KeysShape, MetadataKey, MetadataKeyShape};
use mp4_extra_tracks::kind::{Kind, KindShape};
use mp4_extra_tracks::mean::{Mean, MeanShape};
use mp4_extra_tracks::name::{Name, NameShape};
use mp4_extra_tracks::pitm::{Pitm, PitmShape};
use mp4_extra_tracks::schm::{Schm, SchmShape};
use mp4_extra_tracks::tenc::{Tenc, TencShape};
use mp4_extra_tracks::tref::{TrackReference, TrackReferenceShape, Tref, TrefShape};
use mp4_shown::{FLAGS, Meaning, NamedShape, NumberName, VERSION, list, names_of, number, run};

/// The meanings of numbers.
const ALIS_REFERENCE: &[Meaning] = &[(0x1, "same_file")];

/// The names of the fields of a `alis`.
const ALIS: &<AlisShape as NamedShape>::Names = &names_of!(
    VERSION,
    number!("flags", Flags(6), ALIS_REFERENCE),
    run!("data_bytes", SomeBytes)
);

impl ReadBack for Alis {
    ghost Fits = { λ b. ⟦<AlisShape as ComesBack>⟧.part.Fits no_context (⟦<Alis as DeclaredBox>⟧.layout.content b) };

    ghost normal = { λ b. ⟦<Alis as DeclaredBox>⟧.layout.value (⟦<Alis as DeclaredBox>⟧.layout.content b) };

    ghost back = { declared_back ⟦<Alis as DeclaredBox>⟧.layout ⟦<AlisShape as ComesBack>⟧.part ALIS.now
        ⟦<AlisShape as ComesBack>⟧.comes refl };
}

/// The names of the fields of a `elng`.
const ELNG: &<ElngShape as NamedShape>::Names = &names_of!(
    VERSION,
    FLAGS,
    run!("extended_language", Ended)
);

impl ReadBack for Elng {
    ghost Fits = { λ b. ⟦<ElngShape as ComesBack>⟧.part.Fits no_context (⟦<Elng as DeclaredBox>⟧.layout.content b) };

    ghost normal = { λ b. ⟦<Elng as DeclaredBox>⟧.layout.value (⟦<Elng as DeclaredBox>⟧.layout.content b) };

    ghost back = { declared_back ⟦<Elng as DeclaredBox>⟧.layout ⟦<ElngShape as ComesBack>⟧.part ELNG.now
        ⟦<ElngShape as ComesBack>⟧.comes refl };
}

/// The names of the fields of a `frma`.
const FRMA: &<FrmaShape as NamedShape>::Names = &names_of!("data_format");

impl ReadBack for Frma {
    ghost Fits = { λ b. ⟦<FrmaShape as ComesBack>⟧.part.Fits no_context (⟦<Frma as DeclaredBox>⟧.layout.content b) };

    ghost normal = { λ b. ⟦<Frma as DeclaredBox>⟧.layout.value (⟦<Frma as DeclaredBox>⟧.layout.content b) };

    ghost back = { declared_back ⟦<Frma as DeclaredBox>⟧.layout ⟦<FrmaShape as ComesBack>⟧.part FRMA.now
        ⟦<FrmaShape as ComesBack>⟧.comes refl };
}

/// The names of a part of a `iloc`.
const ILOC_SIZES: &[NumberName] = &[
    number!("offset_size"),
    number!("length_size"),
    number!("base_offset_size"),
    number!("index_size"),
];

/// The names of the fields of a `iloc`.
const ILOC: &<IlocShape as NamedShape>::Names = &names_of!(
    VERSION,
    FLAGS,
    ILOC_SIZES,
    number!("item_count"),
    run!("data_bytes", SomeBytes)
);

impl ReadBack for Iloc {
    ghost Fits = { λ b. ⟦<IlocShape as ComesBack>⟧.part.Fits no_context (⟦<Iloc as DeclaredBox>⟧.layout.content b) };

    ghost normal = { λ b. ⟦<Iloc as DeclaredBox>⟧.layout.value (⟦<Iloc as DeclaredBox>⟧.layout.content b) };

    ghost back = { declared_back ⟦<Iloc as DeclaredBox>⟧.layout ⟦<IlocShape as ComesBack>⟧.part ILOC.now
        ⟦<IlocShape as ComesBack>⟧.comes refl };
}

/// The names of the fields of a `iods`.
const IODS: &<IodsShape as NamedShape>::Names = &names_of!(VERSION, FLAGS, run!("OD", Bytes));

impl ReadBack for Iods {
    ghost Fits = { λ b. ⟦<IodsShape as ComesBack>⟧.part.Fits no_context (⟦<Iods as DeclaredBox>⟧.layout.content b) };

    ghost normal = { λ b. ⟦<Iods as DeclaredBox>⟧.layout.value (⟦<Iods as DeclaredBox>⟧.layout.content b) };

    ghost back = { declared_back ⟦<Iods as DeclaredBox>⟧.layout ⟦<IodsShape as ComesBack>⟧.part IODS.now
        ⟦<IodsShape as ComesBack>⟧.comes refl };
}

/// The names of a part of a `ipma`.
const IPMA_ASSOCIATION: &[NumberName] = &[number!("essential"), number!("property_index")];

/// The names of a part of a `ipma`.
const IPMA_ENTRY: &<ItemPropertiesShape as NamedShape>::Names = &names_of!(
    number!("item_ID"),
    (list!("associations"), IPMA_ASSOCIATION),
    (list!("associations"), IPMA_ASSOCIATION)
);

/// The meanings of numbers.
const IPMA_PROPERTY_FLAGS: &[Meaning] = &[(0x1, "property_index of 15 bits")];

/// The names of the fields of a `ipma`.
const IPMA: &<IpmaShape as NamedShape>::Names = &names_of!(
    VERSION,
    number!("flags", Flags(6), IPMA_PROPERTY_FLAGS),
    list!("entries", Counted, "entry_count")
);

/// The shape of ItemProperties for its law.
type ItemPropertiesLaw = (
    ItemId<1>,
    ByFlag<List<U8, PropertyAssociation, 2, 1>, List<U8, PropertyAssociation, 2, 2>>,
);

impl EntryComesBack for ItemProperties {
    ghost part = { struct_entry ⟦<ItemProperties as DeclaredEntry>⟧.layout ⟦<ItemPropertiesLaw as ComesBack>⟧.part
        IPMA_ENTRY.now };

    ghost comes = { struct_entry_comes ⟦<ItemProperties as DeclaredEntry>⟧.layout
        ⟦<ItemPropertiesLaw as ComesBack>⟧.part IPMA_ENTRY.now ⟦<ItemPropertiesLaw as ComesBack>⟧.comes };
}

impl ReadBack for Ipma {
    ghost Fits = { λ b. ⟦<IpmaShape as ComesBack>⟧.part.Fits no_context (⟦<Ipma as DeclaredBox>⟧.layout.content b) };

    ghost normal = { λ b. ⟦<Ipma as DeclaredBox>⟧.layout.value (⟦<Ipma as DeclaredBox>⟧.layout.content b) };

    ghost back = { declared_back ⟦<Ipma as DeclaredBox>⟧.layout ⟦<IpmaShape as ComesBack>⟧.part IPMA.now
        ⟦<IpmaShape as ComesBack>⟧.comes refl };
}

/// The names of a part of a `keys`.
const KEYS_KEY: &<MetadataKeyShape as NamedShape>::Names = &names_of!(
    "Key_namespace",
    run!("Key_value", Text)
);

/// The names of the fields of a `keys`.
const KEYS: &<KeysShape as NamedShape>::Names = &names_of!(
    VERSION,
    FLAGS,
    list!("entries", Counted, "entry_count")
);

impl EntryComesBack for MetadataKey {
    ghost part = { struct_entry ⟦<MetadataKey as DeclaredEntry>⟧.layout ⟦<MetadataKeyShape as ComesBack>⟧.part
        KEYS_KEY.now };

    ghost comes = { struct_entry_comes ⟦<MetadataKey as DeclaredEntry>⟧.layout
        ⟦<MetadataKeyShape as ComesBack>⟧.part KEYS_KEY.now ⟦<MetadataKeyShape as ComesBack>⟧.comes };
}

impl ReadBack for Keys {
    ghost Fits = { λ b. ⟦<KeysShape as ComesBack>⟧.part.Fits no_context (⟦<Keys as DeclaredBox>⟧.layout.content b) };

    ghost normal = { λ b. ⟦<Keys as DeclaredBox>⟧.layout.value (⟦<Keys as DeclaredBox>⟧.layout.content b) };

    ghost back = { declared_back ⟦<Keys as DeclaredBox>⟧.layout ⟦<KeysShape as ComesBack>⟧.part KEYS.now
        ⟦<KeysShape as ComesBack>⟧.comes refl };
}

/// The names of the fields of a `kind`.
const KIND: &<KindShape as NamedShape>::Names = &names_of!(
    VERSION,
    FLAGS,
    run!("schemeURI", Text),
    run!("value", Text)
);

impl ReadBack for Kind {
    ghost Fits = { λ b. ⟦<KindShape as ComesBack>⟧.part.Fits no_context (⟦<Kind as DeclaredBox>⟧.layout.content b) };

    ghost normal = { λ b. ⟦<Kind as DeclaredBox>⟧.layout.value (⟦<Kind as DeclaredBox>⟧.layout.content b) };

    ghost back = { declared_back ⟦<Kind as DeclaredBox>⟧.layout ⟦<KindShape as ComesBack>⟧.part KIND.now
        ⟦<KindShape as ComesBack>⟧.comes refl };
}

/// The names of the fields of a `mean`.
const MEAN: &<MeanShape as NamedShape>::Names = &names_of!(VERSION, FLAGS, run!("value", Text));

impl ReadBack for Mean {
    ghost Fits = { λ b. ⟦<MeanShape as ComesBack>⟧.part.Fits no_context (⟦<Mean as DeclaredBox>⟧.layout.content b) };

    ghost normal = { λ b. ⟦<Mean as DeclaredBox>⟧.layout.value (⟦<Mean as DeclaredBox>⟧.layout.content b) };

    ghost back = { declared_back ⟦<Mean as DeclaredBox>⟧.layout ⟦<MeanShape as ComesBack>⟧.part MEAN.now
        ⟦<MeanShape as ComesBack>⟧.comes refl };
}

/// The names of the fields of a `name`.
const NAME: &<NameShape as NamedShape>::Names = &names_of!(VERSION, FLAGS, run!("value", Text));

impl ReadBack for Name {
    ghost Fits = { λ b. ⟦<NameShape as ComesBack>⟧.part.Fits no_context (⟦<Name as DeclaredBox>⟧.layout.content b) };

    ghost normal = { λ b. ⟦<Name as DeclaredBox>⟧.layout.value (⟦<Name as DeclaredBox>⟧.layout.content b) };

    ghost back = { declared_back ⟦<Name as DeclaredBox>⟧.layout ⟦<NameShape as ComesBack>⟧.part NAME.now
        ⟦<NameShape as ComesBack>⟧.comes refl };
}

/// The names of the fields of a `pitm`.
const PITM: &<PitmShape as NamedShape>::Names = &names_of!(VERSION, FLAGS, number!("item_ID"));

impl ReadBack for Pitm {
    ghost Fits = { λ b. ⟦<PitmShape as ComesBack>⟧.part.Fits no_context (⟦<Pitm as DeclaredBox>⟧.layout.content b) };

    ghost normal = { λ b. ⟦<Pitm as DeclaredBox>⟧.layout.value (⟦<Pitm as DeclaredBox>⟧.layout.content b) };

    ghost back = { declared_back ⟦<Pitm as DeclaredBox>⟧.layout ⟦<PitmShape as ComesBack>⟧.part PITM.now
        ⟦<PitmShape as ComesBack>⟧.comes refl };
}

/// The meanings of numbers.
const SCHM_SCHEME_FLAGS: &[Meaning] = &[(0x1, "scheme_uri")];

/// The names of the fields of a `schm`.
const SCHM: &<SchmShape as NamedShape>::Names = &names_of!(
    VERSION,
    number!("flags", Flags(6), SCHM_SCHEME_FLAGS),
    "scheme_type",
    number!("scheme_version"),
    run!("scheme_uri", Ended)
);

impl ReadBack for Schm {
    ghost Fits = { λ b. ⟦<SchmShape as ComesBack>⟧.part.Fits no_context (⟦<Schm as DeclaredBox>⟧.layout.content b) };

    ghost normal = { λ b. ⟦<Schm as DeclaredBox>⟧.layout.value (⟦<Schm as DeclaredBox>⟧.layout.content b) };

    ghost back = { declared_back ⟦<Schm as DeclaredBox>⟧.layout ⟦<SchmShape as ComesBack>⟧.part SCHM.now
        ⟦<SchmShape as ComesBack>⟧.comes refl };
}

/// The names of a part of a `tenc`.
const TENC_PATTERN: &[NumberName] = &[
    number!("default_crypt_byte_block"),
    number!("default_skip_byte_block"),
];

/// The names of the fields of a `tenc`.
const TENC: &<TencShape as NamedShape>::Names = &names_of!(
    VERSION,
    FLAGS,
    TENC_PATTERN,
    number!("default_isProtected"),
    number!("default_Per_Sample_IV_Size"),
    run!("default_KID", Bytes),
    run!("default_constant_IV", Counted, "default_constant_IV_size")
);

impl ReadBack for Tenc {
    ghost Fits = { λ b. ⟦<TencShape as ComesBack>⟧.part.Fits no_context (⟦<Tenc as DeclaredBox>⟧.layout.content b) };

    ghost normal = { λ b. ⟦<Tenc as DeclaredBox>⟧.layout.value (⟦<Tenc as DeclaredBox>⟧.layout.content b) };

    ghost back = { declared_back ⟦<Tenc as DeclaredBox>⟧.layout ⟦<TencShape as ComesBack>⟧.part TENC.now
        ⟦<TencShape as ComesBack>⟧.comes refl };
}

/// The names of a part of a `tref`.
const TREF_REFERENCE: &<TrackReferenceShape as NamedShape>::Names = &names_of!(
    "reference_type",
    "track_IDs"
);

/// The names of the fields of a `tref`.
const TREF: &<TrefShape as NamedShape>::Names = &names_of!(list!("references"));

impl EntryComesBack for TrackReference {
    ghost part = { struct_entry ⟦<TrackReference as DeclaredEntry>⟧.layout ⟦<TrackReferenceShape as ComesBack>⟧.part
        TREF_REFERENCE.now };

    ghost comes = { struct_entry_comes ⟦<TrackReference as DeclaredEntry>⟧.layout
        ⟦<TrackReferenceShape as ComesBack>⟧.part TREF_REFERENCE.now ⟦<TrackReferenceShape as ComesBack>⟧.comes };
}

impl ReadBack for Tref {
    ghost Fits = { λ b. ⟦<TrefShape as ComesBack>⟧.part.Fits no_context (⟦<Tref as DeclaredBox>⟧.layout.content b) };

    ghost normal = { λ b. ⟦<Tref as DeclaredBox>⟧.layout.value (⟦<Tref as DeclaredBox>⟧.layout.content b) };

    ghost back = { declared_back ⟦<Tref as DeclaredBox>⟧.layout ⟦<TrefShape as ComesBack>⟧.part TREF.now
        ⟦<TrefShape as ComesBack>⟧.comes refl };
}
