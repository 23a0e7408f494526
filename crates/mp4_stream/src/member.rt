//! The box types as variants of `AnyBox`.

ghost use Rattle.std.specs.Prelude.{◌≡◌};
ghost use Rattle.mp4_stream.specs.declared.any_box.AnyBox.TheVariants as any;

use crate::{
    AnyBox, Avc1Box, AvcCBox, Co64Box, CttsBox, DataBox, DinfBox, DrefBox, ElstBox, EmsgBox,
    EsdsBox, FtypBox, HdlrBox, Hev1Box, HvcCBox, MdhdBox, MehdBox, MfhdBox, Mp4aBox, MvhdBox,
    SmhdBox, StcoBox, StscBox, StsdBox, StssBox, StszBox, SttsBox, TfdtBox, TfhdBox, TkhdBox,
    TrexBox, TrunBox, Tx3gBox, UrlBox, VmhdBox, Vp09Box, VpccBox,
};
use mp4_frame::Holds;

impl Holds<FtypBox> for AnyBox {
    ghost wrapped = { any.FtypBox };

    fn wrap(value: FtypBox) -> AnyBox {
        AnyBox::FtypBox(value)
    }
}

impl Holds<MvhdBox> for AnyBox {
    ghost wrapped = { any.MvhdBox };

    fn wrap(value: MvhdBox) -> AnyBox {
        AnyBox::MvhdBox(value)
    }
}

impl Holds<TkhdBox> for AnyBox {
    ghost wrapped = { any.TkhdBox };

    fn wrap(value: TkhdBox) -> AnyBox {
        AnyBox::TkhdBox(value)
    }
}

impl Holds<MdhdBox> for AnyBox {
    ghost wrapped = { any.MdhdBox };

    fn wrap(value: MdhdBox) -> AnyBox {
        AnyBox::MdhdBox(value)
    }
}

impl Holds<MehdBox> for AnyBox {
    ghost wrapped = { any.MehdBox };

    fn wrap(value: MehdBox) -> AnyBox {
        AnyBox::MehdBox(value)
    }
}

impl Holds<MfhdBox> for AnyBox {
    ghost wrapped = { any.MfhdBox };

    fn wrap(value: MfhdBox) -> AnyBox {
        AnyBox::MfhdBox(value)
    }
}

impl Holds<SmhdBox> for AnyBox {
    ghost wrapped = { any.SmhdBox };

    fn wrap(value: SmhdBox) -> AnyBox {
        AnyBox::SmhdBox(value)
    }
}

impl Holds<VmhdBox> for AnyBox {
    ghost wrapped = { any.VmhdBox };

    fn wrap(value: VmhdBox) -> AnyBox {
        AnyBox::VmhdBox(value)
    }
}

impl Holds<TrexBox> for AnyBox {
    ghost wrapped = { any.TrexBox };

    fn wrap(value: TrexBox) -> AnyBox {
        AnyBox::TrexBox(value)
    }
}

impl Holds<TfdtBox> for AnyBox {
    ghost wrapped = { any.TfdtBox };

    fn wrap(value: TfdtBox) -> AnyBox {
        AnyBox::TfdtBox(value)
    }
}

impl Holds<StcoBox> for AnyBox {
    ghost wrapped = { any.StcoBox };

    fn wrap(value: StcoBox) -> AnyBox {
        AnyBox::StcoBox(value)
    }
}

impl Holds<Co64Box> for AnyBox {
    ghost wrapped = { any.Co64Box };

    fn wrap(value: Co64Box) -> AnyBox {
        AnyBox::Co64Box(value)
    }
}

impl Holds<SttsBox> for AnyBox {
    ghost wrapped = { any.SttsBox };

    fn wrap(value: SttsBox) -> AnyBox {
        AnyBox::SttsBox(value)
    }
}

impl Holds<CttsBox> for AnyBox {
    ghost wrapped = { any.CttsBox };

    fn wrap(value: CttsBox) -> AnyBox {
        AnyBox::CttsBox(value)
    }
}

impl Holds<StssBox> for AnyBox {
    ghost wrapped = { any.StssBox };

    fn wrap(value: StssBox) -> AnyBox {
        AnyBox::StssBox(value)
    }
}

impl Holds<StszBox> for AnyBox {
    ghost wrapped = { any.StszBox };

    fn wrap(value: StszBox) -> AnyBox {
        AnyBox::StszBox(value)
    }
}

impl Holds<StscBox> for AnyBox {
    ghost wrapped = { any.StscBox };

    fn wrap(value: StscBox) -> AnyBox {
        AnyBox::StscBox(value)
    }
}

impl Holds<ElstBox> for AnyBox {
    ghost wrapped = { any.ElstBox };

    fn wrap(value: ElstBox) -> AnyBox {
        AnyBox::ElstBox(value)
    }
}

impl Holds<TfhdBox> for AnyBox {
    ghost wrapped = { any.TfhdBox };

    fn wrap(value: TfhdBox) -> AnyBox {
        AnyBox::TfhdBox(value)
    }
}

impl Holds<TrunBox> for AnyBox {
    ghost wrapped = { any.TrunBox };

    fn wrap(value: TrunBox) -> AnyBox {
        AnyBox::TrunBox(value)
    }
}

impl Holds<HdlrBox> for AnyBox {
    ghost wrapped = { any.HdlrBox };

    fn wrap(value: HdlrBox) -> AnyBox {
        AnyBox::HdlrBox(value)
    }
}

impl Holds<DataBox> for AnyBox {
    ghost wrapped = { any.DataBox };

    fn wrap(value: DataBox) -> AnyBox {
        AnyBox::DataBox(value)
    }
}

impl Holds<EmsgBox> for AnyBox {
    ghost wrapped = { any.EmsgBox };

    fn wrap(value: EmsgBox) -> AnyBox {
        AnyBox::EmsgBox(value)
    }
}

impl Holds<UrlBox> for AnyBox {
    ghost wrapped = { any.UrlBox };

    fn wrap(value: UrlBox) -> AnyBox {
        AnyBox::UrlBox(value)
    }
}

impl Holds<DrefBox> for AnyBox {
    ghost wrapped = { any.DrefBox };

    fn wrap(value: DrefBox) -> AnyBox {
        AnyBox::DrefBox(value)
    }
}

impl Holds<DinfBox> for AnyBox {
    ghost wrapped = { any.DinfBox };

    fn wrap(value: DinfBox) -> AnyBox {
        AnyBox::DinfBox(value)
    }
}

impl Holds<AvcCBox> for AnyBox {
    ghost wrapped = { any.AvcCBox };

    fn wrap(value: AvcCBox) -> AnyBox {
        AnyBox::AvcCBox(value)
    }
}

impl Holds<Avc1Box> for AnyBox {
    ghost wrapped = { any.Avc1Box };

    fn wrap(value: Avc1Box) -> AnyBox {
        AnyBox::Avc1Box(value)
    }
}

impl Holds<HvcCBox> for AnyBox {
    ghost wrapped = { any.HvcCBox };

    fn wrap(value: HvcCBox) -> AnyBox {
        AnyBox::HvcCBox(value)
    }
}

impl Holds<Hev1Box> for AnyBox {
    ghost wrapped = { any.Hev1Box };

    fn wrap(value: Hev1Box) -> AnyBox {
        AnyBox::Hev1Box(value)
    }
}

impl Holds<VpccBox> for AnyBox {
    ghost wrapped = { any.VpccBox };

    fn wrap(value: VpccBox) -> AnyBox {
        AnyBox::VpccBox(value)
    }
}

impl Holds<Vp09Box> for AnyBox {
    ghost wrapped = { any.Vp09Box };

    fn wrap(value: Vp09Box) -> AnyBox {
        AnyBox::Vp09Box(value)
    }
}

impl Holds<Tx3gBox> for AnyBox {
    ghost wrapped = { any.Tx3gBox };

    fn wrap(value: Tx3gBox) -> AnyBox {
        AnyBox::Tx3gBox(value)
    }
}

impl Holds<EsdsBox> for AnyBox {
    ghost wrapped = { any.EsdsBox };

    fn wrap(value: EsdsBox) -> AnyBox {
        AnyBox::EsdsBox(value)
    }
}

impl Holds<Mp4aBox> for AnyBox {
    ghost wrapped = { any.Mp4aBox };

    fn wrap(value: Mp4aBox) -> AnyBox {
        AnyBox::Mp4aBox(value)
    }
}

impl Holds<StsdBox> for AnyBox {
    ghost wrapped = { any.StsdBox };

    fn wrap(value: StsdBox) -> AnyBox {
        AnyBox::StsdBox(value)
    }
}
