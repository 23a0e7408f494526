//! The codec's boxes of fixed fields.

ghost use Rattle.mp4_read_back.specs.CodecFlat.{HasLanguage, mdhd_back, mehd_back, mfhd_back, mvhd_back, smhd_back};
ghost use Rattle.mp4_read_back.specs.CodecFlat.{tfdt_back, tkhd_back, trex_back, vmhd_back};
ghost use Rattle.mp4_stream.specs.declared.any_box.AnyBox.TheVariants as any;

use crate::ReadCodec;
use mp4_stream::{MdhdBox, MehdBox, MfhdBox, MvhdBox, SmhdBox, TfdtBox, TkhdBox, TrexBox, VmhdBox};

impl ReadCodec for MfhdBox {
    ghost wrapped = { any.MfhdBox };

    ghost back = { λ b writable fits. mfhd_back b writable };
}

impl ReadCodec for SmhdBox {
    ghost wrapped = { any.SmhdBox };

    ghost back = { λ b writable fits. smhd_back b writable };
}

impl ReadCodec for MehdBox {
    ghost wrapped = { any.MehdBox };

    ghost back = { λ b writable fits. mehd_back b writable };
}

impl ReadCodec for TfdtBox {
    ghost wrapped = { any.TfdtBox };

    ghost back = { λ b writable fits. tfdt_back b writable };
}

impl ReadCodec for VmhdBox {
    ghost wrapped = { any.VmhdBox };

    ghost back = { λ b writable fits. vmhd_back b writable };
}

impl ReadCodec for TrexBox {
    ghost wrapped = { any.TrexBox };

    ghost back = { λ b writable fits. trex_back b writable };
}

impl ReadCodec for MvhdBox {
    ghost wrapped = { any.MvhdBox };

    ghost back = { λ b writable fits. mvhd_back b writable };
}

impl ReadCodec for TkhdBox {
    ghost wrapped = { any.TkhdBox };

    ghost back = { λ b writable fits. tkhd_back b writable };
}

/// The letters of the language are those of its code, or it is shown as its code.
impl ReadCodec for MdhdBox {
    ghost wrapped = { any.MdhdBox };

    ghost Fits = { HasLanguage };

    ghost back = { mdhd_back };
}
