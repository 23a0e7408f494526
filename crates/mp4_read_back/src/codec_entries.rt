//! The codec's sample entries of video and subtitles, and what configures their decoders.

ghost use Rattle.mp4_read_back.specs.CodecEntries.{HasUnits, avc1_back, avcc_back, hev1_back, hvcc_back, vpcc_back};
ghost use Rattle.mp4_read_back.specs.CodecSubtitles.{tx3g_back};
ghost use Rattle.mp4_read_back.specs.CodecVideo.{vp09_back};
ghost use Rattle.mp4_stream.specs.declared.any_box.AnyBox.TheVariants as any;

use crate::ReadCodec;
use mp4_stream::{Avc1Box, AvcCBox, Hev1Box, HvcCBox, Tx3gBox, Vp09Box, VpccBox};

impl ReadCodec for HvcCBox {
    ghost wrapped = { any.HvcCBox };

    ghost back = { λ b writable fits. hvcc_back b writable };
}

impl ReadCodec for Hev1Box {
    ghost wrapped = { any.Hev1Box };

    ghost back = { λ b writable fits. hev1_back b writable };
}

impl ReadCodec for VpccBox {
    ghost wrapped = { any.VpccBox };

    ghost back = { λ b writable fits. vpcc_back b writable };
}

/// The length of a unit's length has two bits.
impl ReadCodec for AvcCBox {
    ghost wrapped = { any.AvcCBox };

    ghost Fits = { HasUnits };

    ghost back = { avcc_back };
}

impl ReadCodec for Avc1Box {
    ghost wrapped = { any.Avc1Box };

    ghost Fits = { λ b. HasUnits b.avcc };

    ghost back = { avc1_back };
}

impl ReadCodec for Vp09Box {
    ghost wrapped = { any.Vp09Box };

    ghost back = { λ b writable fits. vp09_back b writable };
}

impl ReadCodec for Tx3gBox {
    ghost wrapped = { any.Tx3gBox };

    ghost back = { λ b writable fits. tx3g_back b writable };
}
