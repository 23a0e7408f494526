//! The codec's tables of samples.

ghost use Rattle.mp4_read_back.specs.CodecChunks.{HasSamples, stsc_back};
ghost use Rattle.mp4_read_back.specs.CodecEdits.{elst_back};
ghost use Rattle.mp4_read_back.specs.CodecFragments.{tfhd_back};
ghost use Rattle.mp4_read_back.specs.CodecTables.{co64_back, ctts_back, stco_back, stss_back, stsz_back, stts_back};
ghost use Rattle.mp4_stream.specs.declared.any_box.AnyBox.TheVariants as any;

use crate::ReadCodec;
use mp4_stream::{Co64Box, CttsBox, ElstBox, StcoBox, StscBox, StssBox, StszBox, SttsBox, TfhdBox};

impl ReadCodec for StcoBox {
    ghost wrapped = { any.StcoBox };

    ghost back = { λ b writable fits. stco_back b writable };
}

impl ReadCodec for Co64Box {
    ghost wrapped = { any.Co64Box };

    ghost back = { λ b writable fits. co64_back b writable };
}

impl ReadCodec for StssBox {
    ghost wrapped = { any.StssBox };

    ghost back = { λ b writable fits. stss_back b writable };
}

impl ReadCodec for SttsBox {
    ghost wrapped = { any.SttsBox };

    ghost back = { λ b writable fits. stts_back b writable };
}

impl ReadCodec for CttsBox {
    ghost wrapped = { any.CttsBox };

    ghost back = { λ b writable fits. ctts_back b writable };
}

impl ReadCodec for StszBox {
    ghost wrapped = { any.StszBox };

    ghost back = { λ b writable fits. stsz_back b writable };
}

impl ReadCodec for ElstBox {
    ghost wrapped = { any.ElstBox };

    ghost back = { λ b writable fits. elst_back b writable };
}

impl ReadCodec for TfhdBox {
    ghost wrapped = { any.TfhdBox };

    ghost back = { λ b writable fits. tfhd_back b writable };
}

/// The first samples are those that follow from the runs: others would be shown, and then refused.
impl ReadCodec for StscBox {
    ghost wrapped = { any.StscBox };

    ghost Fits = { HasSamples };

    ghost back = { stsc_back };
}
