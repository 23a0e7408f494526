//! The codec's boxes of strings and references.

ghost use Rattle.mp4_read_back.specs.CodecMessages.{IsMessage, emsg_back};
ghost use Rattle.mp4_read_back.specs.CodecText.{dinf_back, dref_back, ftyp_back, hdlr_back, url_back};
ghost use Rattle.mp4_stream.specs.declared.any_box.AnyBox.TheVariants as any;

use crate::ReadCodec;
use mp4_stream::{DinfBox, DrefBox, EmsgBox, FtypBox, HdlrBox, UrlBox};

impl ReadCodec for FtypBox {
    ghost wrapped = { any.FtypBox };

    ghost back = { λ b writable fits. ftyp_back b writable };
}

impl ReadCodec for HdlrBox {
    ghost wrapped = { any.HdlrBox };

    ghost back = { λ b writable fits. hdlr_back b writable };
}

impl ReadCodec for UrlBox {
    ghost wrapped = { any.UrlBox };

    ghost back = { λ b writable fits. url_back b writable };
}

impl ReadCodec for DrefBox {
    ghost wrapped = { any.DrefBox };

    ghost back = { λ b writable fits. dref_back b writable };
}

impl ReadCodec for DinfBox {
    ghost wrapped = { any.DinfBox };

    ghost back = { λ b writable fits. dinf_back b writable };
}

/// A message has bytes, and no time of the other version, which would be shown too.
impl ReadCodec for EmsgBox {
    ghost wrapped = { any.EmsgBox };

    ghost Fits = { IsMessage };

    ghost back = { emsg_back };
}
