//! The handler box.

ghost use Rattle.std.specs.Prelude.{◌≡◌, ◌↔◌, ◌+◌, ◌-◌, ◌^◌, [], IsTrue, length, min, replicate};
ghost use Rattle.mp4_frame.specs.declared.box_type.BoxType.TheVariants as names;
ghost use Rattle.mp4_frame.specs.Format.{write_laws};
ghost use Rattle.mp4_text.specs.Hdlr.{size_hdlr, WritableHdlr, reads_hdlr, format_hdlr};
ghost use Rattle.mp4_text.specs.HdlrLaws.{laws_hdlr};

use crate::terminated::put_terminated;
use mp4_frame::{
    BoxLaws, BoxType, Error, FourCC, Mp4Box, ReadBox, Result, Text, TryClone, WriteBox, check,
    codes, expect_bytes, is_four_cc, piece_at, put_full_box, put_u32, put_zeros, u8_at, u24_at,
    u32_at,
};
use std::alloc::Global;

/// The handler of a track or of metadata (`hdlr`, ISO/IEC 14496-12, 8.4.3).
#[derive(Debug, Drop, PartialEq, Eq)]
pub struct HdlrBox {
    /// The version, 0 in the standard. Every version is read and written in the same way.
    pub version: u8,
    /// Flags of 24 bits, usually 0.
    pub flags: u32,
    /// The kind of media, such as `vide` or `soun`.
    pub handler_type: FourCC,
    /// A name for people to read.
    pub name: Text,
}

impl HdlrBox {
    /// Returns a box with zeros and an empty name. It takes no memory from `alloc`.
    pub fn default_in(alloc: Global) -> HdlrBox
        ensures { result ≡ record {
          version = 0;
          flags = 0;
          handler_type = record { value = replicate 4 0 };
          name = [];
        } }
    {
        HdlrBox {
            version: 0,
            flags: 0,
            handler_type: FourCC::default(),
            name: Text::new(alloc),
        }
    }

    /// Returns the type of the box, like `box_type`.
    pub fn get_type(&self) -> BoxType
        ensures { result ≡ names.HdlrBox }
    {
        self.box_type()
    }

    /// Returns the size of the box in bytes, like `box_size`.
    pub fn get_size(&self) -> u64
        ensures { result ≡ min (size_hdlr self.now) (2 ^ 64 - 1) }
    {
        self.box_size()
    }
}

impl TryClone for HdlrBox {
    fn try_clone(&self) -> Result<HdlrBox> {
        Ok(HdlrBox {
            version: self.version,
            flags: self.flags,
            handler_type: self.handler_type,
            name: self.name.try_clone()?,
        })
    }
}

impl Mp4Box for HdlrBox {
    ghost format = { format_hdlr };

    fn box_type(&self) -> BoxType {
        BoxType::HdlrBox
    }

    fn box_size(&self) -> u64 {
        (self.name.len() as u64).saturating_add(33)
    }
}

impl ReadBox for HdlrBox {
    ghost reads = { reads_hdlr };

    const LEAST: u64 = 0;

    #[tactic(auto, unfolding(crate::specs::Hdlr::reads_hdlr))]
    fn read_content(alloc: Global, bytes: &[u8], _start: u64, size: u64) -> Result<HdlrBox> {
        expect_bytes(bytes, 8, 12)?;
        check(size >= 33, "hdlr size too small")?;
        let name = piece_at(bytes, 32, size as usize - 33)?;
        Ok(HdlrBox {
            version: u8_at(bytes, 8),
            flags: u24_at(bytes, 9),
            handler_type: FourCC::from(u32_at(bytes, 16)),
            name: Text::from_utf8_or(alloc, name, "null")?,
        })
    }
}

/// Returns whether a box with these fields and a `box_size` of `size` can be written.
#[tactic(auto, using(mp4_frame::proofs::CodeNames::small_code))]
fn fits(version: u8, flags: u32, handler_type: FourCC, size: u64, name: &Text) -> bool
    requires { size ≡ min (33 + length name.now) (2 ^ 64 - 1) }
    ensures { IsTrue result ↔ WritableHdlr
        (record { version = version; flags = flags; handler_type = handler_type; name = name.now }) }
{
    // For the prover: a value that was read has the range of its type.
    let _version = version;
    size < 1 << 32 && flags < 1 << 24 && is_four_cc(handler_type) && name.is_utf8()
}

impl WriteBox for HdlrBox {
    fn is_writable(&self) -> bool {
        fits(
            self.version,
            self.flags,
            self.handler_type,
            self.box_size(),
            &self.name,
        )
    }

    #[tactic(auto, unfolding(crate::specs::Hdlr::bytes_hdlr, mp4_frame::specs::Bytes::bytes_of_fields, mp4_frame::specs::Bytes::bytes_of_fields_onto))]
    fn put_box(&self, out: &mut [u8]) {
        let size = self.box_size() as u32;
        let at = put_full_box(out, size, codes::HDLR, self.version, self.flags);
        let at = put_u32(out, at, 0);
        let at = put_u32(out, at, u32::from(self.handler_type));
        let at = put_zeros(out, at, 12);
        put_terminated(out, at, self.name.as_bytes());
    }

    ghost write_laws = { write_laws laws_hdlr };
}

impl BoxLaws for HdlrBox {
    ghost laws = { laws_hdlr };
}
