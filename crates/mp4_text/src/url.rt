//! The data entry URL box.

ghost use Rattle.std.specs.Prelude.{◌≡◌, ◌≤◌, ◌+◌, ◌-◌, ◌^◌, ◌++◌, [], min, length, take};
ghost use Rattle.mp4_frame.specs.declared.box_type.BoxType.TheVariants as names;
ghost use Rattle.mp4_frame.specs.Format.{write_laws};
ghost use Rattle.mp4_text.specs.Url.{size_url, bytes_location, reads_url, format_url};
ghost use Rattle.mp4_text.specs.UrlLaws.{laws_url};

use crate::terminated::put_terminated;
use mp4_frame::{
    BoxLaws, BoxType, Error, Mp4Box, ReadBox, Result, Text, TryClone, WriteBox, codes,
    expect_bytes, piece_at, put_full_box, u8_at, u24_at,
};
use std::alloc::Global;

/// A data reference by URL, which says where media data is (`url `, ISO/IEC 14496-12, 8.7.2).
#[derive(Debug, Drop, PartialEq, Eq)]
pub struct UrlBox {
    /// The version, 0 in the standard. Every version is read and written in the same way.
    pub version: u8,
    /// Flags of 24 bits. Flag 1 means that the data is in the same file, without a location.
    pub flags: u32,
    /// The URL, which is empty if there is none.
    pub location: Text,
}

impl UrlBox {
    /// Returns a reference to data in the same file: flags 1 and no location. It takes no memory from `alloc`.
    pub fn default_in(alloc: Global) -> UrlBox
        ensures { result ≡ record { version = 0; flags = 1; location = [] } }
    {
        UrlBox {
            version: 0,
            flags: 1,
            location: Text::new(alloc),
        }
    }

    /// Returns the type of the box, like `box_type`.
    pub fn get_type(&self) -> BoxType
        ensures { result ≡ names.UrlBox }
    {
        self.box_type()
    }

    /// Returns the size of the box in bytes, like `box_size`.
    pub fn get_size(&self) -> u64
        ensures { result ≡ min (size_url self.now) (2 ^ 64 - 1) }
    {
        self.box_size()
    }
}

impl TryClone for UrlBox {
    fn try_clone(&self) -> Result<UrlBox> {
        Ok(UrlBox {
            version: self.version,
            flags: self.flags,
            location: self.location.try_clone()?,
        })
    }
}

impl Mp4Box for UrlBox {
    ghost format = { format_url };

    fn box_type(&self) -> BoxType {
        BoxType::UrlBox
    }

    fn box_size(&self) -> u64 {
        if self.location.is_empty() {
            return 12;
        }
        (self.location.len() as u64).saturating_add(13)
    }
}

impl ReadBox for UrlBox {
    ghost reads = { reads_url };

    const LEAST: u64 = 0;

    #[tactic(auto, unfolding(crate::specs::Url::reads_url))]
    fn read_content(alloc: Global, bytes: &[u8], _start: u64, size: u64) -> Result<UrlBox> {
        expect_bytes(bytes, 8, 4)?;
        let version = u8_at(bytes, 8);
        let flags = u24_at(bytes, 9);
        if size < 13 {
            return Ok(UrlBox {
                version,
                flags,
                location: Text::new(alloc),
            });
        }
        let location = piece_at(bytes, 12, size as usize - 13)?;
        Ok(UrlBox {
            version,
            flags,
            location: Text::from_utf8_or(alloc, location, "")?,
        })
    }
}

/// Writes `location` and a zero byte to `out` at offset `at`, or nothing if it is empty. Returns the offset after the
/// bytes written.
fn put_location(out: &mut [u8], at: usize, location: &[u8]) -> usize
    requires { at + length (bytes_location location.now) ≤ length out.old }
    ensures next { result ≡ at + length (bytes_location location.now) }
    ensures put { take result out.new ≡ take at out.old ++ bytes_location location.now }
{
    if location.is_empty() {
        return at;
    }
    put_terminated(out, at, location)
}

impl WriteBox for UrlBox {
    fn is_writable(&self) -> bool {
        // For the prover: a value that was read has the range of its type.
        let _version = self.version;
        self.flags < 1 << 24 && self.box_size() < 1 << 32 && self.location.is_utf8()
    }

    #[tactic(auto, unfolding(crate::specs::Url::bytes_url, mp4_frame::specs::Bytes::bytes_of_fields, mp4_frame::specs::Bytes::bytes_of_fields_onto))]
    fn put_box(&self, out: &mut [u8]) {
        let size = self.box_size() as u32;
        let at = put_full_box(out, size, codes::URL, self.version, self.flags);
        put_location(out, at, self.location.as_bytes());
    }

    ghost write_laws = { write_laws laws_url };
}

impl BoxLaws for UrlBox {
    ghost laws = { laws_url };
}
