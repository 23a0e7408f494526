//! The data reference box.

ghost use Rattle.std.specs.Prelude.{◌≡◌, ◌-◌, ◌^◌, [], min};
ghost use Rattle.mp4_frame.specs.declared.box_type.BoxType.TheVariants as names;
ghost use Rattle.mp4_frame.specs.Format.{write_laws};
ghost use Rattle.mp4_text.specs.Dref.{size_dref, reads_dref, format_dref};
ghost use Rattle.mp4_text.specs.DrefLaws.{laws_dref};

use crate::url::UrlBox;
use mp4_frame::{
    BoxLaws, BoxType, Error, Mp4Box, Parent, ReadBox, Result, TryClone, WriteBox, codes,
    expect_bytes, last_child, put_child, put_full_box, put_u32, u8_at, u24_at, u32_at,
};
use std::alloc::Global;

/// The data references, which say where the media data of a track is (`dref`, ISO/IEC 14496-12, 8.7.2). When it is
/// read, entries other than `url ` are skipped, and the last of several `url ` is kept.
#[derive(Debug, Drop, PartialEq, Eq)]
pub struct DrefBox {
    /// The version, 0 in the standard. Every version is read and written in the same way.
    pub version: u8,
    /// Flags of 24 bits, usually 0.
    pub flags: u32,
    /// The `url ` entry, if there is one.
    pub url: Option<UrlBox>,
}

impl DrefBox {
    /// Returns a box with one entry, which says that the data is in the same file. It takes no memory from `alloc`.
    pub fn default_in(alloc: Global) -> DrefBox
        ensures { result ≡ record
            { version = 0; flags = 0; url = Some (record { version = 0; flags = 1; location = [] }) } }
    {
        DrefBox {
            version: 0,
            flags: 0,
            url: Some(UrlBox::default_in(alloc)),
        }
    }

    /// Returns the type of the box, like `box_type`.
    pub fn get_type(&self) -> BoxType
        ensures { result ≡ names.DrefBox }
    {
        self.box_type()
    }

    /// Returns the size of the box in bytes, like `box_size`.
    pub fn get_size(&self) -> u64
        ensures { result ≡ min (size_dref self.now) (2 ^ 64 - 1) }
    {
        self.box_size()
    }
}

impl TryClone for DrefBox {
    fn try_clone(&self) -> Result<DrefBox> {
        let url = match &self.url {
            Some(url) => Some(url.try_clone()?),
            None => None,
        };
        Ok(DrefBox {
            version: self.version,
            flags: self.flags,
            url,
        })
    }
}

impl Mp4Box for DrefBox {
    ghost format = { format_dref };

    fn box_type(&self) -> BoxType {
        BoxType::DrefBox
    }

    fn box_size(&self) -> u64 {
        match &self.url {
            Some(url) => url.box_size().saturating_add(16),
            None => 16,
        }
    }
}

impl ReadBox for DrefBox {
    ghost reads = { reads_dref };

    const LEAST: u64 = 0;

    #[tactic(auto, unfolding(crate::specs::Dref::reads_dref))]
    fn read_content(alloc: Global, bytes: &[u8], start: u64, size: u64) -> Result<DrefBox> {
        expect_bytes(bytes, 8, 8)?;
        let count = u64::from(u32_at(bytes, 12));
        let parent = Parent {
            bytes,
            start,
            size,
            too_large: "dinf box contains a box with a larger size than it",
        };
        let url = last_child(alloc, &parent, codes::URL, 16, count)?;
        Ok(DrefBox {
            version: u8_at(bytes, 8),
            flags: u24_at(bytes, 9),
            url,
        })
    }
}

impl WriteBox for DrefBox {
    fn is_writable(&self) -> bool {
        // For the prover: a value that was read has the range of its type.
        let _version = self.version;
        if let Some(url) = &self.url {
            if !url.is_writable() {
                return false;
            }
        }
        self.flags < 1 << 24 && self.box_size() < 1 << 32
    }

    #[tactic(auto, unfolding(crate::specs::Dref::bytes_dref, mp4_frame::specs::Bytes::bytes_of_fields, mp4_frame::specs::Bytes::bytes_of_fields_onto))]
    fn put_box(&self, out: &mut [u8]) {
        let size = self.box_size() as u32;
        let at = put_full_box(out, size, codes::DREF, self.version, self.flags);
        match &self.url {
            Some(url) => {
                let at = put_u32(out, at, 1);
                put_child(out, at, url);
            }
            None => {
                put_u32(out, at, 0);
            }
        }
    }

    ghost write_laws = { write_laws laws_dref };
}

impl BoxLaws for DrefBox {
    ghost laws = { laws_dref };
}
