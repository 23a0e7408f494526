//! The data information box.

ghost use Rattle.std.specs.Prelude.{◌≡◌, ◌-◌, ◌^◌, [], min};
ghost use Rattle.mp4_frame.specs.declared.box_type.BoxType.TheVariants as names;
ghost use Rattle.mp4_frame.specs.Format.{write_laws};
ghost use Rattle.mp4_text.specs.Dinf.{size_dinf, reads_dinf, format_dinf};
ghost use Rattle.mp4_text.specs.DinfLaws.{laws_dinf};

use crate::dref::DrefBox;
use mp4_frame::{
    BoxLaws, BoxType, Error, Mp4Box, Parent, ReadBox, Result, TryClone, WriteBox, codes,
    last_child, put_child, put_u32,
};
use std::alloc::Global;

/// The data information box, which holds the data references of a track (`dinf`, ISO/IEC 14496-12, 8.7.1). When it
/// is read, boxes other than `dref` are skipped, and the last of several `dref` is kept.
#[derive(Debug, Drop, PartialEq, Eq)]
pub struct DinfBox {
    dref: DrefBox,
}

impl DinfBox {
    /// Returns the box with the references `dref`.
    pub fn new(dref: DrefBox) -> DinfBox
        ensures { result ≡ record { dref = dref } }
    {
        DinfBox { dref }
    }

    /// Returns the data references.
    pub fn dref(&self) -> &DrefBox
        ensures { result.now ≡ self.now.dref }
    {
        &self.dref
    }

    /// Returns the box with the default references. It takes no memory from `alloc`.
    pub fn default_in(alloc: Global) -> DinfBox
        ensures { result ≡ record {
          dref = record {
            version = 0;
            flags = 0;
            url = Some (record { version = 0; flags = 1; location = [] });
          };
        } }
    {
        DinfBox::new(DrefBox::default_in(alloc))
    }

    /// Returns the type of the box, like `box_type`.
    pub fn get_type(&self) -> BoxType
        ensures { result ≡ names.DinfBox }
    {
        self.box_type()
    }

    /// Returns the size of the box in bytes, like `box_size`.
    pub fn get_size(&self) -> u64
        ensures { result ≡ min (size_dinf self.now) (2 ^ 64 - 1) }
    {
        self.box_size()
    }
}

impl TryClone for DinfBox {
    fn try_clone(&self) -> Result<DinfBox> {
        Ok(DinfBox::new(self.dref.try_clone()?))
    }
}

impl Mp4Box for DinfBox {
    ghost format = { format_dinf };

    fn box_type(&self) -> BoxType {
        BoxType::DinfBox
    }

    fn box_size(&self) -> u64 {
        self.dref.box_size().saturating_add(8)
    }
}

impl ReadBox for DinfBox {
    ghost reads = { reads_dinf };

    const LEAST: u64 = 0;

    #[tactic(auto, unfolding(crate::specs::Dinf::reads_dinf))]
    fn read_content(alloc: Global, bytes: &[u8], start: u64, size: u64) -> Result<DinfBox> {
        let parent = Parent {
            bytes,
            start,
            size,
            too_large: "dinf box contains a box with a larger size than it",
        };
        let dref = last_child(alloc, &parent, codes::DREF, 8, size)?;
        match dref {
            Some(dref) => Ok(DinfBox::new(dref)),
            None => Err(Error::BoxNotFound(BoxType::DrefBox)),
        }
    }
}

impl WriteBox for DinfBox {
    fn is_writable(&self) -> bool {
        self.dref.is_writable() && self.box_size() < 1 << 32
    }

    #[tactic(auto, unfolding(crate::specs::Dinf::bytes_dinf, mp4_frame::specs::Bytes::bytes_of_fields, mp4_frame::specs::Bytes::bytes_of_fields_onto))]
    fn put_box(&self, out: &mut [u8]) {
        let at = put_u32(out, 0, self.box_size() as u32);
        let at = put_u32(out, at, codes::DINF);
        put_child(out, at, &self.dref);
    }

    ghost write_laws = { write_laws laws_dinf };
}

impl BoxLaws for DinfBox {
    ghost laws = { laws_dinf };
}
