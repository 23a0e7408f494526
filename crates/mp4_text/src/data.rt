//! The value of a metadata item.

ghost use Rattle.std.specs.Prelude.{◌≡◌, ◌-◌, ◌^◌, [], min};
ghost use Rattle.mp4_frame.specs.declared.box_type.BoxType.TheVariants as names;
ghost use Rattle.mp4_media.specs.DataType.{number_data_type};
ghost use Rattle.mp4_media.specs.declared.data_type.DataType.TheVariants as types;
ghost use Rattle.mp4_frame.specs.Format.{write_laws};
ghost use Rattle.mp4_text.specs.Data.{size_data, reads_data, format_data};
ghost use Rattle.mp4_text.specs.DataLaws.{laws_data};

use mp4_frame::{
    BoxLaws, BoxType, Entries, Error, Mp4Box, ReadBox, Result, TryClone, WriteBox, check, codes,
    expect_bytes, piece_at, put_bytes, put_u32, u32_at,
};
use mp4_media::DataType;
use std::alloc::Global;

/// The value of a metadata item (`data`, QuickTime's metadata, "Data atom").
#[derive(Debug, Drop, PartialEq, Eq)]
pub struct DataBox {
    /// The bytes of the value.
    pub data_bytes: Entries<u8>,
    /// The type of the bytes.
    pub data_type: DataType,
}

impl DataBox {
    /// Returns a value without bytes, of type `Binary`. It takes no memory from `alloc`.
    pub fn default_in(alloc: Global) -> DataBox
        ensures { result ≡ record { data_bytes = []; data_type = types.Binary } }
    {
        DataBox {
            data_bytes: Entries::new(alloc),
            data_type: DataType::Binary,
        }
    }

    /// Returns the type of the box, like `box_type`.
    pub fn get_type(&self) -> BoxType
        ensures { result ≡ names.DataBox }
    {
        self.box_type()
    }

    /// Returns the size of the box in bytes, like `box_size`.
    pub fn get_size(&self) -> u64
        ensures { result ≡ min (size_data self.now) (2 ^ 64 - 1) }
    {
        self.box_size()
    }
}

impl TryClone for DataBox {
    fn try_clone(&self) -> Result<DataBox> {
        Ok(DataBox {
            data_bytes: self.data_bytes.try_clone()?,
            data_type: self.data_type.clone()?,
        })
    }
}

impl Mp4Box for DataBox {
    ghost format = { format_data };

    fn box_type(&self) -> BoxType {
        BoxType::DataBox
    }

    fn box_size(&self) -> u64 {
        (self.data_bytes.len() as u64).saturating_add(16)
    }
}

impl ReadBox for DataBox {
    ghost reads = { reads_data };

    const LEAST: u64 = 0;

    #[tactic(auto, unfolding(crate::specs::Data::reads_data))]
    fn read_content(alloc: Global, bytes: &[u8], _start: u64, size: u64) -> Result<DataBox> {
        expect_bytes(bytes, 8, 4)?;
        let data_type = DataType::try_from(u32_at(bytes, 8))?;
        expect_bytes(bytes, 12, 4)?;
        check(size >= 16, "box size too small")?;
        let data_bytes = piece_at(bytes, 16, size as usize - 16)?;
        Ok(DataBox {
            data_bytes: Vec::from_slice(alloc, data_bytes)?.into(),
            data_type,
        })
    }
}

/// Returns the number of `data_type`.
fn type_number(data_type: &DataType) -> u32
    ensures { result ≡ number_data_type data_type.now }
{
    match data_type {
        DataType::Binary => 0,
        DataType::Text => 1,
        DataType::Image => 13,
        DataType::TempoCpil => 21,
    }
}

impl WriteBox for DataBox {
    fn is_writable(&self) -> bool {
        self.box_size() < 1 << 32
    }

    #[tactic(auto, unfolding(crate::specs::Data::bytes_data, mp4_frame::specs::Bytes::bytes_of_fields, mp4_frame::specs::Bytes::bytes_of_fields_onto))]
    fn put_box(&self, out: &mut [u8]) {
        let at = put_u32(out, 0, self.box_size() as u32);
        let at = put_u32(out, at, codes::DATA);
        let at = put_u32(out, at, type_number(&self.data_type));
        let at = put_u32(out, at, 0);
        put_bytes(out, at, self.data_bytes.as_slice());
    }

    ghost write_laws = { write_laws laws_data };
}

impl BoxLaws for DataBox {
    ghost laws = { laws_data };
}
