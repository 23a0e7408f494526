//! The file type box.

ghost use Rattle.std.specs.Prelude.{◌≡◌, ◌-◌, ◌^◌, ◌↔◌, ◌+◌, ◌*◌, [], IfOk, IfErr, IsTrue, map, min, length, replicate};
ghost use Rattle.mp4_frame.specs.declared.box_type.BoxType.TheVariants as names;
ghost use Rattle.mp4_frame.specs.Format.{write_laws};
ghost use Rattle.mp4_text.specs.Ftyp.{brand_of, size_ftyp, WritableFtyp, reads_ftyp, format_ftyp};
ghost use Rattle.mp4_text.specs.FtypLaws.{laws_ftyp};

use mp4_frame::{
    BoxLaws, BoxType, Entries, Error, FourCC, Mp4Box, ReadBox, Result, TryClone, WriteBox, all_fit,
    check, codes, expect_bytes, is_four_cc, put_entries, put_u32, rows_at, u32_at,
};
use std::alloc::Global;

/// The specifications that a file follows (`ftyp`, ISO/IEC 14496-12, 4.3).
#[derive(Debug, Drop, PartialEq, Eq)]
pub struct FtypBox {
    /// The brand of the specification that suits the file best.
    pub major_brand: FourCC,
    /// The version of the specification with the major brand, for information only.
    pub minor_version: u32,
    /// The brands of all specifications that the file follows.
    pub compatible_brands: Entries<FourCC>,
}

impl FtypBox {
    /// Returns a box with a brand of four zeros, version 0 and no compatible brands. It takes no memory from `alloc`.
    pub fn default_in(alloc: Global) -> FtypBox
        ensures { result ≡ record
            { major_brand = record { value = replicate 4 0 }; minor_version = 0; compatible_brands = [] } }
    {
        FtypBox {
            major_brand: FourCC::default(),
            minor_version: 0,
            compatible_brands: Entries::new(alloc),
        }
    }

    /// Returns the type of the box, like `box_type`.
    pub fn get_type(&self) -> BoxType
        ensures { result ≡ names.FtypBox }
    {
        self.box_type()
    }

    /// Returns the size of the box in bytes, like `box_size`.
    pub fn get_size(&self) -> u64
        ensures { result ≡ min (size_ftyp self.now) (2 ^ 64 - 1) }
    {
        self.box_size()
    }
}

impl TryClone for FtypBox {
    fn try_clone(&self) -> Result<FtypBox> {
        Ok(FtypBox {
            major_brand: self.major_brand,
            minor_version: self.minor_version,
            compatible_brands: self.compatible_brands.try_clone()?,
        })
    }
}

impl Mp4Box for FtypBox {
    ghost format = { format_ftyp };

    fn box_type(&self) -> BoxType {
        BoxType::FtypBox
    }

    fn box_size(&self) -> u64 {
        (self.compatible_brands.len() as u64)
            .saturating_mul(4)
            .saturating_add(16)
    }
}

/// Returns the brand in each of `rows`. The only error is out of memory.
fn brands_of(alloc: Global, rows: &[[u8; 4]]) -> Result<Vec<FourCC>>
    ensures value { IfOk result (λ brands. brands.items ≡ map brand_of rows.now) }
    ensures memory { IfErr result (λ e. e ≡ Error.OutOfMemory) }
{
    let brands: Vec<FourCC> = rows
        .iter()
        .map(
            |row: &[u8; 4]| -> FourCC
                ensures { result ≡ brand_of row.now }
            { FourCC { value: *row } },
        )
        .collect(alloc)?;
    Ok(brands)
}

impl ReadBox for FtypBox {
    ghost reads = { reads_ftyp };

    const LEAST: u64 = 0;

    #[tactic(auto, unfolding(crate::specs::Ftyp::reads_ftyp))]
    fn read_content(alloc: Global, bytes: &[u8], _start: u64, size: u64) -> Result<FtypBox> {
        check(
            size >= 16 && size % 4 == 0,
            "ftyp size too small or not aligned",
        )?;
        expect_bytes(bytes, 8, 8)?;
        let rows = rows_at::<4>(bytes, 16, (size - 16) / 4)?;
        Ok(FtypBox {
            major_brand: FourCC::from(u32_at(bytes, 8)),
            minor_version: u32_at(bytes, 12),
            compatible_brands: brands_of(alloc, rows)?.into(),
        })
    }
}

/// Returns whether a box with these fields, the compatible brands `brands` and a `box_size` of `size` can be written.
#[tactic(auto, using(mp4_frame::proofs::CodeNames::small_code))]
fn fits(major_brand: FourCC, minor_version: u32, size: u64, brands: &[FourCC]) -> bool
    requires { size ≡ min (16 + 4 * length brands.now) (2 ^ 64 - 1) }
    ensures { IsTrue result ↔ WritableFtyp
        (record { major_brand = major_brand; minor_version = minor_version; compatible_brands = brands.now }) }
{
    size < 1 << 32 && is_four_cc(major_brand) && all_fit(brands)
}

impl WriteBox for FtypBox {
    fn is_writable(&self) -> bool {
        fits(
            self.major_brand,
            self.minor_version,
            self.box_size(),
            self.compatible_brands.as_slice(),
        )
    }

    #[tactic(auto, unfolding(crate::specs::Ftyp::bytes_ftyp, mp4_frame::specs::Bytes::bytes_of_fields, mp4_frame::specs::Bytes::bytes_of_fields_onto))]
    fn put_box(&self, out: &mut [u8]) {
        let at = put_u32(out, 0, self.box_size() as u32);
        let at = put_u32(out, at, codes::FTYP);
        let at = put_u32(out, at, u32::from(self.major_brand));
        let at = put_u32(out, at, self.minor_version);
        put_entries(out, at, self.compatible_brands.as_slice());
    }

    ghost write_laws = { write_laws laws_ftyp };
}

impl BoxLaws for FtypBox {
    ghost laws = { laws_ftyp };
}
