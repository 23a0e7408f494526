//! The elementary stream descriptor box, `esds`.

ghost use Rattle.std.specs.Prelude.{◌≡◌, ◌+◌, ◌-◌, ◌*◌, ◌≤◌, length, OnOk, OnErr};
ghost use Rattle.mp4_frame.specs.Format.{write_laws};
ghost use Rattle.mp4_frame.specs.Reading.{Answers, reading};
ghost use Rattle.mp4_sound.specs.Counted.{uncounted};
ghost use Rattle.mp4_sound.specs.Esds.{esds_of, last_es_descriptor, counted_esds, reads_esds, headers_esds};
ghost use Rattle.mp4_sound.specs.Esds.{format_esds};
ghost use Rattle.mp4_sound.specs.EsdsLaws.{laws_esds, esds_takes_none};

use crate::es_descriptor::ESDescriptor;
use crate::uint::put_uint;
use crate::walk::walk;
use mp4_frame::{
    BoxLaws, BoxType, ByteCursor, Error, Mp4Box, ReadBox, ReadsWithoutMemory, Result, TryClone,
    WriteBox, bytes_from, check_end, codes, expect_bytes, put_full_box, put_u8, put_u16, put_u24,
    put_u32, u8_at, u24_at,
};
use mp4_media::AacConfig;
use std::alloc::Global;

/// The elementary stream descriptor of an audio sample entry (`esds`, ISO/IEC 14496-14, 5.6). If there are several
/// descriptors of a kind, reading keeps the last. Each descriptor begins where the content before it ended, whatever
/// lengths are declared.
#[derive(Clone, Debug, Default, Drop, PartialEq, Eq)]
pub struct EsdsBox {
    /// The flags, 24 bits, 0 in the standard.
    pub flags: u32,
    /// The descriptor of the stream.
    pub es_desc: ESDescriptor,
    /// The version of the box, usually 0. Other values are kept.
    pub version: u8,
}

impl EsdsBox {
    /// Creates the box with the parameters of `config`.
    pub fn new(config: &AacConfig) -> EsdsBox
        ensures { result ≡ esds_of config.now }
    {
        EsdsBox {
            version: 0,
            flags: 0,
            es_desc: ESDescriptor::new(config),
        }
    }

    /// Reads the box after its header, like `read_box`, and takes no memory. Also returns the number of descriptor
    /// headers that it read whole, among them those before a fault, and the one that ends the reading. This number is
    /// at most half the number of bytes from the cursor to the end of the buffer.
    #[tactic(auto, unfolding(crate::specs::Esds::reads_esds, crate::specs::Esds::headers_esds))]
    pub fn read_counted(reader: &mut ByteCursor, size: u64) -> (Result<EsdsBox>, u64)
        requires { 8 ≤ reader.old.position }
        ensures answer { Answers result.0 (reading reads_esds reader.old.bytes.now (reader.old.position - 8) size) }
        ensures moved { OnOk result.0 (reader.new.position ≡ reader.old.position - 8 + size) }
        ensures kept { OnErr result.0 (reader.new.position ≡ reader.old.position) }
        ensures bytes { reader.new.bytes ≡ reader.old.bytes }
        ensures headers { result.1 ≡ headers_esds reader.old.bytes.now (reader.old.position - 8) size }
        ensures few { 2 * result.1 ≤ length reader.old.bytes.now - reader.old.position }
    {
        let start = reader.position() - 8;
        if let Err(e) = check_end(start, size) {
            return (Err(e), 0);
        }
        let mut headers = 0;
        let result = counted_esds(bytes_from(reader.bytes(), start), size, &mut headers);
        if result.is_ok() {
            reader.set_position(start + size);
        }
        (result, headers)
    }
}

impl TryClone for EsdsBox {
    fn try_clone(&self) -> Result<EsdsBox> {
        Ok(self.clone()?)
    }
}

impl Mp4Box for EsdsBox {
    ghost format = { format_esds };

    fn box_type(&self) -> BoxType {
        BoxType::EsdsBox
    }

    #[tactic(auto, using(crate::specs::DecoderSpecificLaws::is_form))]
    fn box_size(&self) -> u64 {
        let (width, _number) = self.es_desc.dec_config.dec_specific.field();
        37 + width as u64
    }
}

/// Reads the last elementary stream descriptor of a box of `size` bytes. Sets `headers` to the number of whole headers.
#[tactic(auto, unfolding(crate::specs::Esds::last_es_descriptor))]
fn last_es_descriptor(bytes: &[u8], size: u64, headers: &mut u64) -> Result<Option<ESDescriptor>>
    requires none { headers.old ≡ 0 }
    ensures value { Answers result (uncounted (last_es_descriptor bytes.now size)) }
    ensures headers { headers.new ≡ (last_es_descriptor bytes.now size).headers }
    ensures few { 2 * headers.new ≤ length bytes.now - 8 }
    ensures room { OnOk result (12 ≤ length bytes.now) }
{
    expect_bytes(bytes, 8, 4)?;
    let (found, _end) = walk(bytes, size, bytes.len() as u64, 12, headers)?;
    Ok(found)
}

/// Reads the content of a box of `size` bytes. Sets `headers` to the number of whole headers.
#[tactic(auto, unfolding(crate::specs::Esds::counted_esds))]
fn counted_esds(bytes: &[u8], size: u64, headers: &mut u64) -> Result<EsdsBox>
    requires none { headers.old ≡ 0 }
    ensures value { Answers result (uncounted (counted_esds bytes.now size)) }
    ensures headers { headers.new ≡ (counted_esds bytes.now size).headers }
    ensures few { 2 * headers.new ≤ length bytes.now - 8 }
{
    let Some(es_desc) = last_es_descriptor(bytes, size, headers)? else {
        return Err(Error::InvalidData("ESDescriptor not found"));
    };
    Ok(EsdsBox {
        version: u8_at(bytes, 8),
        flags: u24_at(bytes, 9),
        es_desc,
    })
}

impl ReadBox for EsdsBox {
    ghost reads = { reads_esds };

    const LEAST: u64 = 0;

    #[tactic(auto, unfolding(crate::specs::Esds::reads_esds))]
    fn read_content(_alloc: Global, bytes: &[u8], _start: u64, size: u64) -> Result<EsdsBox> {
        let mut headers = 0;
        counted_esds(bytes, size, &mut headers)
    }
}

impl ReadsWithoutMemory for EsdsBox {
    ghost takes_none = { esds_takes_none };
}

impl WriteBox for EsdsBox {
    fn is_writable(&self) -> bool {
        let config = &self.es_desc.dec_config;
        // For the prover: a value that was read has the range of its type.
        let (_version, _es_id) = (self.version, self.es_desc.es_id);
        let (_object_type, _up_stream) = (config.object_type_indication, config.up_stream);
        let (_max_bitrate, _avg_bitrate) = (config.max_bitrate, config.avg_bitrate);
        self.flags < 1 << 24
            && config.stream_type < 64
            && config.buffer_size_db < 1 << 24
            && config.dec_specific.is_writable()
    }

    #[tactic(auto, using(crate::specs::DecoderSpecificLaws::is_form), unfolding(crate::specs::Esds::bytes_esds, mp4_frame::specs::Bytes::bytes_of_fields, mp4_frame::specs::Bytes::bytes_of_fields_onto))]
    fn put_box(&self, out: &mut [u8]) {
        let config = &self.es_desc.dec_config;
        let (width, number) = config.dec_specific.field();
        let n = width as u8;
        let kind = config.stream_type * 4 + config.up_stream / 2 % 2 * 2 + 1;
        let size = self.box_size() as u32;
        let at = put_full_box(out, size, codes::ESDS, self.version, self.flags);
        let at = put_u8(out, at, 3);
        let at = put_u8(out, at, 23 + n);
        let at = put_u16(out, at, self.es_desc.es_id);
        let at = put_u8(out, at, 0);
        let at = put_u8(out, at, 4);
        let at = put_u8(out, at, 15 + n);
        let at = put_u8(out, at, config.object_type_indication);
        let at = put_u8(out, at, kind);
        let at = put_u24(out, at, config.buffer_size_db);
        let at = put_u32(out, at, config.max_bitrate);
        let at = put_u32(out, at, config.avg_bitrate);
        let at = put_u8(out, at, 5);
        let at = put_u8(out, at, n);
        let at = put_uint(out, at, number, width);
        let at = put_u8(out, at, 6);
        let at = put_u8(out, at, 0);
        put_u8(out, at, 0);
    }

    ghost write_laws = { write_laws laws_esds };
}

impl BoxLaws for EsdsBox {
    ghost laws = { laws_esds };
}
