//! A box type from outside the codec, the smallest one that keeps the traits. The tests read and write lists of it.

ghost use Rattle.mp4_frame.specs.Format.{write_laws};
ghost use Rattle.example_boxes.specs.Mark.{reads_mark, format_mark, known_mark, reading_mark};
ghost use Rattle.example_boxes.specs.MarkLaws.{laws_mark, own_name_mark, read_back_mark, stable_mark, code_mark};

use mp4_frame::{expect_bytes, put_u32, u32_at};
use mp4_stream::{
    BoxLaws, BoxType, ByteCursor, Mp4Box, ReadBox, Result, StableBox, StreamBox, WriteBox,
};
use std::alloc::Global;

/// The code: `mark`.
pub const MARK: u32 = 0x6d61_726b;

/// A number under the code `mark`.
#[derive(Clone, Copy, Debug, PartialEq, Eq)]
pub struct MarkBox {
    pub mark: u32,
}

impl Mp4Box for MarkBox {
    ghost format = { format_mark };

    fn box_type(&self) -> BoxType {
        BoxType::UnknownBox(MARK)
    }

    fn box_size(&self) -> u64 {
        12
    }
}

impl ReadBox for MarkBox {
    ghost reads = { reads_mark };

    const LEAST: u64 = 0;

    #[tactic(auto, unfolding(crate::specs::Mark::reads_mark))]
    fn read_content(_alloc: Global, bytes: &[u8], _start: u64, _size: u64) -> Result<MarkBox> {
        expect_bytes(bytes, 8, 4)?;
        Ok(MarkBox {
            mark: u32_at(bytes, 8),
        })
    }
}

impl WriteBox for MarkBox {
    fn is_writable(&self) -> bool {
        // For the prover: a value that was read has the range of its type.
        let _mark = self.mark;
        true
    }

    #[tactic(auto, unfolding(crate::specs::Mark::bytes_mark, mp4_frame::specs::Bytes::bytes_of_fields, mp4_frame::specs::Bytes::bytes_of_fields_onto))]
    fn put_box(&self, out: &mut [u8]) {
        let at = put_u32(out, 0, 12);
        let at = put_u32(out, at, MARK);
        put_u32(out, at, self.mark);
    }

    ghost write_laws = { write_laws laws_mark };
}

impl BoxLaws for MarkBox {
    ghost laws = { laws_mark };
}

impl StreamBox for MarkBox {
    ghost known = { known_mark };

    ghost named_reading = { reading_mark };

    fn knows(name: BoxType) -> bool {
        matches!(name, BoxType::UnknownBox(MARK))
    }

    fn read_named(
        alloc: Global,
        _name: BoxType,
        reader: &mut ByteCursor,
        size: u64,
    ) -> Result<MarkBox> {
        MarkBox::read_box(alloc, reader, size)
    }

    ghost own_name = { own_name_mark };

    ghost read_back = { read_back_mark };
}

impl StableBox for MarkBox {
    ghost stable = { stable_mark };

    ghost own_code = { code_mark };
}
