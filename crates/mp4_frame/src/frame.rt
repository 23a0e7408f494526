//! The frame of a box: the values in its header, and its place.

ghost use Rattle.std.specs.Prelude.{◌≡◌, ◌<◌, ◌≤◌, ◌+◌, ◌^◌, length, IfOk};
ghost use Rattle.mp4_frame.specs.Bytes.{number};
ghost use Rattle.mp4_frame.specs.Reading.{Answers, FaultAs};
ghost use Rattle.mp4_frame.specs.Heads.{head, frame, end_in};

use crate::box_type::BoxType;
use crate::error::{Error, Result};
use crate::list::BoxSpan;
use crate::number::{u32_at, u64_at};
use crate::reading::{check, check_end, expect_bytes};

/// The frame of a box: the values in its header (ISO/IEC 14496-12, 4.2), and its place. Offsets are in bytes from the
/// front of the buffer.
#[derive(Clone, Copy, Debug)]
pub struct Frame {
    /// The code of the box: its four characters as a number.
    pub code: u32,
    /// The offset where the box, and so its header, begins.
    pub begin: u64,
    /// The offset 8 bytes before the content. It equals `begin`, or `begin + 8` if the header has 16 bytes.
    pub start: u64,
    /// The number of bytes from `start` to the end of the box, the `size` of `ReadBox::read_content`. In a frame of
    /// `Frame::at`, 0 means up to the end of the buffer.
    pub size: u64,
}

impl Frame {
    ghost use Rattle.mp4_frame.specs.Heads.{header_length, name_in, content_in, frame_of_head};
    ghost use Rattle.mp4_frame.specs.Spans.{span_of};

    /// Returns the frame that the header at offset `at` gives. The header has 8 bytes, and 8 more if the first 4 hold a
    /// size of 1. The error is end of input unless these bytes are present, and invalid data if the 64-bit size is 1 to
    /// 15.
    #[tactic(auto, unfolding(crate::specs::Heads::head))]
    pub fn at(bytes: &[u8], at: u64) -> Result<Frame>
        ensures value { Answers result (head bytes.now at) }
        ensures fault { FaultAs result (head bytes.now at).outcome }
        ensures code { IfOk result (λ f. f.code ≡ number bytes.now (at + 4) 4) }
        ensures begins { IfOk result (λ f. f.begin ≡ at) }
        ensures after { IfOk result (λ f. content_in f ≡ at + header_length bytes.now at) }
        ensures room { IfOk result (λ f. (at ≤ f.start) × (content_in f ≤ length bytes.now)) }
    {
        let offset = at as usize;
        expect_bytes(bytes, offset, 8)?;
        let size = u32_at(bytes, offset);
        let code = u32_at(bytes, offset + 4);
        if size != 1 {
            return Ok(Frame {
                code,
                begin: at,
                start: at,
                size: u64::from(size),
            });
        }
        expect_bytes(bytes, offset + 8, 8)?;
        let size = u64_at(bytes, offset + 8);
        check(size == 0 || size >= 16, "64-bit box size too small")?;
        Ok(Frame {
            code,
            begin: at,
            start: at + 8,
            size: size.saturating_sub(8),
        })
    }

    /// Returns the name of the box.
    pub fn name(&self) -> BoxType
        ensures { result ≡ name_in self.now }
    {
        BoxType::from(self.code)
    }

    /// Returns the offset where the content of the box begins, which is the end of its header.
    pub fn content(&self) -> u64
        requires { content_in self.now < 2 ^ 64 }
        ensures { result ≡ content_in self.now }
    {
        self.start + 8
    }

    /// Returns the offset where the box ends.
    pub fn end(&self) -> u64
        requires { end_in self.now < 2 ^ 64 }
        ensures { result ≡ end_in self.now }
    {
        self.start + self.size
    }

    /// Returns the place of the box in the buffer, and its name.
    pub fn span(&self) -> BoxSpan
        requires order { self.now.begin ≤ end_in self.now }
        requires end { end_in self.now < 2 ^ 64 }
        ensures { result ≡ span_of self.now }
    {
        BoxSpan {
            position: self.begin,
            length: self.end() - self.begin,
            name: self.name(),
        }
    }

    /// Returns the frame of the whole box in a buffer of `len` bytes. A size of 0 becomes the number of bytes from
    /// `start` to the end of the buffer. The error is invalid data if the size is too small or the box ends past 2^64 -
    /// 1. It is end of input if the box ends past the buffer.
    #[tactic(auto, unfolding(crate::specs::Heads::frame_of_head))]
    pub fn within(self, len: u64) -> Result<Frame>
        requires { content_in self ≤ len }
        ensures answer { FaultAs result (frame_of_head len self) }
        ensures begins { IfOk result (λ f. (f.begin ≡ self.begin) × (f.start ≡ self.start)) }
        ensures room { IfOk result (λ f. (8 ≤ f.size) × (end_in f ≤ len)) }
        ensures code { IfOk result (λ f. f.code ≡ self.code) }
    {
        if self.size == 0 {
            return Ok(Frame {
                size: len - self.start,
                ..self
            });
        }
        if self.size < 8 {
            return Err(Error::InvalidData("box size too small"));
        }
        check_end(self.start, self.size)?;
        if self.end() > len {
            return Err(Error::IoError);
        }
        Ok(self)
    }
}

/// Returns the frame of the box at offset `at`, which is before the end of the buffer. The error is end of input if the
/// header or the box is cut. It is invalid data if the size is too small or the box ends past 2^64 - 1.
pub fn frame_at(bytes: &[u8], at: usize) -> Result<Frame>
    requires { at < length bytes.now }
    ensures answer { FaultAs result (frame bytes.now at) }
    ensures begins { IfOk result (λ f. (f.begin ≡ at) × (at ≤ f.start)) }
    ensures room { IfOk result (λ f. (8 ≤ f.size) × (end_in f ≤ length bytes.now)) }
    ensures code { IfOk result (λ f. f.code ≡ number bytes.now (at + 4) 4) }
{
    Frame::at(bytes, at as u64)?.within(bytes.len() as u64)
}
