//! The header of a descriptor: its tag and length.

ghost use Rattle.std.specs.Prelude.{◌≡◌, ◌+◌, ◌<◌, ◌≤◌, ◌^◌, length, IfOk, IfErr};
ghost use Rattle.mp4_frame.specs.Reading.{Answers};
ghost use Rattle.mp4_sound.specs.DescriptorHeader.{FaultOf, IsWhole, descriptor_header, fourth_length, header_of_bytes};
ghost use Rattle.mp4_sound.specs.DescriptorHeader.{longer, second_length, third_length};

use mp4_frame::{Result, expect_bytes, u8_at};

/// The header of a descriptor (ISO/IEC 14496-1, 8.3.3).
#[derive(Clone, Copy, Debug)]
pub struct DescriptorHeader {
    /// The tag, which says the kind of the descriptor.
    pub tag: u8,
    /// The number of bytes of content that the header declares.
    pub length: u64,
    /// The offset of the content from the start of the box.
    pub content: u64,
}

/// Returns the header of `head` bytes at offset `at` that declares this length.
fn header_of(bytes: &[u8], at: u64, head: u64, declared: u64) -> DescriptorHeader
    requires positive { 0 < head }
    requires present { at + head ≤ length bytes.now }
    ensures { result ≡ header_of_bytes bytes.now at head declared }
{
    DescriptorHeader {
        tag: u8_at(bytes, at as usize),
        length: declared,
        content: at + head,
    }
}

/// Returns the length that `declared` and the seven low bits of the byte at offset `at` make.
fn longer(bytes: &[u8], at: usize, declared: u64) -> u64
    requires present { at < length bytes.now }
    requires short { declared < 2 ^ 21 }
    ensures { result ≡ longer bytes.now at declared }
{
    declared * 128 + u64::from(u8_at(bytes, at) % 128)
}

/// Reads the fourth byte of a length. The first three make `declared`.
fn fourth_length(bytes: &[u8], at: u64, declared: u64) -> Result<DescriptorHeader>
    requires present { at + 4 ≤ length bytes.now }
    requires short { declared < 2 ^ 21 }
    ensures value { Answers result (fourth_length bytes.now at declared) }
    ensures fault { IfErr result (λ e. FaultOf e (fourth_length bytes.now at declared)) }
    ensures whole { IfOk result (IsWhole bytes.now at) }
{
    let offset = at as usize + 4;
    expect_bytes(bytes, offset, 1)?;
    Ok(header_of(bytes, at, 5, longer(bytes, offset, declared)))
}

/// Reads the third byte of a length, and the fourth if there is one. The first two make `declared`.
fn third_length(bytes: &[u8], at: u64, declared: u64) -> Result<DescriptorHeader>
    requires present { at + 3 ≤ length bytes.now }
    requires short { declared < 2 ^ 14 }
    ensures value { Answers result (third_length bytes.now at declared) }
    ensures fault { IfErr result (λ e. FaultOf e (third_length bytes.now at declared)) }
    ensures whole { IfOk result (IsWhole bytes.now at) }
{
    let offset = at as usize + 3;
    expect_bytes(bytes, offset, 1)?;
    let declared = longer(bytes, offset, declared);
    if u8_at(bytes, offset) < 128 {
        return Ok(header_of(bytes, at, 4, declared));
    }
    fourth_length(bytes, at, declared)
}

/// Reads the second byte of a length, and the later ones if there are any. The first makes `declared`.
fn second_length(bytes: &[u8], at: u64, declared: u64) -> Result<DescriptorHeader>
    requires present { at + 2 ≤ length bytes.now }
    requires short { declared < 2 ^ 7 }
    ensures value { Answers result (second_length bytes.now at declared) }
    ensures fault { IfErr result (λ e. FaultOf e (second_length bytes.now at declared)) }
    ensures whole { IfOk result (IsWhole bytes.now at) }
{
    let offset = at as usize + 2;
    expect_bytes(bytes, offset, 1)?;
    let declared = longer(bytes, offset, declared);
    if u8_at(bytes, offset) < 128 {
        return Ok(header_of(bytes, at, 3, declared));
    }
    third_length(bytes, at, declared)
}

impl DescriptorHeader {
    /// Reads the header at offset `at`. Fails with end of input unless its 2 to 5 bytes are present.
    #[tactic(auto, unfolding(crate::specs::DescriptorHeader::descriptor_header))]
    pub fn at(bytes: &[u8], at: u64) -> Result<DescriptorHeader>
        ensures value { Answers result (descriptor_header bytes.now at) }
        ensures fault { IfErr result (λ e. FaultOf e (descriptor_header bytes.now at)) }
        ensures whole { IfOk result (IsWhole bytes.now at) }
    {
        let offset = at as usize;
        expect_bytes(bytes, offset, 2)?;
        let first = u8_at(bytes, offset + 1);
        let declared = u64::from(first % 128);
        if first < 128 {
            return Ok(header_of(bytes, at, 2, declared));
        }
        second_length(bytes, at, declared)
    }
}
