//! The event message box.

ghost use Rattle.std.specs.Prelude.{◌≡◌, ◌↔◌, ◌+◌, ◌-◌, ◌≤◌, ◌^◌, ◌++◌, ◌∷◌, [], None, IsTrue, length, min, take};
ghost use Rattle.mp4_frame.specs.Bytes.{bytes_of_fields};
ghost use Rattle.mp4_frame.specs.Reading.{Answers};
ghost use Rattle.mp4_frame.specs.declared.box_type.BoxType.TheVariants as names;
ghost use Rattle.mp4_frame.specs.Format.{write_laws};
ghost use Rattle.mp4_text.specs.Emsg.{message_from, reads_emsg_0, reads_emsg_1, size_middle, size_emsg, texts_emsg};
ghost use Rattle.mp4_text.specs.Emsg.{middle_emsg, WritableEmsg, reads_emsg, format_emsg};
ghost use Rattle.mp4_text.specs.EmsgLaws.{laws_emsg};

use crate::terminated::{is_terminable, put_terminated, two_texts_at};
use mp4_frame::{
    BoxLaws, BoxType, Entries, Error, Mp4Box, ReadBox, Result, Text, TryClone, WriteBox,
    bytes_from, check, codes, expect_bytes, piece_at, put_bytes, put_full_box, put_u32, put_u64,
    u8_at, u24_at, u32_at, u64_at,
};
use std::alloc::Global;

/// An event message (`emsg`, ISO/IEC 23009-1, 5.10.3.3).
#[derive(Debug, Drop, PartialEq, Eq)]
pub struct EmsgBox {
    /// The version, 0 or 1. It says which of the two times the box has.
    pub version: u8,
    /// Flags of 24 bits, usually 0.
    pub flags: u32,
    /// The number of time units per second.
    pub timescale: u32,
    /// The time of the event from the start of the presentation, in the timescale. It is read and written only in
    /// version 1.
    pub presentation_time: Option<u64>,
    /// The time of the event from the start of the segment, in the timescale. It is read and written only in version 0.
    pub presentation_time_delta: Option<u32>,
    /// The duration of the event, in the timescale.
    pub event_duration: u32,
    /// The number of the event.
    pub id: u32,
    /// The scheme, which gives the message its meaning. It can be written only without a zero byte in it.
    pub scheme_id_uri: Text,
    /// The value for the scheme. It can be written only without a zero byte in it.
    pub value: Text,
    /// The message.
    pub message_data: Entries<u8>,
}

impl EmsgBox {
    /// Returns a box with zeros, no times, empty strings and no message. It can't be written until the time of its
    /// version is set. It takes no memory from `alloc`.
    pub fn default_in(alloc: Global) -> EmsgBox
        ensures { result ≡ record {
          version = 0;
          flags = 0;
          timescale = 0;
          presentation_time = None;
          presentation_time_delta =
              None;
          event_duration = 0;
          id = 0;
          scheme_id_uri = [];
          value = [];
          message_data = [];
        } }
    {
        EmsgBox {
            version: 0,
            flags: 0,
            timescale: 0,
            presentation_time: None,
            presentation_time_delta: None,
            event_duration: 0,
            id: 0,
            scheme_id_uri: Text::new(alloc),
            value: Text::new(alloc),
            message_data: Entries::new(alloc),
        }
    }
}

impl TryClone for EmsgBox {
    fn try_clone(&self) -> Result<EmsgBox> {
        Ok(EmsgBox {
            version: self.version,
            flags: self.flags,
            timescale: self.timescale,
            presentation_time: self.presentation_time,
            presentation_time_delta: self.presentation_time_delta,
            event_duration: self.event_duration,
            id: self.id,
            scheme_id_uri: self.scheme_id_uri.try_clone()?,
            value: self.value.try_clone()?,
            message_data: self.message_data.try_clone()?,
        })
    }
}

impl Mp4Box for EmsgBox {
    ghost format = { format_emsg };

    fn box_type(&self) -> BoxType {
        BoxType::EmsgBox
    }

    fn box_size(&self) -> u64 {
        let fixed: u64 = if self.version == 0 { 30 } else { 34 };
        fixed
            .saturating_add(self.scheme_id_uri.len() as u64)
            .saturating_add(self.value.len() as u64)
            .saturating_add(self.message_data.len() as u64)
    }
}

/// Reads the message, from offset `at` to the end of a box of `size` bytes. Fails with invalid data if the box ends
/// before `at`.
#[tactic(auto, unfolding(crate::specs::Emsg::message_from))]
fn message_at(alloc: Global, bytes: &[u8], size: u64, at: usize) -> Result<Entries<u8>>
    ensures { Answers result (message_from bytes.now size at) }
{
    check(at as u64 <= size, "box size too small")?;
    let message = piece_at(bytes, at, size as usize - at)?;
    Ok(Vec::from_slice(alloc, message)?.into())
}

/// Reads a box of version 0, in which the strings are before the numbers.
#[tactic(auto, unfolding(crate::specs::Emsg::reads_emsg_0))]
fn read_version_0(alloc: Global, bytes: &[u8], size: u64) -> Result<EmsgBox>
    requires { 12 ≤ length bytes.now }
    ensures { Answers result (reads_emsg_0 bytes.now size) }
{
    let (scheme_id_uri, value) = two_texts_at(alloc, bytes, 12)?;
    let at = 12 + scheme_id_uri.len() + value.len() + 2;
    expect_bytes(bytes, at, 16)?;
    let message_data = message_at(alloc, bytes, size, at + 16)?;
    let numbers = bytes_from(bytes, at as u64);
    Ok(EmsgBox {
        version: u8_at(bytes, 8),
        flags: u24_at(bytes, 9),
        timescale: u32_at(numbers, 0),
        presentation_time: None,
        presentation_time_delta: Some(u32_at(numbers, 4)),
        event_duration: u32_at(numbers, 8),
        id: u32_at(numbers, 12),
        scheme_id_uri,
        value,
        message_data,
    })
}

/// Reads a box of version 1, in which the numbers are before the strings.
#[tactic(auto, unfolding(crate::specs::Emsg::reads_emsg_1))]
fn read_version_1(alloc: Global, bytes: &[u8], size: u64) -> Result<EmsgBox>
    requires { 12 ≤ length bytes.now }
    ensures { Answers result (reads_emsg_1 bytes.now size) }
{
    expect_bytes(bytes, 12, 20)?;
    let (scheme_id_uri, value) = two_texts_at(alloc, bytes, 32)?;
    let at = 32 + scheme_id_uri.len() + value.len() + 2;
    let message_data = message_at(alloc, bytes, size, at)?;
    let numbers = bytes_from(bytes, 12);
    Ok(EmsgBox {
        version: u8_at(bytes, 8),
        flags: u24_at(bytes, 9),
        timescale: u32_at(numbers, 0),
        presentation_time: Some(u64_at(numbers, 4)),
        presentation_time_delta: None,
        event_duration: u32_at(numbers, 12),
        id: u32_at(numbers, 16),
        scheme_id_uri,
        value,
        message_data,
    })
}

impl ReadBox for EmsgBox {
    ghost reads = { reads_emsg };

    const LEAST: u64 = 0;

    #[tactic(auto, unfolding(crate::specs::Emsg::reads_emsg))]
    fn read_content(alloc: Global, bytes: &[u8], _start: u64, size: u64) -> Result<EmsgBox> {
        expect_bytes(bytes, 8, 4)?;
        match u8_at(bytes, 8) {
            0 => read_version_0(alloc, bytes, size),
            1 => read_version_1(alloc, bytes, size),
            _ => Err(Error::InvalidData("version must be 0 or 1")),
        }
    }
}

/// Returns whether a box with these fields and a `box_size` of `size` can be written.
fn fits(
    version: u8,
    flags: u32,
    timescale: u32,
    presentation_time: Option<u64>,
    presentation_time_delta: Option<u32>,
    event_duration: u32,
    id: u32,
    size: u64,
    scheme_id_uri: &Text,
    value: &Text,
    message_data: &[u8],
) -> bool
    requires { size ≡ min
        (size_emsg (record {
          version = version;
          flags = flags;
          timescale = timescale;
          presentation_time =
              presentation_time;
          presentation_time_delta = presentation_time_delta;
          event_duration = event_duration;
          id =
              id;
          scheme_id_uri = scheme_id_uri.now;
          value = value.now;
          message_data = message_data.now;
        })) (2 ^ 64 - 1) }
    ensures { IsTrue result ↔ WritableEmsg
        (record {
          version = version;
          flags = flags;
          timescale = timescale;
          presentation_time =
              presentation_time;
          presentation_time_delta = presentation_time_delta;
          event_duration = event_duration;
          id =
              id;
          scheme_id_uri = scheme_id_uri.now;
          value = value.now;
          message_data = message_data.now;
        }) }
{
    // For the prover: a value that was read has the range of its type.
    let _time = presentation_time.unwrap_or(0);
    let _delta = presentation_time_delta.unwrap_or(0);
    let has_time = if version == 0 {
        presentation_time_delta.is_some()
    } else {
        version == 1 && presentation_time.is_some()
    };
    has_time
        && size < 1 << 32
        && flags < 1 << 24
        && is_terminable(scheme_id_uri)
        && is_terminable(value)
}

/// Writes the numbers of version 0 to `out` at offset `at`, and returns the offset after them.
#[tactic(auto, unfolding(mp4_frame::specs::Bytes::bytes_of_fields, mp4_frame::specs::Bytes::bytes_of_fields_onto))]
fn put_numbers_0(
    out: &mut [u8],
    at: usize,
    timescale: u32,
    delta: u32,
    event_duration: u32,
    id: u32,
) -> usize
    requires { at + 16 ≤ length out.old }
    ensures next { result ≡ at + 16 }
    ensures put { take result out.new
        ≡ take at out.old ++ bytes_of_fields ((4, timescale) ∷ (4, delta) ∷ (4, event_duration) ∷ (4, id) ∷ []) }
{
    let at = put_u32(out, at, timescale);
    let at = put_u32(out, at, delta);
    let at = put_u32(out, at, event_duration);
    put_u32(out, at, id)
}

/// Writes the numbers of version 1 to `out` at offset `at`, and returns the offset after them.
#[tactic(auto, unfolding(mp4_frame::specs::Bytes::bytes_of_fields, mp4_frame::specs::Bytes::bytes_of_fields_onto))]
fn put_numbers_1(
    out: &mut [u8],
    at: usize,
    timescale: u32,
    time: u64,
    event_duration: u32,
    id: u32,
) -> usize
    requires { at + 20 ≤ length out.old }
    ensures next { result ≡ at + 20 }
    ensures put { take result out.new
        ≡ take at out.old ++ bytes_of_fields ((4, timescale) ∷ (8, time) ∷ (4, event_duration) ∷ (4, id) ∷ []) }
{
    let at = put_u32(out, at, timescale);
    let at = put_u64(out, at, time);
    let at = put_u32(out, at, event_duration);
    put_u32(out, at, id)
}

impl EmsgBox {
    /// Writes the two strings to `out` at offset `at`, and returns the offset after them.
    fn put_texts(&self, out: &mut [u8], at: usize) -> usize
        requires { at + length self.now.scheme_id_uri + length self.now.value + 2 ≤ length out.old }
        ensures next { result ≡ at + length self.now.scheme_id_uri + length self.now.value + 2 }
        ensures put { take result out.new ≡ take at out.old ++ texts_emsg self.now }
    {
        let at = put_terminated(out, at, self.scheme_id_uri.as_bytes());
        put_terminated(out, at, self.value.as_bytes())
    }

    /// Writes the numbers and the strings to `out` at offset `at`, in the order of the version, and returns the offset
    /// after them.
    fn put_middle(&self, out: &mut [u8], at: usize) -> usize
        requires { at + size_middle self.now ≤ length out.old }
        ensures next { result ≡ at + size_middle self.now }
        ensures put { take result out.new ≡ take at out.old ++ middle_emsg self.now }
    {
        if self.version == 0 {
            let delta = self.presentation_time_delta.unwrap_or(0);
            let at = self.put_texts(out, at);
            return put_numbers_0(out, at, self.timescale, delta, self.event_duration, self.id);
        }
        let time = self.presentation_time.unwrap_or(0);
        let at = put_numbers_1(out, at, self.timescale, time, self.event_duration, self.id);
        self.put_texts(out, at)
    }
}

impl WriteBox for EmsgBox {
    fn is_writable(&self) -> bool {
        fits(
            self.version,
            self.flags,
            self.timescale,
            self.presentation_time,
            self.presentation_time_delta,
            self.event_duration,
            self.id,
            self.box_size(),
            &self.scheme_id_uri,
            &self.value,
            self.message_data.as_slice(),
        )
    }

    #[tactic(auto, unfolding(crate::specs::Emsg::bytes_emsg, mp4_frame::specs::Bytes::bytes_of_fields, mp4_frame::specs::Bytes::bytes_of_fields_onto))]
    fn put_box(&self, out: &mut [u8]) {
        let size = self.box_size() as u32;
        let at = put_full_box(out, size, codes::EMSG, self.version, self.flags);
        let at = self.put_middle(out, at);
        put_bytes(out, at, self.message_data.as_slice());
    }

    ghost write_laws = { write_laws laws_emsg };
}

impl BoxLaws for EmsgBox {
    ghost laws = { laws_emsg };
}
