//! The lines of a list of boxes.

ghost use Rattle.std.specs.Prelude.{◌≡◌, ◌+◌, ◌≤◌, ◌++◌, drop, length, IfErr, OnOk};
ghost use Rattle.std.specs.List.{list_all};
ghost use Rattle.mp4_frame.specs.declared.error.Error.TheVariants.{OutOfMemory};
ghost use Rattle.mp4_boxes.specs.Lines.{is_printable, code_text, line_of};

use itoa::write_digits;
use mp4_frame::BoxSpan;
use mp4_stream::{FourCC, Result};

/// The largest number of bytes of a line: two numbers of at most 20 digits, a name of at most 10 characters, two spaces
/// and a line feed.
const LONGEST: usize = 53;

/// Puts `bytes` before the offset `end` of `line`, and returns the offset at which they begin.
fn put_before(line: &mut [u8], end: usize, bytes: &[u8]) -> usize
    requires room { length bytes.now ≤ end }
    requires within { end ≤ length line.old }
    ensures start { result + length bytes.now ≡ end }
    ensures text { drop result line.new ≡ bytes.now ++ drop end line.old }
{
    let start = end - bytes.len();
    line[start..end].copy_from_slice(bytes);
    start
}

/// Returns whether all four characters of `code` are printable.
fn is_printable(code: &[u8; 4]) -> bool
    ensures { result ≡ list_all is_printable code.now }
{
    code.iter().all(|byte| matches!(byte, 0x20..=0x7E))
}

/// Puts the text of `code` before the offset `end` of `line`, and returns the offset at which it begins.
fn put_code(line: &mut [u8], end: usize, code: [u8; 4]) -> usize
    requires room { 10 ≤ end }
    requires within { end ≤ length line.old }
    ensures within { result ≤ end }
    ensures start { end ≤ result + 10 }
    ensures text { drop result line.new ≡ code_text code ++ drop end line.old }
{
    if is_printable(&code) {
        return put_before(line, end, &code);
    }
    let mut digits = [0; 8];
    let _ = hex::encode_to_slice(code, &mut digits);
    let at = put_before(line, end, &digits);
    put_before(line, at, b"0x")
}

/// Puts the line of the box `span` at the end of `line`, and returns the offset at which it begins.
fn put_line(line: &mut [u8; LONGEST], span: BoxSpan) -> usize
    ensures within { result ≤ LONGEST }
    ensures text { drop result line.new ≡ line_of span }
{
    let at = put_before(line, LONGEST, b"\n");
    let at = put_code(line, at, FourCC::from(span.name).value);
    let at = put_before(line, at, b" ");
    let at = write_digits(span.length, line, at);
    let at = put_before(line, at, b" ");
    write_digits(span.position, line, at)
}

/// Appends the line of the box `span` to `lines`.
pub fn push_line(lines: &mut Vec<u8>, span: BoxSpan) -> Result<()>
    ensures ok { OnOk result (lines.new.items ≡ lines.old.items ++ line_of span) }
    ensures error { IfErr result (λ e. e ≡ OutOfMemory) }
{
    let mut line = [0; LONGEST];
    let start = put_line(&mut line, span);
    lines.extend_from_slice(&line[start..])?;
    Ok(())
}
