//! The files that are read: by a name, or as the standard input.

ghost use Rattle.std.specs.Prelude.{◌≡◌};
ghost use Rattle.mp4_inspect.specs.Opened.{reading_of};

use mp4_walk::Source;
use std::fs::File;
use std::io::{Seek, SeekFrom};
use std::os::unix::fs::FileTypeExt;
use std::{fs, io};

/// A file that is read starting at a position, as if that were its beginning.
#[derive(Drop)]
pub struct FileFrom {
    file: File,
    start: u64,
}

impl Source for FileFrom {
    fn length(&mut self) -> io::Result<u64> {
        Ok(self.file.length()?.saturating_sub(self.start))
    }

    fn read_at(&mut self, at: u64, buffer: &mut [u8]) -> io::Result<()> {
        self.file.read_at(self.start.saturating_add(at), buffer)
    }
}

/// A file whose bytes are read at any position: an open one, or one that was read to its end.
#[derive(Drop)]
pub enum Opened {
    /// A file.
    File(File),
    /// The standard input, starting at its position.
    Input(FileFrom),
    /// The bytes of a file.
    Bytes(Vec<u8>),
}

impl Source for Opened {
    fn length(&mut self) -> io::Result<u64> {
        match self {
            Opened::File(file) => file.length(),
            Opened::Input(file) => file.length(),
            Opened::Bytes(bytes) => Ok(bytes.len() as u64),
        }
    }

    fn read_at(&mut self, at: u64, buffer: &mut [u8]) -> io::Result<()> {
        match self {
            Opened::File(file) => file.read_at(at, buffer),
            Opened::Input(file) => file.read_at(at, buffer),
            Opened::Bytes(bytes) => {
                let mut all = bytes.as_slice();
                all.read_at(at, buffer)
            }
        }
    }
}

/// Returns the position of an open file that the line `pos:` of `text` holds.
fn position_in(text: &str) -> Option<u64> {
    for line in text.split('\n') {
        if let Some(number) = line.strip_prefix("pos:") {
            return number.trim().parse::<u64>().ok();
        }
    }
    None
}

/// Opens the standard input again, if it is a regular file with bytes left. Returns `None` if it is something else, or
/// if the system does not report its position.
pub(crate) fn input_file(rt: &HostRuntime) -> Option<FileFrom> {
    let text = fs::read_to_string(rt, "/proc/self/fdinfo/0").ok()?;
    let start = position_in(text.as_str())?;
    let mut file = fs::open(rt, "/proc/self/fd/0").ok()?;
    if !file.metadata().ok()?.file_type().is_file() || file.length().ok()? <= start {
        return None;
    }
    Some(FileFrom { file, start })
}

/// A way to read the bytes of a file.
#[derive(Clone, Copy, Debug, PartialEq, Eq)]
pub enum Reading {
    /// Bytes at any position.
    Seeks,
    /// Bytes from the beginning to the end, such as those of a pipe.
    Streams,
    /// None: the file is a directory.
    Directory,
    /// None: the file is a device.
    Device,
}

/// Returns how a file is read. `seeks` says that it is a regular file that supports seeking.
fn reading_of(is_directory: bool, is_device: bool, seeks: bool) -> Reading
    ensures { result ≡ reading_of is_directory is_device seeks }
{
    if is_directory {
        Reading::Directory
    } else if is_device {
        Reading::Device
    } else if seeks {
        Reading::Seeks
    } else {
        Reading::Streams
    }
}

/// Returns how an open file is read, and sets its position to its beginning.
pub(crate) fn how_to_read(file: &mut File) -> io::Result<Reading> {
    let kind = file.metadata()?.file_type();
    let seeks = kind.is_file() && file.seek(SeekFrom::End(0)).is_ok();
    if seeks {
        file.seek(SeekFrom::Start(0))?;
    }
    let is_device = kind.is_char_device() || kind.is_block_device();
    Ok(reading_of(kind.is_dir(), is_device, seeks))
}
