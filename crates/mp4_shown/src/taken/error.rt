//! Why the JSON of a box is refused.

ghost use Rattle.std.specs.Prelude.{◌≡◌, ◌∷◌, ◌++◌, IfOk, Some, decimal, string_bytes};
ghost use Rattle.mp4_shown.specs.Taking.{IsRefusal, MovedInto, entry_path, in_path};
ghost use Rattle.mp4_shown.specs.TakenReasons.{reason_text};
ghost use Rattle.mp4_shown.specs.declared.taken.error.Error.TheVariants.{OutOfMemory};

use std::alloc::{AllocError, AllocFailed, Global};
use std::fmt;

/// The reason why a member is refused.
#[derive(Clone, Copy, Debug, PartialEq, Eq)]
pub enum Reason {
    /// The text isn't JSON.
    NotJson,
    /// The value isn't an object.
    NotObject,
    /// The value isn't an array.
    NotArray,
    /// The value isn't a whole number below 2^64, or a negative one for a field without a sign.
    NotWhole,
    /// The value isn't a number, or it has more than 37 digits.
    NotNumber,
    /// The value isn't a text.
    NotText,
    /// The value isn't a text of hexadecimal digits, two for each byte.
    NotHex,
    /// The value isn't a text of four characters from U+0000 to U+00FF.
    NotCode,
    /// The number is too large for the field, or too small.
    OutOfRange,
    /// The version is one that the box doesn't have.
    NoVersion,
    /// The number of bytes isn't that of the field, or more than the field can have.
    WrongLength,
    /// The array has more entries than the field can count.
    TooMany,
    /// The array has another number of entries than other fields say.
    WrongCount,
    /// The text has a zero byte, which would end it.
    ZeroByte,
    /// The box has no such field, or not with this version, these flags and these other fields.
    Unknown,
    /// The object has the name twice.
    Twice,
    /// The field is missing.
    Missing,
    /// The derived member isn't what follows from its field.
    Contradiction,
    /// The box keeps only one of several members.
    NotKept,
}

impl fmt::Display for Reason {
    ghost output = { λ reason. Some (reason_text reason) };

    fn fmt<W: fmt::Write>(&self, f: &mut fmt::Formatter<W>) -> fmt::Result {
        let text = match self {
            Reason::NotJson => "is not JSON",
            Reason::NotObject => "is not an object",
            Reason::NotArray => "is not an array",
            Reason::NotWhole => "is not a whole number that the field can have",
            Reason::NotNumber => "is not a number of at most 37 digits",
            Reason::NotText => "is not a text",
            Reason::NotHex => "is not a text of pairs of hexadecimal digits",
            Reason::NotCode => "is not a text of four characters below U+0100",
            Reason::OutOfRange => "does not fit the field",
            Reason::NoVersion => "is a version that the box does not have",
            Reason::WrongLength => "has a wrong number of bytes",
            Reason::TooMany => "has more entries than the field can count",
            Reason::WrongCount => "has a wrong number of entries",
            Reason::ZeroByte => "has a zero byte",
            Reason::Unknown => "is not a field of this box",
            Reason::Twice => "comes twice",
            Reason::Missing => "is missing",
            Reason::Contradiction => "contradicts its field",
            Reason::NotKept => "is not kept beside the entry before it",
        };
        f.write_str(text)
    }
}

/// A member that is refused, and why.
#[derive(Debug, Drop)]
pub struct Refusal {
    /// The path of the member: `references[3].SAP_type`. It is empty for the whole text.
    pub path: String,
    /// The reason.
    pub reason: Reason,
}

impl fmt::Display for Refusal {
    fn fmt<W: fmt::Write>(&self, f: &mut fmt::Formatter<W>) -> fmt::Result {
        if self.path.is_empty() {
            return write!(f, "the text {}", self.reason);
        }
        write!(f, "{} {}", self.path, self.reason)
    }
}

/// The error of taking a box out of JSON.
#[derive(Debug, Drop)]
pub enum Error {
    /// Memory was refused.
    OutOfMemory,
    /// The JSON is not that of the box.
    Refused(Refusal),
}

/// The result of taking a part of a box out of JSON.
pub type Result<T> = std::result::Result<T, Error>;

impl From<AllocError> for Error {
    ghost from_gives = { λ _ e. e ≡ OutOfMemory };

    fn from(_e: AllocError) -> Error {
        Error::OutOfMemory
    }
}

impl<T: Drop> From<AllocFailed<T>> for Error {
    ghost from_gives = { λ _ e. e ≡ OutOfMemory };

    fn from(_e: AllocFailed<T>) -> Error {
        Error::OutOfMemory
    }
}

/// Returns the error that the member at `path` is refused for this `reason`.
pub fn refuse(alloc: Global, path: &str, reason: Reason) -> Error
    ensures { IsRefusal result (path.now, reason) }
{
    match String::from_str(alloc, path) {
        Ok(path) => Error::Refused(Refusal { path, reason }),
        Err(_) => Error::OutOfMemory,
    }
}

/// Returns a path inside of the entry `index` of the list `name`: `references[3].SAP_type`, or `references[3]` if
/// `path` is empty.
fn path_in_entry(
    alloc: Global,
    name: &str,
    index: usize,
    path: &str,
) -> std::result::Result<String, AllocError>
    ensures { IfOk result (λ whole. string_bytes whole ≡ in_path (entry_path name.now index) path.now) }
{
    let mut whole = String::from_str(alloc, name)?;
    let mut buffer = itoa::Buffer::new();
    whole.push('[')?;
    whole.push_str(buffer.format(index as u64))?;
    whole.push(']')?;
    if !path.is_empty() {
        whole.push('.')?;
        whole.push_str(path)?;
    }
    Ok(whole)
}

/// Returns a path inside of the group `name`: `opcolor.red`, or `opcolor` if `path` is empty.
fn path_in_group(alloc: Global, name: &str, path: &str) -> std::result::Result<String, AllocError>
    ensures { IfOk result (λ whole. string_bytes whole ≡ in_path name.now path.now) }
{
    let mut whole = String::from_str(alloc, name)?;
    if !path.is_empty() {
        whole.push('.')?;
        whole.push_str(path)?;
    }
    Ok(whole)
}

impl Error {
    /// Returns the error with the path inside of the entry `index` of the list `name`.
    pub fn in_entry(self, alloc: Global, name: &str, index: usize) -> Error
        ensures { MovedInto (entry_path name.now index) self result }
    {
        match self {
            Error::OutOfMemory => Error::OutOfMemory,
            Error::Refused(Refusal { path, reason }) => {
                match path_in_entry(alloc, name, index, path.as_str()) {
                    Ok(path) => Error::Refused(Refusal { path, reason }),
                    Err(_) => Error::OutOfMemory,
                }
            }
        }
    }

    /// Returns the error with the path inside of the group `name`.
    pub fn in_group(self, alloc: Global, name: &str) -> Error
        ensures { MovedInto name.now self result }
    {
        match self {
            Error::OutOfMemory => Error::OutOfMemory,
            Error::Refused(Refusal { path, reason }) => {
                match path_in_group(alloc, name, path.as_str()) {
                    Ok(path) => Error::Refused(Refusal { path, reason }),
                    Err(_) => Error::OutOfMemory,
                }
            }
        }
    }
}
