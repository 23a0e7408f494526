//! Four-character codes.

ghost use Rattle.std.specs.Prelude.{◌≡◌, ◌↔◌, Some, IsTrue, encode_utf8_all};
ghost use Rattle.bstr.specs.Utf8.{lossy_chars};
ghost use Rattle.mp4_frame.specs.BoxType.{code_of};
ghost use Rattle.mp4_frame.specs.FourCC.{IsFourCC};

use crate::box_type::BoxType;
use crate::error::{Error, Result};
use crate::number::u32_at;
use crate::table::TableEntry;
use bstr::ByteSlice;
use std::fmt;
use std::str::FromStr;

/// A code of four bytes, mostly printable characters, that names a box, a brand or a handler
/// (ISO/IEC 14496-12, 3.1 and 4.2).
#[derive(Clone, Copy, Default, PartialEq, Eq)]
pub struct FourCC {
    /// The four bytes, in the order of the file.
    pub value: [u8; 4],
}

impl FromStr for FourCC {
    type Err = Error;

    ghost use Rattle.mp4_frame.specs.FourCC.{IsFourCCOf};

    ghost from_str_gives = { IsFourCCOf };

    fn from_str(s: &str) -> Result<FourCC> {
        if let [a, b, c, d] = s.as_bytes() {
            Ok(FourCC {
                value: [*a, *b, *c, *d],
            })
        } else {
            Err(Error::InvalidData("expected exactly four bytes in string"))
        }
    }
}

impl From<u32> for FourCC {
    ghost use Rattle.mp4_frame.specs.FourCC.{four_cc_of};

    ghost from_gives = { λ n c. c ≡ four_cc_of n };

    #[tactic(auto, unfolding(crate::specs::Bytes::be_bytes))]
    fn from(number: u32) -> FourCC {
        FourCC {
            value: number.to_be_bytes(),
        }
    }
}

impl From<FourCC> for u32 {
    ghost use Rattle.mp4_frame.specs.FourCC.{number_of};

    ghost from_gives = { λ c n. n ≡ number_of c };

    fn from(code: FourCC) -> u32 {
        u32::from(&code)
    }
}

impl From<&FourCC> for u32 {
    ghost use Rattle.mp4_frame.specs.FourCC.{number_of};

    ghost from_gives = { λ c n. n ≡ number_of c.now };

    fn from(code: &FourCC) -> u32 {
        u32_at(&code.value, 0)
    }
}

impl From<[u8; 4]> for FourCC {
    ghost from_gives = { λ bytes c. c ≡ record { value = bytes } };

    fn from(value: [u8; 4]) -> FourCC {
        FourCC { value }
    }
}

impl From<BoxType> for FourCC {
    ghost use Rattle.mp4_frame.specs.FourCC.{four_cc_of};

    ghost from_gives = { λ name c. c ≡ four_cc_of (code_of name) };

    fn from(name: BoxType) -> FourCC {
        FourCC::from(u32::from(name))
    }
}

/// Prints the bytes as UTF-8, with U+FFFD for each piece that is not UTF-8.
impl fmt::Display for FourCC {
    ghost output = { λ c. Some (encode_utf8_all (lossy_chars c.value)) };

    fn fmt<W: fmt::Write>(&self, f: &mut fmt::Formatter<W>) -> fmt::Result {
        let bytes: &[u8] = &self.value;
        fmt::Display::fmt(&bytes.as_bstr(), f)
    }
}

/// Prints the characters and the number, such as `isom / 0x69736F6D`.
impl fmt::Debug for FourCC {
    fn fmt<W: fmt::Write>(&self, f: &mut fmt::Formatter<W>) -> fmt::Result {
        let code = u32::from(self);
        write!(f, "{self} / {code:#010X}")
    }
}

/// A code is an entry in a table of codes.
impl TableEntry<4> for FourCC {
    ghost use Rattle.mp4_frame.specs.FourCC.{IsFourCC};

    ghost row_of = { λ c. c.value };

    ghost Fits = { IsFourCC };

    fn to_row(&self) -> [u8; 4] {
        self.value
    }

    fn fits(&self) -> bool {
        is_four_cc(*self)
    }
}

/// Returns `true`. For the prover: a value that was read has the range of its type.
pub fn is_four_cc(code: FourCC) -> bool
    ensures { IsTrue result ↔ IsFourCC code }
{
    // For the prover: a value that was read has the range of its type.
    let _code = code;
    true
}
