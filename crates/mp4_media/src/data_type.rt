//! Types of metadata values.

use mp4_frame::{Error, Result};

/// The type of a metadata value's bytes (QuickTime's well-known types). Its discriminant is its number.
#[derive(Clone, Debug, Default, PartialEq, Eq, Drop)]
pub enum DataType {
    /// Bytes in a format that depends on the key.
    #[default]
    Binary = 0,
    /// A UTF-8 string.
    Text = 1,
    /// A JPEG picture.
    Image = 13,
    /// A whole number, such as a tempo or a flag that marks a compilation.
    TempoCpil = 21,
}

/// Converts a number to its data type. A number other than 0, 1, 13 and 21 is invalid data.
impl TryFrom<u32> for DataType {
    ghost use Rattle.mp4_media.specs.Conversion.{IsConversion};
    ghost use Rattle.mp4_media.specs.DataType.{data_type_of};

    type Error = Error;

    ghost try_from_gives = { λ n r. IsConversion (data_type_of n) r };

    #[tactic(auto, unfolding(crate::specs::DataType::data_type_of))]
    fn try_from(number: u32) -> Result<DataType> {
        match number {
            0 => Ok(DataType::Binary),
            1 => Ok(DataType::Text),
            13 => Ok(DataType::Image),
            21 => Ok(DataType::TempoCpil),
            _ => Err(Error::InvalidData("invalid data type")),
        }
    }
}
