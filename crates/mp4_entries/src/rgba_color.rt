//! Colours with opacity.

/// An RGB colour with an opacity. Each component has 8 bits, and 255 is the brightest.
#[derive(Clone, Debug, Default, Drop, PartialEq, Eq)]
pub struct RgbaColor {
    /// The red component.
    pub red: u8,
    /// The green component.
    pub green: u8,
    /// The blue component.
    pub blue: u8,
    /// The opacity: 255 is opaque.
    pub alpha: u8,
}
