//! RGB colours.

/// An RGB colour, without transparency. Each component has 16 bits, and 65535 is the brightest.
#[derive(Clone, Debug, Default, Drop, PartialEq, Eq)]
pub struct RgbColor {
    /// The red component.
    pub red: u16,
    /// The green component.
    pub green: u16,
    /// The blue component.
    pub blue: u16,
}
