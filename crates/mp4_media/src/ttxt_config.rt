//! The configuration of a track of timed text.

/// The configuration of a track of timed text (3GPP TS 26.245). It has no fields.
#[derive(Clone, Debug, Default, PartialEq, Eq, Drop)]
pub struct TtxtConfig {}
