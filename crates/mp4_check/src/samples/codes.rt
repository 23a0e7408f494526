//! Codes that only the rules about samples need: those of sample entries, boxes in them, and schemes of encryption.

// Sample entries of AVC and HEVC with Dolby Vision.

/// `dva1`.
pub const DVA1: u32 = 0x6476_6131;
/// `dvav`.
pub const DVAV: u32 = 0x6476_6176;
/// `dvh1`.
pub const DVH1: u32 = 0x6476_6831;
/// `dvhe`.
pub const DVHE: u32 = 0x6476_6865;

// Sample entries of PCM: those of QuickTime, then those of ISO/IEC 23003-5.

/// `sowt`.
pub const SOWT: u32 = 0x736f_7774;
/// `twos`.
pub const TWOS: u32 = 0x7477_6f73;
/// `raw `.
pub const RAW: u32 = 0x7261_7720;
/// `in24`.
pub const IN24: u32 = 0x696e_3234;
/// `in32`.
pub const IN32: u32 = 0x696e_3332;
/// `fl32`.
pub const FL32: u32 = 0x666c_3332;
/// `fl64`.
pub const FL64: u32 = 0x666c_3634;
/// `lpcm`.
pub const LPCM: u32 = 0x6c70_636d;
/// `ipcm`.
pub const IPCM: u32 = 0x6970_636d;
/// `fpcm`.
pub const FPCM: u32 = 0x6670_636d;

// Boxes in sample entries.

/// `pcmC`.
pub const PCMC: u32 = 0x7063_6d43;
/// `frma`.
pub const FRMA: u32 = 0x6672_6d61;
/// `schm`.
pub const SCHM: u32 = 0x7363_686d;

// Schemes of encryption (ISO/IEC 23001-7).

/// `cens`.
pub const CENS: u32 = 0x6365_6e73;
/// `cbcs`.
pub const CBCS: u32 = 0x6362_6373;
