//! The codes of boxes, and those of handlers: four characters as a big-endian number of four bytes (ISO/IEC 14496-12,
//! 4.2 and 8.4.3). The boxes of the codec come first. The variants of `BoxType` describe these.

/// `ftyp`.
pub const FTYP: u32 = 0x6674_7970;
/// `mvhd`.
pub const MVHD: u32 = 0x6d76_6864;
/// `mfhd`.
pub const MFHD: u32 = 0x6d66_6864;
/// `free`.
pub const FREE: u32 = 0x6672_6565;
/// `mdat`.
pub const MDAT: u32 = 0x6d64_6174;
/// `moov`.
pub const MOOV: u32 = 0x6d6f_6f76;
/// `mvex`.
pub const MVEX: u32 = 0x6d76_6578;
/// `mehd`.
pub const MEHD: u32 = 0x6d65_6864;
/// `trex`.
pub const TREX: u32 = 0x7472_6578;
/// `emsg`.
pub const EMSG: u32 = 0x656d_7367;
/// `moof`.
pub const MOOF: u32 = 0x6d6f_6f66;
/// `tkhd`.
pub const TKHD: u32 = 0x746b_6864;
/// `tfhd`.
pub const TFHD: u32 = 0x7466_6864;
/// `tfdt`.
pub const TFDT: u32 = 0x7466_6474;
/// `edts`.
pub const EDTS: u32 = 0x6564_7473;
/// `mdia`.
pub const MDIA: u32 = 0x6d64_6961;
/// `elst`.
pub const ELST: u32 = 0x656c_7374;
/// `mdhd`.
pub const MDHD: u32 = 0x6d64_6864;
/// `hdlr`.
pub const HDLR: u32 = 0x6864_6c72;
/// `minf`.
pub const MINF: u32 = 0x6d69_6e66;
/// `vmhd`.
pub const VMHD: u32 = 0x766d_6864;
/// `stbl`.
pub const STBL: u32 = 0x7374_626c;
/// `stsd`.
pub const STSD: u32 = 0x7374_7364;
/// `stts`.
pub const STTS: u32 = 0x7374_7473;
/// `ctts`.
pub const CTTS: u32 = 0x6374_7473;
/// `stss`.
pub const STSS: u32 = 0x7374_7373;
/// `stsc`.
pub const STSC: u32 = 0x7374_7363;
/// `stsz`.
pub const STSZ: u32 = 0x7374_737a;
/// `stco`.
pub const STCO: u32 = 0x7374_636f;
/// `co64`.
pub const CO64: u32 = 0x636f_3634;
/// `trak`.
pub const TRAK: u32 = 0x7472_616b;
/// `traf`.
pub const TRAF: u32 = 0x7472_6166;
/// `trun`.
pub const TRUN: u32 = 0x7472_756e;
/// `udta`.
pub const UDTA: u32 = 0x7564_7461;
/// `meta`.
pub const META: u32 = 0x6d65_7461;
/// `dinf`.
pub const DINF: u32 = 0x6469_6e66;
/// `dref`.
pub const DREF: u32 = 0x6472_6566;
/// `smhd`.
pub const SMHD: u32 = 0x736d_6864;
/// `avc1`.
pub const AVC1: u32 = 0x6176_6331;
/// `avcC`.
pub const AVCC: u32 = 0x6176_6343;
/// `hev1`.
pub const HEV1: u32 = 0x6865_7631;
/// `hvcC`.
pub const HVCC: u32 = 0x6876_6343;
/// `mp4a`.
pub const MP4A: u32 = 0x6d70_3461;
/// `esds`.
pub const ESDS: u32 = 0x6573_6473;
/// `tx3g`.
pub const TX3G: u32 = 0x7478_3367;
/// `vpcC`.
pub const VPCC: u32 = 0x7670_6343;
/// `vp09`.
pub const VP09: u32 = 0x7670_3039;
/// `data`.
pub const DATA: u32 = 0x6461_7461;
/// `ilst`.
pub const ILST: u32 = 0x696c_7374;
/// `covr`.
pub const COVR: u32 = 0x636f_7672;
/// `desc`.
pub const DESC: u32 = 0x6465_7363;
/// `wide`.
pub const WIDE: u32 = 0x7769_6465;
/// `url `.
pub const URL: u32 = 0x7572_6c20;
/// `©nam`.
pub const NAME: u32 = 0xa96e_616d;
/// `©day`.
pub const DAY: u32 = 0xa964_6179;

// Boxes that hold boxes, in ISO/IEC 14496-12, 14496-15 and 23008-12.

/// `mfra`.
pub const MFRA: u32 = 0x6d66_7261;
/// `sinf`.
pub const SINF: u32 = 0x7369_6e66;
/// `schi`.
pub const SCHI: u32 = 0x7363_6869;
/// `rinf`.
pub const RINF: u32 = 0x7269_6e66;
/// `trgr`.
pub const TRGR: u32 = 0x7472_6772;
/// `strk`.
pub const STRK: u32 = 0x7374_726b;
/// `strd`.
pub const STRD: u32 = 0x7374_7264;
/// `trep`.
pub const TREP: u32 = 0x7472_6570;
/// `meco`.
pub const MECO: u32 = 0x6d65_636f;
/// `paen`.
pub const PAEN: u32 = 0x7061_656e;
/// `fiin`.
pub const FIIN: u32 = 0x6669_696e;
/// `ipro`.
pub const IPRO: u32 = 0x6970_726f;
/// `iinf`.
pub const IINF: u32 = 0x6969_6e66;
/// `iref`.
pub const IREF: u32 = 0x6972_6566;
/// `iprp`.
pub const IPRP: u32 = 0x6970_7270;
/// `ipco`.
pub const IPCO: u32 = 0x6970_636f;
/// `grpl`.
pub const GRPL: u32 = 0x6772_706c;
/// `ludt`.
pub const LUDT: u32 = 0x6c75_6474;
/// `hnti`.
pub const HNTI: u32 = 0x686e_7469;
/// `hinf`.
pub const HINF: u32 = 0x6869_6e66;

// Boxes that hold boxes, in QuickTime.

/// `wave`.
pub const WAVE: u32 = 0x7761_7665;
/// `gmhd`.
pub const GMHD: u32 = 0x676d_6864;
/// `tmcd`.
pub const TMCD: u32 = 0x746d_6364;
/// `tapt`.
pub const TAPT: u32 = 0x7461_7074;
/// `clip`.
pub const CLIP: u32 = 0x636c_6970;
/// `matt`.
pub const MATT: u32 = 0x6d61_7474;
/// `rmra`.
pub const RMRA: u32 = 0x726d_7261;
/// `rmda`.
pub const RMDA: u32 = 0x726d_6461;
/// `cmov`.
pub const CMOV: u32 = 0x636d_6f76;

// Sample entries of video.

/// `avc2`.
pub const AVC2: u32 = 0x6176_6332;
/// `avc3`.
pub const AVC3: u32 = 0x6176_6333;
/// `avc4`.
pub const AVC4: u32 = 0x6176_6334;
/// `svc1`.
pub const SVC1: u32 = 0x7376_6331;
/// `svc2`.
pub const SVC2: u32 = 0x7376_6332;
/// `mvc1`.
pub const MVC1: u32 = 0x6d76_6331;
/// `mvc2`.
pub const MVC2: u32 = 0x6d76_6332;
/// `mvc3`.
pub const MVC3: u32 = 0x6d76_6333;
/// `mvc4`.
pub const MVC4: u32 = 0x6d76_6334;
/// `hvc1`.
pub const HVC1: u32 = 0x6876_6331;
/// `hvc2`.
pub const HVC2: u32 = 0x6876_6332;
/// `hev2`.
pub const HEV2: u32 = 0x6865_7632;
/// `lhv1`.
pub const LHV1: u32 = 0x6c68_7631;
/// `lhe1`.
pub const LHE1: u32 = 0x6c68_6531;
/// `vvc1`.
pub const VVC1: u32 = 0x7676_6331;
/// `vvi1`.
pub const VVI1: u32 = 0x7676_6931;
/// `evc1`.
pub const EVC1: u32 = 0x6576_6331;
/// `av01`.
pub const AV01: u32 = 0x6176_3031;
/// `vp08`.
pub const VP08: u32 = 0x7670_3038;
/// `mp4v`.
pub const MP4V: u32 = 0x6d70_3476;
/// `encv`.
pub const ENCV: u32 = 0x656e_6376;
/// `resv`.
pub const RESV: u32 = 0x7265_7376;

// Sample entries of sound.

/// `Opus`.
pub const OPUS: u32 = 0x4f70_7573;
/// `fLaC`.
pub const FLAC: u32 = 0x664c_6143;
/// `alac`.
pub const ALAC: u32 = 0x616c_6163;
/// `ac-3`.
pub const AC3: u32 = 0x6163_2d33;
/// `ec-3`.
pub const EC3: u32 = 0x6563_2d33;
/// `enca`.
pub const ENCA: u32 = 0x656e_6361;

// Other sample entries.

/// `wvtt`.
pub const WVTT: u32 = 0x7776_7474;
/// `mp4s`.
pub const MP4S: u32 = 0x6d70_3473;
/// `urim`.
pub const URIM: u32 = 0x7572_696d;

// Boxes that hold no boxes.

/// `hmhd`.
pub const HMHD: u32 = 0x686d_6864;
/// `sthd`.
pub const STHD: u32 = 0x7374_6864;
/// `nmhd`.
pub const NMHD: u32 = 0x6e6d_6864;
/// `elng`.
pub const ELNG: u32 = 0x656c_6e67;
/// `tref`.
pub const TREF: u32 = 0x7472_6566;
/// `iods`.
pub const IODS: u32 = 0x696f_6473;
/// `pnot`.
pub const PNOT: u32 = 0x706e_6f74;
/// `pdin`.
pub const PDIN: u32 = 0x7064_696e;
/// `styp`.
pub const STYP: u32 = 0x7374_7970;
/// `ssix`.
pub const SSIX: u32 = 0x7373_6978;
/// `sidx`.
pub const SIDX: u32 = 0x7369_6478;
/// `prft`.
pub const PRFT: u32 = 0x7072_6674;
/// `skip`.
pub const SKIP: u32 = 0x736b_6970;
/// `uuid`.
pub const UUID: u32 = 0x7575_6964;
/// `cslg`.
pub const CSLG: u32 = 0x6373_6c67;
/// `sdtp`.
pub const SDTP: u32 = 0x7364_7470;
/// `stz2`.
pub const STZ2: u32 = 0x7374_7a32;
/// `stsh`.
pub const STSH: u32 = 0x7374_7368;
/// `padb`.
pub const PADB: u32 = 0x7061_6462;
/// `stdp`.
pub const STDP: u32 = 0x7374_6470;
/// `av1C`.
pub const AV1C: u32 = 0x6176_3143;
/// `btrt`.
pub const BTRT: u32 = 0x6274_7274;
/// `clap`.
pub const CLAP: u32 = 0x636c_6170;
/// `clli`.
pub const CLLI: u32 = 0x636c_6c69;
/// `colr`.
pub const COLR: u32 = 0x636f_6c72;
/// `dac3`.
pub const DAC3: u32 = 0x6461_6333;
/// `dec3`.
pub const DEC3: u32 = 0x6465_6333;
/// `dfLa`.
pub const DFLA: u32 = 0x6466_4c61;
/// `dOps`.
pub const DOPS: u32 = 0x644f_7073;
/// `mdcv`.
pub const MDCV: u32 = 0x6d64_6376;
/// `pasp`.
pub const PASP: u32 = 0x7061_7370;
/// `stpp`.
pub const STPP: u32 = 0x7374_7070;
/// `saio`.
pub const SAIO: u32 = 0x7361_696f;
/// `saiz`.
pub const SAIZ: u32 = 0x7361_697a;
/// `sbgp`.
pub const SBGP: u32 = 0x7362_6770;
/// `senc`.
pub const SENC: u32 = 0x7365_6e63;
/// `sgpd`.
pub const SGPD: u32 = 0x7367_7064;
/// `subs`.
pub const SUBS: u32 = 0x7375_6273;
/// `frma`.
pub const FRMA: u32 = 0x6672_6d61;
/// `keys`.
pub const KEYS: u32 = 0x6b65_7973;
/// `kind`.
pub const KIND: u32 = 0x6b69_6e64;
/// `mfro`.
pub const MFRO: u32 = 0x6d66_726f;
/// `pssh`.
pub const PSSH: u32 = 0x7073_7368;
/// `schm`.
pub const SCHM: u32 = 0x7363_686d;
/// `tenc`.
pub const TENC: u32 = 0x7465_6e63;
/// `tfra`.
pub const TFRA: u32 = 0x7466_7261;
/// `iloc`.
pub const ILOC: u32 = 0x696c_6f63;
/// `fiel`.
pub const FIEL: u32 = 0x6669_656c;
/// `chan`.
pub const CHAN: u32 = 0x6368_616e;
/// `enda`.
pub const ENDA: u32 = 0x656e_6461;
/// `gmin`.
pub const GMIN: u32 = 0x676d_696e;
/// `tcmi`.
pub const TCMI: u32 = 0x7463_6d69;
/// `text`.
pub const TEXT: u32 = 0x7465_7874;
/// `dvcC`.
pub const DVCC: u32 = 0x6476_6343;
/// `dvvC`.
pub const DVVC: u32 = 0x6476_7643;
/// `chnl`.
pub const CHNL: u32 = 0x6368_6e6c;
/// `srat`.
pub const SRAT: u32 = 0x7372_6174;
/// `vvcC`.
pub const VVCC: u32 = 0x7676_6343;
/// `ispe`.
pub const ISPE: u32 = 0x6973_7065;
/// `pixi`.
pub const PIXI: u32 = 0x7069_7869;
/// `irot`.
pub const IROT: u32 = 0x6972_6f74;
/// `imir`.
pub const IMIR: u32 = 0x696d_6972;
/// `auxC`.
pub const AUXC: u32 = 0x6175_7843;
/// `infe`.
pub const INFE: u32 = 0x696e_6665;
/// `ipma`.
pub const IPMA: u32 = 0x6970_6d61;
/// `pitm`.
pub const PITM: u32 = 0x7069_746d;
/// `mean`.
pub const MEAN: u32 = 0x6d65_616e;
/// `name`.
pub const TAG_NAME: u32 = 0x6e61_6d65;
/// `----`, a tag with a domain and a name.
pub const FREE_FORM: u32 = 0x2d2d_2d2d;
/// `leva`.
pub const LEVA: u32 = 0x6c65_7661;
/// `assp`.
pub const ASSP: u32 = 0x6173_7370;
/// `cprt`.
pub const CPRT: u32 = 0x6370_7274;
/// `loci`.
pub const LOCI: u32 = 0x6c6f_6369;
/// `ACLR`.
pub const ACLR: u32 = 0x4143_4c52;
/// `alis`.
pub const ALIS: u32 = 0x616c_6973;
/// `rsrc`.
pub const RSRC: u32 = 0x7273_7263;
/// `urn `.
pub const URN: u32 = 0x7572_6e20;
/// `dvh1`.
pub const DVH1: u32 = 0x6476_6831;
/// `dvhe`.
pub const DVHE: u32 = 0x6476_6865;
/// `dvav`.
pub const DVAV: u32 = 0x6476_6176;
/// `dva1`.
pub const DVA1: u32 = 0x6476_6131;
/// `dtsc`.
pub const DTSC: u32 = 0x6474_7363;
/// `dtse`.
pub const DTSE: u32 = 0x6474_7365;
/// `dtsh`.
pub const DTSH: u32 = 0x6474_7368;
/// `dtsl`.
pub const DTSL: u32 = 0x6474_736c;
/// `c608`.
pub const C608: u32 = 0x6336_3038;
/// `c708`.
pub const C708: u32 = 0x6337_3038;

// Handlers.

/// `vide`.
pub const VIDE: u32 = 0x7669_6465;
/// `soun`.
pub const SOUN: u32 = 0x736f_756e;
/// `pict`.
pub const PICT: u32 = 0x7069_6374;
/// `auxv`.
pub const AUXV: u32 = 0x6175_7876;
