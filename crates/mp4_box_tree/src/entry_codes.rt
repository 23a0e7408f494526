//! Codes of sample entries that `mp4_walk` knows only by the handler of their media, and of items. A tree knows them by
//! their codes.

ghost use Rattle.std.specs.Prelude.{◌≡◌, ◌==◌};
ghost use Rattle.std.specs.List.{list_any};
ghost use Rattle.mp4_box_tree.specs.EntryCodes.{is_item, is_more_sound, is_more_video};

/// The codes of video entries of QuickTime (QuickTime File Format, "Video Media", and the makers of the codecs), of
/// 3GPP (3GPP TS 26.244) and of Dolby Vision: `cvid`, `jpeg`, `mjpa`, `mjpb`, `mjp2`, `png `, `tiff`, `gif `, `rle `,
/// `rpza`, `smc `, `raw `, `SVQ1`, `SVQ3`, `h263`, `s263`, `dvc `, `dvcp`, `dvpp`, `dv5n`, `dv5p`, `dvh2`, `dvh3`,
/// `dvh5`, `dvh6`, `dvhp`, `dvhq`, `apch`, `apcn`, `apcs`, `apco`, `ap4h`, `ap4x`, `2vuy`, `yuv2`, `yuvs`, `v210`,
/// `v216`, `v308`, `v408`, `v410`, `Hap1`, `Hap5`, `HapY`, `HapM`, `CFHD`, `AVdn`, `AVdh`, `drac`, `vc-1`, `mp1v`,
/// `mp2v`, `m2v1`, `dvh1`, `dvhe`, `dva1` and `dvav`.
const MORE_VIDEO: &[u32] = &[
    0x6376_6964,
    0x6a70_6567,
    0x6d6a_7061,
    0x6d6a_7062,
    0x6d6a_7032,
    0x706e_6720,
    0x7469_6666,
    0x6769_6620,
    0x726c_6520,
    0x7270_7a61,
    0x736d_6320,
    0x7261_7720,
    0x5356_5131,
    0x5356_5133,
    0x6832_3633,
    0x7332_3633,
    0x6476_6320,
    0x6476_6370,
    0x6476_7070,
    0x6476_356e,
    0x6476_3570,
    0x6476_6832,
    0x6476_6833,
    0x6476_6835,
    0x6476_6836,
    0x6476_6870,
    0x6476_6871,
    0x6170_6368,
    0x6170_636e,
    0x6170_6373,
    0x6170_636f,
    0x6170_3468,
    0x6170_3478,
    0x3276_7579,
    0x7975_7632,
    0x7975_7673,
    0x7632_3130,
    0x7632_3136,
    0x7633_3038,
    0x7634_3038,
    0x7634_3130,
    0x4861_7031,
    0x4861_7035,
    0x4861_7059,
    0x4861_704d,
    0x4346_4844,
    0x4156_646e,
    0x4156_6468,
    0x6472_6163,
    0x7663_2d31,
    0x6d70_3176,
    0x6d70_3276,
    0x6d32_7631,
    0x6476_6831,
    0x6476_6865,
    0x6476_6131,
    0x6476_6176,
];

/// The codes of sound entries of QuickTime (QuickTime File Format, "Sound Media"), of 3GPP and 3GPP2, and of DTS, MLP,
/// AC-4, MPEG-H and uncompressed sound (ISO/IEC 23003-5): `twos`, `sowt`, `in24`, `in32`, `fl32`, `fl64`, `lpcm`,
/// `alaw`, `ulaw`, `ima4`, `MAC3`, `MAC6`, `.mp3`, `QDM2`, `QDMC`, `Qclp`, `agsm`, `NONE`, `dvca`, `samr`, `sawb`,
/// `sawp`, `sevc`, `sqcp`, `ssmv`, `dtsc`, `dtse`, `dtsh`, `dtsl`, `mlpa`, `ac-4`, `mha1`, `mha2`, `mhm1`, `mhm2`,
/// `ipcm` and `fpcm`, and `ms` with a number of Microsoft: 2, 17 and 85.
const MORE_SOUND: &[u32] = &[
    0x7477_6f73,
    0x736f_7774,
    0x696e_3234,
    0x696e_3332,
    0x666c_3332,
    0x666c_3634,
    0x6c70_636d,
    0x616c_6177,
    0x756c_6177,
    0x696d_6134,
    0x4d41_4333,
    0x4d41_4336,
    0x2e6d_7033,
    0x5144_4d32,
    0x5144_4d43,
    0x5163_6c70,
    0x6167_736d,
    0x4e4f_4e45,
    0x6476_6361,
    0x7361_6d72,
    0x7361_7762,
    0x7361_7770,
    0x7365_7663,
    0x7371_6370,
    0x7373_6d76,
    0x6474_7363,
    0x6474_7365,
    0x6474_7368,
    0x6474_736c,
    0x6d6c_7061,
    0x6163_2d34,
    0x6d68_6131,
    0x6d68_6132,
    0x6d68_6d31,
    0x6d68_6d32,
    0x6970_636d,
    0x6670_636d,
    0x6d73_0002,
    0x6d73_0011,
    0x6d73_0055,
];

/// The codes of items of iTunes: `aART`, `akID`, `apID`, `atID`, `catg`, `cmID`, `cnID`, `covr`, `cpil`, `cprt`,
/// `desc`, `disk`, `egid`, `geID`, `gnre`, `hdvd`, `keyw`, `ldes`, `ownr`, `pcst`, `pgap`, `plID`, `purd`, `purl`,
/// `rate`, `rtng`, `sfID`, `shwm`, `soaa`, `soal`, `soar`, `soco`, `sonm`, `sosn`, `stik`, `tmpo`, `trkn`, `tven`,
/// `tves`, `tvnn`, `tvsh`, `tvsn`, `xid ` and `----`.
const ITEMS: &[u32] = &[
    0x6141_5254,
    0x616b_4944,
    0x6170_4944,
    0x6174_4944,
    0x6361_7467,
    0x636d_4944,
    0x636e_4944,
    0x636f_7672,
    0x6370_696c,
    0x6370_7274,
    0x6465_7363,
    0x6469_736b,
    0x6567_6964,
    0x6765_4944,
    0x676e_7265,
    0x6864_7664,
    0x6b65_7977,
    0x6c64_6573,
    0x6f77_6e72,
    0x7063_7374,
    0x7067_6170,
    0x706c_4944,
    0x7075_7264,
    0x7075_726c,
    0x7261_7465,
    0x7274_6e67,
    0x7366_4944,
    0x7368_776d,
    0x736f_6161,
    0x736f_616c,
    0x736f_6172,
    0x736f_636f,
    0x736f_6e6d,
    0x736f_736e,
    0x7374_696b,
    0x746d_706f,
    0x7472_6b6e,
    0x7476_656e,
    0x7476_6573,
    0x7476_6e6e,
    0x7476_7368,
    0x7476_736e,
    0x7869_6420,
    0x2d2d_2d2d,
];

/// Returns whether `code` is one of `codes`.
fn is_in(codes: &[u32], code: u32) -> bool
    ensures { result ≡ list_any (λ c. code == c) codes.now }
{
    codes.contains(&code)
}

/// Returns whether `code` is that of a video entry besides those of `mp4_walk::is_video`.
#[tactic(auto, unfolding(crate::specs::EntryCodes::is_more_video))]
pub(crate) fn is_more_video(code: u32) -> bool
    ensures { result ≡ is_more_video code }
{
    is_in(MORE_VIDEO, code)
}

/// Returns whether `code` is that of a sound entry besides those of `mp4_walk::is_sound`.
#[tactic(auto, unfolding(crate::specs::EntryCodes::is_more_sound))]
pub(crate) fn is_more_sound(code: u32) -> bool
    ensures { result ≡ is_more_sound code }
{
    is_in(MORE_SOUND, code)
}

/// Returns whether `code` is that of an item of metadata in an `ilst`: the number of a key, a code of iTunes, or one
/// that begins with a copyright sign.
#[tactic(auto, unfolding(crate::specs::EntryCodes::is_item))]
pub(crate) fn is_item(code: u32) -> bool
    ensures { result ≡ is_item code }
{
    (0 < code && code < 0x1_0000) || (code / 0x100_0000 == 0xa9 || is_in(ITEMS, code))
}
