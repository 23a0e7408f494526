//! Tests of the conversions of codes.

use mp4_stream::{BoxType, Error, FourCC};
use std::test::Fail;

fn is_invalid(text: &str) -> bool {
    let code: Result<FourCC, Error> = text.parse();
    matches!(code, Err(Error::InvalidData(_)))
}

/// Returns whether texts that do not have four bytes are invalid as codes.
fn other_texts_are_no_codes() -> bool {
    is_invalid("iso") && is_invalid("isomx") && is_invalid("") && is_invalid("is\u{e9}o")
}

/// Returns whether a number is converted to a code and to a name, and both are converted back.
fn numbers_are_codes() -> bool {
    let ftyp = FourCC::from(0x6674_7970);
    u32::from(&ftyp) == 0x6674_7970
        && FourCC::from(BoxType::FtypBox) == ftyp
        && BoxType::from(0x6674_7970) == BoxType::FtypBox
        && u32::from(BoxType::from(0x6674_7970)) == 0x6674_7970
        && u32::from(BoxType::UnknownBox(0x6674_7970)) == 0x6674_7970
}

#[test]
fn texts_and_numbers_are_codes(rt: HostRuntime) -> Result<(), Fail> {
    let isom: FourCC = "isom".parse()?;
    assert_eq!(rt; isom.value, *b"isom");
    assert_eq!(rt; FourCC::default().value, [0; 4]);
    assert!(rt; other_texts_are_no_codes());
    assert!(rt; numbers_are_codes());
    Ok(())
}
