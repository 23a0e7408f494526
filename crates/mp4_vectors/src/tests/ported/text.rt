//! The tests of the Rust crate for texts and data.

use mp4_stream::DataBox;
use std::test::Fail;
use test_shared::boxes::text::{
    DATA, EMSG, EMSG_LONG, FTYP, HDLR, data_box, emsg, emsg_long, ftyp, hdlr,
};
use test_shared::made;

#[test]
fn ftyp_and_hdlr(rt: HostRuntime) -> Result<(), Fail> {
    let alloc = rt.alloc();
    made::round_trip(alloc, ftyp(alloc), &FTYP).and(made::round_trip(alloc, hdlr(alloc), &HDLR))?;
    Ok(())
}

#[test]
fn data_and_data_empty(rt: HostRuntime) -> Result<(), Fail> {
    let alloc = rt.alloc();
    let empty = b"\0\0\0\x10data\0\0\0\0\0\0\0\0";
    made::round_trip(alloc, data_box(alloc), &DATA).and(made::round_trip(
        alloc,
        Ok(DataBox::default_in(alloc)),
        empty,
    ))?;
    Ok(())
}

#[test]
fn emsg_version0_and_emsg_version1(rt: HostRuntime) -> Result<(), Fail> {
    let alloc = rt.alloc();
    made::round_trip(alloc, emsg(alloc), &EMSG).and(made::round_trip(
        alloc,
        emsg_long(alloc),
        &EMSG_LONG,
    ))?;
    Ok(())
}
