//! Takes the codec's boxes back out of their JSON, by their name.

ghost use Rattle.json.specs.Json.{document};
ghost use Rattle.mp4_show.specs.TakenCodec.{CodecTaken, codec_document};
ghost use Rattle.mp4_shown.specs.TakenShapes.{document_as};
ghost use Rattle.mp4_shown.specs.Taking.{TakesAs};

mod chunks;
mod entries;
mod flat;
mod fragments;
mod language;
mod metadata;
mod shapes;
mod small;
mod sound;
mod tables;
mod take_box;
mod text;

use crate::taken::shapes::FieldsOf;
use crate::taken::take_box::TakeBox;
use mp4_frame::Holds;
use mp4_shown::taken::{Result, read_shape};
use mp4_stream::{
    AnyBox, Avc1Box, AvcCBox, BoxType, Co64Box, CttsBox, DataBox, DinfBox, DrefBox, ElstBox,
    EmsgBox, EsdsBox, FtypBox, HdlrBox, Hev1Box, HvcCBox, MdhdBox, MehdBox, MfhdBox, Mp4aBox,
    MvhdBox, SmhdBox, StcoBox, StscBox, StsdBox, StssBox, StszBox, SttsBox, TfdtBox, TfhdBox,
    TkhdBox, TrexBox, TrunBox, Tx3gBox, UrlBox, VmhdBox, Vp09Box, VpccBox,
};
use std::alloc::Global;

/// For the prover: what is taken of a box of each type.
pub trait TakenByType {
    ghost taken: { CodecTaken };
}

impl TakenByType for AnyBox {
    ghost taken = { record {
      ftyp = ⟦<FtypBox as TakeBox>⟧.taken;
      mvhd = ⟦<MvhdBox as TakeBox>⟧.taken;
      tkhd = ⟦<TkhdBox as TakeBox>⟧.taken;
      mdhd = ⟦<MdhdBox as TakeBox>⟧.taken;
      mehd = ⟦<MehdBox as TakeBox>⟧.taken;
      mfhd = ⟦<MfhdBox as TakeBox>⟧.taken;
      smhd = ⟦<SmhdBox as TakeBox>⟧.taken;
      vmhd = ⟦<VmhdBox as TakeBox>⟧.taken;
      trex = ⟦<TrexBox as TakeBox>⟧.taken;
      tfdt = ⟦<TfdtBox as TakeBox>⟧.taken;
      stco = ⟦<StcoBox as TakeBox>⟧.taken;
      co64 = ⟦<Co64Box as TakeBox>⟧.taken;
      stts = ⟦<SttsBox as TakeBox>⟧.taken;
      ctts = ⟦<CttsBox as TakeBox>⟧.taken;
      stss = ⟦<StssBox as TakeBox>⟧.taken;
      stsz = ⟦<StszBox as TakeBox>⟧.taken;
      stsc = ⟦<StscBox as TakeBox>⟧.taken;
      elst = ⟦<ElstBox as TakeBox>⟧.taken;
      tfhd = ⟦<TfhdBox as TakeBox>⟧.taken;
      trun = ⟦<TrunBox as TakeBox>⟧.taken;
      hdlr = ⟦<HdlrBox as TakeBox>⟧.taken;
      metadata = ⟦<DataBox as TakeBox>⟧.taken;
      emsg = ⟦<EmsgBox as TakeBox>⟧.taken;
      url = ⟦<UrlBox as TakeBox>⟧.taken;
      dref = ⟦<DrefBox as TakeBox>⟧.taken;
      dinf = ⟦<DinfBox as TakeBox>⟧.taken;
      avcc = ⟦<AvcCBox as TakeBox>⟧.taken;
      avc1 = ⟦<Avc1Box as TakeBox>⟧.taken;
      hvcc = ⟦<HvcCBox as TakeBox>⟧.taken;
      hev1 = ⟦<Hev1Box as TakeBox>⟧.taken;
      vpcc = ⟦<VpccBox as TakeBox>⟧.taken;
      vp09 = ⟦<Vp09Box as TakeBox>⟧.taken;
      tx3g = ⟦<Tx3gBox as TakeBox>⟧.taken;
      esds = ⟦<EsdsBox as TakeBox>⟧.taken;
      mp4a = ⟦<Mp4aBox as TakeBox>⟧.taken;
      stsd = ⟦<StsdBox as TakeBox>⟧.taken;
    } };
}

/// Returns the box of the type `T` whose JSON is `text`, as an `E`.
fn read_as<T: TakeBox, E: Holds<T>>(alloc: Global, text: &str) -> Result<Option<E>>
    ensures { TakesAs (λ b. b) result (document_as E.wrapped T.taken (document text.now)) }
{
    let value = read_shape::<FieldsOf<T>>(alloc, &(), text)?;
    Ok(Some(E::wrap(value)))
}

/// Returns the box called `name` whose JSON is `text`: an object with its fields, in any order. Returns `None` if the
/// codec reads no boxes of this name.
pub fn read_codec(alloc: Global, name: BoxType, text: &str) -> Result<Option<AnyBox>>
    ensures { TakesAs (λ b. b) result
        (codec_document ⟦<AnyBox as TakenByType>⟧.taken name (document text.now)) }
{
    match name {
        BoxType::FtypBox => read_as::<FtypBox, AnyBox>(alloc, text),
        BoxType::MvhdBox => read_as::<MvhdBox, AnyBox>(alloc, text),
        BoxType::TkhdBox => read_as::<TkhdBox, AnyBox>(alloc, text),
        BoxType::MdhdBox => read_as::<MdhdBox, AnyBox>(alloc, text),
        BoxType::MehdBox => read_as::<MehdBox, AnyBox>(alloc, text),
        BoxType::MfhdBox => read_as::<MfhdBox, AnyBox>(alloc, text),
        BoxType::SmhdBox => read_as::<SmhdBox, AnyBox>(alloc, text),
        BoxType::VmhdBox => read_as::<VmhdBox, AnyBox>(alloc, text),
        BoxType::TrexBox => read_as::<TrexBox, AnyBox>(alloc, text),
        BoxType::TfdtBox => read_as::<TfdtBox, AnyBox>(alloc, text),
        BoxType::StcoBox => read_as::<StcoBox, AnyBox>(alloc, text),
        BoxType::Co64Box => read_as::<Co64Box, AnyBox>(alloc, text),
        BoxType::SttsBox => read_as::<SttsBox, AnyBox>(alloc, text),
        BoxType::CttsBox => read_as::<CttsBox, AnyBox>(alloc, text),
        BoxType::StssBox => read_as::<StssBox, AnyBox>(alloc, text),
        BoxType::StszBox => read_as::<StszBox, AnyBox>(alloc, text),
        BoxType::StscBox => read_as::<StscBox, AnyBox>(alloc, text),
        BoxType::ElstBox => read_as::<ElstBox, AnyBox>(alloc, text),
        BoxType::TfhdBox => read_as::<TfhdBox, AnyBox>(alloc, text),
        BoxType::TrunBox => read_as::<TrunBox, AnyBox>(alloc, text),
        BoxType::HdlrBox => read_as::<HdlrBox, AnyBox>(alloc, text),
        BoxType::DataBox => read_as::<DataBox, AnyBox>(alloc, text),
        BoxType::EmsgBox => read_as::<EmsgBox, AnyBox>(alloc, text),
        BoxType::UrlBox => read_as::<UrlBox, AnyBox>(alloc, text),
        BoxType::DrefBox => read_as::<DrefBox, AnyBox>(alloc, text),
        BoxType::DinfBox => read_as::<DinfBox, AnyBox>(alloc, text),
        BoxType::AvcCBox => read_as::<AvcCBox, AnyBox>(alloc, text),
        BoxType::Avc1Box => read_as::<Avc1Box, AnyBox>(alloc, text),
        BoxType::HvcCBox => read_as::<HvcCBox, AnyBox>(alloc, text),
        BoxType::Hev1Box => read_as::<Hev1Box, AnyBox>(alloc, text),
        BoxType::VpccBox => read_as::<VpccBox, AnyBox>(alloc, text),
        BoxType::Vp09Box => read_as::<Vp09Box, AnyBox>(alloc, text),
        BoxType::Tx3gBox => read_as::<Tx3gBox, AnyBox>(alloc, text),
        BoxType::EsdsBox => read_as::<EsdsBox, AnyBox>(alloc, text),
        BoxType::Mp4aBox => read_as::<Mp4aBox, AnyBox>(alloc, text),
        BoxType::StsdBox => read_as::<StsdBox, AnyBox>(alloc, text),
        _ => Ok(None),
    }
}
