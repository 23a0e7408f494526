//! The fields of a file's type and of a movie's header.

ghost use Rattle.mp4_show.specs.BoxRows.{ftyp_row, mvhd_row};
ghost use Rattle.mp4_show.specs.Row.{shown_row, whole_row};
ghost use Rattle.mp4_show.specs.declared.fields.movie.TheConstants.{FTYP, MVHD};

use crate::box_fields::BoxFields;
use crate::row::{Part, field, put_row};
use mp4_shown::{FLAGS, FieldSink, NumberName, Result, VERSION, View, number};
use mp4_stream::{FtypBox, MvhdBox};

/// The fields of a file type (ISO/IEC 14496-12, 4.3).
const FTYP: &[NumberName] = &[
    field!("major_brand"),
    number!("minor_version"),
    field!("compatible_brands"),
];

impl BoxFields for FtypBox {
    ghost shown = { λ view b. shown_row FTYP.now (ftyp_row b) };

    ghost whole = { λ view b. whole_row FTYP.now (ftyp_row b) };

    fn show<K: FieldSink>(&self, _view: View, sink: &mut K) -> Result<()> {
        let parts = [
            Part::Code(self.major_brand),
            Part::U32(self.minor_version),
            Part::Codes(self.compatible_brands.as_slice()),
        ];
        put_row(FTYP, &parts, sink)
    }
}

/// The fields of a movie header (ISO/IEC 14496-12, 8.2.2). The standard has a sign in `rate` and `volume`.
const MVHD: &[NumberName] = &[
    VERSION,
    FLAGS,
    number!("creation_time", Date),
    number!("modification_time", Date),
    number!("timescale"),
    number!("duration"),
    number!("rate", Fixed(16)),
    number!("volume", Fixed(8)),
    field!("matrix"),
    number!("next_track_ID"),
];

impl BoxFields for MvhdBox {
    ghost shown = { λ view b. shown_row MVHD.now (mvhd_row b) };

    ghost whole = { λ view b. whole_row MVHD.now (mvhd_row b) };

    fn show<K: FieldSink>(&self, _view: View, sink: &mut K) -> Result<()> {
        let parts = [
            Part::U8(self.version),
            Part::U32(self.flags),
            Part::U64(self.creation_time),
            Part::U64(self.modification_time),
            Part::U32(self.timescale),
            Part::U64(self.duration),
            Part::I32(self.rate.raw_value().cast_signed()),
            Part::I16(self.volume.raw_value().cast_signed()),
            Part::Matrix(&self.matrix),
            Part::U32(self.next_track_id),
        ];
        put_row(MVHD, &parts, sink)
    }
}
