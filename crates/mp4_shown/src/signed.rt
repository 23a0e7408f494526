//! Signed numbers and times.

ghost use Rattle.mp4_shown.specs.Members.{whole_signed};
ghost use Rattle.mp4_shown.specs.Numbers.{NumberName as SeenName, seen_number, shown_signed};

use crate::field_sink::{FieldSink, Result};
use crate::number_name::{NumberName, put_signed};
use crate::show::{NamedShape, ShowShape};
use crate::view::View;
use mp4_declared::{I8, I16, I32, SignedTime};

impl NamedShape for I8 {
    type Value = i8;

    type Names = NumberName;

    ghost Seen = { SeenName };

    ghost seen = { seen_number };

    ghost shown = { λ name view z. shown_signed name z };

    ghost whole = { λ name view z. whole_signed name z };
}

impl ShowShape<i8> for I8 {
    ghost content = { λ z. z };

    #[inline]
    fn show<K: FieldSink>(name: &NumberName, _view: View, value: &i8, sink: &mut K) -> Result<()> {
        put_signed(*name, i64::from(*value), sink)
    }
}

impl NamedShape for I16 {
    type Value = i16;

    type Names = NumberName;

    ghost Seen = { SeenName };

    ghost seen = { seen_number };

    ghost shown = { λ name view z. shown_signed name z };

    ghost whole = { λ name view z. whole_signed name z };
}

impl ShowShape<i16> for I16 {
    ghost content = { λ z. z };

    #[inline]
    fn show<K: FieldSink>(name: &NumberName, _view: View, value: &i16, sink: &mut K) -> Result<()> {
        put_signed(*name, i64::from(*value), sink)
    }
}

impl NamedShape for I32 {
    type Value = i32;

    type Names = NumberName;

    ghost Seen = { SeenName };

    ghost seen = { seen_number };

    ghost shown = { λ name view z. shown_signed name z };

    ghost whole = { λ name view z. whole_signed name z };
}

impl ShowShape<i32> for I32 {
    ghost content = { λ z. z };

    #[inline]
    fn show<K: FieldSink>(name: &NumberName, _view: View, value: &i32, sink: &mut K) -> Result<()> {
        put_signed(*name, i64::from(*value), sink)
    }
}

impl NamedShape for SignedTime {
    type Value = i64;

    type Names = NumberName;

    ghost Seen = { SeenName };

    ghost seen = { seen_number };

    ghost shown = { λ name view z. shown_signed name z };

    ghost whole = { λ name view z. whole_signed name z };
}

impl ShowShape<i64> for SignedTime {
    ghost content = { λ z. z };

    #[inline]
    fn show<K: FieldSink>(name: &NumberName, _view: View, value: &i64, sink: &mut K) -> Result<()> {
        put_signed(*name, *value, sink)
    }
}
