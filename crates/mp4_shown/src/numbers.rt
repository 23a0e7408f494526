//! Unsigned numbers, times, and reserved bytes.

ghost use Rattle.std.proofs.Common.{refl};
ghost use Rattle.std.specs.Prelude.{[]};
ghost use Rattle.mp4_shown.specs.Members.{whole_number};
ghost use Rattle.mp4_shown.specs.Numbers.{NumberName as SeenName, seen_number, shown_number};

use crate::field_sink::{FieldSink, Result};
use crate::number_name::{NumberName, put_number};
use crate::show::{NamedShape, ShowShape};
use crate::view::View;
use mp4_declared::{Time, U8, U16, U24, U32, U64, Zeros};

impl NamedShape for U8 {
    type Value = u8;

    type Names = NumberName;

    ghost Seen = { SeenName };

    ghost seen = { seen_number };

    ghost shown = { λ name view n. shown_number name n };

    ghost whole = { λ name view n. whole_number name n };
}

impl ShowShape<u8> for U8 {
    ghost content = { λ n. n };

    #[inline]
    fn show<K: FieldSink>(name: &NumberName, _view: View, value: &u8, sink: &mut K) -> Result<()> {
        put_number(*name, u64::from(*value), sink)
    }
}

impl NamedShape for U16 {
    type Value = u16;

    type Names = NumberName;

    ghost Seen = { SeenName };

    ghost seen = { seen_number };

    ghost shown = { λ name view n. shown_number name n };

    ghost whole = { λ name view n. whole_number name n };
}

impl ShowShape<u16> for U16 {
    ghost content = { λ n. n };

    #[inline]
    fn show<K: FieldSink>(name: &NumberName, _view: View, value: &u16, sink: &mut K) -> Result<()> {
        put_number(*name, u64::from(*value), sink)
    }
}

impl NamedShape for U24 {
    type Value = u32;

    type Names = NumberName;

    ghost Seen = { SeenName };

    ghost seen = { seen_number };

    ghost shown = { λ name view n. shown_number name n };

    ghost whole = { λ name view n. whole_number name n };
}

impl ShowShape<u32> for U24 {
    ghost content = { λ n. n };

    #[inline]
    fn show<K: FieldSink>(name: &NumberName, _view: View, value: &u32, sink: &mut K) -> Result<()> {
        put_number(*name, u64::from(*value), sink)
    }
}

impl NamedShape for U32 {
    type Value = u32;

    type Names = NumberName;

    ghost Seen = { SeenName };

    ghost seen = { seen_number };

    ghost shown = { λ name view n. shown_number name n };

    ghost whole = { λ name view n. whole_number name n };
}

impl ShowShape<u32> for U32 {
    ghost content = { λ n. n };

    #[inline]
    fn show<K: FieldSink>(name: &NumberName, _view: View, value: &u32, sink: &mut K) -> Result<()> {
        put_number(*name, u64::from(*value), sink)
    }
}

impl NamedShape for U64 {
    type Value = u64;

    type Names = NumberName;

    ghost Seen = { SeenName };

    ghost seen = { seen_number };

    ghost shown = { λ name view n. shown_number name n };

    ghost whole = { λ name view n. whole_number name n };
}

impl ShowShape<u64> for U64 {
    ghost content = { λ n. n };

    #[inline]
    fn show<K: FieldSink>(name: &NumberName, _view: View, value: &u64, sink: &mut K) -> Result<()> {
        put_number(*name, *value, sink)
    }
}

impl NamedShape for Time {
    type Value = u64;

    type Names = NumberName;

    ghost Seen = { SeenName };

    ghost seen = { seen_number };

    ghost shown = { λ name view n. shown_number name n };

    ghost whole = { λ name view n. whole_number name n };
}

impl ShowShape<u64> for Time {
    ghost content = { λ n. n };

    #[inline]
    fn show<K: FieldSink>(name: &NumberName, _view: View, value: &u64, sink: &mut K) -> Result<()> {
        put_number(*name, *value, sink)
    }
}

/// Reserved bytes aren't shown.
impl<const N: usize> NamedShape for Zeros<N> {
    type Value = ();

    type Names = ();

    ghost Seen = { Unit {0} };

    ghost seen = { λ names. names };

    ghost shown = { λ names view v. [] };

    ghost whole = { λ names view v s. refl };
}

impl<const N: usize> ShowShape<()> for Zeros<N> {
    ghost content = { λ v. v };

    #[inline]
    fn show<K: FieldSink>(_names: &(), _view: View, _value: &(), _sink: &mut K) -> Result<()> {
        Ok(())
    }
}
