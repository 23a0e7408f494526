//! Runs of bytes, and strings.

ghost use Rattle.mp4_shown.specs.Members.{whole_run};
ghost use Rattle.mp4_shown.specs.Runs.{BytesName as SeenName, seen_bytes, shown_run};

use crate::bytes_name::{BytesName, put_bytes};
use crate::field_sink::{FieldSink, Result};
use crate::show::{NamedShape, ShowShape};
use crate::view::View;
use mp4_declared::{Array, Bytes, Count, Pascal, Rest, Terminated};
use mp4_frame::Entries;

impl NamedShape for Rest {
    type Value = Entries<u8>;

    type Names = BytesName;

    ghost Seen = { SeenName };

    ghost seen = { seen_bytes };

    ghost shown = { λ name view bytes. shown_run name view.rows bytes };

    ghost whole = { λ name view bytes. whole_run name view.rows bytes };
}

impl<'a> ShowShape<&'a [u8]> for Rest {
    ghost content = { λ run. run.now };

    fn show<K: FieldSink>(
        name: &BytesName,
        view: View,
        value: &&'a [u8],
        sink: &mut K,
    ) -> Result<()> {
        put_bytes(*name, view.rows, *value, sink)
    }
}

impl<C: Count> NamedShape for Bytes<C> {
    type Value = Entries<u8>;

    type Names = BytesName;

    ghost Seen = { SeenName };

    ghost seen = { seen_bytes };

    ghost shown = { λ name view bytes. shown_run name view.rows bytes };

    ghost whole = { λ name view bytes. whole_run name view.rows bytes };
}

impl<'a, C: Count> ShowShape<&'a [u8]> for Bytes<C> {
    ghost content = { λ run. run.now };

    fn show<K: FieldSink>(
        name: &BytesName,
        view: View,
        value: &&'a [u8],
        sink: &mut K,
    ) -> Result<()> {
        put_bytes(*name, view.rows, *value, sink)
    }
}

impl NamedShape for Terminated {
    type Value = Entries<u8>;

    type Names = BytesName;

    ghost Seen = { SeenName };

    ghost seen = { seen_bytes };

    ghost shown = { λ name view bytes. shown_run name view.rows bytes };

    ghost whole = { λ name view bytes. whole_run name view.rows bytes };
}

impl<'a> ShowShape<&'a [u8]> for Terminated {
    ghost content = { λ run. run.now };

    fn show<K: FieldSink>(
        name: &BytesName,
        view: View,
        value: &&'a [u8],
        sink: &mut K,
    ) -> Result<()> {
        put_bytes(*name, view.rows, *value, sink)
    }
}

impl<const N: usize> NamedShape for Pascal<N> {
    type Value = Entries<u8>;

    type Names = BytesName;

    ghost Seen = { SeenName };

    ghost seen = { seen_bytes };

    ghost shown = { λ name view bytes. shown_run name view.rows bytes };

    ghost whole = { λ name view bytes. whole_run name view.rows bytes };
}

impl<'a, const N: usize> ShowShape<&'a [u8]> for Pascal<N> {
    ghost content = { λ run. run.now };

    fn show<K: FieldSink>(
        name: &BytesName,
        view: View,
        value: &&'a [u8],
        sink: &mut K,
    ) -> Result<()> {
        put_bytes(*name, view.rows, *value, sink)
    }
}

impl<const N: usize> NamedShape for Array<N> {
    type Value = [u8; N];

    type Names = BytesName;

    ghost Seen = { SeenName };

    ghost seen = { seen_bytes };

    ghost shown = { λ name view bytes. shown_run name view.rows bytes };

    ghost whole = { λ name view bytes. whole_run name view.rows bytes };
}

impl<const N: usize> ShowShape<[u8; N]> for Array<N> {
    ghost content = { λ bytes. bytes };

    fn show<K: FieldSink>(
        name: &BytesName,
        view: View,
        value: &[u8; N],
        sink: &mut K,
    ) -> Result<()> {
        put_bytes(*name, view.rows, value, sink)
    }
}
