//! Lists of pieces of bytes, one after the other. The front of a piece says how long it is.

ghost use Rattle.std.specs.Prelude.{◌≡◌, ℕ, ◌≤◌, List, OnOk, length, option_map};
ghost use Rattle.mp4_shown.specs.Event.{Event};
ghost use Rattle.mp4_shown.specs.Hands.{Hands};
ghost use Rattle.mp4_shown.specs.Lists.{entry_of, seen_list};
ghost use Rattle.mp4_shown.specs.Members.{AreMembers};
ghost use Rattle.mp4_shown.specs.Pieces.{PiecesNames as SeenNames, bytes_after, piece_entries, pieces_whole};
ghost use Rattle.mp4_shown.specs.Pieces.{shown_pieces, whole_pieces};
ghost use Rattle.mp4_shown.specs.Runs.{seen_bytes};
ghost use Rattle.mp4_shown.specs.declared.view.View.{View};

use crate::bytes_name::{BytesName, put_bytes};
use crate::field_sink::{FieldSink, Result};
use crate::list_name::{ListName, begin};
use crate::show::{NamedShape, ShowShape};
use crate::view::View;
use mp4_frame::{Entries, bytes_from};

/// A kind of pieces.
pub trait Pieces: Copy + Drop {
    /// The number of bytes of the piece at the front of some bytes.
    ghost size_of: { Self → List ℕ → ℕ };

    /// The events of the piece at the front of some bytes, for a view: the members of an entry.
    ghost shown: { Self → View → List ℕ → List Event };

    /// They are whole members.
    ghost whole: { (pieces : Self) (view : View) (bytes : List ℕ) → AreMembers (shown pieces view bytes) };

    /// Returns the number of bytes of the piece at the front of `bytes`. The piece isn't whole if these are fewer.
    fn size(&self, bytes: &[u8]) -> usize
        ensures { result ≡ size_of self.now bytes.now };

    /// Hands the fields of the piece at the front of `bytes` to a sink.
    fn show<K: FieldSink>(&self, view: View, bytes: &[u8], sink: &mut K) -> Result<()>
        requires { size_of self.now bytes.now ≤ length bytes.now }
        ensures { OnOk result (Hands K.trace K.after sink.old (shown self.now view bytes.now) sink.new) };
}

/// Returns the bytes after `count` pieces at the front of `bytes`, or `None` if a piece isn't whole.
fn bytes_after<'a, P: Pieces>(pieces: &P, count: usize, bytes: &'a [u8]) -> Option<&'a [u8]>
    ensures { option_map (λ rest. rest.now) result ≡ bytes_after (P.size_of pieces.now) count bytes.now }
{
    let mut rest = bytes;
    let mut left = count;
    while left > 0 {
        let size = pieces.size(rest);
        if size > rest.len() {
            return None;
        }
        rest = bytes_from(rest, size as u64);
        left -= 1;
    }
    Some(rest)
}

/// Hands the piece at the front of `bytes` to a sink, as an entry.
fn put_piece<P: Pieces, K: FieldSink>(
    pieces: &P,
    view: View,
    bytes: &[u8],
    sink: &mut K,
) -> Result<()>
    requires { P.size_of pieces.now bytes.now ≤ length bytes.now }
    ensures { OnOk result (Hands K.trace K.after sink.old (entry_of (P.shown pieces.now view bytes.now)) sink.new) }
{
    sink.begin_entry()?;
    pieces.show(view, bytes, sink)?;
    sink.end_entry()
}

/// Hands the first `count` pieces to a sink, up to one that isn't whole.
fn put_pieces<P: Pieces, K: FieldSink>(
    pieces: &P,
    view: View,
    count: usize,
    bytes: &[u8],
    sink: &mut K,
) -> Result<()>
    ensures { OnOk result (Hands K.trace K.after sink.old
        (piece_entries (P.size_of pieces.now) (P.shown pieces.now view) count bytes.now) sink.new) }
{
    let mut rest = bytes;
    let mut left = count;
    while left > 0 {
        let size = pieces.size(rest);
        if size > rest.len() {
            return Ok(());
        }
        put_piece(pieces, view, rest, sink)?;
        rest = bytes_from(rest, size as u64);
        left -= 1;
    }
    Ok(())
}

/// A number of pieces `P` and their bytes, for showing only. If a piece isn't whole, the bytes are shown, under the
/// second name. Bytes after the pieces have the third name.
pub struct PiecesOf<P>(P);

impl<P: Pieces> NamedShape for PiecesOf<P> {
    type Value = (P, (usize, Entries<u8>));

    type Names = (ListName, (BytesName, BytesName));

    ghost Seen = { SeenNames };

    ghost seen = { λ names. (seen_list names.0, (seen_bytes names.1.0, seen_bytes names.1.1)) };

    ghost shown = { λ names view v. shown_pieces names (P.size_of v.0) (P.shown v.0 view) view.rows v.1.0 v.1.1 };

    ghost whole = { λ names view v. pieces_whole names (P.size_of v.0) (P.shown v.0 view) (P.whole v.0 view) view.rows
        v.1.0 v.1.1 };
}

/// Hands `count` pieces and the bytes after them to a sink.
fn put_whole<P: Pieces, K: FieldSink>(
    names: (ListName, (BytesName, BytesName)),
    view: View,
    pieces: &P,
    count: usize,
    bytes: &[u8],
    rest: &[u8],
    sink: &mut K,
) -> Result<()>
    ensures { OnOk result (Hands K.trace K.after sink.old
        (whole_pieces (seen_list names.entry.0, (seen_bytes names.entry.1.0, seen_bytes names.entry.1.1))
        (P.size_of pieces.now) (P.shown pieces.now view) view.rows count bytes.now rest.now) sink.new) }
{
    begin(names.0, count, sink)?;
    put_pieces(pieces, view, count.min(view.rows), bytes, sink)?;
    sink.end_list()?;
    put_bytes(names.1.1, view.rows, rest, sink)
}

impl<'a, P: Pieces> ShowShape<(P, (usize, &'a [u8]))> for PiecesOf<P> {
    ghost content = { λ v. (v.0, (v.1.0, v.1.1.now)) };

    fn show<K: FieldSink>(
        names: &(ListName, (BytesName, BytesName)),
        view: View,
        value: &(P, (usize, &'a [u8])),
        sink: &mut K,
    ) -> Result<()> {
        let (pieces, (count, bytes)) = *value;
        match bytes_after(&pieces, count, bytes) {
            Some(rest) => put_whole(*names, view, &pieces, count, bytes, rest, sink),
            None => put_bytes(names.1.0, view.rows, bytes, sink),
        }
    }
}
