//! The handler reference box.

ghost use Rattle.mp4_extra_tracks.specs.HandlerName.{handler_name_shape};
ghost use Rattle.mp4_extra_tracks.specs.HandlerNameLaws.{handler_name_laws};
ghost use Rattle.mp4_extra_tracks.specs.ShownHandler.{after_count, is_bare, is_counted, is_usual, says_all};
ghost use Rattle.mp4_extra_tracks.specs.ShownHandler.{shown_name, shown_set_code, whole_name, whole_set_code};
ghost use Rattle.mp4_extra_tracks.specs.declared.hdlr.TheConstants.{NAMES};
ghost use Rattle.mp4_frame.specs.declared.codes.TheConstants as codes;
ghost use Rattle.mp4_shown.specs.Event.{Text, seen_text};
ghost use Rattle.mp4_shown.specs.Runs.{BytesName as SeenName, is_ended, seen_bytes, unended};
ghost use Rattle.std.proofs.Common.{refl, lit<};
ghost use Rattle.std.specs.Prelude.{◌≡◌};
ghost use Rattle.std.specs.Str.{is_utf8};
ghost use Rattle.mp4_declared.specs.OwnBox.{layout_of};

mod taken;

use mp4_declared::{
    Code, Context, Declared, DeclaredBox, Last, PutShape, Rest, Shape, ShapeVisitor, U8, U24, U32,
    box_of, parts_of,
};
use mp4_frame::{Entries, FourCC, Result, TryClone, bytes_from, check, codes, put_bytes};
use mp4_shown::{
    BytesName, FLAGS, FieldSink, HasFields, NamedShape, ShowShape, VERSION, Value, View, number,
    run, show_shape,
};
use std::alloc::Global;

/// The handler of media or of metadata (`hdlr`, QuickTime File Format, and ISO/IEC 14496-12, 8.4.3).
#[derive(Debug, Drop, PartialEq, Eq)]
pub struct Hdlr {
    /// 0 in the standard.
    pub version: u8,
    /// 24 bits, 0 in the standard.
    pub flags: u32,
    /// 0 in the standard (`pre_defined`). In QuickTime `mhlr` for a handler of media, `dhlr` for one of data.
    pub component_type: FourCC,
    /// The kind of the media or of the metadata, such as `vide`, `soun`, `text` or `mdir`. QuickTime calls it component
    /// subtype.
    pub handler_type: FourCC,
    /// 0 in the standard. QuickTime reserves it, and its files have a code such as `appl`.
    pub component_manufacturer: FourCC,
    /// 0 in the standard.
    pub component_flags: u32,
    /// 0 in the standard.
    pub component_flags_mask: u32,
    /// The name, for people, with what says where it ends: a byte of 0 after it in the standard, or its number of bytes
    /// in a byte before it in QuickTime. So it has at least one byte. Some files have neither. `text` returns the name
    /// itself.
    pub name: Entries<u8>,
}

/// The bytes of a name with its end or its count: all bytes up to the end of the box, at least one.
pub struct HandlerName;

impl Shape for HandlerName {
    type Value = Entries<u8>;

    ghost shape = { handler_name_shape };

    ghost shape_laws = { handler_name_laws };

    #[inline]
    fn is_fixed() -> bool {
        false
    }

    #[inline]
    fn front(_context: Context) -> usize {
        0
    }

    #[inline]
    fn read(
        alloc: Global,
        bytes: &[u8],
        at: usize,
        end: u64,
        context: Context,
    ) -> Result<(Entries<u8>, usize)> {
        check((at as u64) < end, "hdlr size too small")?;
        Rest::read(alloc, bytes, at, end, context)
    }
}

impl<'a> PutShape<&'a [u8]> for HandlerName {
    ghost content = { λ name. name.now };

    #[inline]
    fn size(_context: Context, value: &'a [u8]) -> u64 {
        value.len() as u64
    }

    #[inline]
    fn fits(_context: Context, value: &'a [u8]) -> bool {
        !value.is_empty()
    }

    #[inline]
    fn put(out: &mut [u8], at: usize, _context: Context, value: &'a [u8]) -> usize {
        put_bytes(out, at, value)
    }
}

/// The content of the box: two numbers, three codes, two numbers, and the bytes of the name. Any version is read.
pub type HdlrShape = (U8, U24, Code, Code, (Code, U32, U32, Last<HandlerName>));

impl DeclaredBox for Hdlr {
    ghost use Rattle.mp4_extra_tracks.specs.contracts.hdlr.Hdlr.{struct};

    type Shape = HdlrShape;

    ghost CODE = { codes.HDLR };

    ghost layout = { layout_of struct (λ _. tt) (λ _. refl) (lit< tt) };

    const CODE: u32 = codes::HDLR;

    fn from_content(found: <HdlrShape as Shape>::Value) -> Hdlr {
        box_of!(found => Hdlr { version, flags, component_type, handler_type, component_manufacturer,
            component_flags, component_flags_mask, name })
    }

    fn visit<Q: ShapeVisitor<Self::Shape>>(&self, out: &mut [u8]) -> Q::Answer {
        let parts =
            parts_of!(self => version, flags, component_type, handler_type, component_manufacturer,
            component_flags, component_flags_mask, name.as_slice());
        Q::visit(parts, out)
    }

    ghost valid = { refl };
}

/// Returns whether the last of `bytes` is a 0.
fn is_ended(bytes: &[u8]) -> bool
    ensures { result ≡ is_ended bytes.now }
{
    !bytes.is_empty() && bytes[bytes.len() - 1] == 0
}

/// Returns whether the name `bytes` is counted: whether its first byte is the number of those after it, with or without
/// a byte of 0 that ends them.
fn is_counted(bytes: &[u8]) -> bool
    ensures { result ≡ is_counted bytes.now }
{
    2 <= bytes.len()
        && (usize::from(bytes[0]) == bytes.len() - 1
            || (is_ended(bytes) && usize::from(bytes[0]) == bytes.len() - 2))
}

/// Returns the name `bytes` without its count.
fn after_count(bytes: &[u8]) -> &[u8]
    ensures { result.now ≡ after_count bytes.now }
{
    if is_counted(bytes) {
        bytes_from(bytes, 1)
    } else {
        bytes
    }
}

/// Returns whether no byte of 0 ends the name `bytes`, and none has to, since it is counted.
fn is_bare(bytes: &[u8]) -> bool
    ensures { result ≡ is_bare bytes.now }
{
    is_counted(bytes) && !is_ended(bytes)
}

/// Returns `bytes` without a last byte of 0.
fn unended(bytes: &[u8]) -> &[u8]
    ensures { result.now ≡ unended bytes.now }
{
    if is_ended(bytes) {
        &bytes[..bytes.len() - 1]
    } else {
        bytes
    }
}

/// Returns the name in `bytes` without QuickTime's count, and without a byte of 0 that ends it. It may not be UTF-8.
pub fn name_text(bytes: &[u8]) -> &[u8]
    ensures { result.now ≡ unended (after_count bytes.now) }
{
    unended(after_count(bytes))
}

impl Hdlr {
    /// Returns the name without QuickTime's count, and without a byte of 0 that ends it. It may not be UTF-8.
    pub fn text(&self) -> &[u8]
        ensures { result.now ≡ unended (after_count self.now.name) }
    {
        name_text(self.name.as_slice())
    }
}

/// A code that is not shown if it is 0, for showing only.
pub struct SetCode;

impl NamedShape for SetCode {
    type Value = FourCC;

    type Names = &'static str;

    ghost Seen = { Text };

    ghost seen = { seen_text };

    ghost shown = { λ name view c. shown_set_code name.now c };

    ghost whole = { λ name view c. whole_set_code name.now c };
}

impl ShowShape<FourCC> for SetCode {
    ghost content = { λ c. c };

    fn show<K: FieldSink>(
        name: &&'static str,
        _view: View,
        value: &FourCC,
        sink: &mut K,
    ) -> mp4_shown::Result<()> {
        if u32::from(*value) == 0 {
            return Ok(());
        }
        sink.field(*name, Value::Code(*value))
    }
}

/// Returns whether the bytes of a name have the usual form: in the standard a byte of 0 ends them, and in QuickTime,
/// which has types of components, they are counted.
fn is_usual(component: FourCC, bytes: &[u8]) -> bool
    ensures { result ≡ is_usual component bytes.now }
{
    if u32::from(component) == 0 {
        is_ended(bytes) && !is_counted(bytes)
    } else {
        is_bare(bytes)
    }
}

/// Returns whether `bytes` are UTF-8.
#[tactic(auto, using(mp4_frame::specs::TextLaws::utf8_passes, mp4_frame::specs::TextLaws::other_fails))]
fn is_text(bytes: &[u8]) -> bool
    ensures { result ≡ is_utf8 bytes.now }
{
    match std::str::from_utf8(bytes) {
        Ok(_) => true,
        Err(_) => false,
    }
}

/// Returns whether all `bytes` of a name follow from its text.
fn says_all(component: FourCC, bytes: &[u8]) -> bool
    ensures { result ≡ says_all component bytes.now }
{
    is_usual(component, bytes) && is_text(name_text(bytes))
}

/// The type of the component and the bytes of the name, for showing only. The bytes are shown unless they follow from
/// the text.
pub struct NameShown;

impl NamedShape for NameShown {
    type Value = (FourCC, Entries<u8>);

    type Names = BytesName;

    ghost Seen = { SeenName };

    ghost seen = { seen_bytes };

    ghost shown = { λ name view v. shown_name name v.0 v.1 };

    ghost whole = { λ name view v. whole_name name v.0 v.1 };
}

impl<'a> ShowShape<(FourCC, &'a [u8])> for NameShown {
    ghost content = { λ v. (v.0, v.1.now) };

    fn show<K: FieldSink>(
        name: &BytesName,
        _view: View,
        value: &(FourCC, &'a [u8]),
        sink: &mut K,
    ) -> mp4_shown::Result<()> {
        let (component, bytes) = *value;
        sink.field(name.0, Value::Text(name_text(bytes)))?;
        if says_all(component, bytes) {
            return Ok(());
        }
        sink.field(name.2, Value::Bytes(bytes))
    }
}

/// The content of the box, for showing only.
pub type HdlrShown = (U8, U24, SetCode, Code, (SetCode, U32, U32, NameShown));

/// The names of the fields.
pub const NAMES: &<HdlrShown as NamedShape>::Names = &(
    VERSION,
    (
        FLAGS,
        (
            "component_type",
            (
                "handler_type",
                (
                    "component_manufacturer",
                    (
                        number!("component_flags", Reserved(0)),
                        (
                            number!("component_flags_mask", Reserved(0)),
                            run!("name", Ended),
                        ),
                    ),
                ),
            ),
        ),
    ),
);

impl HasFields for Hdlr {
    ghost shown = { λ view b. ⟦<HdlrShown as NamedShape>⟧.shown NAMES.now view (
      b.version,
      (
        b.flags,
        (
          b.component_type,
          (
            b.handler_type,
            (
              b.component_manufacturer,
              (b.component_flags, (b.component_flags_mask, (b.component_type, b.name))),
            ),
          ),
        ),
      ),
    ) };

    ghost whole = { λ view b. ⟦<HdlrShown as NamedShape>⟧.whole NAMES.now view (
      b.version,
      (
        b.flags,
        (
          b.component_type,
          (
            b.handler_type,
            (
              b.component_manufacturer,
              (b.component_flags, (b.component_flags_mask, (b.component_type, b.name))),
            ),
          ),
        ),
      ),
    ) };

    fn show<K: FieldSink>(&self, view: View, sink: &mut K) -> mp4_shown::Result<()> {
        let name = (self.component_type, self.name.as_slice());
        let flags = (self.component_flags, (self.component_flags_mask, name));
        let component = (self.handler_type, (self.component_manufacturer, flags));
        let parts = (self.version, (self.flags, (self.component_type, component)));
        show_shape::<HdlrShown, _, K>(NAMES, view, &parts, sink)
    }
}

impl TryClone for Hdlr {
    fn try_clone(&self) -> Result<Hdlr> {
        let name = self.name.try_clone()?;
        Ok(Hdlr { name, ..*self })
    }
}

/// The handler reference box.
pub type HdlrBox = Declared<Hdlr>;
