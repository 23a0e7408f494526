//! For enums of declared boxes: the declaration of a box as one value, calls that use it, and macros over the list of
//! the types of an enum. A list has the fields of a type, its variant, and its code.

ghost use Rattle.std.specs.Prelude.{◌≡◌, ℕ, ◌+◌, ◌-◌, ◌≤◌, List, OnOk, OnErr, length, max};
ghost use Rattle.mp4_frame.specs.Members.{some_box};
ghost use Rattle.mp4_frame.specs.Reading.{Answers, map_reading, reading};
ghost use Rattle.mp4_shown.specs.Catalogue.{Catalogue, Declaration, Declarations, declared_as, format_as, inside};
ghost use Rattle.mp4_shown.specs.Catalogue.{reads_as, shown, type_document};
ghost use Rattle.mp4_shown.specs.Hands.{Hands};
ghost use Rattle.mp4_shown.specs.TakenShapes.{document_made};
ghost use Rattle.mp4_shown.specs.Taking.{TakesAs};
ghost use Rattle.json.specs.Json.{document};

use crate::field_sink::FieldSink;
use crate::has_fields::HasFields;
use crate::taken::{self, TakeFields, read_box};
use crate::view::View;
use mp4_declared::{Declared, DeclaredBox};
use mp4_frame::{BoxVisitor, ByteCursor, Holds, Result, read_as};
use std::alloc::Global;

/// For the prover: the declaration of a box and of its fields.
pub trait Described {
    ghost CODE: { ℕ };

    ghost declaration: { Declaration CODE Self };
}

impl<T: DeclaredBox + HasFields + TakeFields> Described for T {
    ghost CODE = { T.CODE };

    ghost declaration = { declared_as T.Shape.shape_laws T.layout T.shown T.whole T.TakeFields.taken };
}

/// For the prover: an enum of declared boxes, with the declarations of all its types.
pub trait Catalogued: Sized {
    /// A type of its boxes.
    type Of: Copy;

    ghost catalogue: { Catalogue Self.Of Self };

    ghost declared: { Declarations catalogue };
}

/// Visits a declared box, like `BoxVisitor::visit`. It is faster to prove than a call of `Q::visit`, which repeats the
/// declaration of `T` for each trait of a box.
#[inline]
fn visit_declared<Q: BoxVisitor, T: DeclaredBox + HasFields + TakeFields>(
    value: &Declared<T>,
    out: &mut [u8],
) -> Q::Answer
    requires { Q.can_visit (some_box (format_as ⟦<T as Described>⟧.declaration) value.now) (length out.old) }
    ensures { Q.answers (some_box (format_as ⟦<T as Described>⟧.declaration) value.now) out.new result }
{
    Q::visit(value, out)
}

/// Visits `value`, the box inside `held`, like `BoxVisitor::visit`. An arm that calls it needs no answer.
#[inline]
pub fn visit_held<
    Q: BoxVisitor,
    T: DeclaredBox + HasFields + TakeFields,
    E: Catalogued + Holds<Declared<T>>,
>(held: &E, value: &Declared<T>, out: &mut [u8]) -> Q::Answer
    requires is { held.now ≡ E.wrapped value.now }
    requires can { Q.can_visit (inside E.catalogue E.declared held.now).box (length out.old) }
    requires can_alike { Q.can_visit (inside E.catalogue E.declared (E.wrapped value.now)).box (length out.old)
        → Q.can_visit (some_box (format_as ⟦<T as Described>⟧.declaration) value.now) (length out.old) }
    requires answers_alike { (bytes : List ℕ) (answer : Q.Answer)
        → Q.answers (some_box (format_as ⟦<T as Described>⟧.declaration) value.now) bytes answer
        → Q.answers (inside E.catalogue E.declared (E.wrapped value.now)).box bytes answer }
    ensures { Q.answers (inside E.catalogue E.declared held.now).box out.new result }
{
    visit_declared::<Q, T>(value, out)
}

/// Shows `value`, the box inside `held`, like `HasFields::show`. An arm that calls it needs no answer.
#[inline]
pub fn show_held<
    T: DeclaredBox + HasFields + TakeFields,
    E: Catalogued + Holds<Declared<T>>,
    K: FieldSink,
>(held: &E, value: &Declared<T>, view: View, sink: &mut K) -> crate::Result<()>
    requires is { held.now ≡ E.wrapped value.now }
    requires alike { shown E.catalogue E.declared view (E.wrapped value.now) ≡ T.shown view value.now }
    ensures { OnOk result (Hands K.trace K.after sink.old (shown E.catalogue E.declared view held.now) sink.new) }
{
    value.show(view, sink)
}

/// Reads a declared box, like `read_as`.
#[inline]
pub fn read_declared<T: DeclaredBox + HasFields + TakeFields, E: Holds<Declared<T>>>(
    alloc: Global,
    reader: &mut ByteCursor,
    size: u64,
) -> Result<E>
    requires after_header { 8 ≤ reader.old.position }
    ensures answer { Answers result (map_reading E.wrapped
        (reading (reads_as ⟦<T as Described>⟧.declaration) reader.old.bytes.now (reader.old.position - 8) size)) }
    ensures moved { OnOk result (reader.new.position ≡ reader.old.position - 8 + max 0 size) }
    ensures kept { OnErr result (reader.new.position ≡ reader.old.position) }
    ensures bytes { reader.new.bytes ≡ reader.old.bytes }
{
    read_as::<Declared<T>, E>(alloc, reader, size)
}

/// Returns the declared box with the fields of a `T` whose JSON is `text`, as an `E`.
#[inline]
fn take_as<T: TakeFields, E: Holds<Declared<T>>>(alloc: Global, text: &str) -> taken::Result<E>
    ensures { TakesAs (λ b. b) result (document_made E.wrapped T.taken (document text.now)) }
{
    let fields: T = read_box(alloc, text)?;
    Ok(E::wrap(Declared::new(fields)))
}

/// Returns the box of the type `of` whose JSON is `text`. The type is `kind`, whose fields are a `T`. An arm that
/// calls it needs no answer.
#[inline]
pub fn take_held<T: DeclaredBox + HasFields + TakeFields, E: Catalogued + Holds<Declared<T>>>(
    of: E::Of,
    kind: E::Of,
    alloc: Global,
    text: &str,
) -> taken::Result<E>
    requires is { of ≡ kind }
    requires alike { type_document E.catalogue E.declared kind (document text.now)
        ≡ document_made E.wrapped T.TakeFields.taken (document text.now) }
    ensures { TakesAs (λ b. b) result (type_document E.catalogue E.declared of (document text.now)) }
{
    take_as::<T, E>(alloc, text)
}

/// Matches on a value of the enum `$enum` with the same arm for each variant: it binds the box inside and evaluates the
/// expression.
#[macro_export]
macro_rules! each_held {
    ([$($fields:ident $held:ident $($code:ident)::+),*] $enum:ident, $value:expr, $inside:ident => $answer:expr) => {
        match $value {
            $($enum::$held($inside) => $answer,)*
        }
    };
}

/// Lists all types.
#[macro_export]
macro_rules! types_held {
    ([$($fields:ident $held:ident $($code:ident)::+),*] $types:ident) => {
        &[$($types::$held),*]
    };
}

/// Matches on a code with an arm for each type, which is the type.
#[macro_export]
macro_rules! type_by_code {
    ([$($fields:ident $held:ident $($code:ident)::+),*] $types:ident, $found:expr) => {
        match $found {
            $($($code)::+ => Some($types::$held),)*
            _ => None,
        }
    };
}

/// Matches on a value of the enum `$enum` with an arm for each variant, which visits the box inside.
#[macro_export]
macro_rules! visit_each {
    ([$($fields:ident $held:ident $($code:ident)::+),*] $visitor:ident, $enum:ident, $value:expr, $out:expr) => {
        match $value {
            $($enum::$held(inside) => $crate::visit_held::<$visitor, $fields, $enum>($value, inside, $out),)*
        }
    };
}

/// Matches on a value of the enum `$enum` with an arm for each variant, which shows the box inside.
#[macro_export]
macro_rules! show_each {
    ([$($fields:ident $held:ident $($code:ident)::+),*] $sink_type:ident, $enum:ident, $value:expr, $view:expr,
        $sink:expr) => {
        match $value {
            $($enum::$held(inside) => $crate::show_held::<$fields, $enum, $sink_type>($value, inside, $view, $sink),)*
        }
    };
}

/// Matches on a type with an arm for each type, which takes a box of this type out of JSON as a value of `$enum`.
#[macro_export]
macro_rules! take_by_type {
    ([$($fields:ident $held:ident $($code:ident)::+),*] $types:ident, $enum:ident, $of:expr, $alloc:expr,
        $text:expr) => {
        match $of {
            $($types::$held => $crate::take_held::<$fields, $enum>($of, $types::$held, $alloc, $text),)*
        }
    };
}

/// Prints a value of `$enum` as its variant, with the box inside.
#[macro_export]
macro_rules! print_held {
    ([$($fields:ident $held:ident $($code:ident)::+),*] $enum:ident, $value:expr, $f:expr) => {
        match $value {
            $($enum::$held(inside) => $f.debug_tuple(stringify!($held)).field(inside).finish(),)*
        }
    };
}
