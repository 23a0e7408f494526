//! Types that hold boxes of several types, such as an enum of them. They are read and written as these boxes are.

ghost use Rattle.std.specs.Prelude.{◌≡◌, ℕ, ◌+◌, ◌-◌, ◌^◌, ◌≤◌, ◌↔◌, min, max, IsTrue, List, length, OnOk, OnErr};
ghost use Rattle.mp4_frame.specs.Members.{Known, is_known, reading_known, format_held, NamedAsRead, SomeBox, some_box};
ghost use Rattle.mp4_frame.specs.Members.{Inside, held_inside};
ghost use Rattle.mp4_frame.specs.MemberLaws.{IsMember, written_member, own_name_of_member, read_back_of_member};
ghost use Rattle.mp4_frame.specs.Reading.{Answers};
ghost use Rattle.mp4_frame.specs.declared.box_type.BoxType.{BoxType};

use crate::box_type::BoxType;
use crate::byte_cursor::ByteCursor;
use crate::error::Result;
use crate::traits::{Mp4Box, StreamBox, WriteBox};
use std::alloc::Global;

/// A visitor, which answers a question about a box of any type.
pub trait BoxVisitor {
    /// The type of the answer.
    type Answer;

    /// The condition on the box and on the length of the slice under which the visitor may be called.
    ghost can_visit: { SomeBox → ℕ → Type 0 } = { λ _ _. Unit {0} };

    /// The relation between the box, the bytes of the slice after the call, and the answer.
    ghost answers: { SomeBox → List ℕ → Self.Answer → Type 0 };

    /// Returns the answer for the box `value`. An answer in bytes is put into `out`.
    fn visit<B: WriteBox>(value: &B, out: &mut [u8]) -> Self::Answer
        requires { can_visit (some_box B.format value.now) (length out.old) }
        ensures { answers (some_box B.format value.now) out.new result };
}

/// The visitor that returns a box's name.
struct Name;

impl BoxVisitor for Name {
    type Answer = BoxType;

    ghost answers = { λ box _ answer. answer ≡ box.format.name box.value };

    fn visit<B: WriteBox>(value: &B, _out: &mut [u8]) -> BoxType {
        value.box_type()
    }
}

/// The visitor that returns a box's size in bytes.
struct Size;

impl BoxVisitor for Size {
    type Answer = u64;

    ghost answers = { λ box _ answer. answer ≡ min (box.format.size box.value) (2 ^ 64 - 1) };

    fn visit<B: WriteBox>(value: &B, _out: &mut [u8]) -> u64 {
        value.box_size()
    }
}

/// The visitor that returns whether a box can be written.
struct CanWrite;

impl BoxVisitor for CanWrite {
    type Answer = bool;

    ghost answers = { λ box _ answer. IsTrue answer ↔ box.format.Writable box.value };

    fn visit<B: WriteBox>(value: &B, _out: &mut [u8]) -> bool {
        value.is_writable()
    }
}

/// The visitor that fills a slice with a box's bytes.
struct Put;

impl BoxVisitor for Put {
    type Answer = ();

    ghost can_visit = { λ box room. box.format.Writable box.value × (room ≡ box.format.size box.value) };

    ghost answers = { λ box out _. out ≡ box.format.bytes box.value };

    fn visit<B: WriteBox>(value: &B, out: &mut [u8]) {
        value.put_box(out)
    }
}

/// A type that holds boxes of several types, such as an enum of them. It is itself a box that can be in lists.
pub trait BoxEnum: Drop {
    /// The type of the boxes with a given name.
    ghost kinds: { BoxType → Known Self };

    /// The minimum number of bytes of a box with a given name, even if the box's size is smaller: the `LEAST` of its
    /// type.
    ghost least: { BoxType → ℕ } = { λ _. 0 };

    /// The box inside a value.
    ghost inside: { Self → Inside Self };

    /// The proof that each value is of one of these types.
    ghost members: { (v : Self) → IsMember kinds (held_inside inside) v };

    /// The proof that a box read under a name has a name of the same code, and is read alike under both names.
    ghost named: { NamedAsRead kinds (held_inside inside) };

    /// Returns whether the type holds boxes with the name `name`.
    fn holds(name: BoxType) -> bool
        ensures { result ≡ is_known (kinds name) };

    /// Reads the box with the name `name`, whose header was just read. `size` is the header's size. After an `Ok` the
    /// cursor is at the end of the box, which has at least `least name` bytes. After an `Err` the cursor is where it
    /// was.
    fn read(alloc: Global, name: BoxType, reader: &mut ByteCursor, size: u64) -> Result<Self>
        requires known { IsTrue (is_known (kinds name)) }
        requires after_header { 8 ≤ reader.old.position }
        ensures answer { Answers result
            (reading_known (kinds name) reader.old.bytes.now (reader.old.position - 8) size) }
        ensures moved { OnOk result (reader.new.position ≡ reader.old.position - 8 + max (least name) size) }
        ensures kept { OnErr result (reader.new.position ≡ reader.old.position) }
        ensures bytes { reader.new.bytes ≡ reader.old.bytes };

    /// Returns the answer of the visitor `Q` for the box inside. An answer in bytes is put into `out`.
    fn visit<Q: BoxVisitor>(&self, out: &mut [u8]) -> Q::Answer
        requires { Q.can_visit (inside self.now).box (length out.old) }
        ensures { Q.answers (inside self.now).box out.new result };
}

impl<E: BoxEnum> Mp4Box for E {
    ghost format = { format_held (held_inside E.inside) };

    fn box_type(&self) -> BoxType {
        self.visit::<Name>(&mut [])
    }

    fn box_size(&self) -> u64 {
        self.visit::<Size>(&mut [])
    }
}

impl<E: BoxEnum> WriteBox for E {
    fn is_writable(&self) -> bool {
        self.visit::<CanWrite>(&mut [])
    }

    fn put_box(&self, out: &mut [u8]) {
        self.visit::<Put>(out)
    }

    ghost write_laws = { written_member E.kinds (held_inside E.inside) E.members };
}

impl<E: BoxEnum> StreamBox for E {
    ghost known = { λ name. is_known (E.kinds name) };

    ghost named_reading = { λ name. reading_known (E.kinds name) };

    ghost least = { E.least };

    fn knows(name: BoxType) -> bool {
        E::holds(name)
    }

    fn read_named(alloc: Global, name: BoxType, reader: &mut ByteCursor, size: u64) -> Result<E> {
        E::read(alloc, name, reader, size)
    }

    ghost own_name = { own_name_of_member E.kinds (held_inside E.inside) E.members };

    ghost read_back = { read_back_of_member E.kinds (held_inside E.inside) E.members };
}
