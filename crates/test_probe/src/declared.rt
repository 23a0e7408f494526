//! What is read of a box whose type is declared, and of the boxes of a stream as trees.

ghost use Rattle.std.specs.Prelude.{◌≤◌};

use crate::structure::{Leaf, Level};
use crate::{push_record, show};
use example_boxes::shapes::{
    LINS, LinesBox, NEST, NUMB, NestedBox, NumbersBox, OPTS, OUTR, OptionsBox, OuterBox, RANG,
    RUNS, RangeBox, RunsBox, STRS, StringsBox, TREP, TrepBox,
};
use mp4_box_tree::{AllBoxes, BoxTree, Container, Node};
use mp4_compose::{ChildBox, Lossless, StableBox};
use mp4_extra::ExtraBox;
use mp4_stream::{
    BoxHeader, BoxType, ByteCursor, Entries, ReadBox, Result as Read, StreamBox, WriteBox,
};
use std::alloc::{AllocError, Global};
use std::fmt::Debug;
use std::marker::PhantomData;

/// Appends two records: what was read as a box, with the cursor's position, and what this box is written in.
fn show_read<B: WriteBox + Debug>(
    alloc: Global,
    found: &Read<B>,
    reader: &ByteCursor,
    out: &mut Vec<u8>,
) -> Result<(), AllocError> {
    show(alloc, found, reader, out)?;
    let Ok(value) = found else {
        return push_record("", out);
    };
    let mut written = Vec::new(alloc);
    let result = value.write_box(&mut written);
    let text = format!(in alloc; "{result:?} {written:?}")?;
    push_record(&text, out)
}

/// Reads a `B` of the size `size`, whose content is at the cursor, and appends the two records of `show_read`.
fn show_as<B: ReadBox + WriteBox + Debug + Drop>(
    alloc: Global,
    size: u64,
    reader: &mut ByteCursor,
    out: &mut Vec<u8>,
) -> Result<(), AllocError>
    requires { 8 ≤ reader.old.position }
{
    let found = B::read_box(alloc, reader, size);
    show_read(alloc, &found, reader, out)
}

/// Reads the box called `name`, of the size `size`, as a `B`, and appends the two records of `show_read`. The records
/// are empty if `B` does not know `name`.
fn show_named<B: StreamBox + Debug>(
    alloc: Global,
    name: BoxType,
    size: u64,
    reader: &mut ByteCursor,
    out: &mut Vec<u8>,
) -> Result<(), AllocError>
    requires { 8 ≤ reader.old.position }
{
    if !B::knows(name) {
        push_record("", out)?;
        return push_record("", out);
    }
    let found = B::read_named(alloc, name, reader, size);
    show_read(alloc, &found, reader, out)
}

/// Appends the two records of a box with the code `code`: one of `test_boxes` that holds lists, or another box. Three
/// functions have three arms each: the time of a proof grows faster than the number of arms.
fn show_lists(
    alloc: Global,
    code: u32,
    size: u64,
    reader: &mut ByteCursor,
    out: &mut Vec<u8>,
) -> Result<(), AllocError>
    requires { 8 ≤ reader.old.position }
{
    match code {
        LINS => show_as::<LinesBox>(alloc, size, reader, out),
        NEST => show_as::<NestedBox>(alloc, size, reader, out),
        RUNS => show_as::<RunsBox>(alloc, size, reader, out),
        code => show_numbers(alloc, code, size, reader, out),
    }
}

/// Appends the two records of a box with the code `code`: one of `test_boxes` that holds numbers, or another box.
fn show_numbers(
    alloc: Global,
    code: u32,
    size: u64,
    reader: &mut ByteCursor,
    out: &mut Vec<u8>,
) -> Result<(), AllocError>
    requires { 8 ≤ reader.old.position }
{
    match code {
        NUMB => show_as::<NumbersBox>(alloc, size, reader, out),
        OPTS => show_as::<OptionsBox>(alloc, size, reader, out),
        RANG => show_as::<RangeBox>(alloc, size, reader, out),
        code => show_parents(alloc, code, size, reader, out),
    }
}

/// Appends the two records of a box with the code `code`: one of `test_boxes` that holds strings or boxes, or one of
/// `mp4_extra`.
fn show_parents(
    alloc: Global,
    code: u32,
    size: u64,
    reader: &mut ByteCursor,
    out: &mut Vec<u8>,
) -> Result<(), AllocError>
    requires { 8 ≤ reader.old.position }
{
    match code {
        OUTR => show_as::<OuterBox>(alloc, size, reader, out),
        STRS => show_as::<StringsBox>(alloc, size, reader, out),
        TREP => show_as::<TrepBox>(alloc, size, reader, out),
        code => show_named::<ExtraBox>(alloc, BoxType::UnknownBox(code), size, reader, out),
    }
}

/// Appends two records of the box whose header is at the cursor. They are empty if its type isn't declared in
/// `mp4_extra` or `test_boxes`.
pub(crate) fn show_declared(
    alloc: Global,
    reader: &mut ByteCursor,
    out: &mut Vec<u8>,
) -> Result<(), AllocError> {
    let Ok(BoxHeader { name, size }) = BoxHeader::read(reader) else {
        push_record("", out)?;
        return push_record("", out);
    };
    match name {
        BoxType::UnknownBox(code) => show_lists(alloc, code, size, reader, out),
        name => show_named::<ExtraBox>(alloc, name, size, reader, out),
    }
}

/// The code of the box in which trees are written, `moov`, which has no fields before them.
const MOOV: u32 = 0x6d6f_6f76;

/// Writes `boxes` inside a `moov`, and appends a record: the result, and the bytes after the header of the `moov`.
/// Appends their structure to `structure`.
fn show_children<B: ChildBox + Level>(
    alloc: Global,
    boxes: Vec<B>,
    structure: &mut Vec<u8>,
    out: &mut Vec<u8>,
) -> Result<(), AllocError> {
    B::push_structure(alloc, &boxes, structure)?;
    let tree = Container {
        code: MOOV,
        fields: Entries::new(alloc),
        boxes: boxes.into(),
    };
    let mut written = Vec::new(alloc);
    let size = tree
        .write_box(&mut written)
        .map(|size| size.saturating_sub(8));
    let content = written.get(8..).unwrap_or(&[]);
    let text = format!(in alloc; "{size:?} {content:?}")?;
    push_record(&text, out)
}

/// Reads the boxes of `content` that begin at `at` as `B`, and appends a record: what they are written in, or why they
/// can't be read. Appends their structure to `structure`. Asks two traits of `B`, since those of a tree are looked up
/// anew for each.
fn show_again<B: ChildBox + Level>(
    alloc: Global,
    content: &[u8],
    at: u64,
    structure: &mut Vec<u8>,
    out: &mut Vec<u8>,
) -> Result<(), AllocError> {
    match B::read_children(alloc, content, at) {
        Ok(boxes) => show_children(alloc, boxes, structure, out),
        Err(error) => {
            let text = format!(in alloc; "Err({error:?})")?;
            push_record(&text, out)
        }
    }
}

/// Trees of boxes of `B`, as deep as `BoxTree`.
type Trees<B> = Node<
    Node<Node<Node<Node<Node<Node<Node<Node<Lossless<B>, B>, B>, B>, B>, B>, B>, B>, B>,
    B,
>;

/// Calls `show_again` for trees of boxes of `B`. `_kind` names their type. The caller names the boxes only once, and so
/// its proof has their laws once and not at each level.
fn show_trees_of<B: StableBox + Leaf>(
    alloc: Global,
    _kind: PhantomData<Trees<B>>,
    content: &[u8],
    at: u64,
    structure: &mut Vec<u8>,
    out: &mut Vec<u8>,
) -> Result<(), AllocError> {
    show_again::<Trees<B>>(alloc, content, at, structure, out)
}

/// Reads the boxes of `content` that begin at `at` as trees, and appends a record: what they are written in, or why
/// they can't be read. Appends their structure to `structure`.
pub(crate) fn show_trees(
    alloc: Global,
    content: &[u8],
    at: u64,
    structure: &mut Vec<u8>,
    out: &mut Vec<u8>,
) -> Result<(), AllocError> {
    show_trees_of::<AllBoxes>(alloc, PhantomData::<BoxTree>, content, at, structure, out)
}
