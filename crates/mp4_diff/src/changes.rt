//! The differences between the boxes of two files.

ghost use Rattle.std.specs.Prelude.{◌≡◌, ◌==◌, ◌<◌, ◌&&◌, ◌++◌, ◌∷◌, [], not, List, IfOk, IfSome, OnOk, length};
ghost use Rattle.std.specs.Prelude.{◌||◌, if◌then◌else◌, map, nat_lt, vec_items};
ghost use Rattle.mp4_diff.specs.Differences.{AreDifferences, BoxDiffers, BoxesDiffer, PairDiffers, ShowsRows};
ghost use Rattle.mp4_diff.specs.Differences.{codes_of, compares_content, content_of, difference_of};
ghost use Rattle.mp4_diff.specs.Differences.{differences_of, entry_at, field_of, fields, first_at, has_content};
ghost use Rattle.mp4_diff.specs.Differences.{index_of, is_media, length_of, listed_what, only_second_in};
ghost use Rattle.mp4_diff.specs.Differences.{order_after, order_at, order_of, orders_with, partner_box, places};
ghost use Rattle.mp4_diff.specs.Differences.{places_of, row_side, second_at, side_of, with_bytes};
ghost use Rattle.mp4_content.specs.Fields.{is_quicktime};
ghost use Rattle.mp4_diff.specs.Pairs.{AreNumbers, is_top, partners_of, paths};
ghost use Rattle.mp4_diff.specs.RowChanges.{partner_row};
ghost use Rattle.mp4_diff.specs.Rows.{Puts, PutsFault, rows_of as all_rows, seen_row, state_of};
ghost use Rattle.mp4_walk.specs.FileBoxes.{boxes_of};
ghost use Rattle.mp4_walk.specs.declared.tree_box.TreeBox.{TreeBox};

use crate::bytes_differ::differs_at;
use crate::pairs::{Numbers, entered_path, is_rising, is_top, number_at, numbers_of, partners_of};
use crate::row_changes::{RowChange, first_unequal, row_at, row_changes};
use crate::rows::{Row, RowSink, has_offsets};
use mp4_content::{
    BoxPaths, Content, Part, Shown, content_of, fault_text, or_memory, put_content, size_of,
};
use mp4_frame::codes::MDAT;
use mp4_io::{Failure, or_read};
use mp4_shown::{FieldSink, Value};
use mp4_stream::{Error, FourCC};
use mp4_walk::{BoxState, BoxWalk, Source, TreeBox};
use std::alloc::Global;

/// The number of boxes that are listed of each order.
const LISTED: usize = 64;

/// The part of a field that one of two boxes has.
#[derive(Debug, Drop)]
pub struct Side {
    /// The number of entries of the list, or 1 for a value.
    pub count: u64,
    /// The JSON text of the value, or that of the first entry that differs. It is empty if there is no such entry.
    pub text: Vec<u8>,
}

/// A way in which two files differ at a path.
#[derive(Debug, Drop)]
pub enum What {
    /// Only the first file has the box.
    OnlyFirst,
    /// Only the second file has the box.
    OnlySecond,
    /// The value of the field with this name. A box may lack the field.
    Value(String, Option<Side>, Option<Side>),
    /// The list with this name, and the index of the first entry that differs.
    List(String, u64, Option<Side>, Option<Side>),
    /// The lengths of the media data.
    Length(u64, u64),
    /// The bytes of the contents, although no field differs: the position of the first one in the contents, and the
    /// lengths of these.
    Content(u64, u64, u64),
    /// The order of the boxes inside. Only the first boxes of a long one are listed.
    Order(Vec<Option<FourCC>>, Vec<Option<FourCC>>),
}

/// The differences of two files at a path.
#[derive(Debug, Drop)]
pub struct Change {
    /// The path of the box. It has no part for the file itself.
    pub path: Vec<Part>,
    /// The ways in which the files differ there.
    pub whats: Vec<What>,
}

/// A file that is compared.
#[derive(Drop)]
struct Compared<S: Source> {
    /// The walk over its boxes, which has ended.
    walk: BoxWalk<S>,
    /// All boxes.
    boxes: Vec<TreeBox>,
    /// Their numbers.
    numbers: Numbers,
}

/// A box of the first file.
#[derive(Drop)]
struct Placed {
    /// Its path.
    path: Vec<Part>,
    /// The box.
    found: TreeBox,
    /// The number of the box of the second file with the same path.
    partner: Option<usize>,
}

/// Reads the headers of all boxes of a source.
fn read_boxes<S: Source>(alloc: Global, source: S) -> Result<Compared<S>, Failure>
    ensures bytes { IfOk result (λ it. it.walk.bytes ≡ S.all source) }
    ensures boxes { IfSome (S.all source) (λ file. IfOk result (λ it. it.boxes.items ≡ boxes_of file)) }
    ensures numbers { IfOk result (λ it. AreNumbers it.boxes.items it.numbers) }
{
    let mut walk = or_read(BoxWalk::new(alloc, source))?;
    let boxes = or_read(walk.rest(alloc))?;
    let numbers = or_memory(numbers_of(alloc, &boxes))?;
    Ok(Compared {
        walk,
        boxes,
        numbers,
    })
}

/// Returns whether a box with the code `code` has media data, whose bytes are not compared.
fn is_media(code: Option<FourCC>) -> bool
    ensures { result ≡ is_media code }
{
    match code {
        Some(code) => u32::from(code) == MDAT,
        None => false,
    }
}

/// Returns whether the box has a header that says where it ends, so that it has a content.
fn has_content(found: &TreeBox) -> bool
    ensures { result ≡ has_content found.now.state }
{
    !matches!(found.state, BoxState::Small | BoxState::NoHeader)
}

/// Returns whether the contents of the boxes `first` and `second` are compared: not those of boxes that the walk
/// enters, of media data, and of boxes with offsets that are left aside.
fn compares_content(first: &TreeBox, second: &TreeBox, offsets: bool) -> bool
    ensures { result ≡ compares_content offsets first.now second.now }
{
    let is_entered = first.children.is_some() && second.children.is_some();
    !is_entered && !is_media(first.code) && (offsets || !has_offsets(first.code))
}

/// Sends the fault of a box to `sink`, as the field `fault`.
fn put_fault(
    alloc: Global,
    found: &TreeBox,
    fault: &Error,
    sink: &mut RowSink,
) -> mp4_show::Result<()>
    ensures { OnOk result (PutsFault (state_of sink.old) (state_of sink.new)) }
{
    let text = fault_text(alloc, found, fault)?;
    sink.field("fault", Value::Text(text.as_bytes()))
}

/// Sends the fields of a box to `sink`, or its fault as the field `fault`.
fn put_rows<B: Shown>(
    alloc: Global,
    found: &TreeBox,
    content: &Content<B>,
    sink: &mut RowSink,
) -> mp4_show::Result<()>
    ensures { OnOk result (Puts B.shown (is_quicktime found.now) content.now (state_of sink.old) (state_of sink.new)) }
{
    match content {
        Content::Faulty(fault) => put_fault(alloc, found, fault, sink),
        _ => put_content(content, found.context.stsd_version == 0, sink),
    }
}

/// Returns the fields of a box as rows.
fn rows_of<B: Shown, S: Source>(
    alloc: Global,
    walk: &mut BoxWalk<S>,
    found: &TreeBox,
    offsets: bool,
) -> Result<Vec<Row>, Failure>
    ensures rows { IfSome walk.old.bytes (λ file. IfOk result (λ rows.
        ShowsRows B.known B.named_reading B.shown offsets file found.now (all_rows rows.items))) }
    ensures kept { walk.new ≡ walk.old }
{
    let content = content_of::<B, S>(alloc, walk, found)?;
    let mut sink = RowSink::new(alloc, found.code, offsets);
    or_memory(put_rows(alloc, found, &content, &mut sink))?;
    Ok(sink.into_rows())
}

/// Returns the text of the entry `index`, which is empty if there is no such entry.
fn entry_text(alloc: Global, entries: &[Vec<u8>], index: usize) -> mp4_show::Result<Vec<u8>>
    ensures { IfOk result (λ text. text.items ≡ entry_at index (map vec_items entries.now)) }
{
    match entries.get(index) {
        Some(entry) => {
            let text = Vec::from_slice(alloc, entry.as_slice())?;
            Ok(text)
        }
        None => Ok(Vec::new(alloc)),
    }
}

/// Returns what a box has of a field that is the row `row`, with the text of the entry `index`.
fn side_of(alloc: Global, row: Option<&Row>, index: usize) -> mp4_show::Result<Option<Side>>
    ensures { IfOk result (λ side. side_of side ≡ row_side index (seen_row row.entry)) }
{
    let Some(row) = row else {
        return Ok(None);
    };
    let text = entry_text(alloc, &row.entries, index)?;
    Ok(Some(Side {
        count: row.entries.len() as u64,
        text,
    }))
}

/// Returns the index of the first entry that differs, or 0 if a box lacks the field.
fn index_of(first: Option<&Row>, second: Option<&Row>) -> usize
    ensures { result ≡ index_of (seen_row first.entry) (seen_row second.entry) }
{
    match (first, second) {
        (Some(first), Some(second)) => first_unequal(&first.entries, &second.entries),
        _ => 0,
    }
}

/// Returns how two boxes differ in a field that is the row `first` of one and `second` of the other. Returns `None` if
/// both are missing.
fn what_of(
    alloc: Global,
    first: Option<&Row>,
    second: Option<&Row>,
) -> mp4_show::Result<Option<What>>
    ensures { IfOk result (λ what. listed_what what ≡ field_of (seen_row first.entry) (seen_row second.entry)) }
{
    let Some(row) = first.or(second) else {
        return Ok(None);
    };
    let name = String::from_str(alloc, row.name.as_str())?;
    let index = index_of(first, second);
    let here = side_of(alloc, first, index)?;
    let there = side_of(alloc, second, index)?;
    Ok(Some(if row.is_list {
        What::List(name, index as u64, here, there)
    } else {
        What::Value(name, here, there)
    }))
}

/// Appends `what` to `whats`, if it is a difference.
fn push_what(what: Option<What>, whats: &mut Vec<What>) -> mp4_show::Result<()>
    ensures { OnOk result (differences_of whats.new.items
        ≡ differences_of whats.old.items ++ listed_what what) }
{
    if let Some(what) = what {
        whats.push(what)?;
    }
    Ok(())
}

/// Appends how two boxes with these rows differ in the field `change`.
fn push_field(
    alloc: Global,
    first: &[Row],
    second: &[Row],
    change: RowChange,
    whats: &mut Vec<What>,
) -> mp4_show::Result<()>
    ensures { OnOk result (differences_of whats.new.items ≡ differences_of whats.old.items
        ++ field_of (partner_row change.first (all_rows first.now)) (partner_row change.second (all_rows second.now))) }
{
    let here = row_at(first, change.first);
    let there = row_at(second, change.second);
    push_what(what_of(alloc, here, there)?, whats)
}

/// Returns the fields in which two boxes with these rows differ.
fn fields_of(alloc: Global, first: &[Row], second: &[Row]) -> mp4_show::Result<Vec<What>>
    ensures { IfOk result (λ whats. differences_of whats.items ≡ fields (all_rows first.now) (all_rows second.now)) }
{
    let changes = row_changes(alloc, first, second)?;
    let mut whats = Vec::new(alloc);
    'fields: for change in &changes {
        push_field(alloc, first, second, *change, &mut whats)?;
    }
    Ok(whats)
}

/// Returns the difference of the lengths of media data, if there is one.
fn length_of(first: &TreeBox, second: &TreeBox) -> Option<What>
    ensures { listed_what result ≡ length_of first.now second.now }
{
    let here = first.content_length();
    let there = second.content_length();
    if is_media(first.code) && here != there {
        Some(What::Length(here, there))
    } else {
        None
    }
}

/// Returns the difference of the contents of two boxes, if there is one and the contents are compared.
fn content_differs<S: Source, T: Source>(
    alloc: Global,
    one: &mut BoxWalk<S>,
    first: &TreeBox,
    other: &mut BoxWalk<T>,
    second: &TreeBox,
    compares: bool,
) -> Result<Option<What>, Failure>
    ensures content { IfSome one.old.bytes (λ file. IfSome other.old.bytes (λ next_file.
        IfOk result (λ what. listed_what what
        ≡ (if compares then content_of file first.now next_file second.now else [])))) }
    ensures kept_first { one.new ≡ one.old }
    ensures kept_second { other.new ≡ other.old }
{
    if !compares {
        return Ok(None);
    }
    let content = has_content(first) && has_content(second);
    match differs_at(alloc, one, first, other, second, content)? {
        Some(at) => Ok(Some(What::Content(at, size_of(first, content), size_of(second, content)))),
        None => Ok(None),
    }
}

/// Returns whether the contents of two boxes are compared, whose fields differ in `whats`: they are not if a field
/// differs.
fn are_compared(whats: &[What], first: &TreeBox, second: &TreeBox, offsets: bool) -> bool
    ensures { result
        ≡ ((length (differences_of whats.now) == 0) && compares_content offsets first.now second.now) }
{
    whats.is_empty() && compares_content(first, second, offsets)
}

/// Appends the differences of the bytes of two boxes, whose fields differ in `whats`.
fn push_bytes<S: Source, T: Source>(
    alloc: Global,
    one: &mut BoxWalk<S>,
    first: &TreeBox,
    other: &mut BoxWalk<T>,
    second: &TreeBox,
    offsets: bool,
    whats: &mut Vec<What>,
) -> Result<(), Failure>
    ensures bytes { IfSome one.old.bytes (λ file. IfSome other.old.bytes (λ next_file.
        OnOk result (differences_of whats.new.items ≡ with_bytes offsets file first.now next_file second.now
        (differences_of whats.old.items)))) }
    ensures kept_first { one.new ≡ one.old }
    ensures kept_second { other.new ≡ other.old }
{
    let compares = are_compared(whats, first, second, offsets);
    or_memory(push_what(length_of(first, second), whats))?;
    let what = content_differs(alloc, one, first, other, second, compares)?;
    or_memory(push_what(what, whats))?;
    Ok(())
}

/// Returns the differences of two boxes with the same path.
fn pair_differs<B: Shown, S: Source, T: Source>(
    alloc: Global,
    one: &mut BoxWalk<S>,
    first: &TreeBox,
    other: &mut BoxWalk<T>,
    second: &TreeBox,
    offsets: bool,
) -> Result<Vec<What>, Failure>
    ensures pair { IfSome one.old.bytes (λ file. IfSome other.old.bytes (λ next_file. IfOk result (λ whats.
        PairDiffers B.known B.named_reading B.shown offsets file first.now next_file second.now
        (differences_of whats.items)))) }
    ensures kept_first { one.new ≡ one.old }
    ensures kept_second { other.new ≡ other.old }
{
    let here = rows_of::<B, S>(alloc, one, first, offsets)?;
    let there = rows_of::<B, T>(alloc, other, second, offsets)?;
    let mut whats = or_memory(fields_of(alloc, &here, &there))?;
    push_bytes(alloc, one, first, other, second, offsets, &mut whats)?;
    Ok(whats)
}

/// Returns that only one of the files has the box at `path`, or nothing if only that file has the box around it, too.
/// `others` has the boxes of the other file.
fn only_of(
    alloc: Global,
    path: &[Part],
    others: &Numbers,
    what: What,
) -> mp4_show::Result<Vec<What>>
    ensures { (boxes : List TreeBox) → AreNumbers boxes others.now
        → IfOk result (λ whats. differences_of whats.items
        ≡ (if is_top (paths boxes) path.now then difference_of what ∷ [] else [])) }
{
    let mut whats = Vec::new(alloc);
    if is_top(alloc, path, others)? {
        push_what(Some(what), &mut whats)?;
    }
    Ok(whats)
}

/// Returns that only the first file has the box at `path`, or nothing if only that file has the box around it, too.
/// `others` has the boxes of the second file.
fn first_only(alloc: Global, path: &[Part], others: &Numbers) -> Result<Vec<What>, Failure>
    ensures { (boxes : List TreeBox) → AreNumbers boxes others.now
        → IfOk result (λ whats. differences_of whats.items ≡ first_at (paths boxes) path.now) }
{
    let whats = or_memory(only_of(alloc, path, others, What::OnlyFirst))?;
    Ok(whats)
}

/// Returns the box `number`, if there is one.
fn box_at(boxes: &[TreeBox], number: Option<usize>) -> Option<TreeBox>
    ensures { result ≡ partner_box number boxes.now }
{
    match number {
        Some(number) => boxes.get(number).copied(),
        None => None,
    }
}

/// Returns the differences of a box of the first file.
fn box_differs<B: Shown, S: Source, T: Source>(
    alloc: Global,
    one: &mut BoxWalk<S>,
    placed: &Placed,
    other: &mut Compared<T>,
    offsets: bool,
) -> Result<Vec<What>, Failure>
    ensures differs { IfSome one.old.bytes (λ file. IfSome other.old.walk.bytes (λ next_file.
        other.old.boxes.items ≡ boxes_of next_file → AreNumbers (boxes_of next_file) other.old.numbers
        → IfOk result (λ whats. BoxDiffers B.known B.named_reading B.shown offsets file next_file placed.now.path.items
        placed.now.found (partner_box placed.now.partner (boxes_of next_file)) (differences_of whats.items)))) }
    ensures kept_first { one.new ≡ one.old }
    ensures kept_second { other.new ≡ other.old }
{
    match box_at(&other.boxes, placed.partner) {
        Some(partner) => pair_differs::<B, S, T>(
            alloc,
            one,
            &placed.found,
            &mut other.walk,
            &partner,
            offsets,
        ),
        None => first_only(alloc, &placed.path, &other.numbers),
    }
}

/// Appends the differences `whats` at `path`, if there are any.
fn push_change(path: Vec<Part>, whats: Vec<What>, changes: &mut Vec<Change>) -> mp4_show::Result<()>
    ensures { OnOk result (places_of changes.new.items
        ≡ places_of changes.old.items ++ places path.items (differences_of whats.items)) }
{
    if !whats.is_empty() {
        changes.push(Change { path, whats })?;
    }
    Ok(())
}

/// Returns whether `changes` has a difference.
pub fn differ(changes: &[Change]) -> bool
    ensures { result ≡ not (length (places_of changes.now) == 0) }
{
    'changes: for index in 0..changes.len() {
        if !changes[index].whats.is_empty() {
            return true;
        }
    }
    false
}

/// Returns the differences of the boxes of the first file, in order.
fn first_changes<B: Shown, S: Source, T: Source>(
    alloc: Global,
    one: &mut Compared<S>,
    partners: &[Option<usize>],
    other: &mut Compared<T>,
    offsets: bool,
) -> Result<Vec<Change>, Failure>
    ensures boxes { IfSome one.old.walk.bytes (λ file. IfSome other.old.walk.bytes (λ next_file.
        one.old.boxes.items ≡ boxes_of file → other.old.boxes.items ≡ boxes_of next_file
        → AreNumbers (boxes_of next_file) other.old.numbers
        → partners.now ≡ partners_of (paths (boxes_of file)) (paths (boxes_of next_file))
        → IfOk result (λ changes. BoxesDiffer B.known B.named_reading B.shown offsets file next_file [] (boxes_of file)
        (places_of changes.items)))) }
    ensures kept_first { one.new ≡ one.old }
    ensures kept_second { other.new ≡ other.old }
{
    let mut paths = BoxPaths::new(alloc);
    let mut changes = Vec::new(alloc);
    let count = one.boxes.len().min(partners.len());
    'boxes: for index in 0..count {
        let found = one.boxes[index];
        let path = or_memory(entered_path(alloc, &mut paths, &found))?;
        let placed = Placed {
            path,
            found,
            partner: partners[index],
        };
        let whats = box_differs::<B, S, T>(alloc, &mut one.walk, &placed, other, offsets)?;
        let Placed {
            path,
            found: _,
            partner: _,
        } = placed;
        or_memory(push_change(path, whats, &mut changes))?;
    }
    Ok(changes)
}

/// Returns that only the second file has the box at `path`, or nothing if the first has it, too, or lacks the box
/// around it. `others` has the boxes of the first file.
fn second_at(alloc: Global, path: &[Part], others: &Numbers) -> mp4_show::Result<Vec<What>>
    ensures { (first : List TreeBox) → AreNumbers first others.now
        → IfOk result (λ whats. differences_of whats.items ≡ second_at (paths first) path.now) }
{
    match number_at(alloc, path, others)? {
        Some(_) => Ok(Vec::new(alloc)),
        None => only_of(alloc, path, others, What::OnlySecond),
    }
}

/// Appends the boxes that only the second file has, in order.
fn push_second(
    alloc: Global,
    boxes: &[TreeBox],
    others: &Numbers,
    changes: &mut Vec<Change>,
) -> mp4_show::Result<()>
    ensures { (first : List TreeBox) → AreNumbers first others.now
        → OnOk result (places_of changes.new.items
        ≡ places_of changes.old.items ++ only_second_in (paths first) (paths boxes.now)) }
{
    let mut paths = BoxPaths::new(alloc);
    'boxes: for found in boxes {
        let path = entered_path(alloc, &mut paths, found)?;
        let whats = second_at(alloc, &path, others)?;
        push_change(path, whats, changes)?;
    }
    Ok(())
}

/// Appends the code of `found` to `codes`, if the box has the depth `depth`.
fn push_code(found: &TreeBox, depth: u64, codes: &mut Vec<Option<FourCC>>) -> mp4_show::Result<()>
    ensures { OnOk result (codes.new.items
        ≡ codes.old.items ++ (if found.now.depth == depth then found.now.code ∷ [] else [])) }
{
    if found.depth == depth {
        codes.push(found.code)?;
    }
    Ok(())
}

/// Returns whether the box `found` ends the codes of depth `depth`, of which there are `count`.
fn is_end(found: &TreeBox, depth: u64, count: usize) -> bool
    ensures { result ≡ (nat_lt found.now.depth depth || (count == 64)) }
{
    found.depth < depth || count == LISTED
}

/// Returns the codes of the first boxes of depth `depth` at the beginning of `boxes`. The first box that is less deep
/// ends them.
fn codes_of(alloc: Global, boxes: &[TreeBox], depth: u64) -> mp4_show::Result<Vec<Option<FourCC>>>
    ensures { IfOk result (λ codes. codes.items ≡ codes_of 64 depth boxes.now) }
{
    let mut codes = Vec::new(alloc);
    'boxes: for found in boxes {
        let ends = is_end(found, depth, codes.len());
        if ends {
            return Ok(codes);
        }
        push_code(found, depth, &mut codes)?;
    }
    Ok(codes)
}

/// Returns that the boxes of depth `depth` at the beginnings of `first` and `second` are in another order, or nothing
/// if they are not. `partners` has the partner of each of `first`.
fn order_of(
    alloc: Global,
    first: &[TreeBox],
    partners: &[Option<usize>],
    second: &[TreeBox],
    depth: u64,
) -> mp4_show::Result<Vec<What>>
    ensures { IfOk result (λ whats. differences_of whats.items
        ≡ order_of depth first.now partners.now second.now) }
{
    let mut whats = Vec::new(alloc);
    if !is_rising(first, partners, depth) {
        let here = codes_of(alloc, first, depth)?;
        let there = codes_of(alloc, second, depth)?;
        whats.push(What::Order(here, there))?;
    }
    Ok(whats)
}

/// Returns that the boxes of depth `depth` at the beginning of `first` and after box `number` of `second` are in
/// another order, or nothing if they are not. `partners` has the partner of each of `first`.
fn order_after(
    alloc: Global,
    first: &[TreeBox],
    partners: &[Option<usize>],
    second: &[TreeBox],
    number: usize,
    depth: u64,
) -> mp4_show::Result<Vec<What>>
    ensures { IfOk result (λ whats. differences_of whats.items
        ≡ order_after depth first.now partners.now second.now number) }
{
    if number < second.len() {
        order_of(alloc, first, partners, &second[number + 1..], depth)
    } else {
        Ok(Vec::new(alloc))
    }
}

/// Returns the orders of the boxes in box `index` of `first`, if they differ.
fn order_inside(
    alloc: Global,
    first: &[TreeBox],
    partners: &[Option<usize>],
    second: &[TreeBox],
    index: usize,
) -> mp4_show::Result<Vec<What>>
    requires boxes { index < length first.now }
    requires partners { index < length partners.now }
    ensures { IfOk result (λ whats. differences_of whats.items ≡ order_at first.now partners.now second.now index) }
{
    let depth = first[index].depth.saturating_add(1);
    let inside = &first[index + 1..];
    let partners_inside = &partners[index + 1..];
    match partners[index] {
        Some(number) => order_after(alloc, inside, partners_inside, second, number, depth),
        None => Ok(Vec::new(alloc)),
    }
}

/// Appends the orders that differ: that of the top level, and those in the boxes of the first file that have a partner.
fn push_orders(
    alloc: Global,
    first: &[TreeBox],
    partners: &[Option<usize>],
    second: &[TreeBox],
    changes: &mut Vec<Change>,
) -> mp4_show::Result<()>
    ensures { OnOk result (places_of changes.new.items
        ≡ places_of changes.old.items ++ orders_with first.now partners.now second.now) }
{
    let top = order_of(alloc, first, partners, second, 0)?;
    push_change(Vec::new(alloc), top, changes)?;
    let mut paths = BoxPaths::new(alloc);
    let count = first.len().min(partners.len());
    'boxes: for index in 0..count {
        let path = entered_path(alloc, &mut paths, &first[index])?;
        let whats = order_inside(alloc, first, partners, second, index)?;
        push_change(path, whats, changes)?;
    }
    Ok(())
}

/// Returns the differences of two files: those of the boxes of the first file in its order, then the boxes that only
/// the second file has, and at last the orders of boxes. Offsets into the files count only if `offsets`.
pub fn differences<B: Shown, S: Source, T: Source>(
    alloc: Global,
    first: S,
    second: T,
    offsets: bool,
) -> Result<Vec<Change>, Failure>
    ensures { IfSome (S.all first) (λ file. IfSome (T.all second) (λ next_file. IfOk result (λ changes.
        AreDifferences B.known B.named_reading B.shown offsets file next_file (places_of changes.items)))) }
{
    let mut one = read_boxes(alloc, first)?;
    let mut other = read_boxes(alloc, second)?;
    let partners = or_memory(partners_of(alloc, &one.boxes, &other.numbers))?;
    let mut changes = first_changes::<B, S, T>(alloc, &mut one, &partners, &mut other, offsets)?;
    or_memory(push_second(alloc, &other.boxes, &one.numbers, &mut changes))?;
    or_memory(push_orders(alloc, &one.boxes, &partners, &other.boxes, &mut changes))?;
    Ok(changes)
}
