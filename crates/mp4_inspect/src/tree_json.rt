//! The tree of a file as JSON.

ghost use Rattle.std.specs.Prelude.{◌≡◌, ℕ, ◌-◌, ◌+◌, ◌<◌, ◌^◌, min, List, [], ◌∷◌, ◌||◌, codes, IfOk, OnOk};
ghost use Rattle.json.specs.Token.{Token, key, string};
ghost use Rattle.mp4_content.specs.FaultText.{IsFaultText};
ghost use Rattle.mp4_content.specs.Fields.{content_fields, json_view, object_tokens};
ghost use Rattle.mp4_inspect.specs.Json.{number_member, head_tokens, type_token, fields_tokens, IsRest, end_tokens};
ghost use Rattle.mp4_inspect.specs.Json.{levels_end};
ghost use Rattle.mp4_inspect.specs.Json.{open_inside, open_after, box_tokens, IsShown, file_tokens, IsJson};
ghost use Rattle.mp4_shown.specs.Event.{shown_of};
ghost use Rattle.mp4_shown.specs.declared.value.Value.{Value};
ghost use Rattle.mp4_shown_json.specs.Tokens.{Puts};

use mp4_content::{Content, Shown, content_of, either, fault_text, or_memory, put_content};
use mp4_io::Failure;
use mp4_show::{BoxFields, Result, json_text};
use mp4_shown_json::JsonSink;
use mp4_stream::{Error, FourCC};
use mp4_walk::{BoxWalk, Source, TreeBox};
use std::alloc::Global;

/// Writes the member `name` with a number.
fn put_number(name: &str, number: u64, sink: &mut JsonSink) -> Result<()>
    ensures tokens { OnOk result (Puts sink.old.out sink.new.out (number_member name.now number)) }
{
    sink.out.key(name)?;
    sink.out.u64(number)?;
    Ok(())
}

/// Writes a code, or null if there is none.
fn put_code(code: Option<FourCC>, sink: &mut JsonSink) -> Result<()>
    ensures tokens { OnOk result (Puts sink.old.out sink.new.out (type_token code ∷ [])) }
{
    match code {
        Some(code) => sink.code(code),
        None => {
            sink.out.null()?;
            Ok(())
        }
    }
}

/// Writes the member with the type of a box, its code.
fn put_type(found: &TreeBox, sink: &mut JsonSink) -> Result<()>
    ensures tokens { OnOk result
        (Puts sink.old.out sink.new.out (key (codes "type") ∷ type_token found.now.code ∷ [])) }
{
    sink.out.key("type")?;
    put_code(found.code, sink)
}

/// Begins the object of a box, with the members of its header.
fn put_head(found: &TreeBox, sink: &mut JsonSink) -> Result<()>
    ensures tokens { OnOk result (Puts sink.old.out sink.new.out (head_tokens found.now)) }
{
    sink.out.begin_object()?;
    put_type(found, sink)?;
    put_number("position", found.position, sink)?;
    put_number("length", found.length, sink)?;
    put_number("header", found.header_length, sink)
}

/// Writes the member with a fault.
fn put_fault(alloc: Global, found: &TreeBox, fault: &Error, sink: &mut JsonSink) -> Result<()>
    ensures tokens { OnOk result ((text : List ℕ) × IsFaultText found.now fault.now text
        × Puts sink.old.out sink.new.out (key (codes "fault") ∷ string text ∷ [])) }
{
    let text = fault_text(alloc, found, fault)?;
    sink.out.key("fault")?;
    sink.out.string(text.as_str())?;
    Ok(())
}

/// Writes the fields that were read as an object.
pub fn put_object<B: BoxFields + Drop>(
    content: &Content<B>,
    is_quicktime: bool,
    sink: &mut JsonSink,
) -> Result<()>
    ensures fields { OnOk result ((rate : Value) × Puts sink.old.out sink.new.out
        (object_tokens (content_fields (B.shown json_view) is_quicktime content.now (shown_of rate)))) }
{
    sink.out.begin_object()?;
    put_content(content, is_quicktime, sink)?;
    sink.out.end_object()?;
    Ok(())
}

/// Writes the member with the fields that were read.
fn put_all_fields<B: BoxFields + Drop>(
    content: &Content<B>,
    is_quicktime: bool,
    sink: &mut JsonSink,
) -> Result<()>
    ensures fields { OnOk result ((rate : Value) × Puts sink.old.out sink.new.out
        (fields_tokens (content_fields (B.shown json_view) is_quicktime content.now (shown_of rate)))) }
{
    sink.out.key("fields")?;
    put_object(content, is_quicktime, sink)?;
    Ok(())
}

/// Writes the fields or the fault of a box.
fn put_rest<B: BoxFields + Drop>(
    alloc: Global,
    found: &TreeBox,
    content: &Content<B>,
    sink: &mut JsonSink,
) -> Result<()>
    ensures rest { OnOk result ((ts : List Token) × IsRest B.shown found.now content.now ts
        × Puts sink.old.out sink.new.out ts) }
{
    match content {
        Content::Boxes | Content::Deep | Content::Unread => Ok(()),
        Content::Faulty(fault) => put_fault(alloc, found, fault, sink),
        Content::Known(_) | Content::Front(..) => {
            put_all_fields(content, found.context.stsd_version == 0, sink)
        }
    }
}

/// Ends the objects of open containers, down to `depth`.
fn end_levels(begun: &mut u64, depth: u64, sink: &mut JsonSink) -> Result<()>
    ensures tokens { OnOk result (Puts sink.old.out sink.new.out (levels_end (begun.old - depth))) }
    ensures begun { OnOk result (begun.new ≡ min depth begun.old) }
{
    while *begun > depth {
        sink.out.end_array()?;
        sink.out.end_object()?;
        *begun -= 1;
    }
    Ok(())
}

/// Begins the children of a box.
fn begin_children(begun: &mut u64, sink: &mut JsonSink) -> Result<()>
    requires { begun.old < 2 ^ 64 - 1 }
    ensures tokens { OnOk result
        (Puts sink.old.out sink.new.out (key (codes "children") ∷ Token.begin_array ∷ [])) }
    ensures begun { OnOk result (begun.new ≡ begun.old + 1) }
{
    sink.out.key("children")?;
    sink.out.begin_array()?;
    *begun += 1;
    Ok(())
}

/// Ends the object of a box without children.
fn end_box(sink: &mut JsonSink) -> Result<()>
    ensures tokens { OnOk result (Puts sink.old.out sink.new.out (Token.end_object ∷ [])) }
{
    sink.out.end_object()?;
    Ok(())
}

/// Ends the object of a box, or begins its children.
fn put_end(found: &TreeBox, begun: &mut u64, sink: &mut JsonSink) -> Result<()>
    requires { begun.old < 2 ^ 64 - 1 }
    ensures tokens { OnOk result (Puts sink.old.out sink.new.out (end_tokens found.now.children)) }
    ensures begun { OnOk result (begun.new ≡ open_inside begun.old found.now.children) }
{
    match found.children {
        Some(_) => begin_children(begun, sink),
        None => end_box(sink),
    }
}

/// Writes a box. Its object stays open if the walk enters the box.
fn put_box<B: BoxFields + Drop>(
    alloc: Global,
    found: &TreeBox,
    content: &Content<B>,
    begun: &mut u64,
    sink: &mut JsonSink,
) -> Result<()>
    requires { begun.old < 2 ^ 64 - 1 }
    ensures tokens { OnOk result ((rest : List Token) × IsRest B.shown found.now content.now rest
        × Puts sink.old.out sink.new.out (box_tokens begun.old found.now rest)) }
    ensures begun { OnOk result (begun.new ≡ open_after begun.old found.now) }
{
    end_levels(begun, found.depth, sink)?;
    put_head(found, sink)?;
    put_rest(alloc, found, content, sink)?;
    put_end(found, begun, sink)
}

/// Writes a box with its content. Returns whether it has a fault.
fn write_box<B: Shown, S: Source>(
    alloc: Global,
    tree: &mut BoxWalk<S>,
    found: &TreeBox,
    begun: &mut u64,
    sink: &mut JsonSink,
) -> std::result::Result<bool, Failure>
    requires { begun.old < 2 ^ 64 - 1 }
    ensures json { IfOk result (λ faulty. (rest : List Token)
        × IsShown B.known B.named_reading B.shown tree.old.bytes found.now rest faulty
        × Puts sink.old.out sink.new.out (box_tokens begun.old found.now rest)) }
    ensures begun { OnOk result (begun.new ≡ open_after begun.old found.now) }
    ensures kept { tree.new ≡ tree.old }
{
    let content = content_of::<B, S>(alloc, tree, found)?;
    or_memory(put_box(alloc, found, &content, begun, sink))?;
    Ok(content.is_faulty())
}

/// Begins the object of a file.
fn begin_file(name: &str, sink: &mut JsonSink) -> Result<()>
    ensures tokens { OnOk result (Puts sink.old.out sink.new.out (file_tokens name.now)) }
{
    sink.out.begin_object()?;
    sink.out.key("file")?;
    sink.out.string(name)?;
    sink.out.key("boxes")?;
    sink.out.begin_array()?;
    Ok(())
}

/// Ends the object of a file.
fn end_file(sink: &mut JsonSink) -> Result<()>
    ensures tokens { OnOk result
        (Puts sink.old.out sink.new.out (Token.end_array ∷ Token.end_object ∷ [])) }
{
    sink.out.end_array()?;
    sink.out.end_object()?;
    Ok(())
}

/// Returns the JSON of a file, an object with its name and its boxes `boxes`, and whether one of the boxes has a fault.
pub fn tree_json<B: Shown, S: Source>(
    alloc: Global,
    tree: &mut BoxWalk<S>,
    name: &str,
    boxes: &[TreeBox],
) -> std::result::Result<(Vec<u8>, bool), Failure>
    ensures json { IfOk result
        (λ shown. IsJson B.known B.named_reading B.shown tree.old.bytes name.now boxes.now shown.0.items shown.1) }
{
    let mut sink = JsonSink::new(alloc);
    let mut faulty = false;
    let mut begun = 0;
    or_memory(begin_file(name, &mut sink))?;
    for found in boxes {
        let here = write_box::<B, S>(alloc, tree, found, &mut begun, &mut sink)?;
        faulty = either(faulty, here);
    }
    or_memory(end_levels(&mut begun, 0, &mut sink))?;
    or_memory(end_file(&mut sink))?;
    Ok((or_memory(json_text(alloc, sink))?, faulty))
}
