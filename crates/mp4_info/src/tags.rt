//! The tags of a movie.

ghost use Rattle.std.specs.Prelude.{◌≡◌, ℕ, List, [], ◌∷◌, ◌++◌, IfOk, OnOk, IfSome};
ghost use Rattle.mp4_extra_tracks.specs.declared.data.Data.{Data};
ghost use Rattle.mp4_frame.specs.Reading.{Reading};
ghost use Rattle.mp4_info.specs.Tags.{items_in, tag_of, tags_at, tags_in, tags_of};

use crate::found::found;
use mp4_extra_tracks::data::DataBox;
use mp4_frame::{FourCC, ReadBox, codes};
use mp4_io::Failure;
use mp4_movie::inside;
use mp4_walk::{BoxWalk, Source, TreeBox};
use std::alloc::{AllocError, Global};

/// The depth of the items, which are inside `moov`, `udta`, `meta` and `ilst`.
const DEPTH: u64 = 4;

/// A tag of a movie.
#[derive(Debug, Drop)]
pub struct Tag {
    /// The code of the item, such as `©nam`, if its header is whole.
    pub code: Option<FourCC>,
    /// Its first value, `data`, unless it is missing or has a fault.
    pub value: Option<DataBox>,
}

/// For the prover: the reading of a value.
pub trait ReadsValue {
    ghost reads: { List ℕ → ℕ → ℕ → Reading Data };
}

/// The values of items.
#[derive(Clone, Copy, Debug)]
pub struct ItemValue;

impl ReadsValue for ItemValue {
    ghost reads = { ⟦<DataBox as ReadBox>⟧.reads };
}

/// Returns the boxes inside the `ilst` of a movie. `movie` begins with the boxes inside its `moov`.
fn items_in(movie: &[TreeBox]) -> &[TreeBox]
    ensures { result.now ≡ items_in movie.now }
{
    let udta = inside(movie, 1, codes::UDTA);
    let meta = inside(udta, 2, codes::META);
    inside(meta, 3, codes::ILST)
}

/// Returns the tag of the item `item`. `after` are the boxes after the header of the item.
fn tag_of<S: Source>(
    alloc: Global,
    walk: &mut BoxWalk<S>,
    item: TreeBox,
    after: &[TreeBox],
) -> Result<Tag, Failure>
    ensures value { IfSome walk.old.bytes
        (λ file. IfOk result (λ r. r ≡ tag_of ⟦<ItemValue as ReadsValue>⟧.reads file item after.now)) }
    ensures kept { walk.new ≡ walk.old }
{
    let value = found::<DataBox, S>(alloc, walk, after, DEPTH + 1, codes::DATA)?;
    Ok(Tag {
        code: item.code,
        value,
    })
}

/// Appends `tag`.
fn push_tag(tag: Tag, tags: &mut Vec<Tag>) -> Result<(), AllocError>
    ensures { OnOk result (tags.new.items ≡ tags.old.items ++ tag ∷ []) }
{
    tags.push(tag)?;
    Ok(())
}

/// Appends the tag of `item`, unless it is deeper than the items. `after` are the boxes after its header.
fn push_item<S: Source>(
    alloc: Global,
    walk: &mut BoxWalk<S>,
    item: TreeBox,
    after: &[TreeBox],
    tags: &mut Vec<Tag>,
) -> Result<(), Failure>
    ensures value { IfSome walk.old.bytes
        (λ file. OnOk result (tags.new.items
        ≡ tags.old.items ++ tags_at ⟦<ItemValue as ReadsValue>⟧.reads file item after.now)) }
    ensures kept { walk.new ≡ walk.old }
{
    if item.depth != DEPTH {
        return Ok(());
    }
    let tag = tag_of(alloc, walk, item, after)?;
    push_tag(tag, tags)?;
    Ok(())
}

/// Returns the tags of the items of a level of `DEPTH` in which `items` begins.
fn tags_of<S: Source>(
    alloc: Global,
    walk: &mut BoxWalk<S>,
    items: &[TreeBox],
) -> Result<Vec<Tag>, Failure>
    ensures value { IfSome walk.old.bytes
        (λ file. IfOk result (λ r. r.items ≡ tags_of ⟦<ItemValue as ReadsValue>⟧.reads file items.now)) }
    ensures kept { walk.new ≡ walk.old }
{
    let mut tags = Vec::new(alloc);
    for index in 0..items.len() {
        let item = items[index];
        if item.depth < DEPTH {
            return Ok(tags);
        }
        push_item(alloc, walk, item, &items[index + 1..], &mut tags)?;
    }
    Ok(tags)
}

/// Returns the tags of a movie, in the order of the file. `movie` begins with the boxes inside its `moov`.
pub fn tags_in<S: Source>(
    alloc: Global,
    walk: &mut BoxWalk<S>,
    movie: &[TreeBox],
) -> Result<Vec<Tag>, Failure>
    ensures value { IfSome walk.old.bytes
        (λ file. IfOk result (λ r. r.items ≡ tags_in ⟦<ItemValue as ReadsValue>⟧.reads file movie.now)) }
    ensures kept { walk.new ≡ walk.old }
{
    tags_of(alloc, walk, items_in(movie))
}
