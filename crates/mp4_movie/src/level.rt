//! A search for boxes in a level.

ghost use Rattle.std.specs.Prelude.{◌≡◌, ◌<◌, IfSome, drop, is_some, length};
ghost use Rattle.mp4_frame.specs.FourCC.{four_cc_of};
ghost use Rattle.mp4_movie.specs.Levels.{after_of, first_in, found_of, movie_in};

use mp4_frame::FourCC;
use mp4_frame::codes::MOOV;
use mp4_walk::TreeBox;

/// A box, and the boxes after it, which begin with those inside it.
#[derive(Clone, Copy)]
pub struct BoxLocation<'a> {
    /// The box.
    pub found: TreeBox,
    /// The boxes after it in the file.
    pub after: &'a [TreeBox],
}

/// Returns the first box with `code` in the level of `depth` in which `boxes` begins.
pub fn first_in<'a>(boxes: &'a [TreeBox], depth: u64, code: u32) -> Option<BoxLocation<'a>>
    ensures first { found_of result ≡ first_in depth (four_cc_of code) boxes.now }
    ensures less { IfSome result (λ p. length p.after.now < length boxes.now) }
{
    let meant = FourCC::from(code);
    for index in 0..boxes.len() {
        let found = boxes[index];
        if found.depth < depth {
            return None;
        }
        if found.depth == depth && found.has_code(meant) {
            return Some(BoxLocation {
                found,
                after: &boxes[index + 1..],
            });
        }
    }
    None
}

/// Returns whether there is a box with `code` in the level of `depth` in which `boxes` begins.
pub fn has_box(boxes: &[TreeBox], depth: u64, code: u32) -> bool
    ensures { result ≡ is_some (first_in depth (four_cc_of code) boxes.now) }
{
    match first_in(boxes, depth, code) {
        Some(_) => true,
        None => false,
    }
}

/// Returns the boxes after the header of the first box with `code` in a level, or none without such a box. They begin
/// with the boxes inside it.
pub fn inside<'a>(boxes: &'a [TreeBox], depth: u64, code: u32) -> &'a [TreeBox]
    ensures { result.now ≡ after_of (first_in depth (four_cc_of code) boxes.now) }
{
    match first_in(boxes, depth, code) {
        Some(place) => place.after,
        None => &[],
    }
}

/// Returns the boxes after the header of the first `moov` of a file, or none without a `moov`. They begin with the
/// boxes inside it.
pub fn movie_in(boxes: &[TreeBox]) -> &[TreeBox]
    ensures { result.now ≡ movie_in boxes.now }
{
    inside(boxes, 0, MOOV)
}

/// Returns `boxes` without the first `first`.
pub fn boxes_after(boxes: &[TreeBox], first: usize) -> &[TreeBox]
    ensures { result.now ≡ drop first boxes.now }
{
    &boxes[first.min(boxes.len())..]
}
