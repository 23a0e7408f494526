//! Paths to boxes, such as `moov/trak[1]/mdia`.

ghost use Rattle.std.specs.Prelude.{◌≡◌, ◌≢◌, ◌<◌, ◌++◌, ◌∷◌, [], ℕ, List, encode_utf8, IfOk, IfErr, IfNone, IfSome};
ghost use Rattle.std.specs.Result.{MatchResult};
ghost use Rattle.mp4_walk.specs.PathText.{IsCode, HasCode, HasNoCode, IsIndex, HasNoIndex, IsPart, IsFault};
ghost use Rattle.mp4_walk.specs.PathText.{ArePathParts, IsFirstFault};

use mp4_frame::FourCC;
use std::alloc::{AllocError, AllocFailed, Global};

/// A part of a path: a code and the index of the box among the boxes with this code.
#[derive(Clone, Copy, Debug, PartialEq, Eq)]
pub struct PathPart {
    /// The code of the box.
    pub code: FourCC,
    /// The number of boxes with this code before the box, within the same parent.
    pub index: u64,
}

/// A path from the top level of a file to a box: the enclosing boxes, outermost first, and then the box itself.
#[derive(Debug, Drop)]
pub struct BoxPath {
    /// The parts, at least one.
    pub parts: Vec<PathPart>,
}

/// The reason why a text is not a path. The number is the index of the faulty part.
#[derive(Debug, Drop, thiserror::Error)]
pub enum PathError {
    /// A code has fewer than four characters, or a character above U+00FF, which is not a byte.
    #[error("part {0} of the path has no code of four characters")]
    Code(u64),
    /// The text after a code is not a number in brackets.
    #[error("part {0} of the path has no number in brackets after its code")]
    Index(u64),
    /// Memory was refused.
    #[error("out of memory")]
    Memory,
}

impl From<AllocError> for PathError {
    ghost use Rattle.mp4_walk.specs.declared.path.PathError.TheVariants.{Memory};

    ghost from_gives = { λ _ e. e ≡ Memory };

    fn from(_e: AllocError) -> PathError {
        PathError::Memory
    }
}

impl From<AllocFailed<PathPart>> for PathError {
    ghost use Rattle.mp4_walk.specs.declared.path.PathError.TheVariants.{Memory};

    ghost from_gives = { λ _ e. e ≡ Memory };

    fn from(_e: AllocFailed<PathPart>) -> PathError {
        PathError::Memory
    }
}

/// Returns the text between the brackets of `text`, or `None` if it has none at its ends.
fn between_brackets(text: &str) -> Option<&str>
    ensures some { IfSome result (λ inside. text.now ≡ 91 ∷ (inside.now ++ 93 ∷ [])) }
    ensures none { IfNone result ((inside : List ℕ) → text.now ≢ 91 ∷ (inside ++ 93 ∷ [])) }
{
    text.strip_prefix('[')?.strip_suffix(']')
}

/// Returns the index that `text`, which follows a code, gives: the number in brackets that it is, or 0 if it is empty.
/// Returns `None` if it is neither.
pub fn path_index(text: &str) -> Option<u64>
    ensures some { IfSome result (λ index. IsIndex text.now index) }
    ensures none { IfNone result (HasNoIndex text.now) }
{
    if text.is_empty() {
        return Some(0);
    }
    between_brackets(text)?.parse::<u64>().ok()
}

/// Returns the byte that the first character of `text` stands for, and the text after it. Returns `None` if there is no
/// character, or it is above U+00FF.
fn first_byte(text: &str) -> Option<(u8, &str)>
    ensures some { IfSome result (λ first. text.now ≡ encode_utf8 first.0 ++ first.1.now) }
    ensures none { IfNone result ((byte : ℕ) (rest : List ℕ) → byte < 256 → text.now ≢ encode_utf8 byte ++ rest) }
{
    let mut rest = text.chars();
    let byte = u8::try_from(u32::from(rest.next()?)).ok()?;
    Some((byte, rest.as_str()))
}

/// Returns the code at the front of `text`, and the text after it. Returns `None` if there are fewer than four
/// characters, or one of them is above U+00FF.
pub fn path_code(text: &str) -> Option<(FourCC, &str)>
    ensures some { IfSome result (λ front. IsCode front.0.value × HasCode text.now front.0.value front.1.now) }
    ensures none { IfNone result (HasNoCode text.now) }
{
    let (first, rest) = first_byte(text)?;
    let (second, rest) = first_byte(rest)?;
    let (third, rest) = first_byte(rest)?;
    let (fourth, rest) = first_byte(rest)?;
    let value = [first, second, third, fourth];
    Some((FourCC { value }, rest))
}

/// Parses `text` as the part of a path with the index `number`.
fn part_of(text: &str, number: u64) -> Result<PathPart, PathError>
    ensures { MatchResult result (IsPart text.now) (IsFault text.now number) }
{
    let Some((code, rest)) = path_code(text) else {
        return Err(PathError::Code(number));
    };
    let Some(index) = path_index(rest) else {
        return Err(PathError::Index(number));
    };
    Ok(PathPart { code, index })
}

impl BoxPath {
    /// Parses `text` as a path, such as `moov/trak[1]/mdia`. It is codes of four characters separated by `/`. An index
    /// in brackets after a code counts the boxes with this code, starting at 0. No index means 0. A character up to
    /// U+00FF is one byte of a code, so `©nam` is a code.
    pub fn parse(alloc: Global, text: &str) -> Result<BoxPath, PathError>
        ensures ok { IfOk result (λ path. ArePathParts text.now path.parts.items) }
        ensures fault { IfErr result (λ e. e ≢ PathError.Memory → IsFirstFault text.now e) }
    {
        let texts = text.split('/').collect::<Vec<&str>>(alloc)?;
        let mut parts = Vec::new(alloc);
        for piece in &texts {
            let number = parts.len() as u64;
            parts.push(part_of(piece, number)?)?;
        }
        Ok(BoxPath { parts })
    }
}
