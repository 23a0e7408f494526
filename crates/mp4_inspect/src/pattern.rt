//! Patterns of paths to boxes, such as `moov/trak[*]/tkhd` and `**/pssh`.

ghost use Rattle.std.specs.Prelude.{◌≡◌, ◌≢◌, ◌==◌, ◌&&◌, ◌++◌, ◌∷◌, [], IfOk, OnOk, IfErr};
ghost use Rattle.std.specs.Result.{MatchResult};
ghost use Rattle.mp4_inspect.specs.PatternText.{IsStep, IsStepFault, IsPattern, IsPatternFault};
ghost use Rattle.mp4_inspect.specs.PatternText.{is_anywhere, is_each, steps_text};
ghost use Rattle.mp4_inspect.specs.Patterns.{accepts, accepts_all, fits, parts_before};
ghost use Rattle.mp4_walk.specs.Paths.{is_code};

use mp4_content::Part;
use mp4_stream::FourCC;
use mp4_walk::{PathError, PathPart, path_code, path_index};
use std::alloc::Global;

/// A step of a pattern: the boxes that it accepts, within their parent.
#[derive(Clone, Copy, Debug, PartialEq, Eq)]
pub enum Step {
    /// Every box.
    Any,
    /// Every box with this code.
    Each(FourCC),
    /// The box with this code and index.
    One(PathPart),
}

/// A pattern of paths from the top level of a file to boxes.
#[derive(Debug, Drop)]
pub struct Pattern {
    /// True if any boxes may be around the box of the first step.
    pub anywhere: bool,
    /// The steps, at least one, outermost first.
    pub steps: Vec<Step>,
}

/// Returns whether `found` is the code `code`. Bytes without a whole header have none.
fn is_code(code: FourCC, found: Option<FourCC>) -> bool
    ensures { result ≡ is_code code found }
{
    match found {
        None => false,
        Some(found) => u32::from(found) == u32::from(code),
    }
}

/// Returns whether `step` accepts the box with the code and the index of `part`.
fn accepts(step: Step, part: Part) -> bool
    ensures { result ≡ accepts step part }
{
    match step {
        Step::Any => true,
        Step::Each(code) => is_code(code, part.code),
        Step::One(one) => is_code(one.code, part.code) && part.index == one.index,
    }
}

/// Returns whether each of `steps` accepts the part of `path` with its index, and no part is left.
fn accepts_all(steps: &[Step], path: &[Part]) -> bool
    ensures { result ≡ accepts_all steps.now path.now }
{
    if steps.len() != path.len() {
        return false;
    }
    'steps: for index in 0..steps.len() {
        if !accepts(steps[index], path[index]) {
            return false;
        }
    }
    true
}

/// Returns the number of parts of a path of `parts` parts that come before the steps of `pattern`.
fn parts_before(pattern: &Pattern, parts: usize) -> usize
    ensures { result ≡ parts_before pattern.now parts }
{
    if pattern.anywhere {
        parts.saturating_sub(pattern.steps.len())
    } else {
        0
    }
}

/// Returns whether `pattern` fits `path`, which ends with the box.
pub fn fits(pattern: &Pattern, path: &[Part]) -> bool
    ensures { result ≡ fits pattern.now path.now }
{
    let before = parts_before(pattern, path.len());
    accepts_all(&pattern.steps, &path[before..])
}

/// Returns whether `rest` after a code means every box with this code: it is `[*]`, or empty if `each`.
fn is_each(rest: &str, each: bool) -> bool
    ensures { result ≡ is_each each rest.now }
{
    rest == "[*]" || each && rest.is_empty()
}

/// Parses `text` as the step `number` of a pattern. A code without an index means every box with this code if `each`,
/// and the first otherwise.
fn step_of(text: &str, number: u64, each: bool) -> Result<Step, PathError>
    ensures { MatchResult result (IsStep each text.now) (IsStepFault text.now number) }
{
    if text == "*" {
        return Ok(Step::Any);
    }
    let Some((code, rest)) = path_code(text) else {
        return Err(PathError::Code(number));
    };
    if is_each(rest, each) {
        return Ok(Step::Each(code));
    }
    let Some(index) = path_index(rest) else {
        return Err(PathError::Index(number));
    };
    Ok(Step::One(PathPart { code, index }))
}

/// Appends a step to `steps`.
fn push_step(step: Step, steps: &mut Vec<Step>) -> mp4_show::Result<()>
    ensures { OnOk result (steps.new.items ≡ steps.old.items ++ step ∷ []) }
{
    steps.push(step)?;
    Ok(())
}

/// Returns whether any boxes may be around those of the steps of the pattern `text`, and the text of the steps.
fn steps_in(text: &str) -> (bool, &str)
    ensures anywhere { result.0 ≡ is_anywhere text.now }
    ensures steps { result.1.now ≡ steps_text text.now }
{
    match text.strip_prefix("**/") {
        Some(steps) => (true, steps),
        None => (false, text),
    }
}

/// Returns whether a code without an index in step `number` means every box with this code: it does right after `**/`.
fn means_each(anywhere: bool, number: u64) -> bool
    ensures { result ≡ (anywhere && (number == 0)) }
{
    anywhere && number == 0
}

impl Pattern {
    /// Parses `text` as a pattern, such as `moov/trak[*]/tkhd` or `**/pssh`. It is a path as `BoxPath` has it, with
    /// these additions: `*` is any box, `[*]` after a code is every box with this code, and `**/` at the beginning
    /// allows any boxes around the rest. Right after `**/` a code without an index is every box with this code.
    pub(crate) fn parse(alloc: Global, text: &str) -> Result<Pattern, PathError>
        ensures ok { IfOk result (λ pattern. IsPattern text.now pattern) }
        ensures fault { IfErr result (λ e. e ≢ PathError.Memory → IsPatternFault text.now e) }
    {
        let (anywhere, inner) = steps_in(text);
        let texts = inner.split('/').collect::<Vec<&str>>(alloc)?;
        let mut steps = Vec::new(alloc);
        for piece in &texts {
            let number = steps.len() as u64;
            let each = means_each(anywhere, number);
            push_step(step_of(piece, number, each)?, &mut steps)?;
        }
        Ok(Pattern { anywhere, steps })
    }
}
