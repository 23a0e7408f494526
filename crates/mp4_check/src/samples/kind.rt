//! The kinds of samples, by their sample entries.

ghost use Rattle.std.specs.Prelude.{◌≡◌, [], ◌∷◌, ◌++◌, IfOk, IfSome, OnOk};
ghost use Rattle.mp4_check.specs.Kinds.{are_known, code_of, coded, is_avc, is_clear, is_hevc, is_known, kind_at};
ghost use Rattle.mp4_check.specs.Kinds.{kind_by, kind_of, kinds_in, kinds_of, or_none, original, units_by};

use crate::samples::codes::{CBCS, CENS, DVA1, DVAV, DVH1, DVHE, FRMA, SCHM};
use crate::samples::field::field_in;
use crate::samples::pcm::{is_pcm, is_quicktime, pcm_frame, quicktime_frame};
use mp4_frame::FourCC;
use mp4_frame::codes::{AVC1, AVC2, AVC3, AVC4, AVCC, ENCV, HEV1, HVC1, HVCC, SINF, STSD};
use mp4_io::Failure;
use mp4_movie::first_in;
use mp4_walk::{BoxWalk, Source, TreeBox};
use std::alloc::{AllocError, Global};

/// The depth of the boxes of a sample table.
const TABLE_DEPTH: u64 = 5;

/// The depth of sample entries.
const ENTRY_DEPTH: u64 = 6;

/// The depth of the boxes in sample entries.
pub const INNER_DEPTH: u64 = 7;

/// The depth of the boxes in a `sinf`.
const SCHEME_DEPTH: u64 = 8;

/// The kind of the samples of a sample entry.
#[derive(Clone, Copy, Debug, PartialEq, Eq)]
pub enum Kind {
    /// There is no rule about them.
    Opaque,
    /// NAL units, each after its length. The lowest two bits of this number are lengthSizeMinusOne.
    Units(u32),
    /// Frames of PCM with this many bytes. 0 is for an unknown number.
    Frames(u64),
    /// The same in QuickTime, which may count a frame as one byte.
    Counted(u64),
}

/// Returns whether `code` is that of an entry of AVC.
fn is_avc(code: u32) -> bool
    ensures { result ≡ is_avc code }
{
    matches!(code, AVC1 | AVC2 | AVC3 | AVC4 | DVA1 | DVAV)
}

/// Returns whether `code` is that of an entry of HEVC.
fn is_hevc(code: u32) -> bool
    ensures { result ≡ is_hevc code }
{
    matches!(code, HVC1 | HEV1 | DVH1 | DVHE)
}

/// Returns the kind of samples whose configuration has `byte` with lengthSizeMinusOne in its lowest two bits.
fn units_by(byte: Option<u32>) -> Kind
    ensures { result ≡ units_by byte }
{
    match byte {
        Some(byte) => Kind::Units(byte),
        None => Kind::Opaque,
    }
}

/// Returns a code, or 0 if there is none.
fn code_of(code: Option<FourCC>) -> u32
    ensures { result ≡ code_of code }
{
    match code {
        Some(code) => u32::from(code),
        None => 0,
    }
}

/// Returns `number`, or 0 if there is none.
pub fn or_none(number: Option<u32>) -> u32
    ensures { result ≡ or_none number }
{
    match number {
        Some(number) => number,
        None => 0,
    }
}

/// Returns whether `scheme` encrypts no lengths of NAL units.
fn is_clear(scheme: Option<u32>) -> bool
    ensures { result ≡ is_clear scheme }
{
    match scheme {
        Some(scheme) => scheme == CENS || scheme == CBCS,
        None => false,
    }
}

/// Returns the code of an entry before it was encrypted, if its scheme leaves lengths in the clear, and 0 otherwise.
/// `sinf` begins with the boxes inside its `sinf`.
fn original<S: Source>(
    alloc: Global,
    walk: &mut BoxWalk<S>,
    sinf: &[TreeBox],
) -> Result<u32, Failure>
    ensures value { IfSome walk.old.bytes (λ file. IfOk result (λ r. r ≡ original file sinf.now)) }
    ensures kept { walk.new ≡ walk.old }
{
    let scheme = field_in(alloc, walk, first_in(sinf, SCHEME_DEPTH, SCHM), 4, 4)?;
    if !is_clear(scheme) {
        return Ok(0);
    }
    let code = field_in(alloc, walk, first_in(sinf, SCHEME_DEPTH, FRMA), 0, 4)?;
    Ok(or_none(code))
}

/// Returns the code of the entry `found`, or the code that it had before it was encrypted. `after` begins with the
/// boxes inside it.
fn coded<S: Source>(
    alloc: Global,
    walk: &mut BoxWalk<S>,
    found: &TreeBox,
    after: &[TreeBox],
) -> Result<u32, Failure>
    ensures value { IfSome walk.old.bytes (λ file. IfOk result (λ r. r ≡ coded file found.now after.now)) }
    ensures kept { walk.new ≡ walk.old }
{
    let code = code_of(found.code);
    if code != ENCV {
        return Ok(code);
    }
    match first_in(after, INNER_DEPTH, SINF) {
        Some(sinf) => original(alloc, walk, sinf.after),
        None => original(alloc, walk, &[]),
    }
}

/// Returns the kind of the samples of the entry `found`, whose code was `code`. `after` begins with the boxes inside
/// it.
fn kind_by<S: Source>(
    alloc: Global,
    walk: &mut BoxWalk<S>,
    code: u32,
    found: &TreeBox,
    after: &[TreeBox],
) -> Result<Kind, Failure>
    ensures value { IfSome walk.old.bytes (λ file. IfOk result (λ r. r ≡ kind_by file code found.now after.now)) }
    ensures kept { walk.new ≡ walk.old }
{
    if is_avc(code) {
        let byte = field_in(alloc, walk, first_in(after, INNER_DEPTH, AVCC), 4, 1)?;
        return Ok(units_by(byte));
    }
    if is_hevc(code) {
        let byte = field_in(alloc, walk, first_in(after, INNER_DEPTH, HVCC), 21, 1)?;
        return Ok(units_by(byte));
    }
    if is_quicktime(code) {
        return Ok(Kind::Counted(quicktime_frame(alloc, walk, code, found)?));
    }
    if is_pcm(code) {
        return Ok(Kind::Frames(pcm_frame(alloc, walk, found, after)?));
    }
    Ok(Kind::Opaque)
}

/// Returns the kind of the samples of the entry `found`. `after` begins with the boxes inside it.
fn kind_of<S: Source>(
    alloc: Global,
    walk: &mut BoxWalk<S>,
    found: &TreeBox,
    after: &[TreeBox],
) -> Result<Kind, Failure>
    ensures value { IfSome walk.old.bytes (λ file. IfOk result (λ r. r ≡ kind_of file found.now after.now)) }
    ensures kept { walk.new ≡ walk.old }
{
    let code = coded(alloc, walk, found, after)?;
    kind_by(alloc, walk, code, found, after)
}

/// Appends `kind` to `kinds`.
fn push_kind(kind: Kind, kinds: &mut Vec<Kind>) -> Result<(), AllocError>
    ensures { OnOk result (kinds.new.items ≡ kinds.old.items ++ kind ∷ []) }
{
    kinds.push(kind)?;
    Ok(())
}

/// Returns the kinds of the entries in `boxes`, which begin with those inside an `stsd`.
fn kinds_of<S: Source>(
    alloc: Global,
    walk: &mut BoxWalk<S>,
    boxes: &[TreeBox],
) -> Result<Vec<Kind>, Failure>
    ensures value { IfSome walk.old.bytes
        (λ file. IfOk result (λ kinds. kinds.items ≡ kinds_of file boxes.now)) }
    ensures kept { walk.new ≡ walk.old }
{
    let mut kinds = Vec::new(alloc);
    'boxes: for index in 0..boxes.len() {
        let found = boxes[index];
        if found.depth < ENTRY_DEPTH {
            return Ok(kinds);
        }
        if found.depth == ENTRY_DEPTH {
            let kind = kind_of(alloc, walk, &found, &boxes[index + 1..])?;
            push_kind(kind, &mut kinds)?;
        }
    }
    Ok(kinds)
}

/// Returns the kinds of the samples of each entry of a sample table. `stbl` begins with the boxes inside the `stbl`.
pub fn kinds_in<S: Source>(
    alloc: Global,
    walk: &mut BoxWalk<S>,
    stbl: &[TreeBox],
) -> Result<Vec<Kind>, Failure>
    ensures value { IfSome walk.old.bytes (λ file. IfOk result (λ kinds. kinds.items ≡ kinds_in file stbl.now)) }
    ensures kept { walk.new ≡ walk.old }
{
    match first_in(stbl, TABLE_DEPTH, STSD) {
        Some(stsd) => kinds_of(alloc, walk, stsd.after),
        None => Ok(Vec::new(alloc)),
    }
}

/// Returns whether there is a rule about samples of this kind.
fn is_known(kind: Kind) -> bool
    ensures { result ≡ is_known kind }
{
    match kind {
        Kind::Opaque => false,
        _ => true,
    }
}

/// Returns whether there is a rule about samples of one of `kinds`.
pub fn are_known(kinds: &[Kind]) -> bool
    ensures { result ≡ are_known kinds.now }
{
    for kind in kinds {
        if is_known(*kind) {
            return true;
        }
    }
    false
}

/// Returns the kind of the samples of entry `index`, counted from 1, of those that have `kinds`.
pub fn kind_at(kinds: &[Kind], index: u32) -> Kind
    ensures { result ≡ kind_at kinds.now index }
{
    if index == 0 || index as usize > kinds.len() {
        return Kind::Opaque;
    }
    kinds[index as usize - 1]
}
