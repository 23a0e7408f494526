//! The boxes of the top level that are kept.

use crate::forms::refusal::{FormRefusal, FormStop};
use crate::pieces::{Piece, Plan};
use crate::refusal::Stop;
use mp4_frame::{FourCC, codes, u32_at};
use mp4_walk::{BoxWalk, Source, TreeBox};
use std::alloc::Global;

/// The side of the `moov` on which boxes are.
#[derive(Clone, Copy, Debug, PartialEq, Eq)]
pub enum Side {
    /// Before the `moov`.
    Before,
    /// After the `moov`.
    After,
}

/// Returns whether a box of the top level with `code` is left out: it is new in the new file, or free space, or an
/// index of fragments, or speaks of the fragment after it.
fn is_left_out(code: u32) -> bool {
    matches!(
        code,
        codes::FTYP
            | codes::PRFT
            | codes::MOOV
            | codes::MDAT
            | codes::FREE
            | codes::SKIP
            | codes::WIDE
            | codes::STYP
            | codes::SIDX
            | codes::SSIX
            | codes::MOOF
            | codes::MFRA
    )
}

/// Returns the first box of the top level with `code`.
pub(crate) fn first_top(boxes: &[TreeBox], code: u32) -> Option<TreeBox> {
    for found in boxes {
        if found.depth == 0 && found.has_code(FourCC::from(code)) {
            return Some(*found);
        }
    }
    None
}

/// Adds `piece` to `plan`.
pub(crate) fn push_piece(plan: &mut Plan, piece: Piece) -> Result<(), FormStop> {
    Ok(plan.push(piece)?)
}

/// Refuses `found` if its header has no size, since it then goes up to the end of the file.
fn check_size<S: Source>(
    alloc: Global,
    walk: &mut BoxWalk<S>,
    found: &TreeBox,
    code: FourCC,
) -> Result<(), Stop> {
    let front = TreeBox {
        length: 4,
        ..*found
    };
    let bytes = walk.read_box(alloc, &front)?;
    if bytes.len() < 4 || u32_at(&bytes, 0) == 0 {
        return Err(Stop::from(FormRefusal::Endless {
            code,
            position: found.position,
        }));
    }
    Ok(())
}

/// Adds the boxes of the top level to `plan` that are kept, and are on this side of the `moov` at position `movie`.
pub(crate) fn push_kept<S: Source>(
    alloc: Global,
    walk: &mut BoxWalk<S>,
    boxes: &[TreeBox],
    movie: u64,
    side: Side,
    plan: &mut Plan,
) -> Result<(), Stop> {
    for found in boxes {
        let Some(code) = found.code else {
            continue;
        };
        if found.depth > 0 || is_left_out(u32::from(code)) {
            continue;
        }
        let is_here = match side {
            Side::Before => found.position < movie,
            Side::After => found.position > movie,
        };
        if is_here {
            check_size(alloc, walk, found, code)?;
            push_piece(
                plan,
                Piece::Old {
                    begin: found.position,
                    end: found.position.saturating_add(found.length),
                },
            )?;
        }
    }
    Ok(())
}
