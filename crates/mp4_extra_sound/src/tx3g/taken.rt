//! Takes the box back out of its JSON.

ghost use Rattle.mp4_declared.specs.OwnBox.{no_context};
ghost use Rattle.mp4_extra_sound.specs.declared.tx3g.TheConstants as tx3g;
ghost use Rattle.mp4_shown.specs.TakenShapes.{made_of};
ghost use Rattle.mp4_extra_sound.specs.TakenTx3g.{make_tx3g};

use super::{BoxRecord, BoxRecordShape, StyleRecord, Tx3g, Tx3gShown};
use crate::tx3g;
use mp4_declared::DeclaredEntry;
use mp4_frame::Entries;
use mp4_shown::taken::{NO_CONTEXT, Object, Result, TakeFields, TakeShape};
use std::alloc::Global;

impl TakeFields for BoxRecord {
    ghost taken = { made_of ⟦<BoxRecord as DeclaredEntry>⟧.layout.value
        (⟦<BoxRecordShape as TakeShape>⟧.taken tx3g.CORNERS.now no_context) };

    fn take(alloc: Global, object: &mut Object<'_>) -> Result<BoxRecord> {
        let content = BoxRecordShape::take(alloc, tx3g::CORNERS, NO_CONTEXT, object)?;
        Ok(BoxRecord::from_content(content))
    }
}

impl TakeFields for Tx3g {
    ghost taken = { made_of make_tx3g (⟦<Tx3gShown as TakeShape>⟧.taken tx3g.NAMES.now no_context) };

    fn take(alloc: Global, object: &mut Object<'_>) -> Result<Tx3g> {
        let (data_reference_index, (display_flags, (horizontal, (vertical, rest)))) =
            Tx3gShown::take(alloc, tx3g::NAMES, NO_CONTEXT, object)?;
        let (background_color_rgba, (default_text_box, (style, ()))) = rest;
        let (start_char, (end_char, (font_id, (face_style_flags, (font_size, (color, ())))))) =
            style;
        Ok(Tx3g {
            data_reference_index,
            display_flags,
            horizontal_justification: horizontal,
            vertical_justification: vertical,
            background_color_rgba,
            default_text_box,
            default_style: StyleRecord {
                start_char,
                end_char,
                font_id,
                face_style_flags,
                font_size,
                text_color_rgba: color,
            },
            boxes: Entries::new(alloc),
        })
    }
}
