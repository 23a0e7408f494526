//! Shapes that only the codec's boxes have: numbers of a few bits, strings that end with a zero byte, and conditions on
//! the version.

ghost use Rattle.std.specs.Prelude.{◌≡◌, min, nat_lt};
ghost use Rattle.mp4_shown.specs.Event.{Text as SeenText, seen_text};
ghost use Rattle.mp4_shown.specs.Numbers.{NumberName as SeenName, seen_number};
ghost use Rattle.mp4_show.specs.TakenShapes.{ended_text_taken};
ghost use Rattle.mp4_shown.specs.TakenNumbers.{number_taken};

use crate::taken::shapes::take_plain_text;
use mp4_declared::{Condition, Context};
use mp4_frame::Text;
use mp4_shown::NumberName;
use mp4_shown::taken::{Object, Reason, Result, TakeShape, has_no_zero, refuse, take_number};
use std::alloc::Global;

/// A number of `N` bits, at most 8.
pub(crate) struct Small<const N: u32>;

impl<const N: u32> TakeShape for Small<N> {
    type Names = NumberName;

    type Taken = u8;

    ghost Known = { SeenName };

    ghost known = { seen_number };

    ghost taken = { λ name c ms. number_taken name (min N 8) ms };

    fn take(
        alloc: Global,
        name: &NumberName,
        _context: Context,
        object: &mut Object<'_>,
    ) -> Result<u8> {
        Ok(take_number(alloc, *name, N.min(8), object)? as u8)
    }
}

/// A text without a zero byte.
pub(crate) struct EndedText;

impl TakeShape for EndedText {
    type Names = &'static str;

    type Taken = Text;

    ghost Known = { SeenText };

    ghost known = { seen_text };

    ghost taken = { λ name c ms. ended_text_taken name.now ms };

    fn take(
        alloc: Global,
        name: &&'static str,
        _context: Context,
        object: &mut Object<'_>,
    ) -> Result<Text> {
        let text = take_plain_text(alloc, *name, object)?;
        if has_no_zero(text.as_bytes()) {
            Ok(text)
        } else {
            Err(refuse(alloc, *name, Reason::ZeroByte))
        }
    }
}

/// The condition that the version is below `V`.
pub(crate) struct BelowVersion<const V: u8>;

impl<const V: u8> Condition for BelowVersion<V> {
    ghost holds = { λ c. nat_lt c.version V };

    fn holds(context: Context) -> bool {
        context.version < V
    }
}
