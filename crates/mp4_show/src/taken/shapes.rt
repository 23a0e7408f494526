//! Shapes of the codec's boxes: boxes in boxes, texts, flags, fixed-point pairs, rectangles and transformations.

ghost use Rattle.std.specs.Prelude.{◌≡◌, ◌/◌, ◌%◌, ◌<◌, ◌^◌};
ghost use Rattle.json.specs.Value.{value_view};
ghost use Rattle.mp4_shown.specs.Event.{Text as SeenText, seen_text};
ghost use Rattle.mp4_shown.specs.Numbers.{NumberName as SeenName, seen_number};
ghost use Rattle.mp4_show.specs.Lists.{list_name};
ghost use Rattle.mp4_show.specs.TakenShapes.{flag_taken, four_or_none, make_matrix, plain_text, plain_text_taken};
ghost use Rattle.mp4_show.specs.TakenShapes.{rectangle_taken, resolution_taken, signed_small_in};
ghost use Rattle.mp4_shown.specs.TakenLists.{entries_taken, list_taken};
ghost use Rattle.mp4_shown.specs.TakenNumbers.{at_path};
ghost use Rattle.mp4_shown.specs.Object.{has, left};
ghost use Rattle.mp4_shown.specs.TakenShapes.{group_taken, made_of, small_taken, taken_if};
ghost use Rattle.mp4_shown.specs.Taking.{TakesAs};
ghost use Rattle.mp4_show.specs.declared.taken.shapes.TheConstants.{MATRIX};

use crate::taken::take_box::{TakeBox, TakeCodecEntry};
use json::Value;
use mp4_declared::{Context, I32, Last};
use mp4_flat::Matrix;
use mp4_frame::{Entries, Text};
use mp4_shown::taken::integer::signed_in;
use mp4_shown::taken::{
    Error, Object, Reason, Result, TakeItem, TakeShape, WideItem, refuse, take_array, take_each,
    take_list, take_number,
};
use mp4_shown::{Group, ListAs, NumberAs, NumberName, names_of, number};
use std::alloc::Global;

/// The fields of a `B` in another box, by their own names: members beside others.
pub(crate) struct FieldsOf<B>(B);

impl<B: TakeBox> TakeShape for FieldsOf<B> {
    type Names = ();

    type Taken = B;

    ghost Known = { Unit {0} };

    ghost known = { λ names. names };

    ghost taken = { λ names c ms. B.TakeBox.taken ms };

    fn take(alloc: Global, _names: &(), _context: Context, object: &mut Object<'_>) -> Result<B> {
        B::take(alloc, object)
    }
}

/// An `S` that may be absent. The member says whether it is present.
pub(crate) struct Optional<S>(S);

impl<S: TakeShape> TakeShape for Optional<Group<S>> {
    type Names = (&'static str, S::Names);

    type Taken = Option<S::Taken>;

    ghost Known = { SeenText × S.TakeShape.Known };

    ghost known = { λ names. (seen_text names.0, S.TakeShape.known names.1) };

    ghost taken = { λ names c ms. taken_if (has names.0.now ms)
        (group_taken names.0.now (S.TakeShape.taken names.1 c)) ms };

    fn take(
        alloc: Global,
        names: &(&'static str, S::Names),
        context: Context,
        object: &mut Object<'_>,
    ) -> Result<Option<S::Taken>> {
        if object.has(names.0) {
            Ok(Some(Group::<S>::take(alloc, names, context, object)?))
        } else {
            Ok(None)
        }
    }
}

/// Returns the text that `value` is. Another value is refused, with the path `path`.
fn text_in(alloc: Global, path: &str, value: &Value<'_>) -> Result<Text>
    ensures { TakesAs (λ text. text) result (at_path path.now (plain_text (value_view value.now))) }
{
    let Some(text) = value.as_str() else {
        return Err(refuse(alloc, path, Reason::NotText));
    };
    match Text::from_str(alloc, text) {
        Ok(text) => Ok(text),
        Err(_) => Err(Error::OutOfMemory),
    }
}

/// Takes the text called `name` out.
pub(crate) fn take_plain_text(alloc: Global, name: &str, object: &mut Object<'_>) -> Result<Text>
    ensures { TakesAs (λ text. (text, left object.new)) result (plain_text_taken name.now (left object.old)) }
{
    let value = object.take_one(alloc, name)?;
    text_in(alloc, name, &value)
}

/// Bytes that are meant as a text.
pub(crate) struct LossyText;

impl TakeShape for LossyText {
    type Names = &'static str;

    type Taken = Text;

    ghost Known = { SeenText };

    ghost known = { seen_text };

    ghost taken = { λ name c ms. plain_text_taken name.now ms };

    fn take(
        alloc: Global,
        name: &&'static str,
        _context: Context,
        object: &mut Object<'_>,
    ) -> Result<Text> {
        take_plain_text(alloc, *name, object)
    }
}

/// A flag, which is 0 or 1.
pub(crate) struct FlagBit;

impl TakeShape for FlagBit {
    type Names = NumberName;

    type Taken = bool;

    ghost Known = { SeenName };

    ghost known = { seen_number };

    ghost taken = { λ name c ms. flag_taken name ms };

    fn take(
        alloc: Global,
        name: &NumberName,
        _context: Context,
        object: &mut Object<'_>,
    ) -> Result<bool> {
        Ok(take_number(alloc, *name, 1, object)? == 1)
    }
}

/// Returns the halves of 16 bits of `number`.
fn halves_of(number: u64) -> (u16, u16)
    requires { number < 2 ^ 32 }
    ensures { result ≡ (number / 65536, number % 65536) }
{
    ((number / 65_536) as u16, (number % 65_536) as u16)
}

/// A resolution of 16.16 bits, as its whole part and its fraction.
pub(crate) struct Resolution;

impl TakeShape for Resolution {
    type Names = &'static str;

    type Taken = (u16, u16);

    ghost Known = { SeenText };

    ghost known = { seen_text };

    ghost taken = { λ name c ms. resolution_taken name.now ms };

    fn take(
        alloc: Global,
        name: &&'static str,
        _context: Context,
        object: &mut Object<'_>,
    ) -> Result<(u16, u16)> {
        let number = take_number(alloc, (*name, NumberAs::Fixed(16), &[]), 32, object)?;
        Ok(halves_of(number))
    }
}

/// An entry that is a signed number of 16 bits.
#[derive(Drop)]
struct SignedItem;

impl TakeItem<i16> for SignedItem {
    ghost taken = { λ by j. signed_small_in j };

    fn take(&self, alloc: Global, value: Value<'_>) -> Result<i16> {
        let Some(number) = signed_in(&value) else {
            return Err(refuse(alloc, "", Reason::NotWhole));
        };
        if number < -(1 << 15) || number > (1 << 15) - 1 {
            return Err(refuse(alloc, "", Reason::OutOfRange));
        }
        Ok(number as i16)
    }
}

/// Returns the four `numbers`, or `None` if there are more or fewer.
fn four_of(numbers: &[i16]) -> Option<[i16; 4]>
    ensures { result ≡ four_or_none numbers.now }
{
    if numbers.len() == 4 {
        Some([numbers[0], numbers[1], numbers[2], numbers[3]])
    } else {
        None
    }
}

/// The four numbers of a rectangle.
pub(crate) struct Rectangle;

impl TakeShape for Rectangle {
    type Names = &'static str;

    type Taken = [i16; 4];

    ghost Known = { SeenText };

    ghost known = { seen_text };

    ghost taken = { λ name c ms. rectangle_taken name.now ms };

    fn take(
        alloc: Global,
        name: &&'static str,
        _context: Context,
        object: &mut Object<'_>,
    ) -> Result<[i16; 4]> {
        let items = take_array(alloc, *name, object)?;
        let numbers: Vec<i16> = take_each(alloc, *name, &SignedItem, items)?;
        match four_of(numbers.as_slice()) {
            Some(four) => Ok(four),
            None => Err(refuse(alloc, *name, Reason::WrongCount)),
        }
    }
}

/// The numbers of a transformation: those of its last column have 30 bits after the point, the others 16.
type MatrixShape = (I32, I32, I32, I32, (I32, I32, I32, I32, Last<I32>));

/// The names of these numbers.
const MATRIX: &<MatrixShape as TakeShape>::Names = &names_of!(
    number!("a", Fixed(16)),
    number!("b", Fixed(16)),
    number!("u", Fixed(30)),
    number!("c", Fixed(16)),
    number!("d", Fixed(16)),
    number!("v", Fixed(30)),
    number!("x", Fixed(16)),
    number!("y", Fixed(16)),
    number!("w", Fixed(30))
);

/// The transformation of a video.
pub(crate) struct Transformation;

impl TakeShape for Transformation {
    type Names = &'static str;

    type Taken = Matrix;

    ghost Known = { SeenText };

    ghost known = { seen_text };

    ghost taken = { λ name c ms. made_of make_matrix
        (group_taken name.now (⟦<MatrixShape as TakeShape>⟧.taken MATRIX.now c)) ms };

    fn take(
        alloc: Global,
        name: &&'static str,
        context: Context,
        object: &mut Object<'_>,
    ) -> Result<Matrix> {
        let names = (*name, *MATRIX);
        let (a, (b, (u, (c, rest)))) = Group::<MatrixShape>::take(alloc, &names, context, object)?;
        let (d, (v, (x, (y, (w, ()))))) = rest;
        Ok(Matrix {
            a,
            b,
            u,
            c,
            d,
            v,
            x,
            y,
            w,
        })
    }
}

/// A list of numbers of 64 bits.
pub(crate) struct WideNumbers;

impl TakeShape for WideNumbers {
    type Names = &'static str;

    type Taken = Entries<u64>;

    ghost Known = { SeenText };

    ghost known = { seen_text };

    ghost taken = { λ name c ms. small_taken 64 name.now ms };

    fn take(
        alloc: Global,
        name: &&'static str,
        _context: Context,
        object: &mut Object<'_>,
    ) -> Result<Entries<u64>> {
        let items = take_array(alloc, *name, object)?;
        let numbers: Vec<u64> = take_each(alloc, *name, &WideItem, items)?;
        Ok(numbers.into())
    }
}

/// A list of entries `X`. Version and flags say what an entry has.
pub(crate) struct EntriesIn<X>(X);

/// An entry of a list in a context.
#[derive(Drop)]
struct CodecItem {
    context: Context,
}

impl<X: TakeCodecEntry> TakeItem<X> for CodecItem {
    ghost taken = { λ by j. X.taken by.context j };

    fn take(&self, alloc: Global, value: Value<'_>) -> Result<X> {
        X::take(alloc, self.context, value)
    }
}

impl<X: TakeCodecEntry> TakeShape for EntriesIn<X> {
    type Names = &'static str;

    type Taken = Entries<X>;

    ghost Known = { SeenText };

    ghost known = { seen_text };

    ghost taken = { λ name c ms. entries_taken (X.TakeCodecEntry.taken c) (list_name name.now)
        (list_taken (list_name name.now) ms) };

    fn take(
        alloc: Global,
        name: &&'static str,
        context: Context,
        object: &mut Object<'_>,
    ) -> Result<Entries<X>> {
        let items = take_list(alloc, (*name, ListAs::Entries, *name), object)?;
        let entries: Vec<X> = take_each(alloc, *name, &CodecItem { context }, items)?;
        Ok(entries.into())
    }
}
