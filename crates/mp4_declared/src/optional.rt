//! Shapes that are present only in some versions, or only with some flags.

ghost use Rattle.std.specs.Prelude.{◌≡◌, ◌==◌, Bool, nat_le, nat_lt, bit_and, option_map};
ghost use Rattle.mp4_declared.specs.OptionalShapes.{shape_if};
ghost use Rattle.mp4_declared.specs.declared.context.Context.{Context};
ghost use Rattle.mp4_declared.specs.OptionalShapesLaws.{laws_if};

use crate::context::Context;
use crate::shape::{PutShape, Shape};
use mp4_frame::Result;
use std::alloc::Global;

/// A condition on version and flags, under which a shape is present.
pub trait Condition {
    /// The contexts in which the condition holds.
    ghost holds: { Context → Bool };

    /// Returns whether the condition holds in `context`.
    fn holds(context: Context) -> bool
        ensures { result ≡ holds context };
}

/// The condition that the version is `V` or later.
pub struct FromVersion<const V: u8>;

impl<const V: u8> Condition for FromVersion<V> {
    ghost holds = { λ c. nat_le V c.version };

    #[inline]
    fn holds(context: Context) -> bool {
        V <= context.version
    }
}

/// The condition that the version is 0.
pub struct VersionZero;

impl Condition for VersionZero {
    ghost holds = { λ c. c.version == 0 };

    #[inline]
    fn holds(context: Context) -> bool {
        context.version == 0
    }
}

/// The condition that at least one flag of `MASK` is set.
pub struct IfFlags<const MASK: u32>;

impl<const MASK: u32> Condition for IfFlags<MASK> {
    ghost holds = { λ c. nat_lt 0 (bit_and c.flags MASK) };

    #[inline]
    fn holds(context: Context) -> bool {
        context.flags & MASK > 0
    }
}

/// An `S` if `P` holds, and otherwise no bytes.
pub struct If<P, S>(P, S);

impl<P: Condition, S: Shape> Shape for If<P, S> {
    type Value = Option<S::Value>;

    ghost shape = { shape_if P.holds S.shape };

    ghost shape_laws = { laws_if P.holds S.shape S.shape_laws };

    #[inline]
    fn is_fixed() -> bool {
        false
    }

    #[inline]
    fn front(context: Context) -> usize {
        if P::holds(context) {
            S::front(context)
        } else {
            0
        }
    }

    #[inline]
    fn read(
        alloc: Global,
        bytes: &[u8],
        at: usize,
        end: u64,
        context: Context,
    ) -> Result<(Option<S::Value>, usize)> {
        if !P::holds(context) {
            return Ok((None, at));
        }
        let (value, next) = S::read(alloc, bytes, at, end, context)?;
        Ok((Some(value), next))
    }
}

impl<P: Condition, S: PutShape<V>, V: Copy> PutShape<Option<V>> for If<P, S> {
    ghost content = { option_map S.content };

    #[inline]
    fn size(context: Context, value: Option<V>) -> u64 {
        match value {
            Some(value) => S::size(context, value),
            None => 0,
        }
    }

    #[inline]
    fn fits(context: Context, value: Option<V>) -> bool {
        match value {
            Some(value) => P::holds(context) && S::fits(context, value),
            None => !P::holds(context),
        }
    }

    #[inline]
    fn put(out: &mut [u8], at: usize, context: Context, value: Option<V>) -> usize {
        match value {
            Some(value) => S::put(out, at, context, value),
            None => at,
        }
    }
}
