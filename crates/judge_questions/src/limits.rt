//! The ranges that a question gives for the lengths of a type.
ghost use Rattle.std.specs.Prelude.{◌≡◌, ◌↔◌, IsTrue};
ghost use Rattle.std.specs.Int.NonZero.{non_zero_usize_get};
ghost use Rattle.std.specs.Option.{option_map};
ghost use Rattle.commonware_base.specs.Range.{as_numbers, bound_as_number};
ghost use Rattle.judge_questions.specs.Limits.{HasNoZero, IsLowerNotZero, IsUpperNotZero, full};

use crate::form::Form;
use commonware_base::codec::RangeCfg;
use std::marker::Model;
use std::num::NonZeroUsize;
use std::ops::Bound;

/// A range of numbers, as a question writes it.
///
/// `5..` has the lower bound 5 and no upper one: a list of bytes `[4, 1]`, which states the length
/// 4, is outside it.
#[derive(Clone, Copy)]
pub struct Limit {
    lower: Option<usize>,
    upper: Bound<usize>,
}

impl Model for Limit {
    ghost use Rattle.std.specs.Prelude.{ℕ};
    ghost use Rattle.commonware_base.specs.Range.{Bounds};

    ghost Value = { Bounds ℕ };

    ghost view = { λ limit. record { lower = limit.lower; upper = limit.upper } };

    ghost inverse = { λ bounds. record { lower = bounds.lower; upper = bounds.upper } };
}

impl Limit {
    /// The range between two bounds, of which each may be missing.
    pub fn new(lower: Option<usize>, upper: Bound<usize>) -> Limit
        ensures lower { result.lower ≡ lower }
        ensures upper { result.upper ≡ upper }
    {
        Limit { lower, upper }
    }

    /// The range of all numbers.
    pub fn full() -> Limit
        ensures { result ≡ full }
    {
        Limit::new(None, Bound::Unbounded)
    }

    /// Whether no bound is 0, as the length of a non-empty list requires.
    pub fn has_no_zero(self) -> bool
        ensures { IsTrue result ↔ HasNoZero self }
    {
        let above = match self.lower {
            Some(lower) => lower != 0,
            None => true,
        };
        let below = match self.upper {
            Bound::Included(upper) | Bound::Excluded(upper) => upper != 0,
            Bound::Unbounded => true,
        };
        above && below
    }

    /// The range as a configuration of a reader.
    pub fn range(self) -> RangeCfg<usize>
        ensures { result ≡ self }
    {
        between(self.lower, self.upper)
    }

    /// The range as a configuration of a reader of non-empty lists. No bound is 0.
    pub fn non_zero(self) -> RangeCfg<NonZeroUsize>
        requires { HasNoZero self }
        ensures { as_numbers result ≡ self }
    {
        between(non_zero_lower(self.lower), non_zero_upper(self.upper))
    }
}

/// The lower bound as a number that isn't 0.
fn non_zero_lower(lower: Option<usize>) -> Option<NonZeroUsize>
    requires { IsLowerNotZero lower }
    ensures { option_map non_zero_usize_get result ≡ lower }
{
    match lower {
        Some(lower) => Some(NonZeroUsize::new(lower).unwrap()),
        None => None,
    }
}

/// The upper bound as a number that isn't 0.
fn non_zero_upper(upper: Bound<usize>) -> Bound<NonZeroUsize>
    requires { IsUpperNotZero upper }
    ensures { bound_as_number result ≡ upper }
{
    match upper {
        Bound::Included(upper) => Bound::Included(NonZeroUsize::new(upper).unwrap()),
        Bound::Excluded(upper) => Bound::Excluded(NonZeroUsize::new(upper).unwrap()),
        Bound::Unbounded => Bound::Unbounded,
    }
}

/// The configuration between two bounds.
fn between<T>(lower: Option<T>, upper: Bound<T>) -> RangeCfg<T>
    ensures lower { result.lower ≡ lower }
    ensures upper { result.upper ≡ upper }
{
    match (lower, upper) {
        (None, Bound::Unbounded) => RangeCfg::from(..),
        (None, Bound::Excluded(end)) => RangeCfg::from(..end),
        (None, Bound::Included(end)) => RangeCfg::from(..=end),
        (Some(start), Bound::Unbounded) => RangeCfg::from(start..),
        (Some(start), Bound::Excluded(end)) => RangeCfg::from(start..end),
        (Some(start), Bound::Included(end)) => RangeCfg::from(start..=end),
    }
}

/// The ranges of a type's lengths, the outermost first. Those that the type doesn't have are full.
///
/// Those of `vec<vec<u8>> .. ..=0 02010700` are `..` and `..=0`, and the third is full: the first
/// inner list has one item too many.
#[derive(Clone, Copy)]
pub struct Limits {
    pub first: Limit,
    pub second: Limit,
    pub third: Limit,
}

impl Limits {
    ghost use Rattle.judge_questions.specs.Questions.{IsFit};

    /// Whether they can be those of the type: no non-empty list has a bound 0.
    pub fn fit(&self, form: Form) -> bool
        ensures { IsTrue result ↔ IsFit form self.now }
    {
        match form {
            Form::SetNonEmptyU8 => self.second.has_no_zero(),
            Form::NonEmptyU8 => self.first.has_no_zero(),
            Form::NonEmptyNonEmptyU8 => self.first.has_no_zero() && self.second.has_no_zero(),
            _ => true,
        }
    }
}
