//! Ranges of lengths and numbers.
ghost use Rattle.std.specs.Prelude.{◌≡◌, ℕ, ◌↔◌, IsTrue, Some, None};
ghost use Rattle.std.specs.declared.ops.Bound.TheVariants.{Included, Excluded, Unbounded};
ghost use Rattle.std.specs.Int.NonZero.{non_zero_usize_get};
ghost use Rattle.std.specs.Range.{range_inclusive_start, range_inclusive_end};
ghost use Rattle.commonware_base.specs.Range.{Within, as_numbers, bound_as_number, exactly, numbers_of};

use std::marker::Model;
use std::num::NonZeroUsize;
use std::ops::{Bound, Range, RangeFrom, RangeFull, RangeInclusive, RangeTo, RangeToInclusive};

/// A range of lengths or numbers: a lower bound that is in it, where it has one, and an upper
/// bound. A range that is empty or reversed holds no number.
///
/// `RangeCfg::from(1..3)` holds 1 and 2, and neither 0 nor 3.
#[derive(Clone, Copy, Debug)]
pub struct RangeCfg<T> {
    lower: Option<T>,
    upper: Bound<T>,
}

impl<T> Model for RangeCfg<T> {
    ghost use Rattle.commonware_base.specs.Range.{Bounds};

    ghost Value = { Bounds T };

    ghost view = { λ range. record { lower = range.lower; upper = range.upper } };

    ghost inverse = { λ bounds. record { lower = bounds.lower; upper = bounds.upper } };
}

impl<T: Copy> RangeCfg<T> {
    /// The range of one number alone.
    pub fn exact(number: T) -> Self
        ensures bounds { result ≡ exactly number }
        // in whichever way a `T` is seen as a number
        ensures holds { (seen : T → ℕ) (n : ℕ) →
            Within (numbers_of seen result) n ↔ (n ≡ seen number) }
    {
        RangeCfg {
            lower: Some(number),
            upper: Bound::Included(number),
        }
    }
}

impl RangeCfg<usize> {
    /// Whether the number is between the bounds.
    pub fn contains(&self, number: &usize) -> bool
        ensures { IsTrue result ↔ Within self.now number.now }
    {
        let above = match self.lower {
            Some(lower) => lower <= *number,
            None => true,
        };
        let below = match self.upper {
            Bound::Included(upper) => *number <= upper,
            Bound::Excluded(upper) => *number < upper,
            Bound::Unbounded => true,
        };
        above && below
    }
}

impl RangeCfg<NonZeroUsize> {
    /// Whether the number is between the bounds.
    pub fn contains(&self, number: &NonZeroUsize) -> bool
        ensures { IsTrue result ↔ Within (as_numbers self.now) (non_zero_usize_get number.now) }
    {
        RangeCfg::<usize>::from(*self).contains(&number.get())
    }
}

impl<T> From<RangeFull> for RangeCfg<T> {
    ghost from_gives = { λ _ r. r ≡ record { lower = None; upper = Unbounded } };

    fn from(_range: RangeFull) -> Self {
        RangeCfg {
            lower: None,
            upper: Bound::Unbounded,
        }
    }
}

impl<T> From<RangeFrom<T>> for RangeCfg<T> {
    ghost from_gives = { λ range r. r ≡ record { lower = Some range.start; upper = Unbounded } };

    fn from(range: RangeFrom<T>) -> Self {
        RangeCfg {
            lower: Some(range.start),
            upper: Bound::Unbounded,
        }
    }
}

impl<T> From<RangeTo<T>> for RangeCfg<T> {
    ghost from_gives = { λ range r. r ≡ record { lower = None; upper = Excluded range.end } };

    fn from(range: RangeTo<T>) -> Self {
        RangeCfg {
            lower: None,
            upper: Bound::Excluded(range.end),
        }
    }
}

impl<T> From<RangeToInclusive<T>> for RangeCfg<T> {
    ghost from_gives = { λ range r. r ≡ record { lower = None; upper = Included range.end } };

    fn from(range: RangeToInclusive<T>) -> Self {
        RangeCfg {
            lower: None,
            upper: Bound::Included(range.end),
        }
    }
}

impl<T> From<Range<T>> for RangeCfg<T> {
    ghost from_gives = { λ range r.
        r ≡ record { lower = Some range.start; upper = Excluded range.end } };

    fn from(range: Range<T>) -> Self {
        RangeCfg {
            lower: Some(range.start),
            upper: Bound::Excluded(range.end),
        }
    }
}

impl<T> From<RangeInclusive<T>> for RangeCfg<T> {
    ghost from_gives = { λ range r. r ≡ record {
      lower = Some (range_inclusive_start range);
      upper = Included (range_inclusive_end range);
    } };

    fn from(range: RangeInclusive<T>) -> Self {
        let (start, end) = range.into_inner();
        RangeCfg {
            lower: Some(start),
            upper: Bound::Included(end),
        }
    }
}

impl From<RangeCfg<NonZeroUsize>> for RangeCfg<usize> {
    ghost from_gives = { λ range r. r ≡ as_numbers range };

    fn from(range: RangeCfg<NonZeroUsize>) -> Self {
        RangeCfg {
            lower: range.lower.map(|lower| lower.get()),
            upper: number_bound(range.upper),
        }
    }
}

/// The bound as a number.
fn number_bound(bound: Bound<NonZeroUsize>) -> Bound<usize>
    ensures { result ≡ bound_as_number bound }
{
    match bound {
        Bound::Included(n) => Bound::Included(n.get()),
        Bound::Excluded(n) => Bound::Excluded(n.get()),
        Bound::Unbounded => Bound::Unbounded,
    }
}
