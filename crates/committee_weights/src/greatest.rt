//! The greatest number that is safe for one list of weights, found by trying all subsets.
ghost use Rattle.std.specs.Prelude.{◌≡◌, ℕ, ◌+◌, ◌<◌, ◌≤◌, ◌^◌, ◌⊎◌, IfNone, IfSome, length, sum};
ghost use Rattle.committee_weights.specs.Members.{faulty_weight};
ghost use Rattle.committee_weights.specs.Searches.{AreLight, IsGreatestSafe, IsLightFrom};

use crate::weights::Weights;
use std::alloc::Allocator;

/// Returns the greatest number that is safe for these weights, which is (total - 1) / k or more:
/// the greatest f for which any two subsets that weigh all but at most f share at least
/// (k - 2)f + 1. It requires that `k` is at least 2, and that there are at most 20 participants,
/// since it tries up to 3^n ways to put n of them into two subsets.
///
/// Of the weights 2 and 1 it is 1 at a `k` of 3, and of 1, 1 and 1 it is 0, though both are 3 in
/// all.
pub fn greatest_safe<A: Allocator>(k: u32, weights: &Weights<A>) -> u64
    requires resilience { 2 ≤ k }
    requires few { length weights.now ≤ 20 }
    ensures greatest { IsGreatestSafe k weights.now result }
    ensures at_least { faulty_weight k (sum weights.now) ≤ result }
{
    let none = Parts {
        one: 0,
        other: 0,
        both: 0,
    };
    let least = least_unsafe(k, weights.as_slice(), none, weights.total());
    least - 1
}

/// What participants weigh that are in the one of two subsets alone, in the other alone, and in
/// both.
#[derive(Clone, Copy)]
struct Parts {
    one: u64,
    other: u64,
    both: u64,
}

/// Returns the least number at which these parts are light, or `None` where they are at no number.
fn least_for(k: u32, parts: Parts) -> Option<u64>
    requires { 2 ≤ k }
    ensures light { IfSome result (AreLight k parts.one parts.other parts.both) }
    ensures least { IfSome result (λ least.
        (f : ℕ) → AreLight k parts.one parts.other parts.both f → least ≤ f) }
    ensures none { IfNone result
        ((f : ℕ) → ¬ AreLight k parts.one parts.other parts.both f) }
{
    let most = parts.one.max(parts.other);
    let shares = (k - 2) as u64;
    if parts.both == 0 {
        return Some(most);
    }
    if shares == 0 {
        return None;
    }
    Some(most.max((parts.both - 1) / shares + 1))
}

/// Returns the least number, up to `best`, at which some way to put the rest of the participants
/// into the parts leaves them light; or `best`, where there is none.
fn least_unsafe(k: u32, rest: &[u64], parts: Parts, best: u64) -> u64
    requires resilience { 2 ≤ k }
    requires fits { parts.one + parts.other + parts.both + sum rest.now < 2 ^ 64 }
    ensures most { result ≤ best }
    ensures found { (result ≡ best)
        ⊎ IsLightFrom k rest.now parts.one parts.other parts.both result }
    ensures least { (f : ℕ) → IsLightFrom k rest.now parts.one parts.other parts.both f
        → result ≤ f }
{
    let Some(least) = least_for(k, parts) else {
        return best;
    };
    if best <= least {
        return best;
    }
    let Some((weight, others)) = rest.split_first() else {
        return least;
    };
    let one = Parts {
        one: parts.one + *weight,
        ..parts
    };
    let best = least_unsafe(k, others, one, best);
    let other = Parts {
        other: parts.other + *weight,
        ..parts
    };
    let best = least_unsafe(k, others, other, best);
    let both = Parts {
        both: parts.both + *weight,
        ..parts
    };
    least_unsafe(k, others, both, best)
}
