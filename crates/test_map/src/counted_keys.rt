//! A key or a value that counts its drops.
ghost use Rattle.std.specs.Prelude.{nat_eq};
ghost use Rattle.std.proofs.Common.{rules};
ghost use Rattle.std.specs.Cmp.{partial_order_from_own_ties};
ghost use Rattle.std.specs.Cmp.Rules.{comparing};
ghost use Rattle.std.specs.Ordering.{as_partial_cmp, nat_cmp, on};

use std::cell::Cell;
use std::cmp::Ordering;

/// A key that counts how many of its kind are dropped: each drop adds its weight to a sum.
pub(crate) struct CountedKey<'a> {
    pub number: u64,
    pub weight: u64,
    pub drops: &'a Cell<u64>,
}

impl<'a> Drop for CountedKey<'a> {
    fn drop(self) {
        let CountedKey {
            number: _,
            weight,
            drops,
        } = self;
        drops.set(drops.get().wrapping_add(weight));
    }
}

impl PartialEq for CountedKey<'_> {
    ghost eq = { on (λ key. key.number) nat_eq };

    ghost laws = { Prim.search (comparing, rules) };

    fn eq(&self, other: &Self) -> bool {
        self.number == other.number
    }
}

impl Eq for CountedKey<'_> {
    ghost laws = { Prim.search (comparing, rules) };
}

impl PartialOrd for CountedKey<'_> {
    ghost partial_cmp = { as_partial_cmp (on (λ key. key.number) nat_cmp) };

    ghost laws = { partial_order_from_own_ties (Prim.search (comparing, rules)) (Prim.search (comparing, rules)) };

    fn partial_cmp(&self, other: &Self) -> Option<Ordering> {
        Some(self.cmp(other))
    }
}

impl Ord for CountedKey<'_> {
    ghost cmp = { on (λ key. key.number) nat_cmp };

    ghost total = { Prim.search (comparing, rules) };

    ghost matches_partial_cmp = { Prim.search (comparing, rules) };

    ghost matches_eq = { Prim.search (comparing, rules) };

    fn cmp(&self, other: &Self) -> Ordering {
        self.number.cmp(&other.number)
    }
}

/// A key or a value with a number, which adds its weight to a sum as it is dropped.
pub(crate) trait Weighed<'a> {
    fn weighed(number: u64, weight: u64, drops: &'a Cell<u64>) -> Self;

    fn number(&self) -> u64;
}

impl<'a> Weighed<'a> for CountedKey<'a> {
    fn weighed(number: u64, weight: u64, drops: &'a Cell<u64>) -> CountedKey<'a> {
        CountedKey {
            number,
            weight,
            drops,
        }
    }

    fn number(&self) -> u64 {
        self.number
    }
}
