//! A key that counts.
ghost use Rattle.std.specs.Prelude.{nat_eq};
ghost use Rattle.std.proofs.Common.{rules};
ghost use Rattle.std.specs.Cmp.{partial_order_from_own_ties};
ghost use Rattle.std.specs.Cmp.Rules.{comparing};
ghost use Rattle.std.specs.Ordering.{as_partial_cmp, nat_cmp, on};

use std::cell::Cell;
use std::cmp::Ordering;

/// A key that counts how often it is compared.
#[derive(Clone, Copy)]
pub struct Counted<'a> {
    pub number: u32,
    pub compared: &'a Cell<u32>,
}

fn count(compared: &Cell<u32>) {
    compared.set(compared.get().wrapping_add(1));
}

impl PartialEq for Counted<'_> {
    ghost eq = { on (λ key. key.number) nat_eq };

    ghost laws = { Prim.search (comparing, rules) };

    fn eq(&self, other: &Self) -> bool {
        count(self.compared);
        self.number == other.number
    }
}

impl Eq for Counted<'_> {
    ghost laws = { Prim.search (comparing, rules) };
}

impl PartialOrd for Counted<'_> {
    ghost partial_cmp = { as_partial_cmp (on (λ key. key.number) nat_cmp) };

    ghost laws = { partial_order_from_own_ties (Prim.search (comparing, rules)) (Prim.search (comparing, rules)) };

    fn partial_cmp(&self, other: &Self) -> Option<Ordering> {
        Some(self.cmp(other))
    }
}

impl Ord for Counted<'_> {
    ghost cmp = { on (λ key. key.number) nat_cmp };

    ghost total = { Prim.search (comparing, rules) };

    ghost matches_partial_cmp = { Prim.search (comparing, rules) };

    ghost matches_eq = { Prim.search (comparing, rules) };

    fn cmp(&self, other: &Self) -> Ordering {
        count(self.compared);
        self.number.cmp(&other.number)
    }
}
