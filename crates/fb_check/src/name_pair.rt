//! Pairs of names to look up.

ghost use Rattle.std.specs.BTreeMap.Comparable.{le_lt_trans};
ghost use Rattle.std.specs.Ordering.{ordering_then};
ghost use Rattle.fb_types.specs.NameOrder.{name_cmp};
ghost use Rattle.fb_check.specs.NamePairs.{pair_cmp_total};

use fb_types::Name;
use std::cmp::Ordering;
use std::collections::btree_map::Comparable;

/// A pair of names to look up among pairs of names that may live longer.
#[derive(Clone, Copy)]
pub struct NamePair<'q> {
    pub first: &'q Name,
    pub second: &'q Name,
}

impl<'k, 'q> Comparable<(&'k Name, &'k Name)> for NamePair<'q> {
    ghost compare = { λ q k. ordering_then (name_cmp q.first.now k.0.now) (name_cmp q.second.now k.1.now) };

    ghost respects_cmp = { λ q x y. pair_cmp_total.congr (q.first.now, q.second.now) (x.0.now, x.1.now) (y.0.now, y.1.now) };

    ghost below_greater = { λ q x y. le_lt_trans pair_cmp_total (q.first.now, q.second.now) (x.0.now, x.1.now) (y.0.now, y.1.now) };

    fn compare(&self, key: &(&'k Name, &'k Name)) -> Ordering {
        self.first.cmp(key.0).then(self.second.cmp(key.1))
    }
}
