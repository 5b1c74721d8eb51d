//! The order of names, for tables whose keys are names.

ghost use Rattle.std.specs.Prelude.{◌≡◌, Some, refl};
ghost use Rattle.std.specs.BTreeMap.Comparable.{le_lt_trans};
ghost use Rattle.std.specs.Cmp as laws;
ghost use Rattle.std.specs.Ordering.{eq_by_cmp};
ghost use Rattle.fb_types.specs.NameOrder.{name_cmp, name_cmp_total, name_eq_equiv};

use crate::name::{Name, short_number_of};
use std::cmp::Ordering;
use std::collections::btree_map::Comparable;

impl PartialEq for Name {
    ghost eq = { eq_by_cmp name_cmp };

    ghost laws = { laws.partial_equiv_from_equiv name_eq_equiv };

    fn eq(&self, other: &Name) -> bool {
        order_of(self, other).is_eq()
    }
}

impl Eq for Name {
    ghost laws = { name_eq_equiv };
}

impl PartialOrd for Name {
    ghost partial_cmp = { λ n m. Some (name_cmp n m) };

    ghost laws = { laws.partial_order_from_agreeing_total name_cmp name_cmp_total (λ n m. refl) (λ n m. refl) };

    fn partial_cmp(&self, other: &Name) -> Option<Ordering> {
        Some(order_of(self, other))
    }
}

// Not the order of the alphabet: most names differ in their numbers, which are compared in a few instructions.
impl Ord for Name {
    ghost cmp = { name_cmp };

    ghost total = { name_cmp_total };

    ghost matches_partial_cmp = { λ n m. refl };

    ghost matches_eq = { λ n m. refl };

    #[inline(always)]
    fn cmp(&self, other: &Name) -> Ordering {
        order_of(self, other)
    }
}

// A name is looked up where the keys are borrowed names.
impl<'b> Comparable<&'b Name> for &Name {
    ghost compare = { λ q k. name_cmp q.now k.now };

    ghost respects_cmp = { λ q x y. name_cmp_total.congr q.now x.now y.now };

    ghost below_greater = { λ q x y. le_lt_trans name_cmp_total q.now x.now y.now };

    #[inline(always)]
    fn compare(&self, key: &&'b Name) -> Ordering {
        order_of(*self, *key)
    }
}

// The same with the bytes of a name.
impl<'b> Comparable<&'b Name> for &[u8] {
    ghost compare = { λ q k. name_cmp q.now k.now };

    ghost respects_cmp = { λ q x y. name_cmp_total.congr q.now x.now y.now };

    ghost below_greater = { λ q x y. le_lt_trans name_cmp_total q.now x.now y.now };

    fn compare(&self, key: &&'b Name) -> Ordering {
        order_of_bytes(*self, *key)
    }
}

/// The order of two names.
#[inline(always)]
fn order_of<'x>(name: &'x Name, other: &'x Name) -> Ordering
    ensures { result ≡ name_cmp name.now other.now }
{
    if name.short_number() != other.short_number() {
        return name.short_number().cmp(&other.short_number());
    }
    if name.short_number() != 0 {
        return Ordering::Equal;
    }
    name.as_bytes().cmp(&other.as_bytes())
}

/// The order of the name with these bytes and another one.
fn order_of_bytes<'x>(bytes: &'x [u8], other: &'x Name) -> Ordering
    ensures { result ≡ name_cmp bytes.now other.now }
{
    let short_number = short_number_of(bytes);
    if short_number != other.short_number() {
        return short_number.cmp(&other.short_number());
    }
    bytes.cmp(&other.as_bytes())
}
