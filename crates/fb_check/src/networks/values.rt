//! Which types contain all values of another.

ghost use Rattle.std.specs.Prelude.{◌≡◌};
ghost use Rattle.fb_check.specs.networks.Ranges as spec;

use fb_types::Ty;

/// The least whole number of a type and the one past its greatest, or `None` for BOOL.
fn range_of(ty: Ty) -> Option<(i128, i128)>
    ensures { result ≡ spec.range_of ty }
{
    let range = match ty {
        Ty::Sint => (-(1 << 7), 1 << 7),
        Ty::Int => (-(1 << 15), 1 << 15),
        Ty::Dint => (-(1 << 31), 1 << 31),
        Ty::Lint | Ty::Time => (-(1 << 63), 1 << 63),
        Ty::Usint => (0, 1 << 8),
        Ty::Uint => (0, 1 << 16),
        Ty::Udint => (0, 1 << 32),
        Ty::Ulint => (0, 1 << 64),
        Ty::Bool => return None,
    };
    Some(range)
}

/// Whether each value of the one type is a value of the other.
pub fn is_within(from: Ty, to: Ty) -> bool
    ensures { result ≡ spec.is_within from to }
{
    match (range_of(from), range_of(to)) {
        (Some((least, past)), Some((lowest, end))) => lowest <= least && past <= end,
        (None, None) => true,
        _ => false,
    }
}
