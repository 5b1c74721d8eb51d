//! Owned values around calls that may fail.

ghost use Rattle.std.specs.Prelude.{◌≡◌, Ok, IfOk};

use std::alloc::AllocError;

/// Returns `given` with the values of the three results, if all of them are `Ok`.
///
/// `?` writes out the drop of every owned value in scope at each exit, and each drop is proved there. A value of a type
/// parameter is dropped by one call. So owned values of several types pass through this function.
pub fn with_all<G: Drop, A: Drop, B: Drop, C: Drop>(
    given: G,
    first: Result<A, AllocError>,
    second: Result<B, AllocError>,
    third: Result<C, AllocError>,
) -> Result<(G, A, B, C), AllocError>
    ensures given { IfOk result (λ all. all.0 ≡ given) }
    ensures first { IfOk result (λ all. first ≡ Ok all.1) }
    ensures second { IfOk result (λ all. second ≡ Ok all.2) }
    ensures third { IfOk result (λ all. third ≡ Ok all.3) }
{
    Ok((given, first?, second?, third?))
}
