//! Owned values next to calls that may fail.

ghost use Rattle.std.specs.Prelude.{◌≡◌, Ok, IfOk};

use std::alloc::AllocError;

/// What is kept, next to what was made, where that was.
///
/// A value of a type parameter is dropped by one call. Where `?` is next to owned values of other types, the drop of
/// each is written out at each exit, and proved there.
pub(crate) fn paired<A: Drop, B: Drop>(
    kept: A,
    made: Result<B, AllocError>,
) -> Result<(A, B), AllocError>
    ensures kept { IfOk result (λ both. both.0 ≡ kept) }
    ensures made { IfOk result (λ both. made ≡ Ok both.1) }
{
    Ok((kept, made?))
}
