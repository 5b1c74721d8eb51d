//! The words of types.

use fb_types::Ty;

/// The keyword of a type.
pub fn type_words(ty: Ty) -> &'static str {
    match ty {
        Ty::Sint => "SINT",
        Ty::Int => "INT",
        Ty::Dint => "DINT",
        Ty::Lint => "LINT",
        Ty::Usint => "USINT",
        Ty::Uint => "UINT",
        Ty::Udint => "UDINT",
        Ty::Ulint => "ULINT",
        Ty::Time => "TIME",
        Ty::Bool => "BOOL",
    }
}
