//! The functions of Structured Text.

ghost use Rattle.std.specs.Prelude.{◌≡◌};
ghost use Rattle.fb_types.specs.Names.{same_name};
ghost use Rattle.fb_types.specs.Values.{function_named};

use crate::name::Name;

/// A function that expressions may call (IEC 61131-3, 6.6.2.5). Its arguments are given by position.
#[derive(Clone, Copy)]
pub enum Function {
    /// MIN: the lesser of two numbers.
    Min,
    /// MAX: the greater of two numbers.
    Max,
    /// ABS: a number without its sign.
    Abs,
    /// LIMIT: a number within the two bounds; the arguments are the least, the number and the greatest.
    Limit,
    /// SEL: one of two values by a truth value; the first for FALSE, the second for TRUE.
    Sel,
}

fn is(name: &Name, text: &str) -> bool
    ensures { result ≡ same_name name.now text.now }
{
    name.as_bytes() == text.as_bytes()
}

impl Function {
    /// The function with a name.
    pub fn named(name: &Name) -> Option<Function>
        ensures { result ≡ function_named name.now }
    {
        if is(name, "MIN") {
            Some(Function::Min)
        } else if is(name, "MAX") {
            Some(Function::Max)
        } else if is(name, "ABS") {
            Some(Function::Abs)
        } else if is(name, "LIMIT") {
            Some(Function::Limit)
        } else if is(name, "SEL") {
            Some(Function::Sel)
        } else {
            None
        }
    }
}
