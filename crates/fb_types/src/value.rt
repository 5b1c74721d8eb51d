//! Elementary types, values and reasons.

ghost use Rattle.std.specs.Prelude.{◌≡◌};
ghost use Rattle.fb_types.specs.Values.{fits};

/// An elementary type (IEC 61131-3, 6.4.2). TIME has the range of LINT, in ticks of one millisecond.
#[derive(Clone, Copy)]
pub enum Ty {
    Sint,
    Int,
    Dint,
    Lint,
    Usint,
    Uint,
    Udint,
    Ulint,
    Time,
    Bool,
}

impl Ty {
    /// Whether a value is one of the type.
    #[inline(always)]
    pub fn holds(self, value: Value) -> bool
        ensures { result ≡ fits self value }
    {
        match value {
            Value::Bool(_) => matches!(self, Ty::Bool),
            Value::Whole(number) => match self {
                Ty::Sint => i8::try_from(number).is_ok(),
                Ty::Int => i16::try_from(number).is_ok(),
                Ty::Dint => i32::try_from(number).is_ok(),
                Ty::Lint | Ty::Time => i64::try_from(number).is_ok(),
                Ty::Usint => u8::try_from(number).is_ok(),
                Ty::Uint => u16::try_from(number).is_ok(),
                Ty::Udint => u32::try_from(number).is_ok(),
                Ty::Ulint => u64::try_from(number).is_ok(),
                Ty::Bool => false,
            },
        }
    }
}

/// A truth value, or a whole number of any number type or of TIME.
#[derive(Clone, Copy, PartialEq, Eq)]
pub enum Value {
    Bool(bool),
    Whole(i128),
}

/// Why a resource stops: its step limit for one tick, a division by zero, or a number out of range.
#[derive(Clone, Copy, Debug, PartialEq, Eq)]
pub enum Reason {
    Steps,
    Divide,
    Range,
}
