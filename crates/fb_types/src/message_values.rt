//! The values of a message.

ghost use Rattle.std.specs.Prelude.{◌≡◌, [], ◌∷◌, ◌↔◌, IfErr, IfOk, IsTrue};
ghost use Rattle.fb_types.specs.Carrying.{values_in};

use crate::run::Carried;
use crate::value::Value;
use std::marker::Model;

/// Where the values of a message are.
#[derive(Drop)]
pub enum HeldValues {
    Nothing,
    /// A single truth value in place, with its instance and its variable.
    Truth(u32, u32, bool),
    /// A single number in place, with its instance and its variable.
    Number(u32, u32, i128),
    /// All values, on the heap.
    Several(Vec<Carried>),
}

/// The values that a message carries. A single one is stored in place. Contracts see only the values.
///
/// The type of a value in place is the variant, so that a message, and each event that waits, is as small as with a list
/// on the heap: 32 bytes, where a `Few<Carried>` has 64.
pub struct MessageValues {
    held: HeldValues,
}

// Drop is written by hand, so that callers need not prove it again (docs/DECISIONS.md, "Drop").
impl Drop for MessageValues {
    fn drop(self) {
        let MessageValues { held: _ } = self;
    }
}

impl Model for MessageValues {
    ghost use Rattle.std.specs.Prelude.{List};
    ghost use Rattle.fb_types.specs.declared.run.Carried.{Carried};
    ghost use Rattle.fb_types.specs.Carrying.{values_in};

    ghost Value = { List Carried };

    ghost view = { λ v. values_in v.held };
}

impl MessageValues {
    /// No values.
    #[inline(always)]
    pub fn none() -> MessageValues
        ensures { result ≡ [] }
    {
        MessageValues {
            held: HeldValues::Nothing,
        }
    }

    /// A single value, which takes no memory.
    #[inline(always)]
    pub fn one(instance: u32, variable: u32, value: Value) -> MessageValues
        ensures { result ≡ record { instance = instance; variable = variable; value = value } ∷ [] }
    {
        let held = match value {
            Value::Bool(truth) => HeldValues::Truth(instance, variable, truth),
            Value::Whole(number) => HeldValues::Number(instance, variable, number),
        };
        MessageValues { held }
    }

    /// The values of a `Vec`. They are not copied.
    pub fn from_vec(values: Vec<Carried>) -> MessageValues
        ensures { result ≡ values.items }
    {
        MessageValues {
            held: HeldValues::Several(values),
        }
    }

    /// Whether there is no value.
    #[inline(always)]
    pub fn is_empty(&self) -> bool
        ensures { IsTrue result ↔ (self.now ≡ []) }
    {
        match &self.held {
            HeldValues::Nothing => true,
            HeldValues::Truth(..) | HeldValues::Number(..) => false,
            HeldValues::Several(values) => values.is_empty(),
        }
    }

    /// The value that is stored in place, if there is one. The error is all values, where they are not in place.
    #[inline(always)]
    pub fn only(&self) -> Result<Carried, &[Carried]>
        ensures one { IfOk result (λ carried. self.now ≡ carried ∷ []) }
        ensures all { IfErr result (λ values. values.now ≡ self.now) }
    {
        match &self.held {
            HeldValues::Nothing => Err(&[]),
            HeldValues::Truth(instance, variable, truth) => Ok(Carried {
                instance: *instance,
                variable: *variable,
                value: Value::Bool(*truth),
            }),
            HeldValues::Number(instance, variable, number) => Ok(Carried {
                instance: *instance,
                variable: *variable,
                value: Value::Whole(*number),
            }),
            HeldValues::Several(values) => Err(values.as_slice()),
        }
    }
}
