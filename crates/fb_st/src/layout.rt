//! The variables of a block type, by slot: their names and types.

ghost use Rattle.std.specs.Prelude.{◌≡◌, ◌<◌, map, true, false, length, IfOk, IfErr, MatchOption};
ghost use Rattle.fb_types.specs.Repeated.{Twice};
ghost use Rattle.fb_types.specs.Values.{fits, whole};
ghost use Rattle.fb_st.specs.Fitting.{name_at, ty_at, value_of_word};

use crate::exact;
use fb_types::{Name, Reason, Ty, Value};
use std::marker::Model;

/// The variables of a block type. No two have the same name.
#[derive(Drop)]
pub struct Layout {
    variables: Vec<(Name, Ty)>,
}

impl Model for Layout {
    ghost use Rattle.std.specs.Prelude.{List, map};
    ghost use Rattle.fb_types.specs.Repeated.{Twice};
    ghost use Rattle.fb_st.specs.Frames.{Declared};

    ghost Value = { List Declared };

    ghost view = { λ l. l.variables.items };

    ghost invariant = { λ l. ¬ (Twice (map (λ d. d.0) l.variables.items)) };
}

/// The word of a value, if a variable of this type holds the value.
#[inline(always)]
pub(crate) fn word_of(ty: Ty, value: &Value) -> Option<i64>
    ensures { MatchOption result (fits ty value.now ≡ false) (λ z. (fits ty value.now ≡ true) × (value_of_word ty z ≡ value.now)) }
{
    match value {
        Value::Bool(truth) if ty.holds(*value) => Some(i64::from(*truth)),
        Value::Whole(number) if ty.holds(*value) => match i64::try_from(*number) {
            Ok(word) => Some(word),
            // of type ULINT: the bits of the number without a sign
            Err(_) => Some((*number - 18_446_744_073_709_551_616) as i64),
        },
        _ => None,
    }
}

impl Layout {
    /// The layout of variables whose names differ. Nothing checks the names again.
    pub fn of(variables: Vec<(Name, Ty)>) -> Layout
        requires { ¬ (Twice (map (λ d. d.0) variables.items)) }
        ensures { result ≡ variables.items }
    {
        Layout { variables }
    }

    /// The names and types of the variables, in the order of their slots.
    pub(crate) fn variables(&self) -> &[(Name, Ty)]
        ensures { result.now ≡ self.now }
    {
        self.variables.as_slice()
    }

    /// Whether the variable of a slot has this name.
    pub(crate) fn is_named(&self, slot: usize, name: &Name) -> bool
        ensures { result ≡ true → (slot < length self.now) × (name_at self.now slot ≡ name.now) }
    {
        match self.variables.get(slot) {
            Some(variable) => variable.0.is(name),
            None => false,
        }
    }

    /// The type of the variable of a slot.
    #[inline(always)]
    pub fn ty(&self, slot: usize) -> Ty
        requires { slot < length self.now }
        ensures { result ≡ ty_at self.now slot }
    {
        self.variables[slot].1
    }

    /// The word of a number in the variable of a slot.
    ///
    /// # Errors
    /// `Reason::Range` if the type does not hold the number.
    pub(crate) fn word_of(&self, slot: usize, number: i128) -> Result<i64, Reason>
        requires { slot < length self.now }
        ensures ok { IfOk result (λ word. (fits (ty_at self.now slot) (Value.Whole number) ≡ true) × (value_of_word (ty_at self.now slot) word ≡ Value.Whole number)) }
        ensures err { IfErr result (λ r. (r ≡ Reason.Range) × (fits (ty_at self.now slot) (Value.Whole number) ≡ false)) }
    {
        match word_of(self.ty(slot), &Value::Whole(number)) {
            Some(word) => Ok(word),
            None => Err(Reason::Range),
        }
    }

    /// The number of a word in the variable of a slot. A truth value counts as 0.
    pub(crate) fn number_of(&self, slot: usize, word: i64) -> i128
        requires { slot < length self.now }
        ensures { result ≡ whole (value_of_word (ty_at self.now slot) word) }
    {
        match self.ty(slot) {
            Ty::Bool => 0,
            Ty::Ulint => exact::unsigned(word),
            _ => i128::from(word),
        }
    }
}
