//! Variables with their types and values, each with a name of its own.

ghost use Rattle.std.specs.Prelude.{◌≡◌, true, false, slice_get, IfErr, MatchOption, OnOk};
ghost use Rattle.fb_types.specs.Flat.{zero_value};
ghost use Rattle.fb_types.specs.Names.{with_value};
ghost use Rattle.fb_types.specs.Repeated.{Twice};
ghost use Rattle.fb_types.specs.Values.{fits, whole};
ghost use Rattle.fb_st.specs.Variables.{least_of, most_of};
ghost use Rattle.fb_st.specs.Frames.{values_of, declared_in, is_declared, names_of, types_in};

use crate::operator::whole_of;
use crate::slot_list::SlotList;
use fb_types::{Name, Reason, Reference, Ty, Value};
use std::marker::Model;

/// A variable with its type and its value.
#[derive(Drop)]
pub struct Slot {
    pub(crate) name: Name,
    pub(crate) ty: Ty,
    pub(crate) value: Value,
}

impl Slot {
    /// A variable of this type that has this value.
    pub fn new(name: Name, ty: Ty, value: Value) -> Slot
        ensures { result ≡ record { name = name; ty = ty; value = value } }
    {
        Slot { name, ty, value }
    }
}

/// The least number of 64 bits that a type holds.
pub(crate) fn least_of_type(ty: Ty) -> i64
    ensures { result ≡ least_of ty }
{
    match ty {
        Ty::Sint => i64::from(i8::MIN),
        Ty::Int => i64::from(i16::MIN),
        Ty::Dint => i64::from(i32::MIN),
        Ty::Lint | Ty::Time => i64::MIN,
        Ty::Usint | Ty::Uint | Ty::Udint | Ty::Ulint => 0,
        Ty::Bool => 1,
    }
}

/// The greatest number of 64 bits that a type holds.
pub(crate) fn most_of_type(ty: Ty) -> i64
    ensures { result ≡ most_of ty }
{
    match ty {
        Ty::Sint => i64::from(i8::MAX),
        Ty::Int => i64::from(i16::MAX),
        Ty::Dint => i64::from(i32::MAX),
        Ty::Lint | Ty::Time | Ty::Ulint => i64::MAX,
        Ty::Usint => i64::from(u8::MAX),
        Ty::Uint => i64::from(u16::MAX),
        Ty::Udint => i64::from(u32::MAX),
        Ty::Bool => 0,
    }
}

/// The variables of expressions and statements. No two have the same name.
#[derive(Drop)]
pub struct Frame {
    pub(crate) slots: SlotList,
}

impl Model for Frame {
    ghost use Rattle.std.specs.Prelude.{List};
    ghost use Rattle.fb_types.specs.Repeated.{Twice};
    ghost use Rattle.fb_st.specs.declared.frame.Slot.{Slot};
    ghost use Rattle.fb_st.specs.Frames.{names_of};

    ghost Value = { List Slot };

    ghost view = { λ f. f.slots };

    ghost invariant = { λ f. ¬ (Twice (names_of f.slots)) };
}

impl Frame {
    /// The frame of variables whose names differ. Nothing checks the names again.
    pub fn of(slots: SlotList) -> Frame
        requires { ¬ (Twice (names_of slots)) }
        ensures { result ≡ slots }
    {
        Frame { slots }
    }

    /// Whether there is a variable of this name.
    pub fn has(&self, name: &Name) -> bool
        ensures { result ≡ is_declared (declared_in self.now) name.now }
    {
        self.slots.has(name)
    }

    /// The value of a variable. An unknown one counts as 0.
    #[inline(always)]
    pub fn value(&self, variable: &Reference) -> Value
        ensures { result ≡ values_of self.now variable.now }
    {
        match self.slots.index(variable) {
            Some(index) => self.slots.value(index),
            None => Value::Whole(0),
        }
    }

    /// The whole number that a variable holds.
    #[inline(always)]
    pub fn whole(&self, variable: &Reference) -> i128
        ensures { result ≡ whole (values_of self.now variable.now) }
    {
        whole_of(self.value(variable))
    }

    /// Gives a variable a value and does not check its type, as when a value is sampled.
    #[inline(always)]
    pub fn put(&mut self, variable: &Reference, value: Value)
        requires { is_declared (declared_in self.old) variable.now ≡ true }
        ensures value { values_of self.new ≡ with_value variable.now value (values_of self.old) }
        ensures declared { declared_in self.new ≡ declared_in self.old }
    {
        match self.slots.index(variable) {
            Some(index) => self.slots.set(index, &value),
            None => unreachable!(),
        }
    }

    /// The value of the variable of a slot. A slot without a variable counts as 0.
    #[inline(always)]
    pub fn value_at(&self, slot: usize) -> Value
        ensures { MatchOption (slice_get (declared_in self.now) slot) (result ≡ zero_value) (λ d. result ≡ values_of self.now d.0) }
    {
        self.slots.value(slot)
    }

    /// Gives the variable of a slot a value and does not check its type, as when a value is sampled. A slot without a
    /// variable is skipped.
    #[inline(always)]
    pub fn put_at(&mut self, slot: usize, value: &Value)
        ensures value { MatchOption (slice_get (declared_in self.old) slot) (self.new ≡ self.old) (λ d. values_of self.new ≡ with_value d.0 value.now (values_of self.old)) }
        ensures declared { declared_in self.new ≡ declared_in self.old }
    {
        self.slots.set(slot, value);
    }

    /// Gives a variable a value.
    ///
    /// # Errors
    /// `Reason::Range` if the variable's type does not hold the value: then the variable keeps its own.
    #[inline(always)]
    pub fn assign(&mut self, variable: &Reference, value: Value) -> Result<(), Reason>
        requires { is_declared (declared_in self.old) variable.now ≡ true }
        ensures ok { OnOk result ((fits (types_in (declared_in self.old) variable.now) value ≡ true) × (values_of self.new ≡ with_value variable.now value (values_of self.old))) }
        ensures err { IfErr result (λ r. (r ≡ Reason.Range) × (fits (types_in (declared_in self.old) variable.now) value ≡ false) × (self.new ≡ self.old)) }
        ensures declared { declared_in self.new ≡ declared_in self.old }
    {
        let index = match self.slots.index(variable) {
            Some(index) => index,
            None => unreachable!(),
        };
        if !self.slots.holds(index, value) {
            return Err(Reason::Range);
        }
        self.slots.set(index, &value);
        Ok(())
    }
}
