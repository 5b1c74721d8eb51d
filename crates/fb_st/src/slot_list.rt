//! The variables of a block, each kept as a word of 64 bits.

ghost use Rattle.std.specs.Prelude.{◌≡◌, ◌<◌, ◌≤◌, ◌++◌, ◌∷◌, [], length, slice_get, slice_set, unwrap_or, Some, None, MatchOption, OnOk, OnErr, IfSome, true, false, ◌&&◌, position};
ghost use Rattle.std.specs.Bool.{OnFalse, OnTrue};
ghost use Rattle.std.specs.List.{list_any};
ghost use Rattle.fb_types.specs.Flat.{zero_value};
ghost use Rattle.fb_types.specs.Names.{same_name};
ghost use Rattle.fb_types.specs.Repeated.{Twice};
ghost use Rattle.fb_types.specs.Values.{fits, truth_of};
ghost use Rattle.fb_st.specs.Compiled.{truth_said};
ghost use Rattle.fb_st.specs.Frames.{declared_in, index_of, names_of, values_of};
ghost use Rattle.fb_st.specs.Fitting.{expr_of_truth, right_truth, value_of_word};

use crate::compiled::TruthExpr;
use crate::exact;
use crate::frame::Slot;
use crate::layout::{Layout, word_of};
use crate::running::is_true;
use fb_types::{Name, Reason, Reference, Ty, Value};
use std::alloc::{AllocError, Global};
use std::marker::Model;

/// A variable: its name and its type. Its word is its value, unless a caller put in a value that its type does not hold:
/// that value is kept here.
#[derive(Drop)]
pub(crate) struct Kept {
    name: Name,
    ty: Ty,
    odd: Option<Value>,
}

/// Variables with their types and values. Contracts see a list of these.
#[derive(Drop)]
pub struct SlotList {
    pub(crate) kept: Vec<Kept>,
    pub(crate) words: Vec<i64>,
    /// Set while each variable holds a value of its type.
    pub(crate) is_plain: bool,
}

impl Model for SlotList {
    ghost use Rattle.std.specs.Prelude.{◌≡◌, List, length, true};
    ghost use Rattle.fb_st.specs.Kept.{all_plain, kept_as};
    ghost use Rattle.fb_st.specs.declared.frame.Slot.{Slot};

    ghost Value = { List Slot };

    ghost view = { λ s. kept_as s.kept.items s.words.items };

    ghost invariant = { λ s. (length s.words.items ≡ length s.kept.items) × (s.is_plain ≡ true → all_plain s.kept.items ≡ true) };
}

/// The value of a word in a variable of this type.
#[inline(always)]
fn value_of(ty: Ty, word: i64) -> Value
    ensures { result ≡ value_of_word ty word }
{
    match ty {
        Ty::Bool => Value::Bool(word != 0),
        Ty::Ulint => Value::Whole(exact::unsigned(word)),
        _ => Value::Whole(i128::from(word)),
    }
}

/// The word of a value, or the value itself if the type does not hold it.
fn parted(ty: Ty, value: Value) -> (i64, Option<Value>)
    ensures { unwrap_or result.1 (value_of_word ty result.0) ≡ value }
{
    match word_of(ty, &value) {
        Some(word) => (word, None),
        None => (0, Some(value)),
    }
}

fn has_name(kept: &[Kept], name: &Name) -> bool
    ensures { result ≡ list_any (λ k. same_name name.now k.name) kept.now }
{
    kept.iter().any(|kept| name.is(&kept.name))
}

/// The index of the first variable of a name.
fn place_of(kept: &[Kept], name: &Name) -> Option<usize>
    ensures { result ≡ position (λ k. same_name name.now k.name) kept.now }
{
    kept.iter().position(|kept| name.is(&kept.name))
}

/// Adds a variable and its word after the others, or neither.
fn push_both(
    kept: &mut Vec<Kept>,
    words: &mut Vec<i64>,
    variable: Kept,
    word: i64,
) -> Result<(), AllocError>
    ensures ok { OnOk result ((kept.new.items ≡ kept.old.items ++ variable ∷ []) × (words.new.items ≡ words.old.items ++ word ∷ [])) }
    ensures err { OnErr result ((kept.new.items ≡ kept.old.items) × (words.new.items ≡ words.old.items)) }
{
    let count = words.len();
    words.push(word)?;
    match kept.push(variable) {
        Ok(()) => Ok(()),
        Err(error) => {
            words.truncate(count);
            Err(error.into())
        }
    }
}

#[inline(always)]
fn are_both(first: bool, second: bool) -> bool
    ensures { result ≡ (first && second) }
{
    first && second
}

/// Notes where a variable was found.
fn note(variable: &Reference, index: Option<usize>) {
    if let Some(index) = index {
        variable.expect_at(index);
    }
}

impl SlotList {
    /// No variables, which take no memory.
    pub fn new(alloc: Global) -> SlotList
        ensures { result ≡ [] }
    {
        SlotList {
            kept: Vec::new(alloc),
            words: Vec::new(alloc),
            is_plain: true,
        }
    }

    /// Adds a variable after the others.
    ///
    /// # Errors
    /// When memory runs out.
    pub fn push(&mut self, slot: Slot) -> Result<(), AllocError>
        ensures { OnOk result (self.new ≡ self.old ++ slot ∷ []) }
    {
        let Slot { name, ty, value } = slot;
        let (word, odd) = parted(ty, value);
        let is_plain = odd.is_none();
        push_both(
            &mut self.kept,
            &mut self.words,
            Kept { name, ty, odd },
            word,
        )?;
        self.is_plain = are_both(self.is_plain, is_plain);
        Ok(())
    }

    /// Whether there is a variable of this name.
    pub(crate) fn has(&self, name: &Name) -> bool
        ensures { result ≡ list_any (λ s. same_name name.now s.name) self.now }
    {
        has_name(self.kept.as_slice(), name)
    }

    /// The index of a variable. It is mostly the expected one, and otherwise it is searched for.
    #[inline(always)]
    pub(crate) fn index(&self, variable: &Reference) -> Option<usize>
        requires { ¬ (Twice (names_of self.now)) }
        ensures { result ≡ index_of variable.now self.now }
    {
        let expected = variable.index();
        if self.is_named(expected, variable.name()) {
            Some(expected)
        } else {
            self.search(variable)
        }
    }

    /// Whether the variable at an index has this name.
    #[inline(always)]
    fn is_named(&self, index: usize, name: &Name) -> bool
        requires { ¬ (Twice (names_of self.now)) }
        ensures { result ≡ true → index_of name.now self.now ≡ Some index }
    {
        match self.kept.get(index) {
            Some(kept) => name.is(&kept.name),
            None => false,
        }
    }

    /// Searches for a variable among all, and notes its index next to the name, so that it is found at once from then
    /// on.
    #[inline(never)]
    fn search(&self, variable: &Reference) -> Option<usize>
        ensures { result ≡ index_of variable.now self.now }
    {
        let index = place_of(self.kept.as_slice(), variable.name());
        note(variable, index);
        index
    }

    /// The value of the variable at an index. 0 where there is no variable.
    #[inline(always)]
    pub(crate) fn value(&self, index: usize) -> Value
        ensures there { (s : Slot) → slice_get self.now index ≡ Some s → result ≡ s.value }
        ensures past { slice_get self.now index ≡ None → result ≡ zero_value }
    {
        let Some(kept) = self.kept.get(index) else {
            return Value::Whole(0);
        };
        match kept.odd {
            Some(value) => value,
            None => value_of(kept.ty, self.words[index]),
        }
    }

    /// Whether the type of the variable at an index holds a value.
    #[inline(always)]
    pub(crate) fn holds(&self, index: usize, value: Value) -> bool
        requires { index < length self.now }
        ensures { (s : Slot) → slice_get self.now index ≡ Some s → result ≡ fits s.ty value }
    {
        self.kept[index].ty.holds(value)
    }

    /// Gives the variable at an index a value, if there is one. Mostly its type holds the value, as it held all before.
    #[inline(always)]
    pub(crate) fn set(&mut self, index: usize, value: &Value)
        ensures there { (s : Slot) → slice_get self.old index ≡ Some s → self.new ≡ slice_set self.old index (record s { value = value.now }) }
        ensures past { slice_get self.old index ≡ None → self.new ≡ self.old }
    {
        let Some(kept) = self.kept.get(index) else {
            return;
        };
        match word_of(kept.ty, value) {
            Some(word) if self.is_plain => self.words[index] = word,
            _ => self.set_any(index, value),
        }
    }

    /// The same as `set`, for any values.
    #[inline(never)]
    fn set_any(&mut self, index: usize, value: &Value)
        requires { index < length self.old }
        ensures { (s : Slot) → slice_get self.old index ≡ Some s → self.new ≡ slice_set self.old index (record s { value = value.now }) }
    {
        let kept = &mut self.kept[index];
        let (word, odd) = parted(kept.ty, *value);
        let is_plain = odd.is_none();
        kept.odd = odd;
        self.words[index] = word;
        self.is_plain = are_both(self.is_plain, is_plain);
    }

    /// Whether a compiled condition is true. `None` if a variable holds a value that its type does not hold.
    #[inline(always)]
    pub(crate) fn holds_condition(
        &self,
        condition: &TruthExpr,
        layout: &Layout,
    ) -> Option<Result<bool, Reason>>
        requires layout { layout.now ≡ declared_in self.now }
        requires once { ¬ (Twice (names_of self.now)) }
        requires right { right_truth layout.now (truth_said condition.now) ≡ true }
        ensures { IfSome result (λ r. r ≡ truth_of (expr_of_truth layout.now (truth_said condition.now)) (values_of self.now)) }
    {
        if !self.is_plain {
            return None;
        }
        Some(is_true(condition, self.words.as_slice()))
    }
}
