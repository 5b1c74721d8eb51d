//! The emissions of a reaction.

ghost use Rattle.std.specs.Prelude.{◌≡◌, ◌≢◌, ◌↔◌, [], ◌∷◌, ◌++◌, IsTrue, IfNone, IfSome, MatchOption, OnErr, OnOk};

use crate::few::Few;
use crate::run::Emission;
use crate::value::Value;
use std::alloc::{AllocError, Global};
use std::collections::VecDeque;
use std::marker::Model;
use std::mem::replace;

/// The emissions of a reaction, in order. Contracts see them as a list.
///
/// The first one is stored in place, so that a reaction that emits one event takes no memory. The memory of the others
/// is kept when they are removed: one list serves reaction after reaction.
pub struct Emits {
    /// Whether there is an emission.
    is_filled: bool,
    /// The first emission. If there is none, this is an earlier one, which is dropped when the next one is written: so
    /// the list is cleared without a write to it.
    first: Emission,
    /// The emissions after the first. If there is no first, this is empty.
    others: VecDeque<Emission>,
}

// Drop is written by hand, so that the crates that own such a list do not prove it again.
impl Drop for Emits {
    fn drop(self) {
        let Emits {
            is_filled: _,
            first: _,
            others: _,
        } = self;
    }
}

impl Model for Emits {
    ghost use Rattle.std.specs.Prelude.{List};
    ghost use Rattle.fb_types.specs.Emitted.{AreAfter, in_order};
    ghost use Rattle.fb_types.specs.declared.run.Emission.{Emission};

    ghost Value = { List Emission };

    ghost view = { λ e. in_order e.is_filled e.first e.others.items };

    ghost invariant = { λ e. AreAfter e.is_filled e.others.items };
}

impl Emits {
    /// The empty list, which takes no memory.
    pub fn new(alloc: Global) -> Emits
        ensures { result ≡ [] }
    {
        let first = Emission {
            event: 0,
            values: Few::new(alloc),
        };
        Emits {
            is_filled: false,
            first,
            others: VecDeque::new(alloc),
        }
    }

    /// The allocator of the list.
    pub fn allocator(&self) -> Global {
        *self.others.allocator()
    }

    /// Whether there is no emission.
    #[inline(always)]
    pub fn is_empty(&self) -> bool
        ensures { IsTrue result ↔ (self.now ≡ []) }
    {
        !self.is_filled
    }

    /// Adds an emission at the end.
    ///
    /// # Errors
    /// When memory runs out, which happens only from the second emission on.
    #[inline(always)]
    pub fn push(&mut self, emission: Emission) -> Result<(), AllocError>
        ensures ok { OnOk result (self.new ≡ self.old ++ emission ∷ []) }
        ensures err { OnErr result (self.new ≡ self.old) }
    {
        if !self.is_filled {
            self.first = emission;
            self.is_filled = true;
            return Ok(());
        }
        self.push_other(emission)
    }

    /// Adds an emission without values at the end. The first one takes no memory.
    ///
    /// # Errors
    /// As `push`.
    #[inline(always)]
    pub fn push_bare(&mut self, event: u32) -> Result<(), AllocError>
        ensures ok { OnOk result (self.new ≡ self.old ++ record { event = event; values = [] } ∷ []) }
        ensures err { OnErr result (self.new ≡ self.old) }
    {
        let values = Few::new(self.allocator());
        if !self.is_filled {
            self.first = Emission { event, values };
            self.is_filled = true;
            return Ok(());
        }
        self.push_other(Emission { event, values })
    }

    /// Adds an emission with one value at the end. The first one takes no memory.
    ///
    /// # Errors
    /// As `push`.
    #[inline(always)]
    pub fn push_one(&mut self, event: u32, value: Value) -> Result<(), AllocError>
        ensures ok { OnOk result (self.new ≡ self.old ++ record { event = event; values = value ∷ [] } ∷ []) }
        ensures err { OnErr result (self.new ≡ self.old) }
    {
        let values = Few::one(self.allocator(), value);
        if !self.is_filled {
            self.first = Emission { event, values };
            self.is_filled = true;
            return Ok(());
        }
        self.push_other(Emission { event, values })
    }

    /// Adds an emission after the first. A function of its own, so that a reaction with one emission does not
    /// pay for it.
    #[inline(never)]
    fn push_other(&mut self, emission: Emission) -> Result<(), AllocError>
        requires { self.old ≢ [] }
        ensures ok { OnOk result (self.new ≡ self.old ++ emission ∷ []) }
        ensures err { OnErr result (self.new ≡ self.old) }
    {
        self.others.push_back(emission)?;
        Ok(())
    }

    /// Removes the first emission, and returns it.
    #[inline(always)]
    pub fn pop_first(&mut self) -> Option<Emission>
        ensures { MatchOption result (self.old ≡ []) (λ emission. self.old ≡ emission ∷ self.new) }
    {
        if !self.is_filled {
            return None;
        }
        let nothing = Few::new(self.allocator());
        let first = Emission {
            event: self.first.event,
            values: replace(&mut self.first.values, nothing),
        };
        if self.others.is_empty() {
            self.is_filled = false;
        } else if let Some(next) = self.others.pop_front() {
            self.first = next;
        }
        Some(first)
    }

    /// Removes the only emission, if it is the only one and has no values, and returns its event. Otherwise the list
    /// stays as it is.
    #[inline(always)]
    pub fn pop_bare(&mut self) -> Option<u32>
        ensures alone { IfSome result (λ event. self.old ≡ record { event = event; values = [] } ∷ []) }
        ensures none_left { IfSome result (λ event. self.new ≡ []) }
        ensures same { IfNone result (self.new ≡ self.old) }
    {
        if !self.is_filled || !self.first.values.is_nothing() || !self.others.is_empty() {
            return None;
        }
        self.is_filled = false;
        let event = self.first.event;
        Some(event)
    }

    /// The event and the value of the only emission, if it is the only one and has one value, stored in place. The
    /// value is lent, so that it is copied once, to where it stays.
    #[inline(always)]
    pub fn only(&self) -> Option<(u32, &Value)>
        ensures { IfSome result (λ (event, value). self.now ≡ record { event = event; values = value.now ∷ [] } ∷ []) }
    {
        if !self.is_filled || !self.others.is_empty() {
            return None;
        }
        let value = self.first.values.only()?;
        Some((self.first.event, value))
    }

    /// Drops all emissions and keeps their memory.
    #[inline(always)]
    pub fn clear(&mut self)
        ensures { self.new ≡ [] }
    {
        // Mostly there is none, or one, which is stored in place.
        if self.others.is_empty() {
            self.is_filled = false;
        } else {
            self.drop_all();
        }
    }

    #[inline(never)]
    fn drop_all(&mut self)
        ensures { self.new ≡ [] }
    {
        self.is_filled = false;
        self.others.clear();
    }
}
