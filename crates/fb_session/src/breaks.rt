//! Breaks: patterns of lines after which a session pauses.

ghost use Rattle.std.specs.Prelude.{◌≡◌, ◌⊎◌, ◌↔◌, ◌++◌, ◌∷◌, [], All, Contains, IfOk, IfSome, IsTrue, MatchOption, OnErr, OnOk, Some, map, nat_eq, option_map, position, true};
ghost use Rattle.fb_expect.specs.Events.{event_of};
ghost use Rattle.fb_expect.specs.Patterns as patterns;
ghost use Rattle.fb_expect.specs.declared.pattern.Pattern as pattern;
ghost use Rattle.fb_system.specs.OfSystem.{BelongsTo};
ghost use Rattle.fb_types.specs.OfSystem.{line_of, line_text};
ghost use Rattle.fb_types.specs.States as states;
ghost use Rattle.fb_types.specs.Headline.{Inputs, system_of};
ghost use Rattle.fb_types.specs.declared.run.Line as run;
ghost use Rattle.fb_types.specs.declared.run.Form.TheVariants.{One};
ghost use Rattle.fb_session.specs.Breaking.{ClearsBreak, IsPattern, OnlyBreaks, SetsBreak};
ghost use Rattle.fb_session.specs.Hitting as spec;
ghost use Rattle.fb_session.specs.Hitting.{IsFor, IsHitBy, IsLeastOf};

use crate::session::Session;
use crate::stage::Stage;
use fb_expect::{Entry, Pattern, meets, pattern_of, read_entry};
use fb_system::System;
use fb_trace::write_lines;
use fb_types::{Form, Line};
use std::alloc::{AllocError, Global};
use std::slice::from_ref;
use std::str::from_utf8;

/// The most breaks that are set at a time.
pub const MOST_BREAKS: usize = 100;

/// A break: its number, and the lines that it is for.
#[derive(Drop)]
pub struct Break {
    pub number: u64,
    pub pattern: Pattern,
}

/// The breaks that are set, in the order of their numbers.
#[derive(Drop)]
pub struct Breaks {
    set: Vec<Break>,
    /// How many were set so far: numbers are not given again.
    count: u64,
    /// Room for the text of a line.
    text: Vec<u8>,
}

/// Why a break is not set. The session is then as it was.
#[derive(Clone, Copy)]
pub enum BreakFault {
    /// The session has stopped or failed.
    NotGoing,
    /// The text is no pattern (E43).
    Pattern,
    /// As many are set as there may be.
    Many,
    Memory,
}

impl From<AllocError> for BreakFault {
    ghost use Rattle.fb_session.specs.declared.breaks.BreakFault.TheVariants.{Memory};

    ghost from_gives = { λ _ e. e ≡ Memory };

    fn from(_error: AllocError) -> BreakFault {
        BreakFault::Memory
    }
}

impl Session<'_, '_> {
    /// Sets a break for the lines of a pattern, and returns its number, from 1.
    ///
    /// # Errors
    /// Why it is not set.
    pub fn set_break(&mut self, text: &[u8]) -> Result<u64, BreakFault>
        ensures only { OnlyBreaks self.old self.new }
        ensures set { SetsBreak text.now self.old self.new result }
    {
        let Stage::Running = self.stage else {
            return Err(BreakFault::NotGoing);
        };
        if self.breaks.set.len() >= MOST_BREAKS {
            return Err(BreakFault::Many);
        }
        // 2^64 breaks are more than anyone sets one by one
        let Some(number) = self.breaks.count.checked_add(1) else {
            return Err(BreakFault::Many);
        };
        let Some(pattern) = self.pattern_in(text)? else {
            return Err(BreakFault::Pattern);
        };
        add(&mut self.breaks.set, Break { number, pattern })?;
        self.breaks.count = number;
        Ok(number)
    }

    /// The pattern that these bytes are, if they are one.
    fn pattern_in(&self, text: &[u8]) -> Result<Option<Pattern>, AllocError>
        ensures { IfOk result (λ o. MatchOption o ((p : pattern.Pattern) → IsPattern text.now p → ⊥) (IsPattern text.now)) }
    {
        match from_utf8(text) {
            Ok(text) => pattern_of(self.alloc, text),
            Err(_) => Ok(None),
        }
    }

    /// Removes the break with this number, and says whether it was set.
    pub fn clear_break(&mut self, number: u64) -> bool
        ensures only { OnlyBreaks self.old self.new }
        ensures cleared { ClearsBreak number self.old self.new result }
    {
        match index_of(self.breaks.set.as_slice(), number) {
            Some(index) => {
                self.breaks.set.remove(index);
                true
            }
            None => false,
        }
    }
}

/// Adds a break after the others.
fn add(set: &mut Vec<Break>, one: Break) -> Result<(), AllocError>
    ensures ok { OnOk result (set.new.items ≡ set.old.items ++ one ∷ []) }
    ensures err { OnErr result (set.new.items ≡ set.old.items) }
{
    set.push(one)?;
    Ok(())
}

/// The index of the break with this number.
fn index_of(set: &[Break], number: u64) -> Option<usize>
    ensures { result ≡ position (λ b. nat_eq b.number number) set.now }
{
    set.iter().position(|one| one.number == number)
}

impl Breaks {
    /// No breaks.
    pub(crate) fn new(alloc: Global) -> Breaks
        ensures { (result.set.items ≡ []) × (result.count ≡ 0) }
    {
        Breaks {
            set: Vec::new(alloc),
            count: 0,
            text: Vec::new(alloc),
        }
    }

    /// Whether none is set.
    pub(crate) fn is_empty(&self) -> bool
        ensures { IsTrue result ↔ (self.now.set.items ≡ []) }
    {
        self.set.is_empty()
    }

    /// The break with the least number that one of these lines is for, and the tick of the lines. They are those of one
    /// event, unless no break is set.
    pub(crate) fn first_for(
        &mut self,
        system: &System,
        lines: &[Line],
    ) -> Result<Option<(u64, u64)>, AllocError>
        requires { All (BelongsTo system.now) lines.now }
        ensures set { (self.new.set.items ≡ self.old.set.items) × (self.new.count ≡ self.old.count) }
        ensures hit { IfOk result (λ o. IfSome o (λ h. (l : run.Line) × Contains lines.now l × (l.key.tick ≡ h.1))) }
        ensures least { IfOk result (λ o. IsHitBy (system_of system.now) self.old.set.items (map (line_of system.now) lines.now) (option_map (λ h. h.0) o)) }
    {
        if self.set.is_empty() {
            return Ok(None);
        }
        let mut least: Option<(u64, u64)> = None;
        for line in lines {
            self.text.clear();
            render(&mut self.text, system, line)?;
            let number = number_at(self.set.as_slice(), self.text.as_slice());
            least = earlier(least, number, line.key.tick);
        }
        Ok(least)
    }
}

/// The least number of the breaks that a line with this text in form one is for.
fn number_at(set: &[Break], text: &[u8]) -> Option<u64>
    ensures { (i : Inputs) (l : states.Line) → text.now ≡ line_text One i l → IsLeastOf (IsFor (system_of i) l) set.now result }
{
    match read_entry(Form::One, text) {
        Some(entry) => number_for(set, &entry),
        // The text of a line is always one.
        None => None,
    }
}

/// The least number of the breaks that an entry is for.
fn number_for(set: &[Break], entry: &Entry<'_>) -> Option<u64>
    ensures { IsLeastOf (λ b. patterns.meets b.pattern (event_of entry.now) ≡ true) set.now result }
{
    let mut least = None;
    for one in set {
        if meets(&one.pattern, entry) {
            least = lesser(least, one.number);
        }
    }
    least
}

/// The lesser of two numbers, if the first is there.
fn lesser(least: Option<u64>, number: u64) -> Option<u64>
    ensures { result ≡ spec.lesser least (Some number) }
{
    match least {
        Some(before) if before <= number => Some(before),
        _ => Some(number),
    }
}

/// The lesser number of the two, with the tick of its line.
fn earlier(least: Option<(u64, u64)>, number: Option<u64>, tick: u64) -> Option<(u64, u64)>
    ensures tick { IfSome result (λ h. (h.1 ≡ tick) ⊎ (least ≡ Some h)) }
    ensures number { option_map (λ h. h.0) result ≡ spec.lesser (option_map (λ h. h.0) least) number }
{
    match (least, number) {
        (Some((before, _)), Some(number)) if number < before => Some((number, tick)),
        (None, Some(number)) => Some((number, tick)),
        (least, _) => least,
    }
}

/// Appends the text of a line in form one.
fn render(text: &mut Vec<u8>, system: &System, line: &Line) -> Result<(), AllocError>
    requires { BelongsTo system.now line.now }
    ensures { OnOk result (text.new.items ≡ text.old.items ++ line_text One system.now (line_of system.now line.now)) }
{
    match write_lines(text, system, Form::One, from_ref(line)) {
        Ok(()) => Ok(()),
        Err(_) => Err(AllocError),
    }
}
