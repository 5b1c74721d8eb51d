//! Finds the ports of a system by their text in lines.

ghost use Rattle.std.specs.Prelude.{◌≡◌, ◌≤◌, ℕ, List, All, Contains, IfNone, IfOk, IfSome, IsSome, MatchOption, Some, slice_get, length, map};
ghost use Rattle.fb_types.specs.Headline.{AreAccepted};
ghost use Rattle.fb_types.specs.Limits.{IsWithinLimits};
ghost use Rattle.fb_types.specs.Repeated.{Twice};
ghost use Rattle.fb_check_names.specs.Indexes.{IsIndex};
ghost use Rattle.fb_wave.specs.declared.ports.Port as declared;
ghost use Rattle.fb_wave.specs.Words.{HasNoThree, HasThree, is_ended};
ghost use Rattle.fb_wave.specs.OfSystem.{BeginsWith, HasNames, HasNoPort, IsPortOf, port_text};

use crate::ports::Port;
use crate::system_ports::SystemPorts;
use crate::words::{after_front, cut, is_end};
use fb_check_names::{Indexes, index_of, indexes_of};
use fb_system::System;
use fb_types::Name;
use std::alloc::{AllocError, Global};

/// The ports of a system, found by their texts.
#[derive(Drop)]
pub struct PortTable<'a> {
    /// The system.
    pub system: &'a System,
    ports: &'a [Port],
    texts: &'a [Name],
    indexes: Indexes<'a>,
    // The ports are those of the system. Each has its text, and the map has the indexes of the texts.
    ghost accepted: { AreAccepted system.now },
    ghost limits: { IsWithinLimits system.now.plan },
    ghost ports_are: { All (IsPortOf system.now) ports.now },
    ghost all: { (p : declared.Port) → IsPortOf system.now p → ∥ Contains ports.now p ∥₁ },
    ghost texts_are: { texts.now ≡ map (port_text system.now) ports.now },
    ghost index: { IsIndex (map (port_text system.now) ports.now) indexes },
}

/// A guess of the port of the next line: the port that came last after the port of this line. A wrong guess only costs
/// time, so no contract speaks of it.
#[derive(Drop)]
pub struct Guess {
    /// For each port the index of the one that came last after it.
    next: Vec<usize>,
    /// The index of the port of the line before.
    last: usize,
}

impl Guess {
    /// The guess before the first line.
    pub fn new(alloc: Global, table: &PortTable<'_>) -> Result<Guess, AllocError> {
        let mut next = Vec::new(alloc);
        for index in 0..table.ports.len() {
            next.push(index)?;
        }
        Ok(Guess { next, last: 0 })
    }

    /// The index of the guessed port.
    fn index(&self) -> usize {
        match self.next.get(self.last) {
            Some(index) => *index,
            None => 0,
        }
    }

    /// Notes that the port at this index came next.
    fn mark(&mut self, index: usize) {
        if let Some(next) = self.next.get_mut(self.last) {
            *next = index;
        }
        self.last = index;
    }
}

/// Whether a word ends before this text.
fn ends_word(rest: &[u8]) -> bool
    ensures { result ≡ is_ended rest.now }
{
    match rest.first() {
        Some(byte) => is_end(*byte),
        None => false,
    }
}

/// The indexes of texts, or `None` if one is given twice.
fn indexes_in(alloc: Global, texts: &[Name]) -> Result<Option<Indexes<'_>>, AllocError>
    ensures { IfOk result (λ o. MatchOption o (Twice texts.now) (IsIndex texts.now)) }
{
    let mut names = Vec::new(alloc);
    for text in texts {
        names.push(text)?;
    }
    indexes_of(alloc, names.as_slice())
}

/// The length of the port's text at the beginning of a text: up to the end of its third word.
fn port_len(text: &[u8]) -> Option<usize>
    ensures three { MatchOption result (HasNoThree text.now) (HasThree text.now) }
    ensures within { IfSome result (λ n. n ≤ length text.now) }
{
    let resource = cut(text)?;
    let sign = cut(after_front(resource.1, b" ")?)?;
    let event = cut(after_front(sign.1, b" ")?)?;
    Some(text.len() - event.1.len())
}

impl<'a> PortTable<'a> {
    /// The table of the ports of a system, or `None` if two of them have the same text.
    ///
    /// # Errors
    /// When memory runs out.
    pub fn of(
        alloc: Global,
        ports: &'a SystemPorts<'_>,
    ) -> Result<Option<PortTable<'a>>, AllocError>
        ensures system { IfOk result (λ o. IfSome o (λ t. t.system.now ≡ ports.now.system.now)) }
        ensures some { HasNames ports.now.system.now → IfOk result IsSome }
    {
        ports.system.facts(); // for the prover: what holds of every accepted system
        match indexes_in(alloc, ports.texts.as_slice())? {
            Some(indexes) => Ok(Some(PortTable {
                system: ports.system,
                ports: ports.ports.as_slice(),
                texts: ports.texts.as_slice(),
                indexes,
            })),
            None => Ok(None),
        }
    }

    /// The port at an index, if a text begins with its text, and what comes after it.
    fn at<'b>(&self, index: usize, text: &'b [u8]) -> Option<(Port, &'b [u8])>
        ensures found { IfSome result (λ p. BeginsWith self.now.system.now text.now p.0 p.1.now) }
        ensures none { IfNone result ((p : Port) (rest : List ℕ) → slice_get self.now.ports.now index ≡ Some p
            → BeginsWith self.now.system.now text.now p rest → ⊥) }
    {
        let port = self.ports.get(index)?;
        let name = self.texts.get(index)?;
        let rest = after_front(text, name.as_bytes())?;
        if !ends_word(rest) {
            return None;
        }
        Some((*port, rest))
    }

    /// The port whose text is the beginning of a text, and what comes after it. Its index is guessed, and looked up if
    /// the guess is wrong.
    pub fn find<'b>(&self, guess: &mut Guess, text: &'b [u8]) -> Option<(Port, &'b [u8])>
        ensures found { IfSome result (λ p. BeginsWith self.now.system.now text.now p.0 p.1.now) }
        ensures none { HasNames self.now.system.now → IfNone result (HasNoPort self.now.system.now text.now) }
    {
        let guessed = guess.index();
        if let Some(found) = self.at(guessed, text) {
            guess.last = guessed;
            return Some(found);
        }
        let length = port_len(text)?;
        let index = index_of(&self.indexes, &text[..length])?;
        guess.mark(index);
        self.at(index, text)
    }
}
