//! What an algorithm or a guard consists of, and the names of a list, for the words of findings.

use fb_check::types::mentions::{Mention, push_body, push_expression};
use fb_check::types::{Standing, all_statements};
use fb_check_names::Named;
use fb_read_positions::Text;
use fb_types::{BasicType, Body, Stmt};
use std::alloc::{AllocError, Global};
use std::mem;

/// A kind of the parts of a basic type.
#[derive(Clone, Copy, PartialEq, Eq)]
pub(crate) enum Kind {
    Algorithm,
    Guard,
    State,
}

/// An algorithm or a guard: its kind, and the indexes of the basic type and its own.
pub(crate) type Source = (Kind, usize, usize);

/// What the last algorithm or guard consists of, and the names of the last list. Findings follow the order of the text,
/// so each is gone through once for all that are in it.
#[derive(Drop)]
pub(crate) struct Contents<'a> {
    pub(crate) alloc: Global,
    /// The basic type and its algorithm that has these statements.
    stated: Option<(usize, usize)>,
    statements: Vec<Standing<'a>>,
    /// The algorithm or the guard that has these mentions.
    mentioned: Option<Source>,
    mentions: Vec<Mention<'a>>,
    /// The basic type whose parts of a kind have these names.
    named: Option<(Kind, usize)>,
    names: String,
}

/// Adds what an algorithm or a guard names, in the order of the text.
fn push_mentions<'a>(
    all: &mut Vec<Mention<'a>>,
    basic: &'a BasicType,
    (kind, _, index): Source,
) -> Result<(), AllocError> {
    if let (Kind::Algorithm, Some(algorithm)) = (kind, basic.algorithms.get(index)) {
        return push_body(all, &algorithm.body);
    }
    if let (Kind::Guard, Some(transition)) = (kind, basic.transitions.get(index)) {
        if let Some(guard) = &transition.condition.guard {
            return push_expression(all, guard);
        }
    }
    Ok(())
}

impl<'a> Contents<'a> {
    /// Of nothing so far.
    pub fn new(alloc: Global) -> Contents<'a> {
        Contents {
            alloc,
            stated: None,
            statements: Vec::new(alloc),
            mentioned: None,
            mentions: Vec::new(alloc),
            named: None,
            names: String::new(alloc),
        }
    }

    /// The statement at an index of an algorithm, which has this body. The algorithm is given by the indexes of the
    /// basic type and its own. If memory runs out, the text remembers it.
    pub fn statement(
        &mut self,
        text: &mut Text,
        algorithm: (usize, usize),
        body: &'a Body,
        index: usize,
    ) -> Option<&'a Stmt> {
        if self.stated != Some(algorithm) {
            let Ok(statements) = all_statements(self.alloc, body) else {
                text.give_up();
                return None;
            };
            drop(mem::replace(&mut self.statements, statements));
            self.stated = Some(algorithm);
        }
        Some(self.statements.get(index)?.statement)
    }

    /// Adds that what an algorithm or a guard of a basic type names at an index is unknown.
    pub fn push_mention(
        &mut self,
        text: &mut Text,
        basic: &'a BasicType,
        source: Source,
        index: usize,
    ) {
        if self.mentioned != Some(source) {
            self.mentioned = None;
            self.mentions.clear();
            if push_mentions(&mut self.mentions, basic, source).is_err() {
                text.give_up();
                return;
            }
            self.mentioned = Some(source);
        }
        match self.mentions.get(index) {
            Some(Mention::Variable(name)) => {
                text.named(": ", &basic.name);
                text.named(" has no variable ", name);
            }
            Some(Mention::Function(name)) => {
                text.named(": there is no function ", name);
                text.words(" (there are MIN, MAX, ABS, LIMIT, SEL)");
            }
            None => {}
        }
    }

    /// Adds the names of the parts of a kind, which are these items of the basic type at an index.
    pub fn push_names<T: Named>(&mut self, text: &mut Text, kind: Kind, block: usize, items: &[T]) {
        if self.named != Some((kind, block)) {
            let mut names = Text::new(self.alloc);
            names.names(items);
            let Ok(names) = names.into_string() else {
                text.give_up();
                return;
            };
            drop(mem::replace(&mut self.names, names));
            self.named = Some((kind, block));
        }
        text.words(self.names.as_str());
    }
}
