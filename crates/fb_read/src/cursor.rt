//! A cursor in a list of tokens.

ghost use Rattle.std.specs.Prelude.{◌≡◌, ◌<◌, ◌^◌, [], ◌∷◌, length, IfNone, IfSome};
ghost use Rattle.fb_read.specs.Parser as spec;
ghost use Rattle.fb_read.specs.Parser.{Reads};
ghost use Rattle.fb_read.specs.Tokens.{tokens_of};
ghost use Rattle.fb_read.specs.Operators.{next_operator, begins_expression};
ghost use Rattle.fb_read.specs.Statements.{begins_statement, begins_label};

use crate::expected::{Expected, Sought, begins_expression, begins_statement};
use crate::fault::ParseFault;
use crate::operator::operator_of;
use crate::rule::Rule;
use crate::token::{Located, Magnitude, Mark, Token};
use fb_types::{BinaryOperator, Items, Name, Ty};
use std::alloc::Global;
use std::cell::Cell;
use std::marker::Model;

/// The tokens that are still to be read, and the allocator for what is read. Contracts see the tokens without their
/// offsets. There are fewer than 2^32, so that what is read can be numbered.
#[derive(Drop)]
pub struct Cursor<'a> {
    alloc: Global,
    rest: &'a [Located],
    /// How many tokens are left at the token that is watched; `usize::MAX` if none is.
    watched: usize,
    /// What was looked for at that token and not found.
    missed: Cell<Expected>,
}

impl<'a> Model for Cursor<'a> {
    ghost use Rattle.std.specs.Prelude.{◌<◌, ◌^◌, List, length, map};
    ghost use Rattle.fb_read.specs.declared.token.Token.{Token};

    ghost Value = { List Token };

    ghost view = { λ c. map (λ p. p.token) c.rest.now };

    ghost invariant = { λ c. length c.rest.now < 2 ^ 32 };
}

/// The elementary type that a keyword names.
pub fn ty_of(mark: Mark) -> Option<Ty>
    ensures { result ≡ spec.ty_of mark }
{
    match mark {
        Mark::Bool => Some(Ty::Bool),
        Mark::Sint => Some(Ty::Sint),
        Mark::Int => Some(Ty::Int),
        Mark::Dint => Some(Ty::Dint),
        Mark::Lint => Some(Ty::Lint),
        Mark::Usint => Some(Ty::Usint),
        Mark::Uint => Some(Ty::Uint),
        Mark::Udint => Some(Ty::Udint),
        Mark::Ulint => Some(Ty::Ulint),
        Mark::Time => Some(Ty::Time),
        _ => None,
    }
}

/// The word with this spelling, which the grammar asks for.
fn sought_word(text: &[u8]) -> Sought {
    if text == b"IN".as_slice() {
        Sought::In
    } else {
        Sought::St
    }
}

impl<'a> Cursor<'a> {
    ghost use Rattle.fb_read.specs.Tokens.{tokens_of};

    /// A cursor before these tokens. `alloc` is for what is read.
    pub fn new(alloc: Global, rest: &'a [Located]) -> Cursor<'a>
        requires { length rest.now < 2 ^ 32 }
        ensures { result ≡ tokens_of rest.now }
    {
        Cursor::watching(alloc, rest, usize::MAX)
    }

    /// A cursor before these tokens that notes what is missed at the one before which `watched` tokens are left.
    pub(crate) fn watching(alloc: Global, rest: &'a [Located], watched: usize) -> Cursor<'a>
        requires { length rest.now < 2 ^ 32 }
        ensures { result ≡ tokens_of rest.now }
    {
        Cursor {
            alloc,
            rest,
            watched,
            missed: Cell::new(Expected::none()),
        }
    }

    /// What was looked for at the watched token and not found.
    pub fn missed(&self) -> Expected {
        self.missed.get()
    }

    /// Notes that a rule looked for this and did not find it.
    fn miss(&self, sought: Sought) {
        if self.rest.len() == self.watched {
            self.missed.set(self.missed.get().with(sought));
        }
    }

    /// The refusal of the next token, where a rule looked for this.
    fn refusal(&self, sought: Sought) -> ParseFault
        ensures { result ≡ ParseFault.Syntax }
    {
        self.miss(sought);
        ParseFault::Syntax
    }

    /// The allocator for what is read.
    pub fn alloc(&self) -> Global {
        self.alloc
    }

    /// An empty list for what must be read.
    pub fn no_items<T>(&self) -> Items<T>
        ensures { result ≡ [] }
    {
        Items::new(self.alloc)
    }

    /// Says to proofs how many tokens are left at most.
    pub fn bound(&self)
        ensures { length self.now < 2 ^ 32 }
    {
        let _ = &self.rest;
    }

    /// The number of tokens that are left.
    pub fn left(&self) -> usize
        ensures { result ≡ length self.now }
    {
        self.rest.len()
    }

    /// The token that is next, if there is one.
    fn next(&self) -> Option<&'a Token>
        ensures some { IfSome result (λ t. self.now ≡ t.now ∷ spec.rest_of self.now) }
        ensures none { IfNone result (self.now ≡ []) }
    {
        match self.rest {
            [first, ..] => Some(&first.token),
            [] => None,
        }
    }

    /// Whether this mark is next.
    #[tactic(auto, unfolding(crate::specs::Parser::same_mark))]
    pub fn sees(&self, mark: Mark) -> bool
        ensures { result ≡ spec.sees mark self.now }
    {
        if let Some(Token::Mark(other)) = self.next()
            && *other == mark
        {
            return true;
        }
        self.miss(Sought::Mark(mark));
        false
    }

    /// Skips the next token, if there is one.
    pub fn take(&mut self)
        ensures { self.new ≡ spec.rest_of self.old }
    {
        if let [_, rest @ ..] = self.rest {
            self.rest = rest;
        }
    }

    /// Takes this mark, if it is next. Returns whether it was.
    #[tactic(auto, unfolding(crate::specs::Parser::after))]
    pub fn eat(&mut self, mark: Mark) -> bool
        ensures found { result ≡ spec.sees mark self.old }
        ensures after { self.new ≡ spec.after mark self.old }
    {
        let found = self.sees(mark);
        if found {
            self.take();
        }
        found
    }

    /// Takes this mark. Any other token is refused.
    #[tactic(auto, unfolding(crate::specs::Parser::expect))]
    pub fn expect(&mut self, mark: Mark) -> Result<(), ParseFault>
        ensures { Reads (spec.expect mark self.old) result self.new }
    {
        if self.sees(mark) {
            self.take();
            Ok(())
        } else {
            Err(ParseFault::Syntax)
        }
    }

    /// Takes the next token, if it is a name.
    #[tactic(auto, unfolding(crate::specs::Parser::name_if))]
    pub fn name_if(&mut self) -> Result<Option<Name>, ParseFault>
        ensures { Reads (spec.name_if self.old) result self.new }
    {
        if let Some(Token::Name(name)) = self.next() {
            let name = name.try_clone(self.alloc)?;
            self.take();
            return Ok(Some(name));
        }
        self.miss(Sought::Name);
        Ok(None)
    }

    /// Takes the name with this spelling, in upper case. Any other token is refused.
    #[tactic(auto, unfolding(crate::specs::Parser::word))]
    pub fn word(&mut self, text: &[u8]) -> Result<(), ParseFault>
        ensures { Reads (spec.word text.now self.old) result self.new }
    {
        if let Some(Token::Name(name)) = self.next()
            && name.as_bytes() == text
        {
            self.take();
            return Ok(());
        }
        Err(self.refusal(sought_word(text)))
    }

    /// Takes a whole literal. Any other token is refused.
    #[tactic(auto, unfolding(crate::specs::Parser::whole))]
    pub fn whole(&mut self) -> Result<Magnitude, ParseFault>
        ensures { Reads (spec.whole self.old) result self.new }
    {
        if let Some(Token::Whole(value)) = self.next() {
            self.take();
            return Ok(value.copied());
        }
        Err(self.refusal(Sought::Whole))
    }

    /// Takes a whole literal whose value is 1. Any other token is refused.
    #[tactic(auto, unfolding(crate::specs::Parser::one))]
    pub fn one(&mut self) -> Result<(), ParseFault>
        ensures { Reads (spec.one self.old) result self.new }
    {
        if let Some(Token::Whole(value)) = self.next()
            && value.positive() == 1
        {
            self.take();
            return Ok(());
        }
        Err(self.refusal(Sought::Whole))
    }

    /// Takes a whole or a time literal. Any other token is refused.
    #[tactic(auto, unfolding(crate::specs::Parser::literal))]
    pub fn literal(&mut self) -> Result<i128, ParseFault>
        ensures { Reads (spec.literal self.old) result self.new }
    {
        let value = match self.next() {
            Some(Token::Whole(value)) => value.positive(),
            Some(Token::Time(ticks)) => *ticks,
            _ => return Err(self.refusal(Sought::Literal)),
        };
        self.take();
        Ok(value)
    }

    /// Whether a name is next.
    pub fn sees_name(&self) -> bool
        ensures { result ≡ spec.sees_name self.now }
    {
        if let Some(Token::Name(_)) = self.next() {
            return true;
        }
        self.miss(Sought::Name);
        false
    }

    /// Whether the next token may begin an expression.
    pub fn begins_expression(&self) -> bool
        ensures { result ≡ begins_expression self.now }
    {
        let begins = match self.next() {
            Some(Token::Mark(mark)) => begins_expression(*mark),
            Some(_) => true,
            None => false,
        };
        if !begins {
            self.miss(Sought::Expression);
        }
        begins
    }

    /// The operator of this level, if it is next.
    pub fn operator(&self, level: u8) -> Option<BinaryOperator>
        ensures { result ≡ next_operator level self.now }
    {
        if let Some(Token::Mark(mark)) = self.next()
            && let Some((found, operator)) = operator_of(*mark)
            && found == level
        {
            return Some(operator);
        }
        self.miss(Sought::Operator(level));
        None
    }

    /// Whether the next token may begin a statement.
    pub fn begins_statement(&self) -> bool
        ensures { result ≡ begins_statement self.now }
    {
        let begins = match self.next() {
            Some(Token::Mark(mark)) => begins_statement(*mark),
            Some(Token::Name(_)) => true,
            _ => false,
        };
        if !begins {
            self.miss(Sought::Statement);
        }
        begins
    }

    /// Whether the next token may begin a label.
    pub fn begins_label(&self) -> bool
        ensures { result ≡ begins_label self.now }
    {
        if self.sees(Mark::Minus) {
            return true;
        }
        if let Some(Token::Whole(_)) = self.next() {
            return true;
        }
        self.miss(Sought::Whole);
        false
    }
}

impl Rule for Name {
    ghost parser = { spec.name };

    #[tactic(auto, unfolding(crate::specs::Parser::name))]
    fn read(cursor: &mut Cursor<'_>) -> Result<Name, ParseFault> {
        if let Some(Token::Name(name)) = cursor.next() {
            let name = name.try_clone(cursor.alloc)?;
            cursor.take();
            return Ok(name);
        }
        Err(cursor.refusal(Sought::Name))
    }
}

/// The elementary type that the next keyword names.
impl Rule for Ty {
    ghost parser = { spec.ty_name };

    #[tactic(auto, unfolding(crate::specs::Parser::ty_name))]
    fn read(cursor: &mut Cursor<'_>) -> Result<Ty, ParseFault> {
        if let Some(Token::Mark(mark)) = cursor.next()
            && let Some(ty) = ty_of(*mark)
        {
            cursor.take();
            return Ok(ty);
        }
        Err(cursor.refusal(Sought::Type))
    }
}
