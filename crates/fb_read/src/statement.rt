//! Statements (IEC 61131-3, 7.3.3).

ghost use Rattle.std.specs.Prelude.{◌≡◌, [], ◌∷◌};
ghost use Rattle.fb_read.specs.Parser.{Reads};
ghost use Rattle.fb_read.specs.Statements as spec;
ghost use Rattle.fb_read.specs.StatementNests.{StatementNests};

use crate::cursor::Cursor;
use crate::fault::ParseFault;
use crate::rule::{Rule, added, ended, finished, optional, pair, separated, then_read};
use crate::token::Mark;
use fb_types::{Body, Branch, Choice, Expr, Items, Label, MOST_NESTING, Name, Reference, Stmt};

/// A bound of a label.
#[tactic(auto, unfolding(crate::specs::Statements::bound))]
fn bound(cursor: &mut Cursor<'_>) -> Result<i128, ParseFault>
    ensures { Reads (spec.bound cursor.old) result cursor.new }
{
    let negative = cursor.eat(Mark::Minus);
    let whole = cursor.whole()?;
    if negative {
        Ok(whole.negative())
    } else {
        Ok(whole.positive())
    }
}

impl Rule for Label {
    ghost parser = { spec.label };

    #[tactic(auto, unfolding(crate::specs::Statements::label))]
    fn read(cursor: &mut Cursor<'_>) -> Result<Label, ParseFault> {
        let first = bound(cursor)?;
        let last = if cursor.eat(Mark::DotDot) {
            bound(cursor)?
        } else {
            first
        };
        Ok(Label { first, last })
    }
}

/// A statement without inner statements.
#[tactic(auto, unfolding(crate::specs::Statements::simple))]
fn simple(cursor: &mut Cursor<'_>) -> Result<Stmt, ParseFault>
    ensures { Reads (spec.simple cursor.old) result cursor.new }
{
    if cursor.eat(Mark::Semicolon) {
        Ok(Stmt::Empty)
    } else if cursor.eat(Mark::Exit) {
        ended(cursor, Mark::Semicolon, Stmt::Exit)
    } else if cursor.eat(Mark::Return) {
        ended(cursor, Mark::Semicolon, Stmt::Return)
    } else {
        let (target, value) = pair::<Name, Expr>(cursor, Mark::Assign)?;
        let found = Stmt::Assign(Reference::new(target), value);
        ended(cursor, Mark::Semicolon, found)
    }
}

/// The rules of statements take the reader of inner statements as a parameter, so that each is proved separately.
#[derive(Drop)]
pub struct StatementRules<F> {
    /// How deep the statements inside may nest.
    below: u32,
    inner: F,
}

impl<F: Fn(&mut Cursor<'_>, u32) -> Result<Stmt, ParseFault>> StatementRules<F> {
    /// The statements up to the first token that begins none. Each iteration takes a token.
    fn block(&self, cursor: &mut Cursor<'_>) -> Result<Items<Stmt>, ParseFault>
        requires { StatementNests self.now.below (F.pre self.now.inner) (F.post self.now.inner) }
        ensures { Reads (spec.block (spec.nested_statement self.now.below) cursor.old) result cursor.new }
    {
        let mut found = cursor.no_items();
        for _turn in 0..cursor.left() {
            if !cursor.begins_statement() {
                return Ok(found);
            }
            found = added(found, (self.inner)(cursor, self.below))?;
        }
        Ok(found)
    }

    /// A condition, and the statements after it.
    #[tactic(auto, unfolding(crate::specs::Statements::choice))]
    fn choice(&self, cursor: &mut Cursor<'_>) -> Result<Choice, ParseFault>
        requires { StatementNests self.now.below (F.pre self.now.inner) (F.post self.now.inner) }
        ensures { Reads (spec.choice (spec.nested_statement self.now.below) cursor.old) result cursor.new }
    {
        let condition = Expr::read(cursor)?;
        cursor.expect(Mark::Then)?;
        let body = self.block(cursor)?;
        Ok(Choice { condition, body })
    }

    /// What follows IF, including each ELSIF. Each iteration takes a token.
    fn choices(&self, cursor: &mut Cursor<'_>) -> Result<Items<Choice>, ParseFault>
        requires { StatementNests self.now.below (F.pre self.now.inner) (F.post self.now.inner) }
        ensures { Reads (spec.choices (spec.nested_statement self.now.below) cursor.old) result cursor.new }
    {
        let mut found = added(cursor.no_items(), self.choice(cursor))?;
        for _turn in 0..cursor.left() {
            if !cursor.eat(Mark::Elsif) {
                return Ok(found);
            }
            found = added(found, self.choice(cursor))?;
        }
        Ok(found)
    }

    /// Labels, and the statements after them.
    #[tactic(auto, unfolding(crate::specs::Statements::branch))]
    fn branch(&self, cursor: &mut Cursor<'_>) -> Result<Branch, ParseFault>
        requires { StatementNests self.now.below (F.pre self.now.inner) (F.post self.now.inner) }
        ensures { Reads (spec.branch (spec.nested_statement self.now.below) cursor.old) result cursor.new }
    {
        let labels = separated::<Label>(cursor)?;
        cursor.expect(Mark::Colon)?;
        let body = self.block(cursor)?;
        Ok(Branch { labels, body })
    }

    /// The branches of a CASE. Each iteration takes a token.
    fn branches(&self, cursor: &mut Cursor<'_>) -> Result<Items<Branch>, ParseFault>
        requires { StatementNests self.now.below (F.pre self.now.inner) (F.post self.now.inner) }
        ensures { Reads (spec.branches (spec.nested_statement self.now.below) cursor.old) result cursor.new }
    {
        let mut found = added(cursor.no_items(), self.branch(cursor))?;
        for _turn in 0..cursor.left() {
            if !cursor.begins_label() {
                return Ok(found);
            }
            found = added(found, self.branch(cursor))?;
        }
        Ok(found)
    }

    /// The statements after ELSE, if there is one.
    #[tactic(auto, unfolding(crate::specs::Statements::others))]
    fn others(&self, cursor: &mut Cursor<'_>) -> Result<Items<Stmt>, ParseFault>
        requires { StatementNests self.now.below (F.pre self.now.inner) (F.post self.now.inner) }
        ensures { Reads (spec.others (spec.nested_statement self.now.below) cursor.old) result cursor.new }
    {
        if cursor.eat(Mark::Else) {
            self.block(cursor)
        } else {
            Ok(cursor.no_items())
        }
    }

    /// What follows IF.
    #[tactic(auto, unfolding(crate::specs::Statements::if_statement))]
    fn if_statement(&self, cursor: &mut Cursor<'_>) -> Result<Stmt, ParseFault>
        requires { StatementNests self.now.below (F.pre self.now.inner) (F.post self.now.inner) }
        ensures { Reads (spec.if_statement (spec.nested_statement self.now.below) cursor.old) result cursor.new }
    {
        let choices = self.choices(cursor)?;
        let others = self.others(cursor)?;
        finished(cursor, Mark::EndIf, Stmt::If(choices, others))
    }

    /// What follows CASE.
    fn case_statement(&self, cursor: &mut Cursor<'_>) -> Result<Stmt, ParseFault>
        requires { StatementNests self.now.below (F.pre self.now.inner) (F.post self.now.inner) }
        ensures { Reads (spec.case_statement (spec.nested_statement self.now.below) cursor.old) result cursor.new }
    {
        let selector = Expr::read(cursor)?;
        cursor.expect(Mark::Of)?;
        let branches = self.branches(cursor)?;
        let others = self.others(cursor)?;
        let found = Stmt::Case(selector, branches, others);
        finished(cursor, Mark::EndCase, found)
    }

    /// The statements of a loop, from DO on, up to this mark, including the end of the loop.
    #[tactic(auto, unfolding(crate::specs::Statements::loop_body))]
    fn loop_body(&self, cursor: &mut Cursor<'_>, end: Mark) -> Result<Items<Stmt>, ParseFault>
        requires { StatementNests self.now.below (F.pre self.now.inner) (F.post self.now.inner) }
        ensures { Reads (spec.loop_body (spec.nested_statement self.now.below) end cursor.old) result cursor.new }
    {
        cursor.expect(Mark::Do)?;
        let body = self.block(cursor)?;
        finished(cursor, end, body)
    }

    /// What follows FOR.
    fn for_statement(&self, cursor: &mut Cursor<'_>) -> Result<Stmt, ParseFault>
        requires { StatementNests self.now.below (F.pre self.now.inner) (F.post self.now.inner) }
        ensures { Reads (spec.for_statement (spec.nested_statement self.now.below) cursor.old) result cursor.new }
    {
        let first = pair::<Name, Expr>(cursor, Mark::Assign)?;
        let head = then_read::<(Name, Expr), Expr>(cursor, first, Mark::To)?;
        let step = optional::<Expr>(cursor, Mark::By)?;
        let body = self.loop_body(cursor, Mark::EndFor)?;
        let ((variable, start), end) = head;
        Ok(Stmt::For(Reference::new(variable), start, end, step, body))
    }

    /// What follows WHILE.
    #[tactic(auto, unfolding(crate::specs::Statements::while_statement))]
    fn while_statement(&self, cursor: &mut Cursor<'_>) -> Result<Stmt, ParseFault>
        requires { StatementNests self.now.below (F.pre self.now.inner) (F.post self.now.inner) }
        ensures { Reads (spec.while_statement (spec.nested_statement self.now.below) cursor.old) result cursor.new }
    {
        let condition = Expr::read(cursor)?;
        let body = self.loop_body(cursor, Mark::EndWhile)?;
        Ok(Stmt::While(condition, body))
    }

    /// What follows REPEAT.
    #[tactic(auto, unfolding(crate::specs::Statements::repeat_statement))]
    fn repeat_statement(&self, cursor: &mut Cursor<'_>) -> Result<Stmt, ParseFault>
        requires { StatementNests self.now.below (F.pre self.now.inner) (F.post self.now.inner) }
        ensures { Reads (spec.repeat_statement (spec.nested_statement self.now.below) cursor.old) result cursor.new }
    {
        let body = self.block(cursor)?;
        cursor.expect(Mark::Until)?;
        let condition = Expr::read(cursor)?;
        finished(cursor, Mark::EndRepeat, Stmt::Repeat(body, condition))
    }

    #[tactic(auto, unfolding(crate::specs::Statements::statement))]
    fn statement(&self, cursor: &mut Cursor<'_>) -> Result<Stmt, ParseFault>
        requires { StatementNests self.now.below (F.pre self.now.inner) (F.post self.now.inner) }
        ensures { Reads (spec.statement (spec.nested_statement self.now.below) cursor.old) result cursor.new }
    {
        if cursor.eat(Mark::If) {
            self.if_statement(cursor)
        } else if cursor.eat(Mark::Case) {
            self.case_statement(cursor)
        } else if cursor.eat(Mark::For) {
            self.for_statement(cursor)
        } else if cursor.eat(Mark::While) {
            self.while_statement(cursor)
        } else if cursor.eat(Mark::Repeat) {
            self.repeat_statement(cursor)
        } else {
            simple(cursor)
        }
    }
}

/// A statement that nests no deeper than `depth`.
fn nested_statement(cursor: &mut Cursor<'_>, depth: u32) -> Result<Stmt, ParseFault>
    ensures { Reads (spec.nested_statement depth cursor.old) result cursor.new }
{
    if depth == 0 {
        // The first token of the statement is the one that nests too deep.
        cursor.take();
        return Err(ParseFault::Nesting);
    }
    StatementRules {
        below: depth - 1,
        inner: nested_statement,
    }
    .statement(cursor)
}

/// The statements of an algorithm, each of which nests at most 64 deep, including END_ALGORITHM. The cursor is left
/// after it, or at the token that is refused.
#[tactic(auto, unfolding(crate::specs::Statements::body))]
pub fn body(cursor: &mut Cursor<'_>) -> Result<Body, ParseFault>
    ensures { Reads (spec.body cursor.old) result cursor.new }
{
    let rules = StatementRules {
        below: MOST_NESTING,
        inner: nested_statement,
    };
    let statements = rules.block(cursor)?;
    ended(cursor, Mark::EndAlgorithm, Body { statements })
}
