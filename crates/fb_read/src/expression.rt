//! Expressions (IEC 61131-3, 7.3.2).

ghost use Rattle.std.specs.Prelude.{◌≡◌, ◌≤◌, ◌<◌, ◌-◌, IfOk};
ghost use Rattle.fb_read.specs.Parser.{Reads};
ghost use Rattle.fb_read.specs.Expressions as spec;
ghost use Rattle.fb_read.specs.Nests.{Nests};

use crate::cursor::Cursor;
use crate::fault::ParseFault;
use crate::rule::{Rule, ended};
use crate::token::Mark;
use fb_types::{BinaryOperator, Boxed, Expr, Items, MOST_NESTING, Name, Reference, UnaryOperator};
use std::alloc::{AllocError, Global};

/// The level of the operators that bind loosest.
pub(crate) const LOOSEST: u8 = 7;

/// An expression, and how deep it nests.
#[derive(Drop)]
pub struct Nested {
    /// The expression.
    pub expr: Expr,
    /// How deep it nests, at least 1.
    pub nesting: u32,
}

/// The expression whose deepest part nests `depth` deep.
#[tactic(auto, unfolding(crate::specs::Expressions::around))]
fn around(below: u32, depth: u32, expr: Expr, cursor: &Cursor<'_>) -> Result<Nested, ParseFault>
    requires { below < 64 }
    ensures { Reads (spec.around below depth expr cursor.now) result cursor.now }
{
    if depth <= below {
        Ok(Nested {
            expr,
            nesting: depth + 1,
        })
    } else {
        // Drops with one call. The exit would drop each kind of expression separately.
        drop(expr);
        Err(ParseFault::Nesting)
    }
}

/// Moves two expressions to the heap.
fn both_boxed(alloc: Global, x: Expr, y: Expr) -> Result<(Boxed<Expr>, Boxed<Expr>), AllocError>
    ensures { IfOk result (λ both. both ≡ (x, y)) }
{
    Ok((Boxed::new(alloc, x)?, Boxed::new(alloc, y)?))
}

/// The rules of expressions take the reader of inner expressions as a parameter, so that each is proved separately.
#[derive(Drop)]
struct ExpressionRules<F> {
    /// How deep the parts may nest.
    below: u32,
    inner: F,
}

impl<F: Fn(&mut Cursor<'_>, u32, u8) -> Result<Nested, ParseFault>> ExpressionRules<F> {
    /// An inner expression, whose operators have at most this level.
    fn part(&self, cursor: &mut Cursor<'_>, level: u8) -> Result<Nested, ParseFault>
        requires { Nests self.now.below (F.pre self.now.inner) (F.post self.now.inner) }
        ensures { Reads (spec.nested_expression self.now.below level cursor.old) result cursor.new }
    {
        (self.inner)(cursor, self.below, level)
    }

    /// What follows an opening parenthesis, including the closing one.
    #[tactic(auto, unfolding(crate::specs::Expressions::group))]
    fn group(&self, cursor: &mut Cursor<'_>) -> Result<Nested, ParseFault>
        requires { Nests self.now.below (F.pre self.now.inner) (F.post self.now.inner) }
        ensures { Reads (spec.group self.now.below (spec.nested_expression self.now.below) cursor.old) result cursor.new }
    {
        let x = self.part(cursor, LOOSEST)?;
        let Nested { expr: x, nesting } = ended(cursor, Mark::Close, x)?;
        let inside = Boxed::new(cursor.alloc(), x)?;
        around(self.below, nesting, Expr::Group(inside), cursor)
    }

    /// The operand of a unary operator.
    #[tactic(auto, unfolding(crate::specs::Expressions::prefixed))]
    fn prefixed(
        &self,
        cursor: &mut Cursor<'_>,
        operator: UnaryOperator,
    ) -> Result<Nested, ParseFault>
        requires { Nests self.now.below (F.pre self.now.inner) (F.post self.now.inner) }
        ensures { Reads (spec.prefixed self.now.below (spec.nested_expression self.now.below) operator cursor.old) result cursor.new }
    {
        let Nested { expr: x, nesting } = self.part(cursor, 0)?;
        let operand = Boxed::new(cursor.alloc(), x)?;
        around(self.below, nesting, Expr::Unary(operator, operand), cursor)
    }

    /// The arguments of a call, and how deep the deepest nests. Each iteration takes a token.
    fn arguments(&self, cursor: &mut Cursor<'_>) -> Result<(Items<Expr>, u32), ParseFault>
        requires { Nests self.now.below (F.pre self.now.inner) (F.post self.now.inner) }
        ensures { Reads (spec.arguments self.now.below (spec.nested_expression self.now.below) cursor.old) result cursor.new }
    {
        // A token that begins no expression is not an argument, however deep arguments may nest.
        if !cursor.begins_expression() {
            return Err(ParseFault::Syntax);
        }
        if self.below == 0 {
            // The first token of the arguments is the one that nests too deep: a call without arguments would not.
            cursor.take();
            return Err(ParseFault::Nesting);
        }
        let mut found = cursor.no_items();
        let mut depth = 0;
        for _turn in 0..cursor.left() {
            let x = self.part(cursor, LOOSEST)?;
            found.push(x.expr)?;
            depth = depth.max(x.nesting);
            if !cursor.eat(Mark::Comma) {
                return Ok((found, depth));
            }
        }
        Err(ParseFault::Syntax)
    }

    /// A variable or a call.
    #[tactic(auto, unfolding(crate::specs::Expressions::named, crate::specs::Expressions::call))]
    fn named(&self, cursor: &mut Cursor<'_>) -> Result<Nested, ParseFault>
        requires { Nests self.now.below (F.pre self.now.inner) (F.post self.now.inner) }
        ensures { Reads (spec.named self.now.below (spec.nested_expression self.now.below) cursor.old) result cursor.new }
    {
        let first = Name::read(cursor)?;
        if !cursor.eat(Mark::Open) {
            return Ok(Nested {
                expr: Expr::Variable(Reference::new(first)),
                nesting: 1,
            });
        }
        if cursor.eat(Mark::Close) {
            return Ok(Nested {
                expr: Expr::Call(first, cursor.no_items()),
                nesting: 1,
            });
        }
        let found = self.arguments(cursor)?;
        let (found, depth) = ended(cursor, Mark::Close, found)?;
        around(self.below, depth, Expr::Call(first, found), cursor)
    }

    #[tactic(auto, unfolding(crate::specs::Expressions::primary))]
    fn primary(&self, cursor: &mut Cursor<'_>) -> Result<Nested, ParseFault>
        requires { Nests self.now.below (F.pre self.now.inner) (F.post self.now.inner) }
        ensures { Reads (spec.primary self.now.below (spec.nested_expression self.now.below) cursor.old) result cursor.new }
    {
        if cursor.eat(Mark::Open) {
            self.group(cursor)
        } else if cursor.eat(Mark::True) {
            Ok(Nested {
                expr: Expr::Truth(true),
                nesting: 1,
            })
        } else if cursor.eat(Mark::False) {
            Ok(Nested {
                expr: Expr::Truth(false),
                nesting: 1,
            })
        } else if cursor.sees_name() {
            self.named(cursor)
        } else {
            Ok(Nested {
                expr: Expr::Whole(cursor.literal()?),
                nesting: 1,
            })
        }
    }

    #[tactic(auto, unfolding(crate::specs::Expressions::unary))]
    fn unary(&self, cursor: &mut Cursor<'_>) -> Result<Nested, ParseFault>
        requires { Nests self.now.below (F.pre self.now.inner) (F.post self.now.inner) }
        ensures { Reads (spec.unary self.now.below (spec.nested_expression self.now.below) cursor.old) result cursor.new }
    {
        if cursor.eat(Mark::Minus) {
            self.prefixed(cursor, UnaryOperator::Negate)
        } else if cursor.eat(Mark::Not) {
            self.prefixed(cursor, UnaryOperator::Not)
        } else {
            self.primary(cursor)
        }
    }

    /// The expression of this operator, which is the next token, after its left operand.
    #[tactic(auto, unfolding(crate::specs::Expressions::joined))]
    fn joined(
        &self,
        cursor: &mut Cursor<'_>,
        level: u8,
        operator: BinaryOperator,
        left: Nested,
    ) -> Result<Nested, ParseFault>
        requires some { 0 < level }
        requires nests { Nests self.now.below (F.pre self.now.inner) (F.post self.now.inner) }
        ensures { Reads (spec.joined self.now.below (spec.nested_expression self.now.below (level - 1)) left operator cursor.old) result cursor.new }
    {
        let Nested { expr: x, nesting } = left;
        cursor.take();
        // The operator nests too deep, whatever follows it.
        if nesting > self.below {
            drop(x);
            return Err(ParseFault::Nesting);
        }
        let right = self.part(cursor, level - 1)?;
        let depth = nesting.max(right.nesting);
        let (x, y) = both_boxed(cursor.alloc(), x, right.expr)?;
        around(self.below, depth, Expr::Binary(operator, x, y), cursor)
    }

    /// An expression of this level: operands of the level below, with its operators between them. Each iteration takes a
    /// token.
    fn level(&self, cursor: &mut Cursor<'_>, level: u8) -> Result<Nested, ParseFault>
        requires { Nests self.now.below (F.pre self.now.inner) (F.post self.now.inner) }
        ensures { Reads (spec.level_at self.now.below (spec.nested_expression self.now.below) level cursor.old) result cursor.new }
    {
        if level == 0 {
            return self.unary(cursor);
        }
        let mut left = self.level(cursor, level - 1)?;
        for _turn in 0..cursor.left() {
            let Some(operator) = cursor.operator(level) else {
                return Ok(left);
            };
            left = self.joined(cursor, level, operator, left)?;
        }
        Ok(left)
    }
}

/// An expression of this level that nests no deeper than `depth`.
fn nested_expression(cursor: &mut Cursor<'_>, depth: u32, level: u8) -> Result<Nested, ParseFault>
    requires { depth ≤ 64 }
    ensures { Reads (spec.nested_expression depth level cursor.old) result cursor.new }
{
    if depth == 0 {
        return Err(ParseFault::Nesting);
    }
    ExpressionRules {
        below: depth - 1,
        inner: nested_expression,
    }
    .level(cursor, level)
}

/// Reads an expression that nests at most 64 deep. The cursor is left after it, or at the token that is refused.
impl Rule for Expr {
    ghost parser = { spec.expression };

    #[tactic(auto, unfolding(crate::specs::Expressions::expression))]
    fn read(cursor: &mut Cursor<'_>) -> Result<Expr, ParseFault> {
        Ok(nested_expression(cursor, MOST_NESTING, LOOSEST)?.expr)
    }
}
