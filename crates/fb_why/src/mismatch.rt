//! Which operation of an expression has operands that do not fit, and what of it is marked.

ghost use Rattle.std.specs.Prelude.{◌≡◌, IfNone, IfSome, Some};
ghost use Rattle.fb_types.specs.Blocks.{types_of};
ghost use Rattle.fb_types.specs.Kinds.{value_kind_of};
ghost use Rattle.fb_types.specs.Names.{Name};
ghost use Rattle.fb_types.specs.Syntax.{expr_of};
ghost use Rattle.fb_types.specs.Values.{function_named};
ghost use Rattle.fb_types.specs.declared.text.Expr as read;
ghost use Rattle.fb_why.specs.Mismatches as spec;
ghost use Rattle.fb_why.specs.Mismatches.{HasKind, HasNoKind, IsMismatch, IsPairFault};

use crate::tokens::{next, past, past_each};
use fb_check::types::{is_value_kind, value_kind_of};
use fb_types::{BasicType, BinaryOperator, Expr, Function, Name, ValueKind};

/// An operation that has no kind. Its operands have one, or it is a call with another number of arguments than its
/// function takes.
#[derive(Clone, Copy)]
pub(crate) struct Mismatch<'a> {
    /// The operation or the call.
    pub operation: &'a Expr,
    /// The operand whose kind it does not take. If no operand is wrong by itself, the operation.
    pub marked: &'a Expr,
    /// The first token of what is marked.
    pub first: usize,
}

/// An operation that is marked itself, and begins at this token.
fn whole(operation: &Expr, first: usize) -> Mismatch
    ensures operation { result.operation.now ≡ operation.now }
    ensures marked { result.marked.now ≡ operation.now }
    ensures first { result.first ≡ first }
{
    Mismatch {
        operation,
        marked: operation,
        first,
    }
}

/// What is wrong with two operands that have kinds.
#[derive(Clone, Copy)]
enum PairFault {
    /// The kind of the left one.
    Left,
    /// The kind of the right one.
    Right,
    /// They have different kinds.
    Both,
}

/// The kind of both operands of an operator. `None` if they are of any kind, but of the same.
fn kind_of_operands(operator: BinaryOperator) -> Option<ValueKind>
    ensures { result ≡ spec.kind_of_operands operator }
{
    match operator {
        BinaryOperator::Or | BinaryOperator::Xor | BinaryOperator::And => {
            Some(ValueKind::TruthValue)
        }
        BinaryOperator::Equal | BinaryOperator::NotEqual => None,
        BinaryOperator::Less
        | BinaryOperator::Greater
        | BinaryOperator::LessOrEqual
        | BinaryOperator::GreaterOrEqual
        | BinaryOperator::Add
        | BinaryOperator::Subtract
        | BinaryOperator::Multiply
        | BinaryOperator::Divide
        | BinaryOperator::Modulo => Some(ValueKind::WholeNumber),
    }
}

/// What is wrong with the operands of an operator.
fn pair_fault(basic: &BasicType, operator: BinaryOperator, left: &Expr) -> PairFault
    ensures { IsPairFault (types_of basic.now) operator left.now result }
{
    match kind_of_operands(operator) {
        Some(required) => if is_value_kind(required, left, basic) {
            PairFault::Right
        } else {
            PairFault::Left
        },
        None => PairFault::Both,
    }
}

/// How many arguments a function takes.
pub(crate) fn argument_count(function: Function) -> usize {
    match function {
        Function::Abs => 1,
        Function::Min | Function::Max => 2,
        Function::Limit | Function::Sel => 3,
    }
}

/// Whether the argument at an index is of a kind that the function takes there, whatever its other arguments are.
fn fits(basic: &BasicType, function: Function, index: usize, argument: &Expr) -> bool
    ensures { result ≡ spec.fits function index (value_kind_of (types_of basic.now) (expr_of argument.now)) }
{
    match function {
        Function::Sel => match index {
            0 => is_value_kind(ValueKind::TruthValue, argument, basic),
            _ => true,
        },
        Function::Min | Function::Max | Function::Abs | Function::Limit => {
            is_value_kind(ValueKind::WholeNumber, argument, basic)
        }
    }
}

/// The first operation in an expression that has no kind, in the order in which operands are evaluated. The expression
/// begins at this token. `None` if it has a kind.
#[cycle(mismatch)]
pub(crate) fn mismatch_in<'a>(
    basic: &BasicType,
    expr: &'a Expr,
    first: usize,
) -> Option<Mismatch<'a>>
    ensures found { IfSome result (λ r. IsMismatch (types_of basic.now) expr.now first r.operation.now r.marked.now r.first) }
    ensures none { IfNone result (HasKind (types_of basic.now) expr.now) }
{
    match value_kind_of(expr, basic) {
        Some(_) => None,
        None => Some(mismatch_of(basic, expr, first)),
    }
}

/// The same in an expression that has no kind.
#[cycle(mismatch)]
fn mismatch_of<'a>(basic: &BasicType, expr: &'a Expr, first: usize) -> Mismatch<'a>
    requires { HasNoKind (types_of basic.now) expr.now }
    ensures { IsMismatch (types_of basic.now) expr.now first result.operation.now result.marked.now result.first }
{
    match expr {
        Expr::Whole(_) | Expr::Truth(_) | Expr::Variable(_) => whole(expr, first),
        Expr::Group(inner) => mismatch_of(basic, inner.get(), next(first)),
        Expr::Unary(_, operand) => {
            let (operand, from) = (operand.get(), next(first));
            match mismatch_in(basic, operand, from) {
                Some(inside) => inside,
                None => Mismatch {
                    operation: expr,
                    marked: operand,
                    first: from,
                },
            }
        }
        Expr::Binary(operator, left, right) => {
            let (left, right) = (left.get(), right.get());
            let second = next(past(left, first));
            if let Some(inside) = mismatch_in(basic, left, first) {
                return inside;
            }
            if let Some(inside) = mismatch_in(basic, right, second) {
                return inside;
            }
            match pair_fault(basic, *operator, left) {
                PairFault::Left => Mismatch {
                    operation: expr,
                    marked: left,
                    first,
                },
                PairFault::Right => Mismatch {
                    operation: expr,
                    marked: right,
                    first: second,
                },
                PairFault::Both => whole(expr, first),
            }
        }
        Expr::Call(name, arguments) => {
            mismatch_of_call(basic, expr, name, arguments.as_slice(), first)
        }
    }
}

/// The same in a call.
#[cycle(mismatch)]
fn mismatch_of_call<'a>(
    basic: &BasicType,
    call: &'a Expr,
    name: &Name,
    arguments: &'a [Expr],
    first: usize,
) -> Mismatch<'a>
    requires none { HasNoKind (types_of basic.now) call.now }
    requires is { call.now ≡ read.Call name.now arguments.now }
    ensures { IsMismatch (types_of basic.now) call.now first result.operation.now result.marked.now result.first }
{
    let Some(function) = Function::named(name) else {
        return whole(call, first);
    };
    if arguments.len() != argument_count(function) {
        return whole(call, first);
    }
    mismatch_of_arguments(basic, call, function, arguments, first)
}

/// The same in a call with as many arguments as the function takes.
#[cycle(mismatch)]
fn mismatch_of_arguments<'a>(
    basic: &BasicType,
    call: &'a Expr,
    function: Function,
    arguments: &'a [Expr],
    first: usize,
) -> Mismatch<'a>
    requires none { HasNoKind (types_of basic.now) call.now }
    requires is { (f : Name) × (call.now ≡ read.Call f arguments.now) × (function_named f ≡ Some function) }
    ensures { IsMismatch (types_of basic.now) call.now first result.operation.now result.marked.now result.first }
{
    let inside = next(next(first));
    for (index, argument) in arguments.iter().enumerate() {
        let from = past_each(&arguments[..index], inside);
        if let Some(found) = mismatch_in(basic, argument, from) {
            return found;
        }
        if !fits(basic, function, index, argument) {
            return Mismatch {
                operation: call,
                marked: argument,
                first: from,
            };
        }
    }
    whole(call, first)
}
