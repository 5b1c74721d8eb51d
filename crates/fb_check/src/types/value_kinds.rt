//! Kinds of expressions (IEC 61131-3, 7.3.2).

ghost use Rattle.std.specs.Prelude.{◌≡◌, [], ◌∷◌, option_and_then};
ghost use Rattle.fb_types.specs.Kinds.{are_truths, are_whole, binary_value_kind, function_value_kind, is_value_kind, same_value_kind, value_kind_of, value_kind_of_type, value_kinds_of, unary_value_kind};
ghost use Rattle.fb_types.specs.Syntax.{expr_of, step_of};
ghost use Rattle.fb_types.specs.declared.value_kind.ValueKind.TheVariants.{WholeNumber};
ghost use Rattle.fb_check.specs.types.Trees.{arguments_of};

use fb_types::{BinaryOperator, Expr, Function, Name, Ty, UnaryOperator, ValueKind};

/// Variables with their types.
pub trait Typing {
    ghost use Rattle.fb_types.specs.Values.{Types};

    ghost types: { Self → Types };

    /// The type of a variable. For a name that is no variable it is BOOL, since that name is refused elsewhere.
    fn type_of(&self, name: &Name) -> Ty
        ensures { result ≡ types self.now name.now };
}

/// The kind of the values of a type.
pub fn value_kind_of_type(ty: Ty) -> ValueKind
    ensures { result ≡ value_kind_of_type ty }
{
    match ty {
        Ty::Bool => ValueKind::TruthValue,
        _ => ValueKind::WholeNumber,
    }
}

/// Whether two kinds are the same.
pub fn are_same(left: ValueKind, right: ValueKind) -> bool
    ensures { result ≡ same_value_kind left right }
{
    match (left, right) {
        (ValueKind::TruthValue, ValueKind::TruthValue)
        | (ValueKind::WholeNumber, ValueKind::WholeNumber) => true,
        _ => false,
    }
}

fn are_truths(left: ValueKind, right: ValueKind) -> bool
    ensures { result ≡ are_truths left right }
{
    are_same(left, ValueKind::TruthValue) && are_same(right, ValueKind::TruthValue)
}

fn are_whole(left: ValueKind, right: ValueKind) -> bool
    ensures { result ≡ are_whole left right }
{
    are_same(left, ValueKind::WholeNumber) && are_same(right, ValueKind::WholeNumber)
}

/// The kind of a unary operator's value, or `None` if the operand has none or another one.
fn unary_value_kind(operator: UnaryOperator, operand: Option<ValueKind>) -> Option<ValueKind>
    ensures { result ≡ option_and_then (unary_value_kind operator) operand }
{
    match (operator, operand) {
        (UnaryOperator::Negate, Some(ValueKind::WholeNumber)) => Some(ValueKind::WholeNumber),
        (UnaryOperator::Not, Some(ValueKind::TruthValue)) => Some(ValueKind::TruthValue),
        _ => None,
    }
}

/// The kind of a binary operator's value, or `None` if the operands have none or other ones.
fn binary_value_kind(
    operator: BinaryOperator,
    left: Option<ValueKind>,
    right: Option<ValueKind>,
) -> Option<ValueKind>
    ensures { result ≡ option_and_then (λ x. option_and_then (binary_value_kind operator x) right) left }
{
    let (Some(left), Some(right)) = (left, right) else {
        return None;
    };
    let (are_right, value_kind) = match operator {
        BinaryOperator::Or | BinaryOperator::Xor | BinaryOperator::And => {
            (are_truths(left, right), ValueKind::TruthValue)
        }
        BinaryOperator::Equal | BinaryOperator::NotEqual => {
            (are_same(left, right), ValueKind::TruthValue)
        }
        BinaryOperator::Less
        | BinaryOperator::Greater
        | BinaryOperator::LessOrEqual
        | BinaryOperator::GreaterOrEqual => (are_whole(left, right), ValueKind::TruthValue),
        BinaryOperator::Add
        | BinaryOperator::Subtract
        | BinaryOperator::Multiply
        | BinaryOperator::Divide
        | BinaryOperator::Modulo => (are_whole(left, right), ValueKind::WholeNumber),
    };
    if are_right { Some(value_kind) } else { None }
}

/// The kind of a function's value with one argument, or `None` if it takes another number of arguments, or if the
/// argument has no kind or another one.
fn value_kind_of_one(function: Function, argument: Option<ValueKind>) -> Option<ValueKind>
    ensures { result ≡ option_and_then (λ x. function_value_kind function (x ∷ [])) argument }
{
    match (function, argument) {
        (Function::Abs, Some(ValueKind::WholeNumber)) => Some(ValueKind::WholeNumber),
        _ => None,
    }
}

/// The same with two arguments.
fn value_kind_of_two(
    function: Function,
    first: Option<ValueKind>,
    second: Option<ValueKind>,
) -> Option<ValueKind>
    ensures { result ≡ option_and_then (λ x. option_and_then (λ y. function_value_kind function (x ∷ y ∷ [])) second) first }
{
    let (Some(first), Some(second)) = (first, second) else {
        return None;
    };
    match function {
        Function::Min | Function::Max if are_whole(first, second) => Some(ValueKind::WholeNumber),
        _ => None,
    }
}

/// The same with three arguments.
fn value_kind_of_three(
    function: Function,
    first: Option<ValueKind>,
    second: Option<ValueKind>,
    third: Option<ValueKind>,
) -> Option<ValueKind>
    ensures { result ≡ option_and_then (λ x. option_and_then (λ y. option_and_then (λ z. function_value_kind function (x ∷ y ∷ z ∷ [])) third) second) first }
{
    let (Some(first), Some(second), Some(third)) = (first, second, third) else {
        return None;
    };
    match (function, first) {
        (Function::Limit, ValueKind::WholeNumber) if are_whole(second, third) => Some(
            ValueKind::WholeNumber,
        ),
        (Function::Sel, ValueKind::TruthValue) if are_same(second, third) => Some(second),
        _ => None,
    }
}

/// The kind of an expression, or `None` if an operand or the number of arguments is wrong.
#[cycle(value_kind)]
pub fn value_kind_of<T: Typing>(expr: &Expr, typing: &T) -> Option<ValueKind>
    ensures { result ≡ value_kind_of (T.types typing.now) (expr_of expr.now) }
{
    match expr {
        Expr::Whole(_) => Some(ValueKind::WholeNumber),
        Expr::Truth(_) => Some(ValueKind::TruthValue),
        Expr::Variable(variable) => Some(value_kind_of_type(typing.type_of(variable.name()))),
        Expr::Group(inner) => value_kind_of(inner.get(), typing),
        Expr::Unary(operator, operand) => {
            unary_value_kind(*operator, value_kind_of(operand.get(), typing))
        }
        Expr::Binary(operator, left, right) => binary_value_kind(
            *operator,
            value_kind_of(left.get(), typing),
            value_kind_of(right.get(), typing),
        ),
        Expr::Call(name, arguments) => {
            value_kind_of_call(Function::named(name)?, arguments.as_slice(), typing)
        }
    }
}

#[cycle(value_kind)]
fn value_kind_of_call<T: Typing>(
    function: Function,
    arguments: &[Expr],
    typing: &T,
) -> Option<ValueKind>
    ensures { result ≡ option_and_then (function_value_kind function) (value_kinds_of (T.types typing.now) (arguments_of arguments.now)) }
{
    match arguments {
        [one] => value_kind_of_one(function, value_kind_of(one, typing)),
        [one, two] => value_kind_of_two(
            function,
            value_kind_of(one, typing),
            value_kind_of(two, typing),
        ),
        [one, two, three] => value_kind_of_three(
            function,
            value_kind_of(one, typing),
            value_kind_of(two, typing),
            value_kind_of(three, typing),
        ),
        // Every function has one to three arguments.
        _ => None,
    }
}

/// Whether an expression has the kind.
pub fn is_value_kind<T: Typing>(value_kind: ValueKind, expr: &Expr, typing: &T) -> bool
    ensures { result ≡ is_value_kind value_kind (value_kind_of (T.types typing.now) (expr_of expr.now)) }
{
    match value_kind_of(expr, typing) {
        Some(other) => are_same(value_kind, other),
        None => false,
    }
}

/// Whether the step of FOR, if there is one, is a whole number.
pub fn is_step_whole<T: Typing>(step: &Option<Expr>, typing: &T) -> bool
    ensures { result ≡ is_value_kind WholeNumber (value_kind_of (T.types typing.now) (step_of step.now)) }
{
    match step {
        Some(step) => is_value_kind(ValueKind::WholeNumber, step, typing),
        None => true,
    }
}
