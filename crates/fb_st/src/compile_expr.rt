//! Compiles expressions.

ghost use Rattle.std.specs.Prelude.{◌≡◌, map, IfOk, IfSome};
ghost use Rattle.fb_types.specs.Syntax.{Call, Variable, expr_of, exprs};
ghost use Rattle.fb_st.specs.Required.{gives_number};
ghost use Rattle.fb_st.specs.Compiled.{Binary, Compared, Constant, Slot, is_comparison, is_joint, number_said, truth_said};
ghost use Rattle.fb_st.specs.Fitting.{is_plain, is_truth, is_unsigned};
ghost use Rattle.fb_st.specs.Made.{SaysNumber, SaysTruth, binary_of, call_of_one, call_of_three, call_of_two};

use crate::compiled::{NumberExpr, TruthExpr};
use crate::operator::is_arithmetic;
use crate::scope::Scope;
use fb_types::{BinaryOperator, Boxed, Expr, Function, Name, Reference, Ty, UnaryOperator};
use std::alloc::{AllocError, Global};

/// Why a text has no compiled form.
#[derive(Clone, Copy)]
pub enum CompileError {
    /// Memory ran out.
    Memory,
    /// A name is unknown or an operand has the wrong kind. Accepted texts have neither.
    Unfit,
}

impl From<AllocError> for CompileError {
    fn from(_: AllocError) -> CompileError {
        CompileError::Memory
    }
}

/// An operator between the variables of two slots.
fn of_slots(operator: BinaryOperator, i: usize, j: usize) -> Option<NumberExpr>
    ensures { IfSome result (λ n. number_said n ≡ Binary operator (Slot i) (Slot j)) }
{
    match operator {
        BinaryOperator::Add => Some(NumberExpr::AddSlots(i, j)),
        BinaryOperator::Subtract => Some(NumberExpr::SubtractSlots(i, j)),
        BinaryOperator::Multiply => Some(NumberExpr::MultiplySlots(i, j)),
        BinaryOperator::Divide => Some(NumberExpr::DivideSlots(i, j)),
        BinaryOperator::Modulo => Some(NumberExpr::ModuloSlots(i, j)),
        _ => None,
    }
}

/// An operator between the variable of a slot and a number.
fn of_constant(operator: BinaryOperator, i: usize, number: i64) -> Option<NumberExpr>
    ensures { IfSome result (λ n. number_said n ≡ Binary operator (Slot i) (Constant number)) }
{
    match operator {
        BinaryOperator::Add => Some(NumberExpr::AddConstant(i, number)),
        BinaryOperator::Subtract => Some(NumberExpr::SubtractConstant(i, number)),
        BinaryOperator::Multiply => Some(NumberExpr::MultiplyConstant(i, number)),
        BinaryOperator::Divide => Some(NumberExpr::DivideConstant(i, number)),
        BinaryOperator::Modulo => Some(NumberExpr::ModuloConstant(i, number)),
        _ => None,
    }
}

/// An arithmetic operator between the variable of a slot and an expression.
fn of_nested(
    operator: BinaryOperator,
    i: usize,
    right: Boxed<NumberExpr>,
) -> Result<NumberExpr, CompileError>
    ensures { IfOk result (λ n. number_said n ≡ Binary operator (Slot i) (number_said right)) }
{
    match operator {
        BinaryOperator::Add => Ok(NumberExpr::AddNested(i, right)),
        BinaryOperator::Subtract => Ok(NumberExpr::SubtractNested(i, right)),
        BinaryOperator::Multiply => Ok(NumberExpr::MultiplyNested(i, right)),
        BinaryOperator::Divide => Ok(NumberExpr::DivideNested(i, right)),
        BinaryOperator::Modulo => Ok(NumberExpr::ModuloNested(i, right)),
        _ => Err(CompileError::Unfit),
    }
}

/// An operator between two operands that are kept in the node.
fn flat(operator: BinaryOperator, left: &NumberExpr, right: &NumberExpr) -> Option<NumberExpr>
    ensures { IfSome result (λ n. number_said n ≡ Binary operator (number_said left.now) (number_said right.now)) }
{
    match left {
        NumberExpr::Slot(i) => match right {
            NumberExpr::Slot(j) => of_slots(operator, *i, *j),
            NumberExpr::Constant(number) => of_constant(operator, *i, *number),
            _ => None,
        },
        _ => None,
    }
}

/// The slot of an expression that is a variable with a number.
fn slot_of(expr: &NumberExpr) -> Option<usize>
    ensures { IfSome result (λ i. number_said expr.now ≡ Slot i) }
{
    match expr {
        NumberExpr::Slot(i) => Some(*i),
        _ => None,
    }
}

/// The slot of a variable that is added.
fn added_slot(operator: BinaryOperator, right: &NumberExpr) -> Option<usize>
    ensures { IfSome result (λ i. (operator ≡ BinaryOperator.Add) × (number_said right.now ≡ Slot i)) }
{
    match operator {
        BinaryOperator::Add => slot_of(right),
        _ => None,
    }
}

/// An operator between two operands.
fn binary(
    alloc: Global,
    operator: BinaryOperator,
    left: NumberExpr,
    right: NumberExpr,
) -> Result<NumberExpr, CompileError>
    ensures { IfOk result (λ n. number_said n ≡ Binary operator (number_said left) (number_said right)) }
{
    if let Some(node) = flat(operator, &left, &right) {
        return Ok(node);
    }
    if let Some(i) = added_slot(operator, &right) {
        let left = Boxed::new(alloc, left)?;
        return Ok(NumberExpr::AddToNested(left, i));
    }
    let right = Boxed::new(alloc, right)?;
    if let Some(i) = slot_of(&left) {
        return of_nested(operator, i, right);
    }
    let left = Boxed::new(alloc, left)?;
    Ok(NumberExpr::Binary(operator, left, right))
}

/// A number: in the node if it fits 64 bits, otherwise on the heap.
fn constant(alloc: Global, number: i128) -> Result<NumberExpr, CompileError>
    ensures { IfOk result (λ n. number_said n ≡ Constant number) }
{
    match i64::try_from(number) {
        Ok(number) => Ok(NumberExpr::Constant(number)),
        Err(_) => Ok(NumberExpr::Wide(Boxed::new(alloc, number)?)),
    }
}

/// Whether a number of 64 bits of the type is its own word.
fn is_plain(ty: Ty) -> bool
    ensures { result ≡ is_plain ty }
{
    !matches!(ty, Ty::Bool | Ty::Ulint)
}

/// Whether the words of the type have no sign.
fn is_unsigned(ty: Ty) -> bool
    ensures { result ≡ is_unsigned ty }
{
    matches!(ty, Ty::Ulint)
}

/// Whether the words of the type are truth values.
pub(crate) fn is_bool(ty: Ty) -> bool
    ensures { result ≡ is_truth ty }
{
    matches!(ty, Ty::Bool)
}

/// A variable that holds a number.
fn number_variable(variable: &Reference, scope: &Scope) -> Result<NumberExpr, CompileError>
    ensures { IfOk result (SaysNumber scope.now.layout.now (Variable variable.now)) }
{
    let Some(slot) = scope.slot(variable.name()) else {
        return Err(CompileError::Unfit);
    };
    let ty = scope.ty(slot);
    if is_plain(ty) {
        return Ok(NumberExpr::Slot(slot));
    }
    if is_unsigned(ty) {
        return Ok(NumberExpr::UnsignedSlot(slot));
    }
    Err(CompileError::Unfit)
}

/// A variable that holds a truth value.
fn truth_variable(variable: &Reference, scope: &Scope) -> Result<TruthExpr, CompileError>
    ensures { IfOk result (SaysTruth scope.now.layout.now (Variable variable.now)) }
{
    let Some(slot) = scope.slot(variable.name()) else {
        return Err(CompileError::Unfit);
    };
    if is_bool(scope.ty(slot)) {
        return Ok(TruthExpr::Flag(slot));
    }
    Err(CompileError::Unfit)
}

/// An arithmetic operator between two expressions.
#[cycle(compile_expr)]
fn arithmetic(
    alloc: Global,
    operator: BinaryOperator,
    left: &Expr,
    right: &Expr,
    scope: &Scope,
) -> Result<NumberExpr, CompileError>
    ensures { IfOk result (SaysNumber scope.now.layout.now (binary_of operator (expr_of left.now) (expr_of right.now))) }
{
    if !is_arithmetic(operator) {
        return Err(CompileError::Unfit);
    }
    let left = compile_number(alloc, left, scope)?;
    let right = compile_number(alloc, right, scope)?;
    binary(alloc, operator, left, right)
}

/// Compiles an expression whose value is a number.
///
/// # Errors
/// `CompileError::Unfit` for a text that is not accepted.
#[cycle(compile_expr)]
pub(crate) fn compile_number(
    alloc: Global,
    expr: &Expr,
    scope: &Scope,
) -> Result<NumberExpr, CompileError>
    ensures { IfOk result (SaysNumber scope.now.layout.now (expr_of expr.now)) }
{
    match expr {
        Expr::Whole(number) => constant(alloc, *number),
        Expr::Variable(variable) => number_variable(variable, scope),
        Expr::Group(inner) => compile_number(alloc, inner.get(), scope),
        Expr::Unary(UnaryOperator::Negate, operand) => {
            let operand = boxed_number(alloc, operand.get(), scope)?;
            Ok(NumberExpr::Negated(operand))
        }
        Expr::Binary(operator, left, right) => {
            arithmetic(alloc, *operator, left.get(), right.get(), scope)
        }
        Expr::Call(name, arguments) => { number_call(alloc, name, arguments.as_slice(), scope) }
        Expr::Truth(_) | Expr::Unary(UnaryOperator::Not, _) => Err(CompileError::Unfit),
    }
}

/// The same as `compile_number`, on the heap.
#[cycle(compile_expr)]
fn boxed_number(
    alloc: Global,
    expr: &Expr,
    scope: &Scope,
) -> Result<Boxed<NumberExpr>, CompileError>
    ensures { IfOk result (SaysNumber scope.now.layout.now (expr_of expr.now)) }
{
    let number = compile_number(alloc, expr, scope)?;
    Ok(Boxed::new(alloc, number)?)
}

/// The same as `compile_truth`, on the heap.
#[cycle(compile_expr)]
fn boxed_truth(alloc: Global, expr: &Expr, scope: &Scope) -> Result<Boxed<TruthExpr>, CompileError>
    ensures { IfOk result (SaysTruth scope.now.layout.now (expr_of expr.now)) }
{
    let truth = compile_truth(alloc, expr, scope)?;
    Ok(Boxed::new(alloc, truth)?)
}

/// A function that gives a number, at its arguments.
#[cycle(compile_expr)]
fn number_call(
    alloc: Global,
    name: &Name,
    arguments: &[Expr],
    scope: &Scope,
) -> Result<NumberExpr, CompileError>
    ensures { IfOk result (SaysNumber scope.now.layout.now (Call name.now (exprs (map expr_of arguments.now)))) }
{
    match arguments {
        [one] => number_of_one(alloc, name, one, scope),
        [one, two] => number_of_two(alloc, name, one, two, scope),
        [one, two, three] => number_of_three(alloc, name, one, two, three, scope),
        _ => Err(CompileError::Unfit),
    }
}

/// The function ABS.
#[cycle(compile_expr)]
fn number_of_one(
    alloc: Global,
    name: &Name,
    one: &Expr,
    scope: &Scope,
) -> Result<NumberExpr, CompileError>
    ensures { IfOk result (SaysNumber scope.now.layout.now (call_of_one name.now (expr_of one.now))) }
{
    let one = boxed_number(alloc, one, scope)?;
    match Function::named(name) {
        Some(Function::Abs) => Ok(NumberExpr::Magnitude(one)),
        _ => Err(CompileError::Unfit),
    }
}

/// The functions MIN and MAX.
#[cycle(compile_expr)]
fn number_of_two(
    alloc: Global,
    name: &Name,
    one: &Expr,
    two: &Expr,
    scope: &Scope,
) -> Result<NumberExpr, CompileError>
    ensures { IfOk result (SaysNumber scope.now.layout.now (call_of_two name.now (expr_of one.now) (expr_of two.now))) }
{
    let one = boxed_number(alloc, one, scope)?;
    let two = boxed_number(alloc, two, scope)?;
    match Function::named(name) {
        Some(Function::Min) => Ok(NumberExpr::Lesser(one, two)),
        Some(Function::Max) => Ok(NumberExpr::Greater(one, two)),
        _ => Err(CompileError::Unfit),
    }
}

/// The functions LIMIT and SEL.
#[cycle(compile_expr)]
fn number_of_three(
    alloc: Global,
    name: &Name,
    one: &Expr,
    two: &Expr,
    three: &Expr,
    scope: &Scope,
) -> Result<NumberExpr, CompileError>
    ensures { IfOk result (SaysNumber scope.now.layout.now (call_of_three name.now (expr_of one.now) (expr_of two.now) (expr_of three.now))) }
{
    match Function::named(name) {
        Some(Function::Limit) => {
            let one = boxed_number(alloc, one, scope)?;
            let two = boxed_number(alloc, two, scope)?;
            let three = boxed_number(alloc, three, scope)?;
            Ok(NumberExpr::Limited(one, two, three))
        }
        Some(Function::Sel) => {
            let one = boxed_truth(alloc, one, scope)?;
            let two = boxed_number(alloc, two, scope)?;
            let three = boxed_number(alloc, three, scope)?;
            Ok(NumberExpr::Chosen(one, two, three))
        }
        _ => Err(CompileError::Unfit),
    }
}

/// A comparison of the variables of two slots.
fn compared_slots(operator: BinaryOperator, i: usize, j: usize) -> Option<TruthExpr>
    ensures { IfSome result (λ t. truth_said t ≡ Compared operator (Slot i) (Slot j)) }
{
    match operator {
        BinaryOperator::Equal => Some(TruthExpr::EqualSlots(i, j)),
        BinaryOperator::NotEqual => Some(TruthExpr::NotEqualSlots(i, j)),
        BinaryOperator::Less => Some(TruthExpr::LessSlots(i, j)),
        BinaryOperator::Greater => Some(TruthExpr::GreaterSlots(i, j)),
        BinaryOperator::LessOrEqual => Some(TruthExpr::LessOrEqualSlots(i, j)),
        BinaryOperator::GreaterOrEqual => Some(TruthExpr::GreaterOrEqualSlots(i, j)),
        _ => None,
    }
}

/// A comparison of the variable of a slot with a number.
fn compared_constant(operator: BinaryOperator, i: usize, number: i64) -> Option<TruthExpr>
    ensures { IfSome result (λ t. truth_said t ≡ Compared operator (Slot i) (Constant number)) }
{
    match operator {
        BinaryOperator::Equal => Some(TruthExpr::EqualConstant(i, number)),
        BinaryOperator::NotEqual => Some(TruthExpr::NotEqualConstant(i, number)),
        BinaryOperator::Less => Some(TruthExpr::LessConstant(i, number)),
        BinaryOperator::Greater => Some(TruthExpr::GreaterConstant(i, number)),
        BinaryOperator::LessOrEqual => Some(TruthExpr::LessOrEqualConstant(i, number)),
        BinaryOperator::GreaterOrEqual => Some(TruthExpr::GreaterOrEqualConstant(i, number)),
        _ => None,
    }
}

/// A comparison of two numbers that are kept in the node.
fn flat_comparison(
    operator: BinaryOperator,
    left: &NumberExpr,
    right: &NumberExpr,
) -> Option<TruthExpr>
    ensures { IfSome result (λ t. truth_said t ≡ Compared operator (number_said left.now) (number_said right.now)) }
{
    match left {
        NumberExpr::Slot(i) => match right {
            NumberExpr::Slot(j) => compared_slots(operator, *i, *j),
            NumberExpr::Constant(number) => compared_constant(operator, *i, *number),
            _ => None,
        },
        _ => None,
    }
}

/// Whether an operator compares numbers.
fn is_comparison(operator: BinaryOperator) -> bool
    ensures { result ≡ is_comparison operator }
{
    matches!(
        operator,
        BinaryOperator::Equal
            | BinaryOperator::NotEqual
            | BinaryOperator::Less
            | BinaryOperator::Greater
            | BinaryOperator::LessOrEqual
            | BinaryOperator::GreaterOrEqual
    )
}

/// Whether an operator joins truth values.
fn is_joint(operator: BinaryOperator) -> bool
    ensures { result ≡ is_joint operator }
{
    matches!(
        operator,
        BinaryOperator::Or
            | BinaryOperator::Xor
            | BinaryOperator::And
            | BinaryOperator::Equal
            | BinaryOperator::NotEqual
    )
}

/// A comparison of two numbers.
#[cycle(compile_expr)]
fn comparison(
    alloc: Global,
    operator: BinaryOperator,
    left: &Expr,
    right: &Expr,
    scope: &Scope,
) -> Result<TruthExpr, CompileError>
    ensures { IfOk result (SaysTruth scope.now.layout.now (binary_of operator (expr_of left.now) (expr_of right.now))) }
{
    if !is_comparison(operator) {
        return Err(CompileError::Unfit);
    }
    let left = compile_number(alloc, left, scope)?;
    let right = compile_number(alloc, right, scope)?;
    if let Some(node) = flat_comparison(operator, &left, &right) {
        return Ok(node);
    }
    let left = Boxed::new(alloc, left)?;
    let right = Boxed::new(alloc, right)?;
    Ok(TruthExpr::Compared(operator, left, right))
}

/// Two truth values, joined. AND has a node of its own.
#[cycle(compile_expr)]
fn joint(
    alloc: Global,
    operator: BinaryOperator,
    left: &Expr,
    right: &Expr,
    scope: &Scope,
) -> Result<TruthExpr, CompileError>
    ensures { IfOk result (SaysTruth scope.now.layout.now (binary_of operator (expr_of left.now) (expr_of right.now))) }
{
    if !is_joint(operator) {
        return Err(CompileError::Unfit);
    }
    let left = boxed_truth(alloc, left, scope)?;
    let right = boxed_truth(alloc, right, scope)?;
    match operator {
        BinaryOperator::And => Ok(TruthExpr::Both(left, right)),
        _ => Ok(TruthExpr::Joined(operator, left, right)),
    }
}

/// Compiles an expression whose value is a truth value. Both operands of an operator have the kind of the first one.
///
/// # Errors
/// `CompileError::Unfit` for a text that is not accepted.
#[cycle(compile_expr)]
pub(crate) fn compile_truth(
    alloc: Global,
    expr: &Expr,
    scope: &Scope,
) -> Result<TruthExpr, CompileError>
    ensures { IfOk result (SaysTruth scope.now.layout.now (expr_of expr.now)) }
{
    match expr {
        Expr::Truth(truth) => Ok(TruthExpr::Known(*truth)),
        Expr::Variable(variable) => truth_variable(variable, scope),
        Expr::Group(inner) => compile_truth(alloc, inner.get(), scope),
        Expr::Unary(UnaryOperator::Not, operand) => {
            let operand = boxed_truth(alloc, operand.get(), scope)?;
            Ok(TruthExpr::Not(operand))
        }
        Expr::Binary(operator, left, right) => {
            if is_truth(left.get(), scope) {
                joint(alloc, *operator, left.get(), right.get(), scope)
            } else {
                comparison(alloc, *operator, left.get(), right.get(), scope)
            }
        }
        Expr::Call(name, arguments) => truth_call(alloc, name, arguments.as_slice(), scope),
        Expr::Whole(_) | Expr::Unary(UnaryOperator::Negate, _) => Err(CompileError::Unfit),
    }
}

/// Compiles a guard.
///
/// # Errors
/// `CompileError::Unfit` for a text that is not accepted.
pub fn compile_guard(alloc: Global, guard: &Expr, scope: &Scope) -> Result<TruthExpr, CompileError>
    ensures { IfOk result (SaysTruth scope.now.layout.now (expr_of guard.now)) }
{
    compile_truth(alloc, guard, scope)
}

/// A function that gives a truth value, at its arguments.
#[cycle(compile_expr)]
fn truth_call(
    alloc: Global,
    name: &Name,
    arguments: &[Expr],
    scope: &Scope,
) -> Result<TruthExpr, CompileError>
    ensures { IfOk result (SaysTruth scope.now.layout.now (Call name.now (exprs (map expr_of arguments.now)))) }
{
    match arguments {
        [one, two, three] => truth_of_three(alloc, name, one, two, three, scope),
        _ => Err(CompileError::Unfit),
    }
}

/// The function SEL.
#[cycle(compile_expr)]
fn truth_of_three(
    alloc: Global,
    name: &Name,
    one: &Expr,
    two: &Expr,
    three: &Expr,
    scope: &Scope,
) -> Result<TruthExpr, CompileError>
    ensures { IfOk result (SaysTruth scope.now.layout.now (call_of_three name.now (expr_of one.now) (expr_of two.now) (expr_of three.now))) }
{
    let one = boxed_truth(alloc, one, scope)?;
    let two = boxed_truth(alloc, two, scope)?;
    let three = boxed_truth(alloc, three, scope)?;
    match Function::named(name) {
        Some(Function::Sel) => Ok(TruthExpr::Picked(one, two, three)),
        _ => Err(CompileError::Unfit),
    }
}

/// Whether the value of an expression of an accepted text is a truth value.
#[cycle(is_truth)]
fn is_truth(expr: &Expr, scope: &Scope) -> bool {
    match expr {
        Expr::Whole(_) => false,
        Expr::Truth(_) => true,
        Expr::Variable(variable) => truth_variable(variable, scope).is_ok(),
        Expr::Group(inner) => is_truth(inner.get(), scope),
        Expr::Unary(operator, _) => matches!(operator, UnaryOperator::Not),
        Expr::Binary(operator, _, _) => !is_arithmetic(*operator),
        Expr::Call(_, arguments) => is_call_of_truth(arguments.as_slice(), scope),
    }
}

/// Whether a function at these arguments gives a truth value: SEL alone may, of its second and third ones.
#[cycle(is_truth)]
fn is_call_of_truth(arguments: &[Expr], scope: &Scope) -> bool {
    match arguments {
        [_, two, _] => is_truth(two, scope),
        _ => false,
    }
}
