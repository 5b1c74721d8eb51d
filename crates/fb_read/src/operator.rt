//! Binary operators, and how tightly they bind (IEC 61131-3, 7.3.2).

ghost use Rattle.std.specs.Prelude.{◌≡◌};
ghost use Rattle.fb_read.specs.Operators.{operator_of};

use crate::token::Mark;
use fb_types::BinaryOperator;

/// The level of a mark's operator, and that operator. Level 1 binds tightest.
pub fn operator_of(mark: Mark) -> Option<(u8, BinaryOperator)>
    ensures { result ≡ operator_of mark }
{
    match mark {
        Mark::Star => Some((1, BinaryOperator::Multiply)),
        Mark::Slash => Some((1, BinaryOperator::Divide)),
        Mark::Mod => Some((1, BinaryOperator::Modulo)),
        Mark::Plus => Some((2, BinaryOperator::Add)),
        Mark::Minus => Some((2, BinaryOperator::Subtract)),
        Mark::Less => Some((3, BinaryOperator::Less)),
        Mark::Greater => Some((3, BinaryOperator::Greater)),
        Mark::LessOrEqual => Some((3, BinaryOperator::LessOrEqual)),
        Mark::GreaterOrEqual => Some((3, BinaryOperator::GreaterOrEqual)),
        Mark::Equal => Some((4, BinaryOperator::Equal)),
        Mark::NotEqual => Some((4, BinaryOperator::NotEqual)),
        Mark::And | Mark::Ampersand => Some((5, BinaryOperator::And)),
        Mark::Xor => Some((6, BinaryOperator::Xor)),
        Mark::Or => Some((7, BinaryOperator::Or)),
        _ => None,
    }
}
