//! How comparisons in a row are grouped, which no accepted text has.

use fb_read::read_library;
use fb_types::{BasicType, BinaryOperator, BlockType, Expr};
use std::mem::forget;
use std::process::Abort;

static GUARDS: &str = "FUNCTION_BLOCK F EC_STATES S; END_STATES\n\
    EC_TRANSITIONS S TO S := [A < B > C]; S TO S := [A <= B >= C]; END_TRANSITIONS\n\
    END_FUNCTION_BLOCK APPLICATION A FBS END_FBS END_APPLICATION";

/// The operator of the left operand of the guard at an index, and that of the guard itself.
fn operators(rt: &impl Abort, block: &BasicType, index: usize) -> (BinaryOperator, BinaryOperator) {
    let Some(transition) = block.transitions.get(index) else {
        rt.panic("a transition")
    };
    let Some(Expr::Binary(outer, left, _)) = &transition.condition.guard else {
        rt.panic("a guard")
    };
    let Expr::Binary(inner, _, _) = left.get() else {
        rt.panic("two operators")
    };
    (*inner, *outer)
}

#[test]
fn comparisons_are_grouped_to_the_left(rt: HostRuntime) {
    let library = read_library(rt.alloc(), GUARDS.as_bytes()).expect(&rt, "no library");
    let [BlockType::Basic(block)] = library.blocks.as_slice() else {
        rt.panic("a basic type")
    };
    assert!(rt;
        matches!(
            operators(&rt, block, 0),
            (BinaryOperator::Less, BinaryOperator::Greater)
        )
    );
    assert!(rt;
        matches!(
            operators(&rt, block, 1),
            (BinaryOperator::LessOrEqual, BinaryOperator::GreaterOrEqual)
        )
    );
    forget(library);
}
