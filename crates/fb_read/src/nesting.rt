//! Where tokens probably nest too deep: they are counted as the rules nest them, without a reading.

ghost use Rattle.std.specs.Prelude.{◌≤◌, length};

use crate::expression::LOOSEST;
use crate::operator::operator_of;
use crate::token::{Located, Mark, Token};
use fb_types::MOST_NESTING;

/// How deep an expression may nest.
const DEEPEST: usize = MOST_NESTING as usize;

/// The level of a sign, which binds tighter than each binary operator.
const SIGN: u8 = 0;

/// The level of a parenthesis. No operator ends what is inside.
const PARENTHESIS: u8 = LOOSEST + 1;

/// A parenthesis, a sign or a binary operator whose operand has not ended.
#[derive(Clone, Copy)]
struct Pending {
    /// How loosely it binds.
    level: u8,
    /// How deep the deepest operand before nests. 0 if there is none.
    nesting: usize,
}

/// What is pending in an expression after a token. Each one nests what follows one deeper.
#[derive(Drop)]
struct Nest {
    /// The first `height` ones are pending, the outermost first.
    pending: [Pending; DEEPEST],
    height: usize,
    /// How deep the operand nests that has ended. 0 if an operand must follow.
    nesting: usize,
}

impl Nest {
    /// Begins another expression.
    fn clear(&mut self) {
        self.height = 0;
        self.nesting = 0;
    }

    /// Counts a name or a literal.
    fn add_leaf(&mut self) {
        self.nesting = 1;
    }

    /// Counts one more that is pending. Returns whether its operand nests too deep.
    fn push(&mut self, level: u8, nesting: usize) -> bool {
        self.nesting = 0;
        if self.height < DEEPEST {
            self.pending[self.height] = Pending { level, nesting };
            self.height += 1;
        }
        self.height >= DEEPEST
    }

    /// Ends the last one, which has this index and an operand before it that nests this deep.
    fn pop(&mut self, index: usize, nesting: usize) {
        self.height = index;
        self.nesting = self.nesting.max(nesting).saturating_add(1);
    }

    /// Ends what binds no looser than this level, up to the last parenthesis.
    fn end(&mut self, level: u8) {
        for index in (0..self.height).rev() {
            let Some(last) = self.pending.get(index) else {
                return;
            };
            if last.level > level {
                return;
            }
            let nesting = last.nesting;
            self.pop(index, nesting);
        }
    }

    /// Counts an operator, or a sign if no operand is before it. Returns whether it nests too deep.
    fn add_operator(&mut self, level: u8) -> bool {
        if self.nesting == 0 {
            return self.push(SIGN, 0);
        }
        self.end(level);
        let nesting = self.nesting;
        if nesting.saturating_add(self.height) >= DEEPEST {
            return true;
        }
        self.push(level, nesting)
    }

    /// Counts a comma. A call nests one deeper than its deepest argument.
    fn end_argument(&mut self) {
        self.end(LOOSEST);
        let call = self.height.saturating_sub(1);
        if call < DEEPEST {
            let nesting = self.nesting.max(self.pending[call].nesting);
            self.pending[call].nesting = nesting;
        }
        self.nesting = 0;
    }

    /// Counts a closing parenthesis.
    fn close(&mut self) {
        self.end(LOOSEST);
        let index = self.height.saturating_sub(1);
        if index < DEEPEST {
            self.pop(index, self.pending[index].nesting);
        }
    }

    /// Counts a mark. Returns whether it nests too deep, or its operand does.
    fn count(&mut self, mark: Mark) -> bool {
        match mark {
            Mark::Open => self.push(PARENTHESIS, 0),
            Mark::Not => self.push(SIGN, 0),
            Mark::Close => {
                self.close();
                false
            }
            Mark::Comma => {
                self.end_argument();
                false
            }
            Mark::True | Mark::False => {
                self.add_leaf();
                false
            }
            _ => match operator_of(mark) {
                Some((level, _)) => self.add_operator(level),
                None => false,
            },
        }
    }
}

/// What is open after a token.
#[derive(Drop)]
struct Opened {
    /// How many statements that hold others.
    statements: u32,
    expression: Nest,
}

impl Opened {
    /// Nothing is open.
    fn none() -> Opened {
        let none = Pending {
            level: SIGN,
            nesting: 0,
        };
        let expression = Nest {
            pending: [none; DEEPEST],
            height: 0,
            nesting: 0,
        };
        Opened {
            statements: 0,
            expression,
        }
    }

    /// Counts a mark. Returns whether it or what follows it nests too deep.
    fn count(&mut self, mark: Mark) -> bool {
        match mark {
            Mark::Semicolon
            | Mark::Assign
            | Mark::OpenSquare
            | Mark::Elsif
            | Mark::Until
            | Mark::To
            | Mark::By => {
                self.expression.clear();
                false
            }
            Mark::If | Mark::Case | Mark::For | Mark::While => {
                self.expression.clear();
                self.statements = self.statements.saturating_add(1);
                false
            }
            Mark::Repeat => {
                self.statements = self.statements.saturating_add(1);
                self.statements >= MOST_NESTING
            }
            Mark::Then | Mark::Else | Mark::Do | Mark::Colon => self.statements >= MOST_NESTING,
            Mark::EndIf | Mark::EndCase | Mark::EndFor | Mark::EndWhile | Mark::EndRepeat => {
                self.statements = self.statements.saturating_sub(1);
                false
            }
            _ => self.expression.count(mark),
        }
    }
}

/// Whether the token at this index is a name.
fn is_name(tokens: &[Located], index: usize) -> bool {
    match tokens.get(index) {
        Some(located) => match &located.token {
            Token::Name(_) => true,
            _ => false,
        },
        None => false,
    }
}

/// How many of these tokens there are up to the one that nests too deep, where this mark at an index shows it. A call
/// may have no arguments, and statements may be missing, so there it is the next token.
fn shown_len(tokens: &[Located], mark: Mark, index: usize) -> usize
    ensures { result ≤ length tokens.now }
{
    let is_next = match mark {
        Mark::Open => is_name(tokens, index.saturating_sub(1)),
        Mark::Repeat | Mark::Then | Mark::Else | Mark::Do | Mark::Colon => true,
        _ => false,
    };
    let more = if is_next { 2 } else { 1 };
    index.saturating_add(more).min(tokens.len())
}

/// How many of these tokens there probably are up to the first that nests too deep. All of them, if none seems to.
pub(crate) fn probable_len(tokens: &[Located]) -> usize
    ensures { result ≤ length tokens.now }
{
    let mut opened = Opened::none();
    for (index, located) in tokens.iter().enumerate() {
        match &located.token {
            Token::Mark(mark) => {
                if opened.count(*mark) {
                    return shown_len(tokens, *mark, index);
                }
            }
            _ => opened.expression.add_leaf(),
        }
    }
    tokens.len()
}
