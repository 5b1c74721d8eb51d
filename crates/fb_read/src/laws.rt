//! Laws of the definitions that contracts cite. Their functions do nothing when they run: they are there for their
//! contracts.

ghost use Rattle.fb_read.specs.Longest.{TakesLongest, CutsExactly, FaultsExactly};
ghost use Rattle.fb_read.specs.Pauses.{SkipsExactly};
ghost use Rattle.fb_read.specs.Shapes.{NumbersExactly, SignsExactly};
ghost use Rattle.fb_read.specs.TimeParts.{DurationsExactly};
ghost use Rattle.fb_read.specs.Refusals.{SyntaxIsNoNesting};
ghost use Rattle.fb_read.specs.Whole.{DeclaresOne};
ghost use Rattle.fb_read.specs.ReadsExactly.{ReadsExpressions, ReadsBodies};

/// At each offset the longest token is taken, and no letter, digit or underscore follows a literal.
pub fn takes_longest()
    ensures { TakesLongest }
{}

/// A token is found at the front of a text exactly if the definitions cut one off there.
pub fn cuts_exactly()
    ensures { CutsExactly }
{}

/// If there is no token, the first byte is at fault exactly if it may not occur outside of comments.
pub fn faults_exactly()
    ensures { FaultsExactly }
{}

/// Exactly the blanks and comments between tokens are skipped.
pub fn skips_exactly()
    ensures { SkipsExactly }
{}

/// The digits of a number are groups of digits of its base, with single underscores between them.
pub fn numbers_exactly()
    ensures { NumbersExactly }
{}

/// The sign at the front of a text is the longest of the list of signs that the text begins with.
pub fn signs_exactly()
    ensures { SignsExactly }
{}

/// A duration is one or more parts with falling units. Its ticks are the sum of their ticks.
pub fn durations_exactly()
    ensures { DurationsExactly }
{}

/// A text declares at most one library.
pub fn declares_one()
    ensures { DeclaresOne }
{}

/// What is read as an expression is one by the grammar, and nests at most 64 deep. Each such expression is read, and
/// one that nests deeper is refused for its nesting.
pub fn reads_expressions()
    ensures { ReadsExpressions }
{}

/// What is read as the statements of an algorithm is so by the grammar, with statements and expressions that nest at
/// most 64 deep. Such statements are read, and those that nest deeper are refused for their nesting.
pub fn reads_bodies()
    ensures { ReadsBodies }
{}

/// A text that is refused for its syntax is not one whose tokens are refused for their nesting.
pub fn syntax_is_no_nesting()
    ensures { SyntaxIsNoNesting }
{}
