//! Positions of a declaration: the name of an instance, a variable or a state, the beginning of a connection or a
//! statement, and so on. Says where a position is in the text, which position a finding of a check has, and what the
//! position is called. No offset is kept in a `Library`; a text is read again for a position.
//!
//! Guarantees to callers. `find::span_of`: the bytes are those of a token of the text. The parser of `fb_read` reads
//! the tokens before it as the entries before the position. If the library has a name at the position, the token is
//! this name. If no bytes are found, no such token is in a text that declares the library. `position_places`: a place
//! has the line and the column of the token at its position. `finding_positions`: a finding is shown at the position of
//! what it is about, and what is given twice at its later occurrence. `lookup::BlockTypes` has the ports of the type
//! that a name represents. The words of `headings`, `hints` and `habits`, and what `source_line` shows, are not part of
//! any contract.
//!
//! Read in this order: `position`; `lists`, the item to which a position belongs; `step`, `network`, `ports`, `basic`
//! and `walk`, the way to it; `statements` and `clauses`, which are searched in the tokens; `resume`, from one
//! position of a list to the next; `names`, the names that a library has at positions; `find`; `places` and
//! `position_places`, lines and columns; `finding_positions`. Then words: `words`, texts that grow; `lookup`, the meaning
//! of names; `headings`, what a position is called; `source_line`, the source line of a place; `hints` and `habits`, what is
//! probably meant where a text is refused. All of this runs only after a refusal, and for warnings and stops.
#![tactic(auto)]

mod basic;
mod clauses;
pub mod find;
pub mod finding_positions;
pub mod habits;
pub mod headings;
pub mod hints;
mod lists;
pub mod lookup;
mod names;
mod network;
pub mod places;
mod ports;
pub mod position;
pub mod position_places;
mod resume;
pub mod source_line;
mod statements;
mod step;
mod walk;
pub mod words;

pub use find::{discard, span_of, tokens_of};
pub use lookup::BlockTypes;
pub use names::name_at;
pub use places::{Place, after_mark, place_between, place_counted_from};
pub use position::{BasicPart, ConnectionPart, NetworkPart, PortPart, Position, TransitionPart};
pub use position_places::{place_at, places_among, places_of};
pub use source_line::excerpt;
pub use words::Text;
