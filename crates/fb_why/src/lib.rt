//! Explains refusals and stops: what each refusal and each reason means, and, for most numbers, the locations at which
//! the refusal applies.
//!
//! Guarantees to callers: `explanation::explain` has an explanation for each refusal and each reason of a stop, and for
//! nothing else. The locations that `finding::findings_of` reports are in the bytes or in what they declare, and the
//! refusal applies there. Each place is in the text of the declaration, and the token there is the name that the
//! library has at this location; a wrong kind of an expression is at the operand that does not fit. For the numbers of
//! the check, whose locations the check lists, it reports none only if the inputs are refused for something else or
//! can't be read. `find::text_refusal` returns a location in the text, with its line and column, at which a declaration
//! is refused. The wording of the texts is not part of any contract.
//!
//! Read in this order: `explanation` and `table`; `cause` and `location`, what each number is about, and where. Then
//! the bytes: `find`, the refusal of a text and its location; `further`, keys that a table may not have, and where they
//! are. Then a location as text: `messages`, with `contents`. Then `refused`, `roots` and `declared`, locations in bytes
//! and in what they declare; `tokens`, `expression` and `mismatch`, the operand of an expression that does not fit, and
//! `marks`, its place; `place` and `input_place`, where a location is in its text; `listing` and `finding`, which reads
//! the bytes again. All of this runs only after a refusal.
#![tactic(auto)]

pub mod cause;
mod contents;
mod declared;
pub mod explanation;
mod expression;
pub mod find;
pub mod finding;
mod further;
pub mod input_place;
pub mod listing;
pub mod location;
mod marks;
pub mod messages;
mod mismatch;
pub mod place;
mod refused;
mod roots;
pub mod table;
mod tokens;

pub use cause::Cause;
pub use explanation::explain;
pub use find::{TextRefusal, text_refusal};
pub use finding::findings_of;
pub use input_place::{InputFile, InputPlace, place_in_deployment, places_in_inputs};
pub use listing::{Findings, MOST_FINDINGS, discard_findings};
pub use location::{Finding, FindingLocation};
pub use messages::deployment::deployment_message;
pub use messages::rules::{
    location_span, pattern_message, rule_span, rules_message, unknown_key_message,
};
pub use messages::stimuli::{row_message, stimuli_message};
pub use messages::stimulus::unfit_message;
pub use messages::text::text_message;
pub use place::PlacedFinding;
pub use table::{Explanation, OF_CHECKS, OF_DECLARATIONS, OF_INPUTS};
