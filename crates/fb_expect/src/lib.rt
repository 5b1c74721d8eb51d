//! Rules over traces, and where two traces differ.
//!
//! Guarantees to callers: `read_rules` gives the rules that the definitions make of the tree of the TOML reader, or the
//! number of the refusal. `judge` gives for each rule whether it holds of the lines of a trace, breaks (and at which
//! line first), or is undecided, and how often it was decided, as the definitions say of the whole list of lines. It
//! refuses no trace: the line that it names is not what a trace has there (`laws`). `part` says that two texts are the
//! same, or are without their ticks, exactly if they are, and otherwise gives the first lines in which they differ.
//!
//! The report and the text of a difference are the texts that the definitions make of these answers.
//!
//! Read in this order:
//!
//! - `error` and `fault`;
//! - `rule`, `pattern` and `port_pattern`: the data of rules;
//! - `words`, `number`, `names` and `lines`: parts of texts;
//! - `document`, `own_names` and `rules`: how rules are read;
//! - `location`: where they are refused;
//! - `event`, `entry` and `ending`: the meaning of a line;
//! - `contradiction`: conditions that no value meets;
//! - `stars` and `meeting`: whether a line meets a pattern;
//! - `hit`, `watch` and `verdict`: the state and the answer of a rule that judges each line by itself;
//! - `alike` and `pairs`: those of a rule that pairs lines;
//! - `tally`: how often a rule was decided; `settled`: whether it was at all;
//! - `sight`: what a trace never has;
//! - `fingerprint` and `port_set`: which lines are passed over;
//! - `judging`: a trace line by line; `laws`: what its definitions have in common;
//! - `shown`, `tap` and `junit`: the reports; `applied`: in how many traces each rule applied;
//! - `timeless`, `parting` and `difference_report`: where two texts first differ.
#![tactic(auto)]

mod alike;
pub mod applied;
pub mod contradiction;
pub mod difference_report;
mod document;
pub mod ending;
pub mod entry;
pub mod error;
mod event;
pub mod fault;
mod fingerprint;
mod hit;
pub mod judging;
pub mod junit;
pub mod laws;
pub mod lines;
pub mod location;
pub mod meeting;
mod names;
mod number;
mod own_names;
mod pairs;
pub mod parting;
pub mod pattern;
pub mod port_pattern;
mod port_set;
pub mod rule;
pub mod rules;
mod settled;
mod shown;
pub mod sight;
mod stars;
mod tally;
pub mod tap;
mod timeless;
pub mod verdict;
mod watch;
mod words;

pub use applied::{count_trace, have_applied, no_counts, put_applied, put_applied_suite};
pub use contradiction::{has_number_within, has_truth};
pub use difference_report::difference_text;
pub use ending::End;
pub use entry::Entry;
pub use error::{RulesError, UNKNOWN_NAME};
pub use event::read_entry;
pub use fault::TraceError;
pub use judging::{Cut, Judged, judge};
pub use junit::{SUITES_HEAD, SUITES_TAIL, put_suite};
pub use location::{RuleFault, RuleKey, RulesLocation, key_text, pattern_keys, rules_location};
pub use meeting::{is_at, meets};
pub use parting::{Difference, PartFault, part};
pub use pattern::{
    Comparison, Condition, Operand, Pattern, PatternFault, PatternPart, Way, pattern_fault,
    pattern_of,
};
pub use port_pattern::{PortForm, PortPattern};
pub use rule::{Need, Pairing, Rule};
pub use rules::{MOST_RULES, read_rules};
pub use tap::{Of, are_well, plan, put_points};
pub use verdict::{Breach, Fault, Verdict};
