//! One call of the program: its files, what it does with them, and how it ends.
//!
//! Guarantees to callers: `command` says for every way in which a call can end: its status, what was read, what was
//! written, and what was reported of a failure. `fbsim_line` reads the words. `Files` reads the first bytes of a file,
//! at most as many as are asked for, and standard input once.
//!
//! Read in this order: `sources`, where files come from; `files`, those of the machine; `program`, the call; `texts`,
//! what is read, with `join`, a declaration in several files, and `own_lines`, how its refusals name a file and a line,
//! which agree by `laws`; `opening`, what is declared; `lint`, with `call_names`, `selectors`, `row_places`, `link_places` and
//! `warning_lines`, the lines of warnings, and `selected_names`, those for names that nothing has; `late_rows`, rows that
//! a run does not come to; `located_stop`, where a run stops; `wave`, with `state_dump` and `line_notes`; `draw`;
//! `inspect` and `coverage`, with `inside_notes`; `near` and `unknown_name`, the line for an unknown path or type;
//! `session`, commands and their answers; `expect`, rules and traces, with `known` and `possible`, whether what is
//! declared has an event for a pattern, and `unknown_pattern`, why it has none; `output`; `failure`, `shown`, `notes`,
//! `input_notes`, `rules_notes` and `statuses`, how it ends.
#![tactic(auto)]

pub mod call_names;
mod coverage;
mod draw;
mod expect;
pub mod failure;
pub mod files;
mod input_notes;
mod inside_notes;
mod inspect;
pub mod join;
mod known;
mod late_rows;
pub mod laws;
mod line_notes;
mod link_places;
mod lint;
mod located_stop;
mod near;
mod notes;
mod opening;
pub mod output;
mod own_lines;
mod possible;
pub mod program;
mod row_places;
mod rules_notes;
mod selected_names;
pub mod selectors;
mod session;
mod shown;
pub mod sources;
mod state_dump;
pub mod statuses;
mod texts;
mod unknown_name;
mod unknown_pattern;
pub mod warning_lines;
mod wave;

pub use failure::{Failure, RefusalLine};
pub use fbsim_line::{
    Action, Call, Coverage, Diff, Draw, Expect, Inspect, Levels, LineFault, SessionCall, Task,
    Wave, parse, words_on_terminal,
};
pub use files::{Files, Opened};
pub use program::{command, command_exit, command_with_clock};
pub use sources::{Source, SourceFault, Streams};
pub use statuses::{Done, ExitStatus, status};
