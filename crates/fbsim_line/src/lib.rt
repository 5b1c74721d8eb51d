//! The command line of the program: its subcommands, their arguments and help, and the call that the words name.
//!
//! Guarantees to callers: `parse` returns the call that the parser's matches of the words represent, defaults included,
//! or the text for which the words ask, or says that they are no call.
//!
//! It is a library of its own, so that it is proved while the simulation is. `fbsim_command` does what a call asks for.
//!
//! Read in this order: `line`, the calls and how their words are read; `bench_line`, `draw_line`, `inspect_line` and
//! `coverage_line`, the words of `expect`, `diff`, `draw`, `inspect` and `coverage`; `session_line`, those of `session`;
//! `levels`, those about warnings; `terminal`, the words of a call whose standard error is a terminal; `arguments`, of
//! which all commands are made.
#![tactic(auto)]

mod arguments;
mod bench_line;
mod coverage_line;
mod draw_line;
mod inspect_line;
mod levels;
pub mod line;
mod session_line;
mod terminal;

pub use bench_line::{Diff, Expect};
pub use coverage_line::Coverage;
pub use draw_line::Draw;
pub use inspect_line::Inspect;
pub use levels::Levels;
pub use line::{Action, Call, LineFault, Task, Wave, parse};
pub use session_line::SessionCall;
pub use terminal::words_on_terminal;
