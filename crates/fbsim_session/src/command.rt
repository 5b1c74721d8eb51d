//! What a line asks for.

ghost use Rattle.std.specs.Prelude.{◌≡◌, ◌≤◌, ◌^◌, IfSome, Some};
ghost use Rattle.fbsim_session.specs.Commands as spec;
ghost use Rattle.fbsim_session.specs.declared.command.Usage.TheVariants as kinds;

use fb_inputs::{natural, parted};
use fb_types::LATEST_TICK;

/// What a session is asked for. Texts are parts of the line.
#[derive(Clone, Copy)]
pub enum Command<'a> {
    /// One more row, by its three fields.
    Give(&'a [u8], &'a [u8], &'a [u8]),
    Until(u64),
    Next,
    Break(&'a [u8]),
    Clear(u64),
    Show(&'a [u8]),
    Peek,
    End(u64),
    Help,
    /// The words are no command of this kind.
    Wrong(Usage),
}

/// What was expected.
#[derive(Clone, Copy)]
pub enum Usage {
    Any,
    Give,
    Until,
    Next,
    Break,
    Clear,
    Show,
    Peek,
    End,
    Help,
}

impl Usage {
    /// What was expected, as an error says it.
    pub(crate) fn words(self) -> &'static [u8] {
        match self {
            Usage::Any => b"expected a command; help lists them",
            Usage::Give => b"expected give TICK INSTANCE.EVENT VAR=value ..",
            Usage::Until => b"expected until TICK, 1 to 1000000000000",
            Usage::Next => b"expected next",
            Usage::Break => b"expected break PATTERN",
            Usage::Clear => b"expected clear N, the number of a break",
            Usage::Show => b"expected show PATH",
            Usage::Peek => b"expected peek",
            Usage::End => b"expected end TICK, 1 to 1000000000000",
            Usage::Help => b"expected help",
        }
    }
}

/// The first word of a text, and what comes after it and its blanks. A text without a blank is one word.
fn first_word(text: &[u8]) -> (&[u8], &[u8])
    ensures { (result.0.now, result.1.now) ≡ spec.word_and_rest text.now }
{
    match parted(text, b' ') {
        Some((word, rest)) => (word, without_blanks(rest)),
        None => (text, b""),
    }
}

/// A text without the blanks at its beginning and at its end.
fn without_blanks(text: &[u8]) -> &[u8]
    ensures { result.now ≡ spec.without_blanks text.now }
{
    before_blanks(after_blanks(text))
}

/// A text without the blanks at its beginning.
fn after_blanks(text: &[u8]) -> &[u8]
    ensures { result.now ≡ spec.after_blanks text.now }
{
    for (at, byte) in text.iter().enumerate() {
        if *byte != b' ' {
            return &text[at..];
        }
    }
    b""
}

/// A text without the blanks at its end.
fn before_blanks(text: &[u8]) -> &[u8]
    ensures { result.now ≡ spec.before_blanks text.now }
{
    let mut end = 0;
    for (at, byte) in text.iter().enumerate() {
        if *byte != b' ' {
            end = at + 1;
        }
    }
    &text[..end]
}

/// A tick that a session may go to.
fn tick_of(word: &[u8]) -> Option<u64>
    ensures of { result ≡ spec.tick_of word.now }
    ensures most { IfSome result (λ t. t ≤ 10 ^ 12) }
{
    let tick = natural(word, u128::from(LATEST_TICK))?;
    if tick == 0 || tick > u128::from(LATEST_TICK) {
        return None;
    }
    Some(tick as u64)
}

/// A command if nothing comes after its word.
fn alone<'a>(rest: &[u8], command: Command<'a>, usage: Usage) -> Command<'a>
    ensures of { spec.asked_of result ≡ spec.alone rest.now (spec.asked_of command.entry) usage }
    ensures within { spec.IsWithin command.entry → spec.IsWithin result }
{
    if rest.is_empty() {
        command
    } else {
        Command::Wrong(usage)
    }
}

/// A row by its fields: two words, and the rest.
fn give_of(rest: &[u8]) -> Command<'_>
    ensures of { spec.asked_of result ≡ spec.give_of rest.now }
    ensures within { spec.IsWithin result }
{
    let (tick, rest) = first_word(rest);
    let (event, values) = first_word(rest);
    if event.is_empty() {
        Command::Wrong(Usage::Give)
    } else {
        Command::Give(tick, event, values)
    }
}

/// The number of a break that is removed.
fn clear_of(rest: &[u8]) -> Command<'_>
    ensures of { spec.asked_of result ≡ spec.clear_of rest.now }
    ensures within { spec.IsWithin result }
{
    match natural(rest, u128::from(u64::MAX)) {
        Some(number) => clear_by(number),
        None => Command::Wrong(Usage::Clear),
    }
}

/// The removal of a break by its number, if that fits.
fn clear_by(number: u128) -> Command<'static>
    ensures of { spec.asked_of result ≡ spec.clear_by (Some number) }
    ensures within { spec.IsWithin result }
{
    if number > u128::from(u64::MAX) {
        Command::Wrong(Usage::Clear)
    } else {
        Command::Clear(number as u64)
    }
}

/// The kind of command that a word names.
#[tactic(auto, unfolding(crate::specs::Commands::usage_of))]
fn usage_of(word: &[u8]) -> Usage
    ensures { result ≡ spec.usage_of word.now }
{
    if word == b"give".as_slice() {
        return Usage::Give;
    }
    if word == b"until".as_slice() {
        return Usage::Until;
    }
    if word == b"end".as_slice() {
        return Usage::End;
    }
    if word == b"next".as_slice() {
        return Usage::Next;
    }
    if word == b"peek".as_slice() {
        return Usage::Peek;
    }
    if word == b"help".as_slice() {
        return Usage::Help;
    }
    if word == b"break".as_slice() {
        return Usage::Break;
    }
    if word == b"clear".as_slice() {
        return Usage::Clear;
    }
    if word == b"show".as_slice() {
        return Usage::Show;
    }
    Usage::Any
}

/// A command with a tick.
fn until_of(rest: &[u8]) -> Command<'_>
    ensures of { spec.asked_of result ≡ spec.with_tick (spec.tick_of rest.now) spec.Until kinds.Until }
    ensures within { spec.IsWithin result }
{
    match tick_of(rest) {
        Some(tick) => Command::Until(tick),
        None => Command::Wrong(Usage::Until),
    }
}

/// The same of the end.
fn end_of(rest: &[u8]) -> Command<'_>
    ensures of { spec.asked_of result ≡ spec.with_tick (spec.tick_of rest.now) spec.End kinds.End }
    ensures within { spec.IsWithin result }
{
    match tick_of(rest) {
        Some(tick) => Command::End(tick),
        None => Command::Wrong(Usage::End),
    }
}

/// A break by its pattern.
fn break_of(rest: &[u8]) -> Command<'_>
    ensures of { spec.asked_of result ≡ spec.break_of rest.now }
    ensures within { spec.IsWithin result }
{
    if rest.is_empty() {
        Command::Wrong(Usage::Break)
    } else {
        Command::Break(rest)
    }
}

/// A path, and nothing after it.
fn show_of(rest: &[u8]) -> Command<'_>
    ensures of { spec.asked_of result ≡ spec.show_of rest.now }
    ensures within { spec.IsWithin result }
{
    let (path, more) = first_word(rest);
    if path.is_empty() {
        Command::Wrong(Usage::Show)
    } else {
        alone(more, Command::Show(path), Usage::Show)
    }
}

/// What a line asks for, without its end.
pub(crate) fn command_of(line: &[u8]) -> Command<'_>
    ensures of { spec.asked_of result ≡ spec.command_of line.now }
    ensures within { spec.IsWithin result }
{
    let (word, rest) = first_word(without_blanks(line));
    match usage_of(word) {
        Usage::Give => give_of(rest),
        Usage::Until => until_of(rest),
        Usage::End => end_of(rest),
        Usage::Next => alone(rest, Command::Next, Usage::Next),
        Usage::Peek => alone(rest, Command::Peek, Usage::Peek),
        Usage::Help => alone(rest, Command::Help, Usage::Help),
        Usage::Break => break_of(rest),
        Usage::Clear => clear_of(rest),
        Usage::Show => show_of(rest),
        Usage::Any => Command::Wrong(Usage::Any),
    }
}
