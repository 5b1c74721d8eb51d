//! One command after another.

ghost use Rattle.std.specs.Prelude.{◌≡◌, ◌≤◌, ◌^◌};
ghost use Rattle.fb_types.specs.EventPorts.{ArePortsOfKinds};
ghost use Rattle.fb_session.specs.Pasts.{Past, StandsBy};
ghost use Rattle.fb_session.specs.declared.stage.Stage.TheVariants as going;
ghost use Rattle.fbsim_session.specs.Commands.{IsWithin};
ghost use Rattle.fbsim_session.specs.Talks.{Arrives, Concludes, Flushes, HasTold, IsFaultOf, IsTold, Leads, Opening, Sends, Stays, Talks, count_of, spoken};
ghost use Rattle.fb_trace.specs.Progress.{bounded};

use crate::answer::{
    HELP, STOPPED, Sign, in_upper, put_fault, put_line, put_no_instance, put_no_pattern, put_row,
};
use crate::command::{Command, Usage, command_of};
use crate::input::{Line, MOST_BYTES, next_line};
use fb_check::RowJudge;
use fb_session::{
    BreakFault, End, GiveFault, GivenAnswer, Next, Session, SessionFault, Stage, Until, row_text,
};
use fb_system::System;
use fb_text::{put_all, put_number};
use fb_trace::{Outcome, write_front};
use fb_types::{Form, Items, Ports, all_ports};
use std::alloc::{AllocError, Global};
use std::io;
use std::io::{BufRead, Write};

/// Why a session is over without an end.
#[derive(Clone, Copy, Debug)]
pub enum TalkFault {
    /// Out of memory.
    Memory,
    /// The writer failed after this many bytes, answers included.
    Write(u128),
    /// The reader failed.
    Read,
}

impl From<AllocError> for TalkFault {
    ghost use Rattle.std.specs.Prelude.{◌≡◌};
    ghost use Rattle.fbsim_session.specs.declared.talking.TalkFault.TheVariants.{Memory};

    ghost from_gives = { λ _ e. e ≡ Memory };

    fn from(_error: AllocError) -> TalkFault {
        TalkFault::Memory
    }
}

impl From<io::Error> for TalkFault {
    ghost use Rattle.fbsim_session.specs.Talks.{IsNoWrite};

    ghost from_gives = { λ _ e. IsNoWrite e };

    fn from(error: io::Error) -> TalkFault {
        if error.kind() == io::ErrorKind::OutOfMemory {
            TalkFault::Memory
        } else {
            TalkFault::Read
        }
    }
}

/// Answers the commands of a reader, until one ends the session or there are none any more. Each answer is written and
/// flushed before the next command is read.
///
/// # Errors
/// Why the session is over without an end.
pub fn talk<R: BufRead, W: Write>(
    alloc: Global,
    system: &System,
    steps: u64,
    form: Form,
    input: &mut R,
    out: &mut W,
) -> Result<Outcome, TalkFault>
    requires some { 1 ≤ steps }
    requires few { steps ≤ 10 ^ 7 }
    ensures { Talks system.now steps form (W.contents out.old) (W.contents out.new) result }
{
    // for the prover: the inputs are accepted
    system.facts();
    let interfaces = all_ports(alloc)?;
    let options = Options { alloc, steps, form };
    talk_with(options, system, &interfaces, input, out)
}

/// How a session is opened.
#[derive(Clone, Copy)]
struct Options {
    alloc: Global,
    steps: u64,
    form: Form,
}

/// Answers the commands of a reader, with the interfaces of all event blocks.
fn talk_with<'s, R: BufRead, W: Write>(
    options: Options,
    system: &'s System,
    interfaces: &'s Items<Ports>,
    input: &mut R,
    out: &mut W,
) -> Result<Outcome, TalkFault>
    requires some { 1 ≤ options.steps }
    requires few { options.steps ≤ 10 ^ 7 }
    requires interfaces { ArePortsOfKinds interfaces.now }
    ensures { Talks system.now options.steps options.form (W.contents out.old) (W.contents out.new) result }
{
    // for the prover: the inputs are accepted
    system.facts();
    let judge = RowJudge::of(options.alloc, system, interfaces)?;
    converse(options, system, &judge, input, out)
}

/// Answers the commands of a reader, with what judges rows.
fn converse<'j, 's, R: BufRead, W: Write>(
    options: Options,
    system: &'s System,
    judge: &'j RowJudge<'s>,
    input: &mut R,
    out: &mut W,
) -> Result<Outcome, TalkFault>
    requires some { 1 ≤ options.steps }
    requires few { options.steps ≤ 10 ^ 7 }
    requires judge { judge.now.library.now ≡ system.now.library }
    ensures { Talks system.now options.steps options.form (W.contents out.old) (W.contents out.new) result }
{
    // for the prover: the inputs are accepted
    system.facts();
    let alloc = options.alloc;
    let mut line = Vec::with_capacity(alloc, MOST_BYTES + 1)?;
    let mut console = Console {
        alloc,
        system,
        session: Session::open(alloc, system, judge, options.steps, options.form)?,
        text: Vec::new(alloc),
        reply: Vec::new(alloc),
        answered: 0,
    };
    console.answer_all(input, &mut line, out)
}

/// A session with what its answers need: room for the words of one, and for its line, and the bytes of all answers.
#[derive(Drop)]
struct Console<'j, 's> {
    alloc: Global,
    system: &'s System,
    session: Session<'j, 's>,
    text: Vec<u8>,
    reply: Vec<u8>,
    answered: u128,
}

/// How a command is answered while the session goes on.
#[derive(Clone, Copy)]
enum Reply {
    /// By the words in the buffer, as one line.
    Line(Sign),
    /// By the lines of the trace that were written.
    Written,
    /// By the lines of the help.
    Help,
}

// What writes.
impl Console<'_, '_> {
    /// Answers all commands of a reader.
    fn answer_all<R: BufRead, W: Write>(
        &mut self,
        input: &mut R,
        line: &mut Vec<u8>,
        out: &mut W,
    ) -> Result<Outcome, TalkFault>
        requires told { IsTold (W.contents out.old) (spoken self.old) }
        ensures { (x : Opening) → HasTold x (W.contents out.old) (spoken self.old) → Concludes x (W.contents out.new) result }
    {
        self.list_rows(out)?;
        for _ in 0..u64::MAX {
            let told = self.answer_next(input, line, out)?;
            match told {
                Some(outcome) => return Ok(outcome),
                None => {}
            }
        }
        self.end_of_input(out)
    }

    /// Answers each row of the system, as if it had been given.
    fn list_rows<W: Write>(&mut self, out: &mut W) -> Result<(), TalkFault>
        ensures { (x : Opening) → HasTold x (W.contents out.old) (spoken self.old) → Leads x (W.contents out.new) (spoken self.new) result }
    {
        let system = self.system;
        for (row, stimulus) in system.stimuli().iter().enumerate() {
            let line = row_text(self.alloc, stimulus)?;
            put_row(self.alloc, &mut self.text, row as u64, line.as_slice())?;
            self.send(Sign::Answer, out)?;
        }
        Ok(())
    }

    /// Reads the next command, if there is one, and answers it. `Some` is the end of the session.
    fn answer_next<R: BufRead, W: Write>(
        &mut self,
        input: &mut R,
        line: &mut Vec<u8>,
        out: &mut W,
    ) -> Result<Option<Outcome>, TalkFault>
        requires told { IsTold (W.contents out.old) (spoken self.old) }
        ensures { (x : Opening) → HasTold x (W.contents out.old) (spoken self.old) → Arrives x (W.contents out.new) (spoken self.new) result }
    {
        match next_line(input, line) {
            Ok(Line::Whole) => self.obey(line.as_slice(), out),
            Ok(Line::Long) => {
                self.error(b"a line has at most 65536 bytes")?;
                self.send(Sign::Error, out)?;
                Ok(None)
            }
            Ok(Line::Over) => {
                let outcome = self.end_of_input(out)?;
                Ok(Some(outcome))
            }
            Err(fault) => Err(fault),
        }
    }

    /// Does what a line asks for, and answers. `Some` is the end of the session.
    fn obey<W: Write>(&mut self, line: &[u8], out: &mut W) -> Result<Option<Outcome>, TalkFault>
        requires told { IsTold (W.contents out.old) (spoken self.old) }
        ensures { (x : Opening) → HasTold x (W.contents out.old) (spoken self.old) → Arrives x (W.contents out.new) (spoken self.new) result }
    {
        match command_of(line) {
            Command::End(tick) => self.end(tick, out),
            command => {
                let reply = self.perform(command, out)?;
                self.answer(reply, out)?;
                Ok(None)
            }
        }
    }

    /// Does what a command asks for, unless it ends the session.
    fn perform<W: Write>(&mut self, command: Command<'_>, out: &mut W) -> Result<Reply, TalkFault>
        requires told { IsTold (W.contents out.old) (spoken self.old) }
        requires within { IsWithin command }
        ensures { (x : Opening) → HasTold x (W.contents out.old) (spoken self.old) → Leads x (W.contents out.new) (spoken self.new) result }
    {
        match command {
            Command::Until(tick) => self.until(tick, out),
            Command::Next => self.next(out),
            command => {
                let reply = self.reply_to(command)?;
                Ok(reply)
            }
        }
    }

    /// Writes an answer, and flushes it.
    fn answer<W: Write>(&mut self, reply: Reply, out: &mut W) -> Result<(), TalkFault>
        ensures { (x : Opening) → HasTold x (W.contents out.old) (spoken self.old) → Leads x (W.contents out.new) (spoken self.new) result }
    {
        match reply {
            Reply::Line(sign) => self.send(sign, out),
            Reply::Written => self.flush(out),
            Reply::Help => self.help(out),
        }
    }

    /// Answers by the lines of the help.
    fn help<W: Write>(&mut self, out: &mut W) -> Result<(), TalkFault>
        ensures { (x : Opening) → HasTold x (W.contents out.old) (spoken self.old) → Leads x (W.contents out.new) (spoken self.new) result }
    {
        for line in HELP {
            self.put(line)?;
            self.send(Sign::Answer, out)?;
        }
        Ok(())
    }

    /// Writes the words in the buffer as one line, and flushes it.
    fn send<W: Write>(&mut self, sign: Sign, out: &mut W) -> Result<(), TalkFault>
        ensures sends { Sends (spoken self.old) (spoken self.new) (W.contents out.old) (W.contents out.new) result }
        ensures same { self.new.session ≡ self.old.session }
    {
        put_line(&mut self.reply, sign, self.text.as_slice())?;
        let taken = write_front(out, self.reply.as_slice());
        self.answered = self.answered.saturating_add(taken as u128);
        if taken < self.reply.len() {
            return Err(TalkFault::Write(self.written()));
        }
        self.flush(out)
    }

    /// Flushes what was written.
    fn flush<W: Write>(&mut self, out: &mut W) -> Result<(), TalkFault>
        ensures flushes { Flushes (spoken self.old) (W.contents out.old) (W.contents out.new) result }
        ensures same { spoken self.new ≡ spoken self.old }
    {
        match out.flush() {
            Ok(()) => Ok(()),
            Err(_) => Err(TalkFault::Write(self.written())),
        }
    }

    /// Takes the events below a tick, and says how far it came.
    fn until<W: Write>(&mut self, tick: u64, out: &mut W) -> Result<Reply, TalkFault>
        requires told { IsTold (W.contents out.old) (spoken self.old) }
        requires most { tick ≤ 10 ^ 12 }
        ensures { (x : Opening) → HasTold x (W.contents out.old) (spoken self.old) → Leads x (W.contents out.new) (spoken self.new) result }
    {
        let Stage::Running = self.session.stage() else {
            return Ok(self.error(STOPPED)?);
        };
        match self.session.until(tick, out) {
            Ok(end) => Ok(self.say_until(tick, end)?),
            Err(fault) => Err(self.failed(fault)),
        }
    }

    /// Takes the least event, and says at which tick.
    fn next<W: Write>(&mut self, out: &mut W) -> Result<Reply, TalkFault>
        requires told { IsTold (W.contents out.old) (spoken self.old) }
        ensures { (x : Opening) → HasTold x (W.contents out.old) (spoken self.old) → Leads x (W.contents out.new) (spoken self.new) result }
    {
        let Stage::Running = self.session.stage() else {
            return Ok(self.error(STOPPED)?);
        };
        match self.session.next(out) {
            Ok(next) => Ok(self.say_next(next)?),
            Err(fault) => Err(self.failed(fault)),
        }
    }

    /// Ends the session at a tick, unless that is below the least one.
    fn end<W: Write>(&mut self, tick: u64, out: &mut W) -> Result<Option<Outcome>, TalkFault>
        requires told { IsTold (W.contents out.old) (spoken self.old) }
        requires most { tick ≤ 10 ^ 12 }
        ensures { (x : Opening) → HasTold x (W.contents out.old) (spoken self.old) → Arrives x (W.contents out.new) (spoken self.new) result }
    {
        let least = self.session.reached();
        if tick < least {
            self.number(Sign::Error, b"below ", least)?;
            self.send(Sign::Error, out)?;
            return Ok(None);
        }
        self.say_stop(out)?;
        let outcome = self.finish(tick, out)?;
        Ok(Some(outcome))
    }

    /// Says where a resource has stopped, if one has: the line of the stop stands already.
    fn say_stop<W: Write>(&mut self, out: &mut W) -> Result<(), TalkFault>
        ensures leads { (x : Opening) → HasTold x (W.contents out.old) (spoken self.old) → Leads x (W.contents out.new) (spoken self.new) result }
        ensures same { self.new.session ≡ self.old.session }
    {
        let Stage::Stopped(mark) = self.session.stage() else {
            return Ok(());
        };
        self.number(Sign::Answer, b"stopped at ", mark.tick)?;
        self.send(Sign::Answer, out)
    }

    /// The end of input: an end at the least tick, but at least at 1.
    fn end_of_input<W: Write>(&mut self, out: &mut W) -> Result<Outcome, TalkFault>
        requires told { IsTold (W.contents out.old) (spoken self.old) }
        ensures { (x : Opening) → HasTold x (W.contents out.old) (spoken self.old) → Concludes x (W.contents out.new) result }
    {
        let tick = self.session.reached().max(1);
        self.finish(tick, out)
    }

    /// Takes what is left below a tick, and writes it with the last line. After a stop nothing is written.
    fn finish<W: Write>(&mut self, tick: u64, out: &mut W) -> Result<Outcome, TalkFault>
        requires told { IsTold (W.contents out.old) (spoken self.old) }
        requires least { self.old.session.reached ≤ tick }
        requires most { tick ≤ 10 ^ 12 }
        ensures { (x : Opening) → HasTold x (W.contents out.old) (spoken self.old) → Concludes x (W.contents out.new) result }
    {
        match self.session.stage() {
            Stage::Stopped(mark) => Ok(Outcome::Stop(mark)),
            // After a failure no command is read.
            Stage::Failed(_) => unreachable!(),
            Stage::Running => self.write_rest(tick, out),
        }
    }

    /// Takes what is left below a tick, and writes it with the last line.
    fn write_rest<W: Write>(&mut self, tick: u64, out: &mut W) -> Result<Outcome, TalkFault>
        requires told { IsTold (W.contents out.old) (spoken self.old) }
        requires running { self.old.session.stage ≡ going.Running }
        requires least { self.old.session.reached ≤ tick }
        requires most { tick ≤ 10 ^ 12 }
        ensures { (x : Opening) → HasTold x (W.contents out.old) (spoken self.old) → Concludes x (W.contents out.new) result }
    {
        match self.session.end(tick, out) {
            Ok(End::Over(outcome)) => {
                self.flush(out)?;
                Ok(outcome)
            }
            Ok(End::Below(_)) => unreachable!(),
            Err(fault) => Err(self.failed(fault)),
        }
    }
}

// What writes nothing.
impl Console<'_, '_> {
    /// The bytes of the trace and of the answers.
    fn written(&self) -> u128
        ensures { result ≡ bounded (count_of (spoken self.now)) }
    {
        self.session.written().saturating_add(self.answered)
    }

    /// Why the session is over, with the count of all bytes.
    fn failed(&self, fault: SessionFault) -> TalkFault
        ensures { IsFaultOf (spoken self.now) fault result }
    {
        match fault {
            SessionFault::Memory => TalkFault::Memory,
            SessionFault::Write(bytes) => TalkFault::Write(self.written().saturating_add(bytes)),
        }
    }

    /// Puts words in place of what is in the buffer.
    fn put(&mut self, words: &[u8]) -> Result<(), AllocError>
        ensures { spoken self.new ≡ spoken self.old }
    {
        self.text.clear();
        put_all(&mut self.text, &[words])
    }

    /// An answer by these words.
    fn words(&mut self, sign: Sign, words: &[u8]) -> Result<Reply, AllocError>
        ensures { spoken self.new ≡ spoken self.old }
    {
        self.put(words)?;
        Ok(Reply::Line(sign))
    }

    /// An answer that something is wrong.
    fn error(&mut self, words: &[u8]) -> Result<Reply, AllocError>
        ensures { spoken self.new ≡ spoken self.old }
    {
        self.words(Sign::Error, words)
    }

    /// An answer by a number after words.
    fn number(&mut self, sign: Sign, before: &[u8], number: u64) -> Result<Reply, AllocError>
        ensures { spoken self.new ≡ spoken self.old }
    {
        self.put(before)?;
        put_number(self.alloc, &mut self.text, number)?;
        Ok(Reply::Line(sign))
    }

    /// The answer to `until`.
    fn say_until(&mut self, tick: u64, end: Until) -> Result<Reply, AllocError>
        ensures { spoken self.new ≡ spoken self.old }
    {
        match end {
            Until::At => self.number(Sign::Answer, b"at ", tick),
            Until::Break(number, at) => self.say_break(number, at),
            // The line of the stop is the answer.
            Until::Stop(_) => Ok(Reply::Written),
            Until::Stopped => self.error(STOPPED),
            Until::Below(least) => self.number(Sign::Error, b"below ", least),
        }
    }

    fn say_break(&mut self, number: u64, at: u64) -> Result<Reply, AllocError>
        ensures { spoken self.new ≡ spoken self.old }
    {
        self.put(b"break ")?;
        put_number(self.alloc, &mut self.text, number)?;
        put_all(&mut self.text, &[b" at "])?;
        put_number(self.alloc, &mut self.text, at)?;
        Ok(Reply::Line(Sign::Answer))
    }

    /// The answer to `next`.
    fn say_next(&mut self, next: Next) -> Result<Reply, AllocError>
        ensures { spoken self.new ≡ spoken self.old }
    {
        match next {
            Next::Took(tick) => self.number(Sign::Answer, b"took ", tick),
            Next::Nothing => self.words(Sign::Answer, b"nothing waits"),
            Next::Stop(_) => Ok(Reply::Written),
            Next::Stopped => self.error(STOPPED),
        }
    }

    /// The answer to a command that takes no events. Those that do, and `end`, are errors here: `perform` and `obey` do
    /// them.
    fn reply_to(&mut self, command: Command<'_>) -> Result<Reply, AllocError>
        requires { (p : Past) × StandsBy self.old.session p }
        ensures { Stays (spoken self.old) (spoken self.new) }
    {
        match command {
            Command::Give(tick, event, values) => self.give([tick, event, values]),
            Command::Break(pattern) => self.set_break(pattern),
            Command::Clear(number) => self.clear_break(number),
            Command::Show(path) => self.show(path),
            Command::Peek => self.peek(),
            Command::Help => Ok(Reply::Help),
            Command::Wrong(usage) => self.error(usage.words()),
            Command::Until(_) => self.error(Usage::Until.words()),
            Command::Next => self.error(Usage::Next.words()),
            Command::End(_) => self.error(Usage::End.words()),
        }
    }

    fn give(&mut self, fields: [&[u8]; 3]) -> Result<Reply, AllocError>
        requires { (p : Past) × StandsBy self.old.session p }
        ensures { Stays (spoken self.old) (spoken self.new) }
    {
        let [tick, event, values] = fields;
        let given = self.session.give(tick, event, values);
        self.say_given(fields, given)
    }

    /// The answer to `give`.
    fn say_given(
        &mut self,
        fields: [&[u8]; 3],
        given: Result<GivenAnswer, GiveFault>,
    ) -> Result<Reply, AllocError>
        ensures { spoken self.new ≡ spoken self.old }
    {
        match given {
            Ok(given) => {
                put_row(self.alloc, &mut self.text, given.row, given.text.as_slice())?;
                Ok(Reply::Line(Sign::Answer))
            }
            Err(fault) => {
                let row = self.session.rows();
                put_fault(self.alloc, &mut self.text, self.system, row, fields, &fault)?;
                Ok(Reply::Line(Sign::Error))
            }
        }
    }

    fn set_break(&mut self, pattern: &[u8]) -> Result<Reply, AllocError>
        ensures { Stays (spoken self.old) (spoken self.new) }
    {
        let set = self.session.set_break(pattern);
        self.say_set(pattern, set)
    }

    /// The answer to `break`.
    fn say_set(&mut self, pattern: &[u8], set: Result<u64, BreakFault>) -> Result<Reply, AllocError>
        ensures { spoken self.new ≡ spoken self.old }
    {
        match set {
            Ok(number) => self.number(Sign::Answer, b"break ", number),
            Err(BreakFault::NotGoing) => self.error(STOPPED),
            Err(BreakFault::Many) => self.error(b"100 breaks are set; clear one first"),
            Err(BreakFault::Pattern) => {
                put_no_pattern(self.alloc, &mut self.text, pattern)?;
                Ok(Reply::Line(Sign::Error))
            }
            Err(BreakFault::Memory) => Err(AllocError),
        }
    }

    fn clear_break(&mut self, number: u64) -> Result<Reply, AllocError>
        ensures { Stays (spoken self.old) (spoken self.new) }
    {
        if let Stage::Stopped(_) = self.session.stage() {
            return self.error(STOPPED);
        }
        let is_found = self.session.clear_break(number);
        self.say_cleared(number, is_found)
    }

    /// The answer to `clear`.
    fn say_cleared(&mut self, number: u64, is_found: bool) -> Result<Reply, AllocError>
        ensures { spoken self.new ≡ spoken self.old }
    {
        if is_found {
            self.number(Sign::Answer, b"cleared ", number)
        } else {
            self.number(Sign::Error, b"there is no break ", number)
        }
    }

    fn show(&mut self, path: &[u8]) -> Result<Reply, AllocError>
        requires { (p : Past) × StandsBy self.old.session p }
        ensures { spoken self.new ≡ spoken self.old }
    {
        let path = in_upper(self.alloc, path)?;
        match self.session.show(path.as_slice())? {
            Some(text) => self.words(Sign::Answer, text.as_slice()),
            None => {
                put_no_instance(self.alloc, &mut self.text, path.as_slice())?;
                Ok(Reply::Line(Sign::Error))
            }
        }
    }

    fn peek(&mut self) -> Result<Reply, AllocError>
        requires { (p : Past) × StandsBy self.old.session p }
        ensures { spoken self.new ≡ spoken self.old }
    {
        if let Stage::Stopped(_) = self.session.stage() {
            return self.error(STOPPED);
        }
        match self.session.peek() {
            Some((tick, resource)) => {
                self.number(Sign::Answer, b"next ", tick)?;
                let resources = self.system.plan().resources.as_slice();
                if let Some(resource) = resources.get(resource as usize) {
                    put_all(&mut self.text, &[b" ", resource.name.as_bytes()])?;
                }
                Ok(Reply::Line(Sign::Answer))
            }
            None => self.words(Sign::Answer, b"nothing waits"),
        }
    }
}
