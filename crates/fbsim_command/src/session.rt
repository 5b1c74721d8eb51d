//! A session, whose commands are on standard input.

ghost use Rattle.std.specs.Prelude.{map, ◌≡◌};
ghost use Rattle.fbsim_command.specs.Sessions.{Answers, TalksIn, end_of_talk};

use crate::failure::Failure;
use crate::opening::open_inputs;
use crate::own_lines::end_with;
use crate::sources::{Source, Streams};
use crate::statuses::Done;
use crate::texts::{read_files, run_files_of};
use fb_sim::{Inputs, discard};
use fb_trace::Outcome;
use fb_types::MOST_STEPS;
use fbsim_line::SessionCall;
use fbsim_session::{TalkFault, talk};
use std::alloc::Global;
use std::io::{BufRead, Write};

/// The name of standard input.
const INPUT: &str = "-";

/// How a session ended.
fn end_of(ended: Result<Outcome, TalkFault>) -> Result<Done, Failure>
    ensures { result ≡ end_of_talk ended }
{
    match ended {
        Ok(Outcome::End(_)) => Ok(Done::Ended),
        Ok(Outcome::Stop(_)) => Ok(Done::Stopped),
        Err(TalkFault::Memory) => Err(Failure::Memory),
        Err(TalkFault::Read) => Err(Failure::File),
        Err(TalkFault::Write(bytes)) => Err(Failure::Write(bytes)),
    }
}

/// Answers the commands of a session of what the inputs declare.
fn answer<R: BufRead, W: Write>(
    alloc: Global,
    inputs: &Inputs<'_>,
    call: &SessionCall<'_>,
    input: &mut R,
    out: &mut W,
) -> Result<Done, Failure>
    ensures { Answers inputs.now call.now (W.contents out.old) (W.contents out.new) result }
{
    // The parser takes no other limit.
    if call.steps < 1 {
        return Err(Failure::BadOption);
    }
    if call.steps > MOST_STEPS {
        return Err(Failure::BadOption);
    }
    let system = open_inputs(alloc, inputs)?;
    let ended = talk(alloc, &system, call.steps, call.form, input, out);
    // Dropped by one call: the end of its scope would prove the drop part by part.
    discard(system);
    end_of(ended)
}

/// Opens standard input, reads the files of a call, and answers the commands. Standard input is opened first, so a file
/// with its name is a second reader of it, which is a file fault.
pub(crate) fn talk_to<S: Source + Streams, W: Write>(
    alloc: Global,
    types: &[&str],
    call: &SessionCall<'_>,
    source: &mut S,
    out: &mut W,
) -> Result<Done, Failure>
    ensures { TalksIn S.gives S.opens source.old source.new (map (λ t. t.now) types.now) call.now (W.contents out.old) (W.contents out.new) result }
{
    let mut input = match source.open(alloc, INPUT) {
        Ok(input) => input,
        Err(fault) => return Err(Failure::from(fault)),
    };
    let task = run_files_of(call.declaration, call.deploy, call.stimuli);
    let texts = match read_files(alloc, types, &task, source) {
        Ok(texts) => texts,
        Err(unread) => return Err(Failure::from(unread.fault)),
    };
    let end = answer(alloc, &texts.inputs(), call, &mut input, out);
    end_with(alloc, types, call.declaration, &texts, end)
}
