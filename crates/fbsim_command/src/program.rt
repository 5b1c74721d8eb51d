//! One call of the program, over any files and any outputs.

ghost use Rattle.std.specs.Io.KnownBytes.{Appends};
ghost use Rattle.std.specs.Prelude.{◌≡◌, ℕ, Bool, List, [], None, Ok, false, true, map, option_map, Result, IfOk, IfErr, IsTrue, OnOk, string_bytes};
ghost use Rattle.fb_sim.specs.Reports.{Hears};
ghost use Rattle.fb_sim.specs.declared.outcome.RunError.TheVariants as run;
ghost use Rattle.fbsim_command.specs.Command.{Checks, Does, Explains, ExplainsRefusal, IsDoneOf, IsEndOf, IsReported, Meets, Performs, Reports, ReportsOn, Runs};
ghost use Rattle.fbsim_line.specs.Line.{AreCall, AreNoCall, AskHelp, IsFault, IsHelp, IsTaken};
ghost use Rattle.fbsim_command.specs.Notes.{Noted, NotesOf, noted_of};
ghost use Rattle.fbsim_command.specs.WarningLines.{naming_of};
ghost use Rattle.fbsim_command.specs.Texts.{given_of, lines_of};
ghost use Rattle.fbsim_command.specs.Failures.{WritesPart, explained_text, status_of, reported};
ghost use Rattle.fbsim_command.specs.declared.failure.Failure.{Failure};
ghost use Rattle.fbsim_command.specs.declared.statuses.Done.{Done};
ghost use Rattle.fbsim_command.specs.declared.statuses.Done.TheVariants.{Helped};

use crate::call_names::Naming;
use crate::coverage::show_coverage;
use crate::draw::show_graph;
use crate::expect::{diff, expect};
use crate::failure::{Failure, failure_of_run};
use crate::inspect::show_insides;
use crate::late_rows::report_rows_after;
use crate::lint::check_and_warn;
use crate::located_stop::report_stop_after;
use crate::notes::{note_of, note_of_file};
use crate::opening::accept_inputs;
use crate::output::write_text;
use crate::own_lines::end_with;
use crate::selectors::{Sorting, sorting_of};
use crate::session::talk_to;
use crate::sources::{Source, Streams};
use crate::statuses::{Done, ExitStatus, status};
use crate::texts::{Texts, read_files};
use crate::wave::show;
use fb_phase::OpenGate;
use fb_sim::{
    Inputs, NoClock, Options, Outcome, ReportedRun, RunError, run_serial, run_with_clock,
    run_with_progress,
};
use fb_why::{Explanation, explain};
use fbsim_line::{Action, Call, LineFault, Task, parse};
use std::alloc::{AllocError, Global};
use std::io;
use std::io::Write;
use std::sync::Wait;
use std::thread::Threads;
use std::time::{Clock, CpuClock};

/// Says whether the inputs are accepted.
fn check_inputs<W: Write>(alloc: Global, inputs: &Inputs<'_>, out: &mut W) -> Result<Done, Failure>
    ensures { Checks false inputs.now (W.contents out.old) (W.contents out.new) result }
{
    accept_inputs(alloc, inputs)?;
    write_text(out, b"accepted\n")?;
    Ok(Done::Accepted)
}

fn done_of(outcome: Outcome) -> Done
    ensures { IsDoneOf outcome result }
{
    match outcome {
        Outcome::End(_) => Done::Ended,
        Outcome::Stop(_) => Done::Stopped,
    }
}

/// How a call ends as its run did.
fn end_of_run(end: Result<Outcome, RunError>) -> Result<Done, Failure>
    requires { IfErr end (λ error. error ≡ run.Failed → ⊥) }
    ensures { IsEndOf end result }
{
    match end {
        Ok(outcome) => Ok(done_of(outcome)),
        Err(error) => Err(failure_of_run(error)),
    }
}

/// Writes the trace of the inputs, from one agenda or with workers.
fn run_inputs<R: Threads + Wait + Sync, C: Clock + CpuClock, W: Write>(
    rt: &R,
    clock: &C,
    alloc: Global,
    inputs: &Inputs<'_>,
    options: Options,
    serial: bool,
    out: &mut W,
) -> Result<Done, Failure>
    ensures { Runs serial inputs.now options (W.contents out.old) (W.contents out.new) result }
{
    if serial {
        return end_of_run(run_serial(alloc, inputs, options, out));
    }
    end_of_run(run_with_clock(rt, alloc, inputs, options, out, &OpenGate, clock))
}

/// Writes the trace of the inputs with workers, and reports the progress of the run meanwhile. It says how that ends,
/// and whether standard error took all reports.
fn run_and_report<R: Threads + Wait + Sync, W: Write, E: Write>(
    rt: &R,
    alloc: Global,
    inputs: &Inputs<'_>,
    options: Options,
    out: &mut W,
    err: &mut E,
) -> (Result<Done, Failure>, bool)
    ensures run { Runs false inputs.now options (W.contents out.old) (W.contents out.new) result.0 }
    ensures reported { (reports : List ℕ) × ReportsOn false true inputs.now options (W.contents out.old) (W.contents out.new) result.0 reports × Hears result.1 (E.contents err.old) (E.contents err.new) reports }
{
    let ReportedRun { end, is_heard } = run_with_progress(rt, alloc, inputs, options, out, err);
    (end_of_run(end), is_heard)
}

/// What came of a call.
#[derive(Drop)]
struct Answer {
    end: Result<Done, Failure>,
    /// Whether standard error took all that is to be reported before the end.
    is_heard: bool,
    /// What is reported after the line of the failure.
    note: Result<Option<String>, AllocError>,
}

/// The answer of what ended so, with nothing else to report.
fn ended(end: Result<Done, Failure>) -> Answer
    ensures { result ≡ record { end = end; is_heard = true; note = Ok None } }
{
    Answer {
        end,
        is_heard: true,
        note: Ok(None),
    }
}

/// The answer of what ended so, with this note and nothing reported before.
fn ended_with(ended: (Result<Done, Failure>, Result<Option<String>, AllocError>)) -> Answer
    ensures { result ≡ record { end = ended.0; is_heard = true; note = ended.1 } }
{
    let (end, note) = ended;
    Answer {
        end,
        is_heard: true,
        note,
    }
}

/// A task, and what the call says of its files and of warnings.
#[derive(Clone, Copy)]
pub struct Asked<'t, 'n, 'k> {
    /// The names of the files of block types, in their order.
    pub types: &'t [&'n str],
    pub task: &'k Task<'n>,
    pub sorting: &'k Sorting,
}

/// Does with the files what a task asks for. It says how that ends, and whether standard error took all reports
/// meanwhile.
fn meet<R: Threads + Wait + Sync, C: Clock + CpuClock, W: Write, E: Write>(
    rt: &R,
    clock: &C,
    alloc: Global,
    naming: &Naming<'_, '_, '_>,
    asked: &Asked<'_, '_, '_>,
    texts: &Texts,
    out: &mut W,
    err: &mut E,
) -> (Result<Done, Failure>, bool)
    ensures done { Meets (given_of texts.now) asked.now.task.now.action (W.contents out.old) (W.contents out.new) result.0 }
    ensures reported { (reports : List ℕ) × Reports (naming_of naming.now) (given_of texts.now) asked.now.task.now.action asked.now.sorting.now (W.contents out.old) (W.contents out.new) result.0 reports × Hears result.1 (E.contents err.old) (E.contents err.new) reports }
{
    let inputs = texts.inputs();
    match asked.task.action {
        Action::Check { lint: true } => {
            check_and_warn(alloc, naming, &inputs, asked.sorting, out, err)
        }
        Action::Check { lint: false } => (check_inputs(alloc, &inputs, out), true),
        Action::Run {
            horizon,
            steps,
            workers,
            serial,
            form,
            progress,
        } => {
            let options = Options {
                horizon,
                steps,
                workers,
                form,
            };
            if progress && !serial {
                return run_and_report(rt, alloc, &inputs, options, out, err);
            }
            let end = run_inputs(rt, clock, alloc, &inputs, options, serial, out);
            (end, true)
        }
    }
}

/// The note to a call that ends so, where one is asked for.
pub(crate) fn note_to(
    alloc: Global,
    types: &[&str],
    task: &Task<'_>,
    end: &Result<Done, Failure>,
    texts: &Texts,
) -> Result<Option<String>, AllocError>
    ensures { IfOk (noted_of result) (NotesOf (map (λ t. t.now) types.now) task.now (lines_of texts.now) (given_of texts.now) end.now) }
{
    match end {
        Ok(_) => Ok(None),
        Err(failure) => note_of(alloc, types, task, failure, texts),
    }
}

/// Reads the files of a task, and does what it asks for.
fn perform<R: Threads + Wait + Sync, C: Clock + CpuClock, S: Source, W: Write, E: Write>(
    rt: &R,
    clock: &C,
    alloc: Global,
    asked: &Asked<'_, '_, '_>,
    source: &mut S,
    out: &mut W,
    err: &mut E,
) -> Answer
    ensures { (reports : List ℕ) × Hears result.is_heard (E.contents err.old) (E.contents err.new) reports
        × Performs S.gives source.old source.new (map (λ t. t.now) asked.now.types.now) asked.now.task.now asked.now.sorting.now (W.contents out.old) (W.contents out.new) result.end result.is_heard reports (noted_of result.note) }
{
    let Asked { types, task, .. } = *asked;
    match read_files(alloc, types, task, source) {
        Ok(texts) => {
            let naming = Naming {
                types,
                own: task.declaration,
                deploy: task.deploy,
                stimuli: task.stimuli,
                lines: texts.lines.as_slice(),
            };
            let (end, is_heard) = meet(rt, clock, alloc, &naming, asked, &texts, out, err);
            let is_heard = report_rows_after(alloc, task, &end, &texts, err, is_heard);
            let is_heard = report_stop_after(alloc, types, task, &end, &texts, err, is_heard);
            let note = note_to(alloc, types, task, &end, &texts);
            let end = end_with(alloc, types, task.declaration, &texts, end);
            Answer {
                end,
                is_heard,
                note,
            }
        }
        Err(unread) => Answer {
            end: Err(Failure::from(unread.fault)),
            is_heard: true,
            note: note_of_file(alloc, types, task, unread),
        },
    }
}

/// The lines of an explanation: what the refusal or the reason of this name means, two examples of it, and what to look
/// at.
fn explained(
    alloc: Global,
    name: &str,
    meaning: &str,
    first: &str,
    second: &str,
    look: &str,
) -> Result<String, AllocError>
    ensures { IfOk result (λ text. string_bytes text ≡ explained_text name.now meaning.now first.now second.now look.now) }
{
    Ok(format!(in alloc;
        "{name}: {meaning}\nFor example:\n- {first}\n- {second}\nLook at: {look}\n"
    )?)
}

/// Writes what the refusal or the reason of this name means.
fn explain_to<W: Write>(alloc: Global, name: &str, out: &mut W) -> Result<Done, Failure>
    ensures { ExplainsRefusal name.now (W.contents out.old) (W.contents out.new) result }
{
    let Some(explanation) = explain(name) else {
        let line = format!(in alloc; "error: no refusal or stop is called {name}\n")?;
        return Err(Failure::Line(line));
    };
    let Explanation {
        name,
        meaning,
        example,
        other,
        look,
    } = explanation;
    let text = explained(alloc, name, meaning, example, other, look)?;
    write_text(out, text.as_bytes())?;
    Ok(Done::Explained)
}

/// Writes the help, or the version.
fn help_to<W: Write>(help: &str, out: &mut W) -> Result<Done, Failure>
    ensures whole { IfOk result (λ d. (d ≡ Helped) × Appends (W.contents out.old) (W.contents out.new) help.now) }
    ensures part { IfErr result (WritesPart (W.contents out.old) (W.contents out.new) help.now) }
{
    write_text(out, help.as_bytes())?;
    Ok(Done::Helped)
}

/// Does what a call asks for.
fn answer_to<
    R: Threads + Wait + Sync,
    C: Clock + CpuClock,
    S: Source + Streams,
    W: Write,
    E: Write,
>(
    rt: &R,
    clock: &C,
    alloc: Global,
    call: &Call<'_>,
    source: &mut S,
    out: &mut W,
    err: &mut E,
) -> Answer
    ensures { (words : List (List ℕ)) → AreCall words call.now → IsTaken words → (reports : List ℕ) × Hears result.is_heard (E.contents err.old) (E.contents err.new) reports
        × Does S.gives S.opens source.old source.new words (W.contents out.old) (W.contents out.new) result.end result.is_heard reports (noted_of result.note) }
{
    match call {
        Call::Task(task, types, levels) => match sorting_of(alloc, levels) {
            Ok(sorting) => {
                let asked = Asked {
                    types: types.as_slice(),
                    task,
                    sorting: &sorting,
                };
                perform(rt, clock, alloc, &asked, source, out, err)
            }
            Err(failure) => ended(Err(failure)),
        },
        Call::Explain(name) => ended(explain_to(alloc, *name, out)),
        Call::Wave(wave, types) => ended_with(show(alloc, types.as_slice(), wave, source, out)),
        Call::Expect(call) => ended_with(expect(alloc, call, source, out)),
        Call::Diff(call) => ended_with(diff(alloc, call, source, out)),
        Call::Draw(call, types) => {
            ended_with(show_graph(alloc, types.as_slice(), call, source, out))
        }
        Call::Inspect(call, types) => {
            ended_with(show_insides(alloc, types.as_slice(), call, source, out))
        }
        Call::Coverage(call, types) => {
            ended_with(show_coverage(alloc, types.as_slice(), call, source, out))
        }
        Call::Session(call, types) => ended(talk_to(alloc, types.as_slice(), call, source, out)),
    }
}

/// How words end that name no call: the help or the version is written, if they ask for it.
fn end_without_call<W: Write>(fault: LineFault, out: &mut W) -> Result<Done, Failure>
    ensures { (words : List (List ℕ)) → (IsHelp fault → AskHelp words) → (IsFault fault → AreNoCall words) → Explains words (W.contents out.old) (W.contents out.new) result }
{
    match fault {
        LineFault::Help(text) => help_to(text.as_str(), out),
        LineFault::Fault(text) => Err(Failure::Line(text)),
        LineFault::Memory => Err(Failure::Memory),
    }
}

/// Does what the words ask for.
fn obey<'w, R: Threads + Wait + Sync, C: Clock + CpuClock, S: Source + Streams, W: Write, E: Write>(
    rt: &R,
    clock: &C,
    alloc: Global,
    words: &'w [&'w str],
    source: &mut S,
    out: &mut W,
    err: &mut E,
) -> Answer
    ensures { (reports : List ℕ) × Hears result.is_heard (E.contents err.old) (E.contents err.new) reports
        × Does S.gives S.opens source.old source.new (map (λ w. w.now) words.entry.now) (W.contents out.old) (W.contents out.new) result.end result.is_heard reports (noted_of result.note) }
{
    match parse(alloc, words) {
        Ok(call) => {
            let answer = answer_to(rt, clock, alloc, &call, source, out, err);
            // Dropped by one call: the end of its scope would prove the drop part by part.
            drop(call);
            answer
        }
        Err(fault) => ended(end_without_call(fault, out)),
    }
}

/// Reports a failure. A fault of the words has its line end already.
///
/// # Errors
/// That of the writer, which may have got a part.
fn report<E: Write>(err: &mut E, failure: &Failure) -> io::Result<()>
    ensures { OnOk result (Appends (E.contents err.old) (E.contents err.new) (reported failure.now)) }
{
    match failure {
        Failure::Line(text) => err.write_all(text.as_bytes()),
        failure => writeln!(err, "{failure}"),
    }
}

/// Reports how a call ends, if it failed: the line of its failure, and then the note. It says whether standard error
/// took it all, and memory was there for the note.
fn report_end<E: Write>(
    err: &mut E,
    end: &Result<Done, Failure>,
    note: &Result<Option<String>, AllocError>,
) -> bool
    ensures reported { IsTrue result → IsReported [] end.now (noted_of note.now) (E.contents err.old) (E.contents err.new) }
    ensures quiet { OnOk end.now (E.contents err.new ≡ E.contents err.old) }
{
    let Err(failure) = end else {
        return note.is_ok();
    };
    if report(err, failure).is_err() {
        return false;
    }
    match note {
        Ok(Some(note)) => writeln!(err, "{note}").is_ok(),
        Ok(None) => true,
        Err(_) => false,
    }
}

/// Does what `command_exit` does, and lets clocks decide how a run with workers goes on (`fb_sim::run_with_clock`).
pub fn command_with_clock<
    'w,
    R: Threads + Wait + Sync,
    C: Clock + CpuClock,
    S: Source + Streams,
    W: Write,
    E: Write,
>(
    rt: &R,
    clock: &C,
    alloc: Global,
    words: &'w [&'w str],
    source: &mut S,
    out: &mut W,
    err: &mut E,
) -> ExitStatus
    ensures { (end : Result Done Failure) × (is_whole : Bool) × (reports : List ℕ) × (note : Noted) × (result.status ≡ status_of end)
        × Does S.gives S.opens source.old source.new (map (λ w. w.now) words.entry.now) (W.contents out.old) (W.contents out.new) end is_whole reports note
        × (IsTrue result.is_reported → IsTrue is_whole × IsReported reports end note (E.contents err.old) (E.contents err.new))
        × OnOk end (reports ≡ [] → E.contents err.new ≡ E.contents err.old) }
{
    let answer = obey(rt, clock, alloc, words, source, out, err);
    // A standard error that fails changes no status.
    let is_end_reported = report_end(err, &answer.end, &answer.note);
    ExitStatus {
        status: status(&answer.end),
        is_reported: answer.is_heard && is_end_reported,
    }
}

/// Does what the words ask for, the program's own name first. Output goes to `out`. A failure is reported to `err`,
/// after the progress of a run, if that is asked for. A run with workers waits for them.
pub fn command_exit<'w, R: Threads + Wait + Sync, S: Source + Streams, W: Write, E: Write>(
    rt: &R,
    alloc: Global,
    words: &'w [&'w str],
    source: &mut S,
    out: &mut W,
    err: &mut E,
) -> ExitStatus
    ensures { (end : Result Done Failure) × (is_whole : Bool) × (reports : List ℕ) × (note : Noted) × (result.status ≡ status_of end)
        × Does S.gives S.opens source.old source.new (map (λ w. w.now) words.entry.now) (W.contents out.old) (W.contents out.new) end is_whole reports note
        × (IsTrue result.is_reported → IsTrue is_whole × IsReported reports end note (E.contents err.old) (E.contents err.new))
        × OnOk end (reports ≡ [] → E.contents err.new ≡ E.contents err.old) }
{
    command_with_clock(rt, &NoClock, alloc, words, source, out, err)
}

/// Does what the words ask for, the program's own name first, and answers the status of the program, 0 to 5. Output
/// goes to `out`. A failure is reported to `err`, after the progress of a run, if that is asked for; an `err` that fails
/// changes no status. A run with workers waits for them.
pub fn command<'w, R: Threads + Wait + Sync, S: Source + Streams, W: Write, E: Write>(
    rt: &R,
    alloc: Global,
    words: &'w [&'w str],
    source: &mut S,
    out: &mut W,
    err: &mut E,
) -> u8
    ensures { (end : Result Done Failure) × (is_whole : Bool) × (reports : List ℕ) × (note : Noted) × (result ≡ status_of end)
        × Does S.gives S.opens source.old source.new (map (λ w. w.now) words.entry.now) (W.contents out.old) (W.contents out.new) end is_whole reports note
        × OnOk end (reports ≡ [] → E.contents err.new ≡ E.contents err.old) }
{
    command_exit(rt, alloc, words, source, out, err).status
}
