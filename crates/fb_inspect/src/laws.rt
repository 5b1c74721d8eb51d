//! Laws of the definitions, which callers may use.

ghost use Rattle.fb_inspect.specs.Laws.{AcceptedIsNotWrong, AddsUp, DumpedBefore, FewerSteps, MoreSteps, OneLine, OneRow, OneTaking, ReactionsAreTakings, RefusedIsNoRun, RunsAreTakings, RunsBegin, RunsGoOn, ShownAlike, ShownBefore, SomeTaking, TextsShownBefore, TracesAreAccepted, WholeOrCut};

/// For proofs: marks of one trace after another are exactly those of what the takings of all of them do.
pub fn marks_add_up()
    ensures { AddsUp }
{}

/// A text is that of one line of the system at most, as far as its form shows it.
pub fn lines_are_determined()
    ensures { OneLine }
{}

/// A trace is not cut off. So where a trace may be cut off, a whole one is shown as a whole one.
pub fn traces_are_not_cut_off()
    ensures { WholeOrCut }
{}

/// There is at most one walk through a trace. What the blocks remember and its first line determine a taking, with its
/// lines and all that is shown of it. So lines determine the takings that they are of. Each line of an event that an
/// instance takes begins a taking.
pub fn takings_are_determined()
    ensures taking { OneTaking }
    ensures some { SomeTaking }
    ensures row { OneRow }
{}

/// What is written of a trace begins with what is shown of the first of its events, however it goes on. If another line
/// comes after theirs, that holds of a trace that stops for its steps too, whatever the limit is, and of dumps.
pub fn lines_are_shown_alike()
    ensures alike { ShownAlike }
    ensures before { ShownBefore }
    ensures texts { TextsShownBefore }
    ensures dumped { DumpedBefore }
{}

/// A reaction that does not run out of steps is the same with more of them, and one that does emits the first of what it
/// emits with more. So what is shown of a trace is not a matter of the limit that the run had.
pub fn more_steps_change_nothing()
    ensures same { MoreSteps }
    ensures begins { FewerSteps }
{}

/// Each reaction of a run is a taking of a walk through its trace: with the same lines, the same stop and the same
/// steps, and what the blocks remember after it is what the walk says.
pub fn reactions_are_takings()
    ensures { ReactionsAreTakings }
{}

/// The takings of a run, to any horizon and with any limit on steps, are those of a walk through its trace, with the
/// same lines, and the walk ends as the run does. So the contract of `inspect` leaves out no run. After the first line
/// of a taking the lines of each run go on with the emissions of that taking, as long as its steps last, and the next
/// line after takings begins one. So a text with other lines is that of no run.
pub fn runs_are_walks()
    ensures takings { RunsAreTakings }
    ensures lines { RunsGoOn }
    ensures next { RunsBegin }
{}

/// Each trace of each run is one that `inspect` accepts, with the limit that the run had: it is a trace of the system,
/// and each block in it emits what its reaction gives. In form Two the numbers of its keys are below 2^128, as those of
/// the program are.
pub fn traces_are_accepted()
    ensures { TracesAreAccepted }
{}

/// A text that is accepted is wrong at no line, as `inspect` says where it refuses one, whatever the text is.
pub fn accepted_is_not_wrong()
    ensures { AcceptedIsNotWrong }
{}

/// No trace of a run is refused: a text that is wrong at a line, as `inspect` says where it refuses one, is the trace
/// of no run with that limit, whatever the horizon and the form are.
pub fn refused_is_no_run()
    ensures { RefusedIsNoRun }
{}
