//! Laws of the definitions that contracts cite. Their functions do nothing when they run: they are there for their
//! contracts.

ghost use Rattle.fb_types.specs.ExampleValues.{AreAllEvaluated, AreJudged, AreOperators, AreQuotients, AreSelected};
ghost use Rattle.fb_types.specs.Examples.{CounterTrace, CycleTrace, DelayTrace, HeldCopyTrace, LinkTrace, LooperTrace, ShortDelayTrace, StepperTrace, StoppedDelayTrace, TwoLinksTrace};
ghost use Rattle.fb_types.specs.ExampleBodies.{CountingStops, CountingTrace, DivideTrace, RangeTrace, TwiceTrace};
ghost use Rattle.fb_types.specs.ExampleInputs.{AcceptedExamples};
ghost use Rattle.fb_types.specs.ExampleRuns.{CountsInFive, EmitsFourTimes, StopsInFour};
ghost use Rattle.fb_types.specs.Headline.{OneSimulation};

/// A system with its stimuli, a horizon and a limit on steps has at most one simulation: two simulations are the same,
/// key for key, with the same events, effects, lines and ending. So a system determines `the simulation`, and no
/// implementation has a choice.
pub fn one_simulation()
    ensures { OneSimulation }
{}

/// An E_CYCLE of three ticks that an E_RESTART starts goes off at 3 and 6, and not at the start nor at the
/// horizon.
pub fn worked_cycle()
    ensures { CycleTrace }
{}

/// An E_DELAY of four ticks that is started at 0 and again at 2 goes off once, at 4: a START while it runs changes
/// nothing, and its line still shows what was sampled. A STOP by a stimulus in the tick of the timer comes before the
/// timer and clears it. A time below 1 counts as 1, and its line shows the sampled value.
pub fn worked_delay()
    ensures restarted { DelayTrace }
    ensures stopped { StoppedDelayTrace }
    ensures short { ShortDelayTrace }
{}

/// An E_CTU counts each CU, past its PV too, and reports from its PV on that it is reached.
pub fn worked_counter()
    ensures { CounterTrace }
{}

/// An event that is emitted at 0 goes over a link of two ticks and is taken at 2, in the resource of its target.
pub fn worked_link()
    ensures { LinkTrace }
{}

/// Of two messages that arrive in one tick at one resource, that of the lower link is taken first, even if it was
/// sent later.
pub fn worked_two_links()
    ensures { TwoLinksTrace }
{}

/// A value that is emitted at 3 goes over a link of two ticks. A stimulus at 5 is taken before the message and
/// samples the old copy, and the message then brings the new value.
pub fn worked_held_copy()
    ensures { HeldCopyTrace }
{}

/// A chart whose two transitions in a row wait for the same event moves by one state for each event: the event is
/// present only in the first trial.
pub fn worked_stepper()
    ensures { StepperTrace }
{}

/// A chart without a resting state stops its resource when the steps of the tick are used up. The resource with a lower
/// number has run its whole tick, and the one with a higher number has not started it.
pub fn worked_looper()
    ensures chart { EmitsFourTimes }
    ensures trace { LooperTrace }
{}

/// A FOR up to the greatest value of its variable's type ends there, and is no fault. Each iteration costs a step in
/// addition to its statements. With one step less than the tick takes, the simulation stops after the emission.
pub fn worked_counting_loop()
    ensures counts { CountsInFive }
    ensures stops { StopsInFour }
    ensures trace { CountingTrace }
    ensures stopped_trace { CountingStops }
{}

/// A sum that the variable's type does not contain stops the simulation with `range`, and a zero divisor with `divide`.
/// The event that was taken has its line, and nothing is emitted.
pub fn worked_faults()
    ensures range { RangeTrace }
    ensures divide { DivideTrace }
{}

/// An event that goes through a composite is taken at its boundary, inside, and again on its way out, each time
/// under a key of its own, and brings the values along: the boundary's copy inwards, the published output outwards.
pub fn worked_composite()
    ensures { TwiceTrace }
{}

/// Operators and functions, quotients, numbers out of range, and the order in which faults are met, by examples.
pub fn worked_values()
    ensures operators { AreOperators }
    ensures quotients { AreQuotients }
    ensures judged { AreJudged }
    ensures evaluated { AreAllEvaluated }
    ensures selected { AreSelected }
{}

/// Examples with one resource and several, with parameters, links, a cut data connection, stimuli and charts are
/// accepted: no refusal applies to them.
pub fn worked_acceptance()
    ensures { AcceptedExamples }
{}
