//! The actions of a state.

ghost use Rattle.std.specs.Prelude.{◌≡◌, ◌++◌, ◌∷◌, [], IfOk, OnErr, OnOk, map, ℕ, List, Option};
ghost use Rattle.fb_types.specs.Names.{Name};
ghost use Rattle.fb_types.specs.Charts.{Acts, emitting};
ghost use Rattle.fb_types.specs.declared.library.Action.{Action};
ghost use Rattle.fb_st.specs.Frames.{declared_in, values_of};
ghost use Rattle.fb_ecc.specs.Blocks.{AreKept, AreShown, BeginsWith, IsFrameOf, StillFit};
ghost use Rattle.fb_ecc.specs.Actions.{AreActions, IsOutput};
ghost use Rattle.fb_ecc.specs.Located.{AreAt};
ghost use Rattle.fb_ecc.specs.Indexes.{Ended, index};
ghost use Rattle.fb_ecc.specs.Programs.{IsSharedOf};
ghost use Rattle.fb_ecc.specs.Sound.{Each, IsSound};

use crate::chart::Act;
use crate::shared::SharedChart;
use fb_st::{Frame, Meter, exec, exec_compiled};
use fb_types::{BasicType, Emission, Emits, Halt, Items, Values};
use std::alloc::{AllocError, Global};

/// What the variables of slots hold, in their order.
#[inline(never)]
fn shown_values(alloc: Global, slots: &[usize], frame: &Frame) -> Result<Values, AllocError>
    ensures { IfOk result (λ values. (names : List Name) → AreAt (declared_in frame.now) names slots.now → values ≡ map (values_of frame.now) names) }
{
    let mut values = Values::new(alloc);
    for slot in slots {
        values.push(frame.value_at(*slot))?;
    }
    Ok(values)
}

/// Emits the output event at an index with what the variables of slots hold.
#[inline(never)]
fn emit_several(
    event: u32,
    slots: &[usize],
    frame: &Frame,
    emits: &mut Emits,
) -> Result<(), AllocError>
    ensures ok { OnOk result ((names : List Name) → AreAt (declared_in frame.now) names slots.now → emits.new ≡ emits.old ++ record { event = event; values = map (values_of frame.now) names } ∷ []) }
    ensures err { OnErr result (emits.new ≡ emits.old) }
{
    let values = shown_values(emits.allocator(), slots, frame)?;
    emits.push(Emission { event, values })
}

/// Emits the output event of an action, if it has one, with the values of the variables WITH it.
#[inline(always)]
fn emit(
    block: &BasicType,
    event: Option<usize>,
    shown: &[Items<usize>],
    frame: &Frame,
    emits: &mut Emits,
) -> Result<(), AllocError>
    requires sound { IsSound block.now }
    requires declared { IsFrameOf block.now frame.now }
    requires shown { AreShown block.now shown.now }
    requires event { (name : Option Name) × IsOutput block.now event name }
    ensures emitted { (name : Option Name) (state left : ℕ) → IsOutput block.now event name →
        OnOk result (index block.now state frame.now left emits.new ≡ emitting block.now name (index block.now state frame.now left emits.old)) }
    ensures begins { BeginsWith emits.old emits.new }
    ensures well_formed { StillFit block.now emits.old emits.new }
{
    match event {
        Some(event) => {
            // for the prover: how many event outputs there are
            block.ports.event_outputs.count();
            let slots = shown[event].as_slice();
            // With one variable, as mostly, there is no list of values: an event of `charts` takes 1.5 % less.
            if let [slot] = slots {
                return emits.push_one(event as u32, frame.value_at(*slot));
            }
            emit_several(event as u32, slots, frame, emits)
        }
        None => Ok(()),
    }
}

/// Actions in their order, those of a state or one of them. Each costs a step, and has its algorithm, mostly in its
/// compiled form, and then its output event.
#[inline(always)]
pub(crate) fn perform_all(
    block: &BasicType,
    chart: &SharedChart,
    acts: &[Act],
    frame: &mut Frame,
    meter: &mut Meter,
    emits: &mut Emits,
) -> Result<(), Halt>
    requires sound { IsSound block.now }
    requires chart { IsSharedOf block.now chart.now }
    requires declared { IsFrameOf block.now frame.old }
    requires acts { (actions : List Action) × AreActions block.now acts.now actions }
    ensures performed { (actions : List Action) (state : ℕ) → AreActions block.now acts.now actions →
        Ended result (Acts block.now actions meter.old.left) (index block.now state frame.old meter.old.left emits.old) (index block.now state frame.new meter.new.left emits.new) }
    ensures kept { AreKept block.now frame.old meter.old emits.old frame.new meter.new emits.new }
{
    let parts = chart.parts();
    let program = &parts.program;
    let shown = parts.chart.shown.as_slice();
    for act in acts {
        meter.step()?;
        if let Some(algorithm) = act.algorithm {
            let codes = program.body(algorithm);
            match exec_compiled(codes, &program.layout, frame, meter) {
                Some(end) => {
                    end?;
                }
                None => {
                    exec(&block.algorithms.as_slice()[algorithm].body, frame, meter)?;
                }
            }
        }
        emit(block, act.output, shown, frame, emits)?;
    }
    Ok(())
}
