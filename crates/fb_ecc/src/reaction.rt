//! The reaction of a basic block to an event.

ghost use Rattle.std.specs.Prelude.{◌≡◌, ◌+◌, ◌<◌, ◌≤◌, List, IfErr, Ok, length, true, false};
ghost use Rattle.fb_types.specs.Charts.{ChartReacts};
ghost use Rattle.fb_types.specs.Names.{Name};
ghost use Rattle.fb_types.specs.Numbers.{event_at, pair_up};
ghost use Rattle.fb_types.specs.Reactions.{with_values};
ghost use Rattle.fb_st.specs.Frames.{declared_in, values_of};
ghost use Rattle.fb_ecc.specs.Blocks.{BeginsWith, StillFit};
ghost use Rattle.fb_ecc.specs.Located.{AreAt};
ghost use Rattle.fb_ecc.specs.Indexes.{Ended, IsBlockOf, index, sampled};
ghost use Rattle.fb_ecc.specs.Sound.{IsSound};

use crate::action::perform_all;
use crate::chart::ChartState;
use crate::state::BasicState;
use crate::trial::first_exit;
use fb_st::{Frame, Meter};
use fb_types::{BasicType, Emits, Halt, Reason, Value};

/// Gives the variables of slots the values that were sampled.
#[inline(always)]
pub(crate) fn sample(slots: &[usize], values: &[Value], frame: &mut Frame)
    ensures sampled { (names : List Name) → AreAt (declared_in frame.old) names slots.now → values_of frame.new ≡ with_values (pair_up names values.now) (values_of frame.old) }
    ensures declared { declared_in frame.new ≡ declared_in frame.old }
{
    for (index, slot) in slots.iter().enumerate() {
        if let Some(value) = values.get(index) {
            frame.put_at(*slot, value);
        }
    }
}

/// Whether a chain may go on from the state of a row, where no event is present any more. If each of its transitions
/// waits for an event, none clears: then they are not tried, and their steps are begun at once.
#[inline(always)]
fn goes_on(row: &ChartState, meter: &mut Meter) -> Result<bool, Reason>
    ensures on { result ≡ Ok true → meter.new ≡ meter.old }
    ensures rests { result ≡ Ok false → (row.now.waits ≡ true) × (meter.old.left ≡ length row.now.exits + meter.new.left) }
    ensures fails { IfErr result (λ r. (r ≡ Reason.Steps) × (row.now.waits ≡ true) × (meter.old.left < length row.now.exits) × (meter.new.left ≡ 0)) }
    ensures fewer { meter.new.left ≤ meter.old.left }
{
    if !row.waits {
        return Ok(true);
    }
    let steps = row.exits.len() as u64;
    if meter.left < steps {
        meter.left = 0;
        return Err(Reason::Steps);
    }
    meter.left -= steps;
    Ok(false)
}

/// The reaction of a basic block to the event input at an index of its event inputs. `values` are the sampled
/// values of the variables WITH the event, in the order of the declaration. The event is present in the first
/// trial of the transitions only. Each transition that is tried and each action that is performed costs a
/// step, in addition to the steps of the statements. What is emitted is put after the other emissions, by the
/// allocator that these keep.
///
/// # Errors
/// `Halt::Stop` where a reason ends the chain: the emissions before it are kept. `Halt::Memory` where memory ran
/// out: the block is one of its type still, and no more is said.
pub fn react(
    state: &mut BasicState,
    block: &BasicType,
    event: u32,
    values: &[Value],
    meter: &mut Meter,
    emits: &mut Emits,
) -> Result<(), Halt>
    requires sound { IsSound block.now }
    requires block { IsBlockOf block.now state.old }
    requires event { event < length block.now.ports.event_inputs }
    ensures reacted { let start = index block.now state.old.state state.old.frame meter.old.left emits.old in
        let begun = record start { vars = sampled block.now event values.now (values_of state.old.frame) } in
        Ended result (ChartReacts block.now (event_at block.now.ports.event_inputs event)) begun (index block.now state.new.state state.new.frame meter.new.left emits.new) }
    ensures fewer { meter.new.left ≤ meter.old.left }

    // Also where memory runs out.
    ensures block { IsBlockOf block.now state.new }
    ensures kept { BeginsWith emits.old emits.new }
    ensures well_formed { StillFit block.now emits.old emits.new }
{
    let event = event as usize;
    let sampled = state.chart.parts().chart.sampled.as_slice();
    let slots = sampled[event].as_slice();
    sample(slots, values, &mut state.frame);
    let mut present = Some(event);
    'links: loop {
        let exits = state.chart.leaving(state.state);
        let parts = state.chart.parts();
        match first_exit(block, &parts.program, exits, present, &state.frame, meter)? {
            Some(exit) => {
                state.state = exit.target;
                let rows = parts.chart.rows.as_slice();
                let row = &rows[exit.target];
                let acts = row.acts.as_slice();
                perform_all(block, &state.chart, acts, &mut state.frame, meter, emits)?;
                if !goes_on(row, meter)? {
                    return Ok(());
                }
            }
            None => return Ok(()),
        }
        present = None;
    }
}
