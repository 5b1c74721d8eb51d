//! How the steps of one tick were used, up to the stop of a simulation.

ghost use Rattle.std.specs.Prelude.{◌≡◌, ◌^◌, ◌<◌, ◌≤◌, ◌==◌, ◌&&◌, IfNone, IfOk, IfSome, IsTrue, None, OnOk, false, length, replicate};
ghost use Rattle.fb_types.specs.Headline.{stimuli_of};
ghost use Rattle.fb_types.specs.Keys.{without};
ghost use Rattle.fb_types.specs.States.{State};
ghost use Rattle.fb_types.specs.States as model;
ghost use Rattle.fb_types.specs.Takes.{begun};
ghost use Rattle.fb_types.specs.OfSystem.{IsResource, instance_count, opening_agenda, opening_state};
ghost use Rattle.fb_laws.specs.OfSystem.{IsTypedEvent};
ghost use Rattle.fb_net.specs.Events.{IsEventIn, IsKeyOf, event_of};
ghost use Rattle.fb_resource.specs.Counts.{meter_of};
ghost use Rattle.fb_sim_machine.specs.Machines.{IsAt, IsReady};
ghost use Rattle.fb_sim_machine.specs.Runs.{IsSpent};
ghost use Rattle.fb_stop.specs.Found.{NeverStops};
ghost use Rattle.fb_stop.specs.Spent.{AreNone, AreSpent, Charges, HasSpent, IsMost, is_of};

use crate::found::instance_of;
use crate::replay::site_of;
use fb_agenda::Least;
use fb_resource::TickCounts;
use fb_sim_machine::Machine;
use fb_system::System;
use fb_types::{Key, Reason};
use std::alloc::{AllocError, Global};

/// A tick of a resource.
#[derive(Clone, Copy)]
struct Moment {
    tick: u64,
    resource: u32,
}

/// The steps that are left at a tick, by the counts of a resource.
fn left_at(counts: &TickCounts, limit: u64, tick: u64) -> u64
    ensures { result ≡ (begun limit tick (meter_of counts.now)).left }
{
    match counts.tick {
        Some(at) => { if at == tick { counts.meter.left } else { limit } }
        None => limit,
    }
}

/// Adds steps to those of an instance.
fn charge(spent: &mut Vec<u64>, instance: u32, used: u64)
    requires { instance < length spent.old.items }
    ensures { Charges instance used spent.old.items spent.new.items }
{
    let index = instance as usize;
    spent[index] = spent[index].saturating_add(used);
}

/// Whether a key is one of a tick and a resource.
fn is_there(key: &Key, moment: Moment) -> bool
    ensures { result ≡ is_of moment key.now }
{
    key.tick == moment.tick && key.resource == moment.resource
}

/// Takes the event in the slot, which has left the agenda, and adds its steps up if it is one of the tick and the
/// resource. `Some` is the reason for which the resource stops.
///
/// # Errors
/// When memory runs out, or a link has carried 2^128 messages.
fn step(
    run: &mut Machine,
    spent: &mut Vec<u64>,
    moment: Moment,
    system: &System,
    limit: u64,
    least: &mut Least,
) -> Result<Option<Reason>, AllocError>
    requires ready { IsReady system.now limit least.old.key.tick run.old }
    requires represents { (s : State) × (a : model.Agenda) × IsAt system.now s (without least.old.key a) run.old }
    requires event { IsEventIn system.now least.old.key.resource least.old.event }
    requires own { IsKeyOf least.old.key least.old.event }
    requires typed { IsTypedEvent system.now (event_of system.now least.old.event) }
    requires named { IsResource system.now least.old.key.resource }
    requires early { least.old.key.tick ≤ 10 ^ 12 }
    requires few { limit ≤ 10 ^ 7 }
    requires counted { length spent.old.items ≡ instance_count system.now }
    ensures spent { IfOk result (λ stop. (s : State) (a : model.Agenda) → IsAt system.now s (without least.old.key a) run.old
        → HasSpent system.now limit moment s a least.old.key (event_of system.now least.old.event) stop run.new spent.old.items spent.new.items) }
    ensures ready { OnOk result (IsReady system.now limit least.old.key.tick run.new) }
    ensures less { IfOk result (λ stop. stop ≡ None → IsSpent limit least.old.key run.old.meters.items run.new.meters.items) }
{
    system.facts(); // for the prover: what holds of every accepted system
    run.clear_lines();
    let key = least.key;
    let at = site_of(system, &least.event);
    let resource = key.resource as usize;
    let before = left_at(&run.meters[resource], limit, key.tick);
    let stop = run.take_event(system, limit, least)?;
    let after = left_at(&run.meters[resource], limit, key.tick);
    if is_there(&key, moment) {
        charge(spent, instance_of(at), before.saturating_sub(after));
    }
    Ok(stop)
}

/// Takes all events below the horizon, least key first, or up to the first stop. It says whether there is one.
///
/// # Errors
/// When memory runs out, or a link has carried 2^128 messages.
fn go_on(
    run: &mut Machine,
    spent: &mut Vec<u64>,
    moment: Moment,
    system: &System,
    horizon: u64,
    limit: u64,
) -> Result<bool, AllocError>
    requires ready { IsReady system.now limit 0 run.old }
    requires at { IsAt system.now (opening_state system.now) (opening_agenda system.now (stimuli_of system.now)) run.old }
    requires early { horizon ≤ 10 ^ 12 }
    requires few { limit ≤ 10 ^ 7 }
    requires counted { length spent.old.items ≡ instance_count system.now }
    ensures spent { IfOk result (λ stops. IsTrue stops → AreSpent system.now horizon limit moment spent.old.items spent.new.items) }
    ensures none { IfOk result (λ stops. stops ≡ false → NeverStops system.now horizon limit) }
    ensures counted { OnOk result (length spent.new.items ≡ instance_count system.now) }
{
    let mut least = Least::new();
    while run.traffic.agenda.take_least_into(horizon, &mut least) {
        let stop = step(run, spent, moment, system, limit, &mut least)?;
        if let Some(_) = stop {
            return Ok(true);
        }
    }
    Ok(false)
}

/// How many steps the events of each instance used in a tick of a resource, up to the stop of the simulation. `None` if
/// it does not stop below the horizon. The simulation is run again for that, up to the stop, and nothing is written.
///
/// # Errors
/// When memory runs out, or a link has carried 2^128 messages.
pub(crate) fn steps_spent(
    alloc: Global,
    system: &System,
    horizon: u64,
    limit: u64,
    tick: u64,
    resource: u32,
) -> Result<Option<Vec<u64>>, AllocError>
    requires early { horizon ≤ 10 ^ 12 }
    requires few { limit ≤ 10 ^ 7 }
    ensures spent { IfOk result (λ o. IfSome o (λ v. AreSpent system.now horizon limit (record { tick = tick; resource = resource }) (replicate (instance_count system.now) 0) v.items)) }
    ensures none { IfOk result (λ o. IfNone o (NeverStops system.now horizon limit)) }
    ensures counted { IfOk result (λ o. IfSome o (λ v. length v.items ≡ instance_count system.now)) }
{
    let moment = Moment { tick, resource };
    let mut run = Machine::open(alloc, system)?;
    let mut spent = vec![in alloc; 0u64; system.count()]?;
    if go_on(&mut run, &mut spent, moment, system, horizon, limit)? {
        Ok(Some(spent))
    } else {
        Ok(None)
    }
}

/// The instance that used the most steps, the first one if there are several. `None` if none used any.
pub(crate) fn most(spent: &[u64]) -> Option<usize>
    ensures most { IfSome result (λ k. IsMost spent.now k) }
    ensures within { IfSome result (λ k. k < length spent.now) }
    ensures none { IfNone result (AreNone spent.now) }
{
    let mut most = 0;
    let mut found = None;
    for index in 0..spent.len() {
        if spent[index] > most {
            most = spent[index];
            found = Some(index);
        }
    }
    found
}
