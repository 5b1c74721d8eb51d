//! The events that wait at the beginning: the stimuli, and the timers that start by themselves.

ghost use Rattle.std.specs.Prelude.{◌≡◌, ◌+◌, ◌<◌, length, IfOk, OnOk, Some};
ghost use Rattle.fb_types.specs.Keys.{found, or_else};
ghost use Rattle.fb_types.specs.declared.key.Key as keys;
ghost use Rattle.fb_types.specs.declared.run.Event.TheVariants.{Stimulus};
ghost use Rattle.fb_types.specs.OfSystem.{IsInstance, IsResource, instance_count, link_count, opening_state, path_at, resource_at};
ghost use Rattle.fb_resource.specs.Openings.{AreOpenedApart, HasTimersBelow, IsOpened, IsStimulusKey, is_of};
ghost use Rattle.fb_resource.specs.Posts.{CountsAre};
ghost use Rattle.fb_resource.specs.Waiting.{IsInOrder, MayWait, meaning};
ghost use Rattle.fb_resource.specs.OfSystem.{restart_of};

use fb_agenda::Agenda;
use fb_check_names::TypeNumber;
use fb_system::System;
use fb_types::{EventKind, Key, TimerAsk};
use std::alloc::{AllocError, Global};

/// Whether a resource is the one that is asked for, or all are.
fn is_asked(of: Option<u32>, resource: u32) -> bool
    ensures { result ≡ is_of of resource }
{
    match of {
        None => true,
        Some(one) => resource == one,
    }
}

/// The resource of an instance.
fn resource_of(system: &System, instance: u32) -> u32
    requires { IsInstance system.now instance }
    ensures resource { result ≡ resource_at system.now (path_at system.now instance) }
    ensures named { IsResource system.now result }
{
    // for the prover: what holds of each system
    system.facts();
    system.resource(instance) as u32
}

/// How many stimuli there are, at most 100,000.
fn row_count(system: &System) -> u32
    ensures { result ≡ length system.now.stimuli }
{
    // for the prover: what holds of each system
    system.facts();
    system.stimuli().len() as u32
}

/// The key of the stimulus at a row.
fn key_of_stimulus(system: &System, row: u32) -> Key
    requires { row < length system.now.stimuli }
    ensures key { IsStimulusKey system.now row result }
    ensures waits { MayWait system.now 0 result (Stimulus row) }
{
    // for the prover: what holds of each system
    system.facts();
    let stimulus = system.stimulus(row);
    let resource = resource_of(system, stimulus.target.instance);
    Key::stimulus(stimulus.tick, resource, row)
}

/// Starts the timer of an instance at tick 0, where it is an E_RESTART.
fn start_restart(agenda: &mut Agenda, system: &System, instance: u32) -> Result<(), AllocError>
    requires instance { IsInstance system.now instance }
    requires due { length agenda.old.due ≡ instance_count system.now }
    requires order { IsInOrder system.now 0 agenda.old }
    requires timers { HasTimersBelow instance agenda.old }
    ensures put { OnOk result ((j : keys.Key) → meaning system.now agenda.new j ≡ or_else (found j (restart_of system.now (path_at system.now instance))) (meaning system.now agenda.old j)) }
    ensures order { OnOk result (IsInOrder system.now 0 agenda.new) }
    ensures timers { OnOk result (HasTimersBelow (instance + 1) agenda.new) }
    ensures due { length agenda.new.due ≡ length agenda.old.due }
{
    // for the prover: what holds of each system
    system.facts();
    match system.kind(instance) {
        TypeNumber::Event(kind) => {
            if let EventKind::Restart = kind {
                let resource = resource_of(system, instance);
                agenda.set_timer(resource, instance, TimerAsk::At(0))?;
            }
            Ok(())
        }
        TypeNumber::Declared(_) => Ok(()),
    }
}

/// An agenda with the events of the opening: of one resource, or of all where none is named. It looks at each stimulus
/// and each instance.
///
/// # Errors
/// When memory runs out.
pub fn open_agenda(alloc: Global, system: &System, of: Option<u32>) -> Result<Agenda, AllocError>
    ensures { IfOk result (IsOpened system.now of) }
{
    let mut agenda = Agenda::new(alloc, system.count())?;
    // The stimuli, each at its tick and under its row.
    for row in 0..row_count(system) {
        let key = key_of_stimulus(system, row);
        if is_asked(of, key.resource) {
            agenda.put_stimulus(key.tick, key.resource, row)?;
        }
    }
    // The timers that start by themselves.
    // for the prover: what holds of each system
    system.facts();
    for instance in 0..system.count() {
        let number = instance as u32;
        if is_asked(of, resource_of(system, number)) {
            start_restart(&mut agenda, system, number)?;
        }
    }
    Ok(agenda)
}

/// The agendas of all resources, each with its own events of the opening. It looks at each stimulus and each instance
/// once.
///
/// # Errors
/// When memory runs out.
pub fn open_agendas(alloc: Global, system: &System) -> Result<Vec<Agenda>, AllocError>
    ensures { IfOk result (λ v. AreOpenedApart system.now v.items) }
{
    let mut agendas = Vec::new(alloc);
    for _ in 0..system.resources() {
        agendas.push(Agenda::new(alloc, system.count())?)?;
    }
    // The stimuli, each at its tick and under its row.
    for row in 0..row_count(system) {
        let key = key_of_stimulus(system, row);
        agendas[key.resource as usize].put_stimulus(key.tick, key.resource, row)?;
    }
    // The timers that start by themselves.
    // for the prover: what holds of each system
    system.facts();
    for instance in 0..system.count() {
        let number = instance as u32;
        let resource = resource_of(system, number);
        start_restart(&mut agendas[resource as usize], system, number)?;
    }
    Ok(agendas)
}

/// For each link the count of the messages that were sent on it, before the first event.
///
/// # Errors
/// When memory runs out.
pub fn open_sent(alloc: Global, system: &System) -> Result<Vec<u128>, AllocError>
    ensures counted { IfOk result (λ v. length v.items ≡ link_count system.now) }
    ensures counts { IfOk result (λ v. CountsAre v.items (opening_state system.now).sent) }
{
    vec![in alloc; 0u128; system.links()]
}
