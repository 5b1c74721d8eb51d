//! The parts of types and of instances that have marks.

ghost use Rattle.std.specs.Prelude.{◌≡◌, option_map};
ghost use Rattle.fb_types.specs.OfSystem.{IsInstance, kind_at, path_at};
ghost use Rattle.fb_coverage.specs.Openings as spec;
ghost use Rattle.fb_coverage.specs.OfSystem.{is_used};

use fb_check_names::TypeNumber;
use fb_system::System;
use fb_types::{BasicType, BlockType, EventPort, Name, Ports};

/// A kind of parts of a basic type.
#[derive(Clone, Copy)]
pub(crate) enum Part {
    States,
    Transitions,
    Algorithms,
    /// Event inputs.
    Events,
}

/// A side of the event ports of an instance.
#[derive(Clone, Copy)]
pub(crate) enum Side {
    Inputs,
    Outputs,
}

/// The number of parts of a basic type.
pub(crate) fn part_count(part: Part, basic: &BasicType) -> usize
    ensures { result ≡ spec.part_count part basic.now }
{
    match part {
        Part::States => basic.states.len(),
        Part::Transitions => basic.transitions.len(),
        Part::Algorithms => basic.algorithms.len(),
        Part::Events => basic.ports.event_inputs.len(),
    }
}

/// The event ports of a side.
pub(crate) fn events_of(side: Side, ports: &Ports) -> &[EventPort]
    ensures { result.now ≡ spec.events_of side ports.now }
{
    match side {
        Side::Inputs => ports.event_inputs.as_slice(),
        Side::Outputs => ports.event_outputs.as_slice(),
    }
}

/// The basic type of an instance, if it is a basic block.
pub(crate) fn basic_of(system: &System, instance: u32) -> Option<&BasicType>
    requires { IsInstance system.now instance }
    ensures { option_map (λ b. b.now) result ≡ spec.basic_of (kind_at system.now (path_at system.now instance)) }
{
    match system.kind(instance) {
        TypeNumber::Event(_) => None,
        TypeNumber::Declared(index) => match system.library().blocks.get(index) {
            Some(BlockType::Basic(basic)) => Some(basic),
            _ => None,
        },
    }
}

/// Whether some instance is a basic block of the type with this name.
pub(crate) fn is_used(system: &System, name: &Name) -> bool
    ensures { result ≡ is_used system.now name.now }
{
    system.facts(); // for the prover: what holds of every accepted system
    for instance in 0..system.count() {
        let Some(basic) = basic_of(system, instance as u32) else {
            continue;
        };
        if basic.name.is(name) {
            return true;
        }
    }
    false
}
