//! What is wrong with a line after its tick.

ghost use Rattle.std.specs.Prelude.{◌≡◌, List, ℕ, IfErr, IfOk, MatchOption};
ghost use Rattle.fb_wave.specs.Words.{AreThree};
ghost use Rattle.fb_wave.specs.OfSystem.{IsPortOf};
ghost use Rattle.fb_inspect.specs.refused.LineFaults.{sign_text};
ghost use Rattle.fb_inspect.specs.OfSystem.{IsOfPort, IsPortFault, path_event};

use crate::refused::fault_names::{event_of, events_of, instance_of, taken_of};
use crate::refused::fault_values::port_values_fault;
use crate::refused::fault_words::{ThreeWords, halves, three_words};
use crate::refused::line_fault::PortFault;
use fb_system::System;
use fb_wave::Port;
use fb_wave::last::resource_of;

/// The port of the second and the third word of a line.
fn port_of<'a>(system: &System, words: ThreeWords<'a>) -> Result<Port, PortFault<'a>>
    ensures port { IfOk result (IsPortOf system.now) }
    ensures sign { IfOk result (λ p. words.entry.sign.now ≡ sign_text p.taken) }
    ensures named { IfOk result (λ p. words.entry.port.now ≡ path_event system.now p) }
    ensures fault { (text : List ℕ) → AreThree text words.entry.resource.now words.entry.sign.now words.entry.port.now words.entry.rest.now
        → IfErr result (IsPortFault system.now text) }
{
    let Some(taken) = taken_of(words.sign) else {
        return Err(PortFault::Sign(words.sign));
    };
    let Some(parts) = halves(words.port, b'.') else {
        return Err(PortFault::NoEvent(words.port));
    };
    let Some(instance) = instance_of(system, parts.0) else {
        return Err(PortFault::Instance(parts.0));
    };
    match event_of(events_of(system.ports(instance), taken), parts.1) {
        Some(event) => Ok(Port {
            instance,
            event,
            taken,
        }),
        None => Err(PortFault::Event {
            instance,
            taken,
            name: parts.1,
        }),
    }
}

/// What is wrong after the tick of a line.
pub(crate) fn port_fault<'a>(system: &System, text: &'a [u8]) -> Option<PortFault<'a>>
    ensures { MatchOption result (IsOfPort system.now text.now) (IsPortFault system.now text.now) }
{
    let Some(words) = three_words(text) else {
        return Some(PortFault::Short);
    };
    let Some(_resource) = resource_of(system, words.resource) else {
        return Some(PortFault::Resource(words.resource));
    };
    let port = match port_of(system, words) {
        Ok(port) => port,
        Err(fault) => return Some(fault),
    };
    system.facts(); // for the prover: what holds of every accepted system
    let holder = system.resource(port.instance);
    if system.resource_name(holder) != words.resource {
        return Some(PortFault::Elsewhere(port));
    }
    match port_values_fault(system, port, words.rest) {
        Some(fault) => Some(PortFault::Values(port, fault)),
        None => None,
    }
}
