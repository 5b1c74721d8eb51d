//! Finds instances, events and signs by their texts in lines.

ghost use Rattle.std.specs.Prelude.{◌≡◌, ◌<◌, IfNone, IfSome, MatchOption, length};
ghost use Rattle.fb_types.specs.Numbers.{event_at};
ghost use Rattle.fb_types.specs.Text.{path_text};
ghost use Rattle.fb_types.specs.OfSystem.{IsInstance, path_at};
ghost use Rattle.fb_wave.specs.Ports.{events};
ghost use Rattle.fb_inspect.specs.refused.LineFaults.{IsNoEvent, IsNoSign, sign_text};
ghost use Rattle.fb_inspect.specs.OfSystem.{IsNoInstance};

use fb_system::System;
use fb_types::{EventPort, Ports};

/// The most events of one interface that lines can number.
const MOST_EVENTS: usize = 1 << 32;

/// The number of the instance with a path.
pub(crate) fn instance_of(system: &System, path: &[u8]) -> Option<u32>
    ensures within { IfSome result (λ i. IsInstance system.now i) }
    ensures found { IfSome result (λ i. path.now ≡ path_text (path_at system.now i)) }
    ensures none { IfNone result (IsNoInstance system.now path.now) }
{
    system.facts(); // for the prover: what holds of every accepted system
    for instance in 0..system.count() {
        if system.path(instance as u32) == path {
            return Some(instance as u32);
        }
    }
    None
}

/// The event inputs of an interface, or its event outputs.
pub(crate) fn events_of(ports: &Ports, taken: bool) -> &[EventPort]
    ensures { result.now ≡ events ports.now taken }
{
    if taken {
        ports.event_inputs.as_slice()
    } else {
        ports.event_outputs.as_slice()
    }
}

/// The number of the event with a name.
pub(crate) fn event_of(events: &[EventPort], name: &[u8]) -> Option<u32>
    ensures within { IfSome result (λ e. e < length events.now) }
    ensures found { IfSome result (λ e. name.now ≡ event_at events.now e) }
    ensures none { IfNone result (IsNoEvent events.now name.now) }
{
    for event in 0..events.len().min(MOST_EVENTS) {
        if events[event].name.as_bytes() == name {
            return Some(event as u32);
        }
    }
    None
}

/// Whether an event with this sign is taken (`>`) or emitted (`<`). `None` for another sign.
pub(crate) fn taken_of(sign: &[u8]) -> Option<bool>
    ensures { MatchOption result (IsNoSign sign.now) (λ taken. sign.now ≡ sign_text taken) }
{
    if sign == b">".as_slice() {
        return Some(true);
    }
    if sign == b"<".as_slice() {
        return Some(false);
    }
    None
}
