//! The last line of a trace.

ghost use Rattle.std.specs.Prelude.{◌≡◌, ◌<◌, ◌^◌, ℕ, ◌++◌, [], ◌∷◌, IfNone, IfSome, MatchOption, codes, decimal};
ghost use Rattle.fb_types.specs.Text.{reason_text};
ghost use Rattle.fb_types.specs.OfSystem.{IsResource, resource_name};
ghost use Rattle.fb_wave.specs.OfSystem.{HasNames, IsLast, IsNoLast, IsNoStop, IsStop};

use crate::number::{magnitude, tick};
use crate::words::{after_front, cut};
use fb_system::System;
use fb_trace::Outcome;
use fb_types::{Reason, StopMark};

/// The number of the resource with a name.
pub fn resource_of(system: &System, name: &[u8]) -> Option<u32>
    ensures within { IfSome result (λ r. IsResource system.now r) }
    ensures named { IfSome result (λ r. name.now ≡ resource_name system.now r) }
    ensures none { IfNone result ((r : ℕ) → IsResource system.now r
        → name.now ≡ resource_name system.now r → ⊥) }
{
    system.facts(); // for the prover: what holds of every accepted system
    for resource in 0..system.resources() {
        if system.resource_name(resource) == name {
            return Some(resource as u32);
        }
    }
    None
}

/// The reason in a text after a blank, with its line feed.
fn reason_of(text: &[u8]) -> Option<Reason>
    ensures { MatchOption result ((r : Reason) → text.now ≡ codes " " ++ reason_text r ++ 10 ∷ [] → ⊥) (λ r. text.now ≡ codes " " ++ reason_text r ++ 10 ∷ []) }
{
    if text == b" steps\n".as_slice() {
        return Some(Reason::Steps);
    }
    if text == b" divide\n".as_slice() {
        return Some(Reason::Divide);
    }
    if text == b" range\n".as_slice() {
        return Some(Reason::Range);
    }
    None
}

/// The tick in a text, with its line feed.
fn horizon_of(text: &[u8]) -> Option<u64>
    ensures { MatchOption result ((h : ℕ) → h < 2 ^ 64 → text.now ≡ decimal h ++ 10 ∷ [] → ⊥) (λ h. text.now ≡ decimal h ++ 10 ∷ []) }
{
    let parts = cut(text)?;
    if parts.1 != b"\n".as_slice() {
        return None;
    }
    magnitude(parts.0)
}

/// The stop of a resource in a text, with its line feed.
fn stop_of(system: &System, text: &[u8]) -> Option<StopMark>
    ensures stop { IfSome result (IsStop system.now text.now) }
    ensures none { HasNames system.now → IfNone result (IsNoStop system.now text.now) }
{
    let tick = tick(text)?;
    let name = cut(tick.1)?;
    let resource = resource_of(system, name.0)?;
    let reason = reason_of(name.1)?;
    Some(StopMark {
        tick: tick.0,
        resource,
        reason,
    })
}

/// The end in a text, with its line feed.
pub fn read_last(system: &System, text: &[u8]) -> Option<Outcome>
    ensures last { IfSome result (IsLast system.now text.now) }
    ensures none { HasNames system.now → IfNone result (IsNoLast system.now text.now) }
{
    // A line that begins with a number is the line of an event.
    if let Some(b'0'..=b'9') = text.first() {
        return None;
    }
    if let Some(rest) = after_front(text, b"end ") {
        return Some(Outcome::End(horizon_of(rest)?));
    }
    Some(Outcome::Stop(stop_of(system, after_front(text, b"stop ")?)?))
}
