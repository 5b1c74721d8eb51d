//! When messages arrive, by the latency that holds at the tick of sending. Ticks are milliseconds.

ghost use Rattle.std.specs.Prelude.{◌≡◌, ◌+◌, ◌^◌, ◌<◌, ◌≤◌};
ghost use Rattle.fb_types.specs.Flat as spec;
ghost use Rattle.fb_types.specs.OfSystem.{link_count};
ghost use Rattle.fb_system.specs.OfSystem.{arrival_over};
ghost use Rattle.fb_link.specs.Arrivals.{arrival_at, IsEarliest};

use fb_system::System;
use fb_types::Latency;

/// The latency for a tick of sending: that of the last entry whose tick is at most the tick of sending.
fn latency_at(latency: &Latency, sent_tick: u64) -> u64
    ensures value { result ≡ spec.latency_at latency.now sent_tick }
    ensures least { 1 ≤ result }
    ensures most { result ≤ 10 ^ 6 }
{
    // The first entry is from tick 0, so this 1 is never the result.
    let mut ticks = 1;
    for entry in latency.entries() {
        if entry.from <= sent_tick {
            ticks = entry.latency;
        }
    }
    ticks
}

/// The tick at which a message arrives that is sent at a tick over a link with these latencies.
fn arrival_by(latency: &Latency, sent_tick: u64) -> u64
    requires { sent_tick + 10 ^ 6 < 2 ^ 64 }
    ensures value { result ≡ arrival_at latency.now sent_tick }
    ensures later { sent_tick < result }
    ensures soon { result ≤ sent_tick + 10 ^ 6 }
{
    sent_tick + latency_at(latency, sent_tick)
}

/// The tick at which a message arrives that is sent over a link at a tick: the tick of sending plus the latency of the
/// last entry of the link whose tick is at most the tick of sending. It is later than the tick of sending, by 1,000,000
/// ticks at most, which must fit in 64 bits: any tick of a run leaves that room.
pub fn arrival(system: &System, link: u32, sent_tick: u64) -> u64
    requires link { link < link_count system.now }
    requires room { sent_tick + 10 ^ 6 < 2 ^ 64 }
    ensures value { result ≡ arrival_over system.now link sent_tick }
    ensures later { sent_tick < result }
    ensures soon { result ≤ sent_tick + 10 ^ 6 }
{
    arrival_by(system.latency(link as usize), sent_tick)
}

/// The least tick at which a message can arrive that is sent at this tick or later over a link with these latencies. It
/// is later than this tick, by 1,000,000 ticks at most. The result must fit in 64 bits. If a latency falls, a message
/// that is sent later may arrive first.
pub fn earliest(latency: &Latency, from: u64) -> u64
    requires { from + 10 ^ 6 < 2 ^ 64 }
    ensures value { IsEarliest latency.now from result }
    ensures later { from < result }
    ensures soon { result ≤ from + 10 ^ 6 }
{
    let mut least = arrival_by(latency, from);
    // During one entry, the message that is sent first arrives first.
    for entry in latency.entries() {
        if from < entry.from {
            least = least.min(entry.from + entry.latency);
        }
    }
    least
}
