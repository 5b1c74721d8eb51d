//! Keys of events.

ghost use Rattle.std.specs.Prelude.{◌≡◌, ◌↔◌, IsTrue};
ghost use Rattle.fb_types.specs.Keys.{key_cmp, local_key, message_key, stimulus_key, timer_key};

use std::cmp::Ordering;

/// The time and resource of an event. Events are taken in the order of their keys, which are compared part by part in
/// the order of the fields. Parts that a class does not use are 0.
///
/// | class | event | `a` | `b` |
/// |---|---|---|---|
/// | 0 | stimulus | its row, from 0 | 0 |
/// | 1 | timer | instance number | 0 |
/// | 2 | arrival over a link | link number | its number on that link, from 0 |
/// | 3 | local event | its number within that tick and resource, from 0 | 0 |
#[derive(Clone, Copy, PartialEq, Eq, PartialOrd, Ord)]
pub struct Key {
    /// In milliseconds of virtual time.
    pub tick: u64,
    /// The number of the resource.
    pub resource: u32,
    /// The class of the event, from 0 to 3.
    pub class: u8,
    /// The first number of the class.
    pub a: u128,
    /// The second number of the class.
    pub b: u128,
}

/// The class of stimuli.
const STIMULUS: u8 = 0;

/// The class of timers.
const TIMER: u8 = 1;

/// The class of arrivals over a link.
const ARRIVAL: u8 = 2;

/// The class of local events.
const LOCAL: u8 = 3;

impl Key {
    /// The key of the stimulus in this row, from 0.
    #[inline(always)]
    pub fn stimulus(tick: u64, resource: u32, row: u32) -> Key
        ensures { result ≡ stimulus_key tick resource row }
    {
        Key {
            tick,
            resource,
            class: STIMULUS,
            a: u128::from(row),
            b: 0,
        }
    }

    /// The key of the stimulus that was given in this row, from 0.
    pub fn given(tick: u64, resource: u32, row: u64) -> Key
        ensures { result ≡ stimulus_key tick resource row }
    {
        Key {
            tick,
            resource,
            class: STIMULUS,
            a: u128::from(row),
            b: 0,
        }
    }

    /// The key under which the timer of an instance goes off.
    #[inline(always)]
    pub fn timer(tick: u64, resource: u32, instance: u32) -> Key
        ensures { result ≡ timer_key tick resource instance }
    {
        Key {
            tick,
            resource,
            class: TIMER,
            a: u128::from(instance),
            b: 0,
        }
    }

    /// The key under which a message arrives at a resource, by its link and its number on that link, from 0.
    #[inline(always)]
    pub fn arrival(tick: u64, resource: u32, link: u32, number: u128) -> Key
        ensures { result ≡ message_key tick resource link number }
    {
        Key {
            tick,
            resource,
            class: ARRIVAL,
            a: u128::from(link),
            b: number,
        }
    }

    /// The key of a local event, by its number within the tick and the resource, from 0.
    #[inline(always)]
    pub fn local(tick: u64, resource: u32, number: u128) -> Key
        ensures { result ≡ local_key tick resource number }
    {
        Key {
            tick,
            resource,
            class: LOCAL,
            a: number,
            b: 0,
        }
    }

    /// Whether this is the key of a local event.
    #[inline(always)]
    pub fn is_local(&self) -> bool
        ensures local { IsTrue result ↔ (self.now.class ≡ 3) }
    {
        self.class == LOCAL
    }
}

/// The order of two keys, which is the order in which their events are taken.
pub fn compare(a: &Key, b: &Key) -> Ordering
    ensures { result ≡ key_cmp a.now b.now }
{
    a.cmp(b)
}
