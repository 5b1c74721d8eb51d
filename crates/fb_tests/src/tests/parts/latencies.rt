//! A table of latencies, by which a message overtakes another: the least ticks at which one can arrive that is sent
//! from a tick on. All were worked out by hand. When messages arrive is in stored cases.

use fb_link::earliest;
use fb_types::{Entry, Items, Latency};
use std::mem::forget;
use std::process::Abort;

/// What is sent before tick 10 takes 5 ticks, and what is sent from then on takes 1.
static FALLING: [Entry; 2] = [
    Entry {
        from: 0,
        latency: 5,
    },
    Entry {
        from: 10,
        latency: 1,
    },
];

#[test]
fn the_earliest_arrival_may_be_that_of_a_later_message(rt: HostRuntime) {
    let Ok(entries) = Items::from_slice(rt.alloc(), &FALLING) else {
        rt.panic("memory")
    };
    let latency = Latency::new(entries);
    assert!(rt; earliest(&latency, 0) == 5 && earliest(&latency, 5) == 10);
    // What is sent at 7 arrives at 12, after what is sent at 10.
    assert!(rt; earliest(&latency, 7) == 11 && earliest(&latency, 10) == 11);
    forget(latency);
    let Ok(steady) = Latency::constant(rt.alloc(), 2) else {
        rt.panic("memory")
    };
    assert!(rt; earliest(&steady, 3) == 5);
    forget(steady);
}
