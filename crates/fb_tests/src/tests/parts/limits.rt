//! One stimulus more than there may be, which no text can show, since one of this many rows is refused before. That
//! there may be 100,000 is a stored case.

use fb_check::accept;
use fb_read::read_library;
use fb_types::{Deploy, Items, Name, Stimulus};
use std::process::Abort;

#[test]
fn there_may_be_no_100001_stimuli(rt: HostRuntime) {
    let alloc = rt.alloc();
    let text = "APPLICATION A FBS D : E_DELAY; END_FBS END_APPLICATION";
    let library = read_library(alloc, text.as_bytes()).expect(&rt, "no library");
    let deploy = Deploy::single(alloc).expect(&rt, "memory");
    let mut stimuli = Vec::new(alloc);
    for tick in 0..100_001 {
        let stimulus = Stimulus {
            tick,
            instance: Name::from_text(alloc, "D").expect(&rt, "memory"),
            event: Name::from_text(alloc, "STOP").expect(&rt, "memory"),
            settings: Items::new(alloc),
        };
        stimuli.push(stimulus).expect(&rt, "memory");
    }
    let Err(error) = accept(alloc, library, deploy, stimuli) else {
        rt.panic("too many are accepted")
    };
    assert!(rt; error.number() == Some(30));
}
