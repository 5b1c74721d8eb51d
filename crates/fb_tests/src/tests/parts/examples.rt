//! The examples of the documentation of `fb_check::accept`, `fb_net::Tree::take`, `fb_resource::Resource::run_to` and
//! `fb_wave::write_wave`. `tools/documents.py` compares them.

use super::chain::{accepted, built, opened};
use fb_check::accept;
use fb_inputs::read_stimuli;
use fb_net::{Arrival, Outbox};
use fb_read::read_library;
use fb_resource::WindowDone;
use fb_st::Meter;
use fb_types::{Deploy, Event, TimerAsk};
use fb_wave::write_wave;
use std::mem::forget;

#[test]
fn an_application_is_accepted(rt: HostRuntime) {
    let declaration = b"APPLICATION A\n\
        FBS S : E_RESTART; D : E_DELAY(DT := T#5ms); END_FBS\n\
        EVENT_CONNECTIONS S.COLD TO D.START; END_CONNECTIONS\n\
        END_APPLICATION";
    let library = read_library(rt.alloc(), declaration).expect(&rt, "library");
    let deploy = Deploy::single(rt.alloc()).expect(&rt, "memory");
    let stimuli = read_stimuli(rt.alloc(), b"tick,event,values\n2,D.STOP,\n").expect(
        &rt, "stimuli",
    );
    let system = accept(rt.alloc(), library, deploy, stimuli).expect(&rt, "accepted");
    assert!(rt; system.resources() == 1);
    drop(system);
}

#[test]
fn a_tree_takes_a_timer(rt: HostRuntime) {
    let declaration = "APPLICATION A FBS S : E_RESTART; END_FBS END_APPLICATION";
    let system = accepted(&rt, rt.alloc(), declaration, "", "tick,event,values\n");
    let mut tree = built(&rt, rt.alloc(), &system, 0);
    let mut outbox = Outbox {
        lines: Vec::new(rt.alloc()),
        outs: Vec::new(rt.alloc()),
        timer: TimerAsk::Keep,
    };
    let mut meter = Meter { left: 100 };
    assert!(rt; system.count() == 1 && system.resource(0) == 0);
    let arrival = Arrival {
        event: &Event::Timer(0),
        number: 0,
    };
    tree.take(&system, arrival, 0, &mut meter, &mut outbox)
        .expect(&rt, "taken");
    assert!(rt; outbox.lines.len() == 1 && outbox.outs.is_empty());
    forget((tree, outbox));
    drop(system);
}

#[test]
fn a_resource_runs_below_a_tick(rt: HostRuntime) {
    let declaration = "APPLICATION A\n\
        FBS S : E_RESTART; C : E_CYCLE(DT := T#3ms); END_FBS\n\
        EVENT_CONNECTIONS S.COLD TO C.START; END_CONNECTIONS\n\
        END_APPLICATION";
    let system = accepted(&rt, rt.alloc(), declaration, "", "tick,event,values\n");
    let resource = opened(&rt, rt.alloc(), &system, 0);
    assert!(rt; resource.clock() <= 8 && resource.stopped().is_none());
    let WindowDone::Ran {
        resource,
        lines,
        sent,
        stop,
    } = resource.run_to(rt.alloc(), &system, 8, 10_000)
    else {
        panic!(rt; "memory");
    };
    assert!(rt; resource.clock() == 8 && resource.next() == Some(9));
    assert!(rt; lines.len() == 4 && sent.is_empty() && stop.is_none());
    drop(resource);
    forget((lines, sent));
    drop(system);
}

#[test]
fn a_trace_is_shown_as_waves(rt: HostRuntime) {
    let declaration = "APPLICATION A FBS S : E_RESTART; END_FBS END_APPLICATION";
    let system = accepted(&rt, rt.alloc(), declaration, "", "tick,event,values\n");
    let mut trace: &[u8] = b"0 MAIN < S.COLD\nend 5\n";
    let mut dump = Vec::new(rt.alloc());
    write_wave(rt.alloc(), &system, &mut trace, &mut dump).expect(&rt, "waves");
    assert!(rt; dump.as_slice().ends_with(b"#5\n"));
    drop(system);
}
