//! The examples of the documentation of `fb_sim::run` and `fb_board::Board`. `tools/documents.py` compares them.

use super::board::square;
use super::phase::Squares;
use fb_board::Board;
use fb_phase::OpenGate;
use fb_sim::{Inputs, Options, Outcome, run};
use fb_types::Form;

#[test]
fn a_cycle_runs_for_eight_ticks(rt: HostRuntime) {
    let inputs = Inputs {
        declaration: b"APPLICATION A\n\
            FBS S : E_RESTART; C : E_CYCLE(DT := T#3ms); END_FBS\n\
            EVENT_CONNECTIONS S.COLD TO C.START; END_CONNECTIONS\n\
            END_APPLICATION",
        deploy: None,
        stimuli: None,
    };
    let options = Options {
        horizon: 8,
        steps: 10_000,
        workers: 2,
        form: Form::One,
    };
    let mut out = Vec::new(rt.alloc());
    let outcome = run(&rt, rt.alloc(), &inputs, options, &mut out, &OpenGate).expect(&rt, "run");
    assert!(rt; outcome == Outcome::End(8));
    let trace = "0 MAIN < S.COLD\n\
        0 MAIN > C.START DT=3\n\
        3 MAIN < C.EO\n\
        6 MAIN < C.EO\n\
        end 8\n";
    assert!(rt; out.as_slice() == trace.as_bytes());
}

#[test]
fn each_job_is_done_once(rt: HostRuntime) {
    let jobs = vec![in rt.alloc(); 3, 4].expect(&rt, "memory");
    let (board, opener, mut seats) = Board::<Squares>::open(rt.alloc(), jobs, 1).expect(
        &rt, "memory",
    );
    let mut seat = seats.remove(0);
    while let Some((slip, job)) = board.draw(&mut seat) {
        board.put_back(&mut seat, slip, square(job));
    }
    let done = board.close(opener, seat).expect(&rt, "all are back");
    assert!(rt; done.as_slice() == [9, 16].as_slice());
}
