//! The reports of a run come between the lines of one hundredth and those of the next. Both writers share counts, so
//! that each sees how far the other one is.

use super::later_rounds::lines_in;
use super::{inputs_of, to};
use fb_sim::{Outcome, run_with_progress};
use std::alloc::Global;
use std::io;
use std::io::Write;
use std::mem::forget;
use std::sync::atomic::Ordering::SeqCst;
use std::sync::atomic::{AtomicBool, AtomicU64};

/// A cycle of one tick: two lines at tick 0, and one at each tick after it.
const EACH_TICK: &str = "APPLICATION A FBS S : E_RESTART; C : E_CYCLE(DT := T#1ms); END_FBS\n\
    EVENT_CONNECTIONS S.COLD TO C.START; END_CONNECTIONS END_APPLICATION";

/// A hundredth of this horizon is one tick.
const HORIZON: u64 = 100;

/// How many lines the trace has, and how many reports there are.
const LINES: u64 = 102;

const REPORTS: u64 = 100;

/// How many lines and reports were written.
#[derive(Drop)]
struct Order {
    lines: AtomicU64,
    reports: AtomicU64,
    is_wrong: AtomicBool,
}

impl Order {
    fn new() -> Order {
        Order {
            lines: AtomicU64::new(0),
            reports: AtomicU64::new(0),
            is_wrong: AtomicBool::new(false),
        }
    }

    /// Notes that some lines or reports are written, and whether that is their place.
    fn note(&self, are_reports: bool, count: u64) {
        let is_right = if are_reports {
            let before = self.reports.fetch_add(count, SeqCst);
            self.lines.load(SeqCst) == before.saturating_add(2)
        } else {
            let before = self.lines.fetch_add(count, SeqCst);
            self.reports.load(SeqCst) == before.saturating_sub(1)
        };
        if !is_right {
            self.is_wrong.store(true, SeqCst);
        }
    }
}

/// Takes the lines or the reports. The first of some lines is of a tick whose number is that of the reports before it.
/// Before each report the lines below its tick were written, and no other.
#[derive(Drop)]
struct Side<'a> {
    order: &'a Order,
    takes_reports: bool,
    got: Vec<u8>,
}

impl<'a> Write for Side<'a> {
    ghost use Rattle.std.specs.Prelude.{Some};

    ghost contents = { λ w. Some w.got.items };

    fn write(&mut self, bytes: &[u8]) -> io::Result<usize> {
        self.order
            .note(self.takes_reports, u64::from(lines_in(bytes)));
        self.got.extend_from_slice(bytes)?;
        Ok(bytes.len())
    }

    fn flush(&mut self) -> io::Result<()> {
        Ok(())
    }
}

#[test]
fn reports_come_between_the_lines(rt: HostRuntime) {
    let alloc: Global = rt.alloc();
    let order = Order::new();
    let mut out = Side {
        order: &order,
        takes_reports: false,
        got: Vec::new(alloc),
    };
    let mut err = Side {
        order: &order,
        takes_reports: true,
        got: Vec::new(alloc),
    };
    let inputs = inputs_of(EACH_TICK, "", "");
    let run = run_with_progress(&rt, alloc, &inputs, to(HORIZON, 10, 1), &mut out, &mut err);
    assert!(rt; run.is_heard && matches!(&run.end, Ok(Outcome::End(HORIZON))));
    assert!(rt; order.lines.load(SeqCst) == LINES);
    assert!(rt; order.reports.load(SeqCst) == REPORTS);
    assert!(rt; !order.is_wrong.load(SeqCst), "they came in another order");
    assert!(rt;
        err.got.as_slice().starts_with(
            b"progress: tick 1 of 100, 2 lines\nprogress: tick 2 of 100, 3 lines\n"
        )
    );
    forget(run);
}
