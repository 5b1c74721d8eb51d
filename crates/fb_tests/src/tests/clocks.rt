//! Clocks that decide how a run with workers goes on.

use std::io;
use std::sync::atomic::AtomicU64;
use std::sync::atomic::Ordering::SeqCst;
use std::time::{Clock, CpuClock, Duration};

/// How clocks go on: by these nanoseconds each time they are read. From one reading on, the machine's clock is ten
/// seconds later.
#[derive(Clone, Copy)]
pub struct Pace {
    pub by_wall: u64,
    pub by_thread: u64,
    pub late_from: u64,
}

/// Clocks that go on at a pace.
#[derive(Drop)]
pub struct Stepping {
    pace: Pace,
    wall: AtomicU64,
    thread: AtomicU64,
}

impl Stepping {
    pub fn new(pace: Pace) -> Stepping {
        Stepping {
            pace,
            wall: AtomicU64::new(0),
            thread: AtomicU64::new(0),
        }
    }
}

impl Clock for Stepping {
    fn monotonic(&self) -> io::Result<Duration> {
        let reading = self.wall.fetch_add(1, SeqCst);
        let delay = if reading < self.pace.late_from {
            0
        } else {
            10_000_000_000
        };
        let passed = reading
            .saturating_mul(self.pace.by_wall)
            .saturating_add(delay);
        Ok(Duration::from_nanos(passed))
    }

    fn since_1970(&self) -> io::Result<Duration> {
        Ok(Duration::from_nanos(0))
    }
}

impl CpuClock for Stepping {
    fn thread_cpu_time(&self) -> io::Result<Duration> {
        Ok(Duration::from_nanos(self.thread.fetch_add(self.pace.by_thread, SeqCst)))
    }

    fn process_cpu_time(&self) -> io::Result<Duration> {
        self.thread_cpu_time()
    }
}
