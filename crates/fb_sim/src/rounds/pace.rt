//! What the machine's clocks say of a run with workers. What is written does not depend on them, so nothing is promised
//! of what they say. But each trial ends after a number of bytes or lines, whatever they say.

ghost use Rattle.std.specs.Prelude.{◌≡◌, ◌≤◌, ◌<◌, ◌+◌, IsTrue, IsFalse};
ghost use Rattle.fb_sim.specs.declared.rounds.pace.Verdict.TheVariants.{Open};

use std::io;
use std::thread::{Threads, available_parallelism};
use std::time::{Clock, CpuClock, Duration};

/// The clocks of a machine on which none can be read. A run with these measures nothing, and makes rounds.
pub struct NoClock;

/// The error of a clock that cannot be read.
fn unread() -> io::Result<Duration> {
    Err(io::Error::from(io::ErrorKind::Unsupported))
}

impl Clock for NoClock {
    fn monotonic(&self) -> io::Result<Duration> {
        unread()
    }

    fn since_1970(&self) -> io::Result<Duration> {
        unread()
    }
}

impl CpuClock for NoClock {
    fn thread_cpu_time(&self) -> io::Result<Duration> {
        unread()
    }

    fn process_cpu_time(&self) -> io::Result<Duration> {
        unread()
    }
}

/// The nanoseconds since a time, if the clock can be read.
fn nanoseconds_since(earlier: Duration, later: io::Result<Duration>) -> Option<u128> {
    match later {
        Ok(later) => Some(later.saturating_sub(earlier).as_nanos()),
        Err(_) => None,
    }
}

/// A time from which on nanoseconds are counted, if the clock can be read.
#[derive(Clone, Copy)]
struct Stopwatch {
    began: Option<Duration>,
}

impl Stopwatch {
    /// Begins now, by the machine's clock.
    fn start<C: Clock>(clock: &C) -> Stopwatch {
        Stopwatch {
            began: clock.monotonic().ok(),
        }
    }

    /// Begins now, by the processor time of this thread.
    fn start_on_thread<C: CpuClock>(clock: &C) -> Stopwatch {
        Stopwatch {
            began: clock.thread_cpu_time().ok(),
        }
    }

    /// How many nanoseconds have passed.
    fn passed<C: Clock>(&self, clock: &C) -> Option<u128> {
        nanoseconds_since(self.began?, clock.monotonic())
    }

    /// How many nanoseconds this thread has worked.
    fn worked<C: CpuClock>(&self, clock: &C) -> Option<u128> {
        nanoseconds_since(self.began?, clock.thread_cpu_time())
    }
}

/// What a stretch of a run has taken, and how many lines it gave.
#[derive(Clone, Copy)]
pub(crate) struct Pace {
    nanoseconds: u128,
    lines: u128,
}

impl Pace {
    /// Nothing yet.
    fn none() -> Pace {
        Pace {
            nanoseconds: 0,
            lines: 0,
        }
    }

    /// This stretch and another.
    fn and(&self, other: Pace) -> Pace {
        Pace {
            nanoseconds: self.nanoseconds.saturating_add(other.nanoseconds),
            lines: self.lines.saturating_add(other.lines),
        }
    }

    /// This stretch without a part of it.
    fn without(&self, part: Pace) -> Pace {
        Pace {
            nanoseconds: self.nanoseconds.saturating_sub(part.nanoseconds),
            lines: self.lines.saturating_sub(part.lines),
        }
    }

    /// Whether a line has taken more than this many hundredths of what it took there.
    fn is_slower(&self, hundredths: u128, there: Pace) -> bool {
        let here = self
            .nanoseconds
            .saturating_mul(there.lines)
            .saturating_mul(100);
        here > there
            .nanoseconds
            .saturating_mul(self.lines)
            .saturating_mul(hundredths)
    }
}

/// The timed rounds of a trial take these nanoseconds.
const LONG: u128 = 2_000_000;

/// This many rounds are not timed: their threads and memory are new. The second still takes half as long again as later
/// ones.
const UNTIMED_ROUNDS: u64 = 3;

/// This many rounds are made at least, to be judged.
const ROUNDS: u64 = 5;

/// The text of the first rounds mostly has no more bytes. Once it has as many, it is written.
pub(crate) const FIRST_TEXT: usize = 8_388_608;

/// The first rounds of a run.
#[derive(Clone, Copy)]
pub(crate) struct RoundTrial {
    rounds: u64,
    watch: Stopwatch,
    /// All timed rounds.
    all: Pace,
    /// The slowest of them.
    slowest: Pace,
}

impl RoundTrial {
    /// Before the first round.
    pub(crate) fn new() -> RoundTrial {
        RoundTrial {
            rounds: 0,
            watch: Stopwatch { began: None },
            all: Pace::none(),
            slowest: Pace::none(),
        }
    }

    /// Begins a round.
    pub(crate) fn begin<C: Clock>(&mut self, clock: &C) {
        self.watch = Stopwatch::start(clock);
    }

    /// Counts the round that has ended, which gave this many lines. The text of all rounds has so many bytes then. It
    /// answers whether the trial is over: the rounds have taken long enough to be judged, or can't be judged, or the text
    /// is long.
    pub(crate) fn count<C: Clock>(&mut self, clock: &C, lines: u128, bytes: usize) -> bool
        ensures long { FIRST_TEXT ≤ bytes → IsTrue result }
    {
        let is_judged = self.measure(clock, lines);
        bytes >= FIRST_TEXT || is_judged
    }

    /// Counts the round that has ended, and answers whether the rounds have taken long enough to be judged, or can't be
    /// judged.
    fn measure<C: Clock>(&mut self, clock: &C, lines: u128) -> bool {
        let Some(nanoseconds) = self.watch.passed(clock) else {
            self.watch = Stopwatch { began: None };
            return true;
        };
        self.rounds = self.rounds.saturating_add(1);
        if self.rounds <= UNTIMED_ROUNDS {
            return false;
        }
        let round = Pace { nanoseconds, lines };
        if self.all.nanoseconds == 0 || round.is_slower(100, self.slowest) {
            self.slowest = round;
        }
        self.all = self.all.and(round);
        self.rounds >= ROUNDS && self.all.nanoseconds >= LONG
    }

    /// What the timed rounds have taken, if the clock can be read and they are enough. The slowest is left out, since
    /// other programs may have disturbed it.
    pub(crate) fn pace(&self) -> Option<Pace> {
        self.watch.began?;
        if self.rounds < ROUNDS {
            return None;
        }
        Some(self.all.without(self.slowest))
    }
}

/// What one agenda is after some of the lines of a trial.
#[derive(Clone, Copy)]
pub(crate) enum Verdict {
    /// It takes longer than rounds.
    Slower,
    /// Nobody knows yet.
    Open,
    /// It takes less time.
    Quicker,
}

/// This many lines of one agenda are not timed: it touches its blocks for the first time.
const UNTIMED_LINES: u128 = 2048;

/// One agenda, in a trial against rounds.
#[derive(Clone, Copy)]
pub(crate) struct AgendaTrial {
    rounds: Pace,
    watch: Stopwatch,
    lines: u128,
    is_timed: bool,
}

impl AgendaTrial {
    /// Before its first line.
    pub(crate) fn new<C: CpuClock>(rounds: Pace, clock: &C) -> AgendaTrial {
        AgendaTrial {
            rounds,
            watch: Stopwatch::start_on_thread(clock),
            lines: 0,
            is_timed: false,
        }
    }

    /// Counts some lines, and judges them. It is slower if the clock can't be read. It stays open for less than
    /// [`UNTIMED_LINES`] that are not timed, and then for fewer than the rounds gave.
    pub(crate) fn count<C: CpuClock>(&mut self, clock: &C, lines: usize) -> Verdict
        ensures rounds { self.new.rounds ≡ self.old.rounds }
        ensures untimed { result ≡ Open → IsFalse self.new.is_timed → IsFalse self.old.is_timed × (self.new.lines ≡ self.old.lines + lines) × (self.new.lines < UNTIMED_LINES) }
        ensures timed { result ≡ Open → IsTrue self.old.is_timed → IsTrue self.new.is_timed × (self.new.lines ≡ self.old.lines + lines) × (self.new.lines < self.old.rounds.lines) }
    {
        let Some(nanoseconds) = self.watch.worked(clock) else {
            return Verdict::Slower;
        };
        let Some(counted) = self.lines.checked_add(lines as u128) else {
            return Verdict::Slower;
        };
        self.lines = counted;
        if self.is_timed {
            return self.judge(nanoseconds);
        }
        let is_late = nanoseconds >= self.rounds.nanoseconds / 4;
        if is_late && self.pace(nanoseconds).is_slower(300, self.rounds) {
            return Verdict::Slower;
        }
        if is_late || self.lines >= UNTIMED_LINES {
            self.is_timed = true;
            self.lines = 0;
            self.watch = Stopwatch::start_on_thread(clock);
        }
        Verdict::Open
    }

    /// The lines that are counted, which took these nanoseconds.
    fn pace(&self, nanoseconds: u128) -> Pace {
        Pace {
            nanoseconds,
            lines: self.lines,
        }
    }

    /// What one agenda is that took these nanoseconds. Rounds get quicker as they go on, so one agenda has to be
    /// quicker by a fifth. The trial ends early where one of the two takes half as long again as the other.
    fn judge(&self, nanoseconds: u128) -> Verdict
        ensures { result ≡ Open → self.now.lines < self.now.rounds.lines }
    {
        let agenda = self.pace(nanoseconds);
        let is_whole = nanoseconds >= self.rounds.nanoseconds || self.lines >= self.rounds.lines;
        let is_part = nanoseconds >= self.rounds.nanoseconds / 8;
        if is_whole {
            if agenda.is_slower(80, self.rounds) {
                Verdict::Slower
            } else {
                Verdict::Quicker
            }
        } else if is_part && agenda.is_slower(150, self.rounds) {
            Verdict::Slower
        } else if is_part && self.rounds.is_slower(150, agenda) {
            Verdict::Quicker
        } else {
            Verdict::Open
        }
    }
}

/// How many threads serve a run with this many workers: no more than there are processors, since the others would wait,
/// but two at least, so that two workers meet.
pub(crate) fn threads_for<R: Threads>(rt: &R, workers: u64) -> u64
    requires { 1 ≤ workers }
    ensures some { 1 ≤ result }
    ensures few { result ≤ workers }
{
    match available_parallelism(rt) {
        Ok(count) => workers.min((count.get() as u64).max(2)),
        Err(_) => workers,
    }
}
