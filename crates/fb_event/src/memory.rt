//! What an event block remembers.

/// What an event block remembers from one reaction to the next.
#[derive(Clone, Copy)]
pub enum EventMemory {
    /// Nothing, or no timer runs.
    Idle,
    /// Which of the two events of an E_REND has come.
    Marks { first: bool, second: bool },
    /// Q, or QI as it was sampled before.
    Flag(bool),
    /// The timer runs, for this number of ticks at a time.
    Running(u64),
    /// CV and Q of an E_CTU.
    Count { count: u16, reached: bool },
}
