//! Rules: what a trace must satisfy.

use crate::pattern::Pattern;
use fb_types::{Items, Name};

/// What a rule demands. P is the first pattern of its rule, Q the second and R the third. Ticks are milliseconds.
#[derive(Clone, Copy)]
pub enum Need {
    /// Each P is followed by a Q at most `within` ticks later.
    See {
        within: u64,
    },
    /// No P is followed by a Q at most `within` ticks later.
    Not {
        within: u64,
    },
    /// Each P has a Q at most `within` ticks before it.
    Before {
        within: u64,
    },
    /// No P between a Q and the next R. Where the rule has no Q, also none from the beginning to the first R.
    Never {
        from_start: bool,
    },
    /// At least `least` and at most `most` P in the whole trace, or in each window of `every` ticks.
    Count {
        least: u64,
        most: Option<u64>,
        every: Option<u64>,
    },
}

/// How a rule `after` with `see` pairs each P with a Q, if more is asked for than that a Q follows.
#[derive(Drop)]
pub struct Pairing {
    /// The variables whose values are equal in both. The patterns of P and Q ask for them too.
    pub same: Items<Name>,
    /// Whether each Q is the answer to one P only, the earliest that waits.
    pub is_each: bool,
}

/// A rule: what it demands of the lines that match its patterns.
pub struct Rule {
    /// Its name, in UTF-8.
    pub name: Items<u8>,
    pub need: Need,
    pub first: Pattern,
    pub second: Option<Pattern>,
    pub third: Option<Pattern>,
    pub pairing: Option<Pairing>,
}

impl Drop for Rule {
    fn drop(self) {
        let Rule {
            name: _,
            need: _,
            first: _,
            second: _,
            third: _,
            pairing: _,
        } = self;
    }
}
