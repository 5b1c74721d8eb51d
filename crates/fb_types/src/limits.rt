//! The limits of the profile (docs/PROFILE.md). Each is the greatest value that is accepted. Ticks are milliseconds.

/// The greatest tick of a stimulus, of an entry of a latency, and of a horizon.
pub const LATEST_TICK: u64 = 1_000_000_000_000;

/// The greatest latency of a link, in ticks.
pub const MOST_LATENCY: u64 = 1_000_000;

/// The most bytes of a declaration and of a deployment. A byte order mark counts.
pub const MOST_BYTES: usize = 1_048_576;

/// The most bytes of stimuli. A byte order mark counts.
pub const MOST_STIMULI_BYTES: usize = 16_777_216;

/// The most stimuli.
pub const MOST_STIMULI: usize = 100_000;

/// The most resources of a deployment.
pub const MOST_RESOURCES: usize = 256;

/// The most links of a deployment.
pub const MOST_LINKS: usize = 1_024;

/// The most entries in the table of one link's latency.
pub const MOST_ENTRIES: usize = 64;

/// How deep statements, and how deep expressions, may nest.
pub const MOST_NESTING: u32 = 64;

/// The most steps of a resource in one tick, as an option of a run.
pub const MOST_STEPS: u64 = 10_000_000;

/// The most workers of a run.
pub const MOST_WORKERS: u64 = 64;
