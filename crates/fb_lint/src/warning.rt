//! Warnings about inputs that are accepted.

ghost use Rattle.std.specs.Prelude.{◌≡◌};
ghost use Rattle.fb_lint.specs.Numbers.{number_of};

use fb_check_names::{PortKind, Site};

/// What is accepted and probably not meant, with its place. Items of lists are counted from 0, in the order of the text;
/// `block` is the index of a block type.
#[derive(Clone, Copy)]
pub enum Warning {
    /// No event input of the block type samples a data input (L01).
    UnsampledInput {
        block: usize,
        input: usize,
    },
    /// A data input of an instance has no source, no parameter and no stimulus (L02).
    UnfedInput {
        site: Site,
        instance: usize,
        input: usize,
    },
    /// The guard of a transition reads a data input that the event of the transition does not sample (L03).
    UnsampledInGuard {
        block: usize,
        transition: usize,
        input: usize,
    },
    /// An algorithm reads a data input that an event which leads to a state with the algorithm does not sample (L04).
    UnsampledInAlgorithm {
        block: usize,
        algorithm: usize,
        input: usize,
    },
    /// No transitions lead from the initial state to a state (L05).
    UnreachedState {
        block: usize,
        state: usize,
    },
    /// No transition leaves a state (L06).
    FinalState {
        block: usize,
        state: usize,
    },
    /// An earlier transition clears whenever this one would (L07).
    ShadowedTransition {
        block: usize,
        transition: usize,
    },
    /// No transition names an event input (L08).
    UnnamedEvent {
        block: usize,
        event: usize,
    },
    /// No action runs an algorithm (L09).
    UnusedAlgorithm {
        block: usize,
        algorithm: usize,
    },
    /// No network has an instance of a block type (L10).
    UnusedType {
        block: usize,
    },
    /// Nothing inside the block type uses a port, by its index among the ports of its kind (L11).
    UnusedPort {
        block: usize,
        port_kind: PortKind,
        port: usize,
    },
    /// No algorithm assigns a data output WITH an output event that has some (L12).
    UnassignedEvent {
        block: usize,
        event: usize,
    },
    /// No connection crosses a link (L13).
    UnusedLink {
        link: usize,
    },
    /// A data output is assigned or read, and it is WITH no event output (L14).
    UnsentOutput {
        block: usize,
        output: usize,
    },
    /// No event connection and no stimulus leads to an instance (L15).
    UnreachedInstance {
        site: Site,
        instance: usize,
    },
    /// Nothing leads to an event input of an instance, and to another one something leads (L16).
    UnreachedEvent {
        site: Site,
        instance: usize,
        event: usize,
    },
    /// A statement assigns a constant that its variable can't hold (L17).
    UnheldConstant {
        block: usize,
        algorithm: usize,
        statement: usize,
    },
    /// A statement divides by the constant 0 (L18).
    ZeroDivisor {
        block: usize,
        algorithm: usize,
        statement: usize,
    },
    /// The guard of a transition divides by the constant 0 (L18).
    ZeroDivisorInGuard {
        block: usize,
        transition: usize,
    },
    /// Transitions that always clear lead from a state back to it (L19).
    EndlessState {
        block: usize,
        state: usize,
    },
    /// An event connection comes from WARM or STOP of an E_RESTART (L20).
    SilentSource {
        site: Site,
        connection: usize,
    },
    /// Two labels of a CASE have a value in common (L21).
    RepeatedLabel {
        block: usize,
        algorithm: usize,
        statement: usize,
    },
    /// No guard and no algorithm reads an internal variable (L22).
    UnreadInternal {
        block: usize,
        internal: usize,
    },
    /// A stimulus at tick 0 comes before the event from COLD that leads to its instance (L23).
    EarlyStimulus {
        stimulus: usize,
    },
}

/// The number of the last warning.
pub const LAST_NUMBER: u8 = 23;

impl Warning {
    /// The number of the warning, from 1 for L01.
    pub fn number(&self) -> u8
        ensures { result ≡ number_of self.now }
    {
        match self {
            Warning::UnsampledInput { .. } => 1,
            Warning::UnfedInput { .. } => 2,
            Warning::UnsampledInGuard { .. } => 3,
            Warning::UnsampledInAlgorithm { .. } => 4,
            Warning::UnreachedState { .. } => 5,
            Warning::FinalState { .. } => 6,
            Warning::ShadowedTransition { .. } => 7,
            Warning::UnnamedEvent { .. } => 8,
            Warning::UnusedAlgorithm { .. } => 9,
            Warning::UnusedType { .. } => 10,
            Warning::UnusedPort { .. } => 11,
            Warning::UnassignedEvent { .. } => 12,
            Warning::UnusedLink { .. } => 13,
            Warning::UnsentOutput { .. } => 14,
            Warning::UnreachedInstance { .. } => 15,
            Warning::UnreachedEvent { .. } => 16,
            Warning::UnheldConstant { .. } => 17,
            Warning::ZeroDivisor { .. } | Warning::ZeroDivisorInGuard { .. } => 18,
            Warning::EndlessState { .. } => 19,
            Warning::SilentSource { .. } => 20,
            Warning::RepeatedLabel { .. } => 21,
            Warning::UnreadInternal { .. } => 22,
            Warning::EarlyStimulus { .. } => 23,
        }
    }
}
