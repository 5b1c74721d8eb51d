//! Where warnings are in a declaration.

ghost use Rattle.std.specs.Prelude.{◌≡◌, IfOk, map};
ghost use Rattle.fb_lint.specs.Positions as spec;

use crate::warning::Warning;
use fb_check_names::{PortKind, Site};
use fb_read_positions::{
    BasicPart, ConnectionPart, NetworkPart, PortPart, Position, TransitionPart,
};
use std::alloc::{AllocError, Global};

/// The name of a port.
fn port_of(port_kind: PortKind, port: usize) -> PortPart
    ensures { result ≡ spec.port_of port_kind port }
{
    match port_kind {
        PortKind::EventInput => PortPart::EventInput(port),
        PortKind::EventOutput => PortPart::EventOutput(port),
        PortKind::Input => PortPart::Input(port),
        PortKind::Output => PortPart::Output(port),
    }
}

/// The name of an instance.
fn instance_of(site: Site, instance: usize) -> Position
    ensures { result ≡ spec.instance_of site instance }
{
    match site {
        Site::Application => Position::InApplication(NetworkPart::Instance(instance)),
        Site::Inside(block) => Position::InComposite(block, NetworkPart::Instance(instance)),
    }
}

/// The beginning of an event connection.
fn connection_of(site: Site, connection: usize) -> Position
    ensures { result ≡ spec.connection_of site connection }
{
    let part = NetworkPart::EventConnection(connection, ConnectionPart::From);
    match site {
        Site::Application => Position::InApplication(part),
        Site::Inside(block) => Position::InComposite(block, part),
    }
}

/// The position in the declaration at which a warning is shown. There is none for a link and for a
/// stimulus.
pub fn position_of(warning: &Warning) -> Option<Position>
    ensures { result ≡ spec.position_of warning.now }
{
    let position = match *warning {
        Warning::UnsampledInput { block, input } => Position::InPorts(
            block,
            PortPart::Input(input),
        ),
        Warning::UnfedInput { site, instance, .. }
        | Warning::UnreachedInstance { site, instance }
        | Warning::UnreachedEvent { site, instance, .. } => instance_of(site, instance),
        Warning::UnsampledInGuard {
            block,
            transition,
            ..
        } => Position::InBasic(
            block,
            BasicPart::Transition(transition, TransitionPart::Guard),
        ),
        Warning::UnsampledInAlgorithm {
            block,
            algorithm,
            ..
        }
        | Warning::UnusedAlgorithm { block, algorithm } => {
            Position::InBasic(block, BasicPart::Algorithm(algorithm))
        }
        Warning::UnreachedState { block, state }
        | Warning::FinalState { block, state }
        | Warning::EndlessState { block, state } => {
            Position::InBasic(block, BasicPart::State(state))
        }
        Warning::ShadowedTransition { block, transition } => Position::InBasic(
            block,
            BasicPart::Transition(transition, TransitionPart::From),
        ),
        Warning::UnnamedEvent { block, event } => {
            Position::InPorts(block, PortPart::EventInput(event))
        }
        Warning::UnusedType { block } => Position::Block(block),
        Warning::UnusedPort {
            block,
            port_kind,
            port,
        } => Position::InPorts(block, port_of(port_kind, port)),
        Warning::UnassignedEvent { block, event } => {
            Position::InPorts(block, PortPart::EventOutput(event))
        }
        Warning::UnsentOutput { block, output } => {
            Position::InPorts(block, PortPart::Output(output))
        }
        Warning::SilentSource { site, connection } => connection_of(site, connection),
        Warning::UnheldConstant {
            block,
            algorithm,
            statement,
        }
        | Warning::ZeroDivisor {
            block,
            algorithm,
            statement,
        }
        | Warning::RepeatedLabel {
            block,
            algorithm,
            statement,
        } => Position::InBasic(block, BasicPart::Statement(algorithm, statement)),
        Warning::ZeroDivisorInGuard { block, transition } => Position::InBasic(
            block,
            BasicPart::Transition(transition, TransitionPart::Guard),
        ),
        Warning::UnreadInternal { block, internal } => {
            Position::InBasic(block, BasicPart::Internal(internal))
        }
        Warning::UnusedLink { .. } | Warning::EarlyStimulus { .. } => return None,
    };
    Some(position)
}

/// The positions at which these warnings are shown, each at the index of its warning.
///
/// # Errors
///
/// When memory runs out.
pub fn positions_of(
    alloc: Global,
    warnings: &[Warning],
) -> Result<Vec<Option<Position>>, AllocError>
    ensures { IfOk result (λ positions. positions.items ≡ map spec.position_of warnings.now) }
{
    let mut positions = Vec::new(alloc);
    for warning in warnings {
        positions.push(position_of(warning))?;
    }
    Ok(positions)
}
