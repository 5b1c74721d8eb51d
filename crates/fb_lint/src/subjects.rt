//! What a warning is about, by a name.

ghost use Rattle.std.specs.Prelude.{◌≡◌};
ghost use Rattle.fb_lint.specs.Subjects as spec;

use crate::names::is_named;
use crate::warning::Warning;
use fb_check_names::Site;
use fb_read_positions::headings::network_at;
use fb_types::{Library, Name, Stimulus};

/// Whether the block type at an index has the name.
fn is_block(library: &Library, block: usize, name: &Name) -> bool
    ensures { result ≡ spec.is_block library.now block name.now }
{
    match library.blocks.get(block) {
        Some(block) => name.is(block.type_name()),
        None => false,
    }
}

/// Whether the network is inside the block type with the name.
fn is_inside(library: &Library, site: Site, name: &Name) -> bool
    ensures { result ≡ spec.is_inside library.now site name.now }
{
    match site {
        Site::Application => false,
        Site::Inside(block) => is_block(library, block, name),
    }
}

/// Whether the instance at an index, or its type, has the name.
fn is_instance(library: &Library, site: Site, instance: usize, name: &Name) -> bool
    ensures { result ≡ spec.is_instance library.now site instance name.now }
{
    let Some(network) = network_at(library, site) else {
        return false;
    };
    match network.instances.get(instance) {
        Some(instance) => name.is(&instance.name) || name.is(&instance.block_type),
        None => false,
    }
}

/// Whether the event connection at an index comes from the instance with the name.
fn is_source(library: &Library, site: Site, connection: usize, name: &Name) -> bool
    ensures { result ≡ spec.is_source library.now site connection name.now }
{
    let Some(network) = network_at(library, site) else {
        return false;
    };
    match network.event_connections.get(connection) {
        Some(connection) => is_named(name, &connection.from.component),
        None => false,
    }
}

/// Whether the stimulus at an index is for the instance with the name.
fn is_stimulated(stimuli: &[Stimulus], stimulus: usize, name: &Name) -> bool
    ensures { result ≡ spec.is_stimulated stimuli.now stimulus name.now }
{
    match stimuli.get(stimulus) {
        Some(stimulus) => name.is(&stimulus.instance),
        None => false,
    }
}

/// Whether a warning is about what has the name: the block type in which it is, else the instance or the type of the
/// instance. A warning about a link is about no name.
pub fn is_about(library: &Library, stimuli: &[Stimulus], warning: &Warning, name: &Name) -> bool
    ensures { result ≡ spec.is_about library.now stimuli.now warning.now name.now }
{
    match *warning {
        Warning::UnsampledInput { block, .. }
        | Warning::UnsampledInGuard { block, .. }
        | Warning::UnsampledInAlgorithm { block, .. }
        | Warning::UnreachedState { block, .. }
        | Warning::FinalState { block, .. }
        | Warning::ShadowedTransition { block, .. }
        | Warning::UnnamedEvent { block, .. }
        | Warning::UnusedAlgorithm { block, .. }
        | Warning::UnusedType { block }
        | Warning::UnusedPort { block, .. }
        | Warning::UnassignedEvent { block, .. }
        | Warning::UnsentOutput { block, .. }
        | Warning::UnheldConstant { block, .. }
        | Warning::ZeroDivisor { block, .. }
        | Warning::ZeroDivisorInGuard { block, .. }
        | Warning::EndlessState { block, .. }
        | Warning::RepeatedLabel { block, .. }
        | Warning::UnreadInternal { block, .. } => is_block(library, block, name),
        Warning::UnfedInput { site, instance, .. }
        | Warning::UnreachedInstance { site, instance }
        | Warning::UnreachedEvent { site, instance, .. } => {
            is_inside(library, site, name) || is_instance(library, site, instance, name)
        }
        Warning::SilentSource { site, connection } => {
            is_inside(library, site, name) || is_source(library, site, connection, name)
        }
        Warning::UnusedLink { .. } => false,
        Warning::EarlyStimulus { stimulus } => is_stimulated(stimuli, stimulus, name),
    }
}
