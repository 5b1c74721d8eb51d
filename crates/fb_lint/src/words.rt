//! Warnings as texts: what they are about, and why they are given.

use crate::positions::position_of;
use crate::warning::Warning;
use fb_check_names::Site;
use fb_read_positions::headings::{network_at, push_item, push_position};
use fb_read_positions::{BlockTypes, PortPart, Text};
use fb_types::{Library, Plan, Ports};
use std::alloc::{AllocError, Global};

/// Says what a warning is about, and why it is given.
///
/// # Errors
///
/// When memory runs out.
pub fn warning_message(
    alloc: Global,
    library: &Library,
    plan: &Plan,
    warning: &Warning,
) -> Result<String, AllocError> {
    let mut text = Text::new(alloc);
    if let Some(position) = position_of(warning) {
        push_position(&mut text, library, position);
    }
    push_rest(alloc, &mut text, library, plan, warning);
    text.words(reason(warning));
    text.into_string()
}

/// Why a warning is given.
fn reason(warning: &Warning) -> &'static str {
    match warning {
        Warning::UnsampledInput { .. } => ": no event input samples it",
        Warning::UnfedInput { .. } => ": it has no source, no parameter and no stimulus",
        Warning::UnsampledInGuard { .. } => ", which the event does not sample",
        Warning::UnsampledInAlgorithm { .. } => {
            ", which an event that leads to it does not sample"
        }
        Warning::UnreachedState { .. } => ": no transitions lead to it from the initial state",
        Warning::FinalState { .. } => ": no transition leaves it",
        Warning::ShadowedTransition { .. } => ": an earlier one clears whenever it would",
        Warning::UnnamedEvent { .. } => ": no transition names it",
        Warning::UnusedAlgorithm { .. } => ": no action runs it",
        Warning::UnusedType { .. } => ": no network has an instance of it",
        Warning::UnusedPort { .. } => ": nothing in the block type uses it",
        Warning::UnassignedEvent { .. } => ": no algorithm assigns a data output WITH it",
        Warning::UnusedLink { .. } => ": no connection crosses it",
        Warning::UnsentOutput { .. } => ": it is used, and it is WITH no event output",
        Warning::UnreachedInstance { .. } => ": no event connection and no stimulus leads to it",
        Warning::UnreachedEvent { .. } => ": no connection and no stimulus leads to it",
        Warning::UnheldConstant { .. } => ": the variable can't hold this constant",
        Warning::ZeroDivisor { .. } => ": it divides by 0",
        Warning::ZeroDivisorInGuard { .. } => ", guard: it divides by 0",
        Warning::EndlessState { .. } => ": transitions that always clear lead back to it",
        Warning::RepeatedLabel { .. } => ": two labels have a value in common",
        Warning::UnreadInternal { .. } => ": no guard and no algorithm reads it",
        Warning::EarlyStimulus { .. } =>
            ": it comes before the event from COLD that leads to its instance",
        Warning::SilentSource { .. } => ": this event never comes, since each run is a cold start",
    }
}

/// Adds what a warning is about, as far as the words for its position do not say it.
fn push_rest(alloc: Global, text: &mut Text, library: &Library, plan: &Plan, warning: &Warning) {
    match *warning {
        Warning::UnfedInput {
            site,
            instance,
            input,
        } => {
            let port = PortPart::Input(input);
            push_port_at(alloc, text, library, (site, instance), port);
        }
        Warning::UnreachedEvent {
            site,
            instance,
            event,
        } => {
            let port = PortPart::EventInput(event);
            push_port_at(alloc, text, library, (site, instance), port);
        }
        Warning::UnsampledInGuard { block, input, .. } => {
            push_input(text, ", guard: it reads ", library, block, input);
        }
        Warning::UnsampledInAlgorithm { block, input, .. } => {
            push_input(text, ": it reads ", library, block, input);
        }
        Warning::EarlyStimulus { stimulus } => text.numbered("stimuli: row ", stimulus, ""),
        Warning::UnusedLink { link } => {
            if let Some(link) = plan.links.get(link) {
                text.named("link ", &link.from);
                text.named(" TO ", &link.to);
            }
        }
        _ => {}
    }
}

/// Adds words and the name of a data input of a block type.
fn push_input(text: &mut Text, words: &str, library: &Library, block: usize, input: usize) {
    if let Some(block) = library.blocks.get(block) {
        push_item(text, words, block.ports().inputs.as_slice(), input);
    }
}

/// Adds the type of an instance and one of its ports, if the instance is there.
fn push_port_at(
    alloc: Global,
    text: &mut Text,
    library: &Library,
    (site, instance): (Site, usize),
    port: PortPart,
) {
    let Some(network) = network_at(library, site) else {
        return;
    };
    let Some(instance) = network.instances.get(instance) else {
        return;
    };
    text.named(" : ", &instance.block_type);
    match BlockTypes::new(alloc, library) {
        Ok(types) => {
            if let Some(ports) = types.ports_named(&instance.block_type) {
                push_port(text, ports, port);
            }
        }
        Err(_) => text.give_up(),
    }
}

/// Adds a data input or an event input of an interface.
fn push_port(text: &mut Text, ports: &Ports, port: PortPart) {
    match port {
        PortPart::Input(index) => {
            push_item(text, ", data input ", ports.inputs.as_slice(), index);
        }
        PortPart::EventInput(index) => {
            push_item(text, ", event input ", ports.event_inputs.as_slice(), index);
        }
        _ => {}
    }
}
