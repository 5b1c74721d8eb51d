//! The text for a stimulus that does not fit (E29).

use crate::messages::kind::ports_of_instance;
use fb_check::types::variable_type;
use fb_check::{StimulusFault, StimulusLocation};
use fb_read_positions::{BlockTypes, Text};
use fb_types::{Connection, Setting, Stimulus, Ty, instance_named};
use std::alloc::{AllocError, Global};

/// Adds what is wrong with the stimulus at this location. Rows are counted from 0 after the heading, as in the keys of
/// events.
pub(crate) fn push_stimulus(
    text: &mut Text,
    types: &BlockTypes,
    stimuli: &[Stimulus],
    location: StimulusLocation,
) {
    let Some(stimulus) = stimuli.get(location.row) else {
        return;
    };
    push_one(text, types, stimulus, location);
}

/// What is wrong with a stimulus that is given, under the number that it would have.
pub fn unfit_message(
    alloc: Global,
    types: &BlockTypes,
    stimulus: &Stimulus,
    location: StimulusLocation,
) -> Result<String, AllocError> {
    let mut text = Text::new(alloc);
    push_one(&mut text, types, stimulus, location);
    text.into_string()
}

/// Adds what is wrong with a stimulus. The location has its number.
fn push_one(text: &mut Text, types: &BlockTypes, stimulus: &Stimulus, location: StimulusLocation) {
    text.numbered("row ", location.row, ": ");
    match location.fault {
        StimulusFault::Event => {
            let instances = types.library.application.network.instances.as_slice();
            match instance_named(instances, &stimulus.instance) {
                Some(instance) => {
                    text.named("instance ", &instance.name);
                    text.named(" : ", &instance.block_type);
                    text.named(" has no event input ", &stimulus.event);
                }
                None => text.named("there is no instance ", &stimulus.instance),
            }
        }
        StimulusFault::Setting(setting) => push_setting(text, types, stimulus, setting),
        StimulusFault::Twice(setting) => push_twice(text, stimulus, setting),
    }
}

/// Whether a data connection leads to the variable that a stimulus sets.
fn is_connected(connections: &[Connection], stimulus: &Stimulus, setting: &Setting) -> bool {
    for connection in connections {
        if let Some(component) = &connection.to.component {
            if component.is(&stimulus.instance) && connection.to.port.is(&setting.variable) {
                return true;
            }
        }
    }
    false
}

/// The values of a type.
fn values_of(ty: Ty) -> &'static str {
    match ty {
        Ty::Bool => "BOOL: TRUE or FALSE",
        Ty::Sint => "SINT: -128 to 127",
        Ty::Int => "INT: -32768 to 32767",
        Ty::Dint => "DINT: -2147483648 to 2147483647",
        Ty::Lint => "LINT: -9223372036854775808 to 9223372036854775807",
        Ty::Usint => "USINT: 0 to 255",
        Ty::Uint => "UINT: 0 to 65535",
        Ty::Udint => "UDINT: 0 to 4294967295",
        Ty::Ulint => "ULINT: 0 to 18446744073709551615",
        Ty::Time => {
            "TIME: -9223372036854775808 to 9223372036854775807, in milliseconds, without T#"
        }
    }
}

fn push_setting(text: &mut Text, types: &BlockTypes, stimulus: &Stimulus, index: usize) {
    let Some(setting) = stimulus.settings.get(index) else {
        return;
    };
    text.named("", &setting.variable);
    text.words("=");
    text.value(setting.value);
    let network = &types.library.application.network;
    if is_connected(network.data_connections.as_slice(), stimulus, setting) {
        text.words(": a data connection leads to the variable");
        return;
    }
    let ports = ports_of_instance(types, network.instances.as_slice(), &stimulus.instance);
    if let Some(ports) = ports {
        if let Some(ty) = variable_type(ports.inputs.as_slice(), &setting.variable) {
            if !ty.holds(setting.value) {
                text.named(": ", &setting.variable);
                text.phrase(&[" is ", values_of(ty)]);
                return;
            }
        }
    }
    text.named(": no data input that goes WITH ", &stimulus.event);
    text.words(" has this name");
}

/// Adds that the variable of the setting at this index is set twice.
fn push_twice(text: &mut Text, stimulus: &Stimulus, index: usize) {
    let Some(setting) = stimulus.settings.get(index) else {
        return;
    };
    text.named("", &setting.variable);
    text.words(" is set twice");
}
