//! Whether a declared system has the names of rules.

ghost use Rattle.std.specs.Prelude.{◌≡◌, ◌<◌, ◌++◌, All, IfNone, IfOk, IfSome, MatchOption, codes, length, map, true};
ghost use Rattle.fb_coverage.specs.Connected.{never_comes};
ghost use Rattle.fb_inspect.specs.OfSystem.{IsNoInstance};
ghost use Rattle.fb_system.specs.IndexLists.{AreIndexes, variable_at};
ghost use Rattle.fb_types.specs.Numbers.{event_at};
ghost use Rattle.fb_types.specs.OfSystem.{IsInstance, kind_at, path_at};
ghost use Rattle.fb_types.specs.Text.{path_text};
ghost use Rattle.fbsim_command.specs.Known as spec;
ghost use Rattle.fbsim_command.specs.OfSystem.{IsUnknownAt, IsUnknownKey, any_event, has_names, has_port, has_rule, is_fitting, is_of, may_have_port, ports_of};

use crate::possible::{can_suit_all, is_possible};
use fb_check_names::TypeNumber;
use fb_expect::{Condition, Entry, Pattern, Rule, RuleKey, is_at, pattern_keys};
use fb_system::System;
use fb_types::{EventKind, EventPort, Ports, Variable};
use std::alloc::{AllocError, Global};

/// How many events of one interface have numbers.
pub(crate) const MOST_EVENTS: usize = 1 << 32;

/// The event inputs of an interface, or its event outputs.
pub(crate) fn events_of(ports: &Ports, taken: bool) -> &[EventPort]
    ensures { result.now ≡ spec.events_of ports.now taken }
{
    if taken {
        ports.event_inputs.as_slice()
    } else {
        ports.event_outputs.as_slice()
    }
}

/// The data inputs of an interface, or its data outputs.
pub(crate) fn variables_of(ports: &Ports, taken: bool) -> &[Variable]
    ensures { result.now ≡ spec.variables_of ports.now taken }
{
    if taken {
        ports.inputs.as_slice()
    } else {
        ports.outputs.as_slice()
    }
}

/// The name of one of these events.
pub(crate) fn event_name(ports: &Ports, taken: bool, event: u32) -> &[u8]
    requires { event < length (spec.events_of ports.now taken) }
    ensures { result.now ≡ event_at (spec.events_of ports.now taken) event }
{
    events_of(ports, taken)[event as usize].name.as_bytes()
}

/// The indexes of the variables WITH an event of an instance.
pub(crate) fn indexes_with(system: &System, instance: u32, taken: bool, event: u32) -> &[u32]
    requires instance { IsInstance system.now instance }
    requires event { event < length (spec.events_of (ports_of system.now instance) taken) }
    ensures { let its = ports_of system.now instance in AreIndexes (spec.variables_of its taken) (spec.names_with its taken event) result.now }
{
    if taken {
        system.inputs_with(instance, event)
    } else {
        system.outputs_with(instance, event)
    }
}

/// The instance that has a path, if one has it.
pub(crate) fn instance_at(system: &System, path: &[u8]) -> Option<u32>
    ensures within { IfSome result (IsInstance system.now) }
    ensures found { IfSome result (λ instance. path.now ≡ path_text (path_at system.now instance)) }
    ensures none { IfNone result (IsNoInstance system.now path.now) }
{
    system.facts(); // for the prover: what holds of every accepted system
    for instance in 0..system.count() {
        if system.path(instance as u32) == path {
            return Some(instance as u32);
        }
    }
    None
}

/// Whether some values of the variables of an event meet each condition by itself. Its variables are those at some
/// indexes.
fn are_each_possible(conditions: &[Condition], variables: &[Variable], indexes: &[u32]) -> bool
    requires { All (λ k. k < length variables.now) indexes.now }
    ensures { result ≡ spec.are_each_possible variables.now conditions.now (map (variable_at variables.now) indexes.now) }
{
    for condition in conditions {
        if !is_possible(condition, variables, indexes) {
            return false;
        }
    }
    true
}

/// The same, and for each variable one value meets all conditions on it.
fn are_possible(conditions: &[Condition], variables: &[Variable], indexes: &[u32]) -> bool
    requires { All (λ k. k < length variables.now) indexes.now }
    ensures { result ≡ spec.are_possible variables.now conditions.now (map (variable_at variables.now) indexes.now) }
{
    are_each_possible(conditions, variables, indexes) && can_suit_all(variables, conditions)
}

/// The path of an instance, a full stop, and the name of an event.
pub(crate) fn port_text(alloc: Global, path: &[u8], event: &[u8]) -> Result<Vec<u8>, AllocError>
    ensures { IfOk result (λ t. t.items ≡ path.now ++ codes "." ++ event.now) }
{
    let mut text = Vec::new(alloc);
    text.extend_from_slice(path)?;
    text.extend_from_slice(b".")?;
    text.extend_from_slice(event)?;
    Ok(text)
}

/// Whether no event ever comes to a port: to WARM and STOP of an E_RESTART, whose ports are COLD and these two.
pub(crate) fn never_comes(system: &System, instance: u32, event: u32) -> bool
    requires { IsInstance system.now instance }
    ensures { result ≡ never_comes (kind_at system.now (path_at system.now instance)) event }
{
    match system.kind(instance) {
        TypeNumber::Event(EventKind::Restart) => event > 0,
        _ => false,
    }
}

/// Whether a port is of a pattern, and its event has values that meet each of its conditions.
#[tactic(auto, unfolding(crate::specs::Known::is_fitting))]
fn is_fitting(
    alloc: Global,
    system: &System,
    pattern: &Pattern,
    instance: u32,
    taken: bool,
    event: u32,
) -> Result<bool, AllocError>
    requires instance { IsInstance system.now instance }
    requires event { event < length (spec.events_of (ports_of system.now instance) taken) }
    ensures { IfOk result (λ b. b ≡ is_fitting system.now pattern.now instance taken event) }
{
    system.facts(); // for the prover: what holds of every accepted system
    let ports = system.ports(instance);
    let resource = system.resource_name(system.resource(instance));
    let port = port_text(
        alloc,
        system.path(instance),
        event_name(ports, taken, event),
    )?;
    let entry = Entry::of(0, resource, taken, port.as_slice(), b"");
    let is_there = is_at(pattern, &entry);
    // Dropped by one call: the end of its scope would join the ways.
    drop(port);
    let variables = variables_of(ports, taken);
    let indexes = indexes_with(system, instance, taken, event);
    Ok(is_there && are_possible(pattern.conditions.as_slice(), variables, indexes))
}

/// The same of a port to which events come.
fn is_of(
    alloc: Global,
    system: &System,
    pattern: &Pattern,
    instance: u32,
    taken: bool,
    event: u32,
) -> Result<bool, AllocError>
    requires instance { IsInstance system.now instance }
    requires event { event < length (spec.events_of (ports_of system.now instance) taken) }
    ensures { IfOk result (λ b. b ≡ is_of system.now pattern.now instance taken event) }
{
    if never_comes(system, instance, event) {
        return Ok(false);
    }
    is_fitting(alloc, system, pattern, instance, taken, event)
}

/// Whether one of the event inputs of an instance, or of its event outputs, is of a pattern.
fn any_event(
    alloc: Global,
    system: &System,
    pattern: &Pattern,
    instance: u32,
    taken: bool,
) -> Result<bool, AllocError>
    requires { IsInstance system.now instance }
    ensures { IfOk result (λ b. b ≡ any_event system.now pattern.now instance taken) }
{
    let count = events_of(system.ports(instance), taken).len();
    for event in 0..count.min(MOST_EVENTS) {
        if is_of(alloc, system, pattern, instance, taken, event as u32)? {
            return Ok(true);
        }
    }
    Ok(false)
}

/// Whether a system has a port for a pattern.
#[tactic(auto, unfolding(crate::specs::Known::has_port))]
fn has_port(alloc: Global, system: &System, pattern: &Pattern) -> Result<bool, AllocError>
    ensures { IfOk result (λ b. b ≡ has_port system.now pattern.now) }
{
    system.facts(); // for the prover: what holds of every accepted system
    for instance in 0..system.count() {
        let instance = instance as u32;
        let is_taken = any_event(alloc, system, pattern, instance, true)?;
        if is_taken {
            return Ok(true);
        }
        let is_emitted = any_event(alloc, system, pattern, instance, false)?;
        if is_emitted {
            return Ok(true);
        }
    }
    Ok(false)
}

/// The same for a pattern that may be absent.
fn may_have_port(
    alloc: Global,
    system: &System,
    pattern: &Option<Pattern>,
) -> Result<bool, AllocError>
    ensures { IfOk result (λ b. b ≡ may_have_port system.now pattern.now) }
{
    match pattern {
        Some(pattern) => has_port(alloc, system, pattern),
        None => Ok(true),
    }
}

/// Whether a system has a port for each pattern of the rules, with values that meet its conditions.
pub(crate) fn has_names(alloc: Global, system: &System, rules: &[Rule]) -> Result<bool, AllocError>
    ensures { IfOk result (λ b. b ≡ has_names system.now rules.now) }
{
    for rule in rules {
        let first = has_port(alloc, system, &rule.first)?;
        let second = may_have_port(alloc, system, &rule.second)?;
        let third = may_have_port(alloc, system, &rule.third)?;
        if !(first && second && third) {
            return Ok(false);
        }
    }
    Ok(true)
}

/// The key of the first pattern of a rule that no port has.
fn unknown_key(alloc: Global, system: &System, rule: &Rule) -> Result<Option<RuleKey>, AllocError>
    ensures { IfOk result (λ o. MatchOption o (has_rule system.now rule.now ≡ true) (IsUnknownKey system.now rule.now)) }
{
    let (first, second) = pattern_keys(rule.need);
    if !has_port(alloc, system, &rule.first)? {
        return Ok(Some(first));
    }
    if !may_have_port(alloc, system, &rule.second)? {
        return Ok(Some(second));
    }
    if !may_have_port(alloc, system, &rule.third)? {
        return Ok(Some(RuleKey::To));
    }
    Ok(None)
}

/// The first rule with a pattern that no port has, counted from 0, and its key.
pub(crate) fn unknown_location(
    alloc: Global,
    system: &System,
    rules: &[Rule],
) -> Result<Option<(usize, RuleKey)>, AllocError>
    ensures { IfOk result (λ o. MatchOption o (has_names system.now rules.now ≡ true) (λ p. IsUnknownAt system.now rules.now p.0 p.1)) }
{
    for (index, rule) in rules.iter().enumerate() {
        if let Some(key) = unknown_key(alloc, system, rule)? {
            return Ok(Some((index, key)));
        }
    }
    Ok(None)
}
