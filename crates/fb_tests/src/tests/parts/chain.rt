//! Resources of accepted systems, and the calls on them, each with what the next one asks for.

ghost use Rattle.std.specs.Prelude.{◌≡◌, ◌<◌, All, IsTrue, None};
ghost use Rattle.fb_types.specs.Reactions.{World};
ghost use Rattle.fb_types.specs.declared.key.Key.{Key};
ghost use Rattle.fb_types.specs.OfSystem.{IsResource};
ghost use Rattle.fb_laws.specs.OfSystem.{AreTyped};
ghost use Rattle.fb_agenda.specs.Agendas.{waiting};
ghost use Rattle.fb_net.specs.Worlds.{IsForest};
ghost use Rattle.fb_resource.specs.Posts.{IsMessage};
ghost use Rattle.fb_resource.specs.Resources.{IsFor, IsOf};

use super::belonging::all_belong;
use super::narrow::{ALL_AT_ONCE, Narrow};
use fb_check::accept;
use fb_inputs::{read_deploy, read_stimuli};
use fb_link::exchange;
use fb_net::Tree;
use fb_read::read_library;
use fb_resource::{Resource, WindowDone};
use fb_system::System;
use fb_trace::{Mark, marked_text, write_lines};
use fb_types::{Deploy, Form, Line, Message, StopMark};
use std::alloc::Global;
use std::mem::forget;
use std::process::Abort;

/// More steps than any tick of these runs needs that does not stop.
pub const ENOUGH: u64 = 1_000_000;

/// The system of a declaration, a deployment and stimuli that are accepted together. An empty text represents no
/// deployment.
pub fn accepted(
    rt: &impl Abort,
    alloc: Global,
    declaration: &str,
    deploy: &str,
    stimuli: &str,
) -> System {
    let library = read_library(alloc, declaration.as_bytes()).expect(rt, "no library");
    let deploy = if deploy.is_empty() {
        Deploy::single(alloc).expect(rt, "memory")
    } else {
        read_deploy(alloc, deploy.as_bytes()).expect(rt, "no deployment")
    };
    let stimuli = read_stimuli(alloc, stimuli.as_bytes()).expect(rt, "no stimuli");
    accept(alloc, library, deploy, stimuli).expect(rt, "no system")
}

/// The resource of a number as it is before the first event. No message waits at it.
pub fn opened(rt: &impl Abort, alloc: Global, system: &System, number: u32) -> Resource
    ensures of { IsOf system.now result }
    ensures number { result.tree.resource ≡ number }
    ensures unheard { (j : Key) → j.class ≡ 2 → j.resource ≡ result.tree.resource → waiting result.agenda j ≡ None }
{
    assert!(rt; (number as usize) < system.resources());
    system.facts(); // for the prover: what holds of every accepted system
    let Ok(resource) = Resource::open(alloc, system, number) else {
        rt.panic("memory")
    };
    resource
}

/// The blocks of the resource of a number, as they are before the first event. Their values fit their types.
pub fn built(rt: &impl Abort, alloc: Global, system: &System, number: u32) -> Tree
    ensures belongs { (w : World) × IsForest system.now result w × AreTyped system.now w }
    ensures named { IsResource system.now result.resource }
    ensures number { result.resource ≡ number }
{
    assert!(rt; (number as usize) < system.resources());
    system.facts(); // for the prover: what holds of every accepted system
    let Ok(tree) = Tree::build(alloc, system, number) else {
        rt.panic("memory")
    };
    tree
}

/// What a run gave.
pub struct Ran {
    pub lines: Vec<Line>,
    pub sent: Vec<Message>,
    /// Where and why the resource stopped, if it did.
    pub stop: Option<StopMark>,
    /// The least tick of the events that wait at it still.
    pub next: Option<u64>,
}

/// Runs a resource, which has not stopped, below a tick that is not before its clock. Its lines go where those of
/// another run were, which are dropped.
pub fn run(
    rt: &impl Abort,
    resource: Resource,
    alloc: Global,
    system: &System,
    to: u64,
    steps: u64,
    spent: Vec<Line>,
) -> Ran
    requires { IsOf system.now resource }
    ensures { All (IsMessage system.now) result.sent.items }
{
    assert!(rt; resource.stopped().is_none() && to >= resource.clock());
    assert!(rt; to <= 1_000_000_000_000 && steps <= 10_000_000);
    let WindowDone::Ran {
        resource,
        lines,
        sent,
        stop,
    } = resource.run_over(alloc, system, to, steps, spent)
    else {
        rt.panic("memory")
    };
    assert!(rt; stop.is_some() || resource.clock() == to);
    let next = resource.next();
    drop(resource);
    Ran {
        lines,
        sent,
        stop,
        next,
    }
}

/// How many bytes a writer takes at a call.
static TAKEN: [usize; 4] = [1, 2, 3, ALL_AT_ONCE];

/// The lines belong to the system and have that text, whether a writer takes one byte a call, some, or all. Each tick
/// ends at its mark.
pub fn expect_text(
    rt: &impl Abort,
    alloc: Global,
    system: &System,
    form: Form,
    lines: &[Line],
    text: &[u8],
    marks: &[(u64, usize)],
) {
    assert!(rt; all_belong(system, lines));
    for index in 0..TAKEN.len() {
        let mut out = Narrow::new(alloc, TAKEN[index]);
        write_lines(&mut out, system, form, lines).expect(rt, "written");
        assert!(rt; out.got.as_slice() == text);
    }
    let marked = marked_text(alloc, system, form, lines).expect(rt, "memory");
    assert!(rt; marked.text.as_slice() == text && marked.lines == lines.len());
    expect_marks(rt, &marked.marks, marks);
}

/// Marks, each with its tick and where that ends.
fn expect_marks(rt: &impl Abort, found: &[Mark], marks: &[(u64, usize)]) {
    assert!(rt; found.len() == marks.len());
    for index in 0..marks.len() {
        let (tick, end) = marks[index];
        assert!(rt; found[index].tick == tick && found[index].end == end);
    }
}

/// The same messages, with `turns` the last one first.
pub fn turned(system: &System, mut sent: Vec<Message>, turns: bool) -> Vec<Message>
    requires { All (IsMessage system.now) sent.items }
    ensures { All (IsMessage system.now) result.items }
{
    let _system = system;
    if !turns {
        return sent;
    }
    sent.reverse();
    sent
}

/// The messages for the second of two resources, of those that the first sent. None is for the first.
pub fn handed(rt: &impl Abort, alloc: Global, system: &System, sent: Vec<Message>) -> Vec<Message>
    requires { All (IsMessage system.now) sent.items }
    ensures { All (IsMessage system.now) result.items }
{
    let Ok(outboxes) = vec![in alloc; sent] else {
        rt.panic("memory")
    };
    let Ok(mut inboxes) = exchange(alloc, system, outboxes) else {
        rt.panic("memory")
    };
    let Some(inbox) = inboxes.pop() else {
        rt.panic("no inbox")
    };
    assert!(rt; inboxes.len() == 1 && inboxes[0].is_empty());
    forget(inboxes);
    inbox
}

/// Whether all messages go to the resource of this number, none before its clock.
fn are_for(resource: &Resource, number: usize, system: &System, messages: &[Message]) -> bool
    requires number { resource.now.tree.resource ≡ number }
    requires messages { All (IsMessage system.now) messages.now }
    ensures { IsTrue result → All (IsFor system.now resource.now) messages.now }
{
    for message in messages {
        if system.resource(message.target.instance) != number
            || message.arrives < resource.clock()
        {
            return false;
        }
    }
    true
}

/// Puts the first messages on the agenda of the resource of this number, to which they go. Where memory is refused, it
/// puts there at a second try what came back of the first.
pub fn deliver_first(
    rt: &impl Abort,
    mut resource: Resource,
    number: usize,
    system: &System,
    messages: Vec<Message>,
) -> Resource
    requires of { IsOf system.now resource }
    requires number { resource.tree.resource ≡ number }
    requires unheard { (j : Key) → j.class ≡ 2 → j.resource ≡ resource.tree.resource → waiting resource.agenda j ≡ None }
    requires messages { All (IsMessage system.now) messages.items }
    ensures { IsOf system.now result }
{
    if !are_for(&resource, number, system, messages.as_slice()) {
        rt.panic("messages for another resource");
    }
    match resource.receive(messages) {
        Ok(()) => resource,
        Err((_, back)) => match resource.receive(back) {
            Ok(()) => resource,
            Err(_) => rt.panic("memory"),
        },
    }
}
