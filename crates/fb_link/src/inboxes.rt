//! The messages of all resources, sorted by receiver.

ghost use Rattle.std.specs.Prelude.{◌≡◌, ◌++◌, ℕ, [], All, IfOk, OnOk, List, Some, Vec, length, slice_get};
ghost use Rattle.std.specs.declared.alloc.Global as global;
ghost use Rattle.fb_types.specs.declared.run.Message as model;
ghost use Rattle.fb_types.specs.OfSystem.{IsInstance, resource_count};
ghost use Rattle.fb_link.specs.Exchanges.{all_of, AreSorted};
ghost use Rattle.fb_link.specs.OfSystem.{AreDealt, AreFor};

use fb_system::System;
use fb_types::Message;
use std::alloc::{AllocError, Global};

/// An empty inbox for each resource.
fn empty_lists(alloc: Global, count: usize) -> Result<Vec<Vec<Message>>, AllocError>
    ensures counted { IfOk result (λ v. length v.items ≡ count) }
    ensures empty { IfOk result (λ v. (r : ℕ) (list : Vec model.Message global.Global) → slice_get v.items r ≡ Some list → list.items ≡ []) }
{
    let mut lists = Vec::with_capacity(alloc, count)?;
    for _ in 0..count {
        lists.push(Vec::new(alloc))?;
    }
    Ok(lists)
}

/// Appends each message of an outbox to the inbox of its receiver.
fn deal(
    system: &System,
    outbox: Vec<Message>,
    inboxes: &mut Vec<Vec<Message>>,
) -> Result<(), AllocError>
    requires targets { All (λ m. IsInstance system.now m.target.instance) outbox.items }
    requires counted { length inboxes.old.items ≡ resource_count system.now }
    ensures counted { OnOk result (length inboxes.new.items ≡ length inboxes.old.items) }
    ensures dealt { OnOk result ((all : List model.Message) → AreDealt system.now all inboxes.old.items
        → AreDealt system.now (all ++ outbox.items) inboxes.new.items) }
{
    system.facts(); // for the prover: what holds of every accepted system
    for message in outbox {
        let receiver = system.resource(message.target.instance);
        inboxes[receiver].push(message)?;
    }
    Ok(())
}

/// Sorts the messages for one resource by the three parts in which their keys differ.
fn sort(messages: &mut Vec<Message>) -> Result<(), AllocError>
    ensures { OnOk result (AreSorted messages.old.items messages.new.items) }
{
    messages.sort_by_key(|message| (message.arrives, message.link, message.number))
}

/// Takes one outbox of each resource and returns one inbox for each: exactly the messages for that resource, sorted by
/// key: tick of arrival, then link, then number. No message is copied or lost. Keys are expected to differ. If several
/// messages have the same key, the one that was passed last stays last.
///
/// # Errors
/// When memory runs out.
pub fn exchange(
    alloc: Global,
    system: &System,
    outboxes: Vec<Vec<Message>>,
) -> Result<Vec<Vec<Message>>, AllocError>
    requires targets { All (λ box. All (λ m. IsInstance system.now m.target.instance) box.items) outboxes.items }
    ensures counted { IfOk result (λ v. length v.items ≡ resource_count system.now) }
    ensures each { IfOk result (λ v. (r : ℕ) (list : Vec model.Message global.Global) → slice_get v.items r ≡ Some list
        → AreFor system.now r (all_of outboxes.items) list.items) }
{
    let mut inboxes = empty_lists(alloc, system.resources())?;
    for outbox in outboxes {
        deal(system, outbox, &mut inboxes)?;
    }
    for receiver in 0..inboxes.len() {
        sort(&mut inboxes[receiver])?;
    }
    Ok(inboxes)
}
