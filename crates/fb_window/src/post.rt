//! How messages come from the outboxes of resources onto the agendas of others.

ghost use Rattle.std.specs.Prelude.{◌≡◌, ◌<◌, ◌++◌, [], ◌∷◌, All, IfOk, IsTrue, OnOk, length};
ghost use Rattle.std.specs.Global.{Vec};
ghost use Rattle.std.specs.Vec.Iter.{into_iter_items};
ghost use Rattle.fb_types.specs.declared.run.Message as model;
ghost use Rattle.fb_types.specs.OfSystem.{IsInstance, resource_count};
ghost use Rattle.fb_link.specs.Exchanges.{all_of};
ghost use Rattle.fb_resource.specs.Resources.{HasReceived};
ghost use Rattle.fb_resource.specs.declared.resource.Resource.{Resource};
ghost use Rattle.fb_window.specs.Mails.{AreDelivered};
ghost use Rattle.fb_window.specs.OfSystem.{ArePosted};

use fb_link::exchange;
use fb_resource::Resource;
use fb_system::System;
use fb_types::Message;
use std::alloc::{AllocError, Global};
use std::vec::IntoIter;

/// Puts the messages in the next list on the agenda of a resource, and this after the others.
fn deliver_next(
    delivered: &mut Vec<Resource>,
    mut resource: Resource,
    lists: &mut IntoIter<Vec<Message>>,
) -> Result<(), AllocError>
    requires { 0 < length (into_iter_items lists.old) }
    ensures { OnOk result ((box : Vec model.Message) × (y : Resource) × (into_iter_items lists.old ≡ box ∷ into_iter_items lists.new)
        × HasReceived box.items resource y × (delivered.new.items ≡ delivered.old.items ++ y ∷ [])) }
{
    let Some(messages) = lists.next() else {
        unreachable!()
    };
    match resource.receive(messages) {
        Ok(()) => {
            delivered.push(resource)?;
            Ok(())
        }
        Err((error, _messages)) => Err(error),
    }
}

/// Puts messages on the agendas of the resources, for each those in the next list. What is delivered is lent here, so
/// that no exit of the loop drops it.
fn deliver_each(
    delivered: &mut Vec<Resource>,
    resources: Vec<Resource>,
    lists: &mut IntoIter<Vec<Message>>,
) -> Result<(), AllocError>
    requires none { delivered.old.items ≡ [] }
    requires counted { length (into_iter_items lists.old) ≡ length resources.items }
    ensures { OnOk result (AreDelivered resources.items (into_iter_items lists.old) delivered.new.items) }
{
    for resource in resources {
        deliver_next(delivered, resource, lists)?;
    }
    Ok(())
}

/// Whether nothing is in any list.
pub(crate) fn are_empty<T>(lists: &[Vec<T>]) -> bool
    ensures { IsTrue result → All (λ p. p.items ≡ []) lists.now }
{
    for list in lists {
        if !list.is_empty() {
            return false;
        }
    }
    true
}

/// Exchanges the messages of all outboxes, each of which comes onto the agenda of its receiver.
///
/// # Errors
/// When memory runs out.
pub(crate) fn post(
    alloc: Global,
    system: &System,
    resources: Vec<Resource>,
    outboxes: Vec<Vec<Message>>,
) -> Result<Vec<Resource>, AllocError>
    requires counted { length resources.items ≡ resource_count system.now }
    requires targets { All (λ box. All (λ m. IsInstance system.now m.target.instance) box.items) outboxes.items }
    ensures { IfOk result (λ v. ArePosted system.now (all_of outboxes.items) resources.items v.items) }
{
    if are_empty(&outboxes) {
        return Ok(resources);
    }
    let inboxes = exchange(alloc, system, outboxes)?;
    let mut delivered = Vec::new(alloc);
    let received = deliver_each(&mut delivered, resources, &mut inboxes.into_iter());
    received?;
    Ok(delivered)
}
