//! Puts messages among the events of an agenda: all of a list or none.
//!
//! Only a new key takes memory. So each key is reserved first, by a placeholder, and the messages move only after all
//! keys are reserved. If memory runs out, no message has left its list.

ghost use Rattle.std.specs.Prelude.{◌≡◌, if◌then◌else◌, IsSome, OnOk, Some};
ghost use Rattle.std.specs.Map.{lookup};
ghost use Rattle.fb_types.specs.Keys.{found, or_else, same_key};
ghost use Rattle.fb_types.specs.declared.key.Key as keys;
ghost use Rattle.fb_agenda.specs.Arrivals.{HasKeys, KeepsOthers, LacksKeys, arrival_at, arrivals_at};
ghost use Rattle.fb_types.specs.declared.run.Event.TheVariants.{Arrival};

use crate::later::Later;
use fb_types::{Event, Key, Message};
use std::alloc::AllocError;

/// The key under which a message waits for its receiver.
pub(crate) fn key_of_arrival(receiver: u32, message: &Message) -> Key
    ensures { result ≡ (arrival_at receiver message.now).0 }
{
    Key::arrival(message.arrives, receiver, message.link, message.number)
}

/// Reserves the key of each message.
///
/// # Errors
///
/// When memory runs out. Some of the keys may then be reserved.
pub(crate) fn reserve_keys(
    later: &mut Later,
    receiver: u32,
    messages: &[Message],
) -> Result<(), AllocError>
    ensures kept { KeepsOthers (arrivals_at receiver messages.now) later.old.events later.new.events }
    ensures held { OnOk result (HasKeys (arrivals_at receiver messages.now) later.new.events) }
    ensures due { later.new.due ≡ later.old.due }
{
    for message in messages {
        later.put(key_of_arrival(receiver, message), Event::Stimulus(0))?;
    }
    Ok(())
}

/// Removes the events under the keys of the messages.
pub(crate) fn release_keys(later: &mut Later, receiver: u32, messages: &[Message])
    ensures kept { KeepsOthers (arrivals_at receiver messages.now) later.old.events later.new.events }
    ensures freed { LacksKeys (arrivals_at receiver messages.now) later.new.events }
    ensures due { later.new.due ≡ later.old.due }
{
    for message in messages {
        later.remove(&key_of_arrival(receiver, message));
    }
}

/// Puts a message under its key, which is reserved.
fn fill_key(later: &mut Later, receiver: u32, message: Message)
    requires { IsSome (lookup (same_key (arrival_at receiver message).0) later.old.events) }
    ensures filled { (j : keys.Key) → lookup (same_key j) later.new.events ≡ (if same_key (arrival_at receiver message).0 j then Some (Arrival message) else lookup (same_key j) later.old.events) }
    ensures due { later.new.due ≡ later.old.due }
{
    let key = key_of_arrival(receiver, &message);
    let _reserved = later.put(key, Event::Arrival(message));
}

/// Puts the messages under their keys, which are reserved.
pub(crate) fn fill_keys(later: &mut Later, receiver: u32, messages: Vec<Message>)
    requires { HasKeys (arrivals_at receiver messages.items) later.old.events }
    ensures filled { (j : keys.Key) → lookup (same_key j) later.new.events ≡ or_else (found j (arrivals_at receiver messages.items)) (lookup (same_key j) later.old.events) }
    ensures due { later.new.due ≡ later.old.due }
{
    for message in messages {
        fill_key(later, receiver, message);
    }
}
