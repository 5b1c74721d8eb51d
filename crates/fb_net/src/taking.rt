//! One event on its way through its resource.
//!
//! Read in this order: `take`, by what the event is and where it arrives; `arrive`, its arrival at a block of each kind;
//! `samples`, what an event samples and what composites show from inside; `bring`, slots and held copies that are set;
//! `event_blocks` and `basic_blocks`, the reactions of leaves; `emit`, emissions with their lines, local events and
//! messages.

mod arrive;
mod basic_blocks;
mod bring;
mod emit;
mod event_blocks;
mod samples;
mod take;

ghost use Rattle.std.specs.Prelude.{◌≤◌, ◌^◌};
ghost use Rattle.fb_types.specs.OfSystem.{IsResource};

use crate::outbox::Outbox;
use crate::resource::Forest;
use fb_system::System;
use fb_types::Key;

/// Taking one event: the system and the key of the event, which stay, the blocks of the resource, and what is
/// put out. Its methods are the steps of the taking, by what the event is, its result, and what is emitted.
#[derive(Drop)]
pub(crate) struct Taking<'a> {
    pub system: &'a System,
    pub key: &'a Key,
    pub forest: &'a mut Forest,
    pub outbox: &'a mut Outbox,
    // The key names a resource of the deployment, and its tick is at most 10^12.
    ghost named: { IsResource system.now key.now.resource },
    ghost early: { key.now.tick ≤ 10 ^ 12 },
}
