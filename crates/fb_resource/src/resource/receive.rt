//! How a resource gets messages.

ghost use Rattle.std.specs.Prelude.{◌≡◌, IfErr, OnErr, OnOk};
ghost use Rattle.fb_agenda.specs.Arrivals.{AreNew};
ghost use Rattle.fb_resource.specs.Resources.{HasReceived, IsSame};

use crate::resource::Resource;
use fb_types::Message;
use std::alloc::AllocError;

impl Resource {
    /// Puts messages for it on its agenda, or none of them.
    ///
    /// # Errors
    /// When memory runs out. The messages come back in their order, and where their keys were new the resource is as
    /// it was.
    pub fn receive(&mut self, messages: Vec<Message>) -> Result<(), (AllocError, Vec<Message>)>
        ensures received { OnOk result (HasReceived messages.items self.old self.new) }
        ensures back { IfErr result (λ e. e.1.items ≡ messages.items) }
        ensures err { OnErr result (AreNew self.old.tree.resource messages.items self.old.agenda → IsSame self.old self.new) }
    {
        let resource = self.tree.resource();
        self.agenda.receive(resource, messages)
    }
}
