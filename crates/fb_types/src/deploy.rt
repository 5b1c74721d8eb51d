//! Resources, links and stimuli.

ghost use Rattle.std.specs.Prelude.{◌≡◌, IfOk};
ghost use Rattle.fb_types.specs.Limits.{IsWithinLimits, single};

use crate::items::Items;
use crate::latency::Latency;
use crate::name::Name;
use crate::value::Value;
use std::alloc::{AllocError, Global};
use std::marker::Model;

/// A resource of a device, with the instances of the application that it holds (IEC 61499-1, 7).
pub struct ResourceEntry {
    /// The name of its device.
    pub device: Name,
    /// Its name.
    pub name: Name,
    /// The names of the instances of the application that it holds.
    pub instances: Items<Name>,
}

// Drop is written by hand, so that callers need not prove it again (docs/DECISIONS.md, "Drop").
impl Drop for ResourceEntry {
    fn drop(self) {
        let ResourceEntry {
            device: _,
            name: _,
            instances: _,
        } = self;
    }
}

/// A link, which carries the connections from one resource to another.
pub struct Link {
    /// The resource that sends.
    pub from: Name,
    /// The resource that receives.
    pub to: Name,
    /// How long messages take.
    pub latency: Latency,
}

impl Drop for Link {
    fn drop(self) {
        let Link {
            from: _,
            to: _,
            latency: _,
        } = self;
    }
}

/// Resources and links, each numbered by its index from 0. If `holds_all` is set, the one resource holds every instance,
/// regardless of its list.
pub struct Plan {
    /// The resources, in the order of the deployment.
    pub resources: Items<ResourceEntry>,
    /// The links, in the order of the deployment.
    pub links: Items<Link>,
    /// Set if the one resource holds every instance.
    pub holds_all: bool,
}

impl Drop for Plan {
    fn drop(self) {
        let Plan {
            resources: _,
            links: _,
            holds_all: _,
        } = self;
    }
}

/// A plan within the limits: 1 to 256 resources, only one if it holds all, and at most 1,024 links.
/// Contracts see the plan.
pub struct Deploy {
    plan: Plan,
}

// Drop is written by hand, so that callers need not prove it again (docs/DECISIONS.md, "Drop").
impl Drop for Deploy {
    fn drop(self) {
        let Deploy { plan: _ } = self;
    }
}

impl Model for Deploy {
    ghost use Rattle.fb_types.specs.declared.deploy.Plan.{Plan};
    ghost use Rattle.fb_types.specs.Limits.{IsWithinLimits};

    ghost Value = { Plan };

    ghost view = { λ d. d.plan };

    ghost invariant = { λ d. IsWithinLimits d.plan };
}

impl Deploy {
    /// The deployment of a plan within the limits: 1 to 256 resources, only one if it holds every instance, and at most
    /// 1,024 links, whose latencies are tables as `Latency` has them.
    pub fn new(plan: Plan) -> Deploy
        requires { IsWithinLimits plan }
        ensures { result ≡ plan }
    {
        Deploy { plan }
    }

    /// One resource `MAIN` in the device `DEV`, which holds every instance.
    pub fn single(alloc: Global) -> Result<Deploy, AllocError>
        ensures { IfOk result (λ d. d ≡ single) }
    {
        let main = ResourceEntry {
            device: Name::from_text(alloc, "DEV")?,
            name: Name::from_text(alloc, "MAIN")?,
            instances: Items::new(alloc),
        };
        let mut resources = Items::new(alloc);
        resources.push(main)?;
        let plan = Plan {
            resources,
            links: Items::new(alloc),
            holds_all: true,
        };
        Ok(Deploy { plan })
    }

    /// The plan, which is within the limits.
    pub fn plan(&self) -> &Plan
        ensures value { result.now ≡ self.now }
        ensures limits { IsWithinLimits self.now }
    {
        &self.plan
    }
}

/// A value for the slot of an input variable.
pub struct Setting {
    /// The name of the input variable.
    pub variable: Name,
    /// Its value.
    pub value: Value,
}

impl Drop for Setting {
    fn drop(self) {
        let Setting {
            variable: _,
            value: _,
        } = self;
    }
}

/// An event from outside, at an event input of an instance of the application. It first sets slots.
pub struct Stimulus {
    /// In milliseconds.
    pub tick: u64,
    /// The name of the instance.
    pub instance: Name,
    /// The name of the event input.
    pub event: Name,
    /// The slots that it sets, in the order of the row.
    pub settings: Items<Setting>,
}

impl Drop for Stimulus {
    fn drop(self) {
        let Stimulus {
            tick: _,
            instance: _,
            event: _,
            settings: _,
        } = self;
    }
}
