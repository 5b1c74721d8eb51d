//! Finds the resources of all instances.

ghost use Rattle.std.specs.Prelude.{◌≡◌, ◌<◌, IfOk, OnOk};
ghost use Rattle.fb_types.specs.declared.deploy.Plan.{Plan};
ghost use Rattle.fb_system.specs.Linking.{AreInstanceResources, IsLinked};

use crate::links::Links;
use crate::netlist::Netlist;
use crate::whole::Whole;
use fb_types::Items;
use std::alloc::{AllocError, Global};

/// For each instance, the resource that holds it: that of the application's instance which it is, or is inside of.
fn instance_resources_of(
    alloc: Global,
    netlist: &Netlist,
    links: &Links,
) -> Result<Items<usize>, AllocError>
    ensures { IfOk result (λ instance_resources. (plan : Plan) → IsLinked netlist.now plan links.now → AreInstanceResources netlist.now plan instance_resources) }
{
    netlist.facts(); // for the prover: there are at most 4,096 instances, with different paths
    let mut instance_resources = Items::new(alloc);
    for instance in 0..netlist.count() {
        let instance_resource = match netlist.route(instance as u32).first() {
            Some(index) => links.holder(*index as usize),
            None => 0,
        };
        instance_resources.push(instance_resource)?;
    }
    Ok(instance_resources)
}

/// Fills the resources of all instances into the tables.
pub(crate) fn add_instance_resources(alloc: Global, tables: &mut Whole) -> Result<(), AllocError>
    ensures same { OnOk result (tables.new ≡ record tables.old { instance_resources = tables.new.instance_resources }) }
    ensures instance_resources { OnOk result (IsLinked tables.old.netlist tables.old.deploy tables.old.links → AreInstanceResources tables.old.netlist tables.old.deploy tables.new.instance_resources) }
{
    tables.instance_resources = instance_resources_of(alloc, &tables.netlist, &tables.links)?;
    Ok(())
}
