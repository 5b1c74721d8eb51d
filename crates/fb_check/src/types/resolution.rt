//! E21: names that nothing of the required kind has.

ghost use Rattle.std.specs.Prelude.{◌≡◌, ◌++◌, [], IfOk};
ghost use Rattle.fb_check_names.specs.Catalog.{IsCatalog};
ghost use Rattle.fb_check_names.specs.Numbers.{IsResolved};
ghost use Rattle.fb_check_names.specs.Types.{AreTypes};
ghost use Rattle.fb_check.specs.types.Unknowns.{unknown_all};

use crate::types::blocks::blocks_of;
use crate::types::deployment::{held_of, links_of};
use crate::types::ends::NetworkScope;
use crate::types::networks::network_numbers;
use fb_check_names::types::Types;
use fb_check_names::{Catalog, Resolved, Site, UnknownName};
use fb_types::{Library, Plan};
use std::alloc::{AllocError, Global};

/// The declaration and the deployment by number, from the types of the declaration. Adds the names that are unknown.
fn resolve_by(
    alloc: Global,
    found: &mut Vec<UnknownName>,
    plan: &Plan,
    types: &Types,
) -> Result<Resolved, AllocError>
    requires types { AreTypes types.now }
    requires catalog { IsCatalog types.now.library.now plan.now types.now.catalog.now }
    ensures listed { IfOk result (λ _. found.new.items ≡ found.old.items ++ unknown_all types.now.library.now plan.now) }
    ensures numbers { IfOk result (λ r. unknown_all types.now.library.now plan.now ≡ [] → IsResolved types.now.library.now plan.now r) }
{
    let catalog = types.catalog;
    let blocks = blocks_of(alloc, found, types)?;
    let scope = NetworkScope {
        composite: None,
        network: &types.library.application.network,
        instances: &catalog.instances,
    };
    let application = network_numbers(alloc, found, types, Site::Application, &scope)?;
    let resources = plan.resources.as_slice();
    let held = held_of(alloc, found, &catalog.instances, resources)?;
    let links = links_of(alloc, found, &catalog.resources, plan.links.as_slice())?;
    Ok(Resolved {
        application,
        blocks,
        held,
        links,
    })
}

/// The declaration and the deployment by number, if all names are known. Adds the locations at which nothing of the
/// required kind has a name, in the order of the declaration.
///
/// # Errors
///
/// When memory runs out.
pub fn resolve(
    alloc: Global,
    found: &mut Vec<UnknownName>,
    library: &Library,
    plan: &Plan,
    catalog: &Catalog,
) -> Result<Resolved, AllocError>
    requires { IsCatalog library.now plan.now catalog.now }
    ensures listed { IfOk result (λ _. found.new.items ≡ found.old.items ++ unknown_all library.now plan.now) }
    ensures numbers { IfOk result (λ r. unknown_all library.now plan.now ≡ [] → IsResolved library.now plan.now r) }
{
    let types = Types::new(alloc, library, catalog)?;
    resolve_by(alloc, found, plan, &types)
}
