//! The instances by number: a composite before its components, and these before its next sibling.

ghost use Rattle.std.specs.Prelude.{◌≡◌, ◌++◌, ◌∷◌, [], ◌+◌, ◌≤◌, length, IfOk, OnOk, None, ℕ, option_map};
ghost use Rattle.fb_types.specs.Flat.{paths_of};
ghost use Rattle.fb_types.specs.Joined.{TooHigh};
ghost use Rattle.fb_types.specs.Repeated.{NameTwice};
ghost use Rattle.fb_types.specs.declared.deploy.Plan.{Plan};
ghost use Rattle.fb_check_names.specs.Numbers.{IsResolved};
ghost use Rattle.fb_system.specs.Layers as spec;
ghost use Rattle.fb_system.specs.Layouts.{IsLayout};

use fb_check_names::{NetworkNumbers, Resolved, TypeNumber};
use fb_types::{BlockType, Instance, Items, Library, Network};
use std::alloc::{AllocError, Global};

/// The greatest depth of an instance: in composites of the greatest height, the components of the innermost one.
const DEPTH: usize = 17;

/// One instance.
#[derive(Drop)]
pub struct InstanceRow {
    /// The instance names from the outermost, joined by full stops.
    pub path: Items<u8>,
    /// Its type.
    pub kind: TypeNumber,
    /// The number of the composite that contains it, or none for an instance of the application.
    pub parent: Option<u32>,
    /// The indexes of the components on the path to it, from the outermost.
    pub route: Items<u32>,
    /// The numbers of its components, in the order of the text.
    pub components: Items<u32>,
}

/// All instances of an application.
#[derive(Drop)]
pub struct Layout {
    /// The row of each instance, indexed by its number.
    pub rows: Items<InstanceRow>,
    /// The numbers of the instances of the application itself, in the order of the text.
    pub top: Items<u32>,
}

/// The composite that a network is inside of.
#[derive(Clone, Copy)]
struct Outside<'a> {
    number: u32,
    row: &'a InstanceRow,
}

/// A network with the composite that it is inside of, or none for the application's.
#[derive(Clone, Copy)]
struct Enclosed<'a, 'b, 'c> {
    network: &'a Network,
    types: &'b Items<TypeNumber>,
    outside: Option<Outside<'c>>,
}

/// The instances of a network, including all that are inside them.
#[derive(Drop)]
struct Layer {
    rows: Vec<InstanceRow>,
    /// The numbers of the instances in the network itself.
    numbers: Items<u32>,
}

impl Layer {
    fn new(alloc: Global) -> Layer
        ensures rows { result.rows.items ≡ [] }
        ensures numbers { result.numbers ≡ [] }
    {
        Layer {
            rows: Vec::new(alloc),
            numbers: Items::new(alloc),
        }
    }

    /// Adds an instance and the instances inside it.
    fn add(&mut self, number: u32, mut row: InstanceRow, inside: Layer) -> Result<(), AllocError>
        ensures rows { OnOk result (self.new.rows.items ≡ self.old.rows.items ++ spec.with_components row inside.numbers ∷ inside.rows.items) }
        ensures numbers { OnOk result (self.new.numbers ≡ self.old.numbers ++ number ∷ []) }
    {
        let Layer { mut rows, numbers } = inside;
        row.components = numbers;
        self.rows.push(row)?;
        self.rows.append(&mut rows)?;
        self.numbers.push(number)
    }
}

/// The network inside an instance of a type, with its numbers.
fn network_inside<'a>(
    library: &'a Library,
    numbers: &'a Resolved,
    kind: TypeNumber,
) -> Option<(&'a Network, &'a NetworkNumbers)>
    ensures { option_map (λ n. (n.0.now, n.1.now)) result ≡ spec.network_inside library.now numbers.now kind }
{
    match kind {
        TypeNumber::Event(_) => None,
        TypeNumber::Declared(index) => match library.blocks.get(index)? {
            BlockType::Basic(_) => None,
            BlockType::Composite(composite) => match numbers.blocks.get(index)? {
                Some(inner) => Some((&composite.network, inner)),
                None => None,
            },
        },
    }
}

/// The text of the path of an instance.
fn path_under(
    alloc: Global,
    outside: Option<Outside>,
    instance: &Instance,
) -> Result<Items<u8>, AllocError>
    ensures { IfOk result (λ p. p ≡ spec.path_under (spec.around outside.entry) instance.now.name) }
{
    let name = instance.name.as_bytes();
    match outside {
        None => Items::from_slice(alloc, name),
        Some(composite) => {
            let mut path = Vec::from_slice(alloc, composite.row.path.as_slice())?;
            path.push(b'.')?;
            path.extend_from_slice(name)?;
            Ok(Items::from_vec(path))
        }
    }
}

/// The indexes of the components on the path to an instance.
fn route_under(
    alloc: Global,
    outside: Option<Outside>,
    index: u32,
) -> Result<Items<u32>, AllocError>
    ensures { IfOk result (λ r. r ≡ spec.route_under (spec.around outside.entry) ++ index ∷ []) }
{
    let mut route = match outside {
        None => Items::new(alloc),
        Some(composite) => Items::from_slice(alloc, composite.row.route.as_slice())?,
    };
    route.push(index)?;
    Ok(route)
}

/// The row of an instance, before its components are known.
fn row_under(
    alloc: Global,
    outside: Option<Outside>,
    instance: &Instance,
    kind: TypeNumber,
    index: u32,
) -> Result<InstanceRow, AllocError>
    ensures { IfOk result (λ r. r ≡ spec.row_under (spec.around outside.entry) instance.now kind index []) }
{
    Ok(InstanceRow {
        path: path_under(alloc, outside, instance)?,
        kind,
        parent: outside.map(|composite| composite.number),
        route: route_under(alloc, outside, index)?,
        components: Items::new(alloc),
    })
}

/// Lays out a network up to this depth of names. Its first instance gets the number `first`.
fn lay_out(
    alloc: Global,
    depth: usize,
    library: &Library,
    numbers: &Resolved,
    site: Enclosed<'_, '_, '_>,
    first: u32,
) -> Result<Layer, AllocError>
    requires { first + length (spec.layer depth library.now numbers.now (spec.around site.outside) first site.network.now site.types.now).rows ≤ 4096 }
    ensures rows { IfOk result (λ l. l.rows.items ≡ (spec.layer depth library.now numbers.now (spec.around site.entry.outside) first site.entry.network.now site.entry.types.now).rows) }
    ensures numbers { IfOk result (λ l. l.numbers ≡ (spec.layer depth library.now numbers.now (spec.around site.entry.outside) first site.entry.network.now site.entry.types.now).numbers) }
{
    let mut layer = Layer::new(alloc);
    if depth == 0 {
        return Ok(layer);
    }
    let instances = site.network.instances.as_slice();
    for (index, instance) in instances.iter().enumerate() {
        let Some(kind) = site.types.get(index) else {
            return Ok(layer);
        };
        let number = first + layer.rows.len() as u32;
        let row = row_under(alloc, site.outside, instance, *kind, index as u32)?;
        let inside = match network_inside(library, numbers, *kind) {
            None => Layer::new(alloc),
            Some((network, inner)) => {
                let site = Enclosed {
                    network,
                    types: &inner.types,
                    outside: Some(Outside { number, row: &row }),
                };
                lay_out(alloc, depth - 1, library, numbers, site, number + 1)?
            }
        };
        layer.add(number, row, inside)?;
    }
    Ok(layer)
}

/// The instances of an application, at most 4,096, by number. A row is moved once for each composite around its
/// instance, and its route has that length, so the time is linear in the paths and routes together.
pub(crate) fn layout_of(
    alloc: Global,
    library: &Library,
    numbers: &Resolved,
) -> Result<Layout, AllocError>
    requires resolved { (plan : Plan) × (¬ (NameTwice library.now plan)) × IsResolved library.now plan numbers.now }
    requires height { ¬ (TooHigh library.now) }
    requires few { length (paths_of library.now) ≤ 4096 }
    ensures { IfOk result (IsLayout library.now) }
{
    let site = Enclosed {
        network: &library.application.network,
        types: &numbers.application.types,
        outside: None,
    };
    let Layer { rows, numbers: top } = lay_out(alloc, DEPTH, library, numbers, site, 0)?;
    Ok(Layout {
        rows: Items::from_vec(rows),
        top,
    })
}
