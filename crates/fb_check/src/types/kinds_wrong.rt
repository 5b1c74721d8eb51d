//! Where declared values, parameters, guards or statements have the wrong kind (E22).

ghost use Rattle.std.specs.Prelude.{◌≡◌, ◌++◌, [], All, IfOk};
ghost use Rattle.fb_types.specs.Kinds.{KindWrong};
ghost use Rattle.fb_types.specs.Flat.{kind_of};
ghost use Rattle.fb_types.specs.Repeated as repeated;
ghost use Rattle.fb_types.specs.declared.deploy.Plan.{Plan};
ghost use Rattle.fb_types.specs.declared.library.BlockType.TheVariants.{Basic};
ghost use Rattle.fb_check_names.specs.Catalog.{IsBlock, IsCatalog};
ghost use Rattle.fb_check_names.specs.Numbers.{IsResolved};
ghost use Rattle.fb_check.specs.types.Checks.{AreBlocks, is_guard_right};
ghost use Rattle.fb_check.specs.types.Insides.{AreAllInside, AreInside};
ghost use Rattle.fb_check_names.specs.Listed.{each_at};
ghost use Rattle.fb_check.specs.types.KindWrongLists.{kind_wrong_guard, kind_wrong_initial, kinds_wrong_all, kinds_wrong_in_block, kinds_wrong_in_body, kinds_wrong_initial};
ghost use Rattle.fb_check.specs.types.KindsWrong.{IsKindWrongAt};

use crate::networks::push_wrong_parameters;
use crate::types::Scope;
use crate::types::statements::push_in_body;
use fb_check_names::{
    BlockIndexes, Catalog, KindWrongAt, NetworkNumbers, Resolved, Site, Variables, push_unless,
};
use fb_types::{Algorithm, BasicType, BlockType, Items, Library, Transition, ValueKind, Variable};
use std::alloc::{AllocError, Global};

/// Adds the variables that are declared with a value not of their type.
fn push_variables(
    found: &mut Vec<KindWrongAt>,
    block: usize,
    list: Variables,
    variables: &[Variable],
) -> Result<(), AllocError>
    ensures { IfOk result (λ _. found.new.items ≡ found.old.items ++ each_at (kind_wrong_initial block list) variables.now) }
{
    for (variable, declared) in variables.iter().enumerate() {
        let location = KindWrongAt::Initial {
            block,
            variables: list,
            variable,
        };
        push_unless(found, declared.is_declared_right(), location)?;
    }
    Ok(())
}

/// The internal variables of a block type.
pub fn internals_of(block: &BlockType) -> &[Variable]
    ensures { result.now ≡ repeated.internals_of (kind_of block.now) }
{
    match block {
        BlockType::Basic(basic) => basic.internals.as_slice(),
        BlockType::Composite(_) => &[],
    }
}

/// Adds the variables of a block type that are declared with such a value.
fn push_initials(
    found: &mut Vec<KindWrongAt>,
    block: usize,
    declared: &BlockType,
) -> Result<(), AllocError>
    ensures { IfOk result (λ _. found.new.items ≡ found.old.items ++ kinds_wrong_initial block declared.now) }
{
    let ports = declared.ports();
    let inputs = ports.inputs.as_slice();
    let outputs = ports.outputs.as_slice();
    push_variables(found, block, Variables::Inputs, inputs)
        .and(push_variables(found, block, Variables::Outputs, outputs))
        .and(push_variables(found, block, Variables::Internals, internals_of(declared)))
}

/// Whether the guard of a transition, if it has one, is a truth value.
fn is_guard_right(scope: &Scope, transition: &Transition) -> bool
    ensures { result ≡ is_guard_right scope.now transition.now }
{
    match &transition.condition.guard {
        Some(guard) => scope.has_kind(ValueKind::TruthValue, guard),
        None => true,
    }
}

/// Adds the transitions whose guards are not truth values.
fn push_guards(
    found: &mut Vec<KindWrongAt>,
    scope: &Scope,
    block: usize,
    transitions: &[Transition],
) -> Result<(), AllocError>
    ensures { IfOk result (λ _. found.new.items ≡ found.old.items ++ each_at (kind_wrong_guard scope.now block) transitions.now) }
{
    for (transition, declared) in transitions.iter().enumerate() {
        let is_right = is_guard_right(scope, declared);
        push_unless(found, is_right, KindWrongAt::Guard { block, transition })?;
    }
    Ok(())
}

/// Adds the wrong statements of algorithms.
fn push_in_bodies(
    alloc: Global,
    found: &mut Vec<KindWrongAt>,
    scope: &Scope,
    block: usize,
    algorithms: &[Algorithm],
) -> Result<(), AllocError>
    ensures { IfOk result (λ _. found.new.items ≡ found.old.items ++ each_at (kinds_wrong_in_body scope.now block) algorithms.now) }
{
    for (algorithm, declared) in algorithms.iter().enumerate() {
        push_in_body(alloc, found, scope, block, algorithm, declared)?;
    }
    Ok(())
}

/// Adds the wrong guards and statements of a basic type. The indexes are those of its names.
fn push_in_basic(
    alloc: Global,
    found: &mut Vec<KindWrongAt>,
    block: usize,
    basic: &BasicType,
    indexes: &BlockIndexes,
) -> Result<(), AllocError>
    requires { IsBlock (Basic basic.now) indexes.now }
    ensures { IfOk result (λ _. found.new.items ≡ found.old.items ++ (each_at (kind_wrong_guard basic.now block) basic.now.transitions ++ each_at (kinds_wrong_in_body basic.now block) basic.now.algorithms)) }
{
    let scope = Scope::new(basic, indexes);
    push_guards(found, &scope, block, basic.transitions.as_slice()).and(push_in_bodies(
        alloc,
        found,
        &scope,
        block,
        basic.algorithms.as_slice(),
    ))
}

/// Adds what is wrong in a block type: its variables, and then what is inside. The indexes are those of its names, and
/// the numbers those of its network.
fn push_in_block(
    alloc: Global,
    found: &mut Vec<KindWrongAt>,
    library: &Library,
    block: usize,
    declared: &BlockType,
    indexes: &BlockIndexes,
    numbers: &Option<NetworkNumbers>,
) -> Result<(), AllocError>
    requires indexes { IsBlock declared.now indexes.now }
    requires numbers { AreInside library.now declared.now numbers.now }
    ensures { IfOk result (λ _. found.new.items ≡ found.old.items ++ kinds_wrong_in_block library.now block declared.now) }
{
    push_initials(found, block, declared)?;
    match (declared, numbers) {
        (BlockType::Basic(basic), _) => push_in_basic(alloc, found, block, basic, indexes),
        (BlockType::Composite(composite), Some(numbers)) => {
            let site = Site::Inside(block);
            push_wrong_parameters(found, library, site, &composite.network, numbers)
        }
        (BlockType::Composite(_), None) => Ok(()),
    }
}

/// The same for the block types of a declaration.
fn push_in_blocks(
    alloc: Global,
    found: &mut Vec<KindWrongAt>,
    library: &Library,
    indexes: &[BlockIndexes],
    numbers: &Items<Option<NetworkNumbers>>,
) -> Result<(), AllocError>
    requires indexes { AreBlocks library.now.blocks indexes.now }
    requires numbers { AreAllInside library.now numbers.now }
    ensures { IfOk result (λ _. found.new.items ≡ found.old.items ++ each_at (kinds_wrong_in_block library.now) library.now.blocks) }
{
    let blocks = library.blocks.as_slice();
    for (block, declared) in blocks.iter().enumerate() {
        let Some(numbers) = numbers.get(block) else {
            return Ok(());
        };
        push_in_block(
            alloc,
            found,
            library,
            block,
            declared,
            &indexes[block],
            numbers,
        )?;
    }
    Ok(())
}

/// All locations at which a value, an expression or a statement has the wrong kind, in the order of the declaration. The
/// indexes and the numbers are those of the declaration.
///
/// # Errors
///
/// When memory runs out.
pub fn kind_wrong_locations(
    alloc: Global,
    library: &Library,
    catalog: &Catalog,
    numbers: &Resolved,
) -> Result<Vec<KindWrongAt>, AllocError>
    requires catalog { (plan : Plan) × IsCatalog library.now plan catalog.now }
    requires numbers { (plan : Plan) × IsResolved library.now plan numbers.now }
    ensures listed { IfOk result (λ found. found.items ≡ kinds_wrong_all library.now) }
    ensures each { IfOk result (λ found. All (IsKindWrongAt library.now) found.items) }
    ensures none { IfOk result (λ found. found.items ≡ [] → ¬ (KindWrong library.now)) }
{
    let mut found = Vec::new(alloc);
    let indexes = catalog.blocks.as_slice();
    let network = &library.application.network;
    let site = Site::Application;
    push_in_blocks(alloc, &mut found, library, indexes, &numbers.blocks)
        .and(push_wrong_parameters(&mut found, library, site, network, &numbers.application))
        .and(Ok(found))
}
