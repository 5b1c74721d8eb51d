//! The compiled algorithms and guards of a basic type. They are compiled once for each type.

ghost use Rattle.std.specs.Prelude.{◌≡◌, ◌++◌, IfOk, IfSome, OnOk, Some, map, slice_get};
ghost use Rattle.fb_types.specs.Blocks.{variable_names, variables_of};
ghost use Rattle.fb_types.specs.Repeated.{Twice};
ghost use Rattle.fb_types.specs.Syntax.{expr_of, stmt_of};
ghost use Rattle.fb_st.specs.Made.{SaysAll, SaysTruth};
ghost use Rattle.fb_ecc.specs.Opened.{IsOfDeclaration};
ghost use Rattle.fb_ecc.specs.Programs.{AreBodies, AreGuards, IsProgramOf};
ghost use Rattle.fb_ecc.specs.Sound.{declared_as, declared_by};

use fb_st::compiled::{CompiledStmt, TruthExpr};
use fb_st::{CompileError, Layout, Scope, compile_body, compile_guard};
use fb_types::{Algorithm, BasicType, Expr, Items, Name, Transition, Ty, Variable};
use std::alloc::{AllocError, Global};

/// The variables of a type by slot, its compiled algorithms and the compiled guards of its transitions. `None`
/// represents a text that has no compiled form, as no accepted text: it runs as it was read.
#[derive(Drop)]
pub struct Program {
    pub layout: Layout,
    pub bodies: Items<Option<Items<CompiledStmt>>>,
    pub guards: Items<Option<TruthExpr>>,
}

/// Adds variables after the others.
fn add_all(
    alloc: Global,
    variables: &[Variable],
    slots: &mut Vec<(Name, Ty)>,
) -> Result<(), AllocError>
    ensures { OnOk result (slots.new.items ≡ slots.old.items ++ map declared_as variables.now) }
{
    for variable in variables {
        let name = variable.name.try_clone(alloc)?;
        slots.push((name, variable.ty))?;
    }
    Ok(())
}

/// The variables of a type: inputs, outputs and internal ones.
fn layout_of(alloc: Global, block: &BasicType) -> Result<Layout, AllocError>
    requires { ¬ (Twice (variable_names (variables_of block.now))) }
    ensures { IfOk result (λ layout. layout ≡ declared_by block.now) }
{
    let mut slots = Vec::new(alloc);
    add_all(alloc, block.ports.inputs.as_slice(), &mut slots)?;
    add_all(alloc, block.ports.outputs.as_slice(), &mut slots)?;
    add_all(alloc, block.internals.as_slice(), &mut slots)?;
    Ok(Layout::of(slots))
}

/// An algorithm, if it has a compiled form.
fn body(
    alloc: Global,
    algorithm: &Algorithm,
    scope: &Scope,
) -> Result<Option<Items<CompiledStmt>>, AllocError>
    ensures { IfOk result (λ body. IfSome body (SaysAll scope.now.layout.now (map stmt_of algorithm.now.body.statements))) }
{
    match compile_body(alloc, &algorithm.body, scope) {
        Ok(codes) => Ok(Some(codes)),
        Err(CompileError::Unfit) => Ok(None),
        Err(CompileError::Memory) => Err(AllocError),
    }
}

/// A guard, if there is one and it has a compiled form.
fn guard(
    alloc: Global,
    guard: &Option<Expr>,
    scope: &Scope,
) -> Result<Option<TruthExpr>, AllocError>
    ensures { IfOk result (λ compiled. IfSome compiled (λ c. (e : Expr) → guard.now ≡ Some e → SaysTruth scope.now.layout.now (expr_of e) c)) }
{
    let Some(guard) = guard else {
        return Ok(None);
    };
    match compile_guard(alloc, guard, scope) {
        Ok(compiled) => Ok(Some(compiled)),
        Err(CompileError::Unfit) => Ok(None),
        Err(CompileError::Memory) => Err(AllocError),
    }
}

fn bodies(
    alloc: Global,
    algorithms: &[Algorithm],
    scope: &Scope,
) -> Result<Items<Option<Items<CompiledStmt>>>, AllocError>
    ensures { IfOk result (AreBodies scope.now.layout.now algorithms.now) }
{
    let mut bodies = Items::new(alloc);
    for algorithm in algorithms {
        bodies.push(body(alloc, algorithm, scope)?)?;
    }
    Ok(bodies)
}

fn guards(
    alloc: Global,
    transitions: &[Transition],
    scope: &Scope,
) -> Result<Items<Option<TruthExpr>>, AllocError>
    ensures { IfOk result (AreGuards scope.now.layout.now transitions.now) }
{
    let mut guards = Items::new(alloc);
    for transition in transitions {
        guards.push(guard(alloc, &transition.condition.guard, scope)?)?;
    }
    Ok(guards)
}

/// The compiled forms of a type, for a layout of its variables.
fn forms(
    alloc: Global,
    block: &BasicType,
    layout: &Layout,
) -> Result<(Items<Option<Items<CompiledStmt>>>, Items<Option<TruthExpr>>), AllocError>
    ensures bodies { IfOk result (λ both. AreBodies layout.now block.now.algorithms both.0) }
    ensures guards { IfOk result (λ both. AreGuards layout.now block.now.transitions both.1) }
{
    let scope = Scope::of(alloc, layout)?;
    let bodies = bodies(alloc, block.algorithms.as_slice(), &scope)?;
    let guards = guards(alloc, block.transitions.as_slice(), &scope)?;
    Ok((bodies, guards))
}

impl Program {
    /// The program of a type of an accepted declaration.
    ///
    /// # Errors
    /// When memory runs out.
    pub(crate) fn of(alloc: Global, block: &BasicType) -> Result<Program, AllocError>
        requires { IsOfDeclaration block.now }
        ensures { IfOk result (IsProgramOf block.now) }
    {
        let layout = layout_of(alloc, block)?;
        let (bodies, guards) = forms(alloc, block, &layout)?;
        Ok(Program {
            layout,
            bodies,
            guards,
        })
    }

    /// The algorithm at an index, if it has a compiled form.
    #[inline(always)]
    pub(crate) fn body(&self, index: usize) -> Option<&[CompiledStmt]>
        ensures { IfSome result (λ codes. slice_get self.now.bodies index ≡ Some (Some codes.now)) }
    {
        match self.bodies.get(index)? {
            Some(codes) => Some(codes.as_slice()),
            None => None,
        }
    }

    /// The guard of the transition at an index, if it has a compiled form.
    #[inline(always)]
    pub(crate) fn guard(&self, index: usize) -> Option<&TruthExpr>
        ensures { IfSome result (λ c. slice_get self.now.guards index ≡ Some (Some c.now)) }
    {
        self.guards.get(index)?.as_ref()
    }
}
