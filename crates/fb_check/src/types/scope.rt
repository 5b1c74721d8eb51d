//! The meaning of the names in the chart and the bodies of a basic type.

ghost use Rattle.std.specs.Prelude.{◌≡◌, is_some};
ghost use Rattle.fb_types.specs.Blocks.{among, is_input, types_of, variable_names, variables_of};
ghost use Rattle.fb_types.specs.Kinds.{is_value_kind, value_kind_of};
ghost use Rattle.fb_types.specs.Syntax.{expr_of};
ghost use Rattle.fb_types.specs.Repeated.{algorithm_names, state_names};
ghost use Rattle.fb_types.specs.declared.library.BlockType.TheVariants.{Basic};
ghost use Rattle.fb_check_names.specs.Catalog.{IsBlock};

use crate::types::interface::Interface;
use crate::types::value_kinds::{Typing, is_value_kind};
use fb_check_names::{BlockIndexes, PortKind, index_of_name};
use fb_types::{BasicType, Expr, Name, Ty, ValueKind};
use std::marker::Model;

/// A basic type, whose names have indexes. Contracts see the type.
#[derive(Drop)]
pub struct Scope<'a, 'n> {
    block: &'a BasicType,
    indexes: &'a BlockIndexes<'n>,
}

impl<'a, 'n> Model for Scope<'a, 'n> {
    ghost use Rattle.std.specs.Coded.{codes};
    ghost use Rattle.fb_types.specs.declared.library.BasicType.{BasicType};
    ghost use Rattle.fb_types.specs.contracts.text.Expr as expr;
    ghost use Rattle.fb_types.specs.contracts.text.Stmt as stmt;
    ghost use Rattle.fb_types.specs.declared.library.BlockType.TheVariants.{Basic};
    ghost use Rattle.fb_check_names.specs.Catalog.{IsBlock};

    ghost Value = { BasicType };

    ghost coded = { Prim.hlevel (codes, expr.the_row.coded, stmt.the_row.coded) };

    ghost view = { λ s. s.block.now };

    ghost invariant = { λ s. IsBlock (Basic s.block.now) s.indexes.now };
}

impl<'a, 'n> Scope<'a, 'n> {
    /// The scope of a basic type. `indexes` has the indexes of its names.
    pub(crate) fn new(block: &'a BasicType, indexes: &'a BlockIndexes<'n>) -> Scope<'a, 'n>
        requires { IsBlock (Basic block.now) indexes.now }
        ensures { result ≡ block.now }
    {
        Scope { block, indexes }
    }

    /// The type.
    pub fn block(&self) -> &'a BasicType
        ensures { result.now ≡ self.now }
    {
        self.block
    }

    /// The ports and the variables of the type.
    pub fn interface(&self) -> Interface<'a, 'n>
        ensures { result ≡ record { ports = self.now.ports; internals = self.now.internals } }
    {
        let block = self.block;
        Interface::new(
            &block.ports,
            block.internals.as_slice(),
            &self.indexes.ports,
        )
    }

    /// Whether a name is that of a state.
    pub fn is_state(&self, name: &Name) -> bool
        ensures { result ≡ among (state_names self.now) name.now }
    {
        index_of_name(&self.indexes.states, name).is_some()
    }

    /// Whether a name is that of an algorithm.
    pub fn is_algorithm(&self, name: &Name) -> bool
        ensures { result ≡ among (algorithm_names self.now) name.now }
    {
        index_of_name(&self.indexes.algorithms, name).is_some()
    }

    /// Whether a name is that of a data input.
    pub fn is_input(&self, name: &Name) -> bool
        ensures { result ≡ is_input self.now.ports name.now }
    {
        self.interface().has_port(PortKind::Input, name)
    }

    /// Whether an expression has the kind.
    pub(crate) fn has_kind(&self, value_kind: ValueKind, expr: &Expr) -> bool
        ensures { result ≡ is_value_kind value_kind (value_kind_of (types_of self.now) (expr_of expr.now)) }
    {
        is_value_kind(value_kind, expr, self)
    }

    /// Whether a name is that of a variable: an input, an output or an internal one.
    pub fn is_variable(&self, name: &Name) -> bool
        ensures { result ≡ among (variable_names (variables_of self.now)) name.now }
    {
        self.interface().type_of(name).is_some()
    }
}

impl<'a, 'n> Typing for Scope<'a, 'n> {
    ghost use Rattle.fb_types.specs.Blocks.{types_of};

    ghost types = { types_of };

    fn type_of(&self, name: &Name) -> Ty {
        self.interface().type_of(name).unwrap_or(Ty::Bool)
    }
}
