//! The connections of a system by number.

ghost use Rattle.std.specs.Prelude.{◌≡◌, ◌<◌, ◌+◌, ◌↔◌, IsTrue, ◌≤◌, [], length, option_map, slice_get, IfOk, IfSome, Some, ℕ};
ghost use Rattle.fb_types.specs.Blocks.{Kind};
ghost use Rattle.fb_types.specs.Flat.{instance_at, kind_at, number_of, paths_of, source_of, targets_of};
ghost use Rattle.fb_types.specs.Joined.{TooHigh};
ghost use Rattle.fb_types.specs.Repeated.{NameTwice};
ghost use Rattle.fb_types.specs.Text.{path_text};
ghost use Rattle.fb_types.specs.declared.deploy.Plan.{Plan};
ghost use Rattle.fb_types.specs.declared.library.Instance.{Instance as Declared};
ghost use Rattle.fb_check_names.specs.Numbers.{IsResolved, kind_of_number, parameter_numbers};
ghost use Rattle.fb_system.specs.Layouts.{AreComponents, AreNumbers, IsParent, path_of, route_to};
ghost use Rattle.fb_system.specs.Netlists.{IsPort, IsSource, IsTarget, IsVariable, port_of, variable_of};

use crate::declared::{declared_at, parameters_at};
use crate::layout::layout_of;
use crate::making::{bound_all, wirings_of};
use crate::netlist_target::NetlistTarget;
use crate::tables::{EndIn, Tables, entering, leaving, row_at, source_in, target_in};
use crate::wiring::Wiring;
use crate::with_all::with_all;
use fb_check_names::{Resolved, TypeNumber};
use fb_types::{Instance, InstanceVariable, Library, Target};
use std::alloc::{AllocError, Global};
use std::marker::Model;

/// The instances of an accepted declaration, and what their ports are connected to. Contracts see the declaration.
pub struct Netlist {
    tables: Tables,
}

// Drop is written by hand, so that callers need not prove it again (docs/DECISIONS.md, "Drop").
impl Drop for Netlist {
    fn drop(self) {
        let Netlist { tables: _ } = self;
    }
}

impl Model for Netlist {
    ghost use Rattle.fb_types.specs.declared.library.Library.{Library};

    ghost Value = { Library };

    ghost use Rattle.fb_types.specs.contracts.text.Expr as expr;
    ghost use Rattle.fb_types.specs.contracts.text.Stmt as stmt;
    ghost use Rattle.std.specs.Coded.{codes};

    ghost coded = { Prim.hlevel (codes, expr.the_row.coded, stmt.the_row.coded) };

    ghost use Rattle.fb_system.specs.Networks.{IsNetlist};

    ghost view = { λ f. f.tables.library };

    ghost invariant = { λ f. IsNetlist f.tables };
}

impl Netlist {
    /// The netlist of a declaration, made from its numbers. The time is proportional to the instances and the
    /// connections of the declaration.
    ///
    /// # Errors
    ///
    /// When memory runs out. A type with more ports of one kind than 32 bits can number counts as out of memory.
    pub(crate) fn of(
        alloc: Global,
        library: Library,
        numbers: Resolved,
    ) -> Result<Netlist, AllocError>
        requires resolved { (plan : Plan) × (¬ (NameTwice library plan)) × IsResolved library plan numbers }
        requires height { ¬ (TooHigh library) }
        requires few { length (paths_of library) ≤ 4096 }
        ensures { IfOk result (λ f. f ≡ library) }
    {
        bound_all(library.blocks.as_slice());
        let layout = layout_of(alloc, &library, &numbers);
        let application = Wiring::of(alloc, numbers.application);
        let blocks = wirings_of(alloc, numbers.blocks);
        let (library, layout, application, blocks) = with_all(
            library,
            layout,
            application,
            blocks,
        )?;
        Ok(Netlist {
            tables: Tables {
                library,
                layout,
                application,
                blocks,
            },
        })
    }

    /// The declaration.
    pub fn library(&self) -> &Library
        ensures { result.now ≡ self.now }
    {
        &self.tables.library
    }

    /// Facts of every netlist for proofs: there are at most 4,096 instances, and no two have the same path.
    pub fn facts(&self)
        ensures few { length (paths_of self.now) ≤ 4096 }
        ensures numbers { (k : ℕ) → k < length (paths_of self.now) → number_of (paths_of self.now) (path_of self.now k) ≡ k }
    {
        let _tables = &self.tables;
    }

    /// The number of instances, at most 4,096. Their numbers are less than that.
    pub fn count(&self) -> usize
        ensures { result ≡ length (paths_of self.now) }
    {
        self.tables.layout.rows.len()
    }

    /// The type of an instance.
    pub fn kind(&self, instance: u32) -> TypeNumber
        requires { instance < length (paths_of self.now) }
        ensures is { kind_of_number self.now result ≡ kind_at self.now (path_of self.now instance) }
        ensures known { (kind : Kind) × (kind_of_number self.now result ≡ Some kind) }
    {
        row_at(&self.tables, instance).kind
    }

    /// The declaration of an instance.
    pub fn declared(&self, instance: u32) -> &Instance
        requires { instance < length (paths_of self.now) }
        ensures { instance_at self.now (path_of self.now instance) ≡ Some result.now }
    {
        declared_at(&self.tables, instance)
    }

    /// For each parameter of an instance, the index of the data input that it sets.
    pub fn parameters(&self, instance: u32) -> &[usize]
        requires { instance < length (paths_of self.now) }
        ensures { (i : Declared) → instance_at self.now (path_of self.now instance) ≡ Some i → parameter_numbers self.now i ≡ Some result.now }
    {
        parameters_at(&self.tables, instance)
    }

    /// The names of the instances on the path to an instance, from the outermost, joined by full stops.
    pub fn path(&self, instance: u32) -> &[u8]
        requires { instance < length (paths_of self.now) }
        ensures { result.now ≡ path_text (path_of self.now instance) }
    {
        row_at(&self.tables, instance).path.as_slice()
    }

    /// The number of the composite that contains an instance, less than its own, or none for an instance of the
    /// application.
    pub fn parent(&self, instance: u32) -> Option<u32>
        requires { instance < length (paths_of self.now) }
        ensures { IsParent self.now instance result }
    {
        row_at(&self.tables, instance).parent
    }

    /// The indexes of the instances on the path to an instance, each in its network, from the outermost.
    pub fn route(&self, instance: u32) -> &[u32]
        requires { instance < length (paths_of self.now) }
        ensures { result.now ≡ route_to self.now (path_of self.now instance) }
    {
        row_at(&self.tables, instance).route.as_slice()
    }

    /// The numbers of the instances inside a composite, in the order of the text. Any other instance has none.
    pub fn components(&self, instance: u32) -> &[u32]
        requires { instance < length (paths_of self.now) }
        ensures { AreComponents self.now (path_of self.now instance) result.now }
    {
        row_at(&self.tables, instance).components.as_slice()
    }

    /// The numbers of the instances of the application itself, in the order of the text.
    pub fn top(&self) -> &[u32]
        ensures { AreNumbers self.now [] self.now.application.network.instances result.now }
    {
        self.tables.layout.top.as_slice()
    }

    /// Where the event connection leads that has this index among those from an event, in the order of the text. An
    /// event output connects to what is around the instance, an event input of a composite to what is inside. The
    /// answer also says whether another connection follows, so that no caller searches for one after the last.
    pub fn reached(&self, from: Target, index: usize) -> Option<NetlistTarget>
        requires { IsPort self.now from }
        ensures leads { option_map (λ r. port_of self.now r.target) result ≡ slice_get (targets_of self.now (port_of self.now from)) index }
        ensures within { IfSome result (λ r. IsTarget self.now r.target) }
        ensures more { IfSome result (λ r. IsTrue r.more ↔ (index + 1 < length (targets_of self.now (port_of self.now from)))) }
    {
        let EndIn { around, end } = leaving(&self.tables, from);
        target_in(&self.tables, around, end, index)
    }

    /// What a variable is connected to: a data input to what is around the instance, a data output of a composite to
    /// what is inside.
    #[inline(never)]
    pub fn source(&self, to: InstanceVariable) -> Option<InstanceVariable>
        requires { IsVariable self.now to }
        ensures comes { option_map (variable_of self.now) result ≡ source_of self.now (variable_of self.now to) }
        ensures within { IfSome result (IsSource self.now) }
    {
        let EndIn { around, end } = entering(&self.tables, to);
        source_in(&self.tables, around, end)
    }
}
