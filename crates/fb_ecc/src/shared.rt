//! A chart and a program that all blocks of a type share.

ghost use Rattle.std.specs.Prelude.{◌≡◌, IfOk};
ghost use Rattle.fb_ecc.specs.Numbered.{exits_at};
ghost use Rattle.fb_ecc.specs.Opened.{IsOfDeclaration};
ghost use Rattle.fb_ecc.specs.Programs.{IsSharedOf};

use crate::chart::{Chart, Exit};
use crate::program::Program;
use fb_types::{BasicType, Items};
use std::alloc::{AllocError, Global};
use std::marker::Model;
use std::sync::Arc;

/// The chart of a basic type, with its algorithms and guards as they run.
#[derive(Drop)]
pub struct Shared {
    pub chart: Chart,
    pub program: Program,
}

/// The chart and the program of a basic type, which its blocks share. Contracts see both: a share of them is the same.
pub struct SharedChart {
    shared: Arc<Shared, Global>,
}

// Drop is written by hand, so that callers need not prove it again (docs/DECISIONS.md, "Drop").
impl Drop for SharedChart {
    fn drop(self) {
        let SharedChart { shared: _ } = self;
    }
}

impl Model for SharedChart {
    ghost use Rattle.std.specs.Arc.{arc_value};
    ghost use Rattle.fb_ecc.specs.declared.shared.Shared.{Shared};

    ghost Value = { Shared };

    ghost use Rattle.fb_st.specs.contracts.compiled.CompiledStmt as stmt;
    ghost use Rattle.fb_st.specs.contracts.compiled.TruthExpr as truth;
    ghost use Rattle.std.specs.Coded.{codes};

    ghost coded = { Prim.hlevel (codes, stmt.the_row.coded, truth.the_row.coded) };

    ghost view = { λ s. arc_value s.shared };
}

impl SharedChart {
    /// The chart and the program of a type of an accepted declaration.
    ///
    /// # Errors
    /// When memory runs out.
    pub fn of(alloc: Global, block: &BasicType) -> Result<SharedChart, AllocError>
        requires { IsOfDeclaration block.now }
        ensures { IfOk result (IsSharedOf block.now) }
    {
        let chart = Chart::of(alloc, block)?;
        let program = Program::of(alloc, block)?;
        let shared = Arc::new(alloc, Shared { chart, program })?;
        Ok(SharedChart { shared })
    }

    /// The same chart and program. Nothing of them is copied.
    ///
    /// # Errors
    /// When they have more shares than can be counted.
    pub fn share(&self) -> Result<SharedChart, AllocError>
        ensures { IfOk result (λ chart. chart ≡ self.now) }
    {
        let shared = Arc::try_clone(&self.shared)?;
        Ok(SharedChart { shared })
    }

    /// The chart, and the algorithms and guards.
    #[inline(always)]
    pub(crate) fn parts(&self) -> &Shared
        ensures { result.now ≡ self.now }
    {
        &self.shared
    }

    /// The transitions that leave the state at an index, or none where there is no state.
    pub(crate) fn leaving(&self, state: usize) -> &[Exit]
        ensures { result.now ≡ exits_at self.now.chart.rows state }
    {
        match self.shared.chart.rows.get(state) {
            Some(row) => row.exits.as_slice(),
            None => &[],
        }
    }
}
