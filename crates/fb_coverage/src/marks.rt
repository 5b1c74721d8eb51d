//! Which marks there are, and how they are set.

ghost use Rattle.std.specs.Prelude.{◌≡◌, IfOk};
ghost use Rattle.fb_coverage.specs.Sets as spec;
ghost use Rattle.fb_coverage.specs.OfSystem.{opening_marks};

use crate::opening::{part_table, port_table};
use crate::part::{Part, Side};
use crate::table::Table;
use fb_system::System;
use std::alloc::{AllocError, Global};

/// What happened in the charts of basic types. Each table has a row for each declared type, which is empty for a type
/// that is not basic or that no instance has.
pub struct ChartMarks {
    /// States that were entered. The initial one is, as soon as an instance has the type.
    pub states: Table,
    /// Transitions that cleared.
    pub transitions: Table,
    /// Algorithms that ran, also if a reason ended them.
    pub algorithms: Table,
    /// Event inputs at which an event was taken.
    pub taken: Table,
    /// Event inputs at which an event cleared a transition.
    pub clearing: Table,
    /// Set if the event that a basic block took last cleared no transition.
    pub lost: bool,
}

impl Drop for ChartMarks {
    fn drop(self) {
        let ChartMarks {
            states: _,
            transitions: _,
            algorithms: _,
            taken: _,
            clearing: _,
            lost: _,
        } = self;
    }
}

/// What happened at the event ports of instances. Each table has a row for each instance, which is empty for basic
/// blocks.
pub struct PortMarks {
    /// Event inputs at which an event was taken.
    pub inputs: Table,
    /// Event outputs from which an event was emitted.
    pub outputs: Table,
}

impl Drop for PortMarks {
    fn drop(self) {
        let PortMarks {
            inputs: _,
            outputs: _,
        } = self;
    }
}

/// What traces cover of a system.
pub struct Marks {
    /// What happened in charts.
    pub charts: ChartMarks,
    /// What happened at event ports.
    pub ports: PortMarks,
}

impl Drop for Marks {
    fn drop(self) {
        let Marks {
            charts: _,
            ports: _,
        } = self;
    }
}

impl ChartMarks {
    /// The marks of a system before the first event of the first trace.
    fn of(alloc: Global, system: &System) -> Result<ChartMarks, AllocError>
        ensures { IfOk result (λ marks. marks ≡ (opening_marks system.now).charts) }
    {
        Ok(ChartMarks {
            states: part_table(alloc, system, Part::States)?,
            transitions: part_table(alloc, system, Part::Transitions)?,
            algorithms: part_table(alloc, system, Part::Algorithms)?,
            taken: part_table(alloc, system, Part::Events)?,
            clearing: part_table(alloc, system, Part::Events)?,
            lost: false,
        })
    }

    /// A block of a declared type took an event.
    pub fn mark_taken(&mut self, block_type: usize, event: u32)
        ensures { self.new ≡ spec.with_taken block_type event self.old }
    {
        self.taken.set(block_type, event as usize);
        self.lost = false;
    }

    /// A transition of a declared type cleared, and led to a state, when an event had been taken.
    pub fn mark_cleared(&mut self, block_type: usize, transition: usize, target: usize, event: u32)
        ensures { self.new ≡ spec.with_cleared block_type transition target event self.old }
    {
        self.states.set(block_type, target);
        self.transitions.set(block_type, transition);
        self.clearing.set(block_type, event as usize);
    }

    /// The event that was taken last cleared no transition.
    pub fn mark_lost(&mut self)
        ensures { self.new ≡ spec.with_lost self.old }
    {
        self.lost = true;
    }

    /// An algorithm of a declared type ran.
    pub fn mark_ran(&mut self, block_type: usize, algorithm: usize)
        ensures { self.new ≡ spec.with_ran block_type algorithm self.old }
    {
        self.algorithms.set(block_type, algorithm);
    }
}

impl PortMarks {
    /// An event was taken at an event input of an instance, or emitted from an event output.
    pub fn mark(&mut self, instance: u32, taken: bool, event: u32)
        ensures { self.new ≡ spec.with_port instance taken event self.old }
    {
        if taken {
            self.inputs.set(instance as usize, event as usize);
        } else {
            self.outputs.set(instance as usize, event as usize);
        }
    }
}

impl Marks {
    /// Marks of nothing: none can be set.
    pub fn none(alloc: Global) -> Marks
        ensures { result ≡ spec.no_marks }
    {
        Marks {
            charts: ChartMarks {
                states: Table::new(alloc),
                transitions: Table::new(alloc),
                algorithms: Table::new(alloc),
                taken: Table::new(alloc),
                clearing: Table::new(alloc),
                lost: false,
            },
            ports: PortMarks {
                inputs: Table::new(alloc),
                outputs: Table::new(alloc),
            },
        }
    }

    /// The marks of a system before the first event of the first trace.
    ///
    /// # Errors
    /// When memory runs out.
    pub fn of(alloc: Global, system: &System) -> Result<Marks, AllocError>
        ensures { IfOk result (λ marks. marks ≡ opening_marks system.now) }
    {
        Ok(Marks {
            charts: ChartMarks::of(alloc, system)?,
            ports: PortMarks {
                inputs: port_table(alloc, system, Side::Inputs)?,
                outputs: port_table(alloc, system, Side::Outputs)?,
            },
        })
    }
}
