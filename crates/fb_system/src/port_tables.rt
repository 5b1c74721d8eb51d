//! Rows of event ports, as the tables of a system give them.

ghost use Rattle.fb_system.specs.IndexLists.{AreIndexes};
ghost use Rattle.fb_system.specs.PortRows.{IsPortRow};
ghost use Rattle.fb_system.specs.OfSystem.{IsPort, port_names, port_variables};

use crate::port_row::{PortRow, With};
use crate::system::System;
use fb_types::{InstanceVariable, Target};

impl System {
    /// The variables WITH the event of a port, and where its first connection leads.
    #[inline(never)]
    pub fn port_by_tables(&self, at: Target) -> PortRow
        requires { IsPort self.now at }
        ensures { IsPortRow self.now at result }
    {
        let with = match self.indexes_with(at) {
            [] => With::Nothing,
            [variable] => {
                let to = InstanceVariable {
                    instance: at.instance,
                    variable: *variable,
                    is_output: at.is_output,
                };
                With::One(*variable, self.placed_source(to))
            }
            _ => With::Several,
        };
        PortRow {
            with,
            first: self.reached(at, 0),
        }
    }

    /// The indexes of the variables WITH the event of a port.
    fn indexes_with(&self, at: Target) -> &[u32]
        requires { IsPort self.now at }
        ensures { AreIndexes (port_variables self.now at) (port_names self.now at) result.now }
    {
        if at.is_output {
            self.outputs_with(at.instance, at.event)
        } else {
            self.inputs_with(at.instance, at.event)
        }
    }
}
