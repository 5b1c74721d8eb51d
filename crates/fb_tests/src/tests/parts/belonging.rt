//! Whether lines and ends belong to a system, which is what may be written.

ghost use Rattle.std.specs.Prelude.{All, IsTrue};
ghost use Rattle.fb_system.specs.OfSystem.{BelongsTo};
ghost use Rattle.fb_trace.specs.OfSystem.{EndsIn};

use fb_system::System;
use fb_trace::Outcome;
use fb_types::Line;

fn belongs(system: &System, line: &Line) -> bool
    ensures { IsTrue result → BelongsTo system.now line.now }
{
    if line.instance as usize >= system.count()
        || line.key.resource as usize >= system.resources()
    {
        return false;
    }
    let ports = system.ports(line.instance);
    let event = line.event as usize;
    if line.taken {
        event < ports.event_inputs.len()
            && line.values.as_slice().len() == system.inputs_with(line.instance, line.event).len()
    } else {
        event < ports.event_outputs.len()
            && line.values.as_slice().len() == system.outputs_with(line.instance, line.event).len()
    }
}

pub fn all_belong(system: &System, lines: &[Line]) -> bool
    ensures { IsTrue result → All (BelongsTo system.now) lines.now }
{
    for line in lines {
        if !belongs(system, line) {
            return false;
        }
    }
    true
}

pub fn ends_in(system: &System, end: &Outcome) -> bool
    ensures { IsTrue result → EndsIn system.now end.now }
{
    match end {
        Outcome::End(_) => true,
        Outcome::Stop(mark) => (mark.resource as usize) < system.resources(),
    }
}
