//! Finds the names for the numbers of a line.

ghost use Rattle.std.specs.Prelude.{◌≡◌, ◌<◌, length, if◌then◌else◌};
ghost use Rattle.fb_types.specs.Numbers.{event_at};
ghost use Rattle.fb_types.specs.OfSystem.{path_at, ports_at};
ghost use Rattle.fb_system.specs.IndexLists.{AreIndexes};
ghost use Rattle.fb_system.specs.OfSystem.{BelongsTo, line_variables};
ghost use Rattle.fb_trace.specs.Starts.{head_of_line};

use fb_system::{HeadOf, System};
use fb_types::{Line, Ports, Variable};

/// What the head of a line belongs to.
#[inline(always)]
pub(crate) fn head_of(line: &Line) -> HeadOf
    ensures { result ≡ head_of_line line.now }
{
    HeadOf {
        resource: line.key.resource,
        instance: line.instance,
        event: line.event,
        taken: line.taken,
    }
}

/// The name of a line's event, by the interface of its instance.
#[inline(always)]
pub(crate) fn event_name<'a>(ports: &'a Ports, line: &Line) -> &'a [u8]
    requires { line.now.event < length (if line.now.taken then ports.now.event_inputs else ports.now.event_outputs) }
    ensures { result.now ≡ (if line.now.taken then event_at ports.now.event_inputs line.now.event else event_at ports.now.event_outputs line.now.event) }
{
    let event = line.event as usize;
    if line.taken {
        ports.event_inputs.as_slice()[event].name.as_bytes()
    } else {
        ports.event_outputs.as_slice()[event].name.as_bytes()
    }
}

/// The indexes of the variables WITH a line's event, and whether they are inputs or outputs.
#[derive(Clone, Copy)]
pub(crate) struct Shown<'a> {
    pub(crate) variables: &'a [Variable],
    pub(crate) indexes: &'a [u32],
}

/// The variables WITH a line's event, by the interface of its instance.
#[inline(always)]
pub(crate) fn shown_by<'a>(system: &'a System, ports: &'a Ports, line: &Line) -> Shown<'a>
    requires belongs { BelongsTo system.now line.now }
    requires ports { ports.now ≡ ports_at system.now (path_at system.now line.now.instance) }
    ensures { AreIndexes result.variables.now (line_variables system.now line.now) result.indexes.now }
{
    if line.taken {
        Shown {
            variables: ports.inputs.as_slice(),
            indexes: system.inputs_with(line.instance, line.event),
        }
    } else {
        Shown {
            variables: ports.outputs.as_slice(),
            indexes: system.outputs_with(line.instance, line.event),
        }
    }
}
