//! Emissions, and where events go.

ghost use Rattle.std.specs.Prelude.{◌≡◌, ◌++◌, ◌∷◌, [], ◌<◌, length, map, All, IfOk, OnOk, true};
ghost use Rattle.fb_types.specs.Blocks.{outputs_with};
ghost use Rattle.fb_types.specs.Numbers.{event_at};
ghost use Rattle.fb_types.specs.OfSystem.{IsInstance, line_of, path_at, ports_at};
ghost use Rattle.fb_system.specs.IndexLists.{AreIndexes};
ghost use Rattle.fb_system.specs.Lines.{IsEmission};
ghost use Rattle.fb_system.specs.OfSystem.{BelongsTo, IsCarried, IsPort, IsWith, LeadsTo, port_names, port_variables};
ghost use Rattle.fb_system.specs.PortRows.{IsPortRow};
ghost use Rattle.fb_net.specs.Changes.{Changes};
ghost use Rattle.fb_net.specs.Emitting.{WentOut, bare, carried_by, message_to, out_to, outputs_shown};
ghost use Rattle.fb_net.specs.Steps.{EmitsWell, MayEmit, StaysWhole, ports_in};
ghost use Rattle.fb_net.specs.OfSystem.{outputs_at};
ghost use Rattle.fb_net.specs.Worlds.{Stands};

use crate::outbox::{Out, Outbox, OutgoingMessage};
use crate::resource::Forest;
use crate::taking::Taking;
use fb_system::{NextTarget, PortRow, System, With};
use fb_types::{
    Carried, Emission, Emits, InstanceVariable, Key, Line, MessageValues, Target, Value, Values,
};
use std::alloc::{AllocError, Global};
use std::slice::from_ref;

/// What is looked up of an event port: its row, if it is kept, or else one that is made of the tables.
#[inline(always)]
pub(crate) fn row_of(system: &System, at: Target) -> PortRow
    requires { IsPort system.now at }
    ensures { IsPortRow system.now at result }
{
    match system.kept_port(at) {
        Some(row) => *row,
        None => system.port_by_tables(at),
    }
}

/// The indexes of the variables WITH the event of a port.
#[inline(always)]
pub(crate) fn indexes_of<'a>(system: &'a System, at: Target, with: &'a With) -> &'a [u32]
    requires port { IsPort system.now at }
    requires with { IsWith system.now at with.now }
    ensures { AreIndexes (port_variables system.now at) (port_names system.now at) result.now }
{
    match with {
        With::Nothing => &[],
        With::One(variable, _) => from_ref(variable),
        With::Several => {
            if at.is_output {
                system.outputs_with(at.instance, at.event)
            } else {
                system.inputs_with(at.instance, at.event)
            }
        }
    }
}

/// Puts out an event that goes to a target: a local event where the target is in the same resource, as most are, else a
/// message. The target says which, and the link to it.
#[inline(always)]
fn put_out(
    outs: &mut Vec<Out>,
    reached: &NextTarget,
    instance: u32,
    indexes: &[u32],
    values: &[Value],
) -> Result<(), AllocError>
    ensures { OnOk result (outs.new.items ≡ outs.old.items ++ out_to reached.now (carried_by instance indexes.now values.now) ∷ []) }
{
    if reached.here {
        outs.reserve(1)?;
        outs.push_reserved(Out::Local(reached.target));
        return Ok(());
    }
    put_message(outs, reached, instance, indexes, values)
}

/// Puts out a message to a target in another resource, with the values of data outputs of the instance, each at its
/// index. They are put together for it alone.
#[inline(never)]
fn put_message(
    outs: &mut Vec<Out>,
    reached: &NextTarget,
    instance: u32,
    indexes: &[u32],
    values: &[Value],
) -> Result<(), AllocError>
    ensures { OnOk result (outs.new.items ≡ outs.old.items ++ message_to reached.now (carried_by instance indexes.now values.now) ∷ []) }
{
    let values = carried_values(*outs.allocator(), instance, indexes, values)?;
    outs.reserve(1)?;
    outs.push_reserved(Out::Send(OutgoingMessage {
        link: u32::from(reached.link),
        target: reached.target,
        values,
    }));
    Ok(())
}

/// The values that a message carries, each with the data output that it is of. One alone is in place and takes no
/// memory.
#[inline(always)]
fn carried_values(
    alloc: Global,
    instance: u32,
    indexes: &[u32],
    values: &[Value],
) -> Result<MessageValues, AllocError>
    ensures { IfOk result (λ carried. carried ≡ carried_by instance indexes.now values.now) }
{
    if let [index] = indexes {
        if let Some(value) = values.first() {
            return Ok(MessageValues::one(instance, *index, *value));
        }
    }
    let carried = carried_each(alloc, instance, indexes, values)?;
    Ok(MessageValues::from_vec(carried))
}

/// The values that a message carries, any number of them, on the heap.
#[inline(never)]
fn carried_each(
    alloc: Global,
    instance: u32,
    indexes: &[u32],
    values: &[Value],
) -> Result<Vec<Carried>, AllocError>
    ensures { IfOk result (λ carried. carried.items ≡ carried_by instance indexes.now values.now) }
{
    indexes
        .iter()
        .zip(values)
        .map(|(index, value)| Carried {
            instance,
            variable: *index,
            value: *value,
        })
        .collect(alloc)
}

/// Sends an event from a port to where its connections lead, the first to `first`, in their order, with the values of
/// data outputs of its instance, each at its index. Each target after the first costs one lookup, and a message memory
/// for several values. The error is that memory runs out.
#[inline(always)]
pub(crate) fn send_out(
    outs: &mut Vec<Out>,
    system: &System,
    from: Target,
    first: &Option<NextTarget>,
    indexes: &[u32],
    values: &[Value],
) -> Result<(), AllocError>
    requires port { IsPort system.now from }
    requires first { LeadsTo system.now from 0 first.now }
    requires carried { All (IsCarried system.now) (carried_by from.instance indexes.now values.now) }
    ensures { OnOk result (WentOut system.now from (carried_by from.instance indexes.now values.now) outs.old.items outs.new.items) }
{
    let mut next = *first;
    let mut index = 0;
    while let Some(reached) = next {
        put_out(outs, &reached, from.instance, indexes, values)?;
        if !reached.more {
            return Ok(());
        }
        index += 1;
        next = system.reached(from, index);
    }
    Ok(())
}

/// Writes the line of an event that was taken at a port of an instance. The error is that memory runs out.
#[inline(always)]
pub fn write_taken(
    outbox: &mut Outbox,
    system: &System,
    key: &Key,
    at: Target,
    values: Values,
) -> Result<(), AllocError>
    requires port { IsPort system.now at }
    requires line { BelongsTo system.now (record { key = key.now; taken = true; instance = at.instance; event = at.event; values = values }) }
    ensures written { OnOk result (map (line_of system.now) outbox.new.lines.items ≡ map (line_of system.now) outbox.old.lines.items
        ++ line_of system.now (record { key = key.now; taken = true; instance = at.instance; event = at.event; values = values }) ∷ []) }
    ensures lines { OnOk result (All (BelongsTo system.now) outbox.old.lines.items → All (BelongsTo system.now) outbox.new.lines.items) }
    ensures outs { outbox.new.outs.items ≡ outbox.old.outs.items }
    ensures timer { outbox.new.timer ≡ outbox.old.timer }
{
    outbox.lines.reserve(1)?;
    outbox.lines.push_reserved(Line {
        key: *key,
        taken: true,
        instance: at.instance,
        event: at.event,
        values,
    });
    Ok(())
}

/// Publishes values at data outputs of an instance, each at its index.
fn publish_all(
    forest: &mut Forest,
    system: &System,
    instance: u32,
    indexes: &[u32],
    values: &[Value],
)
    requires instance { IsInstance system.now instance }
    requires stands { Stands system.now forest.old instance }
    requires within { All (λ k. k < length (ports_at system.now (path_at system.now instance)).outputs) indexes.now }
    ensures { Changes system.now forest.old instance (outputs_shown (outputs_at system.now instance indexes.now values.now)) forest.new }
{
    for (index, value) in indexes.iter().zip(values) {
        let output = InstanceVariable {
            instance,
            variable: *index,
            is_output: true,
        };
        forest.publish(system, output, value);
    }
}

impl Taking<'_> {
    /// Emits one output event: its variables are published, it goes where its connections lead, and it has a line. The
    /// error is that memory runs out; each instance has its block then too.
    pub(crate) fn emit_one(&mut self, instance: u32, emission: Emission) -> Result<(), AllocError>
        requires index { MayEmit self.old instance }
        requires emission { IsEmission (ports_in self.old instance) emission }
        ensures emitted { OnOk result (EmitsWell self.old instance (emission ∷ []) self.new) }
        ensures whole { StaysWhole self.old self.new }
    {
        let Emission { event, values } = emission;
        let from = Target {
            instance,
            event,
            is_output: true,
        };
        let PortRow { with, first } = row_of(self.system, from);
        let indexes = indexes_of(self.system, from, &with);
        publish_all(
            self.forest,
            self.system,
            instance,
            indexes,
            values.as_slice(),
        );
        send_out(
            &mut self.outbox.outs,
            self.system,
            from,
            &first,
            indexes,
            values.as_slice(),
        )?;
        self.outbox.lines.reserve(1)?;
        self.outbox.lines.push_reserved(Line {
            key: *self.key,
            taken: false,
            instance,
            event,
            values,
        });
        Ok(())
    }

    /// Emits output events of an instance in their order, as `emit_one` does. What the list has then is open; it keeps
    /// its memory. The error is that memory runs out; each instance has its block then too.
    pub(crate) fn emit_all(&mut self, instance: u32, emits: &mut Emits) -> Result<(), AllocError>
        requires index { MayEmit self.old instance }
        requires emissions { All (IsEmission (ports_in self.old instance)) emits.old }
        ensures emitted { OnOk result (EmitsWell self.old instance emits.old self.new) }
        ensures whole { StaysWhole self.old self.new }
    {
        // Most reactions emit one event with one value. Without this, an event of `charts` takes 2 % more instructions.
        if let Some((event, value)) = emits.only() {
            let from = Target {
                instance,
                event,
                is_output: true,
            };
            let row = row_of(self.system, from);
            if let With::One(variable, _) = &row.with {
                return self.emit_value(instance, event, &row.first, *variable, value);
            }
        }
        while let Some(emission) = emits.pop_first() {
            self.emit_one(instance, emission)?;
        }
        Ok(())
    }

    // Fast paths, for what most events emit: nothing is walked over, and a value is copied once, to where it stays. Without
    // `emit_bare`, by which events are passed on, one of `token` takes 7 % more instructions; without `emit_value`, and
    // `keep_value` for samples, one of `towers` 13 %.

    /// Emits one output event without values: it goes where its connections lead, and it has a line. Errors are as of
    /// `emit_one`.
    #[inline(always)]
    pub(crate) fn emit_bare(&mut self, instance: u32, event: u32) -> Result<(), AllocError>
        requires index { MayEmit self.old instance }
        requires emission { IsEmission (ports_in self.old instance) (bare event) }
        ensures emitted { OnOk result (EmitsWell self.old instance (bare event ∷ []) self.new) }
        ensures whole { StaysWhole self.old self.new }
    {
        let from = Target {
            instance,
            event,
            is_output: true,
        };
        let row = row_of(self.system, from);
        send_out(
            &mut self.outbox.outs,
            self.system,
            from,
            &row.first,
            &[],
            &[],
        )?;
        let values = Values::new(*self.outbox.lines.allocator());
        self.outbox.lines.reserve(1)?;
        self.outbox.lines.push_reserved(Line {
            key: *self.key,
            taken: false,
            instance,
            event,
            values,
        });
        Ok(())
    }

    /// Emits one output event with one variable, which is at `variable`. Errors are as of `emit_one`.
    #[inline(always)]
    pub(crate) fn emit_value(
        &mut self,
        instance: u32,
        event: u32,
        first: &Option<NextTarget>,
        variable: u32,
        value: &Value,
    ) -> Result<(), AllocError>
        requires index { MayEmit self.old instance }
        requires event { event < length (ports_in self.old instance).event_outputs }
        requires first { LeadsTo self.old.system.now (record { instance = instance; event = event; is_output = true }) 0 first.now }
        requires indexes { let its = ports_in self.old instance in AreIndexes its.outputs (outputs_with its (event_at its.event_outputs event)) (variable ∷ []) }
        ensures emitted { OnOk result (EmitsWell self.old instance (record { event = event; values = value.now ∷ [] } ∷ []) self.new) }
        ensures whole { StaysWhole self.old self.new }
    {
        let output = InstanceVariable {
            instance,
            variable,
            is_output: true,
        };
        self.forest.publish(self.system, output, value);
        let from = Target {
            instance,
            event,
            is_output: true,
        };
        send_out(
            &mut self.outbox.outs,
            self.system,
            from,
            first,
            &[variable],
            from_ref(value),
        )?;
        self.outbox.lines.reserve(1)?;
        // The value is copied after the room was asked for, so that it goes straight to its line.
        let values = Values::one(*self.outbox.lines.allocator(), *value);
        self.outbox.lines.push_reserved(Line {
            key: *self.key,
            taken: false,
            instance,
            event,
            values,
        });
        Ok(())
    }
}
