//! The blocks, the shells and the held copies of one resource.

ghost use Rattle.std.specs.Prelude.{◌≡◌, ◌<◌, length, ◌∷◌, ◌↔◌, option_map, slice_get, true, false, unwrap_or, IsTrue};
ghost use Rattle.fb_types.specs.Reactions.{World};
ghost use Rattle.fb_types.specs.Headline.{system_of};
ghost use Rattle.fb_types.specs.OfSystem.{IsInstance, path_at};
ghost use Rattle.fb_system.specs.OfSystem.{IsSourceOf, IsVariable, variable_of};
ghost use Rattle.fb_net.specs.Changes.{Changes, Holds, ShowsInside, input_sampled, output_shown};
ghost use Rattle.fb_net.specs.Worlds.{InForest, IsForest, Reads, Represents, Samples, Shows, Stands, index_in, value_in, way_in, with_shell_at};
ghost use Rattle.fb_net.specs.OfSystem.{IsComposite, TakesSamples};

use crate::block::{Block, block_on};
use crate::held_copies::HeldCopies;
use crate::shell::Shell;
use fb_system::{Source, System};
use fb_types::{InstanceVariable, Items, Value};

/// The instances of one resource, and the held copies of the variables of other resources to which they are
/// connected.
pub struct Forest {
    /// The number of the resource.
    pub resource: usize,
    /// For each instance of the application, in the order of the text, the index of its block among `blocks`. That of an
    /// instance of another resource means nothing.
    pub roots: Items<usize>,
    /// The blocks of the instances of the application that are in the resource, in the order of the text. All others
    /// are inside these.
    pub blocks: Items<Block>,
    /// For each instance of the system, the index of its shell among `shells`. That of an instance of another resource
    /// means nothing.
    pub shell_indexes: Items<u32>,
    /// The shells of the instances that are in the resource, in the order of their numbers. They are side by side, and
    /// so each is found at once, however deep its block is.
    pub shells: Items<Shell>,
    pub held: HeldCopies,
}

// Drop is written by hand, so that callers need not prove it again (docs/DECISIONS.md, "Drop").
impl Drop for Forest {
    fn drop(self) {
        let Forest {
            resource: _,
            roots: _,
            blocks: _,
            shell_indexes: _,
            shells: _,
            held: _,
        } = self;
    }
}

/// What represents a value that is not there.
static NOTHING: Value = Value::Whole(0);

impl Forest {
    ghost use Rattle.std.specs.Borrow.{LendsIf, sem};
    ghost use Rattle.fb_net.specs.contracts.shell.Shell.{the_row as shell_row};
    ghost use Rattle.fb_net.specs.contracts.resource.Forest.{the_row};

    /// The way to the block of an instance that is in the resource: an index among `blocks`, and the indexes below,
    /// each among the components of the block before.
    #[inline(always)]
    pub fn way<'a>(&self, system: &'a System, instance: u32) -> (usize, &'a [u32])
        requires { IsInstance system.now instance }
        ensures { result.0 ∷ result.1.now ≡ way_in system.now self.now.roots instance }
    {
        // for the prover: the inputs are accepted
        system.facts();
        match system.route(instance) {
            [] => unreachable!(),
            [index, below @ ..] => {
                let first = self.roots.get(*index as usize).copied().unwrap_or(0);
                (first, below)
            }
        }
    }

    /// The index of the shell of an instance that is in the resource, among those of the resource.
    #[inline(always)]
    pub(crate) fn shell_index(&self, instance: u32) -> usize
        requires { instance < length self.now.shell_indexes }
        ensures { result ≡ index_in self.now.shell_indexes instance }
    {
        self.shell_indexes.as_slice()[instance as usize] as usize
    }

    /// The block of an instance that is in the resource.
    pub(crate) fn block(&self, system: &System, instance: u32) -> &Block
        requires instance { IsInstance system.now instance }
        requires stands { Stands system.now self.now instance }
        ensures { (w : World) → IsForest system.now self.now w → Represents (system_of system.now) (path_at system.now instance) result.now (w.blocks (path_at system.now instance)) }
    {
        let (index, below) = self.way(system, instance);
        match block_on(self.blocks.as_slice(), index, below) {
            Some(block) => block,
            None => unreachable!(),
        }
    }

    /// The shell of an instance that is in the resource.
    #[inline(always)]
    pub(crate) fn shell(&self, system: &System, instance: u32) -> &Shell
        requires instance { IsInstance system.now instance }
        requires stands { Stands system.now self.now instance }
        ensures { slice_get self.now.shells (index_in self.now.shell_indexes instance) ≡ Some result.now }
    {
        // for the prover: the inputs are accepted
        system.facts();
        let shell_index = self.shell_index(instance);
        &self.shells.as_slice()[shell_index]
    }

    /// The shell of an instance that is in the resource, to be changed.
    #[inline(always)]
    pub(crate) fn shell_mut(&mut self, instance: u32) -> Option<&mut Shell>
        requires { instance < length self.old.shell_indexes }
        ensures* writes_back { sem 𝓛 (LendsIf the_row shell_row self.entry result (with_shell_at self.old instance) self.old) }
        ensures value { option_map (λ s. s.now) result ≡ slice_get self.old.shells (index_in self.old.shell_indexes instance) }
    {
        let shell_index = self.shell_index(instance);
        self.shells.get_mut(shell_index)
    }

    /// What connections see at a data output of an instance that is in the resource.
    #[inline(always)]
    pub(crate) fn published(&self, system: &System, output: InstanceVariable) -> &Value
        requires variable { IsVariable system.now output }
        requires output { output.is_output ≡ true }
        requires stands { Stands system.now self.now output.instance }
        ensures { Reads system.now self.now output (λ b. b.published) result.now }
    {
        let shell = self.shell(system, output.instance);
        value_of(shell.published.as_slice(), output.variable)
    }

    /// What a source shows in the resource: what connections see at it, or the held copy where it is in another
    /// resource. The source says where it is.
    #[inline(always)]
    pub(crate) fn shown(&self, system: &System, source: &Source) -> &Value
        requires variable { IsVariable system.now source.now.variable }
        requires place { IsTrue source.now.here ↔ InForest system.now self.now source.now.variable.instance }
        requires whole { (w : World) × IsForest system.now self.now w }
        ensures { Shows system.now self.now source.now.variable result.now }
    {
        // for the prover: the inputs are accepted
        system.facts();
        if !source.here {
            return match self.held.get(&source.variable) {
                Some(value) => value,
                None => &NOTHING,
            };
        }
        let shell = self.shell(system, source.variable.instance);
        if source.variable.is_output {
            value_of(shell.published.as_slice(), source.variable.variable)
        } else {
            // The copy of its data input that a composite shows to its components.
            value_of(shell.inputs.as_slice(), source.variable.variable)
        }
    }

    /// What a data input of an instance that is in the resource samples: what its source shows, if it is connected to
    /// one, or else what a stimulus has set.
    #[inline(always)]
    pub(crate) fn sampled(
        &self,
        system: &System,
        input: InstanceVariable,
        source: &Option<Source>,
    ) -> &Value
        requires variable { IsVariable system.now input }
        requires input { input.is_output ≡ false }
        requires stands { Stands system.now self.now input.instance }
        requires source { IsSourceOf system.now input source.now }
        ensures { Samples system.now self.now input result.now }
    {
        match source {
            Some(source) => self.shown(system, source),
            // What a connection or a stimulus has set.
            None => {
                let shell = self.shell(system, input.instance);
                value_of(shell.slots.as_slice(), input.variable)
            }
        }
    }

    /// What a data output of a composite that is in the resource shows from inside: what its inner source shows, if it
    /// is connected to one, or else what it showed before.
    #[inline(always)]
    pub(crate) fn shown_inside(
        &self,
        system: &System,
        output: InstanceVariable,
        source: &Option<Source>,
    ) -> &Value
        requires variable { IsVariable system.now output }
        requires output { output.is_output ≡ true }
        requires stands { Stands system.now self.now output.instance }
        requires source { IsSourceOf system.now output source.now }
        requires composite { IsComposite system.now output }
        ensures { ShowsInside system.now self.now output result.now }
    {
        match source {
            Some(source) => self.shown(system, source),
            None => self.published(system, output),
        }
    }

    /// A data output of an instance that is in the resource shows another value to connections. The value is lent, so
    /// that it is copied once, to where it stays.
    #[inline(always)]
    pub(crate) fn publish(&mut self, system: &System, output: InstanceVariable, value: &Value)
        requires variable { IsVariable system.now output }
        requires output { output.is_output ≡ true }
        requires stands { Stands system.now self.old output.instance }
        ensures { Changes system.now self.old output.instance (output_shown (variable_of system.now output).name value.now) self.new }
    {
        // for the prover: the inputs are accepted
        system.facts();
        let Some(shell) = self.shell_mut(output.instance) else {
            unreachable!()
        };
        shell.published.set(output.variable as usize, *value);
    }

    /// An event block or a composite that is in the resource samples a data input.
    #[inline(always)]
    pub(crate) fn set_input(&mut self, system: &System, input: InstanceVariable, value: Value)
        requires variable { IsVariable system.now input }
        requires input { input.is_output ≡ false }
        requires stands { Stands system.now self.old input.instance }
        requires takes { TakesSamples system.now input }
        ensures { Changes system.now self.old input.instance (input_sampled (variable_of system.now input).name value) self.new }
    {
        // for the prover: the inputs are accepted
        system.facts();
        let Some(shell) = self.shell_mut(input.instance) else {
            unreachable!()
        };
        shell.inputs.set(input.variable as usize, value);
    }

    /// A message brings a value of a variable of another resource. Where nothing in this resource is connected to the
    /// variable, nothing is kept.
    #[inline(always)]
    pub fn hold(&mut self, system: &System, output: InstanceVariable, value: Value)
        requires { IsVariable system.now output }
        ensures { Holds system.now self.old output value self.new }
    {
        // for the prover: the inputs are accepted
        system.facts();
        self.held.set(&output, value);
    }
}

/// The value at an index. It is lent, so that what reads it copies it once, to where it stays.
#[inline(always)]
fn value_of(values: &[Value], index: u32) -> &Value
    ensures { result.now ≡ value_in values.now index }
{
    match values.get(index as usize) {
        Some(value) => value,
        None => &NOTHING,
    }
}
