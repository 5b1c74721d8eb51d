//! The system of accepted inputs.

ghost use Rattle.std.specs.Prelude.{◌≡◌, ◌+◌, ◌<◌, ◌≤◌, [], List, ℕ, length, option_map, slice_get, ◌↔◌, IfOk, IfSome, IsTrue, Some};
ghost use Rattle.std.specs.Arc.{arc_value};
ghost use Rattle.fb_types.specs.Flat.{instance_at, latency_at};
ghost use Rattle.fb_types.specs.Headline.{AreAccepted, inputs};
ghost use Rattle.fb_types.specs.Limits.{IsWithinLimits};
ghost use Rattle.fb_types.specs.Numbers.{event_at};
ghost use Rattle.fb_types.specs.Blocks.{inputs_with, outputs_with};
ghost use Rattle.fb_system.specs.IndexLists.{AreIndexes, AreWithIndexes};
ghost use Rattle.fb_system.specs.Stimuli.{IsRowOf, IsStimulusAt};
ghost use Rattle.fb_system.specs.Rows.{IsRow};
ghost use Rattle.fb_types.specs.Headline.{system_of};
ghost use Rattle.fb_types.specs.Simulation.{stimulus_of};
ghost use Rattle.fb_types.specs.declared.deploy.Stimulus.{Stimulus};
ghost use Rattle.fb_types.specs.Text.{path_text};
ghost use Rattle.fb_types.specs.OfSystem.{IsInstance, IsResource, instance_count, kind_at, link_count, path_at, port_of, ports_at, resource_at, resource_count, resource_name, targets_at};
ghost use Rattle.fb_system.specs.Layouts.{AreComponents, AreNumbers, IsParent, route_to};
ghost use Rattle.fb_check_names.specs.Numbers.{kind_of_number};
ghost use Rattle.fb_system.specs.Linking.{AreInstanceResources, IsLinked};
ghost use Rattle.fb_system.specs.PortRows.{IsPortRow};
ghost use Rattle.fb_system.specs.Systems.{inputs_of, IsBare, IsGiven, IsKept, AreTables};
ghost use Rattle.fb_system.specs.OfSystem.{AreTogether, IsHead, IsPort, IsSource, IsSourceOf, IsTarget, IsVariable, LeadsTo, arrival_over, initial_inputs, initial_outputs, link_between, link_of, number_at, receiver_of, sender_of, source_at, variable_of};

use crate::given::Given;
use crate::heads::{Head, HeadOf};
use crate::initial_values::{input_values, output_values};
use crate::instance_resources::add_instance_resources;
use crate::kept::{Kept, kept_of};
use crate::links::Links;
use crate::netlist::Netlist;
use crate::next_target::NextTarget;
use crate::port_row::PortRow;
use crate::rows::StimulusRow;
use crate::source::Source;
use crate::stimulus::StimulusAt;
use crate::types::{ports_of_type, with_indexes_of_type};
use crate::whole::{Whole, row_at};
use crate::with_all::with_all;
use crate::with_indexes::WithIndexes;
use fb_check_names::TypeNumber;
use fb_types::{
    Deploy, GivenRow, Instance, InstanceVariable, Items, Latency, Library, Plan, Ports, Stimulus,
    Target, Value, all_ports,
};
use std::alloc::{AllocError, Global};
use std::marker::Model;
use std::sync::Arc;

/// An accepted system. Contracts see the inputs that it represents, and through them the flat system of the
/// definitions. Instances, events, variables, resources and links are numbers here, each from 0.
pub struct System {
    whole: Arc<Whole, Global>,
}

// Drop is written by hand, so that callers need not prove it again (docs/DECISIONS.md, "Drop").
impl Drop for System {
    fn drop(self) {
        let System { whole: _ } = self;
    }
}

impl Model for System {
    ghost use Rattle.std.specs.Arc.{arc_value};
    ghost use Rattle.fb_types.specs.Headline.{Inputs};

    ghost Value = { Inputs };

    ghost use Rattle.fb_types.specs.contracts.text.Expr as expr;
    ghost use Rattle.fb_types.specs.contracts.text.Stmt as stmt;
    ghost use Rattle.std.specs.Coded.{codes};

    ghost coded = { Prim.hlevel (codes, expr.the_row.coded, stmt.the_row.coded) };

    ghost use Rattle.fb_system.specs.PortRows.{IsPortRow};
    ghost use Rattle.fb_system.specs.Systems.{inputs_of, HaveRows};

    ghost view = { λ s. inputs_of (arc_value s.whole) };

    ghost invariant = { λ s. HaveRows (arc_value s.whole) };
}

impl System {
    /// The system of accepted inputs, made from their numbers.
    ///
    /// # Errors
    ///
    /// When memory runs out.
    pub fn of(
        alloc: Global,
        library: Library,
        deploy: Deploy,
        stimuli: Vec<Stimulus>,
        given: Given,
    ) -> Result<System, AllocError>
        requires accepted { AreAccepted (inputs library deploy stimuli.items) }
        requires given { IsGiven (inputs library deploy stimuli.items) given }
        ensures { IfOk result (λ s. s ≡ inputs library deploy stimuli.items) }
    {
        let Given {
            numbers,
            holders,
            interfaces,
            rows,
        } = given;
        let links = Links::of(alloc, holders, &numbers);
        let netlist = Netlist::of(alloc, library, numbers);
        let rest = (deploy, stimuli, interfaces, rows);
        let (rest, links, netlist, event_blocks) = with_all(
            rest,
            links,
            netlist,
            all_ports(alloc),
        )?;
        let (deploy, stimuli, interfaces, rows) = rest;
        let tables = Whole {
            deploy,
            stimuli: Items::from_vec(stimuli),
            netlist,
            links,
            event_blocks,
            interfaces,
            rows,
            instance_resources: Items::new(alloc),
            kept: Kept::new(alloc),
        };
        System::of_tables(alloc, tables)
    }

    /// The system of tables of accepted inputs. It fills in the resources of all instances.
    fn of_tables(alloc: Global, mut tables: Whole) -> Result<System, AllocError>
        requires stands { (instance_resources : List ℕ) → (IsLinked tables.netlist tables.deploy tables.links → AreInstanceResources tables.netlist tables.deploy instance_resources) → AreTables (record tables { instance_resources = instance_resources }) }
        requires bare { IsBare tables.kept }
        ensures { IfOk result (λ s. s ≡ inputs_of tables) }
    {
        add_instance_resources(alloc, &mut tables)?;
        let whole = Arc::new(alloc, tables)?;
        let bare = System { whole };
        let rows = kept_of(alloc, &bare)?;
        bare.with_rows(alloc, rows)
    }

    /// The same system with these heads of lines and ends of connections.
    fn with_rows(self, alloc: Global, rows: Kept) -> Result<System, AllocError>
        requires { IsKept self rows }
        ensures { IfOk result (λ s. s ≡ self) }
    {
        let System { whole } = self;
        match Arc::try_unwrap(whole) {
            Ok(tables) => {
                let whole = Arc::new(alloc, tables.with_kept(rows))?;
                Ok(System { whole })
            }
            // The tables have one owner here. If they had another, they would stay without rows, and lookups would use
            // the tables.
            Err(whole) => Ok(System { whole }),
        }
    }

    /// The same system, shared: no table is copied.
    ///
    /// # Errors
    ///
    /// When memory runs out.
    pub fn share(&self) -> Result<System, AllocError>
        ensures { IfOk result (λ s. s ≡ self.now) }
    {
        let whole = Arc::try_clone(&self.whole)?;
        Ok(System { whole })
    }

    /// For proofs: the inputs are accepted, and the facts of every system.
    pub fn facts(&self)
        ensures accepted { AreAccepted self.now }
        ensures limits { IsWithinLimits self.now.plan }
        ensures few { instance_count self.now ≤ 4096 }
        ensures numbered { (i : ℕ) → IsInstance self.now i → number_at self.now (path_at self.now i) ≡ i }
    {
        let whole = &*self.whole;
        let _plan = whole.deploy.plan();
        whole.netlist.facts(); // for the prover: there are at most 4,096 instances, with different paths
    }

    /// The declaration.
    pub fn library(&self) -> &Library
        ensures { result.now ≡ self.now.library }
    {
        self.whole.netlist.library()
    }

    /// The resources and links.
    pub fn plan(&self) -> &Plan
        ensures { result.now ≡ self.now.plan }
    {
        self.whole.deploy.plan()
    }

    /// The stimuli, each at its row.
    pub fn stimuli(&self) -> &[Stimulus]
        ensures { result.now ≡ self.now.stimuli }
    {
        self.whole.stimuli.as_slice()
    }

    /// The number of instances, at most 4,096.
    pub fn count(&self) -> usize
        ensures { result ≡ instance_count self.now }
    {
        self.whole.netlist.count()
    }

    /// The type of an instance.
    pub fn kind(&self, instance: u32) -> TypeNumber
        requires { IsInstance self.now instance }
        ensures { kind_of_number self.now.library result ≡ kind_at self.now (path_at self.now instance) }
    {
        self.whole.netlist.kind(instance)
    }

    /// The declaration of an instance, in the network that contains it.
    pub fn declared(&self, instance: u32) -> &Instance
        requires { IsInstance self.now instance }
        ensures { instance_at self.now.library (path_at self.now instance) ≡ Some result.now }
    {
        self.whole.netlist.declared(instance)
    }

    /// The instance names from the outermost, joined by full stops.
    pub fn path(&self, instance: u32) -> &[u8]
        requires { IsInstance self.now instance }
        ensures { result.now ≡ path_text (path_at self.now instance) }
    {
        self.whole.netlist.path(instance)
    }

    /// The number of the composite that contains an instance, less than its own, or none for an instance of the
    /// application.
    pub fn parent(&self, instance: u32) -> Option<u32>
        requires { IsInstance self.now instance }
        ensures { IsParent self.now.library instance result }
    {
        self.whole.netlist.parent(instance)
    }

    /// The indexes of the instances on the path to an instance, each in its network, from the outermost.
    pub fn route(&self, instance: u32) -> &[u32]
        requires { IsInstance self.now instance }
        ensures { result.now ≡ route_to self.now.library (path_at self.now instance) }
    {
        self.whole.netlist.route(instance)
    }

    /// The numbers of the instances inside a composite, in the order of the text. Any other instance has none.
    pub fn components(&self, instance: u32) -> &[u32]
        requires { IsInstance self.now instance }
        ensures { AreComponents self.now.library (path_at self.now instance) result.now }
    {
        self.whole.netlist.components(instance)
    }

    /// The numbers of the instances of the application itself, in the order of the text.
    pub fn top(&self) -> &[u32]
        ensures { AreNumbers self.now.library [] self.now.library.application.network.instances result.now }
    {
        self.whole.netlist.top()
    }

    /// Where the event connection leads that has this index among those from a port, in the order of the text. An event
    /// output connects to what is around the instance, an event input of a composite to what is inside. The answer also
    /// says whether another connection follows, so that no caller searches for one after the last.
    #[inline(always)]
    pub fn reached(&self, from: Target, index: usize) -> Option<NextTarget>
        requires { IsPort self.now from }
        ensures leads { option_map (λ r. port_of self.now r.target) result ≡ slice_get (targets_at self.now (port_of self.now from)) index }
        ensures within { IfSome result (λ r. IsTarget self.now r.target) }
        ensures more { IfSome result (λ r. IsTrue r.more ↔ (index + 1 < length (targets_at self.now (port_of self.now from)))) }
        ensures here { IfSome result (λ r. IsTrue r.here ↔ AreTogether self.now r.target.instance from.instance) }
        ensures link { IfSome result (λ r. r.link ≡ link_of self.now from.instance r.target.instance) }
    {
        // Usually a port has one connection, and its row is kept.
        if index == 0 {
            if let Some(row) = self.whole.kept.ends.port(from) {
                return row.first;
            }
        }
        self.reached_by_tables(from, index)
    }

    /// What is looked up of an event port in one step: the variables WITH its event, and where its first connection
    /// leads. It is kept of the first 16,384 ports. `port_by_tables` gives the same of every port.
    #[inline(always)]
    pub fn kept_port(&self, at: Target) -> Option<&PortRow>
        ensures { IfSome result (λ r. IsPortRow self.now at r.now) }
    {
        self.whole.kept.ends.port(at)
    }

    /// Where a connection leads, by its network.
    #[inline(never)]
    fn reached_by_tables(&self, from: Target, index: usize) -> Option<NextTarget>
        requires { IsPort self.now from }
        ensures { LeadsTo self.now from index result }
    {
        let next = self.whole.netlist.reached(from, index)?;
        let sender = self.resource(from.instance);
        let receiver = self.resource(next.target.instance);
        // There are at most 1,024 links, so that the number of one fits.
        self.facts(); // for the prover: what holds of every accepted system
        Some(NextTarget {
            target: next.target,
            more: next.more,
            here: receiver == sender,
            link: self.link(sender, receiver) as u16,
        })
    }

    /// What a variable is connected to: a data input to what is around the instance, a data output of a composite to
    /// what is inside.
    #[inline(always)]
    pub fn source(&self, to: InstanceVariable) -> Option<InstanceVariable>
        requires { IsVariable self.now to }
        ensures comes { option_map (variable_of self.now) result ≡ source_at self.now (variable_of self.now to) }
        ensures within { IfSome result (IsSource self.now) }
    {
        match self.whole.kept.ends.source(to) {
            Some(row) => row.source,
            None => self.whole.netlist.source(to),
        }
    }

    /// What a variable is connected to, as `source` says, and whether both are in the same resource.
    #[inline(always)]
    pub fn placed_source(&self, to: InstanceVariable) -> Option<Source>
        requires { IsVariable self.now to }
        ensures { IsSourceOf self.now to result }
    {
        let variable = self.source(to)?;
        let here = self.resource(variable.instance) == self.resource(to.instance);
        Some(Source { variable, here })
    }

    /// The resource that holds an instance.
    #[inline(always)]
    pub fn resource(&self, instance: u32) -> usize
        requires { IsInstance self.now instance }
        ensures { result ≡ resource_at self.now (path_at self.now instance) }
    {
        self.whole.instance_resources.as_slice()[instance as usize]
    }

    /// The number of resources, at most 256.
    pub fn resources(&self) -> usize
        ensures { result ≡ resource_count self.now }
    {
        self.whole.deploy.plan().resources.len()
    }

    /// The name of a resource.
    pub fn resource_name(&self, resource: usize) -> &[u8]
        requires { IsResource self.now resource }
        ensures { result.now ≡ resource_name self.now resource }
    {
        self.whole.deploy.plan().resources.as_slice()[resource]
            .name
            .as_bytes()
    }

    /// The number of links, at most 1,024.
    pub fn links(&self) -> usize
        ensures { result ≡ link_count self.now }
    {
        self.whole.deploy.plan().links.len()
    }

    /// The link from one resource to another, or 0 if there is none.
    pub fn link(&self, from: usize, to: usize) -> usize
        requires from { IsResource self.now from }
        requires to { IsResource self.now to }
        ensures { result ≡ link_between self.now from to }
    {
        self.whole.links.between(from, to).unwrap_or(0)
    }

    /// The resource from which a link leads.
    pub fn sender(&self, link: usize) -> usize
        ensures { result ≡ sender_of self.now link }
    {
        self.whole.links.sender(link)
    }

    /// The resource to which a link leads.
    pub fn receiver(&self, link: usize) -> usize
        ensures { result ≡ receiver_of self.now link }
    {
        self.whole.links.receiver(link)
    }

    /// The latencies of a link.
    pub fn latency(&self, link: usize) -> &Latency
        requires { link < link_count self.now }
        ensures { (sent : ℕ) → arrival_over self.now link sent ≡ sent + latency_at result.now sent }
    {
        &self.whole.deploy.plan().links.as_slice()[link].latency
    }

    /// The interface of an instance's type.
    #[inline(always)]
    pub fn ports(&self, instance: u32) -> &Ports
        requires { IsInstance self.now instance }
        ensures { result.now ≡ ports_at self.now (path_at self.now instance) }
    {
        let whole = &*self.whole;
        ports_of_type(whole, whole.netlist.kind(instance))
    }

    /// For each event of an instance's type, the indexes of the variables WITH it.
    #[inline(always)]
    fn with_indexes(&self, instance: u32) -> &WithIndexes
        requires { IsInstance self.now instance }
        ensures { AreWithIndexes (ports_at self.now (path_at self.now instance)) result.now }
    {
        let whole = &*self.whole;
        with_indexes_of_type(whole, whole.netlist.kind(instance))
    }

    /// The row with the text of a head, if it is kept. The heads of the first 65,536 events are, if they fit.
    #[inline(always)]
    pub fn head(&self, of: HeadOf) -> Option<&Head>
        ensures { IfSome result (λ h. IsHead self.now of h.now) }
    {
        self.whole.kept.heads.find(of)
    }

    /// The indexes of the data inputs WITH an event input of an instance, in the order in which the inputs are declared.
    pub fn inputs_with(&self, instance: u32, event: u32) -> &[u32]
        requires instance { IsInstance self.now instance }
        requires event { event < length (ports_at self.now (path_at self.now instance)).event_inputs }
        ensures { let its = ports_at self.now (path_at self.now instance) in AreIndexes its.inputs (inputs_with its (event_at its.event_inputs event)) result.now }
    {
        self.with_indexes(instance).inputs.as_slice()[event as usize].as_slice()
    }

    /// The indexes of the data outputs WITH an event output of an instance, in the order in which the outputs are
    /// declared.
    pub fn outputs_with(&self, instance: u32, event: u32) -> &[u32]
        requires instance { IsInstance self.now instance }
        requires event { event < length (ports_at self.now (path_at self.now instance)).event_outputs }
        ensures { let its = ports_at self.now (path_at self.now instance) in AreIndexes its.outputs (outputs_with its (event_at its.event_outputs event)) result.now }
    {
        self.with_indexes(instance).outputs.as_slice()[event as usize].as_slice()
    }

    /// The initial value of each data input of an instance: the parameter, else the declared initial value, else 0 or
    /// FALSE.
    ///
    /// # Errors
    ///
    /// When memory runs out.
    pub fn initial_inputs(&self, alloc: Global, instance: u32) -> Result<Items<Value>, AllocError>
        requires { IsInstance self.now instance }
        ensures { IfOk result (λ vs. vs ≡ initial_inputs self.now (path_at self.now instance)) }
    {
        let netlist = &self.whole.netlist;
        let declared = netlist.declared(instance);
        input_values(
            alloc,
            self.ports(instance),
            declared.parameters.as_slice(),
            netlist.parameters(instance),
        )
    }

    /// The initial value of each data output of an instance: the declared initial value, else 0 or FALSE.
    ///
    /// # Errors
    ///
    /// When memory runs out.
    pub fn initial_outputs(&self, alloc: Global, instance: u32) -> Result<Items<Value>, AllocError>
        requires { IsInstance self.now instance }
        ensures { IfOk result (λ vs. vs ≡ initial_outputs self.now (path_at self.now instance)) }
    {
        self.facts(); // for the prover: what holds of every accepted system
        output_values(alloc, self.ports(instance))
    }

    /// A stimulus by number, as an event that waits: the row has this number, from 0.
    pub fn given(&self, row: u64, stimulus: StimulusRow) -> GivenRow
        requires { (s : Stimulus) × IsRow self.now.library s stimulus }
        ensures row { result.row ≡ row }
        ensures represents { (s : Stimulus) → IsRow self.now.library s stimulus → IsRowOf (system_of self.now) (stimulus_of s) result }
    {
        let StimulusRow {
            tick: _,
            instance,
            event,
            sets,
        } = stimulus;
        GivenRow {
            row,
            target: Target {
                instance: self.top()[instance as usize],
                event,
                is_output: false,
            },
            sets,
        }
    }

    /// The stimulus at a row, from 0.
    pub fn stimulus(&self, row: u32) -> StimulusAt<'_>
        requires { row < length self.now.stimuli }
        ensures { IsStimulusAt self.now row result }
    {
        let row = row_at(&self.whole, row);
        StimulusAt {
            tick: row.tick,
            target: Target {
                instance: self.top()[row.instance as usize],
                event: row.event,
                is_output: false,
            },
            sets: row.sets.as_slice(),
        }
    }
}
