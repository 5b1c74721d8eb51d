//! The kinds of event blocks, and the table of their rows: type name and interface.

ghost use Rattle.std.specs.Prelude.{◌≡◌, map};
ghost use Rattle.fb_types.specs.Blocks.{kind_index, ports_of_event_block};
ghost use Rattle.fb_types.specs.EventPorts.{ArePortsOfKinds};
ghost use Rattle.fb_types.specs.EventRows.{ports_of_row};

use crate::value::Ty;

/// The type of an event block (in the manner of IEC 61499-1, Annex A).
#[derive(Clone, Copy)]
pub enum EventKind {
    /// E_RESTART
    Restart,
    /// E_SPLIT
    Split,
    /// E_MERGE
    Merge,
    /// E_REND
    Rendezvous,
    /// E_PERMIT
    Permit,
    /// E_SELECT
    Select,
    /// E_SWITCH
    Switch,
    /// E_DELAY
    Delay,
    /// E_CYCLE
    Cycle,
    /// E_SR
    SetReset,
    /// E_D_FF
    DataLatch,
    /// E_R_TRIG
    RisingEdge,
    /// E_F_TRIG
    FallingEdge,
    /// E_CTU
    CountUp,
}

impl EventKind {
    /// All kinds, each at its index.
    pub const ALL: [EventKind; 14] = [
        EventKind::Restart,
        EventKind::Split,
        EventKind::Merge,
        EventKind::Rendezvous,
        EventKind::Permit,
        EventKind::Select,
        EventKind::Switch,
        EventKind::Delay,
        EventKind::Cycle,
        EventKind::SetReset,
        EventKind::DataLatch,
        EventKind::RisingEdge,
        EventKind::FallingEdge,
        EventKind::CountUp,
    ];

    /// The index of a kind among all of them.
    pub fn index(self) -> usize
        ensures { result ≡ kind_index self }
    {
        self as usize
    }
}

/// The name of an event, and those of the variables that go WITH it.
pub(crate) type EventRow = (&'static str, &'static [&'static str]);

/// The name of a variable, and its type.
pub(crate) type VariableRow = (&'static str, Ty);

/// An event block: its type name and its interface.
pub(crate) struct Row {
    pub kind: EventKind,
    pub name: &'static str,
    pub event_inputs: &'static [EventRow],
    pub event_outputs: &'static [EventRow],
    pub inputs: &'static [VariableRow],
    pub outputs: &'static [VariableRow],
}

/// The event blocks, each at the index of its kind.
pub(crate) static BLOCKS: [Row; 14] = [
    Row {
        kind: EventKind::Restart,
        name: "E_RESTART",
        event_inputs: &[],
        event_outputs: &[("COLD", &[]), ("WARM", &[]), ("STOP", &[])],
        inputs: &[],
        outputs: &[],
    },
    Row {
        kind: EventKind::Split,
        name: "E_SPLIT",
        event_inputs: &[("EI", &[])],
        event_outputs: &[("EO1", &[]), ("EO2", &[])],
        inputs: &[],
        outputs: &[],
    },
    Row {
        kind: EventKind::Merge,
        name: "E_MERGE",
        event_inputs: &[("EI1", &[]), ("EI2", &[])],
        event_outputs: &[("EO", &[])],
        inputs: &[],
        outputs: &[],
    },
    Row {
        kind: EventKind::Rendezvous,
        name: "E_REND",
        event_inputs: &[("EI1", &[]), ("EI2", &[]), ("R", &[])],
        event_outputs: &[("EO", &[])],
        inputs: &[],
        outputs: &[],
    },
    Row {
        kind: EventKind::Permit,
        name: "E_PERMIT",
        event_inputs: &[("EI", &["PERMIT"])],
        event_outputs: &[("EO", &[])],
        inputs: &[("PERMIT", Ty::Bool)],
        outputs: &[],
    },
    Row {
        kind: EventKind::Select,
        name: "E_SELECT",
        event_inputs: &[("EI0", &["G"]), ("EI1", &["G"])],
        event_outputs: &[("EO", &[])],
        inputs: &[("G", Ty::Bool)],
        outputs: &[],
    },
    Row {
        kind: EventKind::Switch,
        name: "E_SWITCH",
        event_inputs: &[("EI", &["G"])],
        event_outputs: &[("EO0", &[]), ("EO1", &[])],
        inputs: &[("G", Ty::Bool)],
        outputs: &[],
    },
    Row {
        kind: EventKind::Delay,
        name: "E_DELAY",
        event_inputs: &[("START", &["DT"]), ("STOP", &[])],
        event_outputs: &[("EO", &[])],
        inputs: &[("DT", Ty::Time)],
        outputs: &[],
    },
    Row {
        kind: EventKind::Cycle,
        name: "E_CYCLE",
        event_inputs: &[("START", &["DT"]), ("STOP", &[])],
        event_outputs: &[("EO", &[])],
        inputs: &[("DT", Ty::Time)],
        outputs: &[],
    },
    Row {
        kind: EventKind::SetReset,
        name: "E_SR",
        event_inputs: &[("S", &[]), ("R", &[])],
        event_outputs: &[("EO", &["Q"])],
        inputs: &[],
        outputs: &[("Q", Ty::Bool)],
    },
    Row {
        kind: EventKind::DataLatch,
        name: "E_D_FF",
        event_inputs: &[("CLK", &["D"])],
        event_outputs: &[("EO", &["Q"])],
        inputs: &[("D", Ty::Bool)],
        outputs: &[("Q", Ty::Bool)],
    },
    Row {
        kind: EventKind::RisingEdge,
        name: "E_R_TRIG",
        event_inputs: &[("EI", &["QI"])],
        event_outputs: &[("EO", &[])],
        inputs: &[("QI", Ty::Bool)],
        outputs: &[],
    },
    Row {
        kind: EventKind::FallingEdge,
        name: "E_F_TRIG",
        event_inputs: &[("EI", &["QI"])],
        event_outputs: &[("EO", &[])],
        inputs: &[("QI", Ty::Bool)],
        outputs: &[],
    },
    Row {
        kind: EventKind::CountUp,
        name: "E_CTU",
        event_inputs: &[("CU", &["PV"]), ("R", &[])],
        event_outputs: &[("CUO", &["Q", "CV"]), ("RO", &["Q", "CV"])],
        inputs: &[("PV", Ty::Uint)],
        outputs: &[("Q", Ty::Bool), ("CV", Ty::Uint)],
    },
];

/// The row of a kind, in a table with each at the index of its kind.
fn row_in(table: &'static [Row; 14], kind: EventKind) -> &'static Row
    requires { ArePortsOfKinds (map ports_of_row table.now) }
    ensures { ports_of_row result.now ≡ ports_of_event_block kind }
{
    &table[kind.index()]
}

/// The row of a kind.
pub(crate) fn row_of(kind: EventKind) -> &'static Row
    ensures { ports_of_row result.now ≡ ports_of_event_block kind }
{
    row_in(&BLOCKS, kind)
}
