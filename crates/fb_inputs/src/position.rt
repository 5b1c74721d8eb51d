//! Positions in deployments and stimuli.

ghost use Rattle.std.specs.Prelude.{◌≡◌};
ghost use Rattle.fb_inputs.specs.Positions as spec;

use crate::{DeployKey, DeployLocation, RowFault, StimuliLocation, TableFault, TableLocation};

/// A position in a deployment. Items of lists are counted from 0.
#[derive(Clone, Copy)]
pub enum DeployPosition {
    /// The beginning of the text.
    Start,
    /// The byte at this offset, or the end of the text.
    Byte(usize),
    /// The heading of a table.
    Table(TableLocation),
    /// A key of a table.
    Key(TableLocation, DeployKey),
    /// An element of the array at a key of a table.
    Element(TableLocation, DeployKey, usize),
}

/// A position in stimuli. Rows are counted from 0 after the heading, fields and words from 0.
#[derive(Clone, Copy)]
pub enum StimuliPosition {
    /// The beginning of the text.
    Start,
    /// The first record, which should be the heading.
    Heading,
    /// The first field of a row.
    Row(usize),
    /// A field, by its row and its index in the row.
    Field(usize, usize),
    /// A word of the last field, by its row and its index in the field.
    Word(usize, usize),
}

/// The position at which a fault of a table is shown: the key that it names, or else the table.
fn fault_position(table: TableLocation, fault: TableFault) -> DeployPosition
    ensures { result ≡ spec.fault_position table fault }
{
    match fault {
        TableFault::Wrong(key) => DeployPosition::Key(table, key),
        TableFault::Element(key, index) => DeployPosition::Element(table, key, index),
        TableFault::Both => DeployPosition::Key(table, DeployKey::Latencies),
        TableFault::Itself => DeployPosition::Key(table, DeployKey::To),
        TableFault::Empty => DeployPosition::Key(table, DeployKey::Resource),
        TableFault::NoTable | TableFault::Missing(_) | TableFault::Further => {
            DeployPosition::Table(table)
        }
    }
}

/// The position at which a location of a deployment is shown.
pub fn deploy_position(location: DeployLocation) -> DeployPosition
    ensures { result ≡ spec.deploy_position location }
{
    match location {
        DeployLocation::Bytes | DeployLocation::Resources | DeployLocation::Links => {
            DeployPosition::Start
        }
        DeployLocation::Document(at) => DeployPosition::Byte(at),
        DeployLocation::Shape { table, fault } => fault_position(table, fault),
        DeployLocation::Latency { link, entry } | DeployLocation::Entry { link, entry } => {
            DeployPosition::Element(TableLocation::Link(link), DeployKey::Latencies, entry)
        }
        DeployLocation::NoEntry { link } | DeployLocation::Entries { link } => {
            DeployPosition::Key(TableLocation::Link(link), DeployKey::Latencies)
        }
    }
}

/// The position at which a location of stimuli is shown.
pub fn stimuli_position(location: StimuliLocation) -> StimuliPosition
    ensures { result ≡ spec.stimuli_position location }
{
    match location {
        StimuliLocation::Bytes => StimuliPosition::Start,
        StimuliLocation::Heading => StimuliPosition::Heading,
        StimuliLocation::Row { row, fault } => match fault {
            RowFault::Fields | RowFault::Crowded => StimuliPosition::Row(row),
            RowFault::Tick | RowFault::Late => StimuliPosition::Field(row, 0),
            RowFault::Event => StimuliPosition::Field(row, 1),
            RowFault::Word(word) | RowFault::Value(word) => StimuliPosition::Word(row, word),
        },
    }
}

impl DeployPosition {
    /// The position that is used if the bytes of this one are not found: the key of an element, the table of a key, and
    /// so on up to the beginning of the text. A link without a table of latencies has one latency.
    pub fn around(self) -> DeployPosition
        ensures { result ≡ spec.around_deploy self }
    {
        match self {
            DeployPosition::Element(table, key, _) => DeployPosition::Key(table, key),
            DeployPosition::Key(TableLocation::Top, _) => DeployPosition::Start,
            DeployPosition::Key(table, DeployKey::Latencies) => {
                DeployPosition::Key(table, DeployKey::Latency)
            }
            DeployPosition::Key(table, _) => DeployPosition::Table(table),
            DeployPosition::Table(TableLocation::Resource(_)) => {
                DeployPosition::Key(TableLocation::Top, DeployKey::Resource)
            }
            DeployPosition::Table(TableLocation::Link(_)) => {
                DeployPosition::Key(TableLocation::Top, DeployKey::Link)
            }
            DeployPosition::Table(TableLocation::Top)
            | DeployPosition::Byte(_)
            | DeployPosition::Start => DeployPosition::Start,
        }
    }
}

impl StimuliPosition {
    /// The position that is used if the bytes of this one are not found: the field of a word, the row of a field, the
    /// beginning of the text.
    pub(crate) fn around(self) -> StimuliPosition
        ensures { result ≡ spec.around_stimuli self }
    {
        match self {
            StimuliPosition::Word(row, _) => StimuliPosition::Field(row, 2),
            StimuliPosition::Field(row, _) => StimuliPosition::Row(row),
            StimuliPosition::Row(_) | StimuliPosition::Heading | StimuliPosition::Start => {
                StimuliPosition::Start
            }
        }
    }
}
