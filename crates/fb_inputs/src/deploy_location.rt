//! Where deployments are refused.

ghost use Rattle.std.specs.Prelude.{◌≡◌, Some, option_map};
ghost use Rattle.fb_inputs.specs.DeployLocations as locations;
ghost use Rattle.fb_inputs.specs.Refusals.{number_of};

use crate::error::InputError;
use std::alloc::AllocError;

/// A table of a deployment. Items of a list are counted from 0.
#[derive(Clone, Copy)]
pub enum TableLocation {
    Top,
    Resource(usize),
    Link(usize),
}

/// A key of a deployment.
#[derive(Clone, Copy)]
pub enum DeployKey {
    Resource,
    Link,
    Device,
    Name,
    Instances,
    From,
    To,
    Latency,
    Latencies,
}

impl DeployKey {
    /// The text of the key.
    pub fn text(self) -> &'static str
        ensures { result.now ≡ locations.text_of self }
    {
        match self {
            DeployKey::Resource => "resource",
            DeployKey::Link => "link",
            DeployKey::Device => "device",
            DeployKey::Name => "name",
            DeployKey::Instances => "instances",
            DeployKey::From => "from",
            DeployKey::To => "to",
            DeployKey::Latency => "latency",
            DeployKey::Latencies => "latencies",
        }
    }
}

/// What is wrong with a table of a deployment (E11).
#[derive(Clone, Copy)]
pub enum TableFault {
    /// The value is not a table.
    NoTable,
    /// A key is missing: of `latency` and `latencies`, both.
    Missing(DeployKey),
    /// The value of a key is not of its kind.
    Wrong(DeployKey),
    /// An element of the array at a key, counted from 0, is not of its kind.
    Element(DeployKey, usize),
    /// There is no resource.
    Empty,
    /// There are both `latency` and `latencies`.
    Both,
    /// The link leads to the resource that it comes from.
    Itself,
    /// There are unknown keys.
    Further,
}

/// Where a deployment is refused. Links and entries are counted from 0.
#[derive(Clone, Copy)]
pub enum DeployLocation {
    /// There are too many bytes (E15).
    Bytes,
    /// The bytes are not TOML; the reader found this at this byte, or past the last one (E10).
    Document(usize),
    /// A table does not have the right shape (E11).
    Shape {
        table: TableLocation,
        fault: TableFault,
    },
    /// A latency of a link is out of range (E12).
    Latency {
        link: usize,
        entry: usize,
    },
    /// The table of a link has no entry (E16).
    NoEntry {
        link: usize,
    },
    /// An entry of a link's table is not later than the one before it, is the first one and not at tick 0, or is too
    /// late (E16).
    Entry {
        link: usize,
        entry: usize,
    },
    /// There are too many resources (E15).
    Resources,
    /// There are too many links (E15).
    Links,
    /// A link's table has too many entries (E15).
    Entries {
        link: usize,
    },
}

impl DeployLocation {
    /// The number of the refusal, one of 10, 11, 12, 15 and 16.
    pub fn number(self) -> u8
        ensures { result ≡ locations.number_at self }
    {
        match self {
            DeployLocation::Document(_) => 10,
            DeployLocation::Shape { .. } => 11,
            DeployLocation::Latency { .. } => 12,
            DeployLocation::NoEntry { .. } | DeployLocation::Entry { .. } => 16,
            DeployLocation::Bytes
            | DeployLocation::Resources
            | DeployLocation::Links
            | DeployLocation::Entries { .. } => 15,
        }
    }
}

/// Why a table is not read.
#[derive(Clone, Copy)]
pub enum TableError {
    /// Out of memory.
    Memory,
    At(TableFault),
}

impl From<AllocError> for TableError {
    ghost use Rattle.std.specs.Prelude.{◌≡◌};
    ghost use Rattle.fb_inputs.specs.declared.deploy_location.TableError.TheVariants.{Memory};

    ghost from_gives = { λ _ e. e ≡ Memory };

    fn from(_: AllocError) -> TableError {
        TableError::Memory
    }
}

/// Why a deployment is not read.
#[derive(Clone, Copy)]
pub enum DeployFault {
    /// Out of memory.
    Memory,
    At(DeployLocation),
}

impl From<AllocError> for DeployFault {
    ghost use Rattle.std.specs.Prelude.{◌≡◌};
    ghost use Rattle.fb_inputs.specs.declared.deploy_location.DeployFault.TheVariants.{Memory};

    ghost from_gives = { λ _ e. e ≡ Memory };

    fn from(_: AllocError) -> DeployFault {
        DeployFault::Memory
    }
}

/// The table at an index of the array at a key: a link, or else a resource.
fn table_at(key: DeployKey, index: usize) -> TableLocation
    ensures { result ≡ locations.table_at key index }
{
    match key {
        DeployKey::Link => TableLocation::Link(index),
        _ => TableLocation::Resource(index),
    }
}

/// The fault of a table, with its location.
pub(crate) fn in_table(key: DeployKey, index: usize, error: TableError) -> DeployFault
    ensures { locations.location_of result ≡ option_map (locations.shape_in key index) (locations.fault_of error) }
{
    match error {
        TableError::Memory => DeployFault::Memory,
        TableError::At(fault) => DeployFault::At(DeployLocation::Shape {
            table: table_at(key, index),
            fault,
        }),
    }
}

/// The fault of the document itself.
pub(crate) fn at_top(fault: TableFault) -> DeployFault
    ensures { locations.location_of result ≡ Some (locations.at_top fault) }
{
    DeployFault::At(DeployLocation::Shape {
        table: TableLocation::Top,
        fault,
    })
}

/// The refusal without its location.
pub(crate) fn deploy_error(fault: DeployFault) -> InputError
    ensures { number_of result ≡ option_map locations.number_at (locations.location_of fault) }
{
    match fault {
        DeployFault::Memory => InputError::Memory,
        DeployFault::At(location) => match location {
            DeployLocation::Document(_) => InputError::Document,
            DeployLocation::Shape { .. } => InputError::Shape,
            DeployLocation::Latency { .. } => InputError::Latency,
            DeployLocation::NoEntry { .. } | DeployLocation::Entry { .. } => InputError::Table,
            DeployLocation::Bytes
            | DeployLocation::Resources
            | DeployLocation::Links
            | DeployLocation::Entries { .. } => InputError::Limit,
        },
    }
}
