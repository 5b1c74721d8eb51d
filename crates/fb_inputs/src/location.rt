//! Where stimuli are refused.

ghost use Rattle.std.specs.Prelude.{◌≡◌, option_map};
ghost use Rattle.fb_inputs.specs.StimuliLocations as locations;
ghost use Rattle.fb_inputs.specs.Refusals.{number_of};

use crate::error::InputError;
use std::alloc::AllocError;

/// What is wrong with a row of stimuli. Words are in the last field, separated by spaces, and counted from 0.
#[derive(Clone, Copy)]
pub enum RowFault {
    /// There are not exactly three fields (E13).
    Fields,
    /// The event is not `INSTANCE.EVENT` (E13).
    Event,
    /// A word is not `NAME=VALUE` (E13).
    Word(usize),
    /// The tick is not a number (E14).
    Tick,
    /// The value of a word is not a value (E14).
    Value(usize),
    /// The tick is over the greatest tick (E15).
    Late,
    /// The row comes after the greatest number of rows (E15).
    Crowded,
}

/// Where stimuli are refused.
#[derive(Clone, Copy)]
pub enum StimuliLocation {
    /// There are too many bytes (E15).
    Bytes,
    /// The first record is not the heading (E13).
    Heading,
    /// A row, counted from 0 after the heading.
    Row { row: usize, fault: RowFault },
}

impl StimuliLocation {
    /// The number of the refusal, 13 to 15.
    pub fn number(self) -> u8
        ensures { result ≡ locations.number_at self }
    {
        match self {
            StimuliLocation::Bytes => 15,
            StimuliLocation::Heading => 13,
            StimuliLocation::Row { fault, .. } => match fault {
                RowFault::Fields | RowFault::Event | RowFault::Word(_) => 13,
                RowFault::Tick | RowFault::Value(_) => 14,
                RowFault::Late | RowFault::Crowded => 15,
            },
        }
    }
}

/// Why a row is not read.
#[derive(Clone, Copy)]
pub enum RowError {
    /// Out of memory.
    Memory,
    At(RowFault),
}

impl From<AllocError> for RowError {
    ghost use Rattle.std.specs.Prelude.{◌≡◌};
    ghost use Rattle.fb_inputs.specs.declared.location.RowError.TheVariants.{Memory};

    ghost from_gives = { λ _ e. e ≡ Memory };

    fn from(_: AllocError) -> RowError {
        RowError::Memory
    }
}

/// Why stimuli are not read.
#[derive(Clone, Copy)]
pub enum StimuliFault {
    /// Out of memory.
    Memory,
    At(StimuliLocation),
}

impl From<AllocError> for StimuliFault {
    ghost use Rattle.std.specs.Prelude.{◌≡◌};
    ghost use Rattle.fb_inputs.specs.declared.location.StimuliFault.TheVariants.{Memory};

    ghost from_gives = { λ _ e. e ≡ Memory };

    fn from(_: AllocError) -> StimuliFault {
        StimuliFault::Memory
    }
}

/// The fault of a row, with its index.
pub(crate) fn at_row(row: usize, error: RowError) -> StimuliFault
    ensures { locations.location_of result ≡ option_map (locations.row_at row) (locations.fault_of error) }
{
    match error {
        RowError::Memory => StimuliFault::Memory,
        RowError::At(fault) => StimuliFault::At(StimuliLocation::Row { row, fault }),
    }
}

/// The refusal without its location.
pub(crate) fn error_at(fault: StimuliFault) -> InputError
    ensures { number_of result ≡ option_map locations.number_at (locations.location_of fault) }
{
    match fault {
        StimuliFault::Memory => InputError::Memory,
        StimuliFault::At(location) => match location {
            StimuliLocation::Bytes => InputError::Limit,
            StimuliLocation::Heading => InputError::Row,
            StimuliLocation::Row { fault, .. } => match fault {
                RowFault::Fields | RowFault::Event | RowFault::Word(_) => InputError::Row,
                RowFault::Tick | RowFault::Value(_) => InputError::Number,
                RowFault::Late | RowFault::Crowded => InputError::Limit,
            },
        },
    }
}
