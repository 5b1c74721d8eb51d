//! The readers of deployments and stimuli, and where what they read is in its text.
//!
//! Guarantees to callers: `read_deploy` returns the plan that the definitions make of the TOML reader's document, and
//! `read_stimuli` the stimuli that they make of the CSV reader's records, or the number of the refusal. `locate_deploy`
//! and `locate_stimuli` return where they are refused, and what is wrong there; `deployment_location` and
//! `stimuli_location` return that alone, or `None` exactly if they are accepted.
//!
//! The bytes that are found for a position of stimuli are in the text. Those of a field begin the field with its index,
//! in the record with its index, and the reader of CSV reads there what they say. `nearest_spans` returns those of the
//! nearest position around that is found, for several positions by one reading of the text. `fb_deploy_positions` finds
//! the positions of a deployment.
//!
//! Read in this order: `deployment`, `deploy_location`, `document` and `table`; `stimuli`, `location` and `row`;
//! `text`, `number` and `error`; `laws`. Then what runs only after a refusal, and for warnings:
//! `position`; `scan`; `csv_records`, `row_positions` and `near_stimuli`.
#![tactic(auto)]

mod csv_records;
pub mod deploy_location;
pub mod deployment;
mod document;
pub mod error;
pub mod laws;
pub mod location;
pub mod near_stimuli;
mod number;
pub mod position;
mod row;
mod row_positions;
mod scan;
pub mod stimuli;
mod table;
pub mod text;

pub use deploy_location::{DeployFault, DeployKey, DeployLocation, TableFault, TableLocation};
pub use deployment::{deployment_location, locate_deploy, read_deploy};
pub use error::InputError;
pub use location::{RowError, RowFault, StimuliFault, StimuliLocation};
pub use near_stimuli::nearest_spans;
pub use number::natural;
pub use position::{DeployPosition, StimuliPosition, deploy_position, stimuli_position};
pub use row_positions::record_at;
pub use stimuli::{locate_stimuli, read_row, read_stimuli, records_of, stimuli_location};
pub use text::{name, parted};
