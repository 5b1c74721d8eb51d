//! What is read before a run, in its order: the declaration, the deployment, the stimuli, and the check of them all.

ghost use Rattle.std.specs.Prelude.{◌≡◌, Ok, Err, IfOk, IfErr, OnOk};
ghost use Rattle.fb_read.specs.Whole.{IsLibraryText};
ghost use Rattle.fb_types.specs.Headline.{inputs as inputs_from};
ghost use Rattle.fb_sim.specs.Serial.{AreStimuli, Declares, IsDeclared, IsPlan, IsRefusal, Reads};

use crate::options::Inputs;
use crate::outcome::{Refusal, RunError};
use fb_check::{Case, CheckError, accept, judge};
use fb_inputs::{InputError, read_deploy, read_stimuli};
use fb_read::{ReadError, read_library};
use fb_system::System;
use fb_types::{Deploy, Library, Stimulus};
use std::alloc::Global;

/// A declaration, a deployment and stimuli.
#[derive(Drop)]
struct Reading {
    library: Library,
    deploy: Deploy,
    stimuli: Vec<Stimulus>,
}

fn library_of(alloc: Global, inputs: &Inputs<'_>) -> Result<Library, RunError>
    ensures read { IfOk result (IsLibraryText inputs.now.declaration) }
    ensures refused { IfErr result (IsRefusal inputs.now) }
{
    match read_library(alloc, inputs.declaration) {
        Ok(library) => Ok(library),
        Err(error) => match error {
            ReadError::Memory => Err(RunError::Memory),
            error => Err(RunError::Refused(Refusal::Declaration(error))),
        },
    }
}

fn deploy_of(alloc: Global, inputs: &Inputs<'_>, library: &Library) -> Result<Deploy, RunError>
    requires { IsLibraryText inputs.now.declaration library.now }
    ensures read { IfOk result (IsPlan inputs.now.deploy) }
    ensures refused { IfErr result (IsRefusal inputs.now) }
{
    let Some(bytes) = inputs.deploy else {
        return Ok(Deploy::single(alloc)?);
    };
    match read_deploy(alloc, bytes) {
        Ok(deploy) => Ok(deploy),
        Err(InputError::Memory) => Err(RunError::Memory),
        Err(error) => Err(RunError::Refused(Refusal::Deployment(error))),
    }
}

fn stimuli_of(
    alloc: Global,
    inputs: &Inputs<'_>,
    library: &Library,
    deploy: &Deploy,
) -> Result<Vec<Stimulus>, RunError>
    requires library { IsLibraryText inputs.now.declaration library.now }
    requires plan { IsPlan inputs.now.deploy deploy.now }
    ensures read { IfOk result (λ stimuli. AreStimuli inputs.now.stimuli stimuli.items) }
    ensures refused { IfErr result (IsRefusal inputs.now) }
{
    let Some(bytes) = inputs.stimuli else {
        return Ok(Vec::new(alloc));
    };
    match read_stimuli(alloc, bytes) {
        Ok(stimuli) => Ok(stimuli),
        Err(InputError::Memory) => Err(RunError::Memory),
        Err(error) => Err(RunError::Refused(Refusal::Stimuli(error))),
    }
}

/// What was found, next to what is read next.
///
/// A value of a type parameter is dropped by one call, so what was found is dropped here where the next reading fails,
/// and no reading is followed by the drop of all that was read before.
fn paired<A: Drop, B: Drop>(found: A, read: Result<B, RunError>) -> Result<(A, B), RunError>
    ensures found { IfOk result (λ both. both.0 ≡ found) }
    ensures read { IfOk result (λ both. read ≡ Ok both.1) }
    ensures error { IfErr result (λ error. read ≡ Err error) }
{
    Ok((found, read?))
}

/// Reads what is given.
fn read(alloc: Global, inputs: &Inputs<'_>) -> Result<Reading, RunError>
    ensures read { IfOk result (λ r. Reads inputs.now (inputs_from r.library r.deploy r.stimuli.items)) }
    ensures refused { IfErr result (IsRefusal inputs.now) }
{
    let library = library_of(alloc, inputs)?;
    let deploy = deploy_of(alloc, inputs, &library);
    let (library, deploy) = paired(library, deploy)?;
    let stimuli = stimuli_of(alloc, inputs, &library, &deploy);
    let ((library, deploy), stimuli) = paired((library, deploy), stimuli)?;
    Ok(Reading {
        library,
        deploy,
        stimuli,
    })
}

/// Judges what was read.
fn judge_reading(alloc: Global, inputs: &Inputs<'_>, read: &Reading) -> Result<(), RunError>
    requires { Reads inputs.now (inputs_from read.now.library read.now.deploy read.now.stimuli.items) }
    ensures accepted { OnOk result (IsDeclared inputs.now) }
    ensures refused { IfErr result (IsRefusal inputs.now) }
{
    let case = Case {
        library: &read.library,
        plan: read.deploy.plan(),
        stimuli: read.stimuli.as_slice(),
    };
    match judge(alloc, &case) {
        Ok(()) => Ok(()),
        Err(error) => match error {
            CheckError::Memory => Err(RunError::Memory),
            error => Err(RunError::Refused(Refusal::Check(error))),
        },
    }
}

/// Reads what is given, and judges it.
pub(crate) fn judge_inputs(alloc: Global, inputs: &Inputs<'_>) -> Result<(), RunError>
    ensures accepted { OnOk result (IsDeclared inputs.now) }
    ensures refused { IfErr result (IsRefusal inputs.now) }
{
    let read = read(alloc, inputs)?;
    judge_reading(alloc, inputs, &read)
}

/// Reads what is given, and makes the system that represents it: that of the simulation, and of a trace that is looked
/// at.
///
/// # Errors
///
/// `Refused` with the first input that refuses, as a check of the same inputs, and `Memory`.
pub fn open(alloc: Global, inputs: &Inputs<'_>) -> Result<System, RunError>
    ensures system { IfOk result (Declares inputs.now) }
    ensures refused { IfErr result (IsRefusal inputs.now) }
{
    let read = read(alloc, inputs)?;
    match accept(alloc, read.library, read.deploy, read.stimuli) {
        Ok(system) => Ok(system),
        Err(error) => match error {
            CheckError::Memory => Err(RunError::Memory),
            error => Err(RunError::Refused(Refusal::Check(error))),
        },
    }
}

/// Drops a system. The destructors of what it owns are proved here, and not again in a crate above.
pub fn discard(system: System) {
    drop(system);
}
