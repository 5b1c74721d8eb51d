//! The system of inputs that are accepted.

ghost use Rattle.std.specs.Prelude.{◌≡◌, IfOk, IfErr};
ghost use Rattle.fb_types.specs.Headline.{AreAccepted, inputs};
ghost use Rattle.fb_check.specs.Refusals.{IsRightly};

use crate::case::{Case, Judged};
use crate::error::CheckError;
use crate::judgement::judged;
use fb_system::{Given, System, interfaces_of};
use fb_types::{Deploy, Library, Stimulus};
use std::alloc::Global;

/// The system of a declaration, a deployment and stimuli.
///
/// # Errors
///
/// `Refused` with the least number that applies if the inputs are not accepted, and `Memory`.
///
/// # Example
///
/// The test `an_application_is_accepted` of `fb_tests`:
///
/// ```
/// let declaration = b"APPLICATION A\n\
///     FBS S : E_RESTART; D : E_DELAY(DT := T#5ms); END_FBS\n\
///     EVENT_CONNECTIONS S.COLD TO D.START; END_CONNECTIONS\n\
///     END_APPLICATION";
/// let library = read_library(rt.alloc(), declaration).expect(&rt, "library");
/// let deploy = Deploy::single(rt.alloc()).expect(&rt, "memory");
/// let stimuli = read_stimuli(rt.alloc(), b"tick,event,values\n2,D.STOP,\n").expect(
///     &rt, "stimuli",
/// );
/// let system = accept(rt.alloc(), library, deploy, stimuli).expect(&rt, "accepted");
/// assert!(rt; system.resources() == 1);
/// drop(system);
/// ```
pub fn accept(
    alloc: Global,
    library: Library,
    deploy: Deploy,
    stimuli: Vec<Stimulus>,
) -> Result<System, CheckError>
    ensures system { IfOk result (λ s. s ≡ inputs library deploy stimuli.items) }
    ensures accepted { IfOk result (λ s. AreAccepted s) }
    ensures refused { IfErr result (IsRightly (inputs library deploy stimuli.items)) }
{
    let case = Case {
        library: &library,
        plan: deploy.plan(),
        stimuli: stimuli.as_slice(),
    };
    let Judged {
        catalog,
        numbers,
        holders,
        rows,
    } = judged(alloc, &case)?;
    let interfaces = interfaces_of(alloc, &library, &catalog)?;
    drop(catalog);
    let given = Given {
        numbers,
        holders,
        interfaces,
        rows,
    };
    let system = System::of(alloc, library, deploy, stimuli, given)?;
    Ok(system)
}
