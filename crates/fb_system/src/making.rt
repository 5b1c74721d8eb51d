//! Makes the tables of a netlist.

ghost use Rattle.std.specs.Prelude.{◌≡◌, IfOk};
ghost use Rattle.fb_system.specs.Networks.{AreNarrow};

use crate::wiring::Wiring;
use fb_check_names::NetworkNumbers;
use fb_types::{BlockType, Items};
use std::alloc::{AllocError, Global};

/// Says to proofs that the indexes of the ports of all types fit in 32 bits.
pub(crate) fn bound_all(blocks: &[BlockType])
    ensures { AreNarrow blocks.now }
{
    for block in blocks {
        let ports = block.ports();
        ports.event_inputs.count(); // for the prover: how many of them there are at most
        ports.event_outputs.count(); // for the prover: how many of them there are at most
        ports.inputs.count(); // for the prover: how many of them there are at most
        ports.outputs.count(); // for the prover: how many of them there are at most
    }
}

/// The wirings of the block types' networks.
pub(crate) fn wirings_of(
    alloc: Global,
    blocks: Items<Option<NetworkNumbers>>,
) -> Result<Items<Option<Wiring>>, AllocError>
    ensures { IfOk result (λ wirings. wirings ≡ blocks) }
{
    let mut wirings = Items::new(alloc);
    for block in blocks.into_vec() {
        let wiring = match block {
            None => None,
            Some(numbers) => Some(Wiring::of(alloc, numbers)?),
        };
        wirings.push(wiring)?;
    }
    Ok(wirings)
}
