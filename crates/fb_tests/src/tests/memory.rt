//! Files in memory.

use super::texts::CYCLE_TEXT;
use fbsim_command::{Source, SourceFault, Streams};
use std::alloc::Global;

/// An event that comes back to its block in the same tick.
const RING: &str = "APPLICATION A FBS S : E_RESTART; M : E_MERGE; END_FBS\n\
    EVENT_CONNECTIONS S.COLD TO M.EI1; M.EO TO M.EI2; END_CONNECTIONS END_APPLICATION\n";

/// An algorithm that ends too early, in its second line.
const CUT_OFF: &str = "FUNCTION_BLOCK F EC_STATES S; END_STATES\nALGORITHM A IN ST: X :=";

/// Files by their names; `-` is standard input.
static FILES: [(&str, &str); 4] = [
    ("-", CYCLE_TEXT),
    ("cycle", CYCLE_TEXT),
    ("ring", RING),
    ("cut_off", CUT_OFF),
];

/// The name of a file for which there is no memory.
const FULL: &str = "full";

/// These files. Standard input is read once.
#[derive(Drop)]
pub struct Memory {
    has_read_input: bool,
}

impl Memory {
    pub fn new() -> Memory {
        Memory {
            has_read_input: false,
        }
    }

    fn find(&mut self, name: &str) -> Result<&'static [u8], SourceFault> {
        if name == FULL {
            return Err(SourceFault::Memory);
        }
        if name == "-" {
            if self.has_read_input {
                return Err(SourceFault::File);
            }
            self.has_read_input = true;
        }
        for (known, text) in &FILES {
            if *known == name {
                return Ok(text.as_bytes());
            }
        }
        Err(SourceFault::File)
    }
}

impl Source for Memory {
    ghost gives = { λ old name most result new. Unit {0} };

    fn read(&mut self, alloc: Global, name: &str, most: usize) -> Result<Vec<u8>, SourceFault> {
        let bytes = self.find(name)?;
        let front = &bytes[..bytes.len().min(most)];
        match Vec::from_slice(alloc, front) {
            Ok(front) => Ok(front),
            Err(_) => Err(SourceFault::Memory),
        }
    }
}

impl Streams for Memory {
    type Stream = &'static [u8];

    ghost opens = { λ old name result new. Unit {0} };

    fn open(&mut self, _alloc: Global, name: &str) -> Result<&'static [u8], SourceFault> {
        self.find(name)
    }
}
