//! The indexes of the names of a basic type, while its chart is made.

ghost use Rattle.std.specs.Prelude.{◌≡◌, IfOk, map, option_map, unwrap_or};
ghost use Rattle.fb_types.specs.Repeated.{Twice};
ghost use Rattle.fb_check_names.specs.Indexes.{IsIndex, index_in};
ghost use Rattle.fb_ecc.specs.Indexed.{AreNumbers};
ghost use Rattle.fb_ecc.specs.Opened.{IsOfDeclaration};

use fb_check_names::{Indexes, Named, index_of, indexes};
use fb_types::{BasicType, Name};
use std::alloc::{AllocError, Global};

/// The indexes of the names of a basic type, each among those of its kind.
pub(crate) struct Numbers<'a> {
    pub states: Indexes<'a>,
    pub algorithms: Indexes<'a>,
    pub event_inputs: Indexes<'a>,
    pub event_outputs: Indexes<'a>,
    pub inputs: Indexes<'a>,
    pub outputs: Indexes<'a>,
}

// Drop is written by hand, so that callers need not prove it again (docs/DECISIONS.md, "Drop").
impl<'a> Drop for Numbers<'a> {
    fn drop(self) {
        let Numbers {
            states: _,
            algorithms: _,
            event_inputs: _,
            event_outputs: _,
            inputs: _,
            outputs: _,
        } = self;
    }
}

/// The indexes of the names of a list, which differ.
fn indexes_once<'a, T: Named>(alloc: Global, items: &'a [T]) -> Result<Indexes<'a>, AllocError>
    requires { ¬ (Twice (map T.called items.now)) }
    ensures { IfOk result (IsIndex (map T.called items.now)) }
{
    match indexes(alloc, items)? {
        Some(indexes) => Ok(indexes),
        None => unreachable!(),
    }
}

impl<'a> Numbers<'a> {
    /// The indexes of the names of a type of an accepted declaration.
    pub(crate) fn of(alloc: Global, block: &'a BasicType) -> Result<Numbers<'a>, AllocError>
        requires { IsOfDeclaration block.now }
        ensures { IfOk result (AreNumbers block.now) }
    {
        let ports = &block.ports;
        let states = indexes_once(alloc, block.states.as_slice())?;
        let algorithms = indexes_once(alloc, block.algorithms.as_slice())?;
        let event_inputs = indexes_once(alloc, ports.event_inputs.as_slice())?;
        let event_outputs = indexes_once(alloc, ports.event_outputs.as_slice())?;
        let inputs = indexes_once(alloc, ports.inputs.as_slice())?;
        let outputs = indexes_once(alloc, ports.outputs.as_slice())?;
        Ok(Numbers {
            states,
            algorithms,
            event_inputs,
            event_outputs,
            inputs,
            outputs,
        })
    }
}

/// The index of a name, or the number of all names where it is none of them.
pub(crate) fn number(indexes: &Indexes, count: usize, name: &Name) -> usize
    ensures { result ≡ unwrap_or (index_in indexes.now name.now) count }
{
    match index_of(indexes, name.as_bytes()) {
        Some(index) => index,
        None => count,
    }
}

/// The same, where there is a name.
pub(crate) fn optional_number(indexes: &Indexes, count: usize, name: &Option<Name>) -> Option<usize>
    ensures { result ≡ option_map (λ n. unwrap_or (index_in indexes.now n) count) name.now }
{
    match name {
        Some(name) => Some(number(indexes, count, name)),
        None => None,
    }
}
