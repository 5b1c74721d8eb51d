//! Names by their indexes.

ghost use Rattle.std.specs.Prelude.{◌≡◌, ◌++◌, IfOk, MatchOption};
ghost use Rattle.fb_types.specs.Names.{same_name};
ghost use Rattle.fb_types.specs.Repeated.{Twice};
ghost use Rattle.fb_check_names.specs.Repeats.{repeats};
ghost use Rattle.fb_check_names.specs.Indexes.{AreLastIndexes, IsIndex, names_in, index_in};

use crate::pairs::{Repeat, push_pair};
use fb_types::Name;
use std::alloc::{AllocError, Global};
use std::collections::BTreeMap;

/// The index of each name of a list, from 0.
pub type Indexes<'a> = BTreeMap<&'a Name, usize, Global>;

/// The last index of each name in a list. Each name that is in the list before is added, with the index of the nearest
/// such name.
pub fn last_indexes<'a>(
    alloc: Global,
    again: &mut Vec<Repeat>,
    names: &[&'a Name],
) -> Result<Indexes<'a>, AllocError>
    ensures again { IfOk result (λ _. again.new.items ≡ again.old.items ++ repeats same_name (names_in names.now)) }
    ensures indexes { IfOk result (AreLastIndexes (names_in names.now)) }
{
    let mut indexes = BTreeMap::new(alloc);
    for (second, name) in names.iter().enumerate() {
        let first = indexes.insert(*name, second)?;
        push_pair(again, first, second)?;
    }
    Ok(indexes)
}

/// The indexes of names, or `None` if a name is given twice.
pub fn indexes_of<'a>(alloc: Global, names: &[&'a Name]) -> Result<Option<Indexes<'a>>, AllocError>
    ensures { IfOk result (λ o. MatchOption o (Twice (names_in names.now)) (IsIndex (names_in names.now))) }
{
    let mut again = Vec::new(alloc);
    let indexes = last_indexes(alloc, &mut again, names)?;
    if !again.is_empty() {
        return Ok(None);
    }
    Ok(Some(indexes))
}

/// The index of a name, if the list has it.
pub fn index_of_name(indexes: &Indexes, name: &Name) -> Option<usize>
    ensures { result ≡ index_in indexes.now name.now }
{
    indexes.get(name).copied()
}

/// The index of the name with these bytes, if the list has it. With a `Name` at hand, `index_of_name` is faster.
pub fn index_of(indexes: &Indexes, name: &[u8]) -> Option<usize>
    ensures { result ≡ index_in indexes.now name.now }
{
    indexes.get(name).copied()
}
