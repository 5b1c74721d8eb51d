//! The names that `--allow` and `--deny` give: those that no type and no instance has are reported.

ghost use Rattle.std.specs.Prelude.{◌≡◌, ◌++◌, ℕ, IfOk, List, OnOk, codes, map, option_map, string_bytes};
ghost use Rattle.std.specs.List.{list_any};
ghost use Rattle.fb_types.specs.Names.{same_name};
ghost use Rattle.fbsim_command.specs.SelectedNames as spec;
ghost use Rattle.fbsim_command.specs.SelectedNames.{SaysAll, SaysName, SaysNames, SaysOf};

use crate::near::nearest_name;
use crate::selectors::{Selector, Sorting};
use crate::unknown_name::{nearest_words, shown_bytes};
use fb_types::{BlockType, Instance, Library, Name};
use std::alloc::{AllocError, Global};

/// Adds the names of instances, each with the name of its type.
fn push_instances<'a>(
    names: &mut Vec<&'a Name>,
    instances: &'a [Instance],
) -> Result<(), AllocError>
    ensures { OnOk result (map (λ n. n.now) names.new.items ≡ map (λ n. n.now) names.old.items ++ spec.instance_names instances.now) }
{
    for instance in instances {
        names.push(&instance.name)?;
        names.push(&instance.block_type)?;
    }
    Ok(())
}

/// Adds the name of a block type, and the names in its network.
fn push_block<'a>(names: &mut Vec<&'a Name>, block: &'a BlockType) -> Result<(), AllocError>
    ensures { OnOk result (map (λ n. n.now) names.new.items ≡ map (λ n. n.now) names.old.items ++ spec.block_names block.now) }
{
    names.push(block.type_name())?;
    match block {
        BlockType::Basic(_) => Ok(()),
        BlockType::Composite(composite) => {
            push_instances(names, composite.network.instances.as_slice())
        }
    }
}

/// Adds the names of block types, each with the names in its network.
fn push_blocks<'a>(names: &mut Vec<&'a Name>, blocks: &'a [BlockType]) -> Result<(), AllocError>
    ensures { OnOk result (map (λ n. n.now) names.new.items ≡ map (λ n. n.now) names.old.items ++ spec.all_block_names blocks.now) }
{
    for block in blocks {
        push_block(names, block)?;
    }
    Ok(())
}

/// The names of all types and instances.
fn names_of<'a>(alloc: Global, library: &'a Library) -> Result<Vec<&'a Name>, AllocError>
    ensures { IfOk result (λ names. map (λ n. n.now) names.items ≡ spec.names_of library.now) }
{
    let mut names = Vec::new(alloc);
    push_blocks(&mut names, library.blocks.as_slice())?;
    push_instances(&mut names, library.application.network.instances.as_slice())?;
    Ok(names)
}

/// Whether a name is one of these.
fn is_one_of(names: &[&Name], name: &Name) -> bool
    ensures { result ≡ list_any (λ n. same_name name.now n.now) names.now }
{
    for other in names {
        if name.is(*other) {
            return true;
        }
    }
    false
}

/// The line for a name that an option gives: nothing has it, and this is the nearest name, if there is one.
fn unknown_line(
    alloc: Global,
    option: &str,
    name: &Name,
    near: Option<&[u8]>,
) -> Result<String, AllocError>
    ensures { IfOk result (λ line. string_bytes line ≡ spec.unknown_line option.now name.now (option_map (λ n. n.now) near.entry)) }
{
    let near = nearest_words(alloc, near)?;
    let name = shown_bytes(alloc, name.as_bytes())?;
    Ok(format!(in alloc; "--{option}: there is no type or instance {name}{near}\n")?)
}

/// The line for a name that an option gives, if nothing has it, and else nothing.
fn line_of_name(
    alloc: Global,
    option: &str,
    names: &[&Name],
    name: &Name,
) -> Result<String, AllocError>
    ensures { IfOk result (λ line. SaysName option.now (map (λ n. n.now) names.now) name.now (string_bytes line)) }
{
    if is_one_of(names, name) {
        return Ok(String::new(alloc));
    }
    let near = nearest_name(alloc, names, name.as_bytes())?;
    unknown_line(alloc, option, name, near)
}

/// The line for what an option gives, if it has a name that nothing has, and else nothing.
fn line_of(
    alloc: Global,
    option: &str,
    names: &[&Name],
    selector: &Selector,
) -> Result<String, AllocError>
    ensures { IfOk result (λ line. SaysOf option.now (map (λ n. n.now) names.now) selector.now.about (string_bytes line)) }
{
    match &selector.about {
        Some(name) => line_of_name(alloc, option, names, name),
        None => Ok(String::new(alloc)),
    }
}

/// Adds the lines for all that an option gives. It says whether there are some.
fn push_lines(
    alloc: Global,
    lines: &mut Vec<u8>,
    option: &str,
    names: &[&Name],
    selectors: &[Selector],
) -> Result<bool, AllocError>
    ensures { IfOk result (λ some. (added : List ℕ) × (lines.new.items ≡ lines.old.items ++ added) × SaysAll option.now (map (λ n. n.now) names.now) selectors.now added some) }
{
    let mut is_some = false;
    for selector in selectors {
        let line = line_of(alloc, option, names, selector)?;
        lines.extend_from_slice(line.as_bytes())?;
        is_some |= !line.is_empty();
    }
    Ok(is_some)
}

/// Adds a line for each name that a call allows or denies and that no type and no instance has. It says whether it denies
/// one.
pub(crate) fn push_unknown(
    alloc: Global,
    lines: &mut Vec<u8>,
    library: &Library,
    sorting: &Sorting,
) -> Result<bool, AllocError>
    ensures { IfOk result (λ denied. (added : List ℕ) × (lines.new.items ≡ lines.old.items ++ added) × SaysNames library.now sorting.now added denied) }
{
    let names = names_of(alloc, library)?;
    let names = names.as_slice();
    push_lines(alloc, lines, "allow", names, sorting.allowed.as_slice())?;
    push_lines(alloc, lines, "deny", names, sorting.denied.as_slice())
}
