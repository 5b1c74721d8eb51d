//! Interfaces: events and variables.

ghost use Rattle.std.specs.Prelude.{◌≡◌, ◌++◌, IfOk, OnOk};
ghost use Rattle.std.specs.List.{flat_map};
ghost use Rattle.fb_read.specs.Parser.{Reads, section};
ghost use Rattle.fb_read.specs.Ports as spec;
ghost use Rattle.fb_read.specs.declared.token.Mark.TheVariants as mark;

use crate::cursor::Cursor;
use crate::fault::ParseFault;
use crate::rule::{Rule, ended, listed, optional, section, separated, then_read};
use crate::token::Mark;
use fb_types::{EventPort, Items, Name, Numbered, Ports, Ty, Value, Variable};
use std::alloc::{AllocError, Global};

/// Names of variables with the type and the initial value that they share.
#[derive(Drop)]
pub struct Declaration {
    names: Items<Name>,
    ty: Ty,
    initial: Option<Value>,
}

impl Rule for EventPort {
    ghost parser = { spec.event };

    #[tactic(auto, unfolding(crate::specs::Ports::event))]
    fn read(cursor: &mut Cursor<'_>) -> Result<EventPort, ParseFault> {
        let name = Name::read(cursor)?;
        let with = listed::<Name>(cursor, Mark::With)?;
        ended(cursor, Mark::Semicolon, EventPort { name, with })
    }
}

impl Rule for Declaration {
    ghost parser = { spec.declaration };

    fn read(cursor: &mut Cursor<'_>) -> Result<Declaration, ParseFault> {
        let names = separated::<Name>(cursor)?;
        let (names, ty) = then_read::<Items<Name>, Ty>(cursor, names, Mark::Colon)?;
        let initial = optional::<Value>(cursor, Mark::Assign)?;
        ended(cursor, Mark::Semicolon, Declaration { names, ty, initial })
    }
}

/// Adds a variable for each name of a declaration.
fn declare(all: &mut Items<Variable>, declaration: Declaration) -> Result<(), AllocError>
    ensures { IfOk result (λ _. all.new ≡ all.old ++ spec.variables_of declaration) }
{
    let Declaration { names, ty, initial } = declaration;
    for name in names.into_vec() {
        all.push(Variable { name, ty, initial })?;
    }
    Ok(())
}

/// The variables of all of the declarations.
fn declared(alloc: Global, declarations: Items<Declaration>) -> Result<Items<Variable>, AllocError>
    ensures { IfOk result (λ all. all ≡ flat_map spec.variables_of declarations) }
{
    let mut all = Items::new(alloc);
    for declaration in declarations.into_vec() {
        declare(&mut all, declaration)?;
    }
    Ok(all)
}

/// The variables of the section that begins with this mark, if there is one.
#[tactic(auto, unfolding(crate::specs::Ports::variables))]
pub fn variables(cursor: &mut Cursor<'_>, begin: Mark) -> Result<Items<Variable>, ParseFault>
    ensures { Reads (spec.variables begin cursor.old) result cursor.new }
{
    let found = section::<Declaration>(cursor, begin, Mark::EndVar)?;
    Ok(declared(cursor.alloc(), found)?)
}

/// The events of the section that begins with this mark, if there is one.
fn numbered_events(cursor: &mut Cursor<'_>, begin: Mark) -> Result<Numbered<EventPort>, ParseFault>
    ensures { Reads (section spec.event begin mark.EndEvent cursor.old) result cursor.new }
{
    cursor.bound(); // for the prover: how many tokens are left at most
    let found = section::<EventPort>(cursor, begin, Mark::EndEvent)?;
    Ok(Numbered::new(found))
}

/// The inputs or outputs of the section that begins with this mark, if there is one.
fn numbered_variables(
    cursor: &mut Cursor<'_>,
    begin: Mark,
) -> Result<Numbered<Variable>, ParseFault>
    ensures { Reads (spec.variables begin cursor.old) result cursor.new }
{
    cursor.bound(); // for the prover: how many tokens are left at most
    let found = variables(cursor, begin)?;
    Ok(Numbered::new(found))
}

impl Rule for Ports {
    ghost parser = { spec.ports };

    #[tactic(auto, unfolding(crate::specs::Ports::ports))]
    fn read(cursor: &mut Cursor<'_>) -> Result<Ports, ParseFault> {
        let event_inputs = numbered_events(cursor, Mark::EventInput)?;
        let event_outputs = numbered_events(cursor, Mark::EventOutput)?;
        let inputs = numbered_variables(cursor, Mark::VarInput)?;
        let outputs = numbered_variables(cursor, Mark::VarOutput)?;
        Ok(Ports {
            event_inputs,
            event_outputs,
            inputs,
            outputs,
        })
    }
}
