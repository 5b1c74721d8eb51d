//! The files of a call, in the order in which they are read.

ghost use Rattle.std.specs.Prelude.{◌≡◌, ◌<◌, ◌++◌, ◌∷◌, [], ℕ, IfOk, IfErr, Ok, Err, None, OnOk, false, length, map, option_map};
ghost use Rattle.clap.specs.Words.{Text};
ghost use Rattle.fbsim_command.specs.Joining.{lines_of_files, text_of};
ghost use Rattle.fbsim_command.specs.Reading.{AreRead, AreTextsRead, IsDeclarationRead, IsDeclarationUnread, IsTypeUnread, IsUnread, LacksText, MayRead, asked};
ghost use Rattle.fbsim_command.specs.Texts.{contents_of, given_of, lines_of, may_be_cut, may_lines_of, texts_of};
ghost use Rattle.fbsim_command.specs.declared.texts.Part.TheVariants.{BlockTypes, Declaration};

use crate::join::{FileLines, lines_of_files, text_of};
use crate::sources::{Source, SourceFault};
use fb_sim::Inputs;
use fb_wave::Cut;
use fbsim_line::{Action, Task};
use std::alloc::{AllocError, Global};

/// One byte more than a declaration or a deployment may have, so that one that is too long shows.
const TEXT_BYTES: usize = 1_048_577;

/// One byte more than stimuli may have.
const STIMULI_BYTES: usize = 16_777_217;

/// The files of a call, as they were read.
pub struct Texts {
    /// The declaration, in one text.
    pub declaration: Vec<u8>,
    /// The lines of each file of the declaration, if it is in several files.
    pub lines: Vec<FileLines>,
    pub deploy: Option<Vec<u8>>,
    pub stimuli: Option<Vec<u8>>,
}

// Drop is written by hand, so that it is one call wherever texts are dropped (docs/DECISIONS.md, "Drop").
impl Drop for Texts {
    fn drop(self) {
        let Texts {
            declaration: _,
            lines: _,
            deploy: _,
            stimuli: _,
        } = self;
    }
}

impl Texts {
    pub fn inputs(&self) -> Inputs<'_>
        ensures { result ≡ given_of self.now }
    {
        Inputs {
            declaration: self.declaration.as_slice(),
            deploy: self.deployment(),
            stimuli: self.rows(),
        }
    }

    /// The bytes of the deployment, where one was read.
    pub fn deployment(&self) -> Option<&[u8]>
        ensures { option_map (λ b. b.now) result ≡ (given_of self.now).deploy }
    {
        match &self.deploy {
            Some(bytes) => Some(bytes.as_slice()),
            None => None,
        }
    }

    /// The bytes of the stimuli, where some were read.
    pub fn rows(&self) -> Option<&[u8]>
        ensures { option_map (λ b. b.now) result ≡ (given_of self.now).stimuli }
    {
        match &self.stimuli {
            Some(bytes) => Some(bytes.as_slice()),
            None => None,
        }
    }
}

/// The lines of each file of a declaration, if there is one and it is in several files.
pub fn lines_in(declared: &Option<Texts>) -> &[FileLines]
    ensures { result.now ≡ may_lines_of declared.now }
{
    match declared {
        Some(texts) => texts.lines.as_slice(),
        None => &[],
    }
}

/// The check of a declaration with its deployment, which says which files other calls read.
pub(crate) fn files_of<'a>(declaration: &'a str, deployment: Option<&'a str>, why: bool) -> Task<'a>
    ensures { result ≡ record { action = Action.Check false; declaration = declaration.entry; deploy = deployment.entry; stimuli = None; why = why } }
{
    Task {
        action: Action::Check { lint: false },
        declaration,
        deploy: deployment,
        stimuli: None,
        why,
    }
}

/// The check of a declaration with its deployment and stimuli.
pub(crate) fn run_files_of<'a>(
    declaration: &'a str,
    deployment: Option<&'a str>,
    stimuli: Option<&'a str>,
) -> Task<'a>
    ensures { result ≡ record { action = Action.Check false; declaration = declaration.entry; deploy = deployment.entry; stimuli = stimuli.entry; why = false } }
{
    Task {
        action: Action::Check { lint: false },
        declaration,
        deploy: deployment,
        stimuli,
        why: false,
    }
}

/// Whether traces may be cut off.
pub(crate) fn cut_of(is_cut: bool) -> Cut
    ensures { result ≡ may_be_cut is_cut }
{
    if is_cut { Cut::Allowed } else { Cut::Refused }
}

/// A file of a call.
#[derive(Clone, Copy)]
pub enum Part {
    /// The file of block types at this index.
    BlockTypes(usize),
    Declaration,
    Deployment,
    Stimuli,
}

/// A file that is not read, and why.
#[derive(Clone, Copy)]
pub struct Unread {
    pub part: Part,
    pub fault: SourceFault,
}

/// Reads a file that a call may name.
fn read_named<S: Source>(
    alloc: Global,
    name: Option<&str>,
    most: usize,
    source: &mut S,
) -> Result<Option<Vec<u8>>, SourceFault>
    ensures { MayRead S.gives (option_map (λ n. n.now) name.entry) most source.old (contents_of result) source.new }
{
    match name {
        Some(name) => Ok(Some(source.read(alloc, name, most)?)),
        None => Ok(None),
    }
}

/// A declaration as it was read, in one text.
#[derive(Drop)]
struct Declared {
    text: Vec<u8>,
    /// The lines of each file, if there are several.
    lines: Vec<FileLines>,
}

/// Reads one file of a declaration, and adds its text to others.
fn read_next<S: Source>(
    alloc: Global,
    name: &str,
    texts: &mut Vec<Vec<u8>>,
    source: &mut S,
) -> Result<(), SourceFault>
    ensures read { OnOk result ((t : Text) × S.gives source.old name.now asked (Ok t) source.new × (texts_of texts.new.items ≡ texts_of texts.old.items ++ t ∷ [])) }
    ensures unread { IfErr result (LacksText S.gives source.old source.new name.now) }
{
    match source.read(alloc, name, TEXT_BYTES) {
        Ok(text) => match texts.push(text) {
            Ok(()) => Ok(()),
            Err(_) => Err(SourceFault::Memory),
        },
        Err(fault) => Err(fault),
    }
}

/// Reads the files of block types, and adds their texts to none.
fn read_types<S: Source>(
    alloc: Global,
    types: &[&str],
    texts: &mut Vec<Vec<u8>>,
    source: &mut S,
) -> Result<(), Unread>
    requires { texts.old.items ≡ [] }
    ensures read { OnOk result (AreTextsRead S.gives (map (λ t. t.now) types.now) source.old source.new (texts_of texts.new.items)) }
    ensures unread { IfErr result (λ u. (index : ℕ) × (u.part ≡ BlockTypes index) × IsTypeUnread S.gives (map (λ t. t.now) types.now) index source.old source.new u.fault) }
{
    for i in 0..types.len() {
        match read_next(alloc, types[i], texts, source) {
            Ok(()) => {}
            Err(fault) => {
                return Err(Unread {
                    part: Part::BlockTypes(i),
                    fault,
                });
            }
        }
    }
    Ok(())
}

/// Reads the files of block types and the declaration's own, in this order.
fn read_all<S: Source>(
    alloc: Global,
    types: &[&str],
    own: &str,
    texts: &mut Vec<Vec<u8>>,
    source: &mut S,
) -> Result<(), Unread>
    requires several { 0 < length types.now }
    requires none { texts.old.items ≡ [] }
    ensures read { OnOk result (AreTextsRead S.gives (map (λ t. t.now) types.now ++ own.now ∷ []) source.old source.new (texts_of texts.new.items)) }
    ensures unread { IfErr result (λ u. IsDeclarationUnread S.gives (map (λ t. t.now) types.now) own.now source.old source.new u.part u.fault) }
{
    match read_types(alloc, types, texts, source) {
        Ok(()) => match read_next(alloc, own, texts, source) {
            Ok(()) => Ok(()),
            Err(fault) => Err(Unread {
                part: Part::Declaration,
                fault,
            }),
        },
        Err(unread) => Err(unread),
    }
}

/// The declaration in several texts.
fn declared_in(alloc: Global, texts: &[Vec<u8>]) -> Result<Declared, AllocError>
    ensures text { IfOk result (λ d. d.text.items ≡ text_of (texts_of texts.now)) }
    ensures lines { IfOk result (λ d. d.lines.items ≡ lines_of_files (texts_of texts.now)) }
{
    let lines = lines_of_files(alloc, texts)?;
    let text = text_of(alloc, texts)?;
    Ok(Declared { text, lines })
}

/// Reads a declaration in several files, and adds their texts to none.
fn read_joined<S: Source>(
    alloc: Global,
    types: &[&str],
    own: &str,
    texts: &mut Vec<Vec<u8>>,
    source: &mut S,
) -> Result<Declared, Unread>
    requires several { 0 < length types.now }
    requires none { texts.old.items ≡ [] }
    ensures read { IfOk result (λ d. IsDeclarationRead S.gives (map (λ t. t.now) types.now) own.now source.old source.new d.lines.items d.text.items) }
    ensures unread { IfErr result (λ u. IsDeclarationUnread S.gives (map (λ t. t.now) types.now) own.now source.old source.new u.part u.fault) }
{
    match read_all(alloc, types, own, texts, source) {
        Ok(()) => match declared_in(alloc, texts.as_slice()) {
            Ok(declared) => Ok(declared),
            Err(AllocError) => Err(Unread {
                part: Part::Declaration,
                fault: SourceFault::Memory,
            }),
        },
        Err(unread) => Err(unread),
    }
}

/// Reads a declaration in several files.
fn read_several<S: Source>(
    alloc: Global,
    types: &[&str],
    own: &str,
    source: &mut S,
) -> Result<Declared, Unread>
    requires { 0 < length types.now }
    ensures read { IfOk result (λ d. IsDeclarationRead S.gives (map (λ t. t.now) types.now) own.now source.old source.new d.lines.items d.text.items) }
    ensures unread { IfErr result (λ u. IsDeclarationUnread S.gives (map (λ t. t.now) types.now) own.now source.old source.new u.part u.fault) }
{
    let mut texts = Vec::new(alloc);
    let declared = read_joined(alloc, types, own, &mut texts, source);
    // Dropped by one call: the end of its scope would join the ways.
    drop(texts);
    declared
}

/// Reads a declaration in one file.
fn read_alone<S: Source>(alloc: Global, own: &str, source: &mut S) -> Result<Declared, Unread>
    ensures read { IfOk result (λ d. S.gives source.old own.now asked (Ok d.text.items) source.new × (d.lines.items ≡ [])) }
    ensures unread { IfErr result (λ u. (u.part ≡ Declaration) × S.gives source.old own.now asked (Err u.fault) source.new) }
{
    match source.read(alloc, own, TEXT_BYTES) {
        Ok(text) => Ok(Declared {
            text,
            lines: Vec::new(alloc),
        }),
        Err(fault) => Err(Unread {
            part: Part::Declaration,
            fault,
        }),
    }
}

/// Reads a declaration, after the files of block types if there are any.
fn read_declaration<S: Source>(
    alloc: Global,
    types: &[&str],
    own: &str,
    source: &mut S,
) -> Result<Declared, Unread>
    ensures read { IfOk result (λ d. IsDeclarationRead S.gives (map (λ t. t.now) types.now) own.now source.old source.new d.lines.items d.text.items) }
    ensures unread { IfErr result (λ u. IsDeclarationUnread S.gives (map (λ t. t.now) types.now) own.now source.old source.new u.part u.fault) }
{
    if types.is_empty() {
        read_alone(alloc, own, source)
    } else {
        read_several(alloc, types, own, source)
    }
}

/// Reads the files of a call: those of block types, the declaration, the deployment and the stimuli, in this order.
pub fn read_files<S: Source>(
    alloc: Global,
    types: &[&str],
    task: &Task<'_>,
    source: &mut S,
) -> Result<Texts, Unread>
    ensures read { IfOk result (λ texts. AreRead S.gives (map (λ t. t.now) types.now) task.now source.old source.new (lines_of texts) (given_of texts)) }
    ensures unread { IfErr result (λ unread. IsUnread S.gives (map (λ t. t.now) types.now) task.now source.old source.new unread.part unread.fault) }
{
    let Declared { text, lines } = read_declaration(alloc, types, task.declaration, source)?;
    let deploy = match read_named(alloc, task.deploy, TEXT_BYTES, source) {
        Ok(bytes) => bytes,
        Err(fault) => {
            return Err(Unread {
                part: Part::Deployment,
                fault,
            });
        }
    };
    let stimuli = match read_named(alloc, task.stimuli, STIMULI_BYTES, source) {
        Ok(bytes) => bytes,
        Err(fault) => {
            return Err(Unread {
                part: Part::Stimuli,
                fault,
            });
        }
    };
    Ok(Texts {
        declaration: text,
        lines,
        deploy,
        stimuli,
    })
}
