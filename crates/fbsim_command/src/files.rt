//! The files of the machine.

ghost use Rattle.std.specs.Prelude.{◌≡◌, ◌≤◌, Bool, IfErr, IfOk, IfSome, false, take, vec_len};
ghost use Rattle.fbsim_command.specs.Files as spec;
ghost use Rattle.std.specs.Io.Buffered.{reader_inner};

use crate::sources::{Source, SourceFault, Streams};
use std::alloc::Global;
use std::io::{BufReader, ErrorKind, Read};
use std::{fs, io, rt};

/// How many bytes are read at a time, at most.
const SIZE: usize = 8192;

/// How many bytes of a file that is read piece by piece are read at a time, at most.
const PAGE: usize = 65_536;

/// The files of the machine. The name `-` is standard input, once.
#[derive(Drop)]
pub struct Files<'r, R> {
    runtime: &'r R,
    has_read_input: bool,
}

impl<'r, R: rt::Files + Input> Files<'r, R> {
    /// All files, with standard input not yet read.
    pub fn new(runtime: &'r R) -> Files<'r, R>
        ensures { result.has_read_input ≡ false }
    {
        Files {
            runtime,
            has_read_input: false,
        }
    }
}

/// Whether a folder of the machine has this name.
fn is_folder<R: rt::Files>(files: &R, name: &str) -> bool {
    match fs::metadata(files, name) {
        Ok(metadata) => metadata.is_dir(),
        Err(_) => false,
    }
}

/// Why a name is not opened as a file: it is that of a folder, or not.
fn fault_of(is_folder: bool) -> SourceFault
    ensures { result ≡ spec.fault_of is_folder }
{
    if is_folder {
        SourceFault::Folder
    } else {
        SourceFault::File
    }
}

/// Opens a file of the machine. A folder can be opened like one, and only reading it fails, so what it is comes first.
fn open_file<R: rt::Files>(files: &R, name: &str) -> Result<R::File, SourceFault>
    ensures { IfErr result (λ fault. (is_folder : Bool) × (fault ≡ spec.fault_of is_folder)) }
{
    let is_folder = is_folder(files, name);
    if !is_folder && let Ok(file) = fs::open(files, name) {
        return Ok(file);
    }
    Err(fault_of(is_folder))
}

/// The first bytes of a reader, at most `most` of them.
///
/// # Errors
/// `File` where the reader fails, and `Memory`.
pub(crate) fn read_most<R: Read>(
    alloc: Global,
    from: &mut R,
    most: usize,
) -> Result<Vec<u8>, SourceFault>
    ensures short { IfOk result (λ bytes. vec_len bytes ≤ most) }
    ensures front { IfOk result (λ bytes. IfSome (R.remaining from.old) (λ all. bytes.items ≡ take most all)) }
{
    let mut bytes = Vec::new(alloc);
    let mut part = [0; SIZE];
    for _ in 0..u64::MAX {
        let room = (most - bytes.len()).min(SIZE);
        if room == 0 {
            return Ok(bytes);
        }
        match from.read(&mut part[..room]) {
            Ok(0) => return Ok(bytes),
            Ok(count) => match bytes.extend_from_slice(&part[..count]) {
                Ok(()) => {}
                Err(_) => return Err(SourceFault::Memory),
            },
            Err(error) if error.kind() == ErrorKind::Interrupted => {}
            Err(_) => return Err(SourceFault::File),
        }
    }
    Err(SourceFault::File)
}

/// A reader of which as much as there is room for is read at a time.
fn paged<R: Read + Drop>(alloc: Global, from: R) -> Result<BufReader<R>, SourceFault>
    ensures from { IfOk result (λ reader. reader_inner reader ≡ from) }
    ensures fault { IfErr result (λ fault. fault ≡ SourceFault.Memory) }
{
    match BufReader::with_capacity(alloc, PAGE, from) {
        Ok(reader) => Ok(reader),
        Err(_) => Err(SourceFault::Memory),
    }
}

/// A file that is open.
#[derive(Drop)]
pub enum Opened<F, I> {
    /// One with a name.
    Named(F),
    /// Standard input.
    Input(I),
}

impl<F: Read, I: Read> Read for Opened<F, I> {
    ghost use Rattle.fbsim_command.specs.Files.{remaining_of};

    ghost remaining = { remaining_of F.remaining I.remaining };

    fn read(&mut self, buffer: &mut [u8]) -> io::Result<usize> {
        match self {
            Opened::Named(file) => file.read(buffer),
            Opened::Input(input) => input.read(buffer),
        }
    }
}

impl<'r, R: rt::Files + Input> Source for Files<'r, R> {
    ghost use Rattle.fbsim_command.specs.Files.{TakesInput};

    ghost gives = { λ old name most result new. TakesInput old.has_read_input new.has_read_input name result };

    fn read(&mut self, alloc: Global, name: &str, most: usize) -> Result<Vec<u8>, SourceFault> {
        if name == "-" {
            if self.has_read_input {
                return Err(SourceFault::File);
            }
            self.has_read_input = true;
            return read_most(alloc, &mut self.runtime.reader(), most);
        }
        match open_file(self.runtime, name) {
            Ok(mut file) => read_most(alloc, &mut file, most),
            Err(fault) => Err(fault),
        }
    }
}

impl<'r, R: rt::Files + Input> Streams for Files<'r, R> {
    type Stream = BufReader<Opened<R::File, R::Reader>>;

    ghost use Rattle.fbsim_command.specs.Files.{TakesInput};

    ghost opens = { λ old name result new. TakesInput old.has_read_input new.has_read_input name result };

    fn open(&mut self, alloc: Global, name: &str) -> Result<Self::Stream, SourceFault> {
        if name == "-" {
            if self.has_read_input {
                return Err(SourceFault::File);
            }
            self.has_read_input = true;
            return paged(alloc, Opened::Input(self.runtime.reader()));
        }
        match open_file(self.runtime, name) {
            Ok(file) => paged(alloc, Opened::Named(file)),
            Err(fault) => Err(fault),
        }
    }
}
