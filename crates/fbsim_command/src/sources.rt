//! Where the program's files come from.

ghost use Rattle.std.specs.Prelude.{ℕ, ◌≤◌, List, Option, Result, Ok, Err, IfOk, MatchResult, vec_len};
ghost use Rattle.fbsim_command.specs.declared.sources.SourceFault.{SourceFault};

use std::alloc::Global;
use std::io::BufRead;

/// Why a file is not read.
#[derive(Clone, Copy)]
pub enum SourceFault {
    /// It is not there, or it cannot be read.
    File,
    /// It is a folder.
    Folder,
    Memory,
}

/// Where files come from that are read whole.
pub trait Source {
    /// What reading the first bytes of a named file may give, from one state of the source to the next.
    ghost gives: { Self → List ℕ → ℕ → Result (List ℕ) SourceFault → Self → Type 0 };

    /// The file of this name, but at most its first `most` bytes.
    ///
    /// # Errors
    /// `File` where it is not there or cannot be read, `Folder` where it is one, and `Memory`.
    fn read(&mut self, alloc: Global, name: &str, most: usize) -> Result<Vec<u8>, SourceFault>
        ensures gives { MatchResult result
            (λ bytes. gives self.old name.now most (Ok bytes.items) self.new)
            (λ fault. gives self.old name.now most (Err fault) self.new) }
        ensures short { IfOk result (λ bytes. vec_len bytes ≤ most) };
}

/// Where files come from that are read piece by piece, since they may have any length: traces.
pub trait Streams {
    /// An open file.
    type Stream: BufRead + Drop;

    /// What opening a named file may give, from one state of the source to the next: its bytes, where they are known.
    ghost opens: { Self → List ℕ → Result (Option (List ℕ)) SourceFault → Self → Type 0 };

    /// The file of this name.
    ///
    /// # Errors
    /// `File` where it is not there, `Folder` where it is one, and `Memory`.
    fn open(&mut self, alloc: Global, name: &str) -> Result<Self::Stream, SourceFault>
        ensures { MatchResult result
            (λ stream. opens self.old name.now (Ok (Self.Stream.remaining stream)) self.new)
            (λ fault. opens self.old name.now (Err fault) self.new) };
}
