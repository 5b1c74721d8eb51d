//! Laws of the definitions that contracts cite. Their functions do nothing when they run: they are there for their
//! contracts.

ghost use Rattle.fbsim_command.specs.Joining.{LinesAgree};
ghost use Rattle.fbsim_command.specs.ReadNames.{AreReadWithNames};

/// A line of a declaration in several files and the line of the file that it names belong together, byte by byte.
pub fn lines_agree()
    ensures { LinesAgree }
{}

/// What was read has names: its resources, its instances and their ports. So a line of a trace can be read back.
pub fn read_names()
    ensures { AreReadWithNames }
{}
