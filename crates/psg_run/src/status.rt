//! How a run ends.
ghost use Rattle.std.specs.Prelude.{◌≡◌};
ghost use Rattle.psg_run.specs.Codes.{code_of};

/// How a run of the program ends. Its number is the exit status.
#[derive(Clone, Copy, Debug, PartialEq, Eq)]
pub enum Status {
    /// All that was asked for was done, and the whole output was written.
    Done,
    /// The bytes of the definition are no definition, or one that is not accepted, and the line that says so was
    /// written.
    DefinitionRefused,
    /// The words have none of the forms; nothing was read or written.
    Words,
    /// A read of the definition, of the script, of the layout or of the program failed, and nothing was written; or one
    /// of the input failed, and the replies to the lines before were written.
    ReadFault,
    /// A write of the output failed; a front of the output was written, and not all of it.
    WriteFault,
    /// There was no memory left; a front of the output was written, which may be empty.
    Memory,
    /// The definition, the script, the layout or the program is too long; nothing was written.
    TooLong,
    /// The bytes of the layout are no layout, and the line that says so was written.
    LayoutRefused,
    /// The program is wrong, or its text is not the one that it is to have, or it is of no kind that a program may be,
    /// and the line that says so was written.
    Wrong,
}

impl Status {
    /// Returns the exit status of the process, from 0 to 8.
    pub fn code(self) -> u8
        ensures { result ≡ code_of self }
    {
        match self {
            Status::Done => 0,
            Status::DefinitionRefused => 1,
            Status::Words => 2,
            Status::ReadFault => 3,
            Status::WriteFault => 4,
            Status::Memory => 5,
            Status::TooLong => 6,
            Status::LayoutRefused => 7,
            Status::Wrong => 8,
        }
    }
}
