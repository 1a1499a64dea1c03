//! How the server ends.
ghost use Rattle.std.specs.Prelude.{◌≡◌, ◌⊎◌};
ghost use Rattle.psg_lsp.specs.Talking.{IsBroken};

use psg_world::{ReadStop, WriteStop};

/// How the server ends. Its number is the exit status.
#[derive(Clone, Copy, Debug, PartialEq, Eq)]
pub enum Ending {
    /// The client said so, with this status; or the input ended.
    Told(u8),
    /// The definition is refused.
    Refused,
    /// The words are no file and no phylum or list of the definition.
    Words,
    /// The definition or the input can't be read, or no frame of it can be followed.
    ReadFault,
    /// The output can't be written.
    WriteFault,
    /// There was no memory left.
    Memory,
    /// The definition is too long.
    TooLong,
}

impl Ending {
    /// Returns the exit status.
    pub fn code(self) -> u8 {
        match self {
            Ending::Told(status) => status,
            Ending::Refused => 1,
            Ending::Words => 2,
            Ending::ReadFault => 3,
            Ending::WriteFault => 4,
            Ending::Memory => 5,
            Ending::TooLong => 6,
        }
    }
}

/// Returns the ending at a read that stopped.
pub fn read_ending(stop: ReadStop) -> Ending
    ensures { IsBroken result ⊎ (result ≡ Ending.ReadFault) }
{
    match stop {
        ReadStop::Failed => Ending::ReadFault,
        ReadStop::Memory => Ending::Memory,
    }
}

/// Returns the ending at a write that stopped.
pub fn write_ending(stop: WriteStop) -> Ending
    ensures { IsBroken result }
{
    match stop {
        WriteStop::Failed => Ending::WriteFault,
        WriteStop::Memory => Ending::Memory,
    }
}
