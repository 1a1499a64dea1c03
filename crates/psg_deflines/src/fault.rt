//! Why bytes are no definition.
ghost use Rattle.std.specs.Prelude.{◌≡◌, IfOk, string_bytes};
ghost use Rattle.psg_deflines.specs.FaultText.{code_number, fault_text};

use std::alloc::{AllocError, AllocFailed, Global};
use thiserror::Error;

/// What is wrong with a line.
#[derive(Clone, Copy, Debug, PartialEq, Eq)]
pub enum DefCode {
    /// The bytes are not UTF-8.
    NotText,
    /// The line has none of the forms.
    Form,
    /// The first line is the head of no version.
    Version,
    /// A name is declared that was declared before, or a second entity sort in version 1.
    Repeated,
    /// No line declares the name as what may be there: a sort, a constructor, a phylum, a list, an operator or a space.
    Unknown,
    /// A term, variable, specimen or part is at a place of another sort or kind.
    Sort,
    /// A number of arguments, columns or parts is wrong.
    Count,
    /// A quoted word is not one token.
    Token,
    /// A name position or a declare row is in a definition without an entity sort or, in version 2, without a space.
    NoEntity,
    /// A form that is not read yet.
    Later,
    /// A term or a specimen is nested too deep.
    Nested,
    /// The sort has no term without variables.
    NoGround,
    /// The sort's only constructor has arguments.
    OneWide,
}

/// The first fault of a text, by its line, from 1.
#[derive(Clone, Copy, Debug, PartialEq, Eq)]
pub struct DefFault {
    /// The line, from 1.
    pub line: u32,
    /// What is wrong with it.
    pub code: DefCode,
}

/// The reason why a definition is not read.
#[derive(Debug, Drop, Error)]
pub enum ReadFault {
    /// The bytes spell no definition.
    #[error("the definition has a fault")]
    Def(DefFault),
    /// Memory ran out.
    #[error("out of memory")]
    Memory,
}

impl From<AllocError> for ReadFault {
    ghost use Rattle.std.specs.Prelude.{◌≡◌};
    ghost use Rattle.psg_deflines.specs.declared.fault.ReadFault.TheVariants.{Memory};

    ghost from_gives = { λ _ e. e ≡ Memory };

    fn from(_e: AllocError) -> ReadFault {
        ReadFault::Memory
    }
}

impl<T: Drop> From<AllocFailed<T>> for ReadFault {
    ghost use Rattle.std.specs.Prelude.{◌≡◌};
    ghost use Rattle.psg_deflines.specs.declared.fault.ReadFault.TheVariants.{Memory};

    ghost from_gives = { λ _ e. e ≡ Memory };

    fn from(_e: AllocFailed<T>) -> ReadFault {
        ReadFault::Memory
    }
}

/// Returns the number of a code, from 1.
fn code_number(code: DefCode) -> u8
    ensures { result ≡ code_number code }
{
    match code {
        DefCode::NotText => 1,
        DefCode::Form => 2,
        DefCode::Version => 3,
        DefCode::Repeated => 4,
        DefCode::Unknown => 5,
        DefCode::Sort => 6,
        DefCode::Count => 7,
        DefCode::Token => 8,
        DefCode::NoEntity => 9,
        DefCode::Later => 10,
        DefCode::Nested => 11,
        DefCode::NoGround => 12,
        DefCode::OneWide => 13,
    }
}

/// Returns the fault as it is printed: `line L code C`, with the numbers in decimal.
pub fn fault_text(alloc: Global, fault: &DefFault) -> Result<String, AllocError>
    ensures { IfOk result (λ text. string_bytes text ≡ fault_text fault.now) }
{
    let line = fault.line;
    let code = code_number(fault.code);
    format!(in alloc; "line {line} code {code}")
}
