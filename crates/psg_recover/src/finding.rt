//! What is reported about a byte of a text.
ghost use Rattle.std.specs.Prelude.{◌≡◌, IfOk, string_bytes};
ghost use Rattle.psg_recover.specs.Findings.{error_at, note_at, warning_at};

use psg_terms::Txt;
use std::alloc::{AllocError, Global};

/// How much it matters.
#[derive(Clone, Copy, Debug, PartialEq, Eq)]
pub enum Grade {
    /// The text is no program, or a value of it can't be.
    Error,
    /// A name is declared nowhere.
    Warning,
    /// It is still open, or it explains an error.
    Note,
}

/// What is reported about a byte of a text.
#[derive(Debug, Drop)]
pub struct Finding {
    /// The byte, from 0.
    pub byte: usize,
    /// How much it matters.
    pub grade: Grade,
    /// What is reported, on one line.
    pub message: Txt,
}

/// Returns an error of the byte.
pub fn error(alloc: Global, byte: usize, message: String) -> Result<Finding, AllocError>
    ensures { IfOk result (λ f. f ≡ error_at byte (string_bytes message)) }
{
    let message = Txt::of(alloc, message)?;
    Ok(Finding {
        byte,
        grade: Grade::Error,
        message,
    })
}

/// Returns an error of the byte with a message that is given.
pub fn plain_error(alloc: Global, byte: usize, message: &str) -> Result<Finding, AllocError>
    ensures { IfOk result (λ f. f ≡ error_at byte message.now) }
{
    let message = Txt::copy_of(alloc, message)?;
    Ok(Finding {
        byte,
        grade: Grade::Error,
        message,
    })
}

/// Returns a warning of the byte.
pub fn warning(alloc: Global, byte: usize, message: String) -> Result<Finding, AllocError>
    ensures { IfOk result (λ f. f ≡ warning_at byte (string_bytes message)) }
{
    let message = Txt::of(alloc, message)?;
    Ok(Finding {
        byte,
        grade: Grade::Warning,
        message,
    })
}

/// Returns a note of the byte.
pub fn note(alloc: Global, byte: usize, message: String) -> Result<Finding, AllocError>
    ensures { IfOk result (λ f. f ≡ note_at byte (string_bytes message)) }
{
    let message = Txt::of(alloc, message)?;
    Ok(Finding {
        byte,
        grade: Grade::Note,
        message,
    })
}
