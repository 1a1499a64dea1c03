//! Why names get no new name.

use thiserror::Error;

/// Why names get no new name.
#[derive(Clone, Copy, Debug, PartialEq, Eq, Drop, Error)]
pub enum Refusal {
    /// No name covers the byte.
    #[error("there is no name here")]
    NoName,
    /// The name is linked to the outside.
    #[error("the name is declared outside of this text")]
    Outside,
    /// The new name is no word of at most 255 bytes, or it is a fixed word of the language.
    #[error("the new name is no name of the language")]
    NewName,
    /// The text with the new name is not the program with the new names.
    #[error("the text with the new name is not read as the same program")]
    Unread,
    /// A name would be linked to another declaration, or no longer to one.
    #[error("the new name would link a name to another declaration")]
    Relinked,
}
