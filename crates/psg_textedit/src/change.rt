//! What is typed, what it changes, and why it changes nothing.
ghost use Rattle.std.specs.Prelude.{◌≡◌};
ghost use Rattle.psg_textedit.specs.declared.change.TextFault.TheVariants.{Memory};

use psg_grammar::Definition;
use psg_lexis::Lexis;
use psg_parse::ParseTable;
use psg_tree::{Path, Tree};
use std::alloc::{AllocError, AllocFailed};
use thiserror::Error;

/// What texts of a language are read by. All three are of one definition.
#[derive(Clone, Copy)]
pub struct Reader<'a> {
    /// The definition of the language.
    pub definition: &'a Definition,
    /// Its fixed words, by which a text is cut into tokens.
    pub lexis: &'a Lexis,
    /// What the parser looks up of it.
    pub table: &'a ParseTable,
}

/// A change of a text: the bytes from `start` on and before `end` are replaced by new ones.
#[derive(Clone, Copy)]
pub struct Typed<'a> {
    /// The number of the first byte that is replaced, from 0 on.
    pub start: usize,
    /// The number of the byte after the last one that is replaced.
    pub end: usize,
    /// The new bytes.
    pub new: &'a str,
}

/// A tree for the node at a path.
#[derive(Drop)]
pub struct Change {
    /// The way from the top of the old tree to the node.
    pub path: Path,
    /// The tree that replaces the node.
    pub tree: Tree,
}

/// Why typed text makes no tree.
#[derive(Clone, Copy, Debug, PartialEq, Eq, Drop, Error)]
pub enum TextFault {
    /// The bytes are not in order, not all in the text, or cut a character.
    #[error("the text has no such bytes")]
    NoPlace,
    /// The whole new text has no tokens.
    #[error("the new text has no tokens")]
    NoTokens,
    /// No tree of the kind has the tokens of the whole new text.
    #[error("the new text is no tree of the kind")]
    NoTree,
    /// One has them, and it is deeper than 200, or its brackets nest above 400.
    #[error("the tree of the new text is too deep")]
    Deep,
    /// There was no memory for the new text or its tree.
    #[error("out of memory")]
    Memory,
}

impl From<AllocError> for TextFault {
    ghost from_gives = { λ _ fault. fault ≡ Memory };

    fn from(_error: AllocError) -> TextFault {
        TextFault::Memory
    }
}

impl<T: Drop> From<AllocFailed<T>> for TextFault {
    ghost from_gives = { λ _ fault. fault ≡ Memory };

    fn from(_error: AllocFailed<T>) -> TextFault {
        TextFault::Memory
    }
}
