//! What is kept, and why bytes keep nothing.
ghost use Rattle.std.specs.Prelude.{◌≡◌, IfOk};
ghost use Rattle.psg_library.specs.declared.fragment.KeptFault.TheVariants.{Memory};
ghost use Rattle.psg_library.specs.Faults.{of_tokens, of_tree};

use psg_grammar::Kind;
use psg_lexis::LexFault;
use psg_parse::ParseFault;
use psg_terms::Txt;
use psg_tree::Tree;
use std::alloc::AllocError;
use thiserror::Error;

/// A tree of a kind, under a name.
#[derive(Drop)]
pub struct SavedFragment {
    /// The name under which the tree is kept.
    pub name: Txt,
    /// The phylum or list of the tree.
    pub kind: Kind,
    /// The tree, which may have placeholders.
    pub tree: Tree,
}

impl SavedFragment {
    /// Returns one more owner of the same fragment. It fails where memory runs out.
    pub fn share(&self) -> Result<SavedFragment, AllocError>
        ensures { IfOk result (λ copy. copy ≡ self.now) }
    {
        let name = self.name.share()?;
        let tree = self.tree.share()?;
        let kind = self.kind;
        Ok(SavedFragment { name, kind, tree })
    }
}

/// Why bytes keep no fragment of a language.
#[derive(Clone, Copy, Debug, PartialEq, Eq, Drop, Error)]
pub enum KeptFault {
    /// The bytes are not UTF-8, or their first line has not the form of a head.
    #[error("the first line is not that of a kept fragment")]
    Head,
    /// The language has no phylum and no list of the name in the head.
    #[error("the language has no such phylum or list")]
    Phylum,
    /// The text after the head has no tokens.
    #[error("the text has no tokens")]
    NoTokens,
    /// No tree of the kind has the tokens of the text.
    #[error("the text is no tree of the kind")]
    NoTree,
    /// One has them, and it is deeper than 200, or its brackets nest above 400.
    #[error("the tree of the text is too deep")]
    Deep,
    /// There was no memory to read them.
    #[error("out of memory")]
    Memory,
}

impl From<AllocError> for KeptFault {
    ghost from_gives = { λ _ fault. fault ≡ Memory };

    fn from(_error: AllocError) -> KeptFault {
        KeptFault::Memory
    }
}

impl From<LexFault> for KeptFault {
    ghost from_gives = { λ lexical fault. fault ≡ of_tokens lexical };

    fn from(fault: LexFault) -> KeptFault {
        match fault {
            LexFault::BadChar(_)
            | LexFault::BadRun(_)
            | LexFault::Unended(_)
            | LexFault::TooLarge(_) => KeptFault::NoTokens,
            LexFault::Memory => KeptFault::Memory,
        }
    }
}

impl From<ParseFault> for KeptFault {
    ghost from_gives = { λ parsing fault. fault ≡ of_tree parsing };

    fn from(fault: ParseFault) -> KeptFault {
        match fault {
            ParseFault::NoTree => KeptFault::NoTree,
            ParseFault::Deep => KeptFault::Deep,
            ParseFault::Memory => KeptFault::Memory,
        }
    }
}
