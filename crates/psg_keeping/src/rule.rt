//! How the comments of a language are found.
ghost use Rattle.std.specs.Prelude.{◌≡◌, IfOk};
ghost use Rattle.psg_comments.specs.Blanking.{IsBlanked};
ghost use Rattle.psg_comments.specs.Fitting.{IsFit};
ghost use Rattle.psg_keeping.specs.Writing.{IsKept};

use crate::writing::kept_in;
use psg_comments::{Blanked, blank_comments};
use psg_lexis::Lexis;
use psg_terms::Txt;
use std::alloc::{AllocError, Global};
use std::marker::Model;

/// The fixed words of a language, and the token that begins its comments.
#[derive(Drop)]
pub struct Rule {
    lexis: Lexis,
    token: Txt,
}

impl Model for Rule {
    ghost use Rattle.psg_comments.specs.Fitting.{IsFit};
    ghost use Rattle.psg_keeping.specs.Rules.{CommentRule};

    ghost Value = { CommentRule };

    ghost view = { λ rule. record { fixed = rule.lexis; token = rule.token } };

    ghost invariant = { λ rule. IsFit rule.lexis rule.token };
}

impl Rule {
    /// Makes the rule of these words and this token.
    pub fn new(lexis: Lexis, token: Txt) -> Rule
        requires fit { IsFit lexis token }
        ensures fixed { result.fixed ≡ lexis }
        ensures token { result.token ≡ token }
    {
        Rule { lexis, token }
    }

    /// Returns the text without its comments.
    pub(crate) fn blank(&self, alloc: Global, text: &str) -> Result<Blanked, AllocError>
        ensures { IfOk result (λ b. IsBlanked self.now.fixed self.now.token text.now b.comments.items b.bytes.items) }
    {
        blank_comments(alloc, &self.lexis, self.token.as_str(), text)
    }

    /// Returns the new text with the comments of the old one.
    pub(crate) fn keep(&self, alloc: Global, old: &str, new: &str) -> Result<Vec<u8>, AllocError>
        ensures { IfOk result (λ bytes. IsKept self.now.fixed self.now.token old.now new.now bytes.items) }
    {
        kept_in(alloc, &self.lexis, self.token.as_str(), old, new)
    }
}
