//! The comments of a program file, and its bytes without them.
ghost use Rattle.std.specs.Prelude.{◌≡◌, ◌≤◌, [], IfOk, length};
ghost use Rattle.psg_comments.specs.Fitting.{IsFit};
ghost use Rattle.psg_defcomment.specs.Reading.{IsCommentOf};
ghost use Rattle.psg_grammar.specs.WellFormed.{fixed_words};
ghost use Rattle.psg_run.specs.Without.{IsBlankedFile, IsWithout};

use crate::source::Defined;
use psg_comments::{Blanked, Comment, blank_comments};
use psg_lexis::Lexis;
use psg_program::unmarked;
use std::alloc::{AllocError, Global};

/// A program file without its comments.
#[derive(Drop)]
pub(crate) struct Own {
    /// Its bytes, with a space for each byte of a comment.
    pub(crate) bytes: Vec<u8>,
    /// Its comments, in order.
    pub(crate) comments: Vec<Comment>,
}

/// Returns the bytes as they are.
fn as_they_are(alloc: Global, bytes: &[u8]) -> Result<Own, AllocError>
    ensures bytes { IfOk result (λ own. own.bytes.items ≡ bytes.now) }
    ensures comments { IfOk result (λ own. own.comments.items ≡ []) }
{
    Ok(Own {
        bytes: Vec::from_slice(alloc, bytes)?,
        comments: Vec::new(alloc),
    })
}

/// Returns the comments and the bytes of the file, with a space for each byte of a comment.
fn blank_file(alloc: Global, lexis: &Lexis, token: &str, bytes: &[u8]) -> Result<Own, AllocError>
    requires fit { IsFit lexis.now token.now }
    ensures { IfOk result (λ own. IsBlankedFile lexis.now token.now bytes.now own.comments.items own.bytes.items) }
{
    let rest = unmarked(bytes);
    let Ok(text) = str::from_utf8(rest) else {
        return as_they_are(alloc, bytes);
    };
    let Blanked {
        bytes: blanked,
        comments,
    } = blank_comments(alloc, lexis, token, text)?;
    let (mark, _) = bytes.split_at(bytes.len() - rest.len());
    let mut own = Vec::from_slice(alloc, mark)?;
    own.extend_from_slice(blanked.as_slice())?;
    Ok(Own {
        bytes: own,
        comments,
    })
}

/// Returns the comments of the file and its bytes without them, of which a space is left for each byte. It fails where
/// memory runs out, and takes time linear in the bytes.
pub(crate) fn without_comments(
    alloc: Global,
    defined: &Defined,
    bytes: &[u8],
) -> Result<Own, AllocError>
    requires fit { IsCommentOf (fixed_words defined.now.language) defined.now.comment }
    ensures { IfOk result (λ own. IsWithout (fixed_words defined.now.language) defined.now.comment bytes.now
        own.comments.items own.bytes.items) }
{
    match &defined.comment {
        None => as_they_are(alloc, bytes),
        Some(token) => blank_file(alloc, defined.language.lexis(), token.as_str(), bytes),
    }
}
