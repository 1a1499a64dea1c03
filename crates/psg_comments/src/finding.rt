//! Where the comments of a text are.
ghost use Rattle.std.specs.Prelude.{ℕ, ◌≡◌, ◌≤◌, List, IfOk, chars, length};
ghost use Rattle.std.specs.Str.{IsCharBoundary};
ghost use Rattle.psg_lexis.specs.Faults.{HasFault};
ghost use Rattle.psg_lexis.specs.Tokens.{bytes_of};
ghost use Rattle.psg_lexis.specs.declared.token.LexFault.{LexFault};
ghost use Rattle.psg_comments.specs.Finding.{HasComments, line_of as line_of_text};
ghost use Rattle.psg_comments.specs.Fitting.{IsFit};
ghost use Rattle.psg_comments.specs.Steps.{IsFirstOrNone};

use crate::splits::{begins_with, is_end, split_first};
use psg_lexis::{LexFault, Lexis, lex};
use std::alloc::{AllocError, Global};

/// The bytes of a comment: from the first one of its token up to the end of its line.
#[derive(Clone, Copy, Drop)]
pub struct Comment {
    /// The byte offset of its first byte.
    pub start: usize,
    /// The byte offset after its last byte.
    pub end: usize,
}

/// Returns how many bytes there are before the end of the first line of the text.
fn line_size(text: &str) -> usize
    ensures size { result ≡ bytes_of (line_of_text (chars text.now)) }
    ensures within { result ≤ length text.now }
{
    let mut rest = text;
    while let Some((_, after)) = split_first(rest) {
        if is_end(rest) {
            break;
        }
        rest = after;
    }
    text.len() - rest.len()
}

/// Returns the comment that begins at the byte of the text, if one does.
fn comment_at(text: &str, token: &str, at: usize) -> Option<Comment>
    requires boundary { IsCharBoundary text.now at }
    ensures { (fixed : List (List ℕ)) → IsFit fixed token.now → HasFault fixed (chars text.now) 0 (LexFault.BadRun at)
        → IsFirstOrNone fixed (chars token.now) text.now result }
{
    let (_, tail) = text.split_at(at);
    if !begins_with(tail, token) {
        return None;
    }
    Some(Comment {
        start: at,
        end: at + line_size(tail),
    })
}

/// Returns the first comment of the text, if it has one.
fn first_comment(
    alloc: Global,
    lexis: &Lexis,
    token: &str,
    text: &str,
) -> Result<Option<Comment>, AllocError>
    requires fit { IsFit lexis.now token.now }
    ensures { IfOk result (IsFirstOrNone lexis.now (chars token.now) text.now) }
{
    let fault = match lex(alloc, lexis, text) {
        Ok(_) => return Ok(None),
        Err(fault) => fault,
    };
    match fault {
        LexFault::BadRun(at) => Ok(comment_at(text, token, at)),
        LexFault::Memory => Err(AllocError),
        _ => Ok(None),
    }
}

/// Returns the comments of the text in order, by the lexis of the language and the token of its comments. After the
/// first place where the text has neither a comment nor a token there are none. It fails where memory runs out, and
/// takes time linear in the text.
pub fn comments_of(
    alloc: Global,
    lexis: &Lexis,
    token: &str,
    text: &str,
) -> Result<Vec<Comment>, AllocError>
    requires fit { IsFit lexis.now token.now }
    ensures { IfOk result (λ found. HasComments lexis.now (chars token.now) (chars text.now) 0 found.items) }
{
    let mut found = Vec::new(alloc);
    let mut rest = text;
    while let Some(comment) = first_comment(alloc, lexis, token, rest)? {
        let at = text.len() - rest.len();
        found.push(Comment {
            start: at + comment.start,
            end: at + comment.end,
        })?;
        rest = rest.split_at(comment.end).1;
    }
    Ok(found)
}
