//! Texts in which comments are spaces.
ghost use Rattle.std.specs.Prelude.{◌≡◌, IfOk};
ghost use Rattle.psg_comments.specs.Blanking.{AreSpaces, IsBlanked};
ghost use Rattle.psg_comments.specs.Fitting.{IsFit};
ghost use Rattle.psg_comments.specs.Steps.{IsFilled};

use crate::finding::{Comment, comments_of};
use psg_lexis::Lexis;
use std::alloc::{AllocError, Global};

/// A text without its comments.
#[derive(Drop)]
pub struct Blanked {
    /// The bytes of the text, with a space for each byte of a comment.
    pub bytes: Vec<u8>,
    /// The comments, in order.
    pub comments: Vec<Comment>,
}

/// Makes the bytes of the comment spaces.
fn fill(bytes: &mut [u8], comment: Comment)
    ensures { IsFilled comment bytes.old bytes.new }
{
    let mut at = comment.start;
    while at < comment.end && at < bytes.len() {
        bytes[at] = b' ';
        at += 1;
    }
}

/// Returns the bytes of the text, with a space for each byte of a comment. It fails where memory runs out, and takes
/// time linear in the text.
pub fn spaced(alloc: Global, text: &str, comments: &[Comment]) -> Result<Vec<u8>, AllocError>
    ensures { IfOk result (λ bytes. AreSpaces text.now comments.now bytes.items) }
{
    let mut bytes = Vec::from_slice(alloc, text.as_bytes())?;
    for comment in comments {
        fill(bytes.as_mut_slice(), *comment);
    }
    Ok(bytes)
}

/// Returns the text without its comments, by the lexis of the language and the token of its comments: a space is for
/// each byte of a comment, so each other byte is where it was, and lines stay lines. It fails where memory runs out,
/// and takes time linear in the text.
pub fn blank_comments(
    alloc: Global,
    lexis: &Lexis,
    token: &str,
    text: &str,
) -> Result<Blanked, AllocError>
    requires fit { IsFit lexis.now token.now }
    ensures { IfOk result (λ b. IsBlanked lexis.now token.now text.now b.comments.items b.bytes.items) }
{
    let comments = comments_of(alloc, lexis, token, text)?;
    let bytes = spaced(alloc, text, comments.as_slice())?;
    Ok(Blanked { bytes, comments })
}
