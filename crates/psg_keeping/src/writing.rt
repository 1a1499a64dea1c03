//! The text that is written for a new text of a program, with the comments of the old one.
ghost use Rattle.std.specs.Prelude.{◌≡◌, ◌++◌, IfOk, List, ℕ};
ghost use Rattle.psg_commented.specs.Printing.{heads};
ghost use Rattle.psg_comments.specs.Blanking.{IsBlanked};
ghost use Rattle.psg_comments.specs.Fitting.{IsFit};
ghost use Rattle.psg_keeping.specs.Writing.{AreMoved, IsKept};

use crate::commenting::commented;
use crate::lines::lines_of;
use crate::moving::moved;
use crate::pairing::alignment;
use crate::tokens::{counted_in, tokens_or_none};
use psg_commented::{Note, notes_of, with_notes};
use psg_comments::{Blanked, blank_comments};
use psg_lexis::Lexis;
use std::alloc::{AllocError, Global};

/// Returns the comments of the old text beside the tokens of the new one.
fn notes_moved(
    alloc: Global,
    lexis: &Lexis,
    old: &str,
    blanked: &Blanked,
    new: &str,
) -> Result<Vec<Note>, AllocError>
    ensures { IfOk result (λ notes. (token : List ℕ)
        → IsBlanked lexis.now token old.now blanked.now.comments.items blanked.now.bytes.items
        → AreMoved lexis.now token old.now new.now notes.items) }
{
    let own = tokens_or_none(alloc, lexis, blanked.bytes.as_slice())?;
    let shown = tokens_or_none(alloc, lexis, new.as_bytes())?;
    let notes = notes_of(
        alloc,
        old.as_bytes(),
        own.as_slice(),
        blanked.comments.as_slice(),
    )?;
    let before = counted_in(alloc, own.as_slice())?;
    let after = counted_in(alloc, shown.as_slice())?;
    let steps = alignment(alloc, before.as_slice(), after.as_slice())?;
    let lines = lines_of(alloc, new.as_bytes(), shown.as_slice())?;
    let found = moved(alloc, steps.as_slice(), lines.as_slice(), notes.as_slice())?;
    Ok(found)
}

/// Returns the text with the comments in front of it, each on a line of its own.
fn on_top(alloc: Global, notes: &[Note], text: &str) -> Result<Vec<u8>, AllocError>
    ensures { IfOk result (λ bytes. bytes.items ≡ heads notes.now ++ text.now) }
{
    let mut bytes = with_notes(alloc, text.as_bytes(), &[], notes)?;
    bytes.extend_from_slice(text.as_bytes())?;
    Ok(bytes)
}

/// Returns the new text of a program with the comments of the old one. Where the new text with the comments at their
/// places would have other tokens or other comments, they are on lines of their own in front of it. It fails where
/// memory runs out, and takes time linear in both texts and in the number of pairs of tokens that are looked at.
pub(crate) fn kept_in(
    alloc: Global,
    lexis: &Lexis,
    token: &str,
    old: &str,
    new: &str,
) -> Result<Vec<u8>, AllocError>
    requires fit { IsFit lexis.now token.now }
    ensures { IfOk result (λ bytes. IsKept lexis.now token.now old.now new.now bytes.items) }
{
    let blanked = blank_comments(alloc, lexis, token, old)?;
    let comments = blanked.comments.as_slice();
    if comments.is_empty() {
        let bytes = Vec::from_slice(alloc, new.as_bytes())?;
        return Ok(bytes);
    }
    let notes = notes_moved(alloc, lexis, old, &blanked, new)?;
    let found = commented(alloc, lexis, token, new, notes.as_slice())?;
    match found {
        Some(text) => Ok(text.into_bytes()),
        None => {
            let top = on_top(alloc, notes.as_slice(), new)?;
            Ok(top)
        }
    }
}
