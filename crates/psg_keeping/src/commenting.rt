//! A printed text with comments, if it keeps them.
ghost use Rattle.std.specs.Prelude.{◌≡◌, ◌↔◌, IfNone, IfOk, IfSome, IsTrue, string_bytes};
ghost use Rattle.psg_comments.specs.Fitting.{IsFit};
ghost use Rattle.psg_commented.specs.Keeping.{DoesNotKeep, IsCommented, IsLost, Keeps, KeepsBy};

use crate::same::{are_kept, are_same};
use crate::tokens::tokens_in;
use psg_commented::{Note, notes_of, with_notes};
use psg_comments::{Blanked, blank_comments};
use psg_lexis::{Lexis, Spanned};
use std::alloc::{AllocError, Global};

/// Says whether the text keeps the comments beside the tokens, where it is given without its own comments.
fn is_kept(
    alloc: Global,
    lexis: &Lexis,
    shown: &[Spanned],
    notes: &[Note],
    text: &str,
    blanked: &Blanked,
) -> Result<bool, AllocError>
    ensures { IfOk result (λ kept. IsTrue kept
        ↔ KeepsBy lexis.now shown.now notes.now text.now blanked.now.comments.items blanked.now.bytes.items) }
{
    let Ok(own_text) = str::from_utf8(blanked.bytes.as_slice()) else {
        return Ok(false);
    };
    let Some(own) = tokens_in(alloc, lexis, own_text)? else {
        return Ok(false);
    };
    if !are_same(own.as_slice(), shown) {
        return Ok(false);
    }
    let found = notes_of(
        alloc,
        text.as_bytes(),
        own.as_slice(),
        blanked.comments.as_slice(),
    )?;
    Ok(are_kept(notes, found.as_slice()))
}

/// Returns the bytes as a text, where they keep the comments beside the tokens.
fn kept_text(
    alloc: Global,
    lexis: &Lexis,
    token: &str,
    shown: &[Spanned],
    notes: &[Note],
    bytes: Vec<u8>,
) -> Result<Option<String>, AllocError>
    requires fit { IsFit lexis.now token.now }
    ensures same { IfOk result (λ found. IfSome found (λ text. string_bytes text ≡ bytes.items)) }
    ensures some { IfOk result
        (λ found. IfSome found (λ _. Keeps lexis.now token.now shown.now notes.now bytes.items)) }
    ensures none { IfOk result
        (λ found. IfNone found (DoesNotKeep lexis.now token.now shown.now notes.now bytes.items)) }
{
    let Ok(text) = String::from_utf8(bytes) else {
        return Ok(None);
    };
    let blanked = blank_comments(alloc, lexis, token, text.as_str())?;
    let kept = is_kept(alloc, lexis, shown, notes, text.as_str(), &blanked)?;
    if !kept {
        return Ok(None);
    }
    Ok(Some(text))
}

/// Returns the printed text with the comments, if that keeps them.
pub(crate) fn commented(
    alloc: Global,
    lexis: &Lexis,
    token: &str,
    printed: &str,
    notes: &[Note],
) -> Result<Option<String>, AllocError>
    requires fit { IsFit lexis.now token.now }
    ensures some { IfOk result (λ found. IfSome found (λ text.
        IsCommented lexis.now token.now printed.now notes.now (string_bytes text))) }
    ensures none { IfOk result (λ found. IfNone found (IsLost lexis.now token.now printed.now notes.now)) }
{
    let tokens = tokens_in(alloc, lexis, printed)?;
    let Some(shown) = tokens else {
        return Ok(None);
    };
    let new = with_notes(alloc, printed.as_bytes(), shown.as_slice(), notes)?;
    let found = kept_text(alloc, lexis, token, shown.as_slice(), notes, new)?;
    Ok(found)
}
