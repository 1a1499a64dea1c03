//! A text with comments, printed again.
ghost use Rattle.std.specs.Prelude.{◌≡◌, ◌↔◌, List, IfNone, IfOk, IfSome, IsTrue, IsUtf8, chars, string_bytes};
ghost use Rattle.psg_comments.specs.Blanking.{IsBlanked};
ghost use Rattle.psg_comments.specs.Fitting.{IsFit};
ghost use Rattle.psg_commented.specs.Keeping.{DoesNotKeep, IsCommented, IsLost, IsWithComments, Keeps, KeepsBy};
ghost use Rattle.psg_lexis.specs.Tokens.{HasTokens};
ghost use Rattle.psg_lexis.specs.declared.token.Spanned.{Spanned as Place};

use crate::noting::{Note, notes_of};
use crate::printing::with_notes;
use crate::same::{are_kept, are_same};
use psg_comments::{Blanked, Comment, blank_comments};
use psg_lexis::{LexFault, Lexis, Spanned, lex};
use std::alloc::{AllocError, Global};

/// Returns the tokens of the text, or none where it has a fault.
fn tokens_in(alloc: Global, lexis: &Lexis, text: &str) -> Result<Option<Vec<Spanned>>, AllocError>
    ensures some { IfOk result (λ found. IfSome found (λ ts. HasTokens lexis.now (chars text.now) 0 ts.items)) }
    ensures only { IfOk result (λ found. IfSome found (λ ts. (other : List Place)
        → HasTokens lexis.now (chars text.now) 0 other → ts.items ≡ other)) }
    ensures none { IfOk result (λ found. IfNone found ((other : List Place)
        → HasTokens lexis.now (chars text.now) 0 other → ⊥)) }
{
    match lex(alloc, lexis, text) {
        Ok(tokens) => Ok(Some(tokens)),
        Err(LexFault::Memory) => Err(AllocError),
        Err(_) => Ok(None),
    }
}

/// Says whether the text keeps the comments beside the tokens, where it is given without its own comments.
fn is_kept(
    alloc: Global,
    lexis: &Lexis,
    shown: &[Spanned],
    notes: &[Note],
    text: &str,
    blanked: &Blanked,
) -> Result<bool, AllocError>
    ensures { IfOk result (λ kept. IsTrue kept
        ↔ KeepsBy lexis.now shown.now notes.now text.now blanked.now.comments.items blanked.now.bytes.items) }
{
    let Ok(own_text) = str::from_utf8(blanked.bytes.as_slice()) else {
        return Ok(false);
    };
    let Some(own) = tokens_in(alloc, lexis, own_text)? else {
        return Ok(false);
    };
    if !are_same(own.as_slice(), shown) {
        return Ok(false);
    }
    let found = notes_of(
        alloc,
        text.as_bytes(),
        own.as_slice(),
        blanked.comments.as_slice(),
    )?;
    Ok(are_kept(notes, found.as_slice()))
}

/// Returns the bytes as a text, where they keep the comments beside the tokens.
fn kept_text(
    alloc: Global,
    lexis: &Lexis,
    token: &str,
    shown: &[Spanned],
    notes: &[Note],
    bytes: Vec<u8>,
) -> Result<Option<String>, AllocError>
    requires fit { IsFit lexis.now token.now }
    ensures same { IfOk result (λ found. IfSome found (λ text. string_bytes text ≡ bytes.items)) }
    ensures some { IfOk result
        (λ found. IfSome found (λ _. Keeps lexis.now token.now shown.now notes.now bytes.items)) }
    ensures none { IfOk result
        (λ found. IfNone found (DoesNotKeep lexis.now token.now shown.now notes.now bytes.items)) }
{
    let Ok(text) = String::from_utf8(bytes) else {
        return Ok(None);
    };
    let blanked = blank_comments(alloc, lexis, token, text.as_str())?;
    let kept = is_kept(alloc, lexis, shown, notes, text.as_str(), &blanked)?;
    if !kept {
        return Ok(None);
    }
    Ok(Some(text))
}

/// Returns the printed text with the comments, if that keeps them.
fn commented(
    alloc: Global,
    lexis: &Lexis,
    token: &str,
    printed: &str,
    notes: &[Note],
) -> Result<Option<String>, AllocError>
    requires fit { IsFit lexis.now token.now }
    ensures some { IfOk result (λ found. IfSome found (λ text.
        IsCommented lexis.now token.now printed.now notes.now (string_bytes text))) }
    ensures none { IfOk result (λ found. IfNone found (IsLost lexis.now token.now printed.now notes.now)) }
{
    let tokens = tokens_in(alloc, lexis, printed)?;
    let Some(shown) = tokens else {
        return Ok(None);
    };
    let new = with_notes(alloc, printed.as_bytes(), shown.as_slice(), notes)?;
    let found = kept_text(alloc, lexis, token, shown.as_slice(), notes, new)?;
    Ok(found)
}

/// Returns the text that is to be written for the text, whose tokens and comments are given, by the printed text of its
/// tokens: the printed text with the comments and a line feed. Each comment is there, in order, after as many tokens as
/// before. Where the new text did not have the same tokens and comments, the text is returned as it is. It fails where
/// memory runs out, and takes time linear in both texts.
pub fn with_comments(
    alloc: Global,
    lexis: &Lexis,
    token: &str,
    text: &str,
    tokens: &[Spanned],
    comments: &[Comment],
    printed: &str,
) -> Result<String, AllocError>
    requires fit { IsFit lexis.now token.now }
    ensures { IfOk result (λ new. IsWithComments lexis.now token.now text.now tokens.now comments.now printed.now
        (string_bytes new)) }
{
    if comments.is_empty() {
        let new = format!(in alloc; "{printed}\n")?;
        return Ok(new);
    }
    let notes = notes_of(alloc, text.as_bytes(), tokens, comments)?;
    let found = commented(alloc, lexis, token, printed, notes.as_slice())?;
    match found {
        Some(new) => Ok(new),
        None => Ok(String::from_str(alloc, text)?),
    }
}
