//! Texts in which bytes are replaced.
ghost use Rattle.std.specs.Prelude.{◌≡◌, ◌++◌, false, IfOk, IsTrue, IsUtf8, string_bytes};
ghost use Rattle.std.specs.Str.{IsCharBoundary};
ghost use Rattle.psg_unparse.specs.Splicing.{IsOneLine};
ghost use Rattle.psg_textedit.specs.Regions.{edited as edited_text, region as region_text};
ghost use Rattle.psg_textedit.specs.Regions.{Encloses, IsInside, IsOutside};
ghost use Rattle.psg_textedit.specs.Lines.{lines_with, AreLines, BeginsLine, IsLastLine};
ghost use Rattle.psg_textedit.specs.Typing.{typing_of};

use crate::change::Typed;
use psg_unparse::Span;
use std::alloc::{AllocError, Global};

/// The other bytes of the lines on which bytes are replaced: those before the replaced ones, from the line feed before
/// the first line on, and those after them, up to the line feed that ends the last line.
#[derive(Clone, Copy)]
pub(crate) struct Lines<'a> {
    pub(crate) before: &'a str,
    pub(crate) behind: &'a str,
}

/// Says whether the bytes are in the text, in order, and cut no character.
pub(crate) fn is_inside(text: &str, typed: &Typed<'_>) -> bool
    ensures inside { IsTrue result → IsInside (typing_of typed.now) text.now }
    ensures outside { result ≡ false → IsOutside (typing_of typed.now) text.now }
{
    if typed.end < typed.start {
        return false;
    }
    if text.len() < typed.end {
        return false;
    }
    if !text.is_char_boundary(typed.start) {
        return false;
    }
    text.is_char_boundary(typed.end)
}

/// Puts three texts together.
fn joined(alloc: Global, before: &str, new: &str, behind: &str) -> Result<String, AllocError>
    ensures { IfOk result (λ text. string_bytes text ≡ before.now ++ (new.now ++ behind.now)) }
{
    let mut text = String::from_str(alloc, before)?;
    text.push_str(new)?;
    text.push_str(behind)?;
    Ok(text)
}

/// Cuts the text in front of its last line feed; where it has none, the first part is empty.
fn cut_at_last(text: &str) -> (&str, &str)
    ensures whole { text.now ≡ result.0.now ++ result.1.now }
    ensures line { IsLastLine result.0.now result.1.now }
    ensures front { IsUtf8 result.0.now }
    ensures back { IsUtf8 result.1.now }
{
    match text.rfind('\n') {
        Some(last) => text.split_at(last),
        None => ("", text),
    }
}

/// Cuts the text in front of its first line feed; where it has none, the second part is empty.
fn cut_at_first(text: &str) -> (&str, &str)
    ensures whole { text.now ≡ result.0.now ++ result.1.now }
    ensures line { BeginsLine result.1.now }
    ensures one { IsOneLine result.0.now }
    ensures front { IsUtf8 result.0.now }
{
    match text.find('\n') {
        Some(first) => text.split_at(first),
        None => (text, ""),
    }
}

/// Finds the other bytes of the lines on which bytes are replaced. It looks at these lines alone.
pub(crate) fn lines_of<'a>(text: &'a str, typed: &Typed<'_>) -> Lines<'a>
    requires inside { IsInside (typing_of typed.now) text.now }
    ensures { AreLines (typing_of typed.now) text.now result.before.now result.behind.now }
{
    let (front, _) = text.split_at(typed.start);
    let (_, back) = text.split_at(typed.end);
    let (_, before) = cut_at_last(front);
    let (behind, _) = cut_at_first(back);
    Lines { before, behind }
}

/// Makes the text of the lines with the new bytes.
pub(crate) fn new_lines(
    alloc: Global,
    lines: Lines<'_>,
    typed: &Typed<'_>,
) -> Result<String, AllocError>
    ensures { IfOk result
        (λ new. string_bytes new ≡ lines_with (typing_of typed.now) lines.entry.before.now lines.entry.behind.now) }
{
    let new = joined(alloc, lines.before, typed.new, lines.behind)?;
    Ok(new)
}

/// Makes the text with the bytes replaced.
pub(crate) fn edited(alloc: Global, text: &str, typed: &Typed<'_>) -> Result<String, AllocError>
    requires inside { IsInside (typing_of typed.now) text.now }
    ensures { IfOk result (λ new. string_bytes new ≡ edited_text (typing_of typed.now) text.now) }
{
    let (before, _) = text.split_at(typed.start);
    let (_, behind) = text.split_at(typed.end);
    let new = joined(alloc, before, typed.new, behind)?;
    Ok(new)
}

/// Makes the text of a span with the bytes replaced, which are in the span.
pub(crate) fn region(
    alloc: Global,
    text: &str,
    span: &Span,
    typed: &Typed<'_>,
) -> Result<String, AllocError>
    requires inside { IsInside (typing_of typed.now) text.now }
    requires encloses { Encloses (typing_of typed.now) span.now }
    requires start { IsCharBoundary text.now span.now.start }
    requires end { IsCharBoundary text.now span.now.end }
    ensures { IfOk result (λ new. string_bytes new ≡ region_text (typing_of typed.now) span.now text.now) }
{
    let before = &text[span.start..typed.start];
    let behind = &text[typed.end..span.end];
    let new = joined(alloc, before, typed.new, behind)?;
    Ok(new)
}
