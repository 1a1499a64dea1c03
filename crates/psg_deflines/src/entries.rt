//! The texts of a file as lines.
ghost use Rattle.std.specs.Prelude.{ℕ, cond, Some, MatchBool, ◌≡◌, ◌==◌, ◌||◌, ◌∷◌, ◌<◌, ◌+◌, ◌^◌, length, false, List};
ghost use Rattle.std.specs.Prelude.{IfOk, IfErr, IsTrue, ◌↔◌, MatchOption, codes, ◌&&◌};
ghost use Rattle.std.specs.List.{AllByRecursion, list_any};
ghost use Rattle.psg_deflines.specs.Parts.{texts, HasParts};
ghost use Rattle.psg_deflines.specs.Forms.{HasFixedWords, IsFixedItem, IsShallow};
ghost use Rattle.psg_deflines.specs.FormReads.{IsForm, HasNoForm, IsNoPlainWord, IsNoTermWord};
ghost use Rattle.psg_deflines.specs.Versions.{is_of};
ghost use Rattle.psg_deflines.specs.LineReads.{IsFormRead};
ghost use Rattle.psg_deflines.specs.TermWalks.{Parts};
ghost use Rattle.psg_deflines.specs.Entries.{IsSkipped, HasPlace, takes_rows, takes_cases};
ghost use Rattle.psg_deflines.specs.EntryReads.{is_operator, cases_behind, rows_after, cases_after, IsEntryRead};
ghost use Rattle.psg_deflines.specs.EntryReads.{AreEntriesRead, IsEntryFault};
ghost use Rattle.psg_deflines.specs.Only.{IsOnly};
ghost use Rattle.psg_deflines.specs.declared.lines.Line.{Line as Plain};

use crate::fault::{DefCode, DefFault, ReadFault};
use crate::forms::{line_entity, line_list, line_operator, line_phylum, line_sort, line_space};
use crate::lines::{Line, LineItem};
use crate::names::is;
use crate::parts::parts;
use crate::spaces::{is_of, space_behind};
use crate::term_forms::{
    FormRead, line_case, line_cell, line_declare, line_hole, line_nil, line_row,
};
use crate::words::is_fixed_word;
use std::alloc::{AllocError, Global};

/// What a text is as a line, or what is wrong with it.
#[derive(Drop)]
pub enum EntryRead {
    /// A line, or none for an empty text and a comment.
    Found(Option<Line>),
    /// What is wrong with the text.
    Fault(DefCode),
}

/// Returns a line without terms, if it was read.
fn without_terms(line: Option<Line>) -> FormRead
    ensures { (ps : Parts) → MatchOption line (HasNoForm ps) (IsOnly (IsForm ps))
        → ((l : Plain) → IsForm ps l → IsShallow l) → IsFormRead ps result }
{
    match line {
        Some(line) => FormRead::Read(line),
        None => FormRead::Nothing,
    }
}

/// Returns the declare row with these parts.
fn declare_form(alloc: Global, keyword: &[u8], behind: &[&[u8]]) -> Result<FormRead, AllocError>
    ensures { IfOk result (λ read. IsNoPlainWord keyword.now → IsNoTermWord keyword.now
        → IsFormRead (keyword.now ∷ texts behind.now) read) }
{
    match space_behind(alloc, keyword, "declare")? {
        Some(space) => line_declare(alloc, space, behind),
        None => Ok(FormRead::Nothing),
    }
}

/// Returns the line of terms with these parts.
fn term_form(alloc: Global, keyword: &[u8], behind: &[&[u8]]) -> Result<FormRead, AllocError>
    ensures { IfOk result (λ read. IsNoPlainWord keyword.now → IsFormRead (keyword.now ∷ texts behind.now) read) }
{
    if is(keyword, "row") {
        line_row(alloc, behind)
    } else if is(keyword, "nil") {
        line_nil(alloc, behind)
    } else if is(keyword, "cell") {
        line_cell(alloc, behind)
    } else if is(keyword, "hole") {
        line_hole(alloc, behind)
    } else if is(keyword, "case") {
        line_case(alloc, behind)
    } else {
        declare_form(alloc, keyword, behind)
    }
}

/// Returns the line with these parts.
fn form(alloc: Global, parts: &[&[u8]]) -> Result<FormRead, AllocError>
    ensures { IfOk result (IsFormRead (texts parts.now)) }
{
    let Some((keyword, behind)) = parts.split_first() else {
        return Ok(FormRead::Nothing);
    };
    if is(keyword, "sort") {
        return Ok(without_terms(line_sort(alloc, behind)?));
    }
    if is(keyword, "entity") {
        return Ok(without_terms(line_entity(alloc, behind)?));
    }
    if is(keyword, "space") {
        return Ok(without_terms(line_space(alloc, behind)?));
    }
    if is(keyword, "phylum") {
        return Ok(without_terms(line_phylum(alloc, behind)?));
    }
    if is(keyword, "list") {
        return Ok(without_terms(line_list(alloc, behind)?));
    }
    if is(keyword, "op") {
        return Ok(without_terms(line_operator(alloc, behind)?));
    }
    Ok(term_form(alloc, keyword, behind)?)
}

/// Says whether the item is no quoted word, or one that is one token.
fn is_fixed_item(alloc: Global, item: &LineItem) -> Result<bool, AllocError>
    ensures { IfOk result (λ b. IsTrue b ↔ IsFixedItem item.now) }
{
    match item {
        LineItem::Word(word) => Ok(is_fixed_word(alloc, word)?),
        _ => Ok(true),
    }
}

/// Says whether each of the items is no quoted word, or one that is one token.
fn are_fixed_items(alloc: Global, items: &[LineItem]) -> Result<bool, AllocError>
    ensures { IfOk result (λ b. IsTrue b ↔ AllByRecursion IsFixedItem items.now) }
{
    for item in items {
        if !is_fixed_item(alloc, item)? {
            return Ok(false);
        }
    }
    Ok(true)
}

/// Says whether each quoted word of the line is one token.
fn has_fixed_words(alloc: Global, line: &Line) -> Result<bool, AllocError>
    ensures { IfOk result (λ b. IsTrue b ↔ HasFixedWords line.now) }
{
    match line {
        Line::List { separator, .. } => Ok(is_fixed_word(alloc, separator)?),
        Line::Operator { items, .. } => Ok(are_fixed_items(alloc, items.as_slice())?),
        _ => Ok(true),
    }
}

/// Says whether a row may follow the line where none may follow those before.
fn is_operator(line: &Line) -> bool
    ensures { result ≡ is_operator line.now }
{
    matches!(line, Line::Operator { .. })
}

/// Says whether a case may follow the line, where it is known for the lines before.
fn cases_behind(so_far: bool, line: &Line) -> bool
    ensures { result ≡ cases_behind so_far line.now }
{
    match line {
        Line::Hole { specimen, .. } => specimen.is_none(),
        _ => so_far,
    }
}

/// Says whether the line with these parts may follow the lines before it: a row follows an operator, and a case a hole
/// row that has no specimen.
fn has_place(parts: &[&[u8]], rows: bool, cases: bool) -> bool
    ensures { (above : List Plain) → takes_rows above ≡ rows → takes_cases false above ≡ cases
        → MatchBool result ((line : Plain) → IsForm (texts parts.now) line → HasPlace above line)
        ((line : Plain) → IsForm (texts parts.now) line → HasPlace above line → ⊥) }
{
    let Some((keyword, _)) = parts.split_first() else {
        return true;
    };
    if is(keyword, "row") {
        rows
    } else if is(keyword, "case") {
        cases
    } else {
        true
    }
}

/// Returns what is wrong with a line that is not of the version, or else has a word that is no token.
fn mistake(right: bool) -> DefCode
    ensures { result ≡ cond right DefCode.Token DefCode.Form }
{
    if right { DefCode::Token } else { DefCode::Form }
}

/// Says whether both hold.
fn are_both(one: bool, other: bool) -> bool
    ensures { result ≡ (one && other) }
{
    one && other
}

/// Returns the line, if nothing is wrong with it.
fn kept(line: Line, good: bool, code: DefCode) -> EntryRead
    ensures { result ≡ cond good (EntryRead.Found (Some line)) (EntryRead.Fault code) }
{
    if good {
        EntryRead::Found(Some(line))
    } else {
        EntryRead::Fault(code)
    }
}

/// Returns the line, if it is of the version of the file and its words are tokens.
fn found(line: Line, right: bool, fixed: bool) -> EntryRead
    ensures { result ≡ cond right (cond fixed (EntryRead.Found (Some line)) (EntryRead.Fault DefCode.Token))
        (EntryRead.Fault DefCode.Form) }
{
    let code = mistake(right);
    let good = are_both(right, fixed);
    kept(line, good, code)
}

/// Says whether the word names a space.
fn is_tagged(word: &[u8]) -> bool
    ensures { result ≡ list_any (λ c. c == 64) word.now }
{
    word.iter().any(|c| *c == b'@')
}

/// Says whether a line that begins with this word and is nested too deep is of the version.
fn deep_is_of(version: u32, word: &[u8]) -> bool
    ensures { (rest : Parts) (line : Plain) → IsForm (word.now ∷ rest) line → (IsShallow line → ⊥)
        → result ≡ is_of version line }
{
    let bare = is(word, "declare");
    let tagged = is_tagged(word);
    if bare {
        version != 2
    } else if tagged {
        version == 2
    } else {
        true
    }
}

/// Returns what is wrong with a line that is nested too deep.
fn deep(version: u32, parts: &[&[u8]]) -> DefCode
    ensures { (line : Plain) → IsForm (texts parts.now) line → (IsShallow line → ⊥)
        → result ≡ cond (is_of version line) DefCode.Nested DefCode.Form }
{
    let Some((keyword, _)) = parts.split_first() else {
        return DefCode::Nested;
    };
    if deep_is_of(version, keyword) {
        DefCode::Nested
    } else {
        DefCode::Form
    }
}

/// Returns the line that is read as one from the parts, or what is wrong with it: its version, one of its words, or how
/// it is nested.
fn checked(
    alloc: Global,
    version: u32,
    parts: &[&[u8]],
    read: FormRead,
) -> Result<EntryRead, AllocError>
    ensures { IfOk result (λ entry. (above : List Plain) (text : List ℕ) → (IsSkipped text → ⊥)
        → IsOnly (HasParts text) (texts parts.now)
        → ((line : Plain) → IsForm (texts parts.now) line → HasPlace above line) → IsFormRead (texts parts.now) read
        → IsEntryRead version above text entry) }
{
    match read {
        FormRead::Nothing => Ok(EntryRead::Fault(DefCode::Form)),
        FormRead::TooDeep => Ok(EntryRead::Fault(deep(version, parts))),
        FormRead::Read(line) => {
            let right = is_of(version, &line);
            let fixed = has_fixed_words(alloc, &line)?;
            Ok(found(line, right, fixed))
        }
    }
}

/// Says whether the line is empty or a comment.
fn is_skipped(text: &str) -> bool
    ensures { IsTrue result ↔ IsSkipped text.now }
{
    match text.as_bytes().first() {
        Some(c) => *c == b'#',
        None => true,
    }
}

/// Reads a text of a file of the version, where it is known whether a row and whether a case may follow the lines
/// before.
fn entry(
    alloc: Global,
    version: u32,
    text: &str,
    rows: bool,
    cases: bool,
) -> Result<EntryRead, AllocError>
    ensures { IfOk result (λ entry. (above : List Plain) → takes_rows above ≡ rows → takes_cases false above ≡ cases
        → IsEntryRead version above text.now entry) }
{
    if is_skipped(text) {
        return Ok(EntryRead::Found(None));
    }
    let Some(parts) = parts(alloc, text.as_bytes())? else {
        return Ok(EntryRead::Fault(DefCode::Form));
    };
    let parts = parts.as_slice();
    if !has_place(parts, rows, cases) {
        return Ok(EntryRead::Fault(DefCode::Form));
    }
    let read = form(alloc, parts)?;
    Ok(checked(alloc, version, parts, read)?)
}

/// Says whether a row may follow the entry, where it is known for the entries before.
fn rows_after(rows: bool, entry: &Option<Line>) -> bool
    ensures { result ≡ rows_after rows entry.now }
{
    match entry {
        Some(line) => rows | is_operator(line),
        None => rows,
    }
}

/// Says whether a case may follow it.
fn cases_after(cases: bool, entry: &Option<Line>) -> bool
    ensures { result ≡ cases_after cases entry.now }
{
    match entry {
        Some(line) => cases_behind(cases, line),
        None => cases,
    }
}

/// Reads the texts after the first one of a file of the version, each as its line, or none where it is skipped. A fault
/// is the first one, with its line, from 2; `Memory` where memory runs out.
pub fn entries(
    alloc: Global,
    version: u32,
    written: &[&str],
) -> Result<Vec<Option<Line>>, ReadFault>
    requires { length written.now + 1 < 2 ^ 32 }
    ensures ok { IfOk result (λ v. AreEntriesRead version (texts written.now) v.items) }
    ensures err { IfErr result (IsEntryFault version (texts written.now)) }
{
    let mut entries = Vec::new(alloc);
    let mut rows = false;
    let mut cases = false;
    for text in written {
        match entry(alloc, version, text, rows, cases)? {
            EntryRead::Found(found) => {
                rows = rows_after(rows, &found);
                cases = cases_after(cases, &found);
                entries.push(found)?;
            }
            EntryRead::Fault(code) => {
                let line = entries.len() as u32 + 2;
                return Err(ReadFault::Def(DefFault { line, code }));
            }
        }
    }
    Ok(entries)
}
