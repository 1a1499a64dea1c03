//! The forms of lines.
ghost use Rattle.std.specs.Prelude.{◌≡◌, ◌∷◌, IfOk, IsTrue, ◌↔◌, MatchOption, codes, cond, Bool};
ghost use Rattle.psg_deflines.specs.Forms.{word_if};
ghost use Rattle.psg_deflines.specs.Parts.{texts};
ghost use Rattle.psg_deflines.specs.FormReads.{IsForm, HasNoForm, IsNeither};
ghost use Rattle.psg_deflines.specs.Only.{IsOnly};

use crate::constructors::constructors;
use crate::items::{header, line_items};
use crate::lines::Line;
use crate::names::{is, kind_name, own_name};
use crate::quotes::quoted_text;
use psg_terms::{Seq, SortDecl, Txt};
use std::alloc::{AllocError, Global};

/// Reads `sort S = con con(S,S) ..` from the parts after the first one; `None` where they have another form.
pub fn line_sort(alloc: Global, parts: &[&[u8]]) -> Result<Option<Line>, AllocError>
    ensures { IfOk result (λ o. MatchOption o (HasNoForm (codes "sort" ∷ texts parts.now))
        (IsOnly (IsForm (codes "sort" ∷ texts parts.now)))) }
{
    let [name, equals, behind @ ..] = parts else {
        return Ok(None);
    };
    if !is(equals, "=") || behind.is_empty() {
        return Ok(None);
    }
    let Some(name) = kind_name(alloc, name)? else {
        return Ok(None);
    };
    let Some(constructors) = constructors(alloc, behind)? else {
        return Ok(None);
    };
    let constructors = Seq::of(constructors);
    Ok(Some(Line::Sort(SortDecl { name, constructors })))
}

/// Reads `entity S` from the parts after the first one; `None` where they have another form.
pub fn line_entity(alloc: Global, parts: &[&[u8]]) -> Result<Option<Line>, AllocError>
    ensures { IfOk result (λ o. MatchOption o (HasNoForm (codes "entity" ∷ texts parts.now))
        (IsOnly (IsForm (codes "entity" ∷ texts parts.now)))) }
{
    if parts.len() != 1 {
        return Ok(None);
    }
    let Some(sort) = kind_name(alloc, parts[0])? else {
        return Ok(None);
    };
    let name = Txt::copy_of(alloc, "")?;
    Ok(Some(Line::Space { name, sort }))
}

/// Reads `space s : S` from the parts after the first one; `None` where they have another form.
pub fn line_space(alloc: Global, parts: &[&[u8]]) -> Result<Option<Line>, AllocError>
    ensures { IfOk result (λ o. MatchOption o (HasNoForm (codes "space" ∷ texts parts.now))
        (IsOnly (IsForm (codes "space" ∷ texts parts.now)))) }
{
    if parts.len() != 3 {
        return Ok(None);
    }
    let [name, colon, sort] = parts else {
        unreachable!()
    };
    if !is(colon, ":") {
        return Ok(None);
    }
    let Some(name) = own_name(alloc, name)? else {
        return Ok(None);
    };
    let Some(sort) = kind_name(alloc, sort)? else {
        return Ok(None);
    };
    Ok(Some(Line::Space { name, sort }))
}

/// Says whether the word alone is left, or nothing. There is no answer if something else is left.
fn is_marked(parts: &[&[u8]], word: &str) -> Option<bool>
    ensures { MatchOption result (IsNeither (texts parts.now) word.now) (λ b. texts parts.now ≡ word_if b word.now) }
{
    match parts {
        [] => Some(false),
        [part] if is(part, word) => Some(true),
        _ => None,
    }
}

/// Reads `phylum P : S` and perhaps `bracketed` from the parts after the first one; `None` where they have another
/// form.
pub fn line_phylum(alloc: Global, parts: &[&[u8]]) -> Result<Option<Line>, AllocError>
    ensures { IfOk result (λ o. MatchOption o (HasNoForm (codes "phylum" ∷ texts parts.now))
        (IsOnly (IsForm (codes "phylum" ∷ texts parts.now)))) }
{
    let [name, colon, sort, behind @ ..] = parts else {
        return Ok(None);
    };
    if !is(colon, ":") {
        return Ok(None);
    }
    let Some(bracketed) = is_marked(behind, "bracketed") else {
        return Ok(None);
    };
    let Some(name) = kind_name(alloc, name)? else {
        return Ok(None);
    };
    let Some(sort) = kind_name(alloc, sort)? else {
        return Ok(None);
    };
    Ok(Some(Line::Phylum {
        name,
        sort,
        bracketed,
    }))
}

/// Says which of two words the part is.
fn which(part: &[u8], yes: &str, no: &str) -> Option<bool>
    ensures { MatchOption result ((b : Bool) → part.now ≡ cond b yes.now no.now → ⊥)
        (λ b. part.now ≡ cond b yes.now no.now) }
{
    if is(part, yes) {
        Some(true)
    } else if is(part, no) {
        Some(false)
    } else {
        None
    }
}

/// Reads `list L : S of P "sep"`, then `lines` or `inline`, then `unfinished` or `fixed`, from the parts after the
/// first one; `None` where they have another form.
pub fn line_list(alloc: Global, parts: &[&[u8]]) -> Result<Option<Line>, AllocError>
    ensures { IfOk result (λ o. MatchOption o (HasNoForm (codes "list" ∷ texts parts.now))
        (IsOnly (IsForm (codes "list" ∷ texts parts.now)))) }
{
    if parts.len() != 8 {
        return Ok(None);
    }
    let [name, colon, sort, of, element, separator, layout, ending] = parts else {
        unreachable!()
    };
    if !is(colon, ":") || !is(of, "of") {
        return Ok(None);
    }
    let Some(lines) = which(layout, "lines", "inline") else {
        return Ok(None);
    };
    let Some(unfinished) = which(ending, "unfinished", "fixed") else {
        return Ok(None);
    };
    let Some(name) = kind_name(alloc, name)? else {
        return Ok(None);
    };
    let Some(sort) = kind_name(alloc, sort)? else {
        return Ok(None);
    };
    let Some(element) = kind_name(alloc, element)? else {
        return Ok(None);
    };
    let Some(separator) = quoted_text(alloc, separator)? else {
        return Ok(None);
    };
    Ok(Some(Line::List {
        name,
        sort,
        element,
        separator,
        lines,
        unfinished,
    }))
}

/// Reads `op o : P`, then what is before the items, and the items, from the parts after the first one; `None` where
/// they have another form.
pub fn line_operator(alloc: Global, parts: &[&[u8]]) -> Result<Option<Line>, AllocError>
    ensures { IfOk result (λ o. MatchOption o (HasNoForm (codes "op" ∷ texts parts.now))
        (IsOnly (IsForm (codes "op" ∷ texts parts.now)))) }
{
    let [name, colon, phylum, behind @ ..] = parts else {
        return Ok(None);
    };
    if !is(colon, ":") {
        return Ok(None);
    }
    let Some(header) = header(behind) else {
        return Ok(None);
    };
    let (_, items) = behind.split_at(header.taken);
    if items.is_empty() {
        return Ok(None);
    }
    let Some(name) = own_name(alloc, name)? else {
        return Ok(None);
    };
    let Some(phylum) = kind_name(alloc, phylum)? else {
        return Ok(None);
    };
    let Some(items) = line_items(alloc, items)? else {
        return Ok(None);
    };
    Ok(Some(Line::Operator {
        name,
        phylum,
        scope: header.scope,
        level: header.level,
        items: Seq::of(items),
    }))
}
