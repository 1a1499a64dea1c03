//! Writing what is between the parts of a tree: words and marks, brackets, separators.
ghost use Rattle.std.specs.Prelude.{◌≡◌, ◌+◌, ◌==◌, ◌&&◌, not, false, [], ◌∷◌, Some, IfOk, OnOk, length, slice_get};
ghost use Rattle.psg_grammar.specs.Lookups.{is_part};
ghost use Rattle.psg_tree.specs.Shapes.{list_of};
ghost use Rattle.psg_unparse.specs.Rows.{between, closing, from_part, opening, separating};
ghost use Rattle.psg_unparse.specs.Walking.{ending_row};
ghost use Rattle.psg_layout.specs.Arranged.{words_in};
ghost use Rattle.psg_layout.specs.Sheets.{ink_row, ink_token, Inks};
ghost use Rattle.psg_layout.specs.Walking.{InksBy, ink_at, ink_child, ink_words};

use crate::nodes::Flat;
use crate::rules::Rules;
use crate::sheet::Sheet;
use psg_grammar::{Definition, Item, ListKind, is_part};
use psg_terms::uncountable;
use psg_tree::Tree;
use std::alloc::AllocError;

/// Whose items are written: those of the operator, with that many spaces after a break, or without breaks.
#[derive(Clone, Copy)]
pub(crate) struct Mode {
    pub(crate) op: u32,
    pub(crate) spaces: Option<usize>,
}

/// Returns the number and one. It fails where 32 bits do not count it.
pub(crate) fn after(number: u32) -> Result<u32, AllocError>
    ensures { IfOk result (λ next. next ≡ number + 1) }
{
    let Some(next) = number.checked_add(1) else {
        return Err(uncountable(number as usize));
    };
    Ok(next)
}

/// Asks for a break where the operator has one before the item of the number. Without breaks nothing is looked up.
pub(crate) fn ask_at(sheet: &mut Sheet, rules: &Rules, mode: Mode, item: u32)
    ensures { InksBy rules.now (λ layout k. ink_at layout mode.spaces (Some mode.op) item k) sheet.old sheet.new }
{
    match mode.spaces {
        Some(_) => ask_before(sheet, rules, mode, item),
        None => {}
    }
}

/// Asks for what the mode says where the operator has a break before the item of the number.
fn ask_before(sheet: &mut Sheet, rules: &Rules, mode: Mode, item: u32)
    ensures { InksBy rules.now (λ layout k. ink_at layout mode.spaces (Some mode.op) item k) sheet.old sheet.new }
{
    if rules.is_break(mode.op, item) {
        sheet.ask(mode.spaces);
    }
}

/// Asks for a break where the operator has one before the child that is the item of the number, and the child is
/// written with a token.
pub(crate) fn ask_child(
    sheet: &mut Sheet,
    rules: &Rules,
    mode: Mode,
    item: u32,
    bracketed: bool,
    flat: Flat,
)
    ensures { InksBy rules.now (λ layout k. ink_child layout mode.spaces (Some mode.op) item bracketed flat k)
        sheet.old sheet.new }
{
    if bracketed {
        ask_at(sheet, rules, mode, item);
    } else if flat.some {
        ask_at(sheet, rules, mode, item);
    }
}

/// Writes a word that is the item of the number, and returns the number of the item after it.
fn write_word(
    sheet: &mut Sheet,
    rules: &Rules,
    mode: Mode,
    number: u32,
    word: &str,
) -> Result<u32, AllocError>
    ensures ink { OnOk result (InksBy rules.now
        (λ layout k. ink_token (ink_at layout mode.spaces (Some mode.op) number k) word.now) sheet.old sheet.new) }
    ensures number { IfOk result (λ next. next ≡ number + 1) }
{
    ask_at(sheet, rules, mode, number);
    sheet.put_token(word)?;
    let next = after(number)?;
    Ok(next)
}

/// Writes a word or a mark that is the item of the number, and returns the number of the item after it.
fn write_item(
    sheet: &mut Sheet,
    rules: &Rules,
    mode: Mode,
    number: u32,
    item: &Item,
) -> Result<u32, AllocError>
    requires { is_part item.now ≡ false }
    ensures ink { OnOk result (InksBy rules.now
        (λ layout k. ink_words layout mode.spaces (Some mode.op) number (item.now ∷ []) k) sheet.old sheet.new) }
    ensures number { IfOk result (λ next. next ≡ number + words_in (item.now ∷ [])) }
{
    match item {
        Item::Word(word) => {
            let next = write_word(sheet, rules, mode, number, word.as_str())?;
            Ok(next)
        }
        _ => {
            sheet.put_mark(item)?;
            Ok(number)
        }
    }
}

/// Writes the words and marks in front of the first part among the items, of which the first has the number. It returns
/// the items from that part on, and the number of the part.
pub(crate) fn write_words<'a>(
    sheet: &mut Sheet,
    rules: &Rules,
    mode: Mode,
    number: u32,
    items: &'a [Item],
) -> Result<(&'a [Item], u32), AllocError>
    ensures ink { OnOk result (InksBy rules.now
        (λ layout k. ink_words layout mode.spaces (Some mode.op) number items.now k) sheet.old sheet.new) }
    ensures rest { IfOk result (λ found. found.0.now ≡ from_part items.now) }
    ensures number { IfOk result (λ found. found.1 ≡ number + words_in items.now) }
{
    let mut rest = items;
    let mut next = number;
    while let Some((item, behind)) = rest.split_first() {
        if is_part(item) {
            return Ok((rest, next));
        }
        next = write_item(sheet, rules, mode, next, item)?;
        rest = behind;
    }
    Ok((rest, next))
}

/// Writes an opening bracket if the tree after it needs brackets.
pub(crate) fn open_bracket(sheet: &mut Sheet, bracketed: bool) -> Result<(), AllocError>
    ensures { OnOk result (Inks (λ k. ink_row k (opening bracketed)) sheet.old sheet.new) }
{
    if bracketed {
        sheet.put_token("(")?;
        sheet.put_mark(&Item::Tight)?;
    }
    Ok(())
}

/// Writes a closing bracket if the tree in front of it needs brackets.
pub(crate) fn close_bracket(sheet: &mut Sheet, bracketed: bool) -> Result<(), AllocError>
    ensures { OnOk result (Inks (λ k. ink_row k (closing bracketed)) sheet.old sheet.new) }
{
    if bracketed {
        sheet.put_mark(&Item::Tight)?;
        sheet.put_token(")")?;
    }
    Ok(())
}

/// Writes what is between an element of a list and the elements after it, where there are some or the list is
/// unfinished.
pub(crate) fn write_between(
    sheet: &mut Sheet,
    definition: &Definition,
    list: u32,
    behind: &[Tree],
    unfinished: bool,
) -> Result<(), AllocError>
    ensures { OnOk result (Inks
        (λ k. ink_row k (between definition.now list (list_of list behind.now unfinished))) sheet.old sheet.new) }
{
    if is_ended(behind, unfinished) {
        return Ok(());
    }
    write_separator(sheet, definition, list)?;
    Ok(())
}

/// Says whether a list ends after an element: it has no more elements, and it is finished.
fn is_ended(behind: &[Tree], unfinished: bool) -> bool
    ensures { result ≡ (length behind.now == 0 && not unfinished) }
{
    behind.is_empty() && !unfinished
}

/// Writes the separator of the list of the number.
fn write_separator(sheet: &mut Sheet, definition: &Definition, list: u32) -> Result<(), AllocError>
    ensures { OnOk result (Inks (λ k. ink_row k (separating (slice_get definition.now.lists list)))
        sheet.old sheet.new) }
{
    match definition.lists.as_slice().get(list as usize) {
        Some(kind) => {
            write_separator_of(sheet, kind)?;
            Ok(())
        }
        None => Ok(()),
    }
}

/// Writes the separator of a kind of lists.
fn write_separator_of(sheet: &mut Sheet, kind: &ListKind) -> Result<(), AllocError>
    ensures { OnOk result (Inks (λ k. ink_row k (separating (Some kind.now))) sheet.old sheet.new) }
{
    sheet.put_mark(&Item::Tight)?;
    sheet.put_token(kind.separator.as_str())?;
    if kind.lines {
        sheet.put_mark(&Item::Line)?;
    } else {
        sheet.put_mark(&Item::Space)?;
    }
    Ok(())
}

/// Writes the end of a list.
pub(crate) fn write_ending(sheet: &mut Sheet, unfinished: bool) -> Result<(), AllocError>
    ensures { OnOk result (Inks (λ k. ink_row k (ending_row unfinished)) sheet.old sheet.new) }
{
    if unfinished {
        sheet.put_token("...")?;
    }
    Ok(())
}
