//! One function for each form of a line, over what follows the line's first word. `None` says that it has not the
//! form.
ghost use Rattle.std.specs.Prelude.{IfOk};
ghost use Rattle.psg_script.specs.Words.{IsBehind};
ghost use Rattle.psg_script.specs.Reading.{Reads};
ghost use Rattle.psg_script.specs.Productions.{IsForm, IsPlaceAlone};

use crate::command::{Command, Where};
use crate::fields::{read_file, read_name, read_number, read_place, read_placed_name, read_up_to};
use crate::keyword::Keyword;
use crate::words::{Words, is_end, one_and_text, three_and_text, two_and_text, words_behind};
use psg_terms::Txt;
use std::alloc::{AllocError, Global};

/// Returns a place, and nothing else.
fn place_alone(alloc: Global, behind: &str) -> Result<Option<Where>, AllocError>
    requires { IsBehind behind.now }
    ensures { IfOk result (Reads IsPlaceAlone behind.now) }
{
    match words_behind(behind) {
        Words::One(place) => read_place(alloc, place),
        _ => Ok(None),
    }
}

/// Reads `new PHYLUM`.
pub fn form_new(alloc: Global, behind: &str) -> Result<Option<Command>, AllocError>
    requires { IsBehind behind.now }
    ensures { IfOk result (Reads (IsForm Keyword.New) behind.now) }
{
    let Words::One(phylum) = words_behind(behind) else {
        return Ok(None);
    };
    let Some(phylum) = read_name(alloc, phylum)? else {
        return Ok(None);
    };
    Ok(Some(Command::New { phylum }))
}

/// Reads `goto PATH`.
pub fn form_goto(alloc: Global, behind: &str) -> Result<Option<Command>, AllocError>
    requires { IsBehind behind.now }
    ensures { IfOk result (Reads (IsForm Keyword.Goto) behind.now) }
{
    let Some(at) = place_alone(alloc, behind)? else {
        return Ok(None);
    };
    Ok(Some(Command::Goto { at }))
}

/// Reads `cut PATH`.
pub fn form_cut(alloc: Global, behind: &str) -> Result<Option<Command>, AllocError>
    requires { IsBehind behind.now }
    ensures { IfOk result (Reads (IsForm Keyword.Cut) behind.now) }
{
    let Some(at) = place_alone(alloc, behind)? else {
        return Ok(None);
    };
    Ok(Some(Command::Cut { at }))
}

/// Reads `close PATH`.
pub fn form_close(alloc: Global, behind: &str) -> Result<Option<Command>, AllocError>
    requires { IsBehind behind.now }
    ensures { IfOk result (Reads (IsForm Keyword.Close) behind.now) }
{
    let Some(at) = place_alone(alloc, behind)? else {
        return Ok(None);
    };
    Ok(Some(Command::Close { at }))
}

/// Reads `reopen PATH`.
pub fn form_reopen(alloc: Global, behind: &str) -> Result<Option<Command>, AllocError>
    requires { IsBehind behind.now }
    ensures { IfOk result (Reads (IsForm Keyword.Reopen) behind.now) }
{
    let Some(at) = place_alone(alloc, behind)? else {
        return Ok(None);
    };
    Ok(Some(Command::Reopen { at }))
}

/// Reads `relation PATH`.
pub fn form_relation(alloc: Global, behind: &str) -> Result<Option<Command>, AllocError>
    requires { IsBehind behind.now }
    ensures { IfOk result (Reads (IsForm Keyword.Relation) behind.now) }
{
    let Some(at) = place_alone(alloc, behind)? else {
        return Ok(None);
    };
    Ok(Some(Command::Relation { at }))
}

/// Reads `own PATH`.
pub fn form_own(alloc: Global, behind: &str) -> Result<Option<Command>, AllocError>
    requires { IsBehind behind.now }
    ensures { IfOk result (Reads (IsForm Keyword.Own) behind.now) }
{
    let Some(at) = place_alone(alloc, behind)? else {
        return Ok(None);
    };
    Ok(Some(Command::Own { at }))
}

/// Reads `refine PATH OP ARGS`.
pub fn form_refine(alloc: Global, behind: &str) -> Result<Option<Command>, AllocError>
    requires { IsBehind behind.now }
    ensures { IfOk result (Reads (IsForm Keyword.Refine) behind.now) }
{
    let Some((at, op, args)) = two_and_text(behind) else {
        return Ok(None);
    };
    let Some((at, op)) = read_placed_name(alloc, at, op)? else {
        return Ok(None);
    };
    let args = Txt::copy_of(alloc, args)?;
    Ok(Some(Command::Refine { at, op, args }))
}

/// Reads `insert PATH K OP ARGS`.
pub fn form_insert(alloc: Global, behind: &str) -> Result<Option<Command>, AllocError>
    requires { IsBehind behind.now }
    ensures { IfOk result (Reads (IsForm Keyword.Insert) behind.now) }
{
    let Some((at, place, op, args)) = three_and_text(behind) else {
        return Ok(None);
    };
    let Some(place) = read_number(place) else {
        return Ok(None);
    };
    let Some((at, op)) = read_placed_name(alloc, at, op)? else {
        return Ok(None);
    };
    let args = Txt::copy_of(alloc, args)?;
    Ok(Some(Command::Insert {
        at,
        place,
        op,
        args,
    }))
}

/// Reads `remove PATH K`.
pub fn form_remove(alloc: Global, behind: &str) -> Result<Option<Command>, AllocError>
    requires { IsBehind behind.now }
    ensures { IfOk result (Reads (IsForm Keyword.Remove) behind.now) }
{
    let Words::Two(at, place) = words_behind(behind) else {
        return Ok(None);
    };
    let Some(place) = read_number(place) else {
        return Ok(None);
    };
    let Some(at) = read_place(alloc, at)? else {
        return Ok(None);
    };
    Ok(Some(Command::Remove { at, place }))
}

/// Reads `over PATH TEXT`.
pub fn form_over(alloc: Global, behind: &str) -> Result<Option<Command>, AllocError>
    requires { IsBehind behind.now }
    ensures { IfOk result (Reads (IsForm Keyword.Over) behind.now) }
{
    let Some((at, text)) = one_and_text(behind) else {
        return Ok(None);
    };
    let Some(at) = read_place(alloc, at)? else {
        return Ok(None);
    };
    let text = Txt::copy_of(alloc, text)?;
    Ok(Some(Command::Over { at, text }))
}

/// Reads `range START END TEXT`.
pub fn form_range(alloc: Global, behind: &str) -> Result<Option<Command>, AllocError>
    requires { IsBehind behind.now }
    ensures { IfOk result (Reads (IsForm Keyword.Range) behind.now) }
{
    let Some((start, end, text)) = two_and_text(behind) else {
        return Ok(None);
    };
    let Some(start) = read_number(start) else {
        return Ok(None);
    };
    let Some(end) = read_number(end) else {
        return Ok(None);
    };
    let text = Txt::copy_of(alloc, text)?;
    Ok(Some(Command::Range { start, end, text }))
}

/// Reads `screen TOP LEFT ROWS COLS`.
pub fn form_screen(behind: &str) -> Option<Command>
    requires { IsBehind behind.now }
    ensures { Reads (IsForm Keyword.Screen) behind.now result }
{
    let Words::Four(top, left, rows, cols) = words_behind(behind) else {
        return None;
    };
    let top = read_number(top)?;
    let left = read_number(left)?;
    let rows = read_up_to(200, rows)?;
    let cols = read_up_to(400, cols)?;
    Some(Command::Screen {
        top,
        left,
        rows,
        cols,
    })
}

/// Reads `menu PATH` or `menu PATH K`.
pub fn form_menu(alloc: Global, behind: &str) -> Result<Option<Command>, AllocError>
    requires { IsBehind behind.now }
    ensures { IfOk result (Reads (IsForm Keyword.Menu) behind.now) }
{
    match words_behind(behind) {
        Words::One(at) => {
            let Some(at) = read_place(alloc, at)? else {
                return Ok(None);
            };
            Ok(Some(Command::Menu { at, place: None }))
        }
        Words::Two(at, place) => {
            let Some(place) = read_number(place) else {
                return Ok(None);
            };
            let Some(at) = read_place(alloc, at)? else {
                return Ok(None);
            };
            Ok(Some(Command::Menu {
                at,
                place: Some(place),
            }))
        }
        _ => Ok(None),
    }
}

/// Reads `names PATH OP` or `names PATH K OP`.
pub fn form_names(alloc: Global, behind: &str) -> Result<Option<Command>, AllocError>
    requires { IsBehind behind.now }
    ensures { IfOk result (Reads (IsForm Keyword.Names) behind.now) }
{
    match words_behind(behind) {
        Words::Two(at, op) => {
            let Some((at, op)) = read_placed_name(alloc, at, op)? else {
                return Ok(None);
            };
            Ok(Some(Command::Names {
                at,
                place: None,
                op,
            }))
        }
        Words::Three(at, place, op) => {
            let Some(place) = read_number(place) else {
                return Ok(None);
            };
            let Some((at, op)) = read_placed_name(alloc, at, op)? else {
                return Ok(None);
            };
            Ok(Some(Command::Names {
                at,
                place: Some(place),
                op,
            }))
        }
        _ => Ok(None),
    }
}

/// Reads `paste PATH NAME` or `paste PATH K NAME`.
pub fn form_paste(alloc: Global, behind: &str) -> Result<Option<Command>, AllocError>
    requires { IsBehind behind.now }
    ensures { IfOk result (Reads (IsForm Keyword.Paste) behind.now) }
{
    match words_behind(behind) {
        Words::Two(at, name) => {
            let Some((at, name)) = read_placed_name(alloc, at, name)? else {
                return Ok(None);
            };
            Ok(Some(Command::Paste {
                at,
                place: None,
                name,
            }))
        }
        Words::Three(at, place, name) => {
            let Some(place) = read_number(place) else {
                return Ok(None);
            };
            let Some((at, name)) = read_placed_name(alloc, at, name)? else {
                return Ok(None);
            };
            Ok(Some(Command::Paste {
                at,
                place: Some(place),
                name,
            }))
        }
        _ => Ok(None),
    }
}

/// Reads `save NAME PATH`.
pub fn form_save(alloc: Global, behind: &str) -> Result<Option<Command>, AllocError>
    requires { IsBehind behind.now }
    ensures { IfOk result (Reads (IsForm Keyword.Save) behind.now) }
{
    let Words::Two(name, at) = words_behind(behind) else {
        return Ok(None);
    };
    let Some((at, name)) = read_placed_name(alloc, at, name)? else {
        return Ok(None);
    };
    Ok(Some(Command::Save { name, at }))
}

/// Reads `keep NAME FILE`.
pub fn form_keep(alloc: Global, behind: &str) -> Result<Option<Command>, AllocError>
    requires { IsBehind behind.now }
    ensures { IfOk result (Reads (IsForm Keyword.Keep) behind.now) }
{
    let Words::Two(name, file) = words_behind(behind) else {
        return Ok(None);
    };
    let Some(name) = read_name(alloc, name)? else {
        return Ok(None);
    };
    let Some(file) = read_file(alloc, file)? else {
        return Ok(None);
    };
    Ok(Some(Command::Keep { name, file }))
}

/// Reads `fetch FILE`.
pub fn form_fetch(alloc: Global, behind: &str) -> Result<Option<Command>, AllocError>
    requires { IsBehind behind.now }
    ensures { IfOk result (Reads (IsForm Keyword.Fetch) behind.now) }
{
    let Words::One(file) = words_behind(behind) else {
        return Ok(None);
    };
    let Some(file) = read_file(alloc, file)? else {
        return Ok(None);
    };
    Ok(Some(Command::Fetch { file }))
}

/// Reads `show`.
pub fn form_show(behind: &str) -> Option<Command>
    requires { IsBehind behind.now }
    ensures { Reads (IsForm Keyword.Show) behind.now result }
{
    if is_end(behind) {
        Some(Command::Show)
    } else {
        None
    }
}

/// Reads `free`.
pub fn form_free(behind: &str) -> Option<Command>
    requires { IsBehind behind.now }
    ensures { Reads (IsForm Keyword.Free) behind.now result }
{
    if is_end(behind) {
        Some(Command::Free)
    } else {
        None
    }
}

/// Reads `undo`.
pub fn form_undo(behind: &str) -> Option<Command>
    requires { IsBehind behind.now }
    ensures { Reads (IsForm Keyword.Undo) behind.now result }
{
    if is_end(behind) {
        Some(Command::Undo)
    } else {
        None
    }
}

/// Reads `redo`.
pub fn form_redo(behind: &str) -> Option<Command>
    requires { IsBehind behind.now }
    ensures { Reads (IsForm Keyword.Redo) behind.now result }
{
    if is_end(behind) {
        Some(Command::Redo)
    } else {
        None
    }
}
