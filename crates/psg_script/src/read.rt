//! From a line to its command.
ghost use Rattle.std.specs.Prelude.{◌≡◌, IfOk, IfErr};
ghost use Rattle.psg_script.specs.Forms.{Spells, IsCommandFault};
ghost use Rattle.psg_script.specs.Reading.{Reads};
ghost use Rattle.psg_script.specs.Words.{IsBehind};
ghost use Rattle.psg_script.specs.Productions.{IsForm};
ghost use Rattle.psg_script.specs.declared.command.Command.{Command};

use crate::command::{Command, CommandFault};
use crate::forms::{
    form_close, form_cut, form_fetch, form_free, form_goto, form_insert, form_keep, form_menu,
    form_names, form_new, form_over, form_own, form_paste, form_range, form_redo, form_refine,
    form_relation, form_remove, form_reopen, form_save, form_screen, form_show, form_undo,
};
use crate::keyword::Keyword;
use crate::words::split_word;
use std::alloc::{AllocError, Global};

/// Returns the command of a line that begins with a keyword, by what follows the keyword.
fn read_form(alloc: Global, keyword: Keyword, behind: &str) -> Result<Option<Command>, AllocError>
    requires { IsBehind behind.now }
    ensures { IfOk result (Reads (IsForm keyword) behind.now) }
{
    match keyword {
        Keyword::New => form_new(alloc, behind),
        Keyword::Goto => form_goto(alloc, behind),
        Keyword::Refine => form_refine(alloc, behind),
        Keyword::Insert => form_insert(alloc, behind),
        Keyword::Cut => form_cut(alloc, behind),
        Keyword::Remove => form_remove(alloc, behind),
        Keyword::Close => form_close(alloc, behind),
        Keyword::Reopen => form_reopen(alloc, behind),
        Keyword::Over => form_over(alloc, behind),
        Keyword::Range => form_range(alloc, behind),
        Keyword::Show => Ok(form_show(behind)),
        Keyword::Screen => Ok(form_screen(behind)),
        Keyword::Relation => form_relation(alloc, behind),
        Keyword::Own => form_own(alloc, behind),
        Keyword::Menu => form_menu(alloc, behind),
        Keyword::Names => form_names(alloc, behind),
        Keyword::Free => Ok(form_free(behind)),
        Keyword::Undo => Ok(form_undo(behind)),
        Keyword::Redo => Ok(form_redo(behind)),
        Keyword::Save => form_save(alloc, behind),
        Keyword::Paste => form_paste(alloc, behind),
        Keyword::Keep => form_keep(alloc, behind),
        Keyword::Fetch => form_fetch(alloc, behind),
    }
}

/// Reads a line of a script, without its line feed. `NotText` where the line isn't UTF-8, `Form` where it is and has
/// none of the forms of a command, `Memory` where there is no room for the command. It walks the line once for the test
/// of UTF-8 and at most three times for its words.
pub fn read_command(alloc: Global, line: &[u8]) -> Result<Command, CommandFault>
    ensures ok { IfOk result (λ c. Spells line.now c) }
    ensures only { IfOk result (λ c. (other : Command) → Spells line.now other → other ≡ c) }
    ensures err { IfErr result (IsCommandFault line.now) }
{
    let Ok(text) = str::from_utf8(line) else {
        return Err(CommandFault::NotText);
    };
    let (word, behind) = split_word(text);
    let Some(keyword) = Keyword::of(word) else {
        return Err(CommandFault::Form);
    };
    match read_form(alloc, keyword, behind) {
        Ok(Some(command)) => Ok(command),
        Ok(None) => Err(CommandFault::Form),
        Err(_) => Err(CommandFault::Memory),
    }
}
