//! What each command does to the editor.
ghost use Rattle.std.specs.Prelude.{◌≡◌, None};
ghost use Rattle.psg_session.specs.Applied.{HasStopped};
ghost use Rattle.psg_session.specs.Formed.{HasText, IsFormedState};
ghost use Rattle.psg_session.specs.Outcomes.{IfFound};
ghost use Rattle.psg_session.specs.Printouts.{IsKeptText, IsNextText};
ghost use Rattle.psg_session.specs.Reached.{HasReached};
ghost use Rattle.psg_session.specs.Sessions.{opened_of, state_of, IsEditor};
ghost use Rattle.psg_session.specs.Stops.{IfMemory};
ghost use Rattle.psg_session.specs.Views.{IsLanguage};

use crate::changes::{close, cut, insert_element, refine, remove_element, reopen};
use crate::editor::{Editor, Outcome, carry_out, open_new};
use crate::kept::{fetch, keep};
use crate::menus::{menu, suggest};
use crate::pasting::paste;
use crate::printing::{go, screen, show};
use crate::questions::{free, own};
use crate::ranged::replace_bytes;
use crate::relating::relation;
use crate::saved::save;
use crate::stop::Stop;
use crate::typed::type_node;
use crate::versions::{redo, undo};
use psg_screen::View;
use psg_script::Command;
use psg_specimen::LanguageParts;
use psg_terms::Steps;
use psg_unparse::Printed;
use psg_world::Files;
use std::alloc::Global;
use std::sync::ledger::Ledger;

/// Finds what a command does to the editor, or why it has no outcome. It has the only match over commands in this
/// crate: a question is answered, a change is planned and then carried out, a version is found, and a fragment is
/// saved, kept or fetched. A `keep` writes its file and a `fetch` reads it; no other command asks anything of the
/// files.
///
/// A change evaluates what is new and the nodes above it. `steps` counts evaluations, and the tokens of typed text and
/// of a fetched fragment. A command that is answered from the printed text prints it into `printed` where it is not
/// kept there. Where the text of the new version is known, it is put into `next`.
#[tactic(auto, using(crate::proofs::Ticking::quiet, crate::proofs::Stopping::reached_by, crate::proofs::Stopping::stopped_by, crate::proofs::Stopping::no_next))]
pub fn outcome_of<F: Files, L: Ledger>(
    alloc: Global,
    language: &LanguageParts,
    editor: &Editor,
    printed: &mut Option<Printed>,
    next: &mut Option<Printed>,
    command: &Command,
    files: &mut F,
    steps: &mut Steps<L>,
) -> Result<Outcome, Stop>
    requires language { IsLanguage language.now }
    requires editor { IsEditor language.now.definition editor.now }
    requires formed { IsFormedState language.now.definition (state_of editor.now) }
    requires kept { IsKeptText language.now.definition (opened_of editor.now.opened) printed.old }
    requires fresh { next.old ≡ None }
    ensures reached { IfFound result (HasReached language.now.definition editor.now command.now
        (record { held = F.holds files.old; entries = F.faults files.old })
        (record { held = F.holds files.new; entries = F.faults files.new })
        steps.old steps.new) }
    ensures stopped { IfMemory result (HasStopped language.now.definition (state_of editor.now) command.now
        (record { held = F.holds files.old; entries = F.faults files.old })
        (record { held = F.holds files.new; entries = F.faults files.new })
        steps.old steps.new) }
    ensures text { HasText command.now }
    ensures kept { IsKeptText language.now.definition (opened_of editor.now.opened) printed.new }
    ensures next { IfFound result (λ outcome. IsNextText language.now.definition editor.now outcome next.new) }
{
    match command {
        Command::New { phylum } => open_new(alloc, language, editor, phylum, steps),
        Command::Goto { at } => go(alloc, language, editor, printed, at),
        Command::Refine { at, op, args } => {
            let plan = refine(alloc, language, editor, at, op, args);
            carry_out(alloc, language, editor, plan, steps)
        }
        Command::Insert {
            at,
            place,
            op,
            args,
        } => {
            let plan = insert_element(alloc, language, editor, at, *place, op, args);
            carry_out(alloc, language, editor, plan, steps)
        }
        Command::Cut { at } => {
            let plan = cut(alloc, language, editor, at);
            carry_out(alloc, language, editor, plan, steps)
        }
        Command::Remove { at, place } => {
            let plan = remove_element(alloc, language, editor, at, *place);
            carry_out(alloc, language, editor, plan, steps)
        }
        Command::Close { at } => {
            let plan = close(alloc, language, editor, at);
            carry_out(alloc, language, editor, plan, steps)
        }
        Command::Reopen { at } => {
            let plan = reopen(alloc, language, editor, at);
            carry_out(alloc, language, editor, plan, steps)
        }
        Command::Paste { at, place, name } => {
            let plan = paste(alloc, language, editor, at, *place, name);
            carry_out(alloc, language, editor, plan, steps)
        }
        Command::Over { at, text } => type_node(alloc, language, editor, at, text, steps),
        Command::Range { start, end, text } => replace_bytes(
            alloc, language, editor, printed, next, *start, *end, text, steps,
        ),
        Command::Show => show(alloc, language, editor, printed),
        Command::Screen {
            top,
            left,
            rows,
            cols,
        } => {
            let view = View {
                top: *top,
                left: *left,
                rows: *rows,
                cols: *cols,
            };
            screen(alloc, language, editor, printed, view)
        }
        Command::Own { at } => own(alloc, language, editor, at),
        Command::Relation { at } => relation(alloc, language, editor, at, steps),
        Command::Menu { at, place } => menu(alloc, language, editor, at, *place, steps),
        Command::Names { at, place, op } => {
            suggest(alloc, language, editor, at, *place, op, steps)
        }
        Command::Free => free(alloc, language, editor),
        Command::Undo => undo(alloc, language, editor),
        Command::Redo => redo(alloc, language, editor),
        Command::Save { name, at } => save(alloc, language, editor, name, at),
        Command::Keep { name, file } => keep(alloc, language, editor, name, file, files),
        Command::Fetch { file } => fetch(alloc, language, editor, file, files, steps),
    }
}
