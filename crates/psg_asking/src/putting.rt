//! An operator that is put into a wrong program.
ghost use Rattle.std.specs.Prelude.{◌≡◌, MatchOption, None, Some, option_copied, option_map, IfOk};
ghost use Rattle.psg_cache.specs.Annotated.{tree_in};
ghost use Rattle.psg_grammar.specs.Paths.{node_at};
ghost use Rattle.psg_keymap.specs.Table.{text_at as text_due_at};
ghost use Rattle.psg_session.specs.PlainState.{Opened};
ghost use Rattle.psg_session.specs.Sessions.{state_of};
ghost use Rattle.psg_session.specs.Views.{reply_of};
ghost use Rattle.psg_asking.specs.Asked.{IsKnown, there};
ghost use Rattle.psg_asking.specs.Programs.{IsProgram};
ghost use Rattle.psg_asking.specs.Putting.{IsAtNode, IsPutText, IsTextHere, IsTextOf};
ghost use Rattle.psg_asking.specs.Told.{refusal_in as refusal_of};

use crate::asked::{Known, asked_at};
use crate::program::{Done, Program, tried};
use crate::words::refusal_in;
use psg_keymap::{Due, Seen, Spot, putting, text_at};
use psg_session::editor::Editor;
use psg_specimen::Language;
use psg_terms::{Steps, Txt};
use psg_tree::{Tree, at};
use psg_unparse::{Printed, unparse};
use psg_world::Files;
use std::alloc::{AllocError, Global};
use std::sync::ledger::Ledger;

/// Returns the command that puts an operator into a wrong program. It is the text that the operator has where it is put
/// into the repaired program, since `refine` and `insert` are refused while a program is wrong. `None` where no program
/// is asked, and where the operator is refused there. The files stay as they are. `printed` is the text of the wrong
/// program, with its spans. It fails where memory runs out.
pub fn text_due<F: Files, L: Ledger>(
    alloc: Global,
    known: Known,
    printed: &Printed,
    spot: &Spot,
    op: &str,
    args: Txt,
    files: &mut F,
    steps: &mut Steps<L>,
) -> Result<Option<Due>, AllocError>
    requires { IsKnown known.program.language.now known.program.kind known.program.note.now known.wrong
        (option_copied known.repair) }
    ensures text { IfOk result (IsTextOf known.entry.program.language.now known.entry.program.kind
        (tree_in known.entry.program.note.now) printed.now.spans spot.now op.now args) }
    ensures files { (F.holds files.new ≡ F.holds files.old) × (F.faults files.new ≡ F.faults files.old) }
{
    let found = asked_at(alloc, known, spot)?;
    match found {
        Some(asked) => {
            let program = Program {
                language: known.program.language,
                kind: known.program.kind,
                note: asked.note,
            };
            let text = put_text(alloc, program, &asked.spot, op, args, files, steps)?;
            let tree = known.program.note.tree();
            let seen = Seen {
                language: known.program.language,
                tree,
                printed,
            };
            let due = due_with(alloc, seen, spot, text)?;
            Ok(due)
        }
        None => Ok(None),
    }
}

/// Returns the command that puts the text at the spot, if there is one.
fn due_with(
    alloc: Global,
    seen: Seen,
    spot: &Spot,
    text: Option<Txt>,
) -> Result<Option<Due>, AllocError>
    ensures { IfOk result (λ due. due ≡ option_map (λ words. text_due_at seen.entry.language.now seen.entry.tree.now
        seen.entry.printed.now.spans spot.now.target spot.now.place words) text) }
{
    match text {
        Some(text) => {
            let due = text_at(alloc, seen, &spot.target, spot.place, text)?;
            Ok(Some(due))
        }
        None => Ok(None),
    }
}

/// Returns the text of what is put for the operator at the spot of the program; `None` where it is refused there.
fn put_text<F: Files, L: Ledger>(
    alloc: Global,
    program: Program,
    spot: &Spot,
    op: &str,
    args: Txt,
    files: &mut F,
    steps: &mut Steps<L>,
) -> Result<Option<Txt>, AllocError>
    requires { IsProgram program.language.now program.kind program.note.now }
    ensures text { IfOk result (IsPutText program.entry.language.now program.entry.kind
        (there (tree_in program.entry.note.now) spot.now) op.now args) }
    ensures files { (F.holds files.new ≡ F.holds files.old) × (F.faults files.new ≡ F.faults files.old) }
{
    let put = putting(alloc, &spot.target, spot.place, op, args)?;
    let made = tried(alloc, program, &put.command, files, steps);
    // here and not at the end, where the proof would take each command apart on each way out
    drop(put);
    let made = made?;
    let text = grown_text(alloc, program.language, made)?;
    Ok(text)
}

/// Returns the text of the node at the cursor after a command; `None` where it was refused.
fn grown_text(alloc: Global, language: &Language, made: Done) -> Result<Option<Txt>, AllocError>
    requires { None ≡ refusal_of (reply_of made.reply) → IsAtNode (state_of made.editor) }
    ensures { IfOk result (λ text. MatchOption text ((None ≡ refusal_of (reply_of made.reply)) → ⊥)
        (λ words. (None ≡ refusal_of (reply_of made.reply))
        × IsTextHere language.now (state_of made.editor) words)) }
{
    let text = text_after(alloc, language, &made);
    drop(made);
    let text = text?;
    Ok(text)
}

/// Returns the text of the node at the cursor after a command; `None` where it was refused.
fn text_after(alloc: Global, language: &Language, made: &Done) -> Result<Option<Txt>, AllocError>
    requires { None ≡ refusal_of (reply_of made.now.reply) → IsAtNode (state_of made.now.editor) }
    ensures { IfOk result (λ text. MatchOption text ((None ≡ refusal_of (reply_of made.now.reply)) → ⊥)
        (λ words. (None ≡ refusal_of (reply_of made.now.reply))
        × IsTextHere language.now (state_of made.now.editor) words)) }
{
    match refusal_in(&made.reply) {
        Some(_) => Ok(None),
        None => {
            let text = text_here(alloc, language, &made.editor)?;
            Ok(Some(text))
        }
    }
}

/// Returns the text of the node at the cursor.
fn text_here(alloc: Global, language: &Language, editor: &Editor) -> Result<Txt, AllocError>
    requires { IsAtNode (state_of editor.now) }
    ensures { IfOk result (IsTextHere language.now (state_of editor.now)) }
{
    // the cursor leads to a node
    let Some(node) = node_here(editor) else {
        unreachable!()
    };
    let definition = language.definition();
    let printed = unparse(alloc, definition, node)?;
    let text = printed.text.share()?;
    Ok(text)
}

/// Returns the node at the cursor.
fn node_here<'a>(editor: &'a Editor) -> Option<&'a Tree>
    ensures { MatchOption result (IsAtNode (state_of editor.now) → ⊥) (λ node. (old : Opened)
        × ((state_of editor.now).opened ≡ Some old)
        × (node_at old.tree (state_of editor.now).cursor ≡ Some node.now)) }
{
    match &editor.opened {
        Some(held) => at(held.note.tree(), &editor.cursor),
        None => None,
    }
}
