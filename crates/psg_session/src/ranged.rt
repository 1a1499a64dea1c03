//! Bytes of the printed text, replaced by typed ones.
ghost use Rattle.std.specs.Prelude.{◌≡◌, ◌≤◌, ◌+◌, ℕ, [], IfOk, IsUtf8, None, Option, option_copied};
ghost use Rattle.psg_cache.specs.Annotated.{tree_in};
ghost use Rattle.psg_grammar.specs.Paths.{Path as PlainPath};
ghost use Rattle.psg_grammar.specs.Printable.{IsPrintable};
ghost use Rattle.psg_grammar.specs.Sizes.{depth_of};
ghost use Rattle.psg_grammar.specs.WellFormed.{WellFormed};
ghost use Rattle.psg_grammar.specs.declared.limits.TheConstants.{MOST_DEPTH};
ghost use Rattle.psg_textedit.specs.Regions.{IsReading};
ghost use Rattle.psg_script.specs.declared.command.Command.TheVariants as commands;
ghost use Rattle.psg_session.specs.declared.edits.Edit.TheVariants as edits;
ghost use Rattle.psg_session.specs.declared.judging.Trial.TheVariants.{Types};
ghost use Rattle.psg_session.specs.Formed.{IsFormedState};
ghost use Rattle.psg_session.specs.Outcomes.{proposal_of, IfFound, IsOutcome, IsPlan, MaySpend};
ghost use Rattle.psg_session.specs.PlainState.{not_asked};
ghost use Rattle.psg_session.specs.Printouts.{IsKeptText, IsNextText, IsPrinted};
ghost use Rattle.psg_session.specs.RangeAnswers.{IsRangeAnswer};
ghost use Rattle.psg_session.specs.Sessions.{opened_of, plain, state_of, IsEditor};
ghost use Rattle.psg_session.specs.Ticks.{HasTicked};
ghost use Rattle.psg_session.specs.Views.{IsLanguage};
ghost use Rattle.psg_textedit.specs.Typing.{typing_of};
ghost use Rattle.psg_unparse.specs.Spans.{printed_of};

use crate::changes::Proposal;
use crate::editor::{Editor, OpenedTree, Outcome, carry_out};
use crate::edits::Edit;
use crate::judging::Trial;
use crate::printout::{planned_text, print_for, put_next};
use crate::refusal::Refusal;
use crate::stop::Stop;
use psg_specimen::LanguageParts;
use psg_terms::{Steps, Txt};
use psg_textedit::{Change, Reader, TextFault, Typed, type_over};
use psg_tree::Path;
use psg_unparse::Printed;
use std::alloc::{AllocError, Global};
use std::sync::ledger::Ledger;

/// Reads the whole new text of the opened fragment, by the nodes around the bytes that are replaced. It lexes the lines
/// of these bytes, and takes a step of the counter for each token of the nodes that it reads again.
fn read_change<L: Ledger>(
    alloc: Global,
    language: &LanguageParts,
    held: &OpenedTree,
    printed: &Printed,
    typed: &Typed<'_>,
    steps: &mut Steps<L>,
) -> Result<Change, TextFault>
    requires language { IsLanguage language.now }
    requires formed { WellFormed language.now.definition (tree_in held.now.note) held.now.kind }
    requires printable { IsPrintable (tree_in held.now.note) }
    requires shallow { depth_of (tree_in held.now.note) ≤ MOST_DEPTH }
    requires printed { printed.now ≡ printed_of language.now.definition (tree_in held.now.note) }
    ensures answer { IsRangeAnswer language.now.definition (typing_of typed.now) (plain held.now) result }
    ensures ticks { (found : Option PlainPath) (n : ℕ)
        → IsReading language.now.definition (tree_in held.now.note) (typing_of typed.now) found n
        → steps.new ≤ steps.old + n }
{
    // that the new bytes are UTF-8 is known of all texts
    let _new = typed.new.as_bytes();
    let definition = &language.definition;
    let tree = held.note.tree();
    let reader = Reader {
        definition,
        lexis: &language.lexis,
        table: &language.table,
    };
    let change = type_over(alloc, &reader, tree, held.kind, printed, typed, steps)?;
    Ok(change)
}

/// Plans the tree of the change in place of its node; the cursor goes to the top.
fn put_change(alloc: Global, change: Change) -> Result<Proposal, AllocError>
    ensures { IfOk result (λ made. made ≡ proposal_of Types (edits.Put change.path change.tree) []) }
{
    let cursor = Path::of(alloc, &[])?;
    let edit = Edit::Put {
        at: change.path,
        new: change.tree,
    };
    let trial = Trial::Types;
    Ok(Proposal {
        trial,
        edit,
        cursor,
    })
}

/// Plans replaced bytes: the tree of the node that is read again, in its place.
fn range<L: Ledger>(
    alloc: Global,
    language: &LanguageParts,
    editor: &Editor,
    printed: Option<&Printed>,
    start: u32,
    end: u32,
    text: &str,
    steps: &mut Steps<L>,
) -> Result<Proposal, Stop>
    requires language { IsLanguage language.now }
    requires editor { IsEditor language.now.definition editor.now }
    requires formed { IsFormedState language.now.definition (state_of editor.now) }
    requires printed { IsPrinted language.now.definition (opened_of editor.now.opened) (option_copied printed) }
    ensures plan { IsPlan language.now.definition editor.now (commands.Range start end text.now) result }
    ensures ticks { HasTicked language.now.definition (state_of editor.now) (commands.Range start end text.now)
        steps.old steps.new }
    ensures spends { MaySpend language.now.definition editor.now (commands.Range start end text.now)
        steps.old steps.new result }
{
    let Some(held) = &editor.opened else {
        return Err(Stop::Refused(Refusal::NothingOpened));
    };
    let Some(printed) = printed else {
        unreachable!()
    };
    let typed = Typed {
        start: start as usize,
        end: end as usize,
        new: text,
    };
    let change = read_change(alloc, language, held, printed, &typed, steps)?;
    let made = put_change(alloc, change)?;
    Ok(made)
}

/// Replaces the bytes of the printed text from `start` on and before `end`. The new tree is the only one that the whole
/// new text is read as, of the opened kind; it is taken also where it is wrong, so long as it is within the limits. The
/// cursor goes to the top.
///
/// It is refused with `NoRange` where the text has no such bytes, with `NoTokens` and `NoTree` where the whole new text
/// has no tokens or no tree, and with `TooDeep` where one has them that is too deep, or whose brackets nest too deep.
/// It takes a step for each token of the nodes around the bytes that are read again, evaluates the new nodes and those
/// above them, and fails where memory runs out. It puts the text of the new version into `next`, where the text around
/// the node that is read again stays as it was.
pub(crate) fn replace_bytes<L: Ledger>(
    alloc: Global,
    language: &LanguageParts,
    editor: &Editor,
    printed: &mut Option<Printed>,
    next: &mut Option<Printed>,
    start: u32,
    end: u32,
    text: &Txt,
    steps: &mut Steps<L>,
) -> Result<Outcome, Stop>
    requires language { IsLanguage language.now }
    requires editor { IsEditor language.now.definition editor.now }
    requires formed { IsFormedState language.now.definition (state_of editor.now) }
    requires kept { IsKeptText language.now.definition (opened_of editor.now.opened) printed.old }
    requires fresh { next.old ≡ None }
    ensures outcome { IfFound result (IsOutcome language.now.definition editor.now not_asked
        (commands.Range start end text.now)) }
    ensures ticks { HasTicked language.now.definition (state_of editor.now) (commands.Range start end text.now)
        steps.old steps.new }
    ensures text { IsUtf8 text.now }
    ensures kept { IsKeptText language.now.definition (opened_of editor.now.opened) printed.new }
    ensures next { IfFound result (λ outcome. IsNextText language.now.definition editor.now outcome next.new) }
{
    let new = text.as_str();
    print_for(alloc, &language.definition, editor, printed)?;
    let before = printed.as_ref();
    let plan = range(alloc, language, editor, before, start, end, new, steps);
    let made = planned_text(alloc, language, editor, before, &plan)?;
    let outcome = carry_out(alloc, language, editor, plan, steps)?;
    put_next(next, &outcome, made);
    Ok(outcome)
}
