//! Typed text in place of a node.
ghost use Rattle.std.specs.Prelude.{IfNone, IfOk, IfSome, IsUtf8};
ghost use Rattle.psg_class.specs.Texts.{HasNoTokens, TextTokens};
ghost use Rattle.psg_script.specs.declared.command.Command.TheVariants as commands;
ghost use Rattle.psg_session.specs.Outcomes.{IfFound, IsOutcome, IsPlan, MaySpend};
ghost use Rattle.psg_session.specs.PlainState.{not_asked};
ghost use Rattle.psg_session.specs.Sessions.{state_of, IsEditor};
ghost use Rattle.psg_session.specs.Ticks.{HasTicked};
ghost use Rattle.psg_session.specs.Typed.{HasRead, IsTextAnswer};
ghost use Rattle.psg_session.specs.Views.{IsLanguage};

use crate::changes::{Proposal, kind_of, put};
use crate::editor::{Editor, Outcome, carry_out};
use crate::finding::find;
use crate::judging::Trial;
use crate::leaves::is_memory;
use crate::refusal::Refusal;
use crate::stop::Stop;
use psg_grammar::Kind;
use psg_lexis::{Spanned, lex};
use psg_parse::{Goal, parse_with};
use psg_script::Where;
use psg_specimen::LanguageParts;
use psg_terms::{Steps, Txt};
use psg_tree::Tree;
use std::alloc::{AllocError, Global};
use std::sync::ledger::Ledger;

/// Reads the tokens of the text; `None` where the text has none because of a fault.
fn tokens_in(
    alloc: Global,
    language: &LanguageParts,
    text: &str,
) -> Result<Option<Vec<Spanned>>, AllocError>
    requires language { IsLanguage language.now }
    ensures some { IfOk result (λ o. IfSome o (λ ts. TextTokens language.now.definition text.now ts.items)) }
    ensures none { IfOk result (λ o. IfNone o (HasNoTokens language.now.definition text.now)) }
{
    match lex(alloc, &language.lexis, text) {
        Ok(tokens) => Ok(Some(tokens)),
        Err(fault) => {
            if is_memory(fault) {
                return Err(AllocError);
            }
            Ok(None)
        }
    }
}

/// Reads the text as a tree of the kind, at level 0. It is refused with `NoTokens` where the text has a fault, with
/// `NoTree` where no tree of the kind has its tokens, and with `TooDeep` where one has them that is too deep, or whose
/// brackets nest too deep. It takes a step of the counter for each token, and work linear in the text.
fn read_tree<L: Ledger>(
    alloc: Global,
    language: &LanguageParts,
    kind: Kind,
    text: &str,
    steps: &mut Steps<L>,
) -> Result<Tree, Stop>
    requires language { IsLanguage language.now }
    ensures answer { IsTextAnswer language.now.definition kind text.now result }
    ensures read { HasRead language.now.definition text.now steps.old steps.new }
{
    let Some(tokens) = tokens_in(alloc, language, text)? else {
        return Err(Stop::Refused(Refusal::NoTokens));
    };
    let definition = &language.definition;
    let goal = Goal {
        kind,
        least: 0,
        around: 0,
    };
    let tree = parse_with(
        alloc,
        definition,
        &language.table,
        goal,
        tokens.as_slice(),
        steps,
    )?;
    Ok(tree)
}

/// Plans typed text: the tree that the text is read as, in place of the node.
fn over<L: Ledger>(
    alloc: Global,
    language: &LanguageParts,
    editor: &Editor,
    place: &Where,
    text: &Txt,
    steps: &mut Steps<L>,
) -> Result<Proposal, Stop>
    requires language { IsLanguage language.now }
    requires editor { IsEditor language.now.definition editor.now }
    ensures plan { IsPlan language.now.definition editor.now (commands.Over place.now text.now) result }
    ensures ticks { HasTicked language.now.definition (state_of editor.now) (commands.Over place.now text.now)
        steps.old steps.new }
    ensures spends { MaySpend language.now.definition editor.now (commands.Over place.now text.now)
        steps.old steps.new result }
    ensures text { IsUtf8 text.now }
{
    let typed = text.as_str();
    let found = find(editor, place)?;
    let kind = kind_of(&language.definition, found.node);
    let new = read_tree(alloc, language, kind, typed, steps)?;
    let made = put(alloc, Trial::Types, found.path, new)?;
    Ok(made)
}

/// Puts the tree that the text is read as in place of the node, to which the cursor goes. The text is read as a tree of
/// the node's kind, at level 0. The tree is taken also where it is wrong, so long as it is within the limits. It takes
/// a step for each token, evaluates the new tree and the nodes above it, and fails where memory runs out.
pub(crate) fn type_node<L: Ledger>(
    alloc: Global,
    language: &LanguageParts,
    editor: &Editor,
    place: &Where,
    text: &Txt,
    steps: &mut Steps<L>,
) -> Result<Outcome, Stop>
    requires language { IsLanguage language.now }
    requires editor { IsEditor language.now.definition editor.now }
    ensures outcome { IfFound result (IsOutcome language.now.definition editor.now not_asked
        (commands.Over place.now text.now)) }
    ensures ticks { HasTicked language.now.definition (state_of editor.now) (commands.Over place.now text.now)
        steps.old steps.new }
    ensures text { IsUtf8 text.now }
{
    let plan = over(alloc, language, editor, place, text, steps);
    carry_out(alloc, language, editor, plan, steps)
}
