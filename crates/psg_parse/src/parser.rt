//! The only tree of a list of tokens.
ghost use Rattle.std.specs.Prelude.{◌≡◌, ◌+◌, ◌-◌, ◌≤◌, ℕ, IfErr, IfOk, OnOk, length};
ghost use Rattle.std.specs.List.{AllByRecursion};
ghost use Rattle.psg_grammar.specs.Fragments.{Fragment};
ghost use Rattle.psg_grammar.specs.Sound.{IsSound};
ghost use Rattle.psg_grammar.specs.WellFormed.{WellFormed};
ghost use Rattle.psg_grammar.specs.declared.limits.TheConstants.{MOST_BRACKETS};
ghost use Rattle.psg_class.specs.Class.{IsClass};
ghost use Rattle.psg_class.specs.Only.{IsValue};
ghost use Rattle.psg_parse.specs.Answers.{IsFault, IsParsed};
ghost use Rattle.psg_class.specs.Texts.{tokens_of};
ghost use Rattle.psg_parse.specs.Standing.{IsTree};
ghost use Rattle.psg_parse.specs.States.{IsBegun};
ghost use Rattle.psg_parse.specs.Tables.{IsParseTable};
ghost use Rattle.psg_parse.specs.Within.{IsWithin, IsBeyond};

use crate::advance::take;
use crate::fault::{Goal, ParseFault};
use crate::standing::Grown;
use crate::state::{Mode, State, Step};
use crate::tables::ParseTable;
use psg_grammar::{Definition, Kind, MOST_BRACKETS, MOST_DEPTH};
use psg_lexis::{Spanned, Token};
use psg_terms::Steps;
use psg_tree::Tree;
use std::alloc::Global;
use std::sync::ledger::Ledger;

/// Returns the only tree of the goal's kind and level that has these tokens. It is well formed, at most 200 deep, and
/// its brackets and those around it nest at most 400 deep.
///
/// The error is `NoTree` where no tree has the tokens, `Deep` where one has them that is past a limit, and `Memory`
/// where memory runs out. It takes a step of the counter for each token that it reads. Work and memory are linear in
/// the tokens, and deep input costs no depth of calls: past the limits no tree is kept, and what waits is one small
/// frame for each open place.
///
/// It makes the table of the definition; where several lists of tokens are parsed, `parse_with` takes one that was made
/// before.
pub fn parse<L: Ledger>(
    alloc: Global,
    definition: &Definition,
    goal: Goal,
    tokens: &[Spanned],
    steps: &mut Steps<L>,
) -> Result<Tree, ParseFault>
    requires sound { IsSound definition.now }
    requires class { IsClass definition.now }
    requires around { goal.around ≤ MOST_BRACKETS }
    ensures tree { IfOk result (IsParsed definition.now goal tokens.now) }
    ensures formed { IfOk result (λ f. WellFormed definition.now f goal.kind) }
    ensures fault { IfErr result (IsFault definition.now goal tokens.now) }
    // at most one step for each token, and one for each where there is a tree
    ensures steps { steps.new ≤ steps.old + length tokens.now }
    ensures all { OnOk result (steps.new ≡ steps.old + length tokens.now) }
{
    let table = ParseTable::of(alloc, definition)?;
    let tree = parse_with(alloc, definition, &table, goal, tokens, steps)?;
    Ok(tree)
}

/// Returns the only tree of the goal's kind and level that has these tokens, as `parse` does, with the table of the
/// definition. Its work does not depend on the size of the definition.
pub fn parse_with<L: Ledger>(
    alloc: Global,
    definition: &Definition,
    table: &ParseTable,
    goal: Goal,
    tokens: &[Spanned],
    steps: &mut Steps<L>,
) -> Result<Tree, ParseFault>
    requires class { IsClass definition.now }
    requires table { IsParseTable definition.now table.now }
    requires around { goal.around ≤ MOST_BRACKETS }
    ensures tree { IfOk result (IsParsed definition.now goal tokens.now) }
    ensures formed { IfOk result (λ f. WellFormed definition.now f goal.kind) }
    ensures fault { IfErr result (IsFault definition.now goal tokens.now) }
    // at most one step for each token, and one for each where there is a tree
    ensures steps { steps.new ≤ steps.old + length tokens.now }
    ensures all { OnOk result (steps.new ≡ steps.old + length tokens.now) }
{
    read_values(tokens);
    let mut state = begin(alloc, goal, tokens);
    'tokens: loop {
        let left = state.rest.len();
        match take(alloc, definition, table, state)? {
            Step::Go(next) => {
                count(steps, left - next.rest.len());
                state = next;
            }
            Step::Done(tree) => return within(goal, tree),
            Step::NoTree => return Err(ParseFault::NoTree),
        }
    }
}

/// Returns the state at the beginning of the tokens.
pub(crate) fn begin<'a>(alloc: Global, goal: Goal, tokens: &'a [Spanned]) -> State<'a>
    ensures { IsBegun goal tokens.now result }
{
    let mode = match goal.kind {
        Kind::Phylum(phylum) => Mode::Start {
            phylum,
            least: u32::from(goal.least),
        },
        Kind::List(list) => Mode::List { list },
    };
    State {
        mode,
        stack: Vec::new(alloc),
        rest: tokens,
    }
}

/// Counts a step for each of the tokens.
fn count<L: Ledger>(steps: &mut Steps<L>, tokens: usize)
    ensures { steps.new ≡ steps.old + tokens }
{
    for _ in 0..tokens {
        steps.tick();
    }
}

/// Returns the tree, if it is within the limits.
fn within(goal: Goal, tree: Grown) -> Result<Tree, ParseFault>
    requires { goal.around ≤ MOST_BRACKETS }
    ensures ok { IfOk result (λ t. (f : Fragment) (n : ℕ) → IsTree tree f n → IsWithin goal f n t) }
    ensures err { IfErr result (λ e. (f : Fragment) (n : ℕ) → IsTree tree f n → IsBeyond goal f n e) }
{
    let Grown {
        tree,
        depth,
        nesting,
    } = tree;
    if u64::from(depth) > MOST_DEPTH || nesting > MOST_BRACKETS - goal.around {
        return Err(ParseFault::Deep);
    }
    tree.ok_or(ParseFault::Deep)
}

/// Reads the numbers and texts of the tokens. What it ensures holds of all values of their types, and is known of those
/// that a program reads.
fn read_values(tokens: &[Spanned])
    ensures { AllByRecursion IsValue (tokens_of tokens.now) }
{
    for spanned in tokens {
        read_value(&spanned.token);
    }
}

fn read_value(token: &Token)
    ensures { IsValue token.now }
{
    match token {
        Token::Number(value) => {
            let _value = *value;
        }
        Token::Text(text) => {
            let _text = text.as_str();
        }
        _ => {}
    }
}
