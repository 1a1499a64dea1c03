//! The tree of a list of tokens, with where its nodes are.
ghost use Rattle.std.specs.Prelude.{◌≡◌, ◌+◌, ◌≤◌, ℕ, IfErr, IfOk, OnOk, length};
ghost use Rattle.psg_grammar.specs.WellFormed.{WellFormed};
ghost use Rattle.psg_grammar.specs.declared.limits.TheConstants.{MOST_BRACKETS};
ghost use Rattle.psg_class.specs.Class.{IsClass};
ghost use Rattle.psg_class.specs.Texts.{tokens_of};
ghost use Rattle.psg_parse.specs.Answers.{IsFault, IsParsed, Reads};
ghost use Rattle.psg_parse.specs.Tables.{IsParseTable};
ghost use Rattle.psg_ranges.specs.Forests.{nodes_of, ranges_in};

use crate::ranges::{Ranges, ranges_of};
use psg_grammar::Definition;
use psg_lexis::Spanned;
use psg_parse::{Goal, ParseFault, ParseTable, parse_with};
use psg_terms::Steps;
use psg_tree::Tree;
use std::alloc::Global;
use std::sync::ledger::Ledger;

/// A tree with the ranges of its nodes.
#[derive(Drop)]
pub struct Parsed {
    /// The tree.
    pub tree: Tree,
    /// Where its nodes are among the tokens that it was read from.
    pub ranges: Ranges,
}

/// Returns the only tree of the goal's kind and level that has these tokens, as `psg_parse::parse_with` does, and where
/// each of its nodes is among them, as `ranges_of` does. Its errors are those of `parse_with`, and its cost is that of
/// both.
pub fn parse_ranged<L: Ledger>(
    alloc: Global,
    definition: &Definition,
    table: &ParseTable,
    goal: Goal,
    tokens: &[Spanned],
    steps: &mut Steps<L>,
) -> Result<Parsed, ParseFault>
    requires class { IsClass definition.now }
    requires table { IsParseTable definition.now table.now }
    requires around { goal.around ≤ MOST_BRACKETS }
    ensures tree { IfOk result (λ made. IsParsed definition.now goal tokens.now made.tree) }
    ensures formed { IfOk result (λ made. WellFormed definition.now made.tree goal.kind) }
    // each derivation of the tree from the tokens says this of its nodes, too
    ensures ranges { IfOk result (λ made. (nesting : ℕ) (y : Reads definition.now goal tokens.now made.tree nesting)
        → made.ranges.nodes
        ≡ ranges_in (nodes_of definition.now made.tree goal.kind goal.least nesting (tokens_of tokens.now) y)) }
    ensures fault { IfErr result (IsFault definition.now goal tokens.now) }
    ensures steps { steps.new ≤ steps.old + length tokens.now }
    ensures all { OnOk result (steps.new ≡ steps.old + length tokens.now) }
{
    let tree = parse_with(alloc, definition, table, goal, tokens, steps)?;
    let ranges = ranges_of(alloc, definition, goal.kind, &tree, tokens)?;
    Ok(Parsed { tree, ranges })
}
