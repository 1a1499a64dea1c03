//! How far a list of tokens begins a tree.
ghost use Rattle.std.specs.Prelude.{◌≡◌, ◌↔◌, ◌≤◌, [], IfOk, length, true};
ghost use Rattle.psg_class.specs.Class.{IsClass};
ghost use Rattle.psg_class.specs.Texts.{tokens_of};
ghost use Rattle.psg_parse.specs.Onward.{IsEndable};
ghost use Rattle.psg_parse.specs.Stops.{Begins, IsStop, MayEnd, StopsAt};
ghost use Rattle.psg_parse.specs.Tables.{IsParseTable};

use crate::advance::take;
use crate::fault::Goal;
use crate::parser::begin;
use crate::state::Step;
use crate::tables::ParseTable;
use psg_grammar::Definition;
use psg_lexis::Spanned;
use std::alloc::{AllocError, Global};

/// How far tokens may begin a tree.
#[derive(Clone, Copy, Debug, PartialEq, Eq)]
pub struct Front {
    /// The number of the first token that no tree goes on with, or how many there are.
    pub tokens: usize,
    /// Whether all the tokens are a tree.
    pub whole: bool,
}

/// Returns how many of the first tokens may begin a tree of the goal's kind and level, and whether they all are one. It
/// serves to say where `parse` found no tree, for every list of tokens, whatever the depth of the tree.
///
/// With the token after them, or one that the grammar sees as that, they begin no tree. Where all that the definition
/// has can be ended and the kind has a tree of the level, they do begin one by themselves. Whether all tokens are a
/// tree is exact for every definition. It fails where memory runs out. Work and memory are linear in the tokens.
pub fn reach(
    alloc: Global,
    definition: &Definition,
    table: &ParseTable,
    goal: Goal,
    tokens: &[Spanned],
) -> Result<Front, AllocError>
    requires class { IsClass definition.now }
    requires table { IsParseTable definition.now table.now }
    ensures whole { IfOk result (λ r. (r.whole ≡ true)
        ↔ MayEnd definition.now goal.kind goal.least (tokens_of tokens.now)) }
    ensures inside { IfOk result (λ r. r.tokens ≤ length tokens.now) }
    ensures stops { IfOk result (λ r. StopsAt definition.now goal.kind goal.least (tokens_of tokens.now) r.tokens) }
    ensures stop { IfOk result (λ r. IsEndable definition.now → Begins definition.now goal.kind goal.least []
        → IsStop definition.now goal.kind goal.least (tokens_of tokens.now) r.tokens) }
{
    let mut state = begin(alloc, goal, tokens);
    'tokens: loop {
        let left = state.rest.len();
        match take(alloc, definition, table, state)? {
            Step::Go(next) => state = next,
            Step::Done(_) => {
                return Ok(Front {
                    tokens: tokens.len(),
                    whole: true,
                });
            }
            Step::NoTree => {
                return Ok(Front {
                    tokens: tokens.len() - left,
                    whole: false,
                });
            }
        }
    }
}
