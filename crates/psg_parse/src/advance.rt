//! Steps of the parser, whatever it has to do next.
ghost use Rattle.std.specs.Prelude.{◌≡◌, List, IfOk, length};
ghost use Rattle.psg_class.specs.Class.{IsClass};
ghost use Rattle.psg_class.specs.Machine.{Frame as Plain};
ghost use Rattle.psg_class.specs.Texts.{tokens_of};
ghost use Rattle.psg_parse.specs.States.{Aim, IsState, Steps};
ghost use Rattle.psg_parse.specs.Tables.{IsParseTable};
ghost use Rattle.psg_parse.specs.Work.{Advances, Takes, state_work};

use crate::begins::start;
use crate::gives::give;
use crate::grows::grow;
use crate::lists::list;
use crate::state::{Mode, State, Step};
use crate::steps::parts;
use crate::tables::ParseTable;
use psg_grammar::Definition;
use std::alloc::{AllocError, Global};

/// Makes one step. It looks at two tokens at most, and at the marks for the layout in front of an item.
fn advance<'a>(
    alloc: Global,
    definition: &'a Definition,
    lookup: &ParseTable,
    state: State<'a>,
) -> Result<Step<'a>, AllocError>
    requires class { IsClass definition.now }
    requires lookup { IsParseTable definition.now lookup.now }
    ensures leads { IfOk result (λ s. (aim : Aim) (st : List Plain) → IsState state.entry aim st
        → Steps definition.now aim st (tokens_of state.entry.rest.now) s) }
    ensures advances { IfOk result (Advances (length state.entry.rest.now) (state_work state.entry)) }
{
    let State { mode, stack, rest } = state;
    match mode {
        Mode::Start { phylum, least } => {
            start(alloc, definition, lookup, phylum, least, stack, rest)
        }
        Mode::List { list: kind } => list(alloc, definition, lookup, kind, stack, rest),
        Mode::Grow {
            phylum,
            least,
            tree,
            level,
        } => grow(
            alloc, definition, lookup, phylum, least, tree, level, stack, rest,
        ),
        Mode::Parts {
            operator,
            built,
            more,
        } => parts(
            alloc,
            definition,
            &lookup.lexis,
            operator,
            built,
            more,
            stack,
            rest,
        ),
        Mode::Give { tree } => give(alloc, definition, &lookup.lexis, tree, stack, rest),
    }
}

/// Steps until one takes a token or is the last one. They are at most a few for each frame that is taken from the stack
/// and for each item of an operator.
pub(crate) fn take<'a>(
    alloc: Global,
    definition: &'a Definition,
    lookup: &ParseTable,
    state: State<'a>,
) -> Result<Step<'a>, AllocError>
    requires class { IsClass definition.now }
    requires lookup { IsParseTable definition.now lookup.now }
    ensures leads { IfOk result (λ s. (aim : Aim) (st : List Plain) → IsState state.entry aim st
        → Steps definition.now aim st (tokens_of state.entry.rest.now) s) }
    ensures takes { IfOk result (Takes (length state.entry.rest.now)) }
{
    let tokens = state.rest.len();
    let mut state = state;
    'steps: loop {
        match advance(alloc, definition, lookup, state)? {
            Step::Go(next) => {
                if next.rest.len() < tokens {
                    return Ok(Step::Go(next));
                }
                state = next;
            }
            Step::Done(tree) => return Ok(Step::Done(tree)),
            Step::NoTree => return Ok(Step::NoTree),
        }
    }
}
