//! How a list begins and goes on.
ghost use Rattle.std.specs.Prelude.{◌≡◌, ◌↔◌, ◌+◌, ◌∷◌, ℕ, List, IfOk, IsTrue, length, max};
ghost use Rattle.psg_grammar.specs.Fragments.{Fragment, ending};
ghost use Rattle.psg_grammar.specs.WellFormed.{fixed_words};
ghost use Rattle.psg_class.specs.Class.{IsClass};
ghost use Rattle.psg_class.specs.Terminals.{dots};
ghost use Rattle.psg_class.specs.Machine.{behind_all, Frame as Plain, then_list};
ghost use Rattle.psg_class.specs.Runs.{list as listing, start as starting};
ghost use Rattle.psg_class.specs.Texts.{tokens_of};
ghost use Rattle.psg_parse.specs.Standing.{AreElements};
ghost use Rattle.psg_parse.specs.States.{giving, Goes, IsStack, running, Steps};
ghost use Rattle.psg_parse.specs.Tables.{IsParseTable};
ghost use Rattle.psg_parse.specs.Work.{Falls, stack_work};

use crate::begins::opens;
use crate::seen::see;
use crate::standing::Listed;
use crate::state::{Frame, Mode, State, Step};
use crate::steps::is_fixed;
use crate::tables::ParseTable;
use psg_grammar::Definition;
use psg_lexis::{Lexis, Spanned, Token};
use std::alloc::{AllocError, Global};

/// Finishes a list. The next step gives it to what waits for it.
pub(crate) fn finish<'a>(
    alloc: Global,
    definition: &'a Definition,
    list: u32,
    listed: Listed,
    unfinished: bool,
    stack: Vec<Frame<'a>>,
    rest: &'a [Spanned],
) -> Result<Step<'a>, AllocError>
    ensures leads { IfOk result (λ s. (st : List Plain) (before : List Fragment) (n : ℕ)
        → IsStack stack.entry.items st → AreElements listed before n
        → Goes definition.now (giving (behind_all list before (ending list unfinished)) n) st (tokens_of rest.now) s) }
    ensures falls { IfOk result (Falls (length rest.now) (1 + stack_work stack.entry.items)) }
{
    let tree = listed.finish(alloc, list, unfinished)?;
    Ok(Step::Go(State {
        mode: Mode::Give { tree },
        stack,
        rest,
    }))
}

/// Goes on with an element of a list.
pub(crate) fn go_on<'a>(
    definition: &'a Definition,
    list: u32,
    element: u32,
    listed: Listed,
    stack: Vec<Frame<'a>>,
    rest: &'a [Spanned],
) -> Result<Step<'a>, AllocError>
    ensures leads { IfOk result (λ s. (st : List Plain) (before : List Fragment) (n : ℕ)
        → IsStack stack.entry.items st → AreElements listed before n
        → Goes definition.now (running (starting element 0)) (then_list list before n ∷ st) (tokens_of rest.now) s) }
    ensures falls { IfOk result (Falls (length rest.now) (2 + stack_work stack.entry.items)) }
{
    let mut stack = stack;
    stack.push(Frame::List { list, listed })?;
    Ok(Step::Go(State {
        mode: Mode::Start {
            phylum: element,
            least: 0,
        },
        stack,
        rest,
    }))
}

/// Says whether the token is `...`.
fn is_more(token: &Token) -> bool
    ensures { IsTrue result ↔ (token.now ≡ dots) }
{
    matches!(token, Token::More)
}

/// Begins a list.
pub(crate) fn list<'a>(
    alloc: Global,
    definition: &'a Definition,
    lookup: &ParseTable,
    list: u32,
    stack: Vec<Frame<'a>>,
    rest: &'a [Spanned],
) -> Result<Step<'a>, AllocError>
    requires class { IsClass definition.now }
    requires lookup { IsParseTable definition.now lookup.now }
    ensures leads { IfOk result (λ s. (st : List Plain) → IsStack stack.entry.items st
        → Steps definition.now (running (listing list)) st (tokens_of rest.now) s) }
    ensures falls { IfOk result (Falls (length rest.now) (2 + stack_work stack.entry.items)) }
{
    let Some(kind) = definition.lists.as_slice().get(list as usize) else {
        return Ok(Step::NoTree);
    };
    let none = Listed::new(alloc);
    let Some((spanned, others)) = rest.split_first() else {
        return finish(alloc, definition, list, none, false, stack, rest);
    };
    if kind.unfinished && is_more(&spanned.token) {
        return finish(alloc, definition, list, none, true, stack, others);
    }
    let seen = see(definition, &lookup.lexis, &spanned.token);
    if opens(definition, lookup, kind.element, seen) {
        return go_on(definition, list, kind.element, none, stack, rest);
    }
    finish(alloc, definition, list, none, false, stack, rest)
}

/// Goes on with a list after its last element, or ends it.
pub(crate) fn tail<'a>(
    alloc: Global,
    definition: &'a Definition,
    lexis: &Lexis,
    list: u32,
    listed: Listed,
    stack: Vec<Frame<'a>>,
    rest: &'a [Spanned],
) -> Result<Step<'a>, AllocError>
    requires class { IsClass definition.now }
    requires words { lexis.now ≡ fixed_words definition.now }
    ensures leads { IfOk result (λ s. (st : List Plain) (before : List Fragment) (e : Fragment) (d n : ℕ)
        → IsStack stack.entry.items st → AreElements listed (e ∷ before) (max d n)
        → Steps definition.now (giving e n) (then_list list before d ∷ st) (tokens_of rest.now) s) }
    ensures falls { IfOk result (Falls (length rest.now) (1 + stack_work stack.entry.items)) }
{
    let Some(kind) = definition.lists.as_slice().get(list as usize) else {
        return Ok(Step::NoTree);
    };
    let Some((spanned, others)) = rest.split_first() else {
        return finish(alloc, definition, list, listed, false, stack, rest);
    };
    let seen = see(definition, lexis, &spanned.token);
    if !is_fixed(seen, kind.separator.as_str()) {
        return finish(alloc, definition, list, listed, false, stack, rest);
    }
    if !kind.unfinished {
        return go_on(definition, list, kind.element, listed, stack, others);
    }
    let Some((second, behind)) = others.split_first() else {
        return go_on(definition, list, kind.element, listed, stack, others);
    };
    if !is_more(&second.token) {
        return go_on(definition, list, kind.element, listed, stack, others);
    }
    finish(alloc, definition, list, listed, true, stack, behind)
}
