//! How a tree of a phylum begins.
ghost use Rattle.std.specs.Prelude.{◌≡◌, ◌↔◌, ℕ, List, IfOk, IsTrue, length};
ghost use Rattle.psg_class.specs.Class.{IsClass};
ghost use Rattle.psg_class.specs.Follow.{First, Leads};
ghost use Rattle.psg_class.specs.Machine.{Frame as Plain};
ghost use Rattle.psg_class.specs.Runs.{start as starting};
ghost use Rattle.psg_class.specs.Texts.{tokens_of};
ghost use Rattle.psg_parse.specs.Lookups.{Finds, opener_at};
ghost use Rattle.psg_parse.specs.Seen.{terminal_seen};
ghost use Rattle.psg_parse.specs.States.{IsStack, running, Steps};
ghost use Rattle.psg_parse.specs.Tables.{IsParseTable, OpensBracket, OpensHole};
ghost use Rattle.psg_parse.specs.Work.{Falls, stack_work};

use crate::lookup::{Openers, without_marks};
use crate::seen::{Seen, see};
use crate::standing::{Built, Grown};
use crate::state::{Frame, Mode, State, Step};
use crate::steps::is_fixed;
use crate::tables::ParseTable;
use psg_grammar::{Definition, op_level};
use psg_lexis::Spanned;
use std::alloc::{AllocError, Global};

/// Says whether the token is the placeholder of the phylum, and it has one.
pub(crate) fn opens_hole(
    definition: &Definition,
    lookup: &ParseTable,
    phylum: u32,
    seen: Seen,
) -> bool
    requires { IsParseTable definition.now lookup.now }
    ensures { IsTrue result ↔ OpensHole definition.now phylum (terminal_seen seen.entry) }
{
    let Seen::Hole(name) = seen else {
        return false;
    };
    let Some(kind) = definition.phyla.as_slice().get(phylum as usize) else {
        return false;
    };
    let Some(holes) = lookup.holes.as_slice().get(phylum as usize) else {
        return false;
    };
    if !*holes {
        return false;
    }
    kind.name.as_str() == name
}

/// Says whether the token opens a bracket of the phylum.
pub(crate) fn opens_bracket(definition: &Definition, phylum: u32, seen: Seen) -> bool
    ensures { IsTrue result ↔ OpensBracket definition.now phylum (terminal_seen seen.entry) }
{
    let Some(kind) = definition.phyla.as_slice().get(phylum as usize) else {
        return false;
    };
    kind.bracketed && is_fixed(seen, "(")
}

/// Returns the operator of the phylum and the token in the table.
pub(crate) fn find_at(table: &[Openers], phylum: u32, seen: Seen) -> Option<u32>
    ensures { result ≡ opener_at table.now phylum (terminal_seen seen.entry) }
{
    match table.get(phylum as usize) {
        Some(openers) => openers.find(seen),
        None => None,
    }
}

/// Returns the operator of the phylum that begins with the token.
pub(crate) fn leading(
    definition: &Definition,
    lookup: &ParseTable,
    phylum: u32,
    seen: Seen,
) -> Option<u32>
    requires { IsParseTable definition.now lookup.now }
    ensures { Finds (λ n. Leads definition.now phylum n (terminal_seen seen.entry)) result }
{
    find_at(lookup.leading.as_slice(), phylum, seen)
}

/// Says whether a tree of the phylum may begin with the token.
pub(crate) fn opens(definition: &Definition, lookup: &ParseTable, phylum: u32, seen: Seen) -> bool
    requires { IsParseTable definition.now lookup.now }
    ensures { IsTrue result ↔ First definition.now phylum (terminal_seen seen.entry) }
{
    if opens_hole(definition, lookup, phylum, seen) {
        return true;
    }
    if opens_bracket(definition, phylum, seen) {
        return true;
    }
    leading(definition, lookup, phylum, seen).is_some()
}

/// Begins a tree of a phylum.
pub(crate) fn start<'a>(
    alloc: Global,
    definition: &'a Definition,
    lookup: &ParseTable,
    phylum: u32,
    least: u32,
    stack: Vec<Frame<'a>>,
    rest: &'a [Spanned],
) -> Result<Step<'a>, AllocError>
    requires class { IsClass definition.now }
    requires lookup { IsParseTable definition.now lookup.now }
    ensures leads { IfOk result (λ s. (st : List Plain) → IsStack stack.entry.items st
        → Steps definition.now (running (starting phylum least)) st (tokens_of rest.now) s) }
    ensures falls { IfOk result (Falls (length rest.now) (stack_work stack.entry.items)) }
{
    let mut stack = stack;
    let Some((spanned, others)) = rest.split_first() else {
        return Ok(Step::NoTree);
    };
    let seen = see(definition, &lookup.lexis, &spanned.token);
    if opens_hole(definition, lookup, phylum, seen) {
        let tree = Grown::hole(alloc, phylum)?;
        return Ok(Step::Go(State {
            mode: Mode::Grow {
                phylum,
                least,
                tree,
                level: None,
            },
            stack,
            rest: others,
        }));
    }
    if opens_bracket(definition, phylum, seen) {
        stack.push(Frame::Grow {
            phylum,
            least,
            level: None,
        })?;
        stack.push(Frame::Close)?;
        return Ok(Step::Go(State {
            mode: Mode::Start { phylum, least: 0 },
            stack,
            rest: others,
        }));
    }
    let Some(op) = leading(definition, lookup, phylum, seen) else {
        return Ok(Step::NoTree);
    };
    let operator = &definition.operators.as_slice()[op as usize];
    let binding = u32::from(op_level(operator));
    if binding < least {
        return Ok(Step::NoTree);
    }
    let Some((item, more)) = without_marks(operator.items.as_slice()).split_first() else {
        return Ok(Step::NoTree);
    };
    let built = Built::new(alloc, op).with_token(item, &spanned.token)?;
    stack.push(Frame::Grow {
        phylum,
        least,
        level: Some(binding),
    })?;
    Ok(Step::Go(State {
        mode: Mode::Parts {
            operator,
            built,
            more,
        },
        stack,
        rest: others,
    }))
}
