//! How a tree of a phylum goes on.
ghost use Rattle.std.specs.Prelude.{◌≡◌, ◌+◌, ℕ, List, IfOk, length};
ghost use Rattle.psg_grammar.specs.Fragments.{Fragment};
ghost use Rattle.psg_class.specs.Class.{IsClass};
ghost use Rattle.psg_class.specs.Follow.{Led};
ghost use Rattle.psg_class.specs.Machine.{Frame as Plain};
ghost use Rattle.psg_class.specs.Runs.{grow as growing};
ghost use Rattle.psg_class.specs.Texts.{tokens_of};
ghost use Rattle.psg_parse.specs.Lookups.{Finds};
ghost use Rattle.psg_parse.specs.Seen.{terminal_seen};
ghost use Rattle.psg_parse.specs.Standing.{IsTree};
ghost use Rattle.psg_parse.specs.States.{IsStack, running, Steps};
ghost use Rattle.psg_parse.specs.Tables.{IsParseTable};
ghost use Rattle.psg_parse.specs.Work.{Falls, stack_work};

use crate::begins::find_at;
use crate::lookup::without_marks;
use crate::seen::{Seen, see};
use crate::standing::{Built, Grown};
use crate::state::{Frame, Mode, State, Step};
use crate::steps::reaches;
use crate::tables::ParseTable;
use psg_grammar::{Definition, op_level};
use psg_lexis::Spanned;
use std::alloc::{AllocError, Global};

/// Returns the led operator of the phylum that goes on with the token.
pub(crate) fn led(
    definition: &Definition,
    lookup: &ParseTable,
    phylum: u32,
    seen: Seen,
) -> Option<u32>
    requires { IsParseTable definition.now lookup.now }
    ensures { Finds (λ n. Led definition.now phylum n (terminal_seen seen.entry)) result }
{
    find_at(lookup.led.as_slice(), phylum, seen)
}

/// Goes on with a tree of a phylum by a led operator, or finishes it.
pub(crate) fn grow<'a>(
    alloc: Global,
    definition: &'a Definition,
    lookup: &ParseTable,
    phylum: u32,
    least: u32,
    tree: Grown,
    level: Option<u32>,
    stack: Vec<Frame<'a>>,
    rest: &'a [Spanned],
) -> Result<Step<'a>, AllocError>
    requires class { IsClass definition.now }
    requires lookup { IsParseTable definition.now lookup.now }
    ensures leads { IfOk result (λ s. (st : List Plain) (f : Fragment) (n : ℕ) → IsStack stack.entry.items st
        → IsTree tree f n
        → Steps definition.now (running (growing phylum least f n level)) st (tokens_of rest.now) s) }
    ensures falls { IfOk result (Falls (length rest.now) (1 + stack_work stack.entry.items)) }
{
    let mut stack = stack;
    let Some((spanned, others)) = rest.split_first() else {
        return Ok(Step::Go(State {
            mode: Mode::Give { tree },
            stack,
            rest,
        }));
    };
    let Some(op) = led(
        definition,
        lookup,
        phylum,
        see(definition, &lookup.lexis, &spanned.token),
    ) else {
        return Ok(Step::Go(State {
            mode: Mode::Give { tree },
            stack,
            rest,
        }));
    };
    let operator = &definition.operators.as_slice()[op as usize];
    let binding = u32::from(op_level(operator));
    if binding < least {
        return Ok(Step::Go(State {
            mode: Mode::Give { tree },
            stack,
            rest,
        }));
    }
    if !reaches(operator.level, level) {
        return Ok(Step::NoTree);
    }
    let Some((_, behind)) = without_marks(operator.items.as_slice()).split_first() else {
        return Ok(Step::NoTree);
    };
    let Some((item, more)) = without_marks(behind).split_first() else {
        return Ok(Step::NoTree);
    };
    let first = Built::new(alloc, op).with_child(tree)?;
    let built = first.with_token(item, &spanned.token)?;
    stack.push(Frame::Grow {
        phylum,
        least,
        level: Some(binding),
    })?;
    Ok(Step::Go(State {
        mode: Mode::Parts {
            operator,
            built,
            more,
        },
        stack,
        rest: others,
    }))
}
