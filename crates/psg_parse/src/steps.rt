//! The steps of the parser through the items of an operator.
ghost use Rattle.std.specs.Prelude.{◌≡◌, ◌↔◌, ◌+◌, ◌*◌, ℕ, List, IfOk, IsTrue, Some, false, length};
ghost use Rattle.psg_grammar.specs.Fragments.{Fragment};
ghost use Rattle.psg_grammar.specs.Levels.{first_level};
ghost use Rattle.psg_grammar.specs.WellFormed.{fixed_words};
ghost use Rattle.psg_grammar.specs.declared.types.Kind.TheVariants.{Phylum as OfPhylum};
ghost use Rattle.psg_class.specs.Class.{IsClass};
ghost use Rattle.psg_class.specs.Places.{slot_level, solid};
ghost use Rattle.psg_class.specs.Terminals.{fixed, item_terminal};
ghost use Rattle.psg_class.specs.Machine.{Frame as Plain};
ghost use Rattle.psg_class.specs.Runs.{parts as reading, Reaches};
ghost use Rattle.psg_class.specs.Texts.{tokens_of};
ghost use Rattle.psg_parse.specs.Seen.{terminal_seen};
ghost use Rattle.psg_parse.specs.Standing.{IsPartly};
ghost use Rattle.psg_parse.specs.States.{IsStack, running, Steps};
ghost use Rattle.psg_parse.specs.Work.{Falls, stack_work};

use crate::lookup::without_marks;
use crate::seen::{Seen, see};
use crate::standing::Built;
use crate::state::{Frame, Mode, State, Step};
use psg_grammar::{Definition, Item, Kind, Level, Operator};
use psg_lexis::{Lexis, Spanned};
use std::alloc::{AllocError, Global};

/// Says whether the item takes a token that is seen so.
pub(crate) fn takes(item: &Item, seen: Seen) -> bool
    ensures { IsTrue result ↔ (item_terminal item.now ≡ Some (terminal_seen seen.entry)) }
{
    match item {
        Item::Word(word) => match seen {
            Seen::Fixed(text) => word.as_str() == text,
            _ => false,
        },
        Item::Refers(_) | Item::Declares(_) => matches!(seen, Seen::Name),
        Item::Number => matches!(seen, Seen::Number),
        Item::Text => matches!(seen, Seen::Text),
        _ => false,
    }
}

/// Says whether the token is the fixed word.
pub(crate) fn is_fixed(seen: Seen, word: &str) -> bool
    ensures { IsTrue result ↔ (terminal_seen seen.entry ≡ fixed word.now) }
{
    match seen {
        Seen::Fixed(text) => text == word,
        _ => false,
    }
}

/// Says whether a tree of the level may be the first slot of a led operator of the other one.
pub(crate) fn reaches(level: Level, shown: Option<u32>) -> bool
    ensures { IsTrue result ↔ Reaches (first_level level) shown }
{
    let Some(shown) = shown else {
        return true;
    };
    match level {
        Level::Plain | Level::Prefix(_) => true,
        Level::Postfix(n) | Level::InfixLeft(n) => u32::from(n) <= shown,
        Level::InfixRight(n) | Level::InfixNone(n) => u32::from(n) < shown,
    }
}

/// Returns the least level of a slot that is not an operator's first item. Its last argument is the items after the
/// slot.
pub(crate) fn slot_least(operator: &Operator, phylum: u32, behind: &[Item]) -> u32
    ensures { result ≡ slot_level operator.now (OfPhylum phylum) false (solid behind.now) }
{
    if phylum != operator.phylum {
        return 0;
    }
    if !without_marks(behind).is_empty() {
        return 0;
    }
    match operator.level {
        Level::Plain | Level::Postfix(_) => 0,
        Level::Prefix(n) | Level::InfixRight(n) => u32::from(n),
        Level::InfixLeft(n) | Level::InfixNone(n) => u32::from(n) + 1,
    }
}

/// Reads the next of the items of an operator that are left, or finishes the operator where none is.
pub(crate) fn parts<'a>(
    alloc: Global,
    definition: &'a Definition,
    lexis: &Lexis,
    operator: &'a Operator,
    built: Built,
    more: &'a [Item],
    stack: Vec<Frame<'a>>,
    rest: &'a [Spanned],
) -> Result<Step<'a>, AllocError>
    requires class { IsClass definition.now }
    requires words { lexis.now ≡ fixed_words definition.now }
    ensures leads { IfOk result (λ s. (st : List Plain) (f : Fragment) (n : ℕ) → IsStack stack.entry.items st
        → IsPartly built f n
        → Steps definition.now (running (reading operator.now false f n (solid more.now))) st (tokens_of rest.now) s) }
    ensures falls { IfOk result (Falls (length rest.now) (4 * length more.now + 1 + stack_work stack.entry.items)) }
{
    let mut stack = stack;
    let Some((item, behind)) = without_marks(more).split_first() else {
        let tree = built.finish(alloc)?;
        return Ok(Step::Go(State {
            mode: Mode::Give { tree },
            stack,
            rest,
        }));
    };
    if let Item::Slot(kind) = item {
        let mode = match *kind {
            Kind::Phylum(phylum) => Mode::Start {
                phylum,
                least: slot_least(operator, phylum, behind),
            },
            Kind::List(list) => Mode::List { list },
        };
        stack.push(Frame::Parts {
            operator,
            built,
            more: behind,
        })?;
        return Ok(Step::Go(State { mode, stack, rest }));
    }
    let Some((spanned, others)) = rest.split_first() else {
        return Ok(Step::NoTree);
    };
    if !takes(item, see(definition, lexis, &spanned.token)) {
        return Ok(Step::NoTree);
    }
    let built = built.with_token(item, &spanned.token)?;
    Ok(Step::Go(State {
        mode: Mode::Parts {
            operator,
            built,
            more: behind,
        },
        stack,
        rest: others,
    }))
}
