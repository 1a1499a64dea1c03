//! What the new region of a node is read as.
ghost use Rattle.std.specs.Prelude.{◌≡◌, ◌+◌, ◌≤◌, ◌↔◌, IfNone, IfOk, IfSome, IsTrue, length};
ghost use Rattle.psg_class.specs.Texts.{HasNoTokens, TextTokens};
ghost use Rattle.psg_lexis.specs.declared.token.LexFault.{LexFault};
ghost use Rattle.psg_grammar.specs.declared.limits.TheConstants.{MOST_BRACKETS};
ghost use Rattle.psg_textedit.specs.Typing.{IsFaultReading, IsNodeAnswer, IsParsedAs, IsReader};
ghost use Rattle.psg_textedit.specs.Typing.{HasRead, MayRead, definition_of};

use crate::change::Reader;
use crate::spans::is_apart;
use psg_lexis::{LexFault, Spanned, lex};
use psg_parse::{Goal, ParseFault, parse_with};
use psg_terms::Steps;
use psg_tree::Tree;
use std::alloc::{AllocError, Global};
use std::sync::ledger::Ledger;

/// What the new region of a node is read as: a tree that fits in the place of the node and is within the limits, one
/// that is past a limit, or none that fits.
#[derive(Drop)]
pub(crate) enum Reading {
    Clean(Tree),
    Deep,
    Unclean,
}

/// The tokens of the new lines, and the bytes of these that are a node's new region.
#[derive(Clone, Copy)]
pub(crate) struct Region<'a> {
    pub(crate) all: &'a [Spanned],
    pub(crate) start: usize,
    pub(crate) end: usize,
}

/// Reads the tokens of the text; `None` where the text has none because of a fault.
pub(crate) fn tokens_in(
    alloc: Global,
    reader: &Reader<'_>,
    text: &str,
) -> Result<Option<Vec<Spanned>>, AllocError>
    requires reader { IsReader reader.now }
    ensures some { IfOk result (λ o. IfSome o (λ ts. TextTokens (definition_of reader.now) text.now ts.items)) }
    ensures none { IfOk result (λ o. IfNone o (HasNoTokens (definition_of reader.now) text.now)) }
{
    match lex(alloc, reader.lexis, text) {
        Ok(tokens) => Ok(Some(tokens)),
        Err(fault) => {
            if is_memory(fault) {
                return Err(AllocError);
            }
            Ok(None)
        }
    }
}

/// Says whether the fault is that memory ran out.
fn is_memory(fault: LexFault) -> bool
    ensures { IsTrue result ↔ (fault ≡ LexFault.Memory) }
{
    match fault {
        LexFault::Memory => true,
        _ => false,
    }
}

/// Returns what tokens are read as that are not parsed for this fault.
fn reading_of(fault: ParseFault) -> Result<Reading, AllocError>
    ensures { IfOk result (IsFaultReading fault) }
{
    match fault {
        ParseFault::NoTree => Ok(Reading::Unclean),
        ParseFault::Deep => Ok(Reading::Deep),
        ParseFault::Memory => Err(AllocError),
    }
}

/// Parses the tokens. It takes a step for each token at most.
fn parsed<L: Ledger>(
    alloc: Global,
    reader: &Reader<'_>,
    goal: Goal,
    tokens: &[Spanned],
    steps: &mut Steps<L>,
) -> Result<Reading, AllocError>
    requires reader { IsReader reader.now }
    requires around { goal.around ≤ MOST_BRACKETS }
    ensures reading { IfOk result (IsParsedAs (definition_of reader.now) goal tokens.now) }
    ensures steps { steps.new ≤ steps.old + length tokens.now }
{
    let tree = parse_with(alloc, reader.definition, reader.table, goal, tokens, steps);
    match tree {
        Ok(tree) => Ok(Reading::Clean(tree)),
        Err(fault) => {
            let reading = reading_of(fault)?;
            Ok(reading)
        }
    }
}

/// Reads the new region of a node by itself, and returns what it is read as in its place. It counts a step for each
/// token of the region at most.
pub(crate) fn read_region<L: Ledger>(
    alloc: Global,
    reader: &Reader<'_>,
    region: &Region<'_>,
    goal: Goal,
    text: &str,
    steps: &mut Steps<L>,
) -> Result<Reading, AllocError>
    requires reader { IsReader reader.now }
    requires around { goal.around ≤ MOST_BRACKETS }
    ensures answer { IfOk result
        (IsNodeAnswer (definition_of reader.now) goal region.now.all.now region.now.start region.now.end text.now) }
    ensures counted { IfOk result (λ _. HasRead (definition_of reader.now) text.now steps.old steps.new) }
    ensures steps { MayRead (definition_of reader.now) text.now steps.old steps.new }
{
    let Some(tokens) = tokens_in(alloc, reader, text)? else {
        return Ok(Reading::Unclean);
    };
    if !is_apart(region.all, region.start) {
        return Ok(Reading::Unclean);
    }
    if !is_apart(region.all, region.end) {
        return Ok(Reading::Unclean);
    }
    let reading = parsed(alloc, reader, goal, tokens.as_slice(), steps)?;
    Ok(reading)
}
