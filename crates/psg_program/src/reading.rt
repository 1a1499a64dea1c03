//! The program that bytes are.
ghost use Rattle.std.specs.Prelude.{◌≡◌, ◌↔◌, ◌≤◌, ◌+◌, IfErr, IfOk, IsTrue, length, take};
ghost use Rattle.std.specs.Str.{IsValidUpTo};
ghost use Rattle.psg_class.specs.Texts.{TextTokens, tokens_of};
ghost use Rattle.psg_grammar.specs.Kinds.{HasKind};
ghost use Rattle.psg_grammar.specs.Sizes.{HasLongList, IsBig};
ghost use Rattle.psg_parse.specs.Answers.{IsFault};
ghost use Rattle.psg_parse.specs.Stops.{MayEnd};
ghost use Rattle.psg_program.specs.Decoding.{unmarked as unmarked_of};
ghost use Rattle.psg_program.specs.Programs.{HasCounted, IsProgram, IsProgramFault, IsProgramText, IsReadFrom};
ghost use Rattle.psg_program.specs.Messages.{large_message, no_utf8_message};
ghost use Rattle.psg_program.specs.Programs.{IsStopOf, IsTextFault, IsToldAt, goal_of};

use crate::decoding::unmarked;
use crate::expected::expected_words;
use crate::fault::{ProgramFault, SyntaxError};
use crate::messages::{lexical_fault, stop_byte, stop_message, told_at};
use crate::places::place_of;
use psg_grammar::{Kind, MOST_ELEMENTS, MOST_NODES};
use psg_lexis::{Spanned, lex};
use psg_parse::{Goal, ParseFault, parse_with};
use psg_specimen::Language;
use psg_stop::laws::{endable, trees};
use psg_stop::{Stop, find_stop};
use psg_terms::Steps;
use psg_tree::{Tree, longest_list, nodes};
use std::alloc::{AllocError, Global};
use std::sync::ledger::Ledger;

/// A program that was read from a text.
#[derive(Drop)]
pub struct Program {
    /// The tree.
    pub tree: Tree,
    /// The tokens of the text.
    pub tokens: Vec<Spanned>,
}

/// Says whether a list of the tree has too many elements. It takes one step.
#[tactic(auto, using(psg_cache::proofs::LongLists::long_lists))]
fn has_long_list(tree: &Tree) -> bool
    ensures { IsTrue result ↔ HasLongList tree.now }
{
    longest_list(tree) > MOST_ELEMENTS
}

/// Says whether the tree has too many nodes, or a list of it too many elements. It takes one step.
fn is_big(tree: &Tree) -> bool
    ensures { IsTrue result ↔ IsBig tree.now }
{
    if nodes(tree) > MOST_NODES {
        return true;
    }
    has_long_list(tree)
}

/// Returns the goal of a program of the kind, with no brackets around it.
fn whole(kind: Kind) -> Goal
    ensures { result ≡ goal_of kind }
{
    Goal {
        kind,
        least: 0,
        around: 0,
    }
}

/// Finds where the tokens stop to begin a program of the kind, and what may be there.
fn stop_of(
    alloc: Global,
    language: &Language,
    kind: Kind,
    tokens: &[Spanned],
) -> Result<Stop, AllocError>
    requires kind { HasKind language.now kind }
    ensures { IfOk result (IsStopOf language.now kind (tokens_of tokens.now)) }
{
    let definition = language.definition();
    endable(definition);
    trees(definition);
    let stop = find_stop(alloc, definition, language.table(), whole(kind), tokens)?;
    Ok(stop)
}

/// Returns the error of a text whose tokens are no program of the kind.
fn stop_error(
    alloc: Global,
    language: &Language,
    kind: Kind,
    text: &str,
    tokens: &[Spanned],
) -> Result<SyntaxError, AllocError>
    requires kind { HasKind language.now kind }
    requires tokens { TextTokens language.now text.now tokens.now }
    requires none { MayEnd language.now kind 0 (tokens_of tokens.now) → ⊥ }
    ensures { IfOk result (λ e. IsTextFault language.now kind text.now (ProgramFault.Syntax e)) }
{
    let stop = stop_of(alloc, language, kind, tokens)?;
    let words = expected_words(alloc, language.definition(), &stop)?;
    let message = stop_message(alloc, text, tokens, stop.tokens, words.as_slice())?;
    let place = place_of(text, stop_byte(tokens, stop.tokens));
    Ok(SyntaxError { place, message })
}

/// Returns the fault of a text whose tokens are no program of the kind.
fn stop_fault(
    alloc: Global,
    language: &Language,
    kind: Kind,
    text: &str,
    tokens: &[Spanned],
) -> ProgramFault
    requires kind { HasKind language.now kind }
    requires tokens { TextTokens language.now text.now tokens.now }
    requires none { MayEnd language.now kind 0 (tokens_of tokens.now) → ⊥ }
    ensures { IsTextFault language.now kind text.now result }
{
    match stop_error(alloc, language, kind, text, tokens) {
        Ok(error) => ProgramFault::Syntax(error),
        Err(_) => ProgramFault::Memory,
    }
}

/// Returns the fault of a text whose tokens are not read as a tree for this reason.
fn parse_fault(
    alloc: Global,
    language: &Language,
    kind: Kind,
    text: &str,
    tokens: &[Spanned],
    fault: ParseFault,
) -> ProgramFault
    requires kind { HasKind language.now kind }
    requires tokens { TextTokens language.now text.now tokens.now }
    requires fault { IsFault language.now (goal_of kind) tokens.now fault }
    ensures { IsTextFault language.now kind text.now result }
{
    match fault {
        ParseFault::NoTree => stop_fault(alloc, language, kind, text, tokens),
        ParseFault::Deep => told_at(alloc, text, 0, "the program is too deep"),
        ParseFault::Memory => ProgramFault::Memory,
    }
}

/// Returns the program with the tree, if it is not too large.
fn within(
    alloc: Global,
    text: &str,
    tree: Tree,
    tokens: Vec<Spanned>,
) -> Result<Program, ProgramFault>
    ensures program { IfOk result (λ p. (p.tree ≡ tree) × (p.tokens ≡ tokens) × (IsBig tree → ⊥)) }
    ensures fault { IfErr result (λ fault. IsBig tree × IsToldAt text.now 0 large_message fault) }
{
    let big = is_big(&tree);
    if big {
        return Err(told_at(alloc, text, 0, "the program is too large"));
    }
    Ok(Program { tree, tokens })
}

/// Reads the tokens of the text as a program of the kind.
fn read_tokens<L: Ledger>(
    alloc: Global,
    language: &Language,
    kind: Kind,
    text: &str,
    tokens: Vec<Spanned>,
    steps: &mut Steps<L>,
) -> Result<Program, ProgramFault>
    requires kind { HasKind language.now kind }
    requires tokens { TextTokens language.now text.now tokens.items }
    ensures program { IfOk result (λ p. IsProgramText language.now kind text.now p.tree) }
    ensures read { IfOk result (IsReadFrom language.now kind text.now) }
    ensures fault { IfErr result (IsTextFault language.now kind text.now) }
    ensures steps { steps.new ≤ steps.old + length tokens.items }
{
    let row = tokens.as_slice();
    let definition = language.definition();
    match parse_with(alloc, definition, language.table(), whole(kind), row, steps) {
        Ok(tree) => within(alloc, text, tree, tokens),
        Err(fault) => Err(parse_fault(alloc, language, kind, text, row, fault)),
    }
}

/// Reads the text as a program of the kind.
fn read_text<L: Ledger>(
    alloc: Global,
    language: &Language,
    kind: Kind,
    text: &str,
    steps: &mut Steps<L>,
) -> Result<Program, ProgramFault>
    requires kind { HasKind language.now kind }
    ensures program { IfOk result (λ p. IsProgramText language.now kind text.now p.tree) }
    ensures read { IfOk result (IsReadFrom language.now kind text.now) }
    ensures fault { IfErr result (IsTextFault language.now kind text.now) }
    ensures steps { HasCounted language.now text.now steps.old steps.new }
{
    let tokens = match lex(alloc, language.lexis(), text) {
        Ok(tokens) => tokens,
        Err(fault) => return Err(lexical_fault(alloc, text, fault)),
    };
    read_tokens(alloc, language, kind, text, tokens, steps)
}

/// Returns the fault of bytes of which that many are the longest text at their beginning, and more follow.
fn no_text(alloc: Global, bytes: &[u8], count: usize) -> ProgramFault
    requires { IsValidUpTo bytes.now count }
    ensures { IsToldAt (take count bytes.now) count no_utf8_message result }
{
    let Ok(text) = str::from_utf8(&bytes[..count]) else {
        unreachable!()
    };
    told_at(alloc, text, count, "this is no UTF-8")
}

/// Reads the bytes of a file as a program of the kind. Where they are none, the fault says what is wrong first, and at
/// which line and column. The order of tests is: the bytes after a byte order mark are UTF-8, the text has tokens, the
/// tokens are a program of the kind, it is at most 200 deep and its brackets nest at most 400 deep, and it has at most
/// 20,000 nodes and each list of it at most 4,096 elements.
///
/// Where the tokens are no program, the place is where they stop to begin one, and the message says what is there and
/// all that may be there. `Memory` is returned where memory runs out, at any time. It takes a step of the counter for
/// each token, and work linear in the bytes; where the tokens are no program, as much again for each fixed word and
/// each phylum of the definition.
pub fn read_program<L: Ledger>(
    alloc: Global,
    language: &Language,
    kind: Kind,
    bytes: &[u8],
    steps: &mut Steps<L>,
) -> Result<Program, ProgramFault>
    requires kind { HasKind language.now kind }
    ensures program { IfOk result (λ p. IsProgram language.now kind bytes.now p.tree) }
    ensures read { IfOk result (IsReadFrom language.now kind (unmarked_of bytes.now)) }
    ensures fault { IfErr result (IsProgramFault language.now kind bytes.now) }
    ensures steps { HasCounted language.now (unmarked_of bytes.now) steps.old steps.new }
{
    let own = unmarked(bytes);
    match str::from_utf8(own) {
        Ok(text) => read_text(alloc, language, kind, text, steps),
        Err(fault) => Err(no_text(alloc, own, fault.valid_up_to())),
    }
}
