//! The first filling with which a text is a program.
ghost use Rattle.std.specs.Prelude.{◌≡◌, ◌↔◌, ◌<◌, ◌≤◌, IfNone, IfOk, IfSome, IsTrue};
ghost use Rattle.std.specs.Prelude.{IsUtf8, List, Some, length, slice_get};
ghost use Rattle.psg_class.specs.Class.{IsClass};
ghost use Rattle.psg_class.specs.Texts.{TextTokens};
ghost use Rattle.psg_grammar.specs.Fragments.{Fragment};
ghost use Rattle.psg_grammar.specs.Paths.{node_at};
ghost use Rattle.psg_grammar.specs.Sizes.{HasLongList, IsBig};
ghost use Rattle.psg_lexis.specs.declared.token.Spanned.{Spanned as PlainSpanned};
ghost use Rattle.psg_completing.specs.Fillings.{Fits, IsFirst, fillings as all_fillings};
ghost use Rattle.psg_completing.specs.Fitted as fitted;
ghost use Rattle.psg_completing.specs.Fitted.{HasNoPlaceholder, IsFitted, IsPlaceholderIn, IsRead, IsReadAs, IsTreeOf};
ghost use Rattle.psg_completing.specs.Fitted.{filling_in};
ghost use Rattle.psg_program.specs.Programs.{IsProgramText, goal_of};

use crate::around::Word;
use crate::fillings::{Filling, filled, fillings};
use psg_grammar::{Kind, MOST_ELEMENTS, MOST_NODES};
use psg_lexis::{LexFault, Spanned, lex};
use psg_parse::{Goal, ParseFault, parse_with};
use psg_pointing::pointed;
use psg_program::Program;
use psg_ranges::ranges_of;
use psg_specimen::Language;
use psg_terms::Steps;
use psg_tree::{Path, Shape, Tree, at, longest_list, nodes};
use std::alloc::{AllocError, Global};
use std::sync::ledger::Ledger;

/// A program that was read with a filling, and the path of its placeholder.
#[derive(Drop)]
pub(crate) struct Fitted {
    pub(crate) filling: Filling,
    pub(crate) program: Program,
    pub(crate) path: Path,
}

/// Says whether there was no memory for the tokens.
fn is_lost(fault: LexFault) -> bool
    ensures { result ≡ fitted.is_lost fault }
{
    match fault {
        LexFault::Memory => true,
        _ => false,
    }
}

/// Says whether there was no memory for the tree.
fn is_lost_parse(fault: ParseFault) -> bool
    ensures { result ≡ fitted.is_lost_parse fault }
{
    match fault {
        ParseFault::Memory => true,
        _ => false,
    }
}

/// Shows that the definition is of the grammar class.
fn class_of(language: &Language)
    ensures { IsClass language.now }
{
    let _definition = language.definition();
}

/// Returns the tokens of the text, if it has tokens.
fn tokens_in(
    alloc: Global,
    language: &Language,
    text: &str,
) -> Result<Option<Vec<Spanned>>, AllocError>
    ensures some { IfOk result (λ o. IfSome o (λ ts. TextTokens language.now text.now ts.items)) }
    ensures none { IfOk result (λ o. IfNone o
        ((ts : List PlainSpanned) → TextTokens language.now text.now ts → ⊥)) }
{
    match lex(alloc, language.lexis(), text) {
        Ok(tokens) => Ok(Some(tokens)),
        Err(fault) => {
            let lost = is_lost(fault);
            if lost {
                return Err(AllocError);
            }
            Ok(None)
        }
    }
}

/// Says whether a list of the tree has too many elements. It takes one step.
#[tactic(auto, using(psg_cache::proofs::LongLists::long_lists))]
fn has_long_list(tree: &Tree) -> bool
    ensures { IsTrue result ↔ HasLongList tree.now }
{
    longest_list(tree) > MOST_ELEMENTS
}

/// Says whether the tree has too many nodes, or a list of it too many elements. It takes one step.
fn is_big(tree: &Tree) -> bool
    ensures { IsTrue result ↔ IsBig tree.now }
{
    if nodes(tree) > MOST_NODES {
        return true;
    }
    has_long_list(tree)
}

/// A program of the kind, with no brackets around it.
fn whole(kind: Kind) -> Goal
    ensures { result ≡ goal_of kind }
{
    Goal {
        kind,
        least: 0,
        around: 0,
    }
}

/// Returns the tree of the kind that the tokens are, if they are one within the limits.
fn tree_in<L: Ledger>(
    alloc: Global,
    language: &Language,
    kind: Kind,
    tokens: &[Spanned],
    steps: &mut Steps<L>,
) -> Result<Option<Tree>, AllocError>
    ensures some { IfOk result (λ o. IfSome o (IsTreeOf language.now kind tokens.now)) }
    ensures none { IfOk result (λ o. IfNone o
        ((f : Fragment) → IsTreeOf language.now kind tokens.now f → ⊥)) }
{
    let definition = language.definition();
    match parse_with(
        alloc,
        definition,
        language.table(),
        whole(kind),
        tokens,
        steps,
    ) {
        Ok(tree) => {
            let big = is_big(&tree);
            if big {
                return Ok(None);
            }
            Ok(Some(tree))
        }
        Err(fault) => {
            let lost = is_lost_parse(fault);
            if lost {
                return Err(AllocError);
            }
            Ok(None)
        }
    }
}

/// Returns the program of the kind that the tokens are, if they are one within the limits.
fn program_by<L: Ledger>(
    alloc: Global,
    language: &Language,
    kind: Kind,
    tokens: Vec<Spanned>,
    steps: &mut Steps<L>,
) -> Result<Option<Program>, AllocError>
    ensures some { IfOk result (λ o. IfSome o (λ p. (p.tokens ≡ tokens)
        × IsTreeOf language.now kind tokens.items p.tree)) }
    ensures none { IfOk result (λ o. IfNone o
        ((f : Fragment) → IsTreeOf language.now kind tokens.items f → ⊥)) }
{
    let row = tokens.as_slice();
    let found = tree_in(alloc, language, kind, row, steps)?;
    match found {
        Some(tree) => Ok(Some(Program { tree, tokens })),
        None => Ok(None),
    }
}

/// Returns the program of the kind that the text is, if it is one within the limits.
fn program_of<L: Ledger>(
    alloc: Global,
    language: &Language,
    kind: Kind,
    text: &str,
    steps: &mut Steps<L>,
) -> Result<Option<Program>, AllocError>
    ensures some { IfOk result (λ o. IfSome o (IsReadAs language.now kind text.now)) }
    ensures none { IfOk result (λ o. IfNone o
        ((f : Fragment) → IsProgramText language.now kind text.now f → ⊥)) }
{
    class_of(language);
    let found = tokens_in(alloc, language, text)?;
    match found {
        Some(tokens) => {
            let program = program_by(alloc, language, kind, tokens, steps)?;
            Ok(program)
        }
        None => Ok(None),
    }
}

/// Returns the program of the kind that the bytes are, if they are one within the limits.
fn program_in<L: Ledger>(
    alloc: Global,
    language: &Language,
    kind: Kind,
    bytes: &[u8],
    steps: &mut Steps<L>,
) -> Result<Option<Program>, AllocError>
    ensures some { IfOk result (λ o. IfSome o (IsRead language.now kind bytes.now)) }
    ensures none { IfOk result (λ o. IfNone o
        ((f : Fragment) → IsUtf8 bytes.now → IsProgramText language.now kind bytes.now f → ⊥)) }
{
    match str::from_utf8(bytes) {
        Ok(text) => {
            let program = program_of(alloc, language, kind, text, steps)?;
            Ok(program)
        }
        Err(_) => Ok(None),
    }
}

/// Says whether the node is a placeholder of the phylum.
fn is_hole(node: &Tree, phylum: u32) -> bool
    ensures { result ≡ fitted.is_hole phylum node.now }
{
    match node.shape() {
        Shape::Hole { phylum: own } => *own == phylum,
        Shape::List { .. } => false,
        Shape::Op { .. } => false,
    }
}

/// Says whether the path leads to a placeholder of the phylum.
fn is_hole_at(tree: &Tree, path: &Path, phylum: u32) -> bool
    ensures { result ≡ fitted.is_hole_by phylum (node_at tree.now path.now) }
{
    match at(tree, path) {
        Some(node) => is_hole(node, phylum),
        None => false,
    }
}

/// Returns the path of the node of the tree at the byte, if that is a placeholder of the phylum. The tokens are those
/// of the tree.
fn placeholder_at(
    alloc: Global,
    language: &Language,
    kind: Kind,
    program: &Program,
    byte: usize,
    phylum: u32,
) -> Result<Option<Path>, AllocError>
    ensures some { IfOk result (λ o. IfSome o (IsPlaceholderIn language.now kind program.now.tokens.items
        program.now.tree byte phylum)) }
    ensures none { IfOk result (λ o. IfNone o (HasNoPlaceholder language.now kind program.now.tokens.items
        program.now.tree byte phylum)) }
{
    let tokens = program.tokens.as_slice();
    let definition = language.definition();
    let ranges = ranges_of(alloc, definition, kind, &program.tree, tokens)?;
    let all = ranges.all();
    let found = pointed(alloc, tokens, byte, all)?;
    match found {
        Some(path) => {
            let hole = is_hole_at(&program.tree, &path, phylum);
            if hole {
                return Ok(Some(path));
            }
            Ok(None)
        }
        None => Ok(None),
    }
}

/// Returns the program that was read with the filling, if its placeholder is at the byte.
fn fitted_in(
    alloc: Global,
    language: &Language,
    kind: Kind,
    filling: Filling,
    program: Program,
    byte: usize,
) -> Result<Option<Fitted>, AllocError>
    ensures some { IfOk result (λ o. IfSome o (λ fit. (fit.filling ≡ filling) × (fit.program ≡ program)
        × IsPlaceholderIn language.now kind program.tokens.items program.tree byte filling.phylum fit.path)) }
    ensures none { IfOk result (λ o. IfNone o
        (HasNoPlaceholder language.now kind program.tokens.items program.tree byte filling.phylum)) }
{
    let found = placeholder_at(alloc, language, kind, &program, byte, filling.phylum)?;
    match found {
        Some(path) => Ok(Some(Fitted {
            filling,
            program,
            path,
        })),
        None => Ok(None),
    }
}

/// Returns the program with the filling in place of the word, if the text is one then, and the placeholder is at its
/// byte.
fn fit_of<L: Ledger>(
    alloc: Global,
    language: &Language,
    kind: Kind,
    own: &[u8],
    word: Word,
    filling: Filling,
    steps: &mut Steps<L>,
) -> Result<Option<Fitted>, AllocError>
    requires from { word.from ≤ length own.now }
    requires to { word.to ≤ length own.now }
    ensures some { IfOk result (λ o. IfSome o (IsFitted language.now kind own.now word filling)) }
    ensures none { IfOk result (λ o. IfNone o (Fits language.now kind own.now word filling → ⊥)) }
{
    class_of(language);
    let definition = language.definition();
    let trial = filled(alloc, definition, own, word, filling)?;
    let bytes = trial.text.as_slice();
    let found = program_in(alloc, language, kind, bytes, steps)?;
    match found {
        Some(program) => {
            let fitted = fitted_in(alloc, language, kind, filling, program, trial.byte)?;
            Ok(fitted)
        }
        None => Ok(None),
    }
}

/// Returns the filling of the number.
fn filling_at(row: &[Filling], number: usize) -> Filling
    requires { number < length row.now }
    ensures { slice_get row.now number ≡ Some result }
{
    row[number]
}

/// Returns the program with the first filling that fits in place of the word, if one fits. It takes a reading of the
/// text for each filling up to that one.
pub(crate) fn first_fit<L: Ledger>(
    alloc: Global,
    language: &Language,
    kind: Kind,
    own: &[u8],
    word: Word,
    steps: &mut Steps<L>,
) -> Result<Option<Fitted>, AllocError>
    requires from { word.from ≤ length own.now }
    requires to { word.to ≤ length own.now }
    ensures fitted { IfOk result (λ o. IfSome o (λ fit. IsFitted language.now kind own.now word fit.filling fit)) }
    ensures first { IfOk result (λ o. IsFirst (Fits language.now kind own.now word) (all_fillings language.now)
        (filling_in o)) }
{
    let definition = language.definition();
    let all = fillings(alloc, definition)?;
    let row = all.as_slice();
    for number in 0..row.len() {
        let put = filling_at(row, number);
        let found = fit_of(alloc, language, kind, own, word, put, steps)?;
        match found {
            Some(fit) => return Ok(Some(fit)),
            None => {}
        }
    }
    Ok(None)
}
