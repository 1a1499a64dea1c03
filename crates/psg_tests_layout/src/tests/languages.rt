//! MINI, and what is read in it.
ghost use Rattle.std.specs.Prelude.{◌≡◌, ◌<◌, ◌≤◌, IfOk};
ghost use Rattle.psg_grammar.specs.Sound.{IsSound};
ghost use Rattle.psg_grammar.specs.WellFormed.{WellFormed};
ghost use Rattle.psg_grammar.specs.declared.types.Kind.{Kind};
ghost use Rattle.psg_grammar.specs.declared.limits.TheConstants.{MOST_BRACKETS};
ghost use Rattle.psg_class.specs.Class.{IsClass};

use psg_class::class_check;
use psg_defread::read_definition;
use psg_grammar::{Definition, kind_named};
use psg_langs::MINI;
use psg_layout::{LayoutFault, arrange, read_layout};
use psg_lexis::{Lexis, Spanned, lex};
use psg_parse::{Goal, ParseFault, fixed_words, parse};
use psg_terms::Steps;
use psg_tree::Tree;
use psg_unparse::{Printed, Span};
use std::alloc::{AllocError, Global};
use std::marker::Brand;
use std::sync::ledger::{Blank, Ledger};

/// The definition of MINI.
pub(super) fn mini(alloc: Global) -> Result<Definition, AllocError>
    ensures sound { IfOk result IsSound }
    ensures class { IfOk result IsClass }
{
    let Ok(definition) = read_definition(alloc, MINI.as_bytes()) else {
        return Err(AllocError);
    };
    match class_check(alloc, &definition) {
        Ok(()) => Ok(definition),
        Err(_) => Err(AllocError),
    }
}

fn tokens(alloc: Global, definition: &Definition, text: &str) -> Result<Vec<Spanned>, AllocError>
    requires { IsSound definition.now }
{
    let words = fixed_words(alloc, definition)?;
    let lexis = Lexis::new(alloc, words.as_slice())?;
    match lex(alloc, &lexis, text) {
        Ok(tokens) => Ok(tokens),
        Err(_) => Err(AllocError),
    }
}

fn counted<L: Ledger>(
    alloc: Global,
    definition: &Definition,
    goal: Goal,
    tokens: &[Spanned],
    ledger: Blank,
) -> Result<Tree, ParseFault>
    requires sound { IsSound definition.now }
    requires class { IsClass definition.now }
    requires around { goal.around ≤ MOST_BRACKETS }
    requires name { ledger.name ≡ L.name }
    requires parts { ledger.parts ≡ L.parts }
    requires some { 0 < L.parts }
    ensures { IfOk result (λ tree. WellFormed definition.now tree goal.kind) }
{
    let mut steps = Steps::<L>::of(ledger);
    let tree = parse(alloc, definition, goal, tokens, &mut steps)?;
    Ok(tree)
}

/// The tree of a program of the kind of this name.
pub(super) fn tree(
    alloc: Global,
    definition: &Definition,
    kind: &str,
    program: &str,
) -> Result<Tree, AllocError>
    requires sound { IsSound definition.now }
    requires class { IsClass definition.now }
    ensures { IfOk result (λ tree. (kind : Kind) × WellFormed definition.now tree kind) }
{
    let kind = kind_named(definition, kind).ok_or(AllocError)?;
    let goal = Goal {
        kind,
        least: 0,
        around: 0,
    };
    let tokens = tokens(alloc, definition, program)?;
    match counted::<Brand>(alloc, definition, goal, tokens.as_slice(), Blank::new(1)) {
        Ok(tree) => Ok(tree),
        Err(_) => Err(AllocError),
    }
}

/// A program arranged for the columns by the layout of this file.
pub(super) fn arranged(
    alloc: Global,
    definition: &Definition,
    file: &str,
    tree: &Tree,
    cols: u32,
) -> Result<Printed, AllocError>
    requires sound { IsSound definition.now }
    requires formed { (kind : Kind) × WellFormed definition.now tree.now kind }
{
    if file.len() > 65_536 {
        return Err(AllocError);
    }
    match read_layout(alloc, definition, file.as_bytes()) {
        Ok(layout) => arrange(alloc, definition, &layout, tree, cols),
        Err(_) => Err(AllocError),
    }
}

/// The refusal of a layout's file, as `1 code 2`, or `read`.
pub(super) fn refusal(
    alloc: Global,
    definition: &Definition,
    bytes: &[u8],
) -> Result<String, AllocError>
    requires { IsSound definition.now }
{
    if bytes.len() > 65_536 {
        return Err(AllocError);
    }
    match read_layout(alloc, definition, bytes) {
        Ok(_) => String::from_str(alloc, "read"),
        Err(LayoutFault::Line { line, code }) => format!(in alloc; "{line} code {code}"),
        Err(LayoutFault::Memory) => Err(AllocError),
    }
}

/// The spans as one text, as `/ 0 5, /0 0 1, /1 4 5`.
pub(super) fn spans_shown(alloc: Global, spans: &[Span]) -> Result<String, AllocError> {
    let mut out = String::new(alloc);
    for span in spans {
        if !out.is_empty() {
            out.push_str(", ")?;
        }
        if span.path.steps().is_empty() {
            out.push('/')?;
        }
        for step in span.path.steps() {
            write!(out, "/{step}")?;
        }
        write!(out, " {} {}", span.start, span.end)?;
    }
    Ok(out)
}
