//! The operators and the names that may be put at a place of the opened fragment.
ghost use Rattle.std.specs.Prelude.{◌≡◌, ◌<◌, ◌∷◌, [], ℕ, Some, None, length, map, IfOk, MatchOption};
ghost use Rattle.psg_terms.specs.Relations.{IsIn};
ghost use Rattle.psg_grammar.specs.declared.types.Kind.{Kind};
ghost use Rattle.psg_grammar.specs.Kinds.{op_name_of};
ghost use Rattle.psg_grammar.specs.Paths.{node_at};
ghost use Rattle.psg_grammar.specs.Sound.{IsSound};
ghost use Rattle.psg_cache.specs.Annotated.{tree_in};
ghost use Rattle.psg_script.specs.declared.command.Command.TheVariants as commands;
ghost use Rattle.psg_session.specs.Answers.{names_line as names_line_of};
ghost use Rattle.psg_session.specs.Replies.{answered};
ghost use Rattle.psg_session.specs.Views.{reply_of};
ghost use Rattle.psg_session.specs.Offering.{IsNamingAnswer, IsSite};
ghost use Rattle.psg_session.specs.Outcomes.{IfFound, IsOutcome};
ghost use Rattle.psg_session.specs.PlainState.{not_asked};
ghost use Rattle.psg_session.specs.PlainStep.{HasNoPlace};
ghost use Rattle.psg_session.specs.Refusals.{place_test};
ghost use Rattle.psg_session.specs.Sessions.{state_of, IsEditor, IsVersion};
ghost use Rattle.psg_session.specs.Ticks.{HasTicked};
ghost use Rattle.psg_session.specs.Views.{IsLanguage};

use crate::changes::{as_list, hole_phylum};
use crate::editor::{Editor, Outcome};
use crate::finding::{Target, find};
use crate::gathering::names_in;
use crate::questions::names_line;
use crate::refusal::Refusal;
use crate::replies::Reply;
use crate::stop::Stop;
use psg_eval::Frame;
use psg_grammar::{Definition, name_positions, op_named};
use psg_menu::{names, operators};
use psg_script::Where;
use psg_specimen::LanguageParts;
use psg_terms::{Steps, Txt};
use std::alloc::{AllocError, Global};
use std::sync::ledger::Ledger;

/// Where an operator is tried: the phylum that is wanted, and the frames around the place.
#[derive(Drop)]
pub struct Site {
    /// The number of the phylum that an operator there must have.
    pub phylum: u32,
    /// The frames from the place up to the root, the innermost first.
    pub around: Vec<Frame>,
}

/// Gives the site of the placeholder that the node is, if it is one.
fn hole_site(
    alloc: Global,
    definition: &Definition,
    found: Target,
) -> Result<Option<Site>, AllocError>
    requires version { (kind : Kind) × IsVersion definition.now kind found.held.now.note }
    requires node { node_at (tree_in found.held.now.note) found.path.now ≡ Some found.node.now }
    ensures { IfOk result (λ o. MatchOption o (HasNoPlace definition.now None found.entry.node.now)
        (IsSite definition.now (tree_in found.entry.held.now.note) found.entry.path.now None found.entry.node.now)) }
{
    let Some(phylum) = hole_phylum(found.node) else {
        return Ok(None);
    };
    let framed = found.held.note.frames(alloc, found.path)?;
    // the note has frames around each node
    let Some(around) = framed else { unreachable!() };
    Ok(Some(Site { phylum, around }))
}

/// Gives the site before the element of this number, where the node is a list with at least that many elements.
fn element_site(
    alloc: Global,
    definition: &Definition,
    found: Target,
    number: u32,
) -> Result<Option<Site>, AllocError>
    requires sound { IsSound definition.now }
    requires version { (kind : Kind) × IsVersion definition.now kind found.held.now.note }
    requires node { node_at (tree_in found.held.now.note) found.path.now ≡ Some found.node.now }
    ensures { IfOk result (λ o. MatchOption o (HasNoPlace definition.now (Some number) found.entry.node.now)
        (IsSite definition.now (tree_in found.entry.held.now.note) found.entry.path.now
        (Some number) found.entry.node.now)) }
{
    let Some(list) = as_list(definition, found.node) else {
        return Ok(None);
    };
    if list.elements < number as usize {
        return Ok(None);
    }
    let framed = found.held.note.element_frames(alloc, found.path, number)?;
    // the note has frames around each place of a list
    let Some(around) = framed else { unreachable!() };
    let phylum = list.kind.element;
    Ok(Some(Site { phylum, around }))
}

/// Gives the site of a placeholder, or, where a number is given, that before the element of a list; `None` where the
/// node is none or has no such place.
fn site_of(
    alloc: Global,
    definition: &Definition,
    found: Target,
    number: Option<u32>,
) -> Result<Option<Site>, AllocError>
    requires sound { IsSound definition.now }
    requires version { (kind : Kind) × IsVersion definition.now kind found.held.now.note }
    requires node { node_at (tree_in found.held.now.note) found.path.now ≡ Some found.node.now }
    ensures { IfOk result (λ o. MatchOption o (HasNoPlace definition.now number found.entry.node.now)
        (IsSite definition.now (tree_in found.entry.held.now.note) found.entry.path.now number found.entry.node.now)) }
{
    match number {
        None => {
            let site = hole_site(alloc, definition, found)?;
            Ok(site)
        }
        Some(number) => {
            let site = element_site(alloc, definition, found, number)?;
            Ok(site)
        }
    }
}

/// Gives the refusal where there is no such place.
fn refusal_at(number: Option<u32>) -> Refusal
    ensures { result ≡ place_test number }
{
    match number {
        None => Refusal::NotHole,
        Some(_) => Refusal::NoPlace,
    }
}

/// Gives the name of the operator, with one more owner.
fn operator_name(definition: &Definition, op: u32) -> Result<Txt, AllocError>
    requires { op < length definition.now.operators }
    ensures { IfOk result (λ name. op_name_of definition.now op ≡ Some name) }
{
    let name = definition.operators.as_slice()[op as usize].name.share()?;
    Ok(name)
}

/// Gives the names of the operators, each with one more owner.
fn operator_names(
    alloc: Global,
    definition: &Definition,
    ops: &[u32],
) -> Result<Vec<Txt>, AllocError>
    requires { (o : ℕ) → IsIn o ops.now → o < length definition.now.operators }
    ensures { IfOk result (λ names. map (op_name_of definition.now) ops.now ≡ map Some names.items) }
{
    let mut names = Vec::new(alloc);
    for op in ops {
        let name = operator_name(definition, *op)?;
        names.push(name)?;
    }
    Ok(names)
}

/// Gives the reply of one line.
fn one_line(alloc: Global, names: &[Txt]) -> Result<Reply, AllocError>
    ensures { IfOk result (λ reply. reply_of reply ≡ answered (names_line_of names.now ∷ [])) }
{
    let line = names_line(alloc, names)?;
    let mut lines = Vec::new(alloc);
    lines.push(line)?;
    Ok(Reply::Answered(lines))
}

/// Answers which operators may be put at the place, in the definition's order: those with which, under new names and
/// some literals, the fragment has a legal completion. Each operator of the phylum is tried: at most the nodes above
/// the place are evaluated for it. It is refused with `NothingOpened`, `NoNode`, `NotHole` or `NoPlace`, and with
/// `TooWide` if a trial is too large.
#[tactic(auto, using(crate::proofs::Ticking::quiet))]
pub fn menu<L: Ledger>(
    alloc: Global,
    language: &LanguageParts,
    editor: &Editor,
    place: &Where,
    number: Option<u32>,
    steps: &mut Steps<L>,
) -> Result<Outcome, Stop>
    requires language { IsLanguage language.now }
    requires editor { IsEditor language.now.definition editor.now }
    ensures outcome { IfFound result
        (IsOutcome language.now.definition editor.now not_asked (commands.Menu place.now number)) }
    ensures ticks { HasTicked language.now.definition (state_of editor.now)
        (commands.Menu place.now number) steps.old steps.new }
{
    let found = find(editor, place)?;
    let definition = &language.definition;
    let tried = site_of(alloc, definition, found, number)?;
    let Some(site) = tried else {
        return Err(Stop::Refused(refusal_at(number)));
    };
    let used = names_in(alloc, found.held.note.tree())?;
    let around = site.around.as_slice();
    let ops = operators(
        alloc,
        definition,
        &language.tables,
        around,
        site.phylum,
        used.as_slice(),
        steps,
    )?;
    let names = operator_names(alloc, definition, ops.as_slice())?;
    let reply = one_line(alloc, names.as_slice())?;
    Ok(Outcome::Stays(reply))
}

/// Gives the operator of the name, which has to be of the phylum and to have one name.
fn naming(definition: &Definition, phylum: u32, name: &str) -> Result<u32, Refusal>
    requires { IsSound definition.now }
    ensures { IsNamingAnswer definition.now phylum name.now result }
{
    let Some(op) = op_named(definition, name) else {
        return Err(Refusal::Unknown);
    };
    let operator = &definition.operators.as_slice()[op as usize];
    if operator.phylum != phylum {
        return Err(Refusal::OtherPhylum);
    }
    if name_positions(operator) != 1 {
        return Err(Refusal::BadArguments);
    }
    Ok(op)
}

/// Answers with which names of the fragment the operator may be put at the place, in the order of bytes: those with
/// which, under some literals, the fragment has a legal completion. Each name is tried: at most the nodes above the
/// place are evaluated for it. It is refused as `menu` is, and with `Unknown`, `OtherPhylum` or `BadArguments`.
#[tactic(auto, using(crate::proofs::Ticking::quiet))]
pub fn suggest<L: Ledger>(
    alloc: Global,
    language: &LanguageParts,
    editor: &Editor,
    place: &Where,
    number: Option<u32>,
    name: &Txt,
    steps: &mut Steps<L>,
) -> Result<Outcome, Stop>
    requires language { IsLanguage language.now }
    requires editor { IsEditor language.now.definition editor.now }
    ensures outcome { IfFound result
        (IsOutcome language.now.definition editor.now not_asked (commands.Names place.now number name.now)) }
    ensures ticks { HasTicked language.now.definition (state_of editor.now)
        (commands.Names place.now number name.now) steps.old steps.new }
{
    let found = find(editor, place)?;
    let definition = &language.definition;
    let tried = site_of(alloc, definition, found, number)?;
    let Some(site) = tried else {
        return Err(Stop::Refused(refusal_at(number)));
    };
    let op = naming(definition, site.phylum, name.as_str())?;
    let candidates = names_in(alloc, found.held.note.tree())?;
    let around = site.around.as_slice();
    let kept = names(
        alloc,
        definition,
        &language.tables,
        around,
        op,
        candidates.as_slice(),
        steps,
    )?;
    let reply = one_line(alloc, kept.as_slice())?;
    Ok(Outcome::Stays(reply))
}
