//! What is reported about the placeholders and the unfinished lists of a program.
ghost use Rattle.std.specs.Prelude.{◌≡◌, ◌<◌, ◌++◌, ◌∷◌, [], ℕ, Bool, IfOk, List, OnOk, Some, codes, false, length};
ghost use Rattle.std.specs.Prelude.{slice_get, string_bytes};
ghost use Rattle.psg_grammar.specs.Fragments.{hole, operator};
ghost use Rattle.psg_grammar.specs.Marks.{nodes_below, nodes_from};
ghost use Rattle.psg_grammar.specs.Paths.{IsList, node_at};
ghost use Rattle.psg_tree.specs.Shapes.{list_of, with_parts};
ghost use Rattle.psg_cache.specs.Notes.{IsNoteOf};
ghost use Rattle.psg_menu.specs.Menus.{IsMenu};
ghost use Rattle.psg_recover.specs.Findings as findings;
ghost use Rattle.psg_recover.specs.Spotted.{IsSpotsOf};
ghost use Rattle.psg_recover.specs.TextPlaces.{Read, last_byte};
ghost use Rattle.psg_recover.specs.declared.finding.Finding.{Finding as Told};
ghost use Rattle.psg_wanted.specs.Fronts.{IsListed};
ghost use Rattle.psg_wanted.specs.Texts as texts;
ghost use Rattle.psg_wanted.specs.Texts.{AreSorted};
ghost use Rattle.psg_lint.specs.Judged.{IsJudged};
ghost use Rattle.psg_lint.specs.Lists.{IsListThere};
ghost use Rattle.psg_lint.specs.Opens.{IsOpenOne, IsPartThere, part_nodes};
ghost use Rattle.psg_lint.specs.OpenPlaces as opens;
ghost use Rattle.psg_lint.specs.OpenPlaces.{AreNoted, AreNotes, IsNoted, is_plain};

use crate::ends::{Listed, as_list};
use crate::trials::Judged;
use psg_cache::Note;
use psg_grammar::Phylum;
use psg_known::numbers::{plus, step_of};
use psg_recover::finding::{Finding, note as note_at};
use psg_terms::{SortId, Steps, Term, Txt};
use psg_tree::{Part, Path, Shape, Tree};
use psg_uses::names::{below, children_in};
use psg_wanted::menus::names_in;
use psg_wanted::places::{element_menu, hole_menu};
use psg_wanted::texts::{menu_or_none, say_nothing, values_text};
use psg_wanted::values::values_in;
use std::alloc::{AllocError, Global};
use std::sync::ledger::Ledger;

/// A program that has a completion.
#[derive(Clone, Copy)]
pub(crate) struct Open<'a> {
    pub(crate) judged: Judged<'a>,
    pub(crate) note: &'a Note,
    /// Its names.
    pub(crate) used: &'a [Txt],
}

/// Says whether the sort has one constructor alone, which is a constant then.
fn has_one_value(own: Open, sort: SortId) -> bool
    ensures { result ≡ opens.has_one_value own.entry.judged.definition.now.signature sort.0 }
{
    match own.judged.definition.signature.constant_of(sort) {
        Some(_) => true,
        None => false,
    }
}

/// Says whether nothing is reported about the values of a placeholder of the phylum.
fn is_plain_hole(own: Open, phylum: &Phylum, values: &[Term]) -> bool
    ensures { result ≡ is_plain own.entry.judged.definition.now phylum.now values.now }
{
    has_one_value(own, phylum.sort) || say_nothing(values)
}

/// Writes which values are wanted of a placeholder of the phylum, after a comma, if that says anything.
fn wanted_text(
    alloc: Global,
    own: Open,
    phylum: &Phylum,
    values: &[Term],
) -> Result<String, AllocError>
    requires { AreSorted own.judged.definition.now.signature values.now }
    ensures { IfOk result (λ text. string_bytes text
        ≡ opens.wanted_text own.entry.judged.definition.now phylum.now values.now) }
{
    let plain = is_plain_hole(own, phylum, values);
    if plain {
        return Ok(String::new(alloc));
    }
    let told = values_text(alloc, &own.judged.definition.signature, values)?;
    let text = format!(in alloc; ", wanted {}", told.as_str())?;
    Ok(text)
}

/// Writes what is reported about a placeholder of the phylum.
fn hole_text(
    alloc: Global,
    own: Open,
    phylum: &Phylum,
    values: &[Term],
    ops: &[u32],
) -> Result<String, AllocError>
    requires { AreSorted own.judged.definition.now.signature values.now }
    ensures { IfOk result (λ text. string_bytes text
        ≡ opens.hole_message own.entry.judged.definition.now phylum.now values.now ops.now) }
{
    let wanted = wanted_text(alloc, own, phylum, values)?;
    let names = menu_or_none(alloc, own.judged.definition, ops)?;
    let text = format!(in alloc;
        "?{} is open{}: {}",
        phylum.name.as_str(),
        wanted.as_str(),
        names.as_str()
    )?;
    Ok(text)
}

/// Returns the phylum of the number.
fn phylum_of<'a>(own: Open<'a>, number: u32) -> &'a Phylum
    requires { number < length own.judged.definition.now.phyla }
    ensures { slice_get own.entry.judged.definition.now.phyla number ≡ Some result.now }
{
    &own.judged.definition.phyla.as_slice()[number as usize]
}

/// Returns what is reported about the placeholder at the path.
fn told_hole<L: Ledger>(
    alloc: Global,
    own: Open,
    path: &Path,
    number: u32,
    steps: &mut Steps<L>,
) -> Result<Finding, AllocError>
    requires program { IsOpenOne own }
    requires there { node_at own.judged.tree.now path.now ≡ Some (hole number) }
    ensures { IfOk result (λ told. (r : Read) → IsSpotsOf own.entry.judged.spots r
        → IsNoted own.entry.judged.definition.now own.entry.judged.tree.now r path.now (hole number) (told ∷ [])) }
{
    let judged = own.judged;
    let definition = judged.definition;
    let tables = judged.tables;
    let values = values_in(alloc, definition, tables, own.note, path, steps)?;
    let ops = hole_menu(
        alloc, definition, tables, own.note, path, number, own.used, steps,
    )?;
    let phylum = phylum_of(own, number);
    let text = hole_text(alloc, own, phylum, values.as_slice(), ops.as_slice())?;
    let byte = judged.spots.node(alloc, path)?;
    let told = note_at(alloc, byte, text)?;
    Ok(told)
}

/// Returns what is reported about the list at the path, which is unfinished.
fn told_list<L: Ledger>(
    alloc: Global,
    own: Open,
    path: &Path,
    list: Listed,
    steps: &mut Steps<L>,
) -> Result<Finding, AllocError>
    requires program { IsOpenOne own }
    requires there { IsListThere own.judged.definition.now own.judged.tree.now path.now list }
    ensures { IfOk result (λ told. (r : Read) → IsSpotsOf own.entry.judged.spots r → (ops : List ℕ)
        × IsMenu own.entry.judged.definition.now own.entry.judged.tree.now path.now (Some list.elements)
        (IsListed own.entry.judged.definition.now) list.phylum ops
        × (told ≡ findings.note_at (last_byte own.entry.judged.definition.now r path.now)
        (codes "the list is open: " ++ texts.menu_or_none own.entry.judged.definition.now ops))) }
{
    let judged = own.judged;
    let definition = judged.definition;
    let tables = judged.tables;
    let place = step_of(list.elements)?;
    let ops = element_menu(
        alloc,
        definition,
        tables,
        own.note,
        path,
        place,
        list.phylum,
        own.used,
        steps,
    )?;
    let names = menu_or_none(alloc, definition, ops.as_slice())?;
    let message = format!(in alloc; "the list is open: {}", names.as_str())?;
    let byte = judged.spots.last(alloc, path)?;
    let told = note_at(alloc, byte, message)?;
    Ok(told)
}

/// Adds what is reported about the list at the path, if it is unfinished.
fn tell_list<L: Ledger>(
    alloc: Global,
    own: Open,
    path: &Path,
    tree: &Tree,
    found: &mut Vec<Finding>,
    steps: &mut Steps<L>,
) -> Result<(), AllocError>
    requires program { IsOpenOne own }
    requires there { node_at own.judged.tree.now path.now ≡ Some tree.now }
    requires list { IsList tree.now }
    ensures { OnOk result ((r : Read) → IsSpotsOf own.entry.judged.spots r → (told : List Told)
        × (found.new.items ≡ found.old.items ++ told)
        × IsNoted own.entry.judged.definition.now own.entry.judged.tree.now r path.now tree.now told) }
{
    let known = as_list(own.judged, tree);
    let Some(list) = known else { unreachable!() };
    if !list.unfinished {
        return Ok(());
    }
    let told = told_list(alloc, own, path, list, steps)?;
    found.push(told)?;
    Ok(())
}

/// Adds what is reported about the part of the operator at the path, which has that many children before it.
#[cycle(opens)]
fn tell_part<L: Ledger>(
    alloc: Global,
    own: Open,
    path: &[u32],
    child: usize,
    part: &Part,
    found: &mut Vec<Finding>,
    steps: &mut Steps<L>,
) -> Result<(), AllocError>
    requires program { IsOpenOne own }
    requires there { IsPartThere own.judged.tree.now path.now child part.now }
    ensures { OnOk result ((r : Read) → IsSpotsOf own.entry.judged.spots r → (told : List Told)
        × (found.new.items ≡ found.old.items ++ told) × AreNoted own.entry.judged.definition.now
        own.entry.judged.tree.now r (part_nodes path.now child part.now) told) }
{
    match part {
        Part::Sub(tree) => {
            let inner = below(alloc, path, child)?;
            tell_node(alloc, own, inner.as_slice(), tree, found, steps)?;
            Ok(())
        }
        Part::Name(_) => Ok(()),
        Part::Number(_) => Ok(()),
        Part::Text(_) => Ok(()),
    }
}

/// Adds what is reported about the parts of the operator at the path.
#[cycle(opens)]
fn tell_parts<L: Ledger>(
    alloc: Global,
    own: Open,
    path: &[u32],
    parts: &[Part],
    found: &mut Vec<Finding>,
    steps: &mut Steps<L>,
) -> Result<(), AllocError>
    requires program { IsOpenOne own }
    requires there { (op : ℕ) × (node_at own.judged.tree.now path.now ≡ Some (with_parts (operator op) parts.now)) }
    ensures { OnOk result ((r : Read) → IsSpotsOf own.entry.judged.spots r → (told : List Told)
        × (found.new.items ≡ found.old.items ++ told) × AreNoted own.entry.judged.definition.now
        own.entry.judged.tree.now r (nodes_below path.now 0 (with_parts (operator 0) parts.now)) told) }
{
    let mut children = 0;
    for part in parts {
        tell_part(alloc, own, path, children, part, found, steps)?;
        let mine = children_in(part);
        let more = plus(children, mine)?;
        children = more;
    }
    Ok(())
}

/// Adds what is reported about the elements of the list at the path.
#[cycle(opens)]
fn tell_elements<L: Ledger>(
    alloc: Global,
    own: Open,
    path: &[u32],
    elements: &[Tree],
    found: &mut Vec<Finding>,
    steps: &mut Steps<L>,
) -> Result<(), AllocError>
    requires program { IsOpenOne own }
    requires there { (l : ℕ) × (u : Bool) × (node_at own.judged.tree.now path.now ≡ Some (list_of l elements.now u)) }
    ensures { OnOk result ((r : Read) → IsSpotsOf own.entry.judged.spots r → (told : List Told)
        × (found.new.items ≡ found.old.items ++ told) × AreNoted own.entry.judged.definition.now
        own.entry.judged.tree.now r (nodes_below path.now 0 (list_of 0 elements.now false)) told) }
{
    for place in 0..elements.len() {
        let inner = below(alloc, path, place)?;
        tell_node(alloc, own, inner.as_slice(), &elements[place], found, steps)?;
    }
    Ok(())
}

/// Adds what is reported about the node at the path and about those below it.
#[cycle(opens)]
fn tell_node<L: Ledger>(
    alloc: Global,
    own: Open,
    path: &[u32],
    tree: &Tree,
    found: &mut Vec<Finding>,
    steps: &mut Steps<L>,
) -> Result<(), AllocError>
    requires program { IsOpenOne own }
    requires there { node_at own.judged.tree.now path.now ≡ Some tree.now }
    ensures { OnOk result ((r : Read) → IsSpotsOf own.entry.judged.spots r → (told : List Told)
        × (found.new.items ≡ found.old.items ++ told) × AreNoted own.entry.judged.definition.now
        own.entry.judged.tree.now r (nodes_from path.now tree.now) told) }
{
    match tree.shape() {
        Shape::Hole { phylum } => {
            let place = Path::of(alloc, path)?;
            let told = told_hole(alloc, own, &place, *phylum, steps)?;
            found.push(told)?;
            Ok(())
        }
        Shape::Op { parts, .. } => {
            tell_parts(alloc, own, path, parts.as_slice(), found, steps)?;
            Ok(())
        }
        Shape::List { elements, .. } => {
            let place = Path::of(alloc, path)?;
            tell_list(alloc, own, &place, tree, found, steps)?;
            tell_elements(alloc, own, path, elements.as_slice(), found, steps)?;
            Ok(())
        }
    }
}

/// Adds a note for each placeholder and each unfinished list of the program, which has a completion.
pub(crate) fn tell_open<L: Ledger>(
    alloc: Global,
    judged: Judged,
    note: &Note,
    found: &mut Vec<Finding>,
    steps: &mut Steps<L>,
) -> Result<(), AllocError>
    requires judged { IsJudged judged }
    requires note { IsNoteOf judged.definition.now judged.tree.now note.now }
    ensures { OnOk result ((r : Read) → IsSpotsOf judged.entry.spots r → (told : List Told)
        × (found.new.items ≡ found.old.items ++ told)
        × AreNotes judged.entry.definition.now judged.entry.tree.now r told) }
{
    let used = names_in(alloc, judged.tree)?;
    let own = Open {
        judged,
        note,
        used: used.as_slice(),
    };
    tell_node(alloc, own, &[], judged.tree, found, steps)?;
    Ok(())
}
