//! The steps of a tree in their order.
ghost use Rattle.std.specs.Prelude.{◌≡◌, ◌++◌, ◌-◌, ◌∷◌, [], List, drop, length, IfOk, OnOk};
ghost use Rattle.std.specs.List.{AllByRecursion};
ghost use Rattle.psg_grammar.specs.declared.types.Definition.{Definition as PlainDefinition};
ghost use Rattle.psg_grammar.specs.declared.types.Item.{Item as PlainItem};
ghost use Rattle.psg_grammar.specs.declared.types.Kind.{Kind as PlainKind};
ghost use Rattle.psg_grammar.specs.Fragments.{Fragment, cell};
ghost use Rattle.psg_grammar.specs.Kinds.{IsOfKind};
ghost use Rattle.psg_grammar.specs.Sound.{IsSound};
ghost use Rattle.psg_grammar.specs.WellFormed.{WellFormed};
ghost use Rattle.psg_tree.specs.Shapes.{subtrees as subtrees_of};
ghost use Rattle.psg_cache.specs.Notes.{IsFormed};
ghost use Rattle.psg_eval.specs.Starts.{AreTables};
ghost use Rattle.psg_eval.specs.Summaries.{slot_kinds};
ghost use Rattle.psg_explain.specs.Added.{AddsBelow, HasKindsAt};
ghost use Rattle.psg_explain.specs.Plans.{Step, planned};
ghost use Rattle.psg_explain.specs.Refutations.{kinds_below};
ghost use Rattle.psg_explain.specs.Sources.{AddsStages, AreStages, IsEnd, IsNodeSite, IsStage, IsStepNode};

use crate::adding::{
    Content, Known, Listed, Place, add, add_list, add_operator, no_keys, node_site,
};
use crate::derived::counted;
use crate::stages::{Site, Source, Stage};
use psg_grammar::{Definition, Item, Kind};
use psg_specimen::Language;
use psg_terms::Seq;
use psg_tree::{Part, Path, Shape, Tree};
use std::alloc::{AllocError, Global};

/// Returns the steps with one more after them.
fn longer(alloc: Global, steps: &[u32], number: usize) -> Result<Vec<u32>, AllocError>
    ensures { IfOk result (λ v. v.items ≡ steps.now ++ number ∷ []) }
{
    let step = counted(number)?;
    let mut all = Vec::from_slice(alloc, steps)?;
    all.push(step)?;
    Ok(all)
}

/// Adds the tree of the part, if it is one.
fn add_subtree(found: &mut Vec<Tree>, part: &Part) -> Result<(), AllocError>
    ensures { OnOk result (found.new.items ≡ found.old.items ++ subtrees_of (part.now ∷ [])) }
{
    match part {
        Part::Sub(tree) => {
            found.push(tree.share()?)?;
            Ok(())
        }
        Part::Name(_) => Ok(()),
        Part::Number(_) => Ok(()),
        Part::Text(_) => Ok(()),
    }
}

/// Returns the trees among the parts, each with one more owner.
fn subtrees(alloc: Global, parts: &[Part]) -> Result<Vec<Tree>, AllocError>
    ensures { IfOk result (λ v. v.items ≡ subtrees_of parts.now) }
{
    let mut found = Vec::new(alloc);
    for part in parts {
        add_subtree(&mut found, part)?;
    }
    Ok(found)
}

/// Adds the steps of the trees, which are the children of the node at the path, and returns the places of their last
/// steps.
#[cycle(stages)]
fn add_below(
    alloc: Global,
    known: Known,
    stages: &mut Vec<Stage>,
    path: &[u32],
    trees: &[Tree],
) -> Result<Vec<usize>, AllocError>
    requires sound { IsSound known.definition.now }
    requires tables { AreTables known.definition.now known.tables.now }
    requires formed { AllByRecursion (IsFormed known.definition.now) trees.now }
    ensures { IfOk result
        (λ v. AddsBelow known.entry.definition.now path.now trees.now stages.old.items stages.new.items v.items) }
{
    let mut places = Vec::with_capacity(alloc, trees.len())?;
    for i in 0..trees.len() {
        let below = longer(alloc, path, i)?;
        add_stages(alloc, known, stages, below.as_slice(), &trees[i])?;
        let all = stages.as_slice();
        let last = all.len() - 1;
        places.push(last)?;
    }
    Ok(places)
}

/// Adds the steps of the tree at the path: those of its children in order, then its own; of a list those of its
/// elements, of its end, and of its cells from the last to the first.
#[cycle(stages)]
pub(crate) fn add_stages(
    alloc: Global,
    known: Known,
    stages: &mut Vec<Stage>,
    path: &[u32],
    tree: &Tree,
) -> Result<(), AllocError>
    requires sound { IsSound known.definition.now }
    requires tables { AreTables known.definition.now known.tables.now }
    requires formed { IsFormed known.definition.now tree.now }
    ensures steps { OnOk result (AddsStages known.entry.definition.now stages.old.items stages.new.items
        (planned known.entry.definition.now (length stages.old.items) path.now tree.now)) }
    ensures last { OnOk result (IsEnd known.entry.definition.now stages.new.items
        (record { tree = tree.now; place = length stages.new.items - 1 })) }
{
    match tree.shape() {
        Shape::Hole { .. } => {
            let header = no_keys(alloc, &[])?;
            let content = Content {
                header,
                source: Source::Own,
            };
            let site = node_site(tree)?;
            let place = Place { path, cell: None };
            add(alloc, stages, place, 0, site, content)?;
            Ok(())
        }
        Shape::Op { parts, .. } => {
            let trees = subtrees(alloc, parts.as_slice())?;
            let last = add_below(alloc, known, stages, path, trees.as_slice())?;
            let place = Place { path, cell: None };
            let definition = known.definition;
            add_operator(alloc, definition, stages, place, tree, last.as_slice())?;
            Ok(())
        }
        Shape::List {
            list,
            elements,
            unfinished,
        } => {
            let node = Listed {
                list: *list,
                elements: elements.as_slice(),
                unfinished: *unfinished,
            };
            let last = add_below(alloc, known, stages, path, node.elements)?;
            add_list(alloc, known, stages, path, node, last.as_slice())?;
            Ok(())
        }
    }
}

/// Returns the kind alone.
fn one_kind(alloc: Global, kind: Kind) -> Result<Vec<Kind>, AllocError>
    ensures { IfOk result (λ v. v.items ≡ kind ∷ []) }
{
    let mut kinds = Vec::new(alloc);
    kinds.push(kind)?;
    Ok(kinds)
}

/// Adds the kind of the item, if it is a slot and no more slots are left out; returns how many are left out after it.
fn add_kind(kinds: &mut Vec<Kind>, item: &Item, skip: usize) -> Result<usize, AllocError>
    ensures { IfOk result (λ n. (def : PlainDefinition) (rest : List PlainItem)
        → kinds.new.items ++ drop n (slot_kinds def rest)
        ≡ kinds.old.items ++ drop skip (slot_kinds def (item.now ∷ rest))) }
{
    match item {
        Item::Slot(kind) => {
            if skip > 0 {
                return Ok(skip - 1);
            }
            kinds.push(*kind)?;
            Ok(0)
        }
        _ => Ok(skip),
    }
}

/// Adds the kinds of the slots among the items, but those of the first ones.
fn add_kinds(kinds: &mut Vec<Kind>, items: &[Item], first: usize) -> Result<(), AllocError>
    ensures { OnOk result ((def : PlainDefinition)
        → kinds.new.items ≡ kinds.old.items ++ drop first (slot_kinds def items.now)) }
{
    let mut skip = first;
    for item in items {
        let left = add_kind(kinds, item, skip)?;
        skip = left;
    }
    Ok(())
}

/// Returns the kind of a placeholder's or operator's node, and the kinds of its children after the first ones.
fn node_kinds(
    alloc: Global,
    definition: &Definition,
    tree: &Tree,
    step: usize,
) -> Result<Vec<Kind>, AllocError>
    ensures { IfOk result (λ v. IsStepNode definition.now tree.now → IsNodeSite tree.now
        → HasKindsAt definition.now tree.now step v.items) }
{
    match tree.shape() {
        Shape::Hole { phylum } => {
            let kinds = one_kind(alloc, Kind::Phylum(*phylum))?;
            Ok(kinds)
        }
        Shape::Op { op, .. } => match definition.operators.as_slice().get(*op as usize) {
            Some(operator) => {
                let mut kinds = one_kind(alloc, Kind::Phylum(operator.phylum))?;
                add_kinds(&mut kinds, operator.items.as_slice(), step)?;
                Ok(kinds)
            }
            None => Ok(Vec::new(alloc)),
        },
        Shape::List { .. } => Ok(Vec::new(alloc)),
    }
}

/// Returns the kind of a list, and those of the children of its cell after the first ones.
fn cell_kinds(
    alloc: Global,
    definition: &Definition,
    list: u32,
    step: usize,
) -> Result<Vec<Kind>, AllocError>
    ensures { IfOk result (λ v. (e r : Fragment) → IsStepNode definition.now (cell list e r)
        → HasKindsAt definition.now (cell list e r) step v.items) }
{
    let mut kinds = one_kind(alloc, Kind::List(list))?;
    match definition.lists.as_slice().get(list as usize) {
        Some(kind) => {
            if step == 0 {
                kinds.push(Kind::Phylum(kind.element))?;
                kinds.push(Kind::List(list))?;
                return Ok(kinds);
            }
            if step == 1 {
                kinds.push(Kind::List(list))?;
                return Ok(kinds);
            }
            Ok(kinds)
        }
        None => Ok(kinds),
    }
}

/// Returns the kind of the node, and the kinds of its children that are added after the step; none after the last.
pub(crate) fn kinds_at(
    alloc: Global,
    definition: &Definition,
    stage: &Stage,
) -> Result<Vec<Kind>, AllocError>
    ensures { IfOk result (λ v. (s : Step) → IsStage definition.now stage.now s → (kind : PlainKind)
        × IsOfKind definition.now s.part kind × (v.items ≡ kind ∷ drop s.number (kinds_below definition.now s.part))) }
{
    match &stage.site {
        Site::Node(tree) => {
            let kinds = node_kinds(alloc, definition, tree, stage.step)?;
            Ok(kinds)
        }
        Site::End { list, .. } => {
            let kinds = one_kind(alloc, Kind::List(*list))?;
            Ok(kinds)
        }
        Site::Cell(list) => {
            let kinds = cell_kinds(alloc, definition, *list, stage.step)?;
            Ok(kinds)
        }
    }
}

/// Returns the steps of the tree at the path in their order.
pub(crate) fn stages_of(
    alloc: Global,
    lang: &Language,
    path: &Path,
    tree: &Tree,
) -> Result<Vec<Stage>, AllocError>
    requires { IsFormed lang.now tree.now }
    ensures { IfOk result (λ v. AreStages lang.now v.items (planned lang.now 0 path.now tree.now)) }
{
    let definition = lang.definition();
    let parts = lang.parts();
    let known = Known {
        definition,
        tables: &parts.tables,
    };
    let mut stages = Vec::new(alloc);
    add_stages(alloc, known, &mut stages, path.steps(), tree)?;
    Ok(stages)
}
