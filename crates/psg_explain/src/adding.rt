//! The steps of one node, added after those of its children.
ghost use Rattle.std.specs.Prelude.{◌≡◌, ◌++◌, ◌-◌, ◌<◌, ◌∷◌, [], ℕ, Some, false, length, slice_get, IfOk, OnOk};
ghost use Rattle.std.specs.List.{AllByRecursion};
ghost use Rattle.psg_grammar.specs.declared.types.Definition.{Definition as PlainDefinition};
ghost use Rattle.psg_grammar.specs.declared.types.Operator.{Operator};
ghost use Rattle.psg_grammar.specs.Fragments.{Fragment, children_of, ending, top_operator};
ghost use Rattle.psg_grammar.specs.Lookups.{is_scope as is_scope_in, scopes};
ghost use Rattle.psg_grammar.specs.Sound.{IsSound};
ghost use Rattle.psg_scope.specs.Headers.{IsHeader, IsOrdered, declared_keys, keys as keys_of};
ghost use Rattle.psg_tree.specs.Shapes.{list_of};
ghost use Rattle.psg_eval.specs.OwnRows.{positions as positions_of};
ghost use Rattle.psg_eval.specs.Starts.{AreTables};
ghost use Rattle.psg_eval.specs.Summaries.{AreSpacesOfList, IsHeaderOf};
ghost use Rattle.psg_eval.specs.Trees.{own_names};
ghost use Rattle.psg_explain.specs.declared.stages.Site.TheVariants.{Node as NodeSite};
ghost use Rattle.psg_explain.specs.declared.stages.Source.TheVariants.{Own as OwnSource};
ghost use Rattle.psg_explain.specs.Added.{AddsCell, AddsClosed, AddsPair, AddsPairs, HasStage, IsClosedContent};
ghost use Rattle.psg_explain.specs.Added.{IsPairContent, ends_of, no_keys_in, stage_of};
ghost use Rattle.psg_explain.specs.Plans.{listing, making};
ghost use Rattle.psg_explain.specs.Sources.{AddsStages, AreEnds, IsEnd, IsStepNode};
ghost use Rattle.psg_explain.specs.Splits.{names_among};

use crate::derived::counted;
use crate::own_rows::positions;
use crate::stages::{Site, Source, Stage, names_of};
use psg_eval::Tables;
use psg_grammar::Definition;
use psg_scope::{Header, NameCol, Names, close_region, header_of, join};
use psg_terms::Seq;
use psg_tree::{Part, Shape, Tree};
use std::alloc::{AllocError, Global};

/// A definition with its tables.
#[derive(Clone, Copy)]
pub(crate) struct Known<'a> {
    pub(crate) definition: &'a Definition,
    pub(crate) tables: &'a Tables,
}

/// Where a node is: its path, and of a list the number of the cell.
#[derive(Clone, Copy)]
pub(crate) struct Place<'a> {
    pub(crate) path: &'a [u32],
    pub(crate) cell: Option<u32>,
}

/// A list by its number, with its elements, and whether it is unfinished.
#[derive(Clone, Copy)]
pub(crate) struct Listed<'a> {
    pub(crate) list: u32,
    pub(crate) elements: &'a [Tree],
    pub(crate) unfinished: bool,
}

/// The header of a step, and what its rows are made of.
#[derive(Drop)]
pub(crate) struct Content {
    pub(crate) header: Header,
    pub(crate) source: Source,
}

/// Returns the node of a placeholder or of an operator.
pub(crate) fn node_site(tree: &Tree) -> Result<Site, AllocError>
    ensures { IfOk result (λ s. s ≡ NodeSite tree.now) }
{
    Ok(Site::Node(tree.share()?))
}

/// Adds a step.
pub(crate) fn add(
    alloc: Global,
    stages: &mut Vec<Stage>,
    place: Place,
    step: usize,
    site: Site,
    content: Content,
) -> Result<(), AllocError>
    ensures { OnOk result (stages.new.items
        ≡ stages.old.items ++ stage_of place.entry.path.now place.entry.cell step site content ∷ []) }
{
    let path = Vec::from_slice(alloc, place.path)?;
    stages.push(Stage {
        path: Seq::of(path),
        cell: place.cell,
        step,
        site,
        header: content.header,
        source: content.source,
    })?;
    Ok(())
}

/// Returns the header of a region without keys, which may still declare in these spaces.
pub(crate) fn no_keys(alloc: Global, spaces: &[u32]) -> Result<Header, AllocError>
    ensures { IfOk result (λ h. h ≡ no_keys_in spaces.now) }
{
    let unfinished = Vec::from_slice(alloc, spaces)?;
    Ok(Header {
        names: Names::none(),
        unfinished: Seq::of(unfinished),
        twice: false,
    })
}

/// Returns the name positions of an operator's node; none where there is no such operator.
pub(crate) fn own_positions(
    alloc: Global,
    definition: &Definition,
    op: u32,
    parts: &[Part],
) -> Result<Vec<NameCol>, AllocError>
    ensures { IfOk result (λ v. (o : Operator) → slice_get definition.now.operators op ≡ Some o
        → v.items ≡ positions_of o.items (names_among parts.now)) }
{
    match definition.operators.as_slice().get(op as usize) {
        Some(operator) => {
            let names = names_of(alloc, parts)?;
            let own = positions(alloc, operator.items.as_slice(), names.as_slice())?;
            Ok(own)
        }
        None => Ok(Vec::new(alloc)),
    }
}

/// Says whether the operator is there and is a scope operator.
fn is_scope_operator(definition: &Definition, op: u32) -> bool
    ensures { result ≡ scopes (slice_get definition.now.operators op) }
{
    match definition.operators.as_slice().get(op as usize) {
        Some(operator) => operator.scope,
        None => false,
    }
}

/// Says whether the node is one of a scope operator.
pub(crate) fn is_scope(definition: &Definition, tree: &Tree) -> bool
    ensures { result ≡ is_scope_in definition.now tree.now }
{
    match tree.shape() {
        Shape::Op { op, .. } => {
            let scope = is_scope_operator(definition, *op);
            scope
        }
        Shape::Hole { .. } => false,
        Shape::List { .. } => false,
    }
}

/// Returns the header of an operator's own positions; one without keys for another node.
fn own_header(alloc: Global, definition: &Definition, tree: &Tree) -> Result<Header, AllocError>
    ensures header { IfOk result (λ h. (o : ℕ) (op : Operator) → top_operator tree.now ≡ Some o
        → slice_get definition.now.operators o ≡ Some op
        → IsHeader (keys_of (positions_of op.items (own_names tree.now)))
        (declared_keys (positions_of op.items (own_names tree.now))) (λ _. false) h) }
    ensures ordered { IfOk result IsOrdered }
{
    match tree.shape() {
        Shape::Op { op, parts } => {
            let own = own_positions(alloc, definition, *op, parts.as_slice())?;
            let header = header_of(alloc, own.as_slice())?;
            Ok(header)
        }
        Shape::Hole { .. } => {
            let header = no_keys(alloc, &[])?;
            Ok(header)
        }
        Shape::List { .. } => {
            let header = no_keys(alloc, &[])?;
            Ok(header)
        }
    }
}

/// Makes the regions of two steps one.
fn pair_content(
    alloc: Global,
    stages: &[Stage],
    before: usize,
    child: usize,
) -> Result<Content, AllocError>
    requires before { HasStage stages.now before }
    requires child { HasStage stages.now child }
    ensures { IfOk result (IsPairContent stages.now before child) }
{
    let left = &stages[before];
    let right = &stages[child];
    let joined = join(alloc, &left.header, &right.header)?;
    let mine = left.header.names.share()?;
    let others = right.header.names.share()?;
    Ok(Content {
        header: joined.header,
        source: Source::Pair {
            before,
            child,
            left: mine,
            right: others,
        },
    })
}

/// Closes the region of a step.
fn closed_content(alloc: Global, stages: &[Stage], before: usize) -> Result<Content, AllocError>
    requires { HasStage stages.now before }
    ensures { IfOk result (IsClosedContent stages.now before) }
{
    let last = &stages[before];
    let closed = close_region(alloc, &last.header)?;
    let inside = last.header.names.share()?;
    Ok(Content {
        header: closed.header,
        source: Source::Closed { before, inside },
    })
}

/// Adds the step of a child whose last step is at the place; the step before is the last one.
fn add_child(
    alloc: Global,
    stages: &mut Vec<Stage>,
    place: Place,
    step: usize,
    site: Site,
    child: usize,
) -> Result<(), AllocError>
    requires last { HasStage stages.old.items (length stages.old.items - 1) }
    requires child { HasStage stages.old.items child }
    ensures { OnOk result (AddsPair place.entry.path.now place.entry.cell site step
        stages.old.items stages.new.items child) }
{
    let all = stages.as_slice();
    let before = all.len() - 1;
    let content = pair_content(alloc, all, before, child)?;
    add(alloc, stages, place, step, site, content)?;
    Ok(())
}

/// Adds the steps of the children, whose last steps are at these places; the step before is the last one.
fn add_children(
    alloc: Global,
    stages: &mut Vec<Stage>,
    place: Place,
    tree: &Tree,
    children: &[usize],
) -> Result<(), AllocError>
    requires last { HasStage stages.old.items (length stages.old.items - 1) }
    requires children { AllByRecursion (HasStage stages.old.items) children.now }
    ensures pairs { OnOk result (AddsPairs place.entry.path.now place.entry.cell (NodeSite tree.now) 0
        stages.old.items stages.new.items children.now) }
    ensures last { OnOk result (HasStage stages.new.items (length stages.new.items - 1)) }
{
    for i in 0..children.len() {
        let site = node_site(tree)?;
        add_child(alloc, stages, place, i + 1, site, children[i])?;
    }
    Ok(())
}

/// Adds the step that closes the region of the last one.
fn add_closing(
    alloc: Global,
    stages: &mut Vec<Stage>,
    place: Place,
    step: usize,
    tree: &Tree,
) -> Result<(), AllocError>
    requires { HasStage stages.old.items (length stages.old.items - 1) }
    ensures { OnOk result (AddsClosed place.entry.path.now place.entry.cell (NodeSite tree.now) step
        stages.old.items stages.new.items) }
{
    let all = stages.as_slice();
    let before = all.len() - 1;
    let content = closed_content(alloc, all, before)?;
    let site = node_site(tree)?;
    add(alloc, stages, place, step, site, content)?;
    Ok(())
}

/// Adds the steps of an operator's node after those of its children, the last steps of which are at these places.
pub(crate) fn add_operator(
    alloc: Global,
    definition: &Definition,
    stages: &mut Vec<Stage>,
    place: Place,
    tree: &Tree,
    children: &[usize],
) -> Result<(), AllocError>
    requires formed { IsStepNode definition.now tree.now }
    requires top { (o : ℕ) × (top_operator tree.now ≡ Some o) }
    requires ends { AreEnds definition.now stages.old.items (ends_of (children_of tree.now) children.now) }
    requires count { length children.now ≡ length (children_of tree.now) }
    ensures steps { OnOk result (AddsStages definition.now stages.old.items stages.new.items
        (making definition.now (length stages.old.items) place.entry.path.now place.entry.cell tree.now
        (ends_of (children_of tree.now) children.now))) }
    ensures last { OnOk result (IsEnd definition.now stages.new.items
        (record { tree = tree.now; place = length stages.new.items - 1 })) }
{
    let header = own_header(alloc, definition, tree)?;
    let site = node_site(tree)?;
    let content = Content {
        header,
        source: Source::Own,
    };
    add(alloc, stages, place, 0, site, content)?;
    add_children(alloc, stages, place, tree, children)?;
    if is_scope(definition, tree) {
        add_closing(alloc, stages, place, children.len() + 1, tree)?;
        return Ok(());
    }
    Ok(())
}

/// Adds the steps of a cell in front of the list whose last step is the last one.
fn add_cell(
    alloc: Global,
    stages: &mut Vec<Stage>,
    place: Place,
    list: u32,
    element: usize,
) -> Result<(), AllocError>
    requires last { HasStage stages.old.items (length stages.old.items - 1) }
    requires element { HasStage stages.old.items element }
    ensures { OnOk result (AddsCell place.entry.path.now place.entry.cell list stages.old.items stages.new.items
        element) }
{
    let all = stages.as_slice();
    let rest = all.len() - 1;
    let header = no_keys(alloc, &[])?;
    let content = Content {
        header,
        source: Source::Own,
    };
    add(alloc, stages, place, 0, Site::Cell(list), content)?;
    add_child(alloc, stages, place, 1, Site::Cell(list), element)?;
    add_child(alloc, stages, place, 2, Site::Cell(list), rest)?;
    Ok(())
}

/// Returns the spaces in which the list's elements declare.
fn spaces_of(known: Known, list: u32) -> &[u32]
    requires sound { IsSound known.definition.now }
    requires tables { AreTables known.definition.now known.tables.now }
    requires there { list < length known.definition.now.lists }
    ensures { AreSpacesOfList known.entry.definition.now list result.now }
{
    let kind = &known.definition.lists.as_slice()[list as usize];
    let all = known.tables.spaces();
    all[kind.element as usize].as_slice()
}

/// Returns the header of a list's end.
fn end_header(
    alloc: Global,
    known: Known,
    list: u32,
    unfinished: bool,
) -> Result<Header, AllocError>
    requires sound { IsSound known.definition.now }
    requires tables { AreTables known.definition.now known.tables.now }
    requires there { list < length known.definition.now.lists }
    ensures header { IfOk result (IsHeaderOf known.entry.definition.now (ending list unfinished)) }
    ensures ordered { IfOk result IsOrdered }
{
    if unfinished {
        let spaces = spaces_of(known, list);
        let header = no_keys(alloc, spaces)?;
        return Ok(header);
    }
    let empty = no_keys(alloc, &[])?;
    Ok(empty)
}

/// Adds the step of a list's end.
fn add_end(
    alloc: Global,
    known: Known,
    stages: &mut Vec<Stage>,
    path: &[u32],
    node: Listed,
) -> Result<(), AllocError>
    requires sound { IsSound known.definition.now }
    requires tables { AreTables known.definition.now known.tables.now }
    requires formed { IsStepNode known.definition.now (list_of node.list node.elements.now node.unfinished) }
    ensures steps { OnOk result (AddsStages known.entry.definition.now stages.old.items stages.new.items
        (listing known.entry.definition.now (length stages.old.items) path.now (length node.entry.elements.now)
        (ending node.entry.list node.entry.unfinished) [])) }
    ensures last { OnOk result (IsEnd known.entry.definition.now stages.new.items
        (record { tree = ending node.entry.list node.entry.unfinished; place = length stages.new.items - 1 })) }
{
    let header = end_header(alloc, known, node.list, node.unfinished)?;
    let number = counted(node.elements.len())?;
    let site = Site::End {
        list: node.list,
        unfinished: node.unfinished,
    };
    let content = Content {
        header,
        source: Source::Own,
    };
    let place = Place {
        path,
        cell: Some(number),
    };
    add(alloc, stages, place, 0, site, content)?;
    Ok(())
}

/// Adds the steps of a list's end and of its cells, from the last to the first, after those of its elements, the last
/// steps of which are at these places.
pub(crate) fn add_list(
    alloc: Global,
    known: Known,
    stages: &mut Vec<Stage>,
    path: &[u32],
    node: Listed,
    last: &[usize],
) -> Result<(), AllocError>
    requires sound { IsSound known.definition.now }
    requires tables { AreTables known.definition.now known.tables.now }
    requires formed { IsStepNode known.definition.now (list_of node.list node.elements.now node.unfinished) }
    requires ends { AreEnds known.definition.now stages.old.items (ends_of node.elements.now last.now) }
    requires count { length last.now ≡ length node.elements.now }
    ensures steps { OnOk result (AddsStages known.entry.definition.now stages.old.items stages.new.items
        (listing known.entry.definition.now (length stages.old.items) path.now 0
        (list_of node.entry.list node.entry.elements.now node.entry.unfinished)
        (ends_of node.entry.elements.now last.now))) }
    ensures last { OnOk result (IsEnd known.entry.definition.now stages.new.items (record {
      tree = list_of node.entry.list node.entry.elements.now node.entry.unfinished;
      place = length stages.new.items - 1;
    })) }
{
    add_end(alloc, known, stages, path, node)?;
    let mut left = last.len();
    'cells: while left > 0 {
        let number = counted(left - 1)?;
        let place = Place {
            path,
            cell: Some(number),
        };
        add_cell(alloc, stages, place, node.list, last[left - 1])?;
        left -= 1;
    }
    Ok(())
}
