//! Deciding how a node is written that is met.
ghost use Rattle.std.specs.Prelude.{◌≡◌, ◌&&◌, List, Some, ℕ, IfOk, true};
ghost use Rattle.psg_grammar.specs.Fragments.{top_operator};
ghost use Rattle.psg_layout.specs.declared.layout.Layout.{Layout};
ghost use Rattle.psg_layout.specs.Arranged.{is_group};
ghost use Rattle.psg_layout.specs.Looked.{AreRulesOf};
ghost use Rattle.psg_layout.specs.Pages.{last_line};
ghost use Rattle.psg_layout.specs.Sheets.{Copy, Ink, IsEnd, IsInk, gap_bytes};
ghost use Rattle.psg_layout.specs.Walking as walking;
ghost use Rattle.psg_layout.specs.Walking.{CopiesAs, FindsOwn, HasOwn, IsCopy, IsKnown, Known, Walk, copy_by};
ghost use Rattle.psg_layout.specs.Walking.{decided_by};
ghost use Rattle.psg_layout.specs.Walking.{fits_in, flat_in, flats_by};

use crate::gap::sum;
use crate::line_end::LineEnd;
use crate::nodes::{Flat, Node, flat_at};
use crate::rules::Rules;
use crate::sheet::{Extent, Own, Sheet};
use psg_grammar::Definition;
use psg_tree::{Shape, Tree};
use std::alloc::AllocError;

/// What a tree is arranged by: its language, the layout, the nodes of its plain text, and the columns.
#[derive(Clone, Copy)]
pub(crate) struct Plan<'a> {
    pub(crate) definition: &'a Definition,
    pub(crate) rules: &'a Rules,
    pub(crate) plain: &'a [Node],
    /// The plain text.
    pub(crate) text: &'a str,
    /// The bytes of its tokens.
    pub(crate) tokens: &'a [Extent],
    pub(crate) cols: u32,
    /// Whether the nodes are listed without their paths.
    pub(crate) counts: bool,
}

/// Says whether the node fits on the line.
fn fits(line: LineEnd, flat: Flat, cols: u32) -> bool
    ensures { (cs : List ℕ) → IsEnd line cs → result ≡ fits_in cols (last_line cs) flat.width }
{
    let Some(width) = flat.width else {
        return false;
    };
    match line.columns.checked_add(width) {
        Some(columns) => columns <= cols as usize,
        None => false,
    }
}

/// Says whether a node of the operator is a group that fits on the line.
fn is_flat(plan: &Plan<'_>, op: u32, line: LineEnd, flat: Flat) -> bool
    ensures { (layout : Layout) → AreRulesOf layout plan.now.rules.now → (cs : List ℕ) → IsEnd line cs
        → result ≡ (is_group layout (Some op) && fits_in plan.now.cols (last_line cs) flat.width) }
{
    if plan.rules.is_group(op) {
        fits(line, flat, plan.cols)
    } else {
        false
    }
}

/// Decides how an operator is written that is met where the sheet ends: it has the place among the nodes.
pub(crate) fn decide(
    plan: &Plan<'_>,
    sheet: &Sheet,
    flat: bool,
    place: usize,
    op: u32,
) -> Result<Option<usize>, AllocError>
    ensures { IfOk result (λ mode. (layout : Layout) → AreRulesOf layout plan.now.rules.now → (k : Ink)
        → IsInk sheet.now k → mode ≡ decided_by layout plan.now.cols flat k (flat_in (flats_by plan.now) place)
        (Some op)) }
{
    if flat {
        return Ok(None);
    }
    let plain = flat_at(plan.plain, place);
    let line = sheet.line_at(plain.lead)?;
    if is_flat(plan, op, line, plain) {
        return Ok(None);
    }
    let spaces = sum(line.spaces(), 2)?;
    Ok(Some(spaces))
}

/// Says whether there is a character, and it is no space.
fn is_mark(head: Option<char>) -> bool
    ensures { result ≡ walking.is_mark head }
{
    match head {
        Some(head) => head != ' ',
        None => false,
    }
}

/// Returns the operator at the top of the tree, if there is one.
fn op_of(tree: &Tree) -> Option<u32>
    ensures { result ≡ top_operator tree.now }
{
    match tree.shape() {
        Shape::Op { op, .. } => Some(*op),
        Shape::List { .. } => None,
        Shape::Hole { .. } => None,
    }
}

/// Returns the tokens of a node of the plain text that has that many columns.
fn own_of<'a>(plan: &Plan<'a>, node: &Node, width: usize) -> Result<Option<Own<'a>>, AllocError>
    ensures { IfOk result (λ found. (c : Copy) → IsCopy plan.now.text.now plan.now.tokens.now node.now c
        → node.now.flat.width ≡ Some width → walking.is_mark node.now.flat.head ≡ true
        → HasOwn found c node.now.flat.lead) }
{
    let behind = sum(node.before, node.own)?;
    let Some(tokens) = plan.tokens.get(node.before..behind) else {
        return Ok(None);
    };
    let Some(text) = plan.text.get(node.span.start..node.span.end) else {
        return Ok(None);
    };
    Ok(Some(Own {
        lead: node.flat.lead,
        width,
        start: node.span.start,
        text,
        tokens,
        after: node.after,
        count: node.count,
    }))
}

/// Returns the tokens of the node at the place as they are in the plain text, if they are in one line and begin with a
/// character other than the space.
fn own_at<'a>(plan: &Plan<'a>, place: usize) -> Result<Option<Own<'a>>, AllocError>
    ensures { IfOk result (FindsOwn plan.now place) }
{
    let Some(node) = plan.plain.get(place) else {
        return Ok(None);
    };
    let Some(width) = node.flat.width else {
        return Ok(None);
    };
    if !is_mark(node.flat.head) {
        return Ok(None);
    }
    let found = own_of(plan, node, width)?;
    Ok(found)
}

/// Returns the tokens of the node at the place as they are in the plain text, if the node is met where the sheet ends
/// and is a group that fits there, but not in a flat group.
pub(crate) fn copy_at<'a>(
    plan: &Plan<'a>,
    sheet: &Sheet,
    flat: bool,
    place: usize,
    tree: &Tree,
) -> Result<Option<Own<'a>>, AllocError>
    ensures { IfOk result (λ found. (k : Known) → IsKnown plan.now k → (w : Walk) → IsInk sheet.now w.ink
        → w.place ≡ place → CopiesAs found (gap_bytes (flat_in (flats_by plan.now) place).lead)
        (copy_by plan.now k flat w (top_operator tree.now))) }
{
    if flat {
        return Ok(None);
    }
    let Some(op) = op_of(tree) else {
        return Ok(None);
    };
    let Some(own) = own_at(plan, place)? else {
        return Ok(None);
    };
    let line = sheet.line_at(own.lead)?;
    if is_flat(plan, op, line, flat_at(plan.plain, place)) {
        return Ok(Some(own));
    }
    Ok(None)
}
