//! The walk over a tree that arranges it.
ghost use Rattle.std.specs.Prelude.{◌≡◌, ◌+◌, [], ◌∷◌, Some, IfOk, OnOk, ℕ};
ghost use Rattle.psg_grammar.specs.Fragments.{Fragment, operator as plain_operator};
ghost use Rattle.psg_grammar.specs.Lookups.{operator_at};
ghost use Rattle.psg_grammar.specs.Sound.{IsSound};
ghost use Rattle.psg_tree.specs.Shapes.{list_of, with_parts};
ghost use Rattle.psg_tree.specs.declared.tree.Part.TheVariants.{Sub};
ghost use Rattle.psg_unparse.specs.Walking as plain_walking;
ghost use Rattle.psg_unparse.specs.Walking.{count_of};
ghost use Rattle.psg_layout.specs.Arranged as arranged;
ghost use Rattle.psg_layout.specs.Walking.{IsKnown, IsWalk, Known, Walks, below_by, child_by, comes, met_by, new_walk};
ghost use Rattle.psg_layout.specs.Walking.{node_by, part_by, within};

use crate::deciding::{Plan, copy_at, decide};
use crate::nodes::{Arranger, flat_at};
use crate::writing::{
    Mode, after, ask_at, ask_child, close_bracket, open_bracket, write_between, write_ending,
    write_words,
};
use psg_tree::{Part, Shape, Tree, phylum_name};
use psg_unparse::nodes::{behind_first, is_below, items_of, level_wanted};
use std::alloc::{AllocError, Global};

/// The next part of an operator: the number of its item, the least level of a tree there, and the number of its child
/// if it is one.
#[derive(Clone, Copy)]
pub(crate) struct Next {
    pub(crate) item: u32,
    pub(crate) wanted: u8,
    pub(crate) child: u32,
}

/// Says whether the mode is that of a flat group.
fn has_no_breaks(spaces: Option<usize>) -> bool
    ensures { result ≡ arranged.is_flat spaces }
{
    match spaces {
        Some(_) => false,
        None => true,
    }
}

/// Returns the number of the next child after a part that has this number if it is a child.
fn number_behind(number: u32, part: &Part) -> Result<u32, AllocError>
    ensures { IfOk result (λ next. next ≡ number + count_of part.now) }
{
    match part {
        Part::Sub(_) => {
            let next = after(number)?;
            Ok(next)
        }
        _ => Ok(number),
    }
}

/// Returns the least level of a tree that is the part, which is read as the operator's item at the place. What is no
/// tree has no level: 0.
fn wanted_at(plan: &Plan<'_>, op: u32, place: usize, part: &Part) -> u8
    requires { IsSound plan.now.definition.now }
    ensures { (t : Fragment) → part.now ≡ Sub t
        → result ≡ plain_walking.level_wanted (operator_at plan.now.definition.now op) place }
{
    match part {
        Part::Sub(_) => level_wanted(plan.definition, op, place),
        Part::Name(_) => 0,
        Part::Number(_) => 0,
        Part::Text(_) => 0,
    }
}

/// Writes the child of the number, in a flat group or not.
#[cycle(arrange)]
fn write_child(
    alloc: Global,
    arranger: &mut Arranger,
    plan: &Plan<'_>,
    flat: bool,
    number: u32,
    tree: &Tree,
) -> Result<(), AllocError>
    requires { IsSound plan.now.definition.now }
    ensures { OnOk result (Walks plan.now
        (λ k w. child_by plan.now k flat number w tree.now) arranger.old arranger.new) }
{
    if plan.counts {
        write_node(alloc, arranger, plan, flat, tree)?;
        return Ok(());
    }
    let depth = arranger.path.len();
    arranger.path.push(number)?;
    write_node(alloc, arranger, plan, flat, tree)?;
    arranger.path.truncate(depth);
    Ok(())
}

/// Writes a child as the next part of an operator, with brackets where it needs them. A break before a child without a
/// token breaks nothing.
#[cycle(arrange)]
fn write_sub(
    alloc: Global,
    arranger: &mut Arranger,
    plan: &Plan<'_>,
    mode: Mode,
    next: Next,
    tree: &Tree,
) -> Result<(), AllocError>
    requires { IsSound plan.now.definition.now }
    ensures { OnOk result (Walks plan.now
        (λ k w. part_by plan.now k mode.spaces mode.op next (Sub tree.now) w) arranger.old arranger.new) }
{
    let plain = flat_at(plan.plain, arranger.place);
    let bracketed = is_below(plan.definition, tree, next.wanted);
    ask_child(
        &mut arranger.sheet,
        plan.rules,
        mode,
        next.item,
        bracketed,
        plain,
    );
    open_bracket(&mut arranger.sheet, bracketed)?;
    let flat = has_no_breaks(mode.spaces);
    write_child(alloc, arranger, plan, flat, next.child, tree)?;
    close_bracket(&mut arranger.sheet, bracketed)?;
    Ok(())
}

/// Writes the next part of an operator.
#[cycle(arrange)]
fn write_part(
    alloc: Global,
    arranger: &mut Arranger,
    plan: &Plan<'_>,
    mode: Mode,
    next: Next,
    part: &Part,
) -> Result<(), AllocError>
    requires { IsSound plan.now.definition.now }
    ensures { OnOk result (Walks plan.now
        (λ k w. part_by plan.now k mode.spaces mode.op next part.now w) arranger.old arranger.new) }
{
    match part {
        Part::Sub(tree) => {
            write_sub(alloc, arranger, plan, mode, next, tree)?;
            Ok(())
        }
        Part::Name(name) => {
            ask_at(&mut arranger.sheet, plan.rules, mode, next.item);
            arranger.sheet.put_token(name.as_str())?;
            Ok(())
        }
        Part::Number(value) => {
            ask_at(&mut arranger.sheet, plan.rules, mode, next.item);
            arranger.sheet.put_number(*value)?;
            Ok(())
        }
        Part::Text(contents) => {
            ask_at(&mut arranger.sheet, plan.rules, mode, next.item);
            arranger.sheet.put_text(alloc, contents.as_str())?;
            Ok(())
        }
    }
}

/// Writes an operator with its parts.
#[cycle(arrange)]
fn write_operator(
    alloc: Global,
    arranger: &mut Arranger,
    plan: &Plan<'_>,
    mode: Mode,
    parts: &[Part],
) -> Result<(), AllocError>
    requires { IsSound plan.now.definition.now }
    ensures { OnOk result (Walks plan.now
        (λ k w. below_by plan.now k (within mode.spaces) 0 w
        (with_parts (plain_operator mode.op) parts.now)) arranger.old arranger.new) }
{
    let items = items_of(plan.definition, mode.op);
    let words = write_words(&mut arranger.sheet, plan.rules, mode, 0, items)?;
    let mut rest = words.0;
    let mut item = words.1;
    let mut child: u32 = 0;
    for part in parts {
        let wanted = wanted_at(plan, mode.op, items.len() - rest.len(), part);
        let next = Next {
            item,
            wanted,
            child,
        };
        write_part(alloc, arranger, plan, mode, next, part)?;
        let number = after(item)?;
        let following = write_words(
            &mut arranger.sheet,
            plan.rules,
            mode,
            number,
            behind_first(rest),
        )?;
        rest = following.0;
        item = following.1;
        child = number_behind(child, part)?;
    }
    Ok(())
}

/// Writes a list with its elements.
#[cycle(arrange)]
fn write_list(
    alloc: Global,
    arranger: &mut Arranger,
    plan: &Plan<'_>,
    flat: bool,
    list: u32,
    elements: &[Tree],
    unfinished: bool,
) -> Result<(), AllocError>
    requires { IsSound plan.now.definition.now }
    ensures { OnOk result ((place : ℕ) → Walks plan.now
        (λ k w. below_by plan.now k (comes flat place) 0 w (list_of list elements.now unfinished))
        arranger.old arranger.new) }
{
    let mut rest = elements;
    let mut number: u32 = 0;
    while let Some((element, behind)) = rest.split_first() {
        write_child(alloc, arranger, plan, flat, number, element)?;
        write_between(
            &mut arranger.sheet,
            plan.definition,
            list,
            behind,
            unfinished,
        )?;
        number = after(number)?;
        rest = behind;
    }
    write_ending(&mut arranger.sheet, unfinished)?;
    Ok(())
}

/// Writes what a node is made of, which has the place among the nodes.
#[cycle(arrange)]
fn write_shape(
    alloc: Global,
    arranger: &mut Arranger,
    plan: &Plan<'_>,
    flat: bool,
    place: usize,
    tree: &Tree,
) -> Result<(), AllocError>
    requires { IsSound plan.now.definition.now }
    ensures { OnOk result (Walks plan.now
        (λ k w. below_by plan.now k (comes flat place) 0 w tree.now) arranger.old arranger.new) }
{
    match tree.shape() {
        Shape::Op { op, parts } => {
            let spaces = decide(plan, &arranger.sheet, flat, place, *op)?;
            let mode = Mode { op: *op, spaces };
            write_operator(alloc, arranger, plan, mode, parts.as_slice())?;
            Ok(())
        }
        Shape::List {
            list,
            elements,
            unfinished,
        } => {
            write_list(
                alloc,
                arranger,
                plan,
                flat,
                *list,
                elements.as_slice(),
                *unfinished,
            )?;
            Ok(())
        }
        Shape::Hole { phylum } => {
            let name = phylum_name(plan.definition, *phylum);
            arranger.sheet.put_hole(alloc, name)?;
            Ok(())
        }
    }
}

/// Writes a node, in a flat group or not, part by part, and lists it.
#[cycle(arrange)]
fn write_met(
    alloc: Global,
    arranger: &mut Arranger,
    plan: &Plan<'_>,
    flat: bool,
    tree: &Tree,
) -> Result<(), AllocError>
    requires { IsSound plan.now.definition.now }
    ensures { OnOk result (Walks plan.now (λ k w. met_by plan.now k flat w tree.now) arranger.old arranger.new) }
{
    let place = arranger.place;
    let listed = arranger.nodes.len();
    let outer = arranger.open(alloc)?;
    write_shape(alloc, arranger, plan, flat, place, tree)?;
    arranger.close(listed, place, outer);
    Ok(())
}

/// Writes a node, in a flat group or not. A group that is flat is copied from the plain text.
#[cycle(arrange)]
fn write_node(
    alloc: Global,
    arranger: &mut Arranger,
    plan: &Plan<'_>,
    flat: bool,
    tree: &Tree,
) -> Result<(), AllocError>
    requires { IsSound plan.now.definition.now }
    ensures { OnOk result (Walks plan.now (λ k w. node_by plan.now k flat w tree.now) arranger.old arranger.new) }
{
    let found = copy_at(plan, &arranger.sheet, flat, arranger.place, tree)?;
    match found {
        Some(own) => {
            arranger.copy(own)?;
            Ok(())
        }
        None => {
            write_met(alloc, arranger, plan, flat, tree)?;
            Ok(())
        }
    }
}

/// Writes a whole tree, in a flat group or not. It takes the memory for that many listed nodes at once.
pub(crate) fn write_whole(
    alloc: Global,
    plan: &Plan<'_>,
    flat: bool,
    count: usize,
    tree: &Tree,
) -> Result<Arranger, AllocError>
    requires { IsSound plan.now.definition.now }
    ensures { IfOk result (λ made. (k : Known) → IsKnown plan.now k
        → IsWalk made (node_by plan.now k flat new_walk tree.now)) }
{
    let mut arranger = Arranger::new(alloc, count)?;
    write_node(alloc, &mut arranger, plan, flat, tree)?;
    Ok(arranger)
}
