//! Whether the lists that declare can declare a name with each entity.
ghost use Rattle.std.specs.Prelude.{◌≡◌, ◌↔◌, ◌<◌, ◌⊎◌, ℕ, IfOk, OnOk, Some, Vec, length, slice_get, true};
ghost use Rattle.std.specs.declared.alloc.Global.{Global as PlainGlobal};
ghost use Rattle.psg_grammar.specs.Sound.{IsSound};
ghost use Rattle.psg_completions.specs.Elements.{IsDeclarable};
ghost use Rattle.psg_specimen.specs.Given.{given_by, has_given, FindsCon, IsDeclarableIn, IsDeclarableOf, IsGiven};
ghost use Rattle.psg_specimen.specs.Given.{IsGivenBy, AreGiven};
ghost use Rattle.psg_specimen.specs.Tables.{AreSpaces};
ghost use Rattle.psg_specimen.specs.declared.declarable.Given.{Given as PlainGiven};
ghost use Rattle.psg_specimen.specs.Walks.{Finds, FindsThree, FindsTwo};

use crate::cases::is_over;
use psg_grammar::{DeclareRow, Definition, ListKind, declaring};
use psg_terms::{ConId, Node, Signature};
use std::alloc::{AllocError, Global};
use std::collections::HashSet;

/// A list and a space of names.
#[derive(Clone, Copy, PartialEq, Eq, Hash)]
struct Place {
    list: u32,
    space: u32,
}

/// A constructor of entities for which a list has a declare row in a space.
#[derive(Clone, Copy, PartialEq, Eq, Hash)]
struct Given {
    place: Place,
    con: u32,
}

/// Answers the first unfinished list that declares in a space in which it has no declare row for a constructor, and the
/// numbers of the space and of the constructor.
///
/// One pass over the declare rows puts what they give into a set. Then each list is asked for the constructors of the
/// spaces in which its elements declare, up to the first that is missing, so at most one more is asked for than there
/// are rows.
pub(crate) fn first_undeclared(
    alloc: Global,
    definition: &Definition,
) -> Result<Option<(usize, (u32, u32))>, AllocError>
    requires { IsSound definition.now }
    ensures { IfOk result (FindsThree (IsDeclarable definition.now)) }
{
    let given = all_given(
        alloc,
        &definition.signature,
        definition.declare_rows.as_slice(),
    )?;
    let spaces = declaring(alloc, definition)?;
    let table = spaces.as_slice();
    let lists = definition.lists.as_slice();
    for number in 0..lists.len() {
        let list = &lists[number];
        let own = spaces_of(table, list.element);
        if let Some(pair) = first_in_list(definition, &given, number as u32, list, own) {
            return Ok(Some((number, pair)));
        }
    }
    Ok(None)
}

fn spaces_of(table: &[Vec<u32>], phylum: u32) -> &[u32]
    requires { phylum < length table.now }
    ensures { (v : Vec ℕ PlainGlobal) → slice_get table.now phylum ≡ Some v → result.now ≡ v.items }
{
    table[phylum as usize].as_slice()
}

fn first_in_list(
    definition: &Definition,
    given: &HashSet<Given>,
    number: u32,
    list: &ListKind,
    spaces: &[u32],
) -> Option<(u32, u32)>
    requires sound { IsSound definition.now }
    requires given { AreGiven definition.now (has_given given.now) }
    requires spaces { AreSpaces definition.now number spaces.now }
    ensures { FindsTwo (IsDeclarableOf definition.now number list.now) result }
{
    if !list.unfinished {
        return None;
    }
    for space in spaces {
        if let Some(con) = first_in_space(definition, given, number, *space) {
            return Some((*space, con));
        }
    }
    None
}

fn first_in_space(
    definition: &Definition,
    given: &HashSet<Given>,
    list: u32,
    space: u32,
) -> Option<u32>
    requires sound { IsSound definition.now }
    requires given { AreGiven definition.now (has_given given.now) }
    ensures { Finds (IsDeclarableIn definition.now list space) result }
{
    match definition.spaces.as_slice().get(space as usize) {
        Some(found) => {
            let cons = definition.signature.constructors_of(found.sort);
            first_missing(cons, given, list, space)
        }
        None => None,
    }
}

/// Answers the first of the constructors that the set does not have for the list and the space.
fn first_missing(cons: &[ConId], given: &HashSet<Given>, list: u32, space: u32) -> Option<u32>
    ensures { FindsCon (has_given given.now) list space cons.now result }
{
    for con in cons {
        let wanted = given_by(list, space, con.0);
        if !given.contains(&wanted) {
            return Some(con.0);
        }
    }
    None
}

fn given_by(list: u32, space: u32, con: u32) -> Given
    ensures { result ≡ given_by list space con }
{
    Given {
        place: Place { list, space },
        con,
    }
}

fn all_given(
    alloc: Global,
    sig: &Signature,
    rows: &[DeclareRow],
) -> Result<HashSet<Given>, AllocError>
    ensures { IfOk result (λ set. (k : PlainGiven) → (has_given set k ≡ true) ↔ IsGiven sig.now rows.now k) }
{
    let mut set = HashSet::new(alloc);
    for row in rows {
        add_row(alloc, sig, &mut set, row)?;
    }
    Ok(set)
}

fn add_row(
    alloc: Global,
    sig: &Signature,
    set: &mut HashSet<Given>,
    row: &DeclareRow,
) -> Result<(), AllocError>
    ensures { OnOk result ((k : PlainGiven) → (has_given set.new k ≡ true)
        ↔ ((has_given set.old k ≡ true) ⊎ IsGivenBy sig.now row.now k)) }
{
    match row.term.node() {
        Node::Con { con, .. } => {
            if con.0 >= sig.constructors() {
                return Ok(());
            }
            if is_over(alloc, sig, con, &row.term)? {
                let given = given_by(row.list, row.space, con.0);
                set.insert(given)?;
            }
            Ok(())
        }
        Node::Var { .. } => Ok(()),
    }
}
