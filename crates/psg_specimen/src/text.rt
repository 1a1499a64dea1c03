//! The texts of refusals.
ghost use Rattle.std.specs.Prelude.{◌≡◌, ◌<◌, ◌∷◌, ◌++◌, [], List, ℕ, IfOk, OnOk, codes, decimal, length, string_bytes};
ghost use Rattle.psg_grammar.specs.declared.types.Kind.TheVariants as kinds;
ghost use Rattle.psg_grammar.specs.Kinds.{HasKind};
ghost use Rattle.psg_specimen.specs.Refusal.{IsOf};
ghost use Rattle.psg_specimen.specs.declared.fault.AcceptFault.TheVariants as faults;
ghost use Rattle.psg_specimen.specs.Texts.{con_word, kind_word, line, op_word, place_words, refusal_text, row_words};
ghost use Rattle.psg_specimen.specs.Texts.{site_words, space_words};

use crate::fault::{AcceptFault, Refused, Site};
use psg_class::class_text;
use psg_grammar::{Definition, Kind, kind_name};
use psg_terms::ConId;
use std::alloc::{AllocError, Global};

/// Writes the text of a refusal, as `refused Cases hole 9`: the condition, then the names and numbers of the thing
/// for which it fails. A refusal of the grammar class has its own text. The fault is not `Memory`.
pub fn accept_text(alloc: Global, refused: &Refused) -> Result<String, AllocError>
    requires { IsOf refused.now.definition refused.now.fault }
    ensures { IfOk result (λ t. string_bytes t ≡ refusal_text refused.now.definition refused.now.fault) }
{
    let definition = &refused.definition;
    match &refused.fault {
        AcceptFault::Class(fault) => class_text(alloc, definition, fault),
        AcceptFault::Scope(operator) => {
            named(alloc, "Scope", operator_name(definition, *operator))
        }
        AcceptFault::Declaring(operator, slot) => {
            declaring_text(alloc, operator_name(definition, *operator), *slot)
        }
        AcceptFault::NoRow(kind) => named(alloc, "NoRow", kind_text(definition, *kind)),
        AcceptFault::UncoveredOp(operator, row) => {
            row_text(alloc, operator_name(definition, *operator), "row", *row)
        }
        AcceptFault::UncoveredNil(list, row) => {
            row_text(alloc, list_text(definition, *list), "nil", *row)
        }
        AcceptFault::UncoveredCell(list, row) => {
            row_text(alloc, list_text(definition, *list), "cell", *row)
        }
        AcceptFault::Cases(row) => cases_text(alloc, *row),
        AcceptFault::NotSmaller(site, place) => place_text(alloc, "NotSmaller", *site, *place),
        AcceptFault::OpenHole(site, place) => place_text(alloc, "OpenHole", *site, *place),
        AcceptFault::Large(site) => site_text(alloc, "Large", *site),
        AcceptFault::Weak(site) => site_text(alloc, "Weak", *site),
        AcceptFault::NotIt(row) => site_text(alloc, "NotIt", Site::Declare { row: *row }),
        AcceptFault::NoDeclare(list, space, con) => {
            no_declare_text(alloc, definition, *list, *space, *con)
        }
        AcceptFault::NotClear(row) => site_text(alloc, "NotClear", Site::Declare { row: *row }),
        AcceptFault::Memory => Ok(String::new(alloc)),
    }
}

fn operator_name(definition: &Definition, operator: u32) -> &str
    requires { operator < length definition.now.operators }
    ensures { result.now ≡ op_word definition.now operator }
{
    let operators = definition.operators.as_slice();
    operators[operator as usize].name.as_str()
}

fn kind_text(definition: &Definition, kind: Kind) -> &str
    requires { HasKind definition.now kind }
    ensures { result.now ≡ kind_word definition.now kind }
{
    kind_name(definition, kind)
}

fn list_text(definition: &Definition, list: u32) -> &str
    requires { list < length definition.now.lists }
    ensures { result.now ≡ kind_word definition.now (kinds.List list) }
{
    let lists = definition.lists.as_slice();
    lists[list as usize].name.as_str()
}

fn constructor_name(definition: &Definition, con: ConId) -> &str
    requires { con.0 < length definition.now.signature.symbols }
    ensures { result.now ≡ con_word definition.now con.0 }
{
    definition.signature.constructor(con).name.as_str()
}

fn declaring_text(alloc: Global, operator: &str, slot: u32) -> Result<String, AllocError>
    ensures { IfOk result (λ t. string_bytes t
        ≡ line (codes "Declaring" ∷ operator.now ∷ codes "slot" ∷ decimal slot ∷ [])) }
{
    let mut text = named(alloc, "Declaring", operator)?;
    add(&mut text, "slot")?;
    add_number(&mut text, slot)?;
    Ok(text)
}

fn row_text(alloc: Global, name: &str, rows: &str, row: u32) -> Result<String, AllocError>
    ensures { IfOk result (λ t. string_bytes t ≡ line (codes "Uncovered" ∷ name.now ∷ rows.now ∷ decimal row ∷ [])) }
{
    let mut text = named(alloc, "Uncovered", name)?;
    add(&mut text, rows)?;
    add_number(&mut text, row)?;
    Ok(text)
}

fn cases_text(alloc: Global, row: u32) -> Result<String, AllocError>
    ensures { IfOk result (λ t. string_bytes t ≡ line (codes "Cases" ∷ codes "hole" ∷ decimal row ∷ [])) }
{
    let mut text = named(alloc, "Cases", "hole")?;
    add_number(&mut text, row)?;
    Ok(text)
}

fn place_text(alloc: Global, condition: &str, site: Site, place: u32) -> Result<String, AllocError>
    ensures { IfOk result (λ t. string_bytes t ≡ line (condition.now ∷ place_words site place)) }
{
    let mut text = site_text(alloc, condition, site)?;
    add(&mut text, "place")?;
    add_number(&mut text, place)?;
    Ok(text)
}

fn site_text(alloc: Global, condition: &str, site: Site) -> Result<String, AllocError>
    ensures { IfOk result (λ t. string_bytes t ≡ line (condition.now ∷ site_words site)) }
{
    match site {
        Site::Hole { row, case } => case_text(alloc, condition, row, case),
        Site::Declare { row } => {
            let mut text = named(alloc, condition, "declare")?;
            add_number(&mut text, row)?;
            Ok(text)
        }
    }
}

fn case_text(alloc: Global, condition: &str, row: u32, case: u32) -> Result<String, AllocError>
    ensures { IfOk result (λ t. string_bytes t
        ≡ line (condition.now ∷ codes "hole" ∷ decimal row ∷ codes "case" ∷ decimal case ∷ [])) }
{
    let mut text = named(alloc, condition, "hole")?;
    add_number(&mut text, row)?;
    add(&mut text, "case")?;
    add_number(&mut text, case)?;
    Ok(text)
}

fn no_declare_text(
    alloc: Global,
    definition: &Definition,
    list: u32,
    space: u32,
    con: ConId,
) -> Result<String, AllocError>
    requires list { list < length definition.now.lists }
    requires space { space < length definition.now.spaces }
    requires constructor { con.0 < length definition.now.signature.symbols }
    ensures { IfOk result (λ t. string_bytes t
        ≡ refusal_text definition.now (faults.NoDeclare list space con)) }
{
    let mut text = named(alloc, "NoDeclare", list_text(definition, list))?;
    add_space(&mut text, definition, space)?;
    add(&mut text, constructor_name(definition, con))?;
    Ok(text)
}

/// Adds the name of the space in version 2; in version 1 spaces have no names, and nothing is added.
fn add_space(text: &mut String, definition: &Definition, space: u32) -> Result<(), AllocError>
    requires { space < length definition.now.spaces }
    ensures { OnOk result ((ws : List (List ℕ)) → string_bytes text.old ≡ line ws
        → string_bytes text.new ≡ line (ws ++ space_words definition.now space)) }
{
    if definition.version == 1 {
        return Ok(());
    }
    let spaces = definition.spaces.as_slice();
    add(text, spaces[space as usize].name.as_str())?;
    Ok(())
}

fn named(alloc: Global, condition: &str, name: &str) -> Result<String, AllocError>
    ensures { IfOk result (λ t. string_bytes t ≡ line (condition.now ∷ name.now ∷ [])) }
{
    let mut text = String::from_str(alloc, "refused")?;
    add(&mut text, condition)?;
    add(&mut text, name)?;
    Ok(text)
}

/// Puts one more word at the end.
fn add(text: &mut String, word: &str) -> Result<(), AllocError>
    ensures { OnOk result ((ws : List (List ℕ)) → string_bytes text.old ≡ line ws
        → string_bytes text.new ≡ line (ws ++ word.now ∷ [])) }
{
    text.push_str(" ")?;
    text.push_str(word)?;
    Ok(())
}

fn add_number(text: &mut String, number: u32) -> Result<(), AllocError>
    ensures { OnOk result ((ws : List (List ℕ)) → string_bytes text.old ≡ line ws
        → string_bytes text.new ≡ line (ws ++ decimal number ∷ [])) }
{
    write!(text, " {number}")?;
    Ok(())
}
