//! The small language of blocks, groups and items in two spaces, which no text of a definition spells: it is built part
//! by part.
ghost use Rattle.std.specs.Prelude.{◌≡◌, ◌∷◌, [], IfOk};
ghost use Rattle.psg_grammar.specs.Little.{items_list, little, little_operators, little_phyla, little_spaces};
ghost use Rattle.psg_grammar.specs.Little.{operator_named, phylum_named, space_named, unit_sort, unit_signature};
ghost use Rattle.psg_grammar.specs.Sound.{IsSound};

use psg_grammar::{Definition, Item, Kind, Level, ListKind, Operator, Phylum, Space};
use psg_terms::{ConDecl, Seq, Signature, SortDecl, SortId, Txt};
use std::alloc::{AllocError, Global};

/// The sort of one constant, as it is written.
fn unit_sort(alloc: Global) -> Result<SortDecl, AllocError>
    ensures { IfOk result (λ s. s ≡ unit_sort) }
{
    let constructor = ConDecl {
        name: Txt::copy_of(alloc, "ok")?,
        args: Seq::of(Vec::new(alloc)),
    };
    let name = Txt::copy_of(alloc, "Unit")?;
    Ok(SortDecl {
        name,
        constructors: Seq::of(vec![in alloc; constructor]?),
    })
}

fn unit(alloc: Global) -> Result<Signature, AllocError>
    ensures { IfOk result (λ s. s ≡ unit_signature) }
{
    let sorts = vec![in alloc; unit_sort(alloc)?]?;
    match Signature::new(alloc, sorts) {
        Ok(signature) => Ok(signature),
        Err(_) => Err(AllocError),
    }
}

pub(super) fn operator(
    alloc: Global,
    name: &str,
    phylum: u32,
    scope: bool,
    items: Vec<Item>,
) -> Result<Operator, AllocError>
    ensures { IfOk result (λ o. o ≡ record (operator_named name.now phylum items.items) { scope = scope }) }
{
    Ok(Operator {
        name: Txt::copy_of(alloc, name)?,
        phylum,
        level: Level::Plain,
        scope,
        items: Seq::of(items),
        rows: Seq::of(Vec::new(alloc)),
    })
}

fn phylum(alloc: Global, name: &str) -> Result<Phylum, AllocError>
    ensures { IfOk result (λ p. p ≡ phylum_named name.now) }
{
    Ok(Phylum {
        name: Txt::copy_of(alloc, name)?,
        sort: SortId(0),
        bracketed: false,
    })
}

fn space(alloc: Global, name: &str) -> Result<Space, AllocError>
    ensures { IfOk result (λ s. s ≡ space_named name.now) }
{
    Ok(Space {
        name: Txt::copy_of(alloc, name)?,
        sort: SortId(0),
    })
}

fn spaces(alloc: Global) -> Result<Seq<Space>, AllocError>
    ensures { IfOk result (λ s. s ≡ little_spaces) }
{
    let value = space(alloc, "val")?;
    let label = space(alloc, "lab")?;
    Ok(Seq::of(vec![in alloc; value, label]?))
}

fn phyla(alloc: Global) -> Result<Seq<Phylum>, AllocError>
    ensures { IfOk result (λ p. p ≡ little_phyla) }
{
    let expression = phylum(alloc, "Exp")?;
    let item = phylum(alloc, "Item")?;
    let group = phylum(alloc, "Group")?;
    Ok(Seq::of(vec![in alloc; expression, item, group]?))
}

fn lists(alloc: Global) -> Result<Seq<ListKind>, AllocError>
    ensures { IfOk result (λ l. l ≡ items_list ∷ []) }
{
    let items = ListKind {
        name: Txt::copy_of(alloc, "Items")?,
        sort: SortId(0),
        element: 1,
        separator: Txt::copy_of(alloc, ";")?,
        lines: true,
        unfinished: true,
        nil_rows: Seq::of(Vec::new(alloc)),
        cell_rows: Seq::of(Vec::new(alloc)),
    };
    Ok(Seq::of(vec![in alloc; items]?))
}

fn operators(alloc: Global) -> Result<Seq<Operator>, AllocError>
    ensures { IfOk result (λ o. o ≡ little_operators) }
{
    let list = Kind::List(0);
    let block = operator(alloc, "blk", 0, true, vec![in alloc; Item::Slot(list)]?)?;
    let group = operator(alloc, "group", 2, false, vec![in alloc; Item::Slot(list)]?)?;
    let parts = vec![in alloc; Item::Declares(0), Item::Slot(Kind::Phylum(0))]?;
    let value = operator(alloc, "let", 1, false, parts)?;
    let label = operator(alloc, "mark", 1, false, vec![in alloc; Item::Declares(1)]?)?;
    Ok(Seq::of(vec![in alloc; block, group, value, label]?))
}

pub(super) fn language(alloc: Global) -> Result<Definition, AllocError>
    ensures little { IfOk result (λ d. d ≡ little) }
    ensures sound { IfOk result IsSound }
{
    Ok(Definition {
        version: 2,
        signature: unit(alloc)?,
        spaces: spaces(alloc)?,
        phyla: phyla(alloc)?,
        lists: lists(alloc)?,
        operators: operators(alloc)?,
        hole_rows: Seq::of(Vec::new(alloc)),
        declare_rows: Seq::of(Vec::new(alloc)),
    })
}
