//! The grammar of a definition in which nothing declares, so that each phylum has a placeholder.
ghost use Rattle.std.specs.Prelude.{◌≡◌, ◌∷◌, [], IfOk, map};
ghost use Rattle.psg_terms.specs.Refusals.{MayRefuse};
ghost use Rattle.psg_grammar.specs.Sound.{IsSound};
ghost use Rattle.psg_parse.specs.Tables.{IsParseTable};
ghost use Rattle.psg_grammar.specs.Little.{unit_signature as unit_signature_of, unit_sort as unit_sort_of};
ghost use Rattle.psg_recover.specs.Grammars as grammars;

use psg_grammar::{Definition, Item, ListKind, Operator, Phylum, Space};
use psg_parse::ParseTable;
use psg_terms::{ConDecl, Seq, SigFault, Signature, SortDecl, SortId, Txt};
use std::alloc::{AllocError, Global};

/// The grammar, and what the parser looks up of it.
#[derive(Drop)]
pub struct Grammar {
    /// The definition whose trees have this grammar.
    pub definition: Definition,
    /// What the parser looks up.
    pub table: ParseTable,
}

/// Returns the sort of one constant, as it is written.
fn unit_sort(alloc: Global) -> Result<SortDecl, AllocError>
    ensures { IfOk result (λ sort. sort ≡ unit_sort_of) }
{
    let constructor = ConDecl {
        name: Txt::copy_of(alloc, "ok")?,
        args: Seq::of(Vec::new(alloc)),
    };
    let name = Txt::copy_of(alloc, "Unit")?;
    Ok(SortDecl {
        name,
        constructors: Seq::of(vec![in alloc; constructor]?),
    })
}

/// Returns the error of out of memory: nothing else can be wrong with the sort of one constant.
fn memory_of(fault: SigFault) -> AllocError
    requires fault { MayRefuse (unit_sort_of ∷ []) fault }
{
    match fault {
        SigFault::Memory => AllocError,
        _ => unreachable!(),
    }
}

/// Returns the signature of one sort with one constant.
fn unit_signature(alloc: Global) -> Result<Signature, AllocError>
    ensures { IfOk result (λ sig. sig ≡ unit_signature_of) }
{
    let sorts = vec![in alloc; unit_sort(alloc)?]?;
    match Signature::new(alloc, sorts) {
        Ok(signature) => Ok(signature),
        Err(fault) => Err(memory_of(fault)),
    }
}

/// Returns the same item; a name that is declared is one that is used.
fn quiet_item(item: &Item) -> Result<Item, AllocError>
    ensures { IfOk result (λ made. made ≡ grammars.quiet_item item.now) }
{
    match item {
        Item::Word(word) => {
            let own = word.share()?;
            Ok(Item::Word(own))
        }
        Item::Slot(kind) => Ok(Item::Slot(*kind)),
        Item::Refers(space) => Ok(Item::Refers(*space)),
        Item::Declares(space) => Ok(Item::Refers(*space)),
        Item::Number => Ok(Item::Number),
        Item::Text => Ok(Item::Text),
        Item::Space => Ok(Item::Space),
        Item::Tight => Ok(Item::Tight),
        Item::Line => Ok(Item::Line),
        Item::In => Ok(Item::In),
        Item::Out => Ok(Item::Out),
    }
}

fn quiet_items(alloc: Global, items: &[Item]) -> Result<Vec<Item>, AllocError>
    ensures { IfOk result (λ made. made.items ≡ map grammars.quiet_item items.now) }
{
    let mut made = Vec::with_capacity(alloc, items.len())?;
    for item in items {
        let own = quiet_item(item)?;
        made.push(own)?;
    }
    Ok(made)
}

/// Returns the operator without its rows, which declares nothing.
fn quiet_operator(alloc: Global, operator: &Operator) -> Result<Operator, AllocError>
    ensures { IfOk result (λ made. made ≡ grammars.quiet_operator operator.now) }
{
    let items = quiet_items(alloc, operator.items.as_slice())?;
    let name = operator.name.share()?;
    Ok(Operator {
        name,
        phylum: operator.phylum,
        level: operator.level,
        scope: operator.scope,
        items: Seq::of(items),
        rows: Seq::of(Vec::new(alloc)),
    })
}

fn quiet_operators(alloc: Global, operators: &[Operator]) -> Result<Vec<Operator>, AllocError>
    ensures { IfOk result (λ made. made.items ≡ map grammars.quiet_operator operators.now) }
{
    let mut made = Vec::with_capacity(alloc, operators.len())?;
    for operator in operators {
        let own = quiet_operator(alloc, operator)?;
        made.push(own)?;
    }
    Ok(made)
}

fn plain_spaces(alloc: Global, spaces: &[Space]) -> Result<Vec<Space>, AllocError>
    ensures { IfOk result (λ made. made.items ≡ map grammars.plain_space spaces.now) }
{
    let mut made = Vec::with_capacity(alloc, spaces.len())?;
    for space in spaces {
        let name = space.name.share()?;
        made.push(Space {
            name,
            sort: SortId(0),
        })?;
    }
    Ok(made)
}

fn plain_phyla(alloc: Global, phyla: &[Phylum]) -> Result<Vec<Phylum>, AllocError>
    ensures { IfOk result (λ made. made.items ≡ map grammars.plain_phylum phyla.now) }
{
    let mut made = Vec::with_capacity(alloc, phyla.len())?;
    for phylum in phyla {
        let name = phylum.name.share()?;
        made.push(Phylum {
            name,
            sort: SortId(0),
            bracketed: phylum.bracketed,
        })?;
    }
    Ok(made)
}

fn plain_list(alloc: Global, list: &ListKind) -> Result<ListKind, AllocError>
    ensures { IfOk result (λ made. made ≡ grammars.plain_list list.now) }
{
    let name = list.name.share()?;
    let separator = list.separator.share()?;
    Ok(ListKind {
        name,
        sort: SortId(0),
        element: list.element,
        separator,
        lines: list.lines,
        unfinished: list.unfinished,
        nil_rows: Seq::of(Vec::new(alloc)),
        cell_rows: Seq::of(Vec::new(alloc)),
    })
}

fn plain_lists(alloc: Global, lists: &[ListKind]) -> Result<Vec<ListKind>, AllocError>
    ensures { IfOk result (λ made. made.items ≡ map grammars.plain_list lists.now) }
{
    let mut made = Vec::with_capacity(alloc, lists.len())?;
    for list in lists {
        let own = plain_list(alloc, list)?;
        made.push(own)?;
    }
    Ok(made)
}

/// Returns the definition's grammar alone, in which nothing declares.
fn quiet(alloc: Global, definition: &Definition) -> Result<Definition, AllocError>
    ensures { IfOk result (λ made. made ≡ grammars.quiet definition.now) }
{
    let signature = unit_signature(alloc)?;
    let spaces = plain_spaces(alloc, definition.spaces.as_slice())?;
    let phyla = plain_phyla(alloc, definition.phyla.as_slice())?;
    let lists = plain_lists(alloc, definition.lists.as_slice())?;
    let operators = quiet_operators(alloc, definition.operators.as_slice())?;
    Ok(Definition {
        version: definition.version,
        signature,
        spaces: Seq::of(spaces),
        phyla: Seq::of(phyla),
        lists: Seq::of(lists),
        operators: Seq::of(operators),
        hole_rows: Seq::of(Vec::new(alloc)),
        declare_rows: Seq::of(Vec::new(alloc)),
    })
}

impl Grammar {
    /// Makes the grammar of the definition. It takes a step for each item.
    pub fn of(alloc: Global, definition: &Definition) -> Result<Grammar, AllocError>
        requires sound { IsSound definition.now }
        ensures definition { IfOk result (λ made. made.definition ≡ grammars.quiet definition.now) }
        ensures table { IfOk result (λ made. IsParseTable made.definition made.table) }
    {
        let own = quiet(alloc, definition)?;
        let table = ParseTable::of(alloc, &own)?;
        Ok(Grammar {
            definition: own,
            table,
        })
    }
}
