//! The lines of sorts.
ghost use Rattle.std.specs.Prelude.{◌≡◌, ◌<◌, ◌++◌, length, map, IfOk, OnOk};
ghost use Rattle.psg_terms.specs.Kept.{numbers_of};
ghost use Rattle.psg_deflines.specs.declared.lines.Line.TheVariants as lines;
ghost use Rattle.psg_defread.specs.WrittenLines.{sort_name, constructors_written, sort_lines};
ghost use Rattle.psg_defread.specs.ConstructorAt.{constructor_at};

use crate::names::{constructor_name, sort_name};
use psg_deflines::Line;
use psg_grammar::Definition;
use psg_terms::{ConDecl, ConId, Seq, SortDecl, SortId, Txt};
use std::alloc::{AllocError, Global};

/// Returns the names of sorts.
fn sorts_written(
    alloc: Global,
    definition: &Definition,
    sorts: &[SortId],
) -> Result<Vec<Txt>, AllocError>
    ensures { IfOk result (λ v. v.items ≡ map (sort_name definition.now) (numbers_of sorts.now)) }
{
    let mut written = Vec::with_capacity(alloc, sorts.len())?;
    for i in 0..sorts.len() {
        let one = sort_name(alloc, definition, sorts[i])?;
        written.push(one)?;
    }
    Ok(written)
}

/// Returns the constructor as its sort declares it.
fn constructor_written(
    alloc: Global,
    definition: &Definition,
    con: ConId,
) -> Result<ConDecl, AllocError>
    requires { con.0 < length definition.now.signature.symbols }
    ensures { IfOk result (λ d. d ≡ constructor_at definition.now con.0) }
{
    let name = constructor_name(alloc, definition, con)?;
    let own = definition.signature.constructor(con);
    let args = sorts_written(alloc, definition, own.args.as_slice())?;
    let args = Seq::of(args);
    Ok(ConDecl { name, args })
}

/// Returns the constructors of a sort, in order.
fn constructors_written(
    alloc: Global,
    definition: &Definition,
    sort: SortId,
) -> Result<Vec<ConDecl>, AllocError>
    requires { sort.0 < length definition.now.signature.sorts }
    ensures { IfOk result (λ v. v.items ≡ constructors_written definition.now sort.0 definition.now.signature.symbols) }
{
    let ids = definition.signature.constructors_of(sort);
    let mut written = Vec::with_capacity(alloc, ids.len())?;
    for i in 0..ids.len() {
        let one = constructor_written(alloc, definition, ids[i])?;
        written.push(one)?;
    }
    Ok(written)
}

/// Returns the line of a sort.
fn sort_line(alloc: Global, definition: &Definition, sort: SortId) -> Result<Line, AllocError>
    requires { sort.0 < length definition.now.signature.sorts }
    ensures { IfOk result (λ l. l ≡ lines.Sort (record {
      name = sort_name definition.now sort.0;
      constructors = constructors_written definition.now sort.0 definition.now.signature.symbols;
    })) }
{
    let name = sort_name(alloc, definition, sort)?;
    let constructors = constructors_written(alloc, definition, sort)?;
    let constructors = Seq::of(constructors);
    Ok(Line::Sort(SortDecl { name, constructors }))
}

/// Puts the lines of all sorts after the others.
pub fn push_sorts(
    alloc: Global,
    definition: &Definition,
    out: &mut Vec<Line>,
) -> Result<(), AllocError>
    ensures { OnOk result (out.new.items
        ≡ out.old.items ++ sort_lines definition.now 0 definition.now.signature.sorts) }
{
    for i in 0..definition.signature.sorts() {
        let line = sort_line(alloc, definition, SortId(i))?;
        out.push(line)?;
    }
    Ok(())
}
