//! What the lines of a file declare, by name.
ghost use Rattle.std.specs.Prelude.{◌≡◌, Option, ◌∷◌, List, ℕ, [], IfOk, OnOk, IsTrue, is_some, None};
ghost use Rattle.std.specs.Option.{option_map};
ghost use Rattle.psg_terms.specs.Names.{Name};
ghost use Rattle.psg_deflines.specs.Entries.{written};
ghost use Rattle.psg_deflines.specs.declared.lines.Line.{Line as Plain};
ghost use Rattle.psg_defcheck.specs.Scopes.{Constructor, constructor_among, constructor_declared, kind_declared};
ghost use Rattle.psg_defcheck.specs.Scopes.{operator_declared, sort_declared};
ghost use Rattle.psg_defcheck.specs.Tables.{TellsConstructors, AreTables, constructor_told, kind_told, operator_told};

use psg_deflines::{Line, LineItem};
use psg_terms::{ConDecl, SortDecl, Txt};
use std::alloc::{AllocError, Global};
use std::collections::HashMap;
use std::marker::Model;

/// A constructor with the name of its sort.
#[derive(Clone, Copy)]
pub struct DeclaredConstructor<'a> {
    /// The name of the sort.
    pub sort: &'a str,
    /// The constructor with the sorts of its arguments.
    pub decl: &'a ConDecl,
}

/// What the line of a phylum or list says: the sort of its values, and the phylum of a list's elements.
#[derive(Clone, Copy)]
pub enum Kind<'a> {
    /// A phylum with the sort of its values.
    Phylum { sort: &'a str },
    /// A list with the sort of its values and the phylum of its elements.
    List { sort: &'a str, element: &'a str },
}

/// What an operator's line says of its trees.
#[derive(Clone, Copy)]
pub struct Operator<'a> {
    /// The name of its phylum.
    pub phylum: &'a str,
    /// Its items, in order.
    pub items: &'a [LineItem],
}

/// Each declared name with what its first declaration says.
#[derive(Drop)]
pub struct Tables<'a> {
    /// The sorts by name.
    pub sorts: HashMap<&'a str, &'a SortDecl>,
    /// The constructors by name.
    pub constructors: HashMap<&'a str, DeclaredConstructor<'a>>,
    /// The phyla and lists by name.
    pub kinds: HashMap<&'a str, Kind<'a>>,
    /// The operators by name.
    pub operators: HashMap<&'a str, Operator<'a>>,
    /// The sorts of the spaces by name.
    pub spaces: HashMap<&'a str, &'a str>,
    /// The sort of the first space.
    pub entity: Option<&'a str>,
}

/// Puts constructors of a sort in front of others: what they declare is found first.
fn add_constructors<'a>(
    table: &mut HashMap<&'a str, DeclaredConstructor<'a>>,
    sort: &'a str,
    decls: &'a [ConDecl],
) -> Result<(), AllocError>
    ensures { (behind : Name → Option Constructor) → TellsConstructors table.old behind
        → OnOk result (TellsConstructors table.new (λ n. constructor_among sort.now decls.now n (behind n))) }
{
    let mut rest = decls;
    while let Some((decl, front)) = rest.split_last() {
        rest = front;
        table.insert(decl.name.as_str(), DeclaredConstructor { sort, decl })?;
    }
    Ok(())
}

impl<'a> Tables<'a> {
    /// Makes the tables of no lines.
    fn empty(alloc: Global) -> Tables<'a>
        ensures { AreTables [] result }
    {
        Tables {
            sorts: HashMap::new(alloc),
            constructors: HashMap::new(alloc),
            kinds: HashMap::new(alloc),
            operators: HashMap::new(alloc),
            spaces: HashMap::new(alloc),
            entity: None,
        }
    }

    /// Puts a line in front of others: what it declares is found first.
    fn add(&mut self, line: &'a Line) -> Result<(), AllocError>
        ensures { (file : List Plain) → AreTables file self.old → OnOk result (AreTables (line.now ∷ file) self.new) }
    {
        match line {
            Line::Sort(d) => {
                let name = d.name.as_str();
                add_constructors(&mut self.constructors, name, d.constructors.as_slice())?;
                self.sorts.insert(name, d)?;
            }
            Line::Space { name, sort } => {
                let sort = sort.as_str();
                self.spaces.insert(name.as_str(), sort)?;
                self.entity = Some(sort);
            }
            Line::Phylum { name, sort, .. } => {
                let sort = sort.as_str();
                self.kinds.insert(name.as_str(), Kind::Phylum { sort })?;
            }
            Line::List {
                name,
                sort,
                element,
                ..
            } => {
                let sort = sort.as_str();
                let element = element.as_str();
                self.kinds
                    .insert(name.as_str(), Kind::List { sort, element })?;
            }
            Line::Operator {
                name,
                phylum,
                items,
                ..
            } => {
                let phylum = phylum.as_str();
                let items = items.as_slice();
                self.operators
                    .insert(name.as_str(), Operator { phylum, items })?;
            }
            _ => {}
        }
        Ok(())
    }

    /// Makes the tables of the lines among the entries, in one walk from the last one on.
    pub fn of(alloc: Global, entries: &'a [Option<Line>]) -> Result<Tables<'a>, AllocError>
        ensures { IfOk result (AreTables (written entries.now)) }
    {
        let mut tables = Tables::empty(alloc);
        let mut rest = entries;
        while let Some((entry, front)) = rest.split_last() {
            rest = front;
            if let Some(line) = entry {
                tables.add(line)?;
            }
        }
        Ok(tables)
    }
}
