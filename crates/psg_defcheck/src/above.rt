//! What the lines above a line declare.
ghost use Rattle.std.specs.Prelude.{◌≡◌, List, OnOk, ◌++◌, ◌∷◌, []};
ghost use Rattle.psg_terms.specs.Names.{Name, is_among};
ghost use Rattle.psg_deflines.specs.declared.lines.Line.{Line as Plain};
ghost use Rattle.psg_defcheck.specs.Scopes.{kind_names, names_of};
ghost use Rattle.psg_defcheck.specs.Meanings.{IsNew};
ghost use Rattle.psg_defcheck.specs.NameSets.{AreFresh, AreNames};

use crate::names::Names;
use crate::tables::Operator;
use psg_deflines::Line;
use psg_terms::ConDecl;
use std::alloc::{AllocError, Global};

/// The names that lines declare, and the operator and the hole row to which a row and a case after them belong.
#[derive(Drop)]
pub struct Above<'a> {
    /// The names of sorts.
    pub sorts: Names<'a>,
    /// The names of constructors.
    pub constructors: Names<'a>,
    /// The names of phyla.
    pub phyla: Names<'a>,
    /// The names of lists.
    pub lists: Names<'a>,
    /// The names of operators.
    pub operators: Names<'a>,
    /// The names of spaces.
    pub spaces: Names<'a>,
    /// The last operator, to which a row belongs.
    pub operator: Option<Operator<'a>>,
    /// The kind of the last hole row, to which a case belongs.
    pub hole: Option<&'a str>,
}

/// Puts the names of constructors among names.
fn add_constructors<'a>(
    names: &mut Names<'a>,
    constructors: &'a [ConDecl],
) -> Result<(), AllocError>
    ensures { (before : List Name) → AreNames before names.old → AreFresh before constructors.now
        → OnOk result (AreNames (before ++ names_of constructors.now) names.new) }
{
    for constructor in constructors {
        names.insert(constructor.name.as_str())?;
    }
    Ok(())
}

impl<'a> Above<'a> {
    ghost use Rattle.psg_defcheck.specs.Aboves.{IsAbove};

    /// Makes the names above the first line: there are none.
    pub fn nothing(alloc: Global) -> Above<'a>
        ensures { IsAbove [] result }
    {
        Above {
            sorts: Names::none(alloc),
            constructors: Names::none(alloc),
            phyla: Names::none(alloc),
            lists: Names::none(alloc),
            operators: Names::none(alloc),
            spaces: Names::none(alloc),
            operator: None,
            hole: None,
        }
    }

    /// Says whether the name is a phylum's or a list's.
    pub fn has_kind(&self, name: &str) -> bool
        ensures { (lines : List Plain) → IsAbove lines self.now → result ≡ is_among (kind_names lines) name.now }
    {
        if self.phyla.contains(name) {
            return true;
        }
        self.lists.contains(name)
    }

    /// Adds what a line declares, as the last line, where it declares no name again.
    pub fn add(&mut self, line: &'a Line) -> Result<(), AllocError>
        ensures { (lines : List Plain) → IsAbove lines self.old → IsNew lines line.now
            → OnOk result (IsAbove (lines ++ line.now ∷ []) self.new) }
    {
        match line {
            Line::Sort(d) => {
                self.sorts.insert(d.name.as_str())?;
                add_constructors(&mut self.constructors, d.constructors.as_slice())?;
            }
            Line::Space { name, .. } => {
                self.spaces.insert(name.as_str())?;
            }
            Line::Phylum { name, .. } => {
                self.phyla.insert(name.as_str())?;
            }
            Line::List { name, .. } => {
                self.lists.insert(name.as_str())?;
            }
            Line::Operator {
                name,
                phylum,
                items,
                ..
            } => {
                self.operators.insert(name.as_str())?;
                let phylum = phylum.as_str();
                let items = items.as_slice();
                self.operator = Some(Operator { phylum, items });
            }
            Line::Hole { kind, .. } => {
                self.hole = Some(kind.as_str());
            }
            _ => {}
        }
        Ok(())
    }
}
