//! A step, without its rows.
ghost use Rattle.std.specs.Prelude.{◌≡◌, ◌++◌, IfOk, OnOk};
ghost use Rattle.psg_explain.specs.Splits.{name_of_part, names_among};

use psg_scope::{Header, Names};
use psg_terms::{Seq, Txt};
use psg_tree::{Part, Tree};
use std::alloc::{AllocError, Global};

/// The node of a step.
#[derive(Drop)]
pub(crate) enum Site {
    /// A placeholder or an operator's node.
    Node(Tree),
    /// The end of a list.
    End { list: u32, unfinished: bool },
    /// A cell of a list.
    Cell(u32),
}

/// What the rows of a step are made of.
#[derive(Drop)]
pub(crate) enum Source {
    /// The node's own rows.
    Own,
    /// The rows of the step before and those of the child's last step, by the places of these steps, with the keys of
    /// both.
    Pair {
        before: usize,
        child: usize,
        left: Names,
        right: Names,
    },
    /// The rows of the step before, where the keys that end there are dropped, with the keys of that step.
    Closed {
        before: usize,
        inside: Names,
    },
}

/// A step of a node.
#[derive(Drop)]
pub(crate) struct Stage {
    /// The path of the node; of a list's end and cells that of the list.
    pub(crate) path: Seq<u32>,
    /// Of a list the number of the cell; the end has as many as the list has elements.
    pub(crate) cell: Option<u32>,
    /// The number of the step.
    pub(crate) step: usize,
    /// The node.
    pub(crate) site: Site,
    /// The keys of the step.
    pub(crate) header: Header,
    /// What its rows are made of.
    pub(crate) source: Source,
}

/// Adds the name, if the part is one.
fn add_name(found: &mut Vec<Txt>, part: &Part) -> Result<(), AllocError>
    ensures { OnOk result (found.new.items ≡ found.old.items ++ name_of_part part.now) }
{
    match part {
        Part::Name(name) => {
            found.push(name.share()?)?;
            Ok(())
        }
        Part::Sub(_) => Ok(()),
        Part::Number(_) => Ok(()),
        Part::Text(_) => Ok(()),
    }
}

/// Returns the names among the parts, each with one more owner.
pub(crate) fn names_of(alloc: Global, parts: &[Part]) -> Result<Vec<Txt>, AllocError>
    ensures { IfOk result (λ v. v.items ≡ names_among parts.now) }
{
    let mut found = Vec::new(alloc);
    for part in parts {
        add_name(&mut found, part)?;
    }
    Ok(found)
}
