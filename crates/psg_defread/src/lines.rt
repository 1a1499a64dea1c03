//! The lines of a definition.
ghost use Rattle.std.specs.Prelude.{◌≡◌, IfOk};
ghost use Rattle.psg_grammar.specs.Sound.{IsSound};
ghost use Rattle.psg_defread.specs.WrittenLines.{lines_of};

use crate::holes::{push_declares, push_holes};
use crate::kinds::{push_lists, push_phyla, push_spaces};
use crate::list_rows::{push_cells, push_nils};
use crate::operators::push_operators;
use crate::sorts::push_sorts;
use psg_deflines::Line;
use psg_grammar::Definition;
use std::alloc::{AllocError, Global};

/// Makes the lines that write the definition, in the order of the file. It calls itself as deep as terms and specimens
/// are nested, which is at most 32 in a definition that was read.
pub fn definition_lines(alloc: Global, definition: &Definition) -> Result<Vec<Line>, AllocError>
    requires { IsSound definition.now }
    ensures { IfOk result (λ v. v.items ≡ lines_of definition.now) }
{
    let mut out = Vec::new(alloc);
    push_sorts(alloc, definition, &mut out)?;
    push_spaces(alloc, definition, definition.spaces.as_slice(), &mut out)?;
    push_phyla(alloc, definition, definition.phyla.as_slice(), &mut out)?;
    push_lists(alloc, definition, definition.lists.as_slice(), &mut out)?;
    push_operators(alloc, definition, definition.operators.as_slice(), &mut out)?;
    push_nils(alloc, definition, definition.lists.as_slice(), &mut out)?;
    push_cells(alloc, definition, definition.lists.as_slice(), &mut out)?;
    push_holes(alloc, definition, definition.hole_rows.as_slice(), &mut out)?;
    push_declares(
        alloc,
        definition,
        definition.declare_rows.as_slice(),
        &mut out,
    )?;
    Ok(out)
}
