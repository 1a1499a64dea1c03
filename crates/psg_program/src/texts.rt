//! The text that a program file is to have.
ghost use Rattle.std.specs.Prelude.{◌≡◌, IfOk, string_bytes};
ghost use Rattle.psg_grammar.specs.Sound.{IsSound};
ghost use Rattle.psg_program.specs.Formatted.{formatted as formatted_of};

use psg_grammar::Definition;
use psg_tree::Tree;
use psg_unparse::unparse;
use std::alloc::{AllocError, Global};

/// Writes the text that a file with the program is to have: its printed text and a line feed. It fails where memory
/// runs out, and takes time linear in the text.
pub fn formatted(alloc: Global, definition: &Definition, tree: &Tree) -> Result<String, AllocError>
    requires sound { IsSound definition.now }
    ensures { IfOk result (λ text. string_bytes text ≡ formatted_of definition.now tree.now) }
{
    let printed = unparse(alloc, definition, tree)?;
    let text = format!(in alloc; "{}\n", printed.text.as_str())?;
    Ok(text)
}
