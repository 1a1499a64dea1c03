//! Definitions as texts.
ghost use Rattle.std.specs.Prelude.{◌≡◌, ◌+◌, ◌++◌, ◌∷◌, [], codes, IfOk, OnOk, List, ℕ, string_bytes};
ghost use Rattle.psg_deflines.specs.Versions.{IsVersion};
ghost use Rattle.psg_grammar.specs.Sound.{IsSound};
ghost use Rattle.psg_deflines.specs.Forms.{HasForm, SpellsLine};
ghost use Rattle.psg_defread.specs.Reading.{IsReadAs};
ghost use Rattle.psg_defread.specs.Layout.{HasLayout};
ghost use Rattle.psg_defread.specs.DefinitionText.{line_text as written_line, text_of};

use crate::lines::definition_lines;
use psg_deflines::laws::one_line;
use psg_deflines::{Line, line_text};
use psg_grammar::Definition;
use std::alloc::{AllocError, Global};

/// Puts the text of a line and a line feed after what there is.
fn push_line(alloc: Global, text: &mut String, line: &Line) -> Result<(), AllocError>
    ensures { OnOk result ((own : List ℕ) × (HasForm line.now → SpellsLine own line.now)
        × (HasForm line.now → own ≡ written_line line.now)
        × (string_bytes text.new ≡ string_bytes text.old ++ (own ++ 10 ∷ []))) }
{
    let own = line_text(alloc, line)?;
    text.push_str(own.as_str())?;
    text.push_str("\n")?;
    Ok(())
}

/// Returns the first line of a definition of the version, with its line feed.
fn head(version: u32) -> &'static str
    ensures { IsVersion version → result.now ≡ codes "psg " ++ (48 + version) ∷ 10 ∷ [] }
{
    if version == 2 { "psg 2\n" } else { "psg 1\n" }
}

/// Writes the definition as a text: version, sorts, spaces, phyla, lists, operators each with its rows, nil rows, cell
/// rows, hole rows each with its cases on lines of their own, declare rows; variables are written by their numbers, and
/// one space is between two parts of a line. A definition that was read from a text is what this text spells, without a
/// fault. It takes time linear in the text, and calls itself as deep as terms and specimens are nested.
pub fn definition_text(alloc: Global, definition: &Definition) -> Result<String, AllocError>
    requires { IsSound definition.now }
    ensures inverse { IfOk result
        (λ text. (bytes : List ℕ) → IsReadAs bytes definition.now → IsReadAs (string_bytes text) definition.now) }
    ensures layout { IfOk result
        (λ text. (bytes : List ℕ) → IsReadAs bytes definition.now
        → HasLayout definition.now.version (string_bytes text)) }
    ensures text { IfOk result
        (λ text. (bytes : List ℕ) → IsReadAs bytes definition.now → string_bytes text ≡ text_of definition.now) }
{
    let written = definition_lines(alloc, definition)?;
    let lines = written.as_slice();
    let mut text = String::from_str(alloc, head(definition.version))?;
    for i in 0..lines.len() {
        push_line(alloc, &mut text, &lines[i])?;
    }
    one_line();
    Ok(text)
}
