//! Whether the names that a line declares are new.
ghost use Rattle.std.specs.Prelude.{◌↔◌, List, IfOk, IsTrue};
ghost use Rattle.psg_terms.specs.Names.{Name};
ghost use Rattle.psg_deflines.specs.declared.lines.Line.{Line as Plain};
ghost use Rattle.psg_defcheck.specs.Meanings as meanings;
ghost use Rattle.psg_defcheck.specs.NameSets.{AreFresh, AreNames};
ghost use Rattle.psg_defcheck.specs.Aboves.{IsAbove};

use crate::above::Above;
use crate::names::Names;
use psg_deflines::Line;
use psg_terms::ConDecl;
use std::alloc::{AllocError, Global};

/// Says whether no name of the constructors is there twice or is one of the names.
fn are_new(alloc: Global, names: &Names, constructors: &[ConDecl]) -> Result<bool, AllocError>
    ensures { IfOk result (λ b. (before : List Name) → AreNames before names.now
        → IsTrue b ↔ AreFresh before constructors.now) }
{
    let mut seen = Names::none(alloc);
    for constructor in constructors {
        let name = constructor.name.as_str();
        if names.contains(name) {
            return Ok(false);
        }
        if seen.contains(name) {
            return Ok(false);
        }
        seen.insert(name)?;
    }
    Ok(true)
}

/// Says whether no name that the line declares was declared before, in the line or above it. The space of an entity
/// line has the empty name.
pub fn is_new(alloc: Global, above: &Above, line: &Line) -> Result<bool, AllocError>
    ensures { (lines : List Plain) → IsAbove lines above.now
        → IfOk result (λ b. IsTrue b ↔ meanings.IsNew lines line.now) }
{
    match line {
        Line::Sort(d) => {
            if above.sorts.contains(d.name.as_str()) {
                return Ok(false);
            }
            let new = are_new(alloc, &above.constructors, d.constructors.as_slice())?;
            Ok(new)
        }
        Line::Space { name, .. } => Ok(!above.spaces.contains(name.as_str())),
        Line::Phylum { name, .. } => Ok(!above.has_kind(name.as_str())),
        Line::List { name, .. } => Ok(!above.has_kind(name.as_str())),
        Line::Operator { name, .. } => Ok(!above.operators.contains(name.as_str())),
        _ => Ok(true),
    }
}
