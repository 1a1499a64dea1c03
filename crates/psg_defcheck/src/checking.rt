//! The first fault of the meaning of a line.
ghost use Rattle.std.specs.Prelude.{IfOk, List};
ghost use Rattle.psg_deflines.specs.declared.lines.Line.{Line as Plain};
ghost use Rattle.psg_defcheck.specs.Aboves.{IsAbove};
ghost use Rattle.psg_defcheck.specs.Faults.{IsLineFault};
ghost use Rattle.psg_defcheck.specs.Grounds.{IsGround};

use crate::above::Above;
use crate::counted::is_counted;
use crate::ground::has_ground;
use crate::known::is_known;
use crate::names::Names;
use crate::new_names::is_new;
use crate::rest::{has_choice, has_entity};
use crate::scope::Scope;
use crate::sorted_lines::is_sorted;
use psg_deflines::{DefCode, Line};
use std::alloc::{AllocError, Global};

/// Returns the first test that the line fails, or none.
pub fn line_fault<'a>(
    alloc: Global,
    scope: &Scope<'a>,
    marks: &Names,
    above: &Above<'a>,
    line: &'a Line,
) -> Result<Option<DefCode>, AllocError>
    requires ground { IsGround scope.now marks.now }
    requires above { (lines : List Plain) × IsAbove lines above.now }
    ensures { (lines : List Plain) → IsAbove lines above.now → IfOk result (IsLineFault scope.now lines line.now) }
{
    let new = is_new(alloc, above, line)?;
    if !new {
        return Ok(Some(DefCode::Repeated));
    }
    if !is_known(scope, line) {
        return Ok(Some(DefCode::Unknown));
    }
    if !is_counted(scope, above, line) {
        return Ok(Some(DefCode::Count));
    }
    let sorted = is_sorted(alloc, scope, above, line)?;
    if !sorted {
        return Ok(Some(DefCode::Sort));
    }
    if !has_entity(scope, line) {
        return Ok(Some(DefCode::NoEntity));
    }
    if !has_ground(marks, line) {
        return Ok(Some(DefCode::NoGround));
    }
    if !has_choice(line) {
        return Ok(Some(DefCode::OneWide));
    }
    Ok(None)
}
