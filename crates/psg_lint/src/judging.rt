//! What is found in a program that was read.
ghost use Rattle.std.specs.Prelude.{◌≡◌, ◌++◌, ◌⊎◌, Bool, IfOk, List, OnOk, false, true};
ghost use Rattle.psg_completions.specs.Conditions.{HasTrueRows};
ghost use Rattle.psg_grammar.specs.Open.{IsOpen};
ghost use Rattle.psg_cache.specs.Notes.{IsNoteOf, TellsOpen};
ghost use Rattle.psg_recover.specs.Findings as findings;
ghost use Rattle.psg_recover.specs.Findings.{has_error as has_error_of};
ghost use Rattle.psg_recover.specs.Spotted.{IsSpotsOf};
ghost use Rattle.psg_recover.specs.TextPlaces.{Read};
ghost use Rattle.psg_recover.specs.declared.finding.Finding.{Finding as Told};
ghost use Rattle.psg_uses.specs.Free.{free_uses};
ghost use Rattle.psg_lint.specs.Judged.{IsJudged};
ghost use Rattle.psg_lint.specs.OpenPlaces.{AreNotes};
ghost use Rattle.psg_lint.specs.Reports.{AreFound};
ghost use Rattle.psg_lint.specs.Warnings.{warnings};
ghost use Rattle.psg_lint.specs.Wrongs.{AreWrong};

use crate::blaming::{tell_wrong, told_limit};
use crate::open_places::tell_open;
use crate::trials::Judged;
use crate::warnings::tell_free;
use psg_cache::{Note, build};
use psg_recover::finding::{Finding, Grade};
use psg_terms::Steps;
use std::alloc::{AllocError, Global};
use std::sync::ledger::Ledger;

/// Says whether it is an error.
fn is_error(one: &Finding) -> bool
    ensures { result ≡ findings.is_error one.now }
{
    match one.grade {
        Grade::Error => true,
        Grade::Warning => false,
        Grade::Note => false,
    }
}

/// Says whether one of them is an error.
fn has_error(found: &[Finding]) -> bool
    ensures { result ≡ has_error_of found.now }
{
    found.iter().any(|one| is_error(one))
}

/// Adds what is reported about the program, which has a completion: the names that nothing declares, and what is open.
fn tell_good<L: Ledger>(
    alloc: Global,
    judged: Judged,
    note: &Note,
    found: &mut Vec<Finding>,
    steps: &mut Steps<L>,
) -> Result<(), AllocError>
    requires judged { IsJudged judged }
    requires note { IsNoteOf judged.definition.now judged.tree.now note.now }
    ensures { OnOk result ((r : Read) → IsSpotsOf judged.entry.spots r → (notes : List Told)
        × (found.new.items ≡ found.old.items ++ (warnings judged.entry.definition.now r
        (free_uses judged.entry.definition.now judged.entry.tree.now) ++ notes))
        × AreNotes judged.entry.definition.now judged.entry.tree.now r notes) }
{
    tell_free(alloc, judged.tree, judged.spots, found)?;
    tell_open(alloc, judged, note, found, steps)?;
    Ok(())
}

/// Adds what is wrong in the program, which has the note, if it has no completion, and says whether more may follow.
fn tell_if_wrong<L: Ledger>(
    alloc: Global,
    judged: Judged,
    note: &Note,
    good: bool,
    found: &mut Vec<Finding>,
    steps: &mut Steps<L>,
) -> Result<bool, AllocError>
    requires judged { IsJudged judged }
    requires rows { HasTrueRows judged.definition.now }
    requires note { IsNoteOf judged.definition.now judged.tree.now note.now }
    requires good { (good ≡ true → IsOpen judged.definition.now judged.tree.now)
        × (IsOpen judged.definition.now judged.tree.now → good ≡ true) }
    ensures { IfOk result (λ more. (r : Read) → IsSpotsOf judged.entry.spots r → (told : List Told)
        × (found.new.items ≡ found.old.items ++ told)
        × ((limited : Bool)
        × AreWrong judged.entry.definition.now judged.entry.text.now judged.entry.tree.now r limited told
        more)) }
{
    if good {
        return Ok(false);
    }
    let more = tell_wrong(alloc, judged, note, found, steps)?;
    Ok(more)
}

/// Adds what is found in the program, which has the note, and says whether more may follow. Of open places nothing is
/// reported where something is wrong.
fn tell_noted<L: Ledger>(
    alloc: Global,
    judged: Judged,
    note: &Note,
    found: &mut Vec<Finding>,
    steps: &mut Steps<L>,
) -> Result<bool, AllocError>
    requires judged { IsJudged judged }
    requires rows { HasTrueRows judged.definition.now }
    requires note { IsNoteOf judged.definition.now judged.tree.now note.now }
    requires good { TellsOpen judged.definition.now judged.tree.now note.now }
    ensures { IfOk result (λ more. (r : Read) → IsSpotsOf judged.entry.spots r → (told : List Told)
        × (found.new.items ≡ found.old.items ++ told)
        × ((limited : Bool) × AreFound judged.entry.definition.now judged.entry.text.now judged.entry.tree.now r
        (has_error_of found.old.items) limited told more)) }
{
    let stopped = has_error(found.as_slice());
    let good = note.is_good();
    let whole = is_both(good, stopped);
    if whole {
        tell_good(alloc, judged, note, found, steps)?;
        return Ok(false);
    }
    let more = tell_if_wrong(alloc, judged, note, good, found, steps)?;
    tell_free(alloc, judged.tree, judged.spots, found)?;
    Ok(more)
}

/// Says whether the first holds and the second does not.
fn is_both(one: bool, other: bool) -> bool
    ensures yes { result ≡ true → (one ≡ true) × (other ≡ false) }
    ensures no { result ≡ false → (one ≡ false) ⊎ (other ≡ true) }
{
    one && !other
}

/// Adds what is found in the program to what was found in reading it, and says whether more may follow.
pub(crate) fn tell_program<L: Ledger>(
    alloc: Global,
    judged: Judged,
    found: &mut Vec<Finding>,
    steps: &mut Steps<L>,
) -> Result<bool, AllocError>
    requires judged { IsJudged judged }
    requires rows { HasTrueRows judged.definition.now }
    ensures { IfOk result (λ more. (r : Read) → IsSpotsOf judged.entry.spots r → (told : List Told)
        × (found.new.items ≡ found.old.items ++ told)
        × ((limited : Bool) × AreFound judged.entry.definition.now judged.entry.text.now judged.entry.tree.now r
        (has_error_of found.old.items) limited told more)) }
{
    let definition = judged.definition;
    let tables = judged.tables;
    match build(alloc, definition, tables, judged.tree, steps) {
        Ok(note) => {
            let more = tell_noted(alloc, judged, &note, found, steps)?;
            Ok(more)
        }
        Err(fault) => {
            let told = told_limit(alloc, judged, &fault)?;
            found.push(told)?;
            Ok(false)
        }
    }
}
