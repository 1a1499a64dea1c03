//! Which program is asked about a place: a wrong one is asked in its repaired program.
ghost use Rattle.std.specs.Prelude.{◌≡◌, None, Some, true, option_copied, option_map, IfOk, IfSome, MatchOption};
ghost use Rattle.psg_cache.specs.Annotated.{Annotated, tree_in};
ghost use Rattle.psg_grammar.specs.declared.types.Definition.{Definition as PlainDefinition};
ghost use Rattle.psg_grammar.specs.declared.types.Kind.{Kind as PlainKind};
ghost use Rattle.psg_grammar.specs.Fragments.{Fragment};
ghost use Rattle.psg_grammar.specs.Legal.{IsCompletable};
ghost use Rattle.psg_grammar.specs.Printable.{IsPrintable};
ghost use Rattle.psg_grammar.specs.WellFormed.{WellFormed};
ghost use Rattle.psg_keymap.specs.Repairs.{IsRepairOf, place_in as place_in_repaired};
ghost use Rattle.psg_asking.specs.Asked.{IsAskedAt, IsKnown, spot_there, there_by};
ghost use Rattle.psg_asking.specs.Programs.{IsProgram};

use crate::program::Program;
use psg_cache::Note;
use psg_keymap::{Repair, Spot, copied, place_in};
use psg_places::{Place, path_there};
use psg_tree::Path;
use std::alloc::{AllocError, Global};

/// A program, and what is known of its wrong places.
#[derive(Clone, Copy)]
pub struct Known<'a> {
    /// The program.
    pub program: Program<'a>,
    /// Whether it has no completion.
    pub wrong: bool,
    /// Its blamed places, where it is wrong and they are known.
    pub repair: Option<&'a Repair>,
}

/// The program that is asked, with what is known of it, and the spot there.
#[derive(Drop)]
pub struct Asked<'a> {
    /// The note of the program that is asked.
    pub note: &'a Note,
    /// The spot in that program.
    pub spot: Spot,
}

/// Returns the program that is asked about a spot, and the spot there: the program itself where it has a completion,
/// else its repaired program. `None` where that has no such place, and where it is not known. It fails where memory
/// runs out.
pub fn asked_at<'a>(
    alloc: Global,
    known: Known<'a>,
    spot: &Spot,
) -> Result<Option<Asked<'a>>, AllocError>
    requires { IsKnown known.program.language.now known.program.kind known.program.note.now known.wrong
        (option_copied known.repair) }
    ensures asked { IfOk result (λ o. IsAskedAt known.entry.program.language.now
        (tree_in known.entry.program.note.now) spot.now (there_by o)) }
    ensures program { IfOk result (λ o. IfSome o (λ asked. IsProgram known.entry.program.language.now
        known.entry.program.kind asked.note.now)) }
{
    let wrong = known.wrong;
    if wrong {
        let asked = asked_repaired(alloc, known.repair, spot)?;
        return Ok(asked);
    }
    let same = spot_copied(alloc, spot)?;
    Ok(Some(Asked {
        note: known.program.note,
        spot: same,
    }))
}

/// Returns one more spot of the same path and place.
fn spot_copied(alloc: Global, spot: &Spot) -> Result<Spot, AllocError>
    ensures { IfOk result (λ same. same ≡ spot.now) }
{
    let target = copied(alloc, &spot.target)?;
    let place = spot.place;
    Ok(Spot { target, place })
}

/// Returns the repaired program and the spot there, where both are known.
fn asked_repaired<'a>(
    alloc: Global,
    repair: Option<&'a Repair>,
    spot: &Spot,
) -> Result<Option<Asked<'a>>, AllocError>
    ensures asked { (def : PlainDefinition) (kind : PlainKind) (note : Annotated)
        → IsKnown def kind note true (option_copied repair.entry)
        → IfOk result (λ o. IsAskedAt def (tree_in note) spot.now (there_by o)) }
    ensures program { (def : PlainDefinition) (kind : PlainKind) (note : Annotated)
        → IsKnown def kind note true (option_copied repair.entry)
        → IfOk result (λ o. IfSome o (λ asked. IsProgram def kind asked.note.now)) }
{
    match repair {
        Some(repair) => {
            let asked = asked_in(alloc, repair, spot)?;
            Ok(asked)
        }
        None => Ok(None),
    }
}

/// Returns the repaired program and the spot there, where that has no more than a hundred blamed places, passes no
/// limit, and has such a place.
fn asked_in<'a>(
    alloc: Global,
    repair: &'a Repair,
    spot: &Spot,
) -> Result<Option<Asked<'a>>, AllocError>
    ensures asked { (def : PlainDefinition) (tree : Fragment) → (IsCompletable def tree → ⊥)
        → IsRepairOf def tree repair.now → IfOk result (λ o. IsAskedAt def tree spot.now (there_by o)) }
    ensures program { (def : PlainDefinition) (tree : Fragment) (kind : PlainKind)
        → IsRepairOf def tree repair.now → WellFormed def tree kind → IsPrintable tree
        → IfOk result (λ o. IfSome o (λ asked. IsProgram def kind asked.note.now)) }
{
    match &repair.note {
        Some(note) => {
            let there = spot_in(alloc, repair.places.as_slice(), spot)?;
            let asked = asked_by(note, there);
            Ok(asked)
        }
        None => Ok(None),
    }
}

/// Returns the program and the spot, where there is one.
fn asked_by<'a>(note: &'a Note, there: Option<Spot>) -> Option<Asked<'a>>
    ensures { MatchOption there (result ≡ None) (λ spot. result ≡ Some (record { note = note.entry; spot = spot })) }
{
    match there {
        Some(spot) => Some(Asked { note, spot }),
        None => None,
    }
}

/// Returns the spot in the repaired program; `None` where that has no such place. It fails where memory runs out.
pub fn spot_in(alloc: Global, blamed: &[Place], spot: &Spot) -> Result<Option<Spot>, AllocError>
    ensures { IfOk result (λ there. there ≡ spot_there blamed.now spot.now) }
{
    match path_there(alloc, blamed, &spot.target)? {
        Some(target) => {
            let place = place_there(blamed, &spot.target, spot.place);
            Ok(Some(Spot { target, place }))
        }
        None => Ok(None),
    }
}

/// Returns the place of the list in the repaired program, if it is a place of a list.
fn place_there(blamed: &[Place], list: &Path, place: Option<u32>) -> Option<u32>
    ensures { result ≡ option_map (place_in_repaired blamed.now list.now) place }
{
    match place {
        Some(place) => {
            let there = place_in(blamed, list, place);
            Some(there)
        }
        None => None,
    }
}
