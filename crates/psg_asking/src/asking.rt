//! Questions about a place of a program.
ghost use Rattle.std.specs.Prelude.{◌≡◌, option_copied, option_map, IfOk};
ghost use Rattle.psg_cache.specs.Annotated.{tree_in};
ghost use Rattle.psg_script.specs.declared.command.Where.TheVariants.{At as AtPath};
ghost use Rattle.psg_asking.specs.Asked.{IsKnown, IsReadOf, IsToldOf, menu_of, names_of, relation_of, there};
ghost use Rattle.psg_asking.specs.Programs.{IsProgram};
ghost use Rattle.psg_asking.specs.Told.{lines_told as lines_of, names_told, read_of, words_told as words_of};

use crate::asked::{Known, asked_at};
use crate::named::names_among;
use crate::program::{Program, reply_by};
use crate::words::{lines_told, words_told};
use psg_keymap::{Spot, copied};
use psg_script::{Command, Where};
use psg_session::Refusal;
use psg_terms::{Steps, Txt};
use psg_tree::Path;
use psg_world::Files;
use std::alloc::{AllocError, Global};
use std::sync::ledger::Ledger;

/// Returns the place of the path.
fn place_at(alloc: Global, path: &Path) -> Result<Where, AllocError>
    ensures { IfOk result (λ place. place ≡ AtPath path.now) }
{
    let same = copied(alloc, path)?;
    Ok(Where::At(same))
}

/// Returns the operators that fit at the spot: those of `menu`, in a wrong program in its repaired program. `None`
/// where no program is asked: where the repaired program has no such place, and where it is not known. The files stay
/// as they are. It fails where memory runs out.
pub fn menu_at<F: Files, L: Ledger>(
    alloc: Global,
    known: Known,
    spot: &Spot,
    files: &mut F,
    steps: &mut Steps<L>,
) -> Result<Option<Result<Vec<String>, Refusal>>, AllocError>
    requires { IsKnown known.program.language.now known.program.kind known.program.note.now known.wrong
        (option_copied known.repair) }
    ensures told { IfOk result (λ read. IsToldOf known.entry.program.language.now known.entry.program.kind
        (tree_in known.entry.program.note.now) spot.now menu_of words_of (option_map read_of read)) }
    ensures files { (F.holds files.new ≡ F.holds files.old) × (F.faults files.new ≡ F.faults files.old) }
{
    let found = asked_at(alloc, known, spot)?;
    match found {
        Some(asked) => {
            let program = Program {
                language: known.program.language,
                kind: known.program.kind,
                note: asked.note,
            };
            let read = menu_in(alloc, program, &asked.spot, files, steps)?;
            Ok(Some(read))
        }
        None => Ok(None),
    }
}

/// Returns the operators that fit at the spot of the program.
fn menu_in<F: Files, L: Ledger>(
    alloc: Global,
    program: Program,
    spot: &Spot,
    files: &mut F,
    steps: &mut Steps<L>,
) -> Result<Result<Vec<String>, Refusal>, AllocError>
    requires { IsProgram program.language.now program.kind program.note.now }
    ensures told { IfOk result (λ read. IsReadOf program.entry.language.now program.entry.kind menu_of words_of
        (there (tree_in program.entry.note.now) spot.now) (read_of read)) }
    ensures files { (F.holds files.new ≡ F.holds files.old) × (F.faults files.new ≡ F.faults files.old) }
{
    let at = place_at(alloc, &spot.target)?;
    let asked = Command::Menu {
        at,
        place: spot.place,
    };
    let reply = reply_by(alloc, program, asked, files, steps)?;
    let read = words_told(alloc, reply)?;
    Ok(read)
}

/// Returns the names with which the operator fits at the spot: those of `names`, in a wrong program in its repaired
/// program, that occur in the program. `None` where no program is asked: where the repaired program has no such place,
/// and where it is not known; a refusal where the operator has not exactly one name. The files stay as they are. It
/// fails where memory runs out.
pub fn names_at<F: Files, L: Ledger>(
    alloc: Global,
    known: Known,
    spot: &Spot,
    op: Txt,
    files: &mut F,
    steps: &mut Steps<L>,
) -> Result<Option<Result<Vec<String>, Refusal>>, AllocError>
    requires { IsKnown known.program.language.now known.program.kind known.program.note.now known.wrong
        (option_copied known.repair) }
    ensures told { IfOk result (λ read. IsToldOf known.entry.program.language.now known.entry.program.kind
        (tree_in known.entry.program.note.now) spot.now (names_of op)
        (names_told (tree_in known.entry.program.note.now)) (option_map read_of read)) }
    ensures files { (F.holds files.new ≡ F.holds files.old) × (F.faults files.new ≡ F.faults files.old) }
{
    let found = asked_at(alloc, known, spot)?;
    match found {
        Some(asked) => {
            let program = Program {
                language: known.program.language,
                kind: known.program.kind,
                note: asked.note,
            };
            let read = names_in(alloc, program, &asked.spot, op, files, steps)?;
            let tree = known.program.note.tree();
            let own = names_among(alloc, tree, read)?;
            Ok(Some(own))
        }
        None => Ok(None),
    }
}

/// Returns the names with which the operator fits at the spot of the program.
fn names_in<F: Files, L: Ledger>(
    alloc: Global,
    program: Program,
    spot: &Spot,
    op: Txt,
    files: &mut F,
    steps: &mut Steps<L>,
) -> Result<Result<Vec<String>, Refusal>, AllocError>
    requires { IsProgram program.language.now program.kind program.note.now }
    ensures told { IfOk result (λ read. IsReadOf program.entry.language.now program.entry.kind (names_of op) words_of
        (there (tree_in program.entry.note.now) spot.now) (read_of read)) }
    ensures files { (F.holds files.new ≡ F.holds files.old) × (F.faults files.new ≡ F.faults files.old) }
{
    let at = place_at(alloc, &spot.target)?;
    let asked = Command::Names {
        at,
        place: spot.place,
        op,
    };
    let reply = reply_by(alloc, program, asked, files, steps)?;
    let read = words_told(alloc, reply)?;
    Ok(read)
}

/// Returns the lines of the relation of the node at the spot: those of `relation`, in a wrong program in its repaired
/// program. `None` where no program is asked: where the repaired program has no such place, and where it is not known.
/// The files stay as they are. It fails where memory runs out.
pub fn relation_at<F: Files, L: Ledger>(
    alloc: Global,
    known: Known,
    spot: &Spot,
    files: &mut F,
    steps: &mut Steps<L>,
) -> Result<Option<Result<Vec<String>, Refusal>>, AllocError>
    requires { IsKnown known.program.language.now known.program.kind known.program.note.now known.wrong
        (option_copied known.repair) }
    ensures told { IfOk result (λ read. IsToldOf known.entry.program.language.now known.entry.program.kind
        (tree_in known.entry.program.note.now) spot.now relation_of lines_of (option_map read_of read)) }
    ensures files { (F.holds files.new ≡ F.holds files.old) × (F.faults files.new ≡ F.faults files.old) }
{
    let found = asked_at(alloc, known, spot)?;
    match found {
        Some(asked) => {
            let program = Program {
                language: known.program.language,
                kind: known.program.kind,
                note: asked.note,
            };
            let read = relation_in(alloc, program, &asked.spot, files, steps)?;
            Ok(Some(read))
        }
        None => Ok(None),
    }
}

/// Returns the lines of the relation of the node at the spot of the program.
fn relation_in<F: Files, L: Ledger>(
    alloc: Global,
    program: Program,
    spot: &Spot,
    files: &mut F,
    steps: &mut Steps<L>,
) -> Result<Result<Vec<String>, Refusal>, AllocError>
    requires { IsProgram program.language.now program.kind program.note.now }
    ensures told { IfOk result (λ read. IsReadOf program.entry.language.now program.entry.kind relation_of lines_of
        (there (tree_in program.entry.note.now) spot.now) (read_of read)) }
    ensures files { (F.holds files.new ≡ F.holds files.old) × (F.faults files.new ≡ F.faults files.old) }
{
    let at = place_at(alloc, &spot.target)?;
    let asked = Command::Relation { at };
    let reply = reply_by(alloc, program, asked, files, steps)?;
    let read = lines_told(alloc, reply)?;
    Ok(read)
}
