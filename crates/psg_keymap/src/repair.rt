//! The wrong places of a program, and its repaired program, in which they are opened.
ghost use Rattle.std.specs.Prelude.{ℕ, ◌≡◌, ◌+◌, ◌-◌, ◌*◌, ◌^◌, ◌<◌, ◌≤◌, ◌&&◌, cond, nat_eq, nat_lt, IfOk};
ghost use Rattle.std.specs.Cmp.Lexicographic.{pointwise};
ghost use Rattle.psg_cache.specs.Notes.{AreTables, IsFormed, IsNoteFault};
ghost use Rattle.psg_completions.specs.Conditions.{HasTrueRows};
ghost use Rattle.psg_grammar.specs.declared.types.Definition.{Definition as PlainDefinition};
ghost use Rattle.psg_grammar.specs.Fragments.{Fragment};
ghost use Rattle.psg_grammar.specs.Legal.{IsCompletable};
ghost use Rattle.psg_grammar.specs.Sound.{IsSound};
ghost use Rattle.psg_grammar.specs.Work.{work_of};
ghost use Rattle.psg_places.specs.Answers.{IsBlameFault, IsFound, trials_work};
ghost use Rattle.psg_places.specs.Blame.{most_blamed};
ghost use Rattle.psg_places.specs.Places.{place_count};
ghost use Rattle.psg_places.specs.Ways as ways;
ghost use Rattle.psg_keymap.specs.Repairs as repaired;
ghost use Rattle.psg_keymap.specs.Repairs.{IsAnswer};

use psg_cache::{Note, NoteFault, build};
use psg_eval::Tables;
use psg_grammar::Definition;
use psg_places::{BlameFault, Blamed, MOST_BLAMED, Place, blame, blamed_places};
use psg_specimen::Language;
use psg_terms::Steps;
use psg_tree::{Path, Tree};
use std::alloc::{AllocError, Global};
use std::sync::ledger::Ledger;

/// The blamed places of a wrong program, in the order of the text, and the repaired program; none where a hundred
/// places are blamed, or where it passes a limit.
#[derive(Drop)]
pub struct Repair {
    /// The blamed places.
    pub places: Vec<Place>,
    /// The note of the repaired program, if it is known.
    pub note: Option<Note>,
}

/// Finds the blamed places of a program, and notes its repaired program, in which they are opened. Returns `None`
/// where no places are known: where a tree that is tried passes a limit, or where no program is left with every place
/// opened.
///
/// `steps` counts the evaluations: those of `blame`, and those of the repaired program. It fails where memory runs out.
pub fn repair_of<L: Ledger>(
    alloc: Global,
    language: &Language,
    tree: &Tree,
    steps: &mut Steps<L>,
) -> Result<Option<Repair>, AllocError>
    requires formed { IsFormed language.now tree.now }
    ensures found { IfOk result (IsAnswer language.now tree.now) }
    // 2 ^ h is no less than the number of places
    ensures ticks { (h : ℕ) → place_count language.now tree.now ≤ 2 ^ h
        → steps.new ≤ steps.old + trials_work (3 + most_blamed * (1 + h)) (work_of tree.now) }
{
    let definition = language.definition();
    let parts = language.parts();
    let found = found_by(alloc, definition, &parts.tables, tree, steps)?;
    Ok(found)
}

/// Finds the blamed places of a program, and notes its repaired program, by the tables of the definition.
fn found_by<L: Ledger>(
    alloc: Global,
    definition: &Definition,
    tables: &Tables,
    tree: &Tree,
    steps: &mut Steps<L>,
) -> Result<Option<Repair>, AllocError>
    requires sound { IsSound definition.now }
    requires tables { AreTables definition.now tables.now }
    requires rows { HasTrueRows definition.now }
    requires formed { IsFormed definition.now tree.now }
    ensures found { IfOk result (IsAnswer definition.now tree.now) }
    ensures ticks { (h : ℕ) → place_count definition.now tree.now ≤ 2 ^ h
        → steps.new ≤ steps.old + trials_work (3 + most_blamed * (1 + h)) (work_of tree.now) }
{
    let found = blamed_in(alloc, definition, tables, tree, steps)?;
    let repair = repaired_if(alloc, definition, tables, tree, found, steps)?;
    Ok(repair)
}

/// Finds which places of a program are kept; `None` where that is not known.
fn blamed_in<L: Ledger>(
    alloc: Global,
    definition: &Definition,
    tables: &Tables,
    tree: &Tree,
    steps: &mut Steps<L>,
) -> Result<Option<Blamed>, AllocError>
    requires sound { IsSound definition.now }
    requires tables { AreTables definition.now tables.now }
    requires rows { HasTrueRows definition.now }
    requires formed { IsFormed definition.now tree.now }
    ensures found { IfOk result (repaired.IsBlamed definition.now tree.now) }
    ensures ticks { (h : ℕ) → place_count definition.now tree.now ≤ 2 ^ h
        → steps.new ≤ steps.old + trials_work (2 + most_blamed * (1 + h)) (work_of tree.now) }
{
    match blame(alloc, definition, tables, tree, steps) {
        Ok(found) => Ok(found),
        Err(fault) => not_known(fault),
    }
}

/// Returns that the blamed places are not known, unless memory ran out.
fn not_known(fault: BlameFault) -> Result<Option<Blamed>, AllocError>
    ensures { (def : PlainDefinition) (tree : Fragment) → IsBlameFault def tree fault
        → IfOk result (repaired.IsBlamed def tree) }
{
    let memory = is_memory(&fault);
    drop(fault);
    if memory { Err(AllocError) } else { Ok(None) }
}

/// Says whether memory ran out.
fn is_memory(fault: &BlameFault) -> bool
    ensures { result ≡ repaired.is_memory fault.now }
{
    match fault {
        BlameFault::Limit { .. } => false,
        BlameFault::Memory => true,
    }
}

/// Lists the blamed places of a program, and notes the repaired one, where these are known.
fn repaired_if<L: Ledger>(
    alloc: Global,
    definition: &Definition,
    tables: &Tables,
    tree: &Tree,
    found: Option<Blamed>,
    steps: &mut Steps<L>,
) -> Result<Option<Repair>, AllocError>
    requires sound { IsSound definition.now }
    requires tables { AreTables definition.now tables.now }
    requires formed { IsFormed definition.now tree.now }
    requires found { repaired.IsBlamed definition.now tree.now found }
    ensures found { IfOk result (IsAnswer definition.now tree.now) }
    ensures ticks { steps.new ≤ steps.old + work_of tree.now }
{
    match found {
        Some(found) => {
            let repair = repaired_by(alloc, definition, tables, tree, &found, steps)?;
            Ok(Some(repair))
        }
        None => Ok(None),
    }
}

/// Lists the blamed places of a program, and notes the repaired one.
fn repaired_by<L: Ledger>(
    alloc: Global,
    definition: &Definition,
    tables: &Tables,
    tree: &Tree,
    found: &Blamed,
    steps: &mut Steps<L>,
) -> Result<Repair, AllocError>
    requires sound { IsSound definition.now }
    requires tables { AreTables definition.now tables.now }
    requires formed { IsFormed definition.now tree.now }
    requires found { IsFound (IsCompletable definition.now) definition.now tree.now found.now }
    ensures repair { IfOk result (repaired.IsRepaired definition.now tree.now found.now) }
    ensures ticks { steps.new ≤ steps.old + work_of tree.now }
{
    let kept = found.kept.as_slice();
    let places = blamed_places(alloc, definition, tables, kept, tree)?;
    let blamed = places.as_slice().len();
    let note = noted(alloc, definition, tables, blamed, &found.repaired, steps)?;
    Ok(Repair { places, note })
}

/// Notes the repaired program, where fewer than a hundred places are blamed and it passes no limit.
fn noted<L: Ledger>(
    alloc: Global,
    definition: &Definition,
    tables: &Tables,
    blamed: usize,
    tree: &Tree,
    steps: &mut Steps<L>,
) -> Result<Option<Note>, AllocError>
    requires sound { IsSound definition.now }
    requires tables { AreTables definition.now tables.now }
    requires formed { IsFormed definition.now tree.now }
    ensures note { IfOk result (repaired.IsNoteIn definition.now blamed tree.now) }
    ensures ticks { steps.new ≤ steps.old + work_of tree.now }
{
    let few = is_few(blamed);
    if few {
        let note = noted_few(alloc, definition, tables, blamed, tree, steps)?;
        return Ok(note);
    }
    Ok(None)
}

/// Says whether fewer than a hundred places are blamed.
fn is_few(blamed: usize) -> bool
    ensures { result ≡ nat_lt blamed most_blamed }
{
    blamed < MOST_BLAMED
}

/// Notes the repaired program, where it passes no limit.
fn noted_few<L: Ledger>(
    alloc: Global,
    definition: &Definition,
    tables: &Tables,
    blamed: usize,
    tree: &Tree,
    steps: &mut Steps<L>,
) -> Result<Option<Note>, AllocError>
    requires sound { IsSound definition.now }
    requires tables { AreTables definition.now tables.now }
    requires formed { IsFormed definition.now tree.now }
    requires few { blamed < most_blamed }
    ensures note { IfOk result (repaired.IsNoteIn definition.now blamed tree.now) }
    ensures ticks { steps.new ≤ steps.old + work_of tree.now }
{
    match build(alloc, definition, tables, tree, steps) {
        Ok(note) => Ok(Some(note)),
        Err(fault) => not_noted(fault),
    }
}

/// Returns that there is no note, unless memory ran out.
fn not_noted(fault: NoteFault) -> Result<Option<Note>, AllocError>
    ensures { (def : PlainDefinition) (tree : Fragment) (blamed : ℕ) → IsNoteFault def tree fault
        → IfOk result (repaired.IsNoteIn def blamed tree) }
{
    let memory = is_out(&fault);
    drop(fault);
    if memory { Err(AllocError) } else { Ok(None) }
}

/// Says whether memory ran out.
fn is_out(fault: &NoteFault) -> bool
    ensures { result ≡ repaired.is_out fault.now }
{
    match fault {
        NoteFault::Deep => false,
        NoteFault::Big => false,
        NoteFault::Wide { .. } => false,
        NoteFault::Heavy => false,
        NoteFault::Memory => true,
    }
}

/// Returns the path of a place.
pub fn path_of(place: &Place) -> &Path
    ensures { result.now ≡ repaired.place_path place.now }
{
    match place {
        Place::Node(path) => path,
        Place::Element(path) => path,
        Place::End(path) => path,
        Place::Name(path, _) => path,
    }
}

/// Says whether the number is less than the other, and both paths are the same.
fn is_below(number: u32, many: usize, path: &[u32], other: &[u32]) -> bool
    ensures { result ≡ (nat_lt number many && pointwise nat_eq path.now other.now) }
{
    (number as usize) < many && path == other
}

/// Says whether the path `at` leads to an element of the list at the path, one of that many at its front.
fn goes_before(many: usize, path: &[u32], at: &[u32]) -> bool
    ensures { result ≡ ways.goes_before many path.now at.now }
{
    match at.split_last() {
        Some((number, list)) => is_below(*number, many, list, path),
        None => false,
    }
}

/// Says whether the place is an element of the list at the path, one of that many at its front.
fn is_earlier(path: &[u32], many: usize, place: &Place) -> bool
    ensures { result ≡ ways.is_earlier path.now many place.now }
{
    match place {
        Place::Node(_) => false,
        Place::Element(at) => goes_before(many, path, at.steps()),
        Place::End(_) => false,
        Place::Name(_, _) => false,
    }
}

/// Returns 1 where it is so, else 0.
fn one_if(so: bool) -> usize
    ensures exact { result ≡ cond so 1 0 }
    ensures small { result ≤ 1 }
{
    if so { 1 } else { 0 }
}

/// Counts the blamed places among that many elements at the front of the list at the path.
fn earlier(blamed: &[Place], path: &[u32], many: usize) -> usize
    ensures { result ≡ ways.earlier blamed.now path.now many }
{
    let mut total = 0;
    for place in blamed {
        let so = is_earlier(path, many, place);
        let more = one_if(so);
        total += more;
    }
    total
}

/// Returns the step less by so much, and 0 where that is more.
fn less(step: u32, much: usize) -> u32
    ensures { result ≡ step - much }
{
    if much < step as usize {
        step - much as u32
    } else {
        0
    }
}

/// Returns the place of the list at the path in the repaired program before which is put what is put before this place
/// in the program: it is less by the elements before it that are blamed, and so left out. `psg_places::path_there` says
/// where the list is. It passes the places once.
pub fn place_in(blamed: &[Place], list: &Path, place: u32) -> u32
    ensures { result ≡ repaired.place_in blamed.now list.now place }
{
    let before = earlier(blamed, list.steps(), place as usize);
    less(place, before)
}
