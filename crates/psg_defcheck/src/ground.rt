//! Which sorts have terms without variables.
ghost use Rattle.std.specs.Prelude.{◌≡◌, ◌↔◌, ◌<◌, ◌||◌, List, IfOk, OnOk, IsTrue, bytes_eq, false, MatchOption, Some};
ghost use Rattle.std.specs.Prelude.{◌∷◌, []};
ghost use Rattle.std.specs.Bool.{OnTrue, OnFalse};
ghost use Rattle.std.specs.List.{AllByRecursion};
ghost use Rattle.psg_terms.specs.Names.{Name};
ghost use Rattle.psg_deflines.specs.Entries.{written};
ghost use Rattle.psg_deflines.specs.declared.lines.Line.{Line as Plain};
ghost use Rattle.psg_defcheck.specs.Scopes.{sort_names};
ghost use Rattle.psg_defcheck.specs.Meanings as meanings;
ghost use Rattle.psg_defcheck.specs.NameSets.{has};
ghost use Rattle.psg_defcheck.specs.Grounds.{AreMarked, MakesGround, AreRight, Keeps, waiting, IsGround};

use crate::names::Names;
use crate::scope::Scope;
use crate::waiting::Waiting;
use psg_deflines::Line;
use psg_terms::{ConDecl, SortDecl, Txt};
use std::alloc::{AllocError, Global};

/// Says whether each of the sorts is marked.
fn are_marked(marks: &Names, sorts: &[Txt]) -> bool
    ensures { IsTrue result ↔ AreMarked marks.now sorts.now }
{
    for sort in sorts {
        if !marks.contains(sort.as_str()) {
            return false;
        }
    }
    true
}

/// Says whether one of the constructors has arguments of marked sorts alone.
fn makes_ground(marks: &Names, constructors: &[ConDecl]) -> bool
    ensures { IsTrue result ↔ MakesGround marks.now constructors.now }
{
    for constructor in constructors {
        if are_marked(marks, constructor.args.as_slice()) {
            return true;
        }
    }
    false
}

/// Marks the sort if a term can be made of marked ones; whether it was not marked before.
fn mark<'a>(scope: &Scope<'a>, marks: &mut Names<'a>, name: &'a str) -> Result<bool, AllocError>
    ensures right { AreRight scope.now marks.old → OnOk result (AreRight scope.now marks.new) }
    ensures fewer { IfOk result
        (λ b. OnTrue b ((has marks.old name.now ≡ false)
        × ((n : Name) → has marks.new n ≡ (bytes_eq name.now n || has marks.old n)))) }
    ensures same { IfOk result (λ b. OnFalse b (marks.new ≡ marks.old)) }
    ensures keeps { IfOk result (λ b. OnFalse b (Keeps scope.now marks.new name.now)) }
{
    if marks.contains(name) {
        return Ok(false);
    }
    let Some(sort) = scope.sort(name) else {
        return Ok(false);
    };
    if !makes_ground(marks, sort.constructors.as_slice()) {
        return Ok(false);
    }
    marks.insert(name)?;
    Ok(true)
}

/// Returns the sort whose line the entry is, if it is one.
fn sort_line(entry: &Option<Line>) -> Option<&SortDecl>
    ensures { MatchOption result (sort_names (written (entry.now ∷ [])) ≡ [])
        (λ d. entry.now ≡ Some (Line.Sort d.now)) }
{
    match entry {
        None => None,
        Some(line) => match line {
            Line::Sort(d) => Some(d),
            _ => None,
        },
    }
}

/// Marks the sorts of which terms can be made of marked ones; whether it marked one.
fn mark_more<'a>(
    scope: &Scope<'a>,
    marks: &mut Names<'a>,
    entries: &'a [Option<Line>],
) -> Result<bool, AllocError>
    ensures right { AreRight scope.now marks.old → OnOk result (AreRight scope.now marks.new) }
    ensures fewer { IfOk result
        (λ b. OnTrue b (waiting marks.new (sort_names (written entries.now))
        < waiting marks.old (sort_names (written entries.now)))) }
    ensures same { IfOk result (λ b. OnFalse b (marks.new ≡ marks.old)) }
    ensures keep { IfOk result
        (λ b. OnFalse b (AllByRecursion (Keeps scope.now marks.new) (sort_names (written entries.now)))) }
{
    let mut more = false;
    for entry in entries {
        if let Some(d) = sort_line(entry) {
            let marked = mark(scope, marks, d.name.as_str())?;
            more = more | marked;
        }
    }
    Ok(more)
}

/// Marks sorts of which terms can be made, each as soon as all arguments of one of its constructors are marked. It
/// looks at each argument once.
fn mark_in_turn<'a>(
    alloc: Global,
    scope: &Scope<'a>,
    marks: &mut Names<'a>,
    entries: &'a [Option<Line>],
) -> Result<(), AllocError>
    ensures right { AreRight scope.now marks.old → OnOk result (AreRight scope.now marks.new) }
{
    let mut waiting = Waiting::of(alloc, entries)?;
    for _ in 0..waiting.constructors() {
        let Some(name) = waiting.next() else {
            break;
        };
        if mark(scope, marks, name)? {
            waiting.release(name)?;
        }
    }
    Ok(())
}

/// Finds the sorts that have terms without variables. They are marked in turn, each when its arguments are. Then it
/// walks over all lines until a walk marks nothing more; that is the first one, or at most one more than there are
/// sorts.
pub fn inhabited<'a>(alloc: Global, scope: &Scope<'a>) -> Result<Names<'a>, AllocError>
    ensures { IfOk result (IsGround scope.now) }
{
    let entries = scope.entries();
    let mut marks = Names::none(alloc);
    mark_in_turn(alloc, scope, &mut marks, entries)?;
    let mut more = true;
    while more {
        more = mark_more(scope, &mut marks, entries)?;
    }
    Ok(marks)
}

/// Says whether the line is no sort's, or that of a sort with a term without variables.
pub fn has_ground(marks: &Names, line: &Line) -> bool
    ensures { (file : List Plain) → IsGround file marks.now → IsTrue result ↔ meanings.HasGround file line.now }
{
    match line {
        Line::Sort(d) => marks.contains(d.name.as_str()),
        _ => true,
    }
}
