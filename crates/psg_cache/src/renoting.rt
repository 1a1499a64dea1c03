//! The note of a tree beside the note of an old one, whose notes of equal subtrees it shares.
ghost use Rattle.std.specs.Prelude.{◌≡◌, ◌↔◌, ◌+◌, ◌++◌, ◌&&◌, ◌||◌, ◌⊎◌, ◌≤◌, List, cond};
ghost use Rattle.std.specs.Prelude.{drop, false, true, length, map, sum_by, take};
ghost use Rattle.std.specs.Prelude.{IfErr, IfOk, IsTrue, OnOk};
ghost use Rattle.psg_grammar.specs.Fragments.{children_of, hole, operator, top_operator};
ghost use Rattle.psg_grammar.specs.Steps.{steps_of};
ghost use Rattle.psg_grammar.specs.Work.{work_of};
ghost use Rattle.psg_cache.specs.Alike.{AreOwnAlike, AreUnlike, IsPartAlike, IsSpread, TellsAlike};
ghost use Rattle.psg_cache.specs.Alike.{diff_top, hole_number, is_paired};
ghost use Rattle.psg_cache.specs.Annotated.{Annotated, below_in, tree_in, whole_in};
ghost use Rattle.psg_cache.specs.Diff.{diff_of, list_number, same_some};
ghost use Rattle.psg_cache.specs.Noted.{IsNoted, IsNotedAs};
ghost use Rattle.psg_cache.specs.Notes.{IsFormed};
ghost use Rattle.psg_cache.specs.Renoting.{IsKeptOr, IsRenoted};
ghost use Rattle.psg_cache.specs.Walks.{AreNotesOf, IsKnown, IsStepFault, top_steps};
ghost use Rattle.psg_tree.specs.Shapes.{list_of, with_parts};

use crate::note::{Note, NoteFault};
use crate::pairing::common_back;
use crate::parts::{Language, children, longer, step_of};
use crate::remaking::{push_notes, remade};
use crate::topping::topped;
use crate::walking::walk;
use psg_terms::Steps;
use psg_tree::{Part, Shape, Tree};
use std::alloc::{AllocError, Global};
use std::sync::ledger::Ledger;

/// Returns the operator of the tree, if it has one.
fn operator_in(tree: &Tree) -> Option<u32>
    ensures { result ≡ top_operator tree.now }
{
    match tree.shape() {
        Shape::Op { op, .. } => Some(*op),
        Shape::List { .. } => None,
        Shape::Hole { .. } => None,
    }
}

/// Returns the kind of the list that the tree is, if it is one.
fn list_in(tree: &Tree) -> Option<u32>
    ensures { result ≡ list_number tree.now }
{
    match tree.shape() {
        Shape::Op { .. } => None,
        Shape::List { list, .. } => Some(*list),
        Shape::Hole { .. } => None,
    }
}

/// Returns the phylum of the placeholder that the tree is, if it is one.
fn hole_in(tree: &Tree) -> Option<u32>
    ensures { result ≡ hole_number tree.now }
{
    match tree.shape() {
        Shape::Op { .. } => None,
        Shape::List { .. } => None,
        Shape::Hole { phylum } => Some(*phylum),
    }
}

/// Says whether both are the same number.
fn same_number(one: Option<u32>, two: Option<u32>) -> bool
    ensures { result ≡ same_some one two }
{
    match one {
        Some(left) => match two {
            Some(right) => left == right,
            None => false,
        },
        None => false,
    }
}

/// Says whether one of both holds.
fn is_either(one: bool, two: bool) -> bool
    ensures { result ≡ (one || two) }
{
    one || two
}

/// Says whether the trees have the same operator, or are lists of the same kind.
fn are_paired(old: &Tree, new: &Tree) -> bool
    ensures { result ≡ is_paired old.now new.now }
{
    let before = operator_in(old);
    let after = operator_in(new);
    let operators = same_number(before, after);
    let kind = list_in(old);
    let other = list_in(new);
    let lists = same_number(kind, other);
    is_either(operators, lists)
}

/// Returns the note of a tree that has not the old one's operator and is no list of its kind: nothing where both are
/// the same placeholder, else that of a walk over the whole tree.
fn unpaired<L: Ledger>(
    alloc: Global,
    language: Language,
    old: &Tree,
    new: &Tree,
    path: &[u32],
    steps: &mut Steps<L>,
) -> Result<Option<Note>, NoteFault>
    requires language { IsKnown language }
    requires formed_old { IsFormed language.definition.now old.now }
    requires formed { IsFormed language.definition.now new.now }
    requires apart { is_paired old.now new.now ≡ false }
    ensures ok { IfOk result (IsRenoted language.entry.definition.now old.now new.now) }
    ensures bounded { steps.new ≤ steps.old + diff_of old.now new.now }
    ensures err { IfErr result
        (IsStepFault language.entry.definition.now (steps_of language.entry.definition.now path.now new.now)) }
{
    let before = hole_in(old);
    let after = hole_in(new);
    let same = same_number(before, after);
    if same {
        return Ok(None);
    }
    let note = walk(alloc, language, new, path, steps)?;
    Ok(Some(note))
}

/// Says whether the parts are both subtrees, or equal names, numbers or texts.
fn part_alike(left: &Part, right: &Part) -> bool
    ensures { IsTrue result ↔ IsPartAlike left.now right.now }
{
    match left {
        Part::Sub(_) => match right {
            Part::Sub(_) => true,
            _ => false,
        },
        Part::Name(name) => match right {
            Part::Name(other) => name.same(other),
            _ => false,
        },
        Part::Number(number) => match right {
            Part::Number(other) => *number == *other,
            _ => false,
        },
        Part::Text(text) => match right {
            Part::Text(other) => text.same(other),
            _ => false,
        },
    }
}

/// Says whether the parts are alike besides what their subtrees are.
fn own_alike(left: &[Part], right: &[Part]) -> bool
    ensures { IsTrue result ↔ AreOwnAlike left.now right.now }
{
    if left.len() != right.len() {
        return false;
    }
    for i in 0..left.len() {
        if !part_alike(&left[i], &right[i]) {
            return false;
        }
    }
    true
}

/// Says whether the numbers are the same.
fn are_same(one: u32, two: u32) -> bool
    ensures { IsTrue result ↔ (one ≡ two) }
{
    one == two
}

/// Says whether both hold or neither does.
fn are_equal(one: bool, two: bool) -> bool
    ensures { IsTrue result ↔ (one ≡ two) }
{
    one == two
}

/// Says whether a tree is the placeholder of the phylum.
fn hole_alike(number: u32, new: &Tree) -> bool
    ensures { TellsAlike result (hole number) new.now }
{
    match new.shape() {
        Shape::Hole { phylum } => are_same(number, *phylum),
        Shape::Op { .. } => false,
        Shape::List { .. } => false,
    }
}

/// Says whether a tree has the operator, with these names, numbers and texts.
fn operator_alike(number: u32, own: &[Part], new: &Tree) -> bool
    ensures { TellsAlike result (with_parts (operator number) own.now) new.now }
{
    match new.shape() {
        Shape::Hole { .. } => false,
        Shape::Op { op, parts } => {
            let equal = are_same(number, *op);
            let alike = own_alike(own, parts.as_slice());
            both(equal, alike)
        }
        Shape::List { .. } => false,
    }
}

/// Says whether a tree is a list of the kind that ends so.
fn list_alike(number: u32, own: &[Tree], ends: bool, new: &Tree) -> bool
    ensures { TellsAlike result (list_of number own.now ends) new.now }
{
    match new.shape() {
        Shape::Hole { .. } => false,
        Shape::Op { .. } => false,
        Shape::List {
            list,
            unfinished,
            ..
        } => {
            let equal = are_same(number, *list);
            let alike = are_equal(ends, *unfinished);
            both(equal, alike)
        }
    }
}

/// Says whether the trees are alike besides their children: placeholders of one phylum, an operator with equal names,
/// numbers and texts, or lists of one kind that end alike. It reads the names and texts once.
pub(crate) fn tops_alike(old: &Tree, new: &Tree) -> bool
    ensures { TellsAlike result old.now new.now }
{
    match old.shape() {
        Shape::Hole { phylum } => hole_alike(*phylum, new),
        Shape::Op { op, parts } => operator_alike(*op, parts.as_slice(), new),
        Shape::List {
            list,
            elements,
            unfinished,
        } => list_alike(*list, elements.as_slice(), *unfinished, new),
    }
}

/// Returns how many children there are up to the last one whose summary is not the old one's, where the children from
/// `last` on are the old ones.
fn settled(olds: &[Note], news: &[Note], last: usize) -> usize
    requires long { length olds.now ≡ length news.now }
    requires within { last ≤ length news.now }
    requires behind { drop last (map whole_in news.now) ≡ drop last (map whole_in olds.now) }
    ensures within { result ≤ last }
    ensures same { drop result (map whole_in news.now) ≡ drop result (map whole_in olds.now) }
{
    let mut left = last;
    while left > 0 {
        if !news[left - 1].root().same(olds[left - 1].root()) {
            return left;
        }
        left -= 1;
    }
    0
}

/// A note, and whether it is the old one.
#[derive(Drop)]
struct Redone {
    note: Note,
    equal: bool,
}

/// Returns the new note, or one more owner of the old one where there is none.
fn kept_or(old: &Note, new: Option<Note>) -> Result<Redone, AllocError>
    ensures { IfOk result (λ r. IsKeptOr old.now new r.note r.equal) }
{
    match new {
        Some(note) => Ok(Redone { note, equal: false }),
        None => Ok(Redone {
            note: old.share()?,
            equal: true,
        }),
    }
}

/// Says whether both hold.
fn both(one: bool, two: bool) -> bool
    ensures { result ≡ (one && two) }
{
    one && two
}

/// Says whether there are as many notes as others.
fn as_many(olds: &[Note], news: &[Note]) -> bool
    ensures { IsTrue result ↔ (length olds.now ≡ length news.now) }
{
    olds.len() == news.len()
}

/// Returns how many children there are up to the last one that differs, with one more that is equal to the old one or
/// not.
fn reached(last: usize, next: usize, equal: bool) -> usize
    ensures { result ≡ cond equal last next }
{
    if equal { last } else { next }
}

/// Returns the lesser number.
pub(crate) fn lesser(one: usize, two: usize) -> usize
    ensures within { (result ≤ one) × (result ≤ two) }
    ensures one_of_both { (result ≡ one) ⊎ (result ≡ two) }
{
    if one < two { one } else { two }
}

/// Returns how many first children are the old ones, with one more at the place that is the old one or not.
fn led(first: usize, place: usize, next: usize, equal: bool) -> usize
    ensures { (result ≡ first) ⊎ ((result ≡ next) × (first ≡ place) × (equal ≡ true)) }
{
    if equal {
        if first == place {
            return next;
        }
    }
    first
}

/// Walks the children of the tree from the number `first` up to `end`. There are the notes of those before them.
fn walk_others<L: Ledger>(
    alloc: Global,
    language: Language,
    tree: &Tree,
    inner: &[Tree],
    first: usize,
    end: usize,
    below: &mut Vec<Note>,
    path: &[u32],
    steps: &mut Steps<L>,
) -> Result<(), NoteFault>
    requires language { IsKnown language }
    requires formed { IsFormed language.definition.now tree.now }
    requires inner { inner.now ≡ children_of tree.now }
    requires within { (first ≤ end) × (end ≤ length inner.now) }
    requires first { AreNotesOf language.definition.now (take first inner.now) below.old.items }
    ensures ok { OnOk result (AreNotesOf language.entry.definition.now (take end inner.now) below.new.items) }
    ensures more { OnOk result ((rest : List Annotated) × (below.new.items ≡ below.old.items ++ rest)) }
    ensures bounded { steps.new + sum_by work_of (take first inner.now)
        ≤ steps.old + sum_by work_of (take end inner.now) }
    ensures err { IfErr result
        (IsStepFault language.entry.definition.now (steps_of language.entry.definition.now path.now tree.now)) }
{
    for i in first..end {
        let step = step_of(i)?;
        let place = longer(alloc, path, step)?;
        let note = walk(alloc, language, &inner[i], place.as_slice(), steps)?;
        below.push(note)?;
    }
    Ok(())
}

/// Returns the note of a tree whose top is not like the old one's, or that has another number of children. Where the
/// tops are alike, it is a list that got longer or shorter, whose last suffixes are the old ones.
fn unlike<L: Ledger>(
    alloc: Global,
    language: Language,
    old: &Note,
    new: &Tree,
    below: Vec<Note>,
    tops: bool,
    first: usize,
    last: usize,
    back: usize,
    path: &[u32],
    steps: &mut Steps<L>,
) -> Result<Note, NoteFault>
    requires language { IsKnown language }
    requires noted { IsNoted language.definition.now old.now }
    requires formed_old { IsFormed language.definition.now (tree_in old.now) }
    requires formed { IsFormed language.definition.now new.now }
    requires paired { is_paired (tree_in old.now) new.now ≡ true }
    requires below { AreNotesOf language.definition.now (children_of new.now) below.items }
    requires spread { IsSpread old.now new.now below.items first last back }
    requires told { TellsAlike tops (tree_in old.now) new.now }
    requires apart { AreUnlike (tree_in old.now) new.now }
    requires counts { IsTrue tops → length (below_in old.now) ≡ length below.items → ⊥ }
    ensures ok { IfOk result (IsNotedAs language.entry.definition.now new.now) }
    ensures bounded { steps.new ≤ steps.old + diff_top (tree_in old.now) new.now }
    ensures err { IfErr result
        (IsStepFault language.entry.definition.now (top_steps language.entry.definition.now path.now new.now)) }
{
    if !tops {
        let whole = topped(alloc, language, new, below, path, steps)?;
        return Ok(whole);
    }
    let olds = old.below();
    let news = below.as_slice();
    let behind = olds.len() - back;
    let front = news.len() - back;
    let note = remade(
        alloc, language, old, first, behind, front, below, new, path, steps,
    )?;
    Ok(note)
}

/// Returns the note of a tree from those of its children, beside the note of an old one; nothing where the trees are
/// equal. The first children and the last ones are the old ones, as many as `first` and `back` say; where there are as
/// many as before, they differ up to `last` and no further. Where the tops are alike, only the summaries are made again
/// that a child with another summary changes.
fn rejoined<L: Ledger>(
    alloc: Global,
    language: Language,
    old: &Note,
    new: &Tree,
    below: Vec<Note>,
    first: usize,
    last: usize,
    back: usize,
    path: &[u32],
    steps: &mut Steps<L>,
) -> Result<Option<Note>, NoteFault>
    requires language { IsKnown language }
    requires noted { IsNoted language.definition.now old.now }
    requires formed_old { IsFormed language.definition.now (tree_in old.now) }
    requires formed { IsFormed language.definition.now new.now }
    requires paired { is_paired (tree_in old.now) new.now ≡ true }
    requires below { AreNotesOf language.definition.now (children_of new.now) below.items }
    requires spread { IsSpread old.now new.now below.items first last back }
    ensures ok { IfOk result (IsRenoted language.entry.definition.now (tree_in old.now) new.now) }
    ensures bounded { steps.new ≤ steps.old + diff_top (tree_in old.now) new.now }
    ensures err { IfErr result
        (IsStepFault language.entry.definition.now (top_steps language.entry.definition.now path.now new.now)) }
{
    let olds = old.below();
    let news = below.as_slice();
    let many = as_many(olds, news);
    let tops = tops_alike(old.tree(), new);
    let alike = both(tops, many);
    if !alike {
        let note = unlike(
            alloc, language, old, new, below, tops, first, last, back, path, steps,
        )?;
        return Ok(Some(note));
    }
    if last == 0 {
        return Ok(None);
    }
    let front = settled(olds, news, last);
    let same = lesser(first, front);
    let all = remade(
        alloc, language, old, same, front, front, below, new, path, steps,
    )?;
    Ok(Some(all))
}

/// Returns the note of the new tree, or nothing where it is equal to that of the old note. Both are read once, place by
/// place: equal subtrees at the same places share the old notes, and so do summaries that the changes below leave as
/// they were. Where a list got longer or shorter, the last elements that both have in common are found first, and share
/// the old notes: so the elements of such a list are read once more.
pub(crate) fn renoted<L: Ledger>(
    alloc: Global,
    language: Language,
    old: &Note,
    new: &Tree,
    path: &[u32],
    steps: &mut Steps<L>,
) -> Result<Option<Note>, NoteFault>
    requires language { IsKnown language }
    requires noted { IsNoted language.definition.now old.now }
    requires formed_old { IsFormed language.definition.now (tree_in old.now) }
    requires formed { IsFormed language.definition.now new.now }
    ensures ok { IfOk result (IsRenoted language.entry.definition.now (tree_in old.now) new.now) }
    ensures bounded { steps.new ≤ steps.old + diff_of (tree_in old.now) new.now }
    ensures err { IfErr result
        (IsStepFault language.entry.definition.now (steps_of language.entry.definition.now path.now new.now)) }
{
    if !are_paired(old.tree(), new) {
        let whole = unpaired(alloc, language, old.tree(), new, path, steps)?;
        return Ok(whole);
    }
    let notes = old.below();
    let all = children(alloc, new)?;
    let inner = all.as_slice();
    let back = common_back(alloc, language, old, new, inner)?;
    let shorter = lesser(notes.len(), inner.len());
    let many = shorter - back;
    let end = inner.len() - back;
    let mut below = Vec::new(alloc);
    let mut first = 0;
    let mut last = 0;
    for i in 0..many {
        let step = step_of(i)?;
        let place = longer(alloc, path, step)?;
        let before = &notes[i];
        let made = renoted(alloc, language, before, &inner[i], place.as_slice(), steps)?;
        let child = kept_or(before, made)?;
        first = led(first, i, i + 1, child.equal);
        last = reached(last, i + 1, child.equal);
        below.push(child.note)?;
    }
    walk_others(
        alloc, language, new, inner, many, end, &mut below, path, steps,
    )?;
    let kept = notes.len() - back;
    push_notes(&mut below, &notes[kept..])?;
    let note = rejoined(
        alloc, language, old, new, below, first, last, back, path, steps,
    )?;
    Ok(note)
}
