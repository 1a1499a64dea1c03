//! The program beside a plain slow judge, on trees at random.
ghost use Rattle.psg_grammar.specs.Sound.{IsSound};
ghost use Rattle.psg_class.specs.Class.{IsClass};

use super::flat::Declared;
use super::ground::{Ground, choices, ground_terms};
use super::languages::{accepted, tree};
use super::notes::noted;
use super::random::{Random, Rules, text};
use super::slow::Judge;
use super::trials::{MINI_TEXTS, SCOPE_TEXTS, SCOPES, TERM_TEXTS, TERMS};
use psg_cache::Note;
use psg_grammar::{Definition, Kind, declaring};
use psg_langs::MINI;
use psg_relation::RelRow;
use psg_terms::matching::is_instance;
use psg_terms::{SortId, Term};
use psg_tree::Tree;
use std::alloc::{AllocError, Global};
use std::process::Abort;
use std::test::Fail;

/// The trees that are compared: a number of each kind, each from a text with a number of choices. All values and
/// entities up to a depth are compared, where not too many names have their entities inside the tree.
#[derive(Clone, Copy)]
struct Trial<'a> {
    language: &'a str,
    rules: Rules<'a>,
    kinds: &'a [&'a str],
    texts: u32,
    choices: u32,
    depth: u32,
    deeper: u32,
    inner: usize,
}

/// Terms without variables: those that are compared, and deeper ones, which names inside the tree may have.
#[derive(Drop)]
struct Terms {
    small: Vec<Ground>,
    deep: Vec<Ground>,
}

/// How many trees were good, how many were wrong, and for how many a row was possible.
#[derive(Drop)]
struct Counts {
    good: u32,
    wrong: u32,
    possible: u32,
}

fn sort_of(definition: &Definition, kind: Kind) -> Option<SortId> {
    match kind {
        Kind::Phylum(phylum) => Some(definition.phyla.as_slice().get(phylum as usize)?.sort),
        Kind::List(list) => Some(definition.lists.as_slice().get(list as usize)?.sort),
    }
}

fn is_of_rows(alloc: Global, row: &[Term], rows: &[RelRow]) -> Result<bool, AllocError> {
    for general in rows {
        if is_instance(alloc, row, general.terms())? {
            return Ok(true);
        }
    }
    Ok(false)
}

/// Whether no row is an instance of another one.
fn are_most_general(alloc: Global, rows: &[RelRow]) -> Result<bool, AllocError> {
    for (place, row) in rows.iter().enumerate() {
        for (other, general) in rows.iter().enumerate() {
            if place != other && is_instance(alloc, row.terms(), general.terms())? {
                return Ok(false);
            }
        }
    }
    Ok(true)
}

/// The sorts of a row's columns: the value, and the entities of the outermost names.
fn column_sorts(alloc: Global, sort: SortId, judge: &Judge) -> Result<Vec<SortId>, AllocError> {
    let mut columns = vec![in alloc; sort]?;
    columns.extend_from_slice(judge.outer_sorts())?;
    Ok(columns)
}

/// Whether the judge finds the row possible. Where the relation has it, deeper terms are tried too.
fn is_possible(
    alloc: Global,
    judge: &Judge,
    row: &[Term],
    terms: &Terms,
    is_row: bool,
) -> Result<bool, AllocError> {
    let Some((value, outside)) = row.split_first() else {
        return Err(AllocError);
    };
    let (small, deep) = (terms.small.as_slice(), terms.deep.as_slice());
    if judge.is_possible(alloc, value, outside, small, deep)? {
        return Ok(true);
    }
    if !is_row {
        return Ok(false);
    }
    judge.is_possible(alloc, value, outside, deep, deep)
}

/// Compares all rows of small terms: the judge finds one possible where it is an instance of a row of the relation, and
/// nowhere else. Whether there is one.
fn agree_on(
    rt: &impl Abort,
    alloc: Global,
    judge: &Judge,
    sort: SortId,
    rows: &[RelRow],
    terms: &Terms,
    text: &str,
) -> Result<bool, Fail> {
    let mut some = false;
    let sorts = column_sorts(alloc, sort, judge)?;
    for row in choices(alloc, sorts.as_slice(), terms.small.as_slice())? {
        let is_row = is_of_rows(alloc, row.as_slice(), rows)?;
        let is_possible = is_possible(alloc, judge, row.as_slice(), terms, is_row)?;
        assert!(rt; is_row == is_possible, "a row: {text}");
        some = some || is_row;
    }
    Ok(some)
}

/// Compares the note of the tree with the judge. Whether there is a possible row.
fn agrees(
    rt: &impl Abort,
    alloc: Global,
    declared: Declared,
    (tree, note): (&Tree, &Note),
    terms: &Terms,
    inner: usize,
    text: &str,
) -> Result<bool, Fail> {
    let summary = note.root();
    let rows = summary.rel().rows();
    let judge = Judge::new(alloc, declared, tree, summary.header())?;
    assert!(rt; judge.has_header(summary.header()), "the header: {text}");
    assert!(rt; note.is_good() != rows.is_empty(), "the mark: {text}");
    assert!(rt; are_most_general(alloc, rows)?, "the rows: {text}");
    let Some(sort) = sort_of(declared.definition, summary.kind()) else {
        panic!(rt; "no sort: {text}");
    };
    if judge.inner_names() > inner {
        return Ok(false);
    }
    agree_on(rt, alloc, &judge, sort, rows, terms, text)
}

impl Counts {
    fn add(&mut self, is_good: bool, is_possible: bool) {
        if is_good {
            self.good = self.good.saturating_add(1);
        } else {
            self.wrong = self.wrong.saturating_add(1);
        }
        if is_possible {
            self.possible = self.possible.saturating_add(1);
        }
    }
}

/// Compares trees of the kind with the judge.
fn all_agree<'a>(
    rt: &impl Abort,
    alloc: Global,
    definition: &Definition,
    terms: &Terms,
    trial: Trial<'a>,
    kind: &'a str,
) -> Result<Counts, Fail>
    requires sound { IsSound definition.now }
    requires class { IsClass definition.now }
{
    let declaring = declaring(alloc, definition)?;
    let declared = Declared {
        definition,
        declaring: declaring.as_slice(),
    };
    let mut random = Random::new(1986);
    let mut counts = Counts {
        good: 0,
        wrong: 0,
        possible: 0,
    };
    for _ in 0..trial.texts {
        let text = text(alloc, &mut random, trial.rules, kind, trial.choices)?;
        let Some(tree) = tree(alloc, definition, kind, text.as_str())? else {
            panic!(rt; "no tree: {text}");
        };
        let Ok(note) = noted(alloc, definition, &tree) else {
            panic!(rt; "no note: {text}");
        };
        let shown = text.as_str();
        let some = agrees(
            rt,
            alloc,
            declared,
            (&tree, &note),
            terms,
            trial.inner,
            shown,
        )?;
        counts.add(note.is_good(), some);
    }
    Ok(counts)
}

/// Compares trees of each kind, and sees that good and wrong ones are among them, and that there was something to
/// compare.
fn trees_agree(rt: &impl Abort, alloc: Global, trial: Trial) -> Result<(), Fail> {
    let definition = accepted(alloc, trial.language)?;
    let signature = &definition.signature;
    let terms = Terms {
        small: ground_terms(alloc, signature, trial.depth)?,
        deep: ground_terms(alloc, signature, trial.deeper)?,
    };
    for kind in trial.kinds {
        let counts = all_agree(rt, alloc, &definition, &terms, trial, *kind)?;
        let Counts {
            good,
            wrong,
            possible,
        } = counts;
        assert!(rt;
            good >= 20 && wrong >= 5 && possible >= 20,
            "{kind}: {good} good, {wrong} wrong, {possible} with rows"
        );
    }
    Ok(())
}

#[test]
fn trees_without_names(rt: HostRuntime) -> Result<(), Fail> {
    let trial = Trial {
        language: TERMS,
        rules: TERM_TEXTS,
        kinds: &["Exp", "Count"],
        texts: 200,
        choices: 6,
        depth: 3,
        deeper: 3,
        inner: 0,
    };
    trees_agree(&rt, rt.alloc(), trial)
}

#[test]
fn names_in_regions(rt: HostRuntime) -> Result<(), Fail> {
    let trial = Trial {
        language: SCOPES,
        rules: SCOPE_TEXTS,
        kinds: &["Stat", "Stats", "Decls"],
        texts: 200,
        choices: 12,
        depth: 1,
        deeper: 1,
        inner: 6,
    };
    trees_agree(&rt, rt.alloc(), trial)
}

#[test]
fn programs_of_mini(rt: HostRuntime) -> Result<(), Fail> {
    let trial = Trial {
        language: MINI,
        rules: MINI_TEXTS,
        kinds: &["Stat", "Decls", "Exp"],
        texts: 100,
        choices: 8,
        depth: 3,
        deeper: 4,
        inner: 1,
    };
    trees_agree(&rt, rt.alloc(), trial)
}
