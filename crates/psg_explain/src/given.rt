//! What the rows of a step are made of: cases, each with its equations and the columns of a row.
ghost use Rattle.std.specs.Prelude.{◌≡◌, ◌++◌, ◌∷◌, [], map, bytes_eq, option_copied, option_map, IfOk, OnOk};
ghost use Rattle.std.specs.Option.{option_or};
ghost use Rattle.psg_relation.specs.Choices.{pick};
ghost use Rattle.psg_terms.specs.Canonical.{IsCanonical};
ghost use Rattle.psg_terms.specs.Signature.{Signature as PlainSignature};
ghost use Rattle.psg_scope.specs.Headers.{key_of, keys as keys_of};
ghost use Rattle.psg_explain.specs.Given.{beside as beside_in, closed_row, entities_of, key_terms, plain_case as plain};
ghost use Rattle.psg_explain.specs.Given.{pair_case as pair_of, pair_columns as columns_of, pair_equations as given_of};
ghost use Rattle.psg_explain.specs.Given.{key_equations, key_subjects, pair_subjects as subjects_of, subject_of};
ghost use Rattle.psg_explain.specs.Given.{variable_count as count_of, wanted_of};

use crate::putting::shared_row;
use crate::refutation::{Label, Subject};
use psg_scope::NameCol;
use psg_terms::{Seq, Term, raise_all};
use std::alloc::{AllocError, Global};

/// A case of a step: its equations, and the columns of the step in it.
#[derive(Drop)]
pub struct Case {
    pub(crate) label: Label,
    /// What the equations are of.
    pub(crate) subjects: Seq<Subject>,
    pub(crate) given: Seq<(Term, Term)>,
    pub(crate) columns: Seq<Term>,
}

/// The keys of a row of the step before, of a row of the child, and of a row of the step.
#[derive(Clone, Copy)]
pub(crate) struct Keys<'a> {
    pub(crate) left: &'a [NameCol],
    pub(crate) right: &'a [NameCol],
    pub(crate) whole: &'a [NameCol],
}

/// Says whether the keys are equal.
fn is_key(one: &NameCol, other: &NameCol) -> bool
    ensures { result ≡ bytes_eq (key_of one.now) (key_of other.now) }
{
    one.space == other.space && one.name.same(&other.name)
}

/// Returns the term at the first place of the key.
pub(crate) fn beside<'a>(names: &[NameCol], terms: &'a [Term], key: &NameCol) -> Option<&'a Term>
    ensures { option_copied result ≡ beside_in (keys_of names.now) terms.now (key_of key.now) }
{
    let count = names.len().min(terms.len());
    for i in 0..count {
        if is_key(&names[i], key) {
            return Some(&terms[i]);
        }
    }
    None
}

/// Counts the variables of a canonical row.
pub(crate) fn variable_count(row: &[Term]) -> usize
    requires { (sig : PlainSignature) × IsCanonical sig row.now }
    ensures { result ≡ count_of row.now }
{
    let mut above = 1u64;
    for term in row {
        above = above.max(term.above());
    }
    (above - 1) as usize
}

/// Returns the terms of the last columns, as many as there are keys.
fn entities<'a>(names: &[NameCol], columns: &'a [Term]) -> &'a [Term]
    ensures { result.now ≡ entities_of (keys_of names.now) columns.now }
{
    let front = columns.len().saturating_sub(names.len());
    &columns[front..]
}

/// Returns the terms of the columns before those of the keys.
fn wanted<'a>(names: &[NameCol], columns: &'a [Term]) -> &'a [Term]
    ensures { result.now ≡ wanted_of (keys_of names.now) columns.now }
{
    let front = columns.len().saturating_sub(names.len());
    &columns[..front]
}

/// Adds the term, if there is one.
fn push_some(terms: &mut Vec<Term>, term: Option<&Term>) -> Result<(), AllocError>
    ensures { OnOk result (terms.new.items ≡ terms.old.items ++ pick (option_copied term.entry) []) }
{
    match term {
        Some(term) => {
            terms.push(term.share()?)?;
            Ok(())
        }
        None => Ok(()),
    }
}

/// Adds the terms.
pub(crate) fn push_all(terms: &mut Vec<Term>, row: &[Term]) -> Result<(), AllocError>
    ensures { OnOk result (terms.new.items ≡ terms.old.items ++ row.now) }
{
    for term in row {
        terms.push(term.share()?)?;
    }
    Ok(())
}

/// Adds the terms of the keys, which are these beside the names.
pub(crate) fn push_keyed(
    terms: &mut Vec<Term>,
    names: &[NameCol],
    row: &[Term],
    keys: &[NameCol],
) -> Result<(), AllocError>
    ensures { OnOk result (terms.new.items
        ≡ terms.old.items ++ key_terms (beside_in (keys_of names.now) row.now) (keys_of keys.now)) }
{
    for key in keys {
        let term = beside(names, row, key);
        push_some(terms, term)?;
    }
    Ok(())
}

/// Given equations, each with what it is of.
#[derive(Drop)]
pub(crate) struct Equations {
    pub(crate) subjects: Vec<Subject>,
    pub(crate) given: Vec<(Term, Term)>,
}

impl Equations {
    pub(crate) fn none(alloc: Global) -> Equations
        ensures subjects { result.subjects.items ≡ [] }
        ensures given { result.given.items ≡ [] }
    {
        Equations {
            subjects: Vec::new(alloc),
            given: Vec::new(alloc),
        }
    }

    /// Adds the equation of the entities of a key.
    fn add(&mut self, key: &NameCol, left: &Term, right: &Term) -> Result<(), AllocError>
        ensures subjects { OnOk result (self.new.subjects.items
            ≡ self.old.subjects.items ++ subject_of (key_of key.now) ∷ []) }
        ensures given { OnOk result (self.new.given.items ≡ self.old.given.items ++ (left.now, right.now) ∷ []) }
    {
        let name = key.name.share()?;
        let one = left.share()?;
        let two = right.share()?;
        self.subjects.push(Subject::Key {
            space: key.space,
            name,
        })?;
        self.given.push((one, two))?;
        Ok(())
    }

    /// Adds the equation of the term and the right side, if there is one.
    fn add_right(
        &mut self,
        key: &NameCol,
        left: &Term,
        right: Option<&Term>,
    ) -> Result<(), AllocError>
        ensures subjects { OnOk result (self.new.subjects.items ≡ self.old.subjects.items
            ++ pick (option_map (λ u. subject_of (key_of key.now)) (option_copied right.entry)) []) }
        ensures given { OnOk result (self.new.given.items ≡ self.old.given.items
            ++ pick (option_map (λ u. (left.now, u)) (option_copied right.entry)) []) }
    {
        match right {
            Some(right) => {
                self.add(key, left, right)?;
                Ok(())
            }
            None => Ok(()),
        }
    }

    /// Adds the equation of the left side and the term, if there is one.
    pub(crate) fn add_left(
        &mut self,
        key: &NameCol,
        left: Option<&Term>,
        right: &Term,
    ) -> Result<(), AllocError>
        ensures subjects { OnOk result (self.new.subjects.items ≡ self.old.subjects.items
            ++ pick (option_map (λ u. subject_of (key_of key.now)) (option_copied left.entry)) []) }
        ensures given { OnOk result (self.new.given.items ≡ self.old.given.items
            ++ pick (option_map (λ u. (u, right.now)) (option_copied left.entry)) []) }
    {
        match left {
            Some(left) => {
                self.add(key, left, right)?;
                Ok(())
            }
            None => Ok(()),
        }
    }
}

/// Returns the given equations of the pair: of the wanted value and the child's value, and of the entities of each
/// common key.
fn pair_equations(
    alloc: Global,
    mine: &[NameCol],
    others: &[NameCol],
    left: &[Term],
    right: &[Term],
) -> Result<Equations, AllocError>
    ensures subjects { IfOk result
        (λ e. e.subjects.items ≡ subjects_of (keys_of mine.now) (keys_of others.now) [] left.now right.now) }
    ensures given { IfOk result
        (λ e. e.given.items ≡ given_of (keys_of mine.now) (keys_of others.now) [] left.now right.now) }
{
    let mut all = Equations::none(alloc);
    let Some((_, rest)) = left.split_first() else {
        return Ok(all);
    };
    let Some((value, more)) = rest.split_first() else {
        return Ok(all);
    };
    let Some((own, behind)) = right.split_first() else {
        return Ok(all);
    };
    let one = value.share()?;
    let two = own.share()?;
    all.subjects.push(Subject::Value)?;
    all.given.push((one, two))?;
    let row = entities(mine, more);
    add_common(&mut all, mine, others, row, behind)?;
    Ok(all)
}

/// Adds the equations of the entities of the common keys.
fn add_common(
    all: &mut Equations,
    mine: &[NameCol],
    others: &[NameCol],
    left: &[Term],
    right: &[Term],
) -> Result<(), AllocError>
    ensures subjects { OnOk result (all.new.subjects.items ≡ all.old.subjects.items
        ++ key_subjects (beside_in (keys_of others.now) right.now) (keys_of mine.now) left.now) }
    ensures given { OnOk result (all.new.given.items ≡ all.old.given.items
        ++ key_equations (beside_in (keys_of others.now) right.now) (keys_of mine.now) left.now) }
{
    let count = mine.len().min(left.len());
    for i in 0..count {
        let key = &mine[i];
        let term = beside(others, right, key);
        all.add_right(key, &left[i], term)?;
    }
    Ok(())
}

/// Returns the term of the key: the left one of a common key.
fn either<'a>(
    mine: &[NameCol],
    others: &[NameCol],
    left: &'a [Term],
    right: &'a [Term],
    key: &NameCol,
) -> Option<&'a Term>
    ensures { option_copied result ≡ option_or (beside_in (keys_of mine.now) left.now (key_of key.now))
        (beside_in (keys_of others.now) right.now (key_of key.now)) }
{
    match beside(mine, left, key) {
        Some(term) => Some(term),
        None => beside(others, right, key),
    }
}

/// Adds the entities of the keys, the left one of a common key.
fn push_either(
    terms: &mut Vec<Term>,
    keys: Keys,
    left: &[Term],
    right: &[Term],
) -> Result<(), AllocError>
    ensures { OnOk result (terms.new.items ≡ terms.old.items ++ key_terms
        (λ k. option_or (beside_in (keys_of keys.entry.left.now) left.now k)
        (beside_in (keys_of keys.entry.right.now) right.now k)) (keys_of keys.entry.whole.now)) }
{
    let mine = keys.left;
    let others = keys.right;
    for key in keys.whole {
        let term = either(mine, others, left, right, key);
        push_some(terms, term)?;
    }
    Ok(())
}

/// Returns the columns of the pair: the value, the other wanted values, and the entities of the keys, the left one of a
/// common key.
fn pair_columns(
    alloc: Global,
    keys: Keys,
    left: &[Term],
    right: &[Term],
) -> Result<Vec<Term>, AllocError>
    ensures { IfOk result (λ v. v.items ≡ columns_of (keys_of keys.entry.left.now) (keys_of keys.entry.right.now)
        (keys_of keys.entry.whole.now) left.now right.now) }
{
    let mut columns = Vec::new(alloc);
    let Some((value, rest)) = left.split_first() else {
        return Ok(columns);
    };
    let Some((_, more)) = rest.split_first() else {
        return Ok(columns);
    };
    let Some((_, behind)) = right.split_first() else {
        return Ok(columns);
    };
    columns.push(value.share()?)?;
    let front = wanted(keys.left, more);
    push_all(&mut columns, front)?;
    let row = entities(keys.left, more);
    push_either(&mut columns, keys, row, behind)?;
    Ok(columns)
}

/// Returns the case of a row of the step before and a row of the child, by their numbers. The right row's variables are
/// numbered on after the left's.
pub(crate) fn pair_case(
    alloc: Global,
    keys: Keys,
    numbers: (usize, usize),
    left: &[Term],
    right: &[Term],
) -> Result<Case, AllocError>
    requires { (sig : PlainSignature) × IsCanonical sig left.now }
    ensures { IfOk result (λ c. c ≡ pair_of (keys_of keys.entry.left.now) (keys_of keys.entry.right.now)
        (keys_of keys.entry.whole.now) numbers.0 numbers.1 left.now right.now) }
{
    let count = variable_count(left);
    let raised = raise_all(alloc, count, right)?;
    let other = raised.as_slice();
    let all = pair_equations(alloc, keys.left, keys.right, left, other)?;
    let columns = pair_columns(alloc, keys, left, other)?;
    let Equations { subjects, given } = all;
    Ok(Case {
        label: Label::Pair(numbers.0, numbers.1),
        subjects: Seq::of(subjects),
        given: Seq::of(given),
        columns: Seq::of(columns),
    })
}

/// Returns a case without equations.
fn free_case(alloc: Global, number: usize, columns: Vec<Term>) -> Case
    ensures { result ≡ plain number columns.items }
{
    Case {
        label: Label::Row(number),
        subjects: Seq::of(Vec::new(alloc)),
        given: Seq::of(Vec::new(alloc)),
        columns: Seq::of(columns),
    }
}

/// Returns the case of a row that stays as it is.
pub(crate) fn plain_case(alloc: Global, number: usize, row: &[Term]) -> Result<Case, AllocError>
    ensures { IfOk result (λ c. c ≡ plain number row.now) }
{
    let columns = shared_row(alloc, row)?;
    Ok(free_case(alloc, number, columns))
}

/// Returns the case of a row that stays as it is, with the entities of the keys that pass outward alone.
pub(crate) fn closed_case(
    alloc: Global,
    inside: &[NameCol],
    outside: &[NameCol],
    number: usize,
    row: &[Term],
) -> Result<Case, AllocError>
    ensures { IfOk result
        (λ c. c ≡ plain number (closed_row (keys_of inside.now) (keys_of outside.now) row.now)) }
{
    let mut columns = Vec::new(alloc);
    if let Some((value, others)) = row.split_first() {
        columns.push(value.share()?)?;
        push_keyed(&mut columns, inside, others, outside)?;
    }
    Ok(free_case(alloc, number, columns))
}
