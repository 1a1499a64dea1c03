//! Terms from the terms of a line.
ghost use Rattle.std.specs.Prelude.{IfOk, OnOk};
ghost use Rattle.std.specs.List.{AllByRecursion};
ghost use Rattle.psg_terms.specs.Kept.{numbers_of};
ghost use Rattle.psg_defcheck.specs.Meanings.{KnowsTerm};
ghost use Rattle.psg_defnumber.specs.Declaring.{HasConstructors};
ghost use Rattle.psg_defnumber.specs.Naming.{IsMadeTerm, AreMadeTerms};
ghost use Rattle.psg_defnumber.specs.Sorts.{ForSomeSorts, StaysSorted, TermStands, TermsStand};

use crate::lookups::constructor_named;
use crate::variables::{LineVariables, variable};
use psg_defcheck::CheckedLines;
use psg_deflines::{LineTerm, TermShape};
use psg_terms::{Signature, SortId, Term};
use std::alloc::{AllocError, Global};

/// Makes the term of the sort. Its variables are numbered after those that are known.
#[cycle(term)]
pub fn term<'a>(
    alloc: Global,
    sig: &Signature,
    checked: &CheckedLines,
    known: &mut LineVariables<'a>,
    sort: SortId,
    written: &'a LineTerm,
) -> Result<Term, AllocError>
    requires declared { KnowsTerm checked.now written.now }
    requires constructors { HasConstructors checked.now sig.now }
    requires fits { ForSomeSorts checked.now known.old.entries
        (λ sorts. TermStands checked.now sorts sort.0 written.now) }
    ensures made { IfOk result (IsMadeTerm sig.now known.old.entries known.new.entries sort.0 written.now) }
    ensures agrees { OnOk result (StaysSorted checked.now known.old.entries known.new.entries
        (λ sorts. TermStands checked.now sorts sort.0 written.now)) }
{
    match &written.shape {
        TermShape::Variable(name) => match sig.constant_of(sort) {
            Some(con) => {
                let made = Term::apply(alloc, con, Vec::new(alloc))?;
                Ok(made)
            }
            None => {
                let number = variable(known, name.as_str(), sort)?;
                let made = Term::var(alloc, sort, number)?;
                Ok(made)
            }
        },
        TermShape::Named { name, args } => {
            let (con, own) = constructor_named(sig, checked, name);
            let args = terms(
                alloc,
                sig,
                checked,
                known,
                own.args.as_slice(),
                args.as_slice(),
            )?;
            let made = Term::apply(alloc, con, args)?;
            Ok(made)
        }
    }
}

/// Makes terms of these sorts, one by one.
#[cycle(term)]
pub fn terms<'a>(
    alloc: Global,
    sig: &Signature,
    checked: &CheckedLines,
    known: &mut LineVariables<'a>,
    sorts: &[SortId],
    written: &'a [LineTerm],
) -> Result<Vec<Term>, AllocError>
    requires declared { AllByRecursion (KnowsTerm checked.now) written.now }
    requires constructors { HasConstructors checked.now sig.now }
    requires fits { ForSomeSorts checked.now known.old.entries
        (λ own. TermsStand checked.now own (numbers_of sorts.now) written.now) }
    ensures made { IfOk result (λ v.
        AreMadeTerms sig.now known.old.entries known.new.entries (numbers_of sorts.now) written.now v.items) }
    ensures agrees { OnOk result (StaysSorted checked.now known.old.entries known.new.entries
        (λ own. TermsStand checked.now own (numbers_of sorts.now) written.now)) }
{
    let mut made = Vec::with_capacity(alloc, written.len())?;
    for i in 0..written.len() {
        let one = term(alloc, sig, checked, known, sorts[i], &written[i])?;
        made.push(one)?;
    }
    Ok(made)
}
