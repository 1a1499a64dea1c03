//! Refutations in which one thing is changed.
ghost use Rattle.psg_cache.specs.Notes.{IsFormed};

use super::explained_of;
use psg_explain::{Claim, Explained, Refutation, Verdict, check_refutation, explain};
use psg_langs::MINI;
use psg_session::Session;
use psg_specimen::Language;
use psg_terms::{Seq, Steps};
use psg_tree::Tree;
use std::alloc::{AllocError, Global};
use std::sync::ledger::Ledger;
use std::test::Fail;

/// Returns the claims with the number of the last verdict of the last one changed by one.
fn with_other_number(alloc: Global, claims: Vec<Claim>) -> Result<Vec<Claim>, AllocError> {
    let mut all = claims;
    let Some(last) = all.pop() else {
        return Ok(all);
    };
    let Claim {
        path,
        cell,
        step,
        rows,
        verdicts,
    } = last;
    let mut changed = Vec::new(alloc);
    for verdict in verdicts.into_vec() {
        changed.push(match verdict {
            Verdict::Circle { rules, number } => Verdict::Circle {
                rules,
                number: number.saturating_sub(1),
            },
            other => other,
        })?;
    }
    all.push(Claim {
        path,
        cell,
        step,
        rows,
        verdicts: Seq::of(changed),
    })?;
    Ok(all)
}

/// Says whether the refutation of the session's tree is right, and whether it still is with another number.
pub(super) fn right_and_changed<L: Ledger>(
    alloc: Global,
    session: &Session,
    steps: &mut Steps<L>,
) -> Result<(bool, bool), AllocError> {
    let Some(note) = session.note() else {
        return Ok((false, true));
    };
    let language = session.language();
    match explain(alloc, language, note, steps)? {
        Explained::Fine => Ok((false, true)),
        Explained::Long => Ok((false, true)),
        Explained::Wrong(refutation) => {
            let right = check_refutation(alloc, language, note.tree(), &refutation)?;
            let changed = is_right_changed(alloc, language, note.tree(), refutation)?;
            Ok((right, changed))
        }
    }
}

/// Says whether the refutation is right with another number; one without claims is not tried.
fn is_right_changed(
    alloc: Global,
    language: &Language,
    tree: &Tree,
    refutation: Refutation,
) -> Result<bool, AllocError>
    requires { IsFormed language.now tree.now }
{
    match refutation {
        Refutation::Twice {
            path: _path,
            space: _,
            name: _name,
        } => Ok(true),
        Refutation::Empty { path, claims } => {
            let other = Refutation::Empty {
                path,
                claims: Seq::of(with_other_number(alloc, claims.into_vec())?),
            };
            let changed = check_refutation(alloc, language, tree, &other)?;
            Ok(changed)
        }
    }
}

#[test]
fn another_number_is_wrong(rt: HostRuntime) -> Result<(), Fail> {
    let script = "new Exp\nover / x = x[1]\n";
    let answers = explained_of(rt.alloc(), MINI, script)?;
    assert!(rt; answers.0);
    assert!(rt; !answers.1);
    Ok(())
}
