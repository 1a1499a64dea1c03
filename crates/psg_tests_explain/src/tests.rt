//! Scripts whose tree is explained at their end.
ghost use Rattle.std.specs.Prelude.{◌≡◌, ◌<◌};

mod changed;
mod limits;
mod reasons;
mod rows;

use psg_defread::read_definition;
use psg_explain::{Explained, Label, Reason, Refutation, check_refutation, explain, last_reasons};
use psg_session::Session;
use psg_specimen::{Language, accept};
use psg_terms::{Node, Signature, Steps, Term};
use psg_world::MemFiles;
use std::alloc::{AllocError, Global};
use std::marker::Brand;
use std::process::Abort;
use std::sync::ledger::{Blank, Ledger};

/// Returns the language of the definition.
fn language_of(alloc: Global, definition: &str) -> Result<Language, AllocError> {
    if definition.len() >= 1_048_576 {
        return Err(AllocError);
    }
    let Ok(read) = read_definition(alloc, definition.as_bytes()) else {
        return Err(AllocError);
    };
    match accept(alloc, read) {
        Ok(language) => Ok(language),
        Err(_) => Err(AllocError),
    }
}

fn lines_of(alloc: Global, script: &str) -> Result<Vec<String>, AllocError> {
    let mut lines = Vec::new(alloc);
    for line in script.lines() {
        lines.push(String::from_str(alloc, line)?)?;
    }
    Ok(lines)
}

/// Returns the session after the lines, in the language.
fn played<L: Ledger>(
    alloc: Global,
    language: Language,
    lines: &[String],
    steps: &mut Steps<L>,
) -> Result<Session, AllocError> {
    let mut session = Session::new(alloc, language)?;
    let mut files = MemFiles::new(alloc, Vec::new(alloc), Vec::new(alloc));
    for line in lines {
        session.apply_line(alloc, line.as_bytes(), &mut files, steps)?;
    }
    Ok(session)
}

fn path_text(alloc: Global, steps: &[u32]) -> Result<String, AllocError> {
    let mut text = String::new(alloc);
    if steps.is_empty() {
        text.push_str("/")?;
    }
    for step in steps {
        text.push_str(format!(in alloc; "/{step}")?.as_str())?;
    }
    Ok(text)
}

fn label_text(alloc: Global, label: Label) -> Result<String, AllocError> {
    match label {
        Label::Row(row) => Ok(format!(in alloc; "row {row}")?),
        Label::Pair(left, right) => Ok(format!(in alloc; "pair {left} {right}")?),
    }
}

/// Writes what is before the argument of the number.
fn push_before(text: &mut String, number: usize) -> Result<(), AllocError> {
    if number == 0 {
        text.push_str("(")?;
    } else {
        text.push_str(",")?;
    }
    Ok(())
}

/// Returns the text of a term that is at most so deep.
fn term_text(alloc: Global, sig: &Signature, term: &Term, deep: u32) -> Result<String, AllocError> {
    let Some(less) = deep.checked_sub(1) else {
        return Ok(String::from_str(alloc, "..")?);
    };
    match term.node() {
        Node::Var { number, .. } => Ok(format!(in alloc; "?{number}")?),
        Node::Con { con, args } => {
            let mut text = String::new(alloc);
            if con.0 < sig.constructors() {
                text.push_str(sig.constructor(*con).name.as_str())?;
            }
            let args = args.as_slice();
            for i in 0..args.len() {
                push_before(&mut text, i)?;
                let arg = term_text(alloc, sig, &args[i], less)?;
                text.push_str(arg.as_str())?;
            }
            if !args.is_empty() {
                text.push_str(")")?;
            }
            Ok(text)
        }
    }
}

fn reason_text(alloc: Global, sig: &Signature, reason: &Reason) -> Result<String, AllocError> {
    let (word, left, right) = match reason {
        Reason::Clash(left, right) => ("clash", left, right),
        Reason::Circle(left, right) => ("circle", left, right),
    };
    let one = term_text(alloc, sig, left, 32)?;
    let other = term_text(alloc, sig, right, 32)?;
    Ok(format!(in alloc; "{word} {one} = {other}")?)
}

/// Writes the step of the last claim, and whether it is that of an end.
fn step_text(
    alloc: Global,
    session: &Session,
    refutation: &Refutation,
) -> Result<String, AllocError> {
    let Refutation::Empty { claims, .. } = refutation else {
        return Ok(String::new(alloc));
    };
    let Some(last) = claims.as_slice().last() else {
        return Ok(String::new(alloc));
    };
    let _ = session;
    let path = path_text(alloc, last.path.steps())?;
    let step = last.step;
    match last.cell {
        None => Ok(format!(in alloc; "culprit {path} step {step}\n")?),
        Some(cell) => Ok(format!(in alloc; "culprit {path} cell {cell} step {step}\n")?),
    }
}

fn wrong_text(
    alloc: Global,
    session: &Session,
    refutation: &Refutation,
) -> Result<String, AllocError> {
    let Some(note) = session.note() else {
        return Ok(String::new(alloc));
    };
    let language = session.language();
    let mut text = step_text(alloc, session, refutation)?;
    if let Refutation::Twice { path, space, name } = refutation {
        let path = path_text(alloc, path.steps())?;
        text.push_str(format!(in alloc; "twice {path} {space} {name}\n")?.as_str())?;
    }
    let right = check_refutation(alloc, language, note.tree(), refutation)?;
    if !right {
        text.push_str("refused\n")?;
        return Ok(text);
    }
    let told = last_reasons(alloc, language, note.tree(), refutation)?;
    for case in told.as_slice() {
        let label = label_text(alloc, case.label)?;
        let reason = reason_text(alloc, &language.definition().signature, &case.reason)?;
        text.push_str(format!(in alloc; "{label} {reason}\n")?.as_str())?;
    }
    text.push_str("checked\n")?;
    Ok(text)
}

/// Returns what is said of the session's tree.
fn explained<L: Ledger>(
    alloc: Global,
    session: &Session,
    steps: &mut Steps<L>,
) -> Result<String, AllocError> {
    let Some(note) = session.note() else {
        return Ok(String::from_str(alloc, "none\n")?);
    };
    match explain(alloc, session.language(), note, steps)? {
        Explained::Fine => Ok(String::from_str(alloc, "ok\n")?),
        Explained::Long => Ok(String::from_str(alloc, "long\n")?),
        Explained::Wrong(refutation) => wrong_text(alloc, session, &refutation),
    }
}

fn counted<L: Ledger>(
    alloc: Global,
    language: Language,
    lines: &[String],
    ledger: Blank,
) -> Result<String, AllocError>
    requires name { ledger.name ≡ L.name }
    requires parts { ledger.parts ≡ L.parts }
    requires some { 0 < L.parts }
{
    let mut steps = Steps::<L>::of(ledger);
    let session = played(alloc, language, lines, &mut steps)?;
    explained(alloc, &session, &mut steps)
}

/// The script on the definition is explained so.
fn says(
    rt: &impl Abort,
    alloc: Global,
    definition: &str,
    script: &str,
    output: &str,
) -> Result<(), AllocError> {
    let language = language_of(alloc, definition)?;
    let lines = lines_of(alloc, script)?;
    let text = counted::<Brand>(alloc, language, lines.as_slice(), Blank::new(1))?;
    assert!(rt; text.as_str() == output, "{script}{text}");
    Ok(())
}

fn both_counted<L: Ledger>(
    alloc: Global,
    language: Language,
    lines: &[String],
    ledger: Blank,
) -> Result<(bool, bool), AllocError>
    requires name { ledger.name ≡ L.name }
    requires parts { ledger.parts ≡ L.parts }
    requires some { 0 < L.parts }
{
    let mut steps = Steps::<L>::of(ledger);
    let session = played(alloc, language, lines, &mut steps)?;
    changed::right_and_changed(alloc, &session, &mut steps)
}

/// Says whether the refutation of the script's tree is right, and whether it still is with another number.
fn explained_of(alloc: Global, definition: &str, script: &str) -> Result<(bool, bool), AllocError> {
    let language = language_of(alloc, definition)?;
    let lines = lines_of(alloc, script)?;
    both_counted::<Brand>(alloc, language, lines.as_slice(), Blank::new(1))
}
