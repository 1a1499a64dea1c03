//! Signatures written as texts.
ghost use Rattle.std.specs.Prelude.{◌<◌, ◌^◌, length};
ghost use Rattle.std.specs.Bool.{OnTrue};
ghost use Rattle.psg_terms.specs.Declarations.{constructor_names};

use psg_terms::{ConDecl, ConId, Seq, SigFault, Signature, SortDecl, SortId, Txt};
use std::alloc::{AllocError, Global};
use std::test::Fail;

/// A constructor from its name and its arguments' sorts, as `cons Type Types`.
fn constructor(alloc: Global, text: &str) -> Result<ConDecl, AllocError> {
    let mut words = text.split_whitespace();
    let name = Txt::copy_of(alloc, words.next().unwrap_or(""))?;
    let mut args = Vec::new(alloc);
    for word in words {
        args.push(Txt::copy_of(alloc, word)?)?;
    }
    Ok(ConDecl {
        name,
        args: Seq::of(args),
    })
}

/// A sort from its name and its constructors, as `Types = nil, cons Type Types`.
fn sort(alloc: Global, text: &str) -> Result<SortDecl, AllocError> {
    let (name, rest) = text.split_once(" = ").unwrap_or((text, ""));
    let mut constructors = Vec::new(alloc);
    for part in rest.split(',') {
        constructors.push(constructor(alloc, part)?)?;
    }
    Ok(SortDecl {
        name: Txt::copy_of(alloc, name)?,
        constructors: Seq::of(constructors),
    })
}

/// The sorts of a text, one on each line.
fn sorts(alloc: Global, text: &str) -> Result<Vec<SortDecl>, AllocError> {
    let mut sorts = Vec::new(alloc);
    for line in text.lines() {
        sorts.push(sort(alloc, line)?)?;
    }
    Ok(sorts)
}

/// Whether there are fewer than 2^32 constructors.
fn are_few(sorts: &[SortDecl]) -> bool
    ensures { OnTrue result (length (constructor_names sorts.now) < 2 ^ 32) }
{
    let mut count = 0usize;
    for sort in sorts {
        count += sort.constructors.as_slice().len();
        if count >= 0x1_0000_0000 {
            return false;
        }
    }
    true
}

fn made(alloc: Global, text: &str) -> Result<Signature, SigFault> {
    let sorts = sorts(alloc, text)?;
    if sorts.len() < 0x1_0000_0000 && are_few(sorts.as_slice()) {
        return Signature::new(alloc, sorts);
    }
    Err(SigFault::Memory)
}

/// The signature of the text.
pub(super) fn signature(alloc: Global, text: &str) -> Result<Signature, AllocError> {
    match made(alloc, text) {
        Ok(signature) => Ok(signature),
        Err(_) => Err(AllocError),
    }
}

/// What is wrong with the sorts of a text.
fn fault(alloc: Global, text: &str) -> Result<String, AllocError> {
    match made(alloc, text) {
        Ok(_) => String::from_str(alloc, "nothing"),
        Err(e) => format!(in alloc; "{e}"),
    }
}

#[test]
fn faults(rt: HostRuntime) -> Result<(), Fail> {
    for (text, expected) in [
        ("A = f A", "sort 0 has no term without variables"),
        ("A = f A E", "there is no sort `E`"),
        (
            "B = b, c\nD = g B",
            "the only constructor of sort 1 has arguments",
        ),
        ("B = b E, c\nD = b", "the name `b` stands twice"),
    ] {
        let found = fault(rt.alloc(), text)?;
        assert_eq!(rt; found.as_str(), expected);
    }
    Ok(())
}

/// Whether the sorts `Unit`, `Type` and `Types` are read back.
fn has_sorts(sig: &Signature) -> bool {
    if sig.sorts() != 3 {
        return false;
    }
    sig.sort_name(SortId(2)) == "Types" && sig.constructors_of(SortId(1)).len() == 3
}

/// Whether the constructors `arr` and `cons`, the fourth and the last of six, are read back.
fn has_constructors(sig: &Signature) -> bool {
    if sig.constructors() != 6 {
        return false;
    }
    let cons = sig.constructor(ConId(5));
    cons.name.as_str() == "cons"
        && cons.args.as_slice().len() == 2
        && sig.sort_of(ConId(3)) == SortId(1)
}

#[test]
fn accessors(rt: HostRuntime) -> Result<(), Fail> {
    let text = "Unit = ok\nType = int, bool, arr Type\nTypes = nil, cons Type Types";
    let sig = signature(rt.alloc(), text)?;
    assert!(rt; has_sorts(&sig));
    assert!(rt; has_constructors(&sig));
    assert!(rt; sig.constant_of(SortId(0)) == Some(ConId(0)));
    assert!(rt; sig.constant_of(SortId(1)).is_none());
    Ok(())
}
