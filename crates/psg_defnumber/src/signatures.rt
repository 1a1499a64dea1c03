//! The signature from the lines of sorts.
ghost use Rattle.std.specs.Prelude.{◌≡◌, ◌∷◌, ◌++◌, [], IfOk, OnOk};
ghost use Rattle.psg_terms.specs.Declarations.{IsSpelled};
ghost use Rattle.psg_deflines.specs.Entries.{written};
ghost use Rattle.psg_defcheck.specs.Faults.{ArePassed};
ghost use Rattle.psg_defnumber.specs.Numbers.{sort_decls};
ghost use Rattle.psg_defnumber.specs.Soundness.{AreOfFile};

use psg_deflines::Line;
use psg_terms::{ConDecl, Seq, SigFault, Signature, SortDecl, Txt};
use std::alloc::{AllocError, Global};

/// Returns the same texts, shared.
fn shared(alloc: Global, texts: &[Txt]) -> Result<Vec<Txt>, AllocError>
    ensures { IfOk result (λ v. v.items ≡ texts.now) }
{
    let mut made = Vec::with_capacity(alloc, texts.len())?;
    for text in texts {
        let one = text.share()?;
        made.push(one)?;
    }
    Ok(made)
}

/// Returns the same constructors, with shared names.
fn con_decls(alloc: Global, decls: &[ConDecl]) -> Result<Vec<ConDecl>, AllocError>
    ensures { IfOk result (λ v. v.items ≡ decls.now) }
{
    let mut made = Vec::with_capacity(alloc, decls.len())?;
    for decl in decls {
        let args = shared(alloc, decl.args.as_slice())?;
        let name = decl.name.share()?;
        made.push(ConDecl {
            name,
            args: Seq::of(args),
        })?;
    }
    Ok(made)
}

/// Puts the sort of a line after the others, if it declares one.
fn put_sort(alloc: Global, made: &mut Vec<SortDecl>, entry: &Option<Line>) -> Result<(), AllocError>
    ensures { OnOk result (made.new.items ≡ made.old.items ++ sort_decls (written (entry.now ∷ []))) }
{
    let Some(line) = entry else {
        return Ok(());
    };
    let Line::Sort(decl) = line else {
        return Ok(());
    };
    let constructors = con_decls(alloc, decl.constructors.as_slice())?;
    let name = decl.name.share()?;
    made.push(SortDecl {
        name,
        constructors: Seq::of(constructors),
    })?;
    Ok(())
}

/// Returns the sorts as a signature takes them, in order.
fn sort_lines(alloc: Global, entries: &[Option<Line>]) -> Result<Vec<SortDecl>, AllocError>
    ensures { IfOk result (λ v. v.items ≡ sort_decls (written entries.now)) }
{
    let mut made = Vec::new(alloc);
    for entry in entries {
        put_sort(alloc, &mut made, entry)?;
    }
    Ok(made)
}

/// Makes the signature of the sorts and constructors. Lines that pass the tests of meaning leave no fault but memory
/// that runs out.
pub fn signature(alloc: Global, entries: &[Option<Line>]) -> Result<Signature, AllocError>
    requires passed { ArePassed (written entries.now) [] (written entries.now) }
    requires few { AreOfFile (written entries.now) }
    ensures { IfOk result (IsSpelled (sort_decls (written entries.now))) }
{
    let decls = sort_lines(alloc, entries)?;
    match Signature::new(alloc, decls) {
        Ok(signature) => Ok(signature),
        Err(fault) => match fault {
            SigFault::Memory => Err(AllocError),
            _ => unreachable!(),
        },
    }
}
