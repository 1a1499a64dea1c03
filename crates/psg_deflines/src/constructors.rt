//! Constructors from parts of a line.
ghost use Rattle.std.specs.Prelude.{◌≡◌, IfOk, MatchOption};
ghost use Rattle.psg_deflines.specs.Parts.{texts};
ghost use Rattle.psg_deflines.specs.FormReads.{AreNamesRead, HasNoNames, IsConRead, HasNoCon, AreCons, HasNoCons};
ghost use Rattle.psg_deflines.specs.Only.{IsOnly};

use crate::names::{is, kind_name, own_name};
use crate::term_reading::is_opened;
use psg_terms::{ConDecl, Seq, Txt};
use std::alloc::{AllocError, Global};

/// Names, and how many parts they take with the commas between and the bracket after them.
#[derive(Drop)]
struct NamesRead {
    names: Vec<Txt>,
    taken: usize,
}

/// A constructor, and how many parts it takes.
#[derive(Drop)]
struct ConRead {
    constructor: ConDecl,
    taken: usize,
}

/// Returns the names of sorts up to a closing bracket, with a comma between two.
fn names_to_bracket(alloc: Global, parts: &[&[u8]]) -> Result<Option<NamesRead>, AllocError>
    ensures { IfOk result (λ o. MatchOption o (HasNoNames (texts parts.now))
        (λ r. AreNamesRead (texts parts.now) r.names.items r.taken)) }
{
    let mut names = Vec::new(alloc);
    let mut taken = 0;
    'names: while parts.len() - taken >= 2 {
        let Some(name) = kind_name(alloc, parts[taken])? else {
            return Ok(None);
        };
        names.push(name)?;
        let mark = parts[taken + 1];
        taken += 2;
        if is(mark, ")") {
            return Ok(Some(NamesRead { names, taken }));
        }
        if !is(mark, ",") {
            return Ok(None);
        }
    }
    Ok(None)
}

/// Returns the constructor with which the parts begin: its name, and the sorts of its arguments in brackets where it
/// has any.
fn constructor(alloc: Global, parts: &[&[u8]]) -> Result<Option<ConRead>, AllocError>
    ensures { IfOk result (λ o. MatchOption o (HasNoCon (texts parts.now))
        (λ r. IsConRead (texts parts.now) r.constructor r.taken)) }
{
    let Some((first, rest)) = parts.split_first() else {
        return Ok(None);
    };
    let Some(name) = own_name(alloc, first)? else {
        return Ok(None);
    };
    if !is_opened(rest) {
        let args = Seq::of(Vec::new(alloc));
        let constructor = ConDecl { name, args };
        return Ok(Some(ConRead {
            constructor,
            taken: 1,
        }));
    }
    let Some(read) = names_to_bracket(alloc, &parts[2..])? else {
        return Ok(None);
    };
    let NamesRead { names, taken } = read;
    let args = Seq::of(names);
    let constructor = ConDecl { name, args };
    Ok(Some(ConRead {
        constructor,
        taken: taken + 2,
    }))
}

/// Reads the constructors that the parts are; `None` where they are none.
pub fn constructors(alloc: Global, parts: &[&[u8]]) -> Result<Option<Vec<ConDecl>>, AllocError>
    ensures { IfOk result (λ o. MatchOption o (HasNoCons (texts parts.now))
        (λ v. IsOnly (AreCons (texts parts.now)) v.items)) }
{
    let mut constructors = Vec::new(alloc);
    let mut taken = 0;
    'constructors: while taken < parts.len() {
        let Some(read) = constructor(alloc, &parts[taken..])? else {
            return Ok(None);
        };
        let ConRead {
            constructor,
            taken: more,
        } = read;
        constructors.push(constructor)?;
        taken += more;
    }
    Ok(Some(constructors))
}
