//! The name that an entry has where no name is given.
ghost use Rattle.std.specs.Prelude.{◌≡◌, IfOk, chars, string_bytes};
ghost use Rattle.psg_terms.specs.Names.{is_among};
ghost use Rattle.psg_terms.specs.Words.{IsWord};
ghost use Rattle.psg_completing.specs.Naming.{IsSampleName, IsSampleOf};

use psg_lexis::Lexis;
use psg_specimen::Language;
use psg_terms::Txt;
use std::alloc::{AllocError, Global};

/// Says whether the word is one of the fixed words.
fn is_fixed(lexis: &Lexis, word: &str) -> bool
    requires { IsWord (chars word.now) }
    ensures { result ≡ is_among lexis.now word.now }
{
    lexis.reserved(word)
}

/// Returns the word `name` with as many `_` after it as make it none of the fixed words.
fn free_name(alloc: Global, lexis: &Lexis) -> Result<String, AllocError>
    ensures { IfOk result (λ name. IsSampleOf lexis.now (string_bytes name)) }
{
    let mut name = String::from_str(alloc, "name")?;
    'strokes: while is_fixed(lexis, name.as_str()) {
        name.push('_')?;
    }
    Ok(name)
}

/// Returns the name of the language that is `name` with the fewest `_` after it. It looks up one word for each of them.
pub(crate) fn sample_name(alloc: Global, language: &Language) -> Result<Txt, AllocError>
    ensures { IfOk result (IsSampleName language.now) }
{
    let lexis = language.lexis();
    let word = free_name(alloc, lexis)?;
    let name = Txt::of(alloc, word)?;
    Ok(name)
}
