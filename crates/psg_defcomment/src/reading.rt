//! Definitions with the token of their comments, from their bytes.
ghost use Rattle.std.specs.Prelude.{ℕ, ◌≡◌, ◌<◌, ◌^◌, ◌↔◌, List, Option, IfOk, IfErr, IsTrue, MatchOption, length};
ghost use Rattle.std.specs.List.{AllByRecursion};
ghost use Rattle.psg_deflines.specs.declared.fault.DefFault.{DefFault as PlainFault};
ghost use Rattle.psg_lexis.specs.Tokens.{IsFixedWord};
ghost use Rattle.psg_grammar.specs.Sound.{IsSound};
ghost use Rattle.psg_grammar.specs.WellFormed.{fixed_words as fixed_words_of};
ghost use Rattle.psg_grammar.specs.declared.types.Definition.{Definition as Plain};
ghost use Rattle.psg_comments.specs.Fitting.{IsFit};
ghost use Rattle.psg_defread.specs.Reading.{IsReadAs, Spells};
ghost use Rattle.psg_defread.specs.Refusals.{IsReadFault};
ghost use Rattle.psg_defcomment.specs.Plain.{named_in, plain_of};
ghost use Rattle.psg_defcomment.specs.Reading.{AreFit, IsCommentOf, IsCommented, comment_of, first_token};
ghost use Rattle.psg_defcomment.specs.Refusals.{is_of_meaning as is_of_meaning_of};
ghost use Rattle.psg_defcomment.specs.Refusals.{IsFileFault, IsLater, IsSecond, IsUnfit};

use crate::fault::FileFault;
use crate::lines::Named;
use crate::plain::plain_file;
use psg_comments::is_fit;
use psg_defread::{DefCode, DefFault, ReadFault, read_definition};
use psg_grammar::Definition;
use psg_parse::fixed_words;
use psg_terms::{Txt, uncountable};
use std::alloc::{AllocError, Global};

/// A definition, and the token of comments, if there is one.
#[derive(Drop)]
pub struct Commented {
    /// The definition.
    pub definition: Definition,
    /// The token that begins the comments of program files.
    pub comment: Option<Txt>,
}

/// Returns the number of the second line that names a token, if there are two.
fn second_line(named: &[Named]) -> Option<usize>
    ensures { MatchOption result ((line : ℕ) → IsSecond named.now line → ⊥) (IsSecond named.now) }
{
    match named {
        [_, second, ..] => Some(second.line),
        _ => None,
    }
}

/// Says whether the test of the code looks at the meaning of lines.
fn is_of_meaning(code: DefCode) -> bool
    ensures { result ≡ is_of_meaning_of code }
{
    match code {
        DefCode::Repeated
        | DefCode::Unknown
        | DefCode::Sort
        | DefCode::Count
        | DefCode::NoEntity
        | DefCode::NoGround
        | DefCode::OneWide => true,
        DefCode::NotText
        | DefCode::Form
        | DefCode::Version
        | DefCode::Token
        | DefCode::Later
        | DefCode::Nested => false,
    }
}

/// Says whether the fault is one of meaning on a later line.
fn is_later(line: usize, fault: DefFault) -> bool
    ensures { IsTrue result ↔ IsLater line fault }
{
    is_of_meaning(fault.code) && line < fault.line as usize
}

/// Returns the first fault of a file, by that of the file without its lines on comments.
fn first_fault(named: &[Named], fault: ReadFault) -> FileFault
    ensures { (bytes : List ℕ) → named.now ≡ named_in bytes → IsReadFault (plain_of bytes) fault
        → IsFileFault bytes result }
{
    let ReadFault::Def(fault) = fault else {
        return FileFault::Memory;
    };
    let Some(line) = second_line(named) else {
        return FileFault::Definition(fault);
    };
    if is_later(line, fault) {
        return FileFault::Repeated(line);
    }
    FileFault::Definition(fault)
}

/// Returns the token that the line names, if it fits the words of the definition.
fn fitting(alloc: Global, definition: &Definition, named: &Named) -> Result<Txt, FileFault>
    ensures ok { IfOk result (λ token. (token ≡ named.now.token) × IsFit (fixed_words_of definition.now) token) }
    ensures err { IfErr result (IsUnfit (fixed_words_of definition.now) named.now) }
{
    let words = fixed_words(alloc, definition)?;
    if !is_fit(words.as_slice(), named.token.as_str()) {
        return Err(FileFault::Unfit(named.line));
    }
    let token = named.token.share()?;
    Ok(token)
}

/// Returns the token of comments, where the lines name one that fits the words of the definition, and none where no
/// line names one.
fn token_in(
    alloc: Global,
    definition: &Definition,
    named: &[Named],
) -> Result<Option<Txt>, FileFault>
    ensures fit { IfOk result (λ _. AreFit (fixed_words_of definition.now) named.now) }
    ensures first { IfOk result (λ token. token ≡ first_token named.now) }
    ensures err { IfErr result (λ fault. (bytes : List ℕ) → named.now ≡ named_in bytes
        → IsReadAs (plain_of bytes) definition.now → IsFileFault bytes fault) }
{
    if let Some(line) = second_line(named) {
        return Err(FileFault::Repeated(line));
    }
    let Some((first, _)) = named.split_first() else {
        return Ok(None);
    };
    let token = fitting(alloc, definition, first)?;
    Ok(Some(token))
}

/// Returns the definition that the bytes spell without a fault, with the token of its comments, or their first fault.
/// The tests are those of the file without its lines on comments, in their order; a second line that names a token is
/// told by its number among the faults of meaning; whether the token fits the words of the language is tested last.
/// `Memory` is returned when memory runs out, at any time. It takes the time of reading the definition, and once more
/// the time of going over the bytes.
pub fn read_commented(alloc: Global, bytes: &[u8]) -> Result<Commented, FileFault>
    requires { length bytes.now < 2 ^ 32 }
    ensures ok { IfOk result (λ c. IsCommented bytes.now c.definition) }
    ensures comment { IfOk result (λ c. c.comment ≡ comment_of bytes.now) }
    ensures fit { IfOk result (λ c. IsCommentOf (fixed_words_of c.definition) c.comment) }
    ensures only { IfOk result (λ c. (other : Plain) → Spells (plain_of bytes.now) other → other ≡ c.definition) }
    ensures err { IfErr result (IsFileFault bytes.now) }
    ensures sound { IfOk result (λ c. IsSound c.definition) }
    ensures words { IfOk result (λ c. AllByRecursion IsFixedWord (fixed_words_of c.definition)) }
{
    let file = plain_file(alloc, bytes)?;
    let named = file.named.as_slice();
    let text = file.bytes.as_slice();
    if text.len() >= 0xffff_ffff {
        return Err(FileFault::from(uncountable(text.len())));
    }
    let definition = match read_definition(alloc, text) {
        Ok(definition) => definition,
        Err(fault) => return Err(first_fault(named, fault)),
    };
    let comment = token_in(alloc, &definition, named)?;
    Ok(Commented {
        definition,
        comment,
    })
}
