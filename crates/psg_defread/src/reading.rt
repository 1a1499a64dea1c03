//! Definitions from their bytes.
ghost use Rattle.std.specs.Prelude.{◌≡◌, ◌<◌, ◌^◌, length, IfOk, IfErr};
ghost use Rattle.std.specs.List.{AllByRecursion};
ghost use Rattle.psg_lexis.specs.Tokens.{IsFixedWord};
ghost use Rattle.psg_grammar.specs.Sound.{IsSound};
ghost use Rattle.psg_grammar.specs.WellFormed.{fixed_words};
ghost use Rattle.psg_grammar.specs.declared.types.Definition.{Definition as Plain};
ghost use Rattle.psg_defread.specs.Refusals.{IsReadFault};
ghost use Rattle.psg_defread.specs.Reading.{Spells, IsFaultless};

use psg_defcheck::CheckedLines;
use psg_deflines::{ReadFault, read_lines};
use psg_defnumber::laws::{numbered_is_sound, one_numbering, words_are_tokens};
use psg_defnumber::numbered;
use psg_grammar::Definition;
use std::alloc::Global;

/// Returns the definition that the bytes spell without a fault, or their first fault: the line, from 1, and what is
/// wrong with it. The bytes are tested as UTF-8 first, then the head, then the form of each line, then the meaning of
/// each line among all of them. `Memory` is returned when memory runs out, at any time.
pub fn read_definition(alloc: Global, bytes: &[u8]) -> Result<Definition, ReadFault>
    requires { length bytes.now < 2 ^ 32 }
    ensures ok { IfOk result (λ d. Spells bytes.now d) }
    ensures faultless { IfOk result (λ _. IsFaultless bytes.now) }
    ensures only { IfOk result (λ d. (other : Plain) → Spells bytes.now other → other ≡ d) }
    ensures err { IfErr result (IsReadFault bytes.now) }
    ensures sound { IfOk result IsSound }
    ensures words { IfOk result (λ d. AllByRecursion IsFixedWord (fixed_words d)) }
{
    let found = read_lines(alloc, bytes)?;
    let entries = found.entries.as_slice();
    let checked = CheckedLines::of(alloc, entries)?;
    let definition = numbered(alloc, found.version, &checked)?;
    one_numbering();
    numbered_is_sound();
    words_are_tokens();
    Ok(definition)
}
