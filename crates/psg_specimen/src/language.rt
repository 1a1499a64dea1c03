//! An accepted definition with what an editor makes of it once.
ghost use Rattle.std.specs.Prelude.{◌≡◌, ◌↔◌, IfOk, IsTrue};
ghost use Rattle.std.specs.List.{AllByRecursion};
ghost use Rattle.psg_grammar.specs.Sound.{IsSound};
ghost use Rattle.psg_grammar.specs.WellFormed.{fixed_words as fixed_words_of};
ghost use Rattle.psg_grammar.specs.Kinds.{HasKind};
ghost use Rattle.psg_lexis.specs.Tokens.{IsFixedWord};
ghost use Rattle.psg_parse.specs.Tables.{IsParseTable};
ghost use Rattle.psg_specimen.specs.Languages.{AreTables, IsDeclaringPhylum, IsLanguage};
ghost use Rattle.psg_specimen.specs.Refusal.{IsAccepted};

use psg_eval::Tables;
use psg_grammar::{Definition, Kind};
use psg_lexis::Lexis;
use psg_parse::{ParseTable, fixed_words};
use std::alloc::{AllocError, Global};
use std::marker::Model;

/// A definition with what is made of it once: what evaluations look up of it, its fixed words, and what the parser
/// looks up of it.
#[derive(Drop)]
pub struct LanguageParts {
    /// The definition.
    pub definition: Definition,
    /// What evaluations look up, and for each phylum the spaces in which it declares.
    pub tables: Tables,
    /// The fixed words.
    pub lexis: Lexis,
    /// What the parser looks up.
    pub table: ParseTable,
}

/// The language of an accepted definition. Contracts see it as the definition. `accept` alone makes one, so that what
/// it keeps belongs to the definition.
pub struct Language {
    parts: LanguageParts,
}

// written out, so that it is proved once, and not again in each crate where such a value is let go
impl Drop for Language {
    fn drop(self) {
        let Language { parts } = self;
        let _ = parts;
    }
}

impl Model for Language {
    ghost use Rattle.psg_grammar.specs.declared.types.Definition.{Definition as PlainDefinition};
    ghost use Rattle.psg_grammar.specs.contracts.types.Definition as definition_row;
    ghost use Rattle.psg_specimen.specs.Languages.{IsLanguage};

    ghost Value = { PlainDefinition };

    ghost coded = { definition_row.the_row.coded };

    ghost view = { λ l. l.parts.definition };

    ghost invariant = { λ l. IsLanguage l.parts };
}

/// Makes what is looked up of a definition: what evaluations look up, the fixed words, and what the parser looks up.
///
/// It walks the definition once for its words and once for the parser's table, and makes the evaluator's tables. It
/// fails where memory runs out.
pub(crate) fn tables_of(
    alloc: Global,
    definition: &Definition,
) -> Result<(Tables, Lexis, ParseTable), AllocError>
    requires { IsSound definition.now }
    ensures tables { IfOk result (λ made. AreTables definition.now made.0) }
    ensures words { IfOk result (λ made. made.1 ≡ fixed_words_of definition.now) }
    ensures table { IfOk result (λ made. IsParseTable definition.now made.2) }
{
    let words = fixed_words(alloc, definition)?;
    let lexis = Lexis::new(alloc, words.as_slice())?;
    let tables = Tables::of(alloc, definition)?;
    let table = ParseTable::of(alloc, definition)?;
    Ok((tables, lexis, table))
}

impl Language {
    /// Makes the language of what is known of an accepted definition. It takes no memory.
    pub(crate) fn of(parts: LanguageParts) -> Language
        requires { IsLanguage parts }
        ensures { result ≡ parts.definition }
    {
        Language { parts }
    }

    /// Gives the definition. It is sound and accepted, and each of its fixed words is one token.
    pub fn definition(&self) -> &Definition
        ensures same { result.now ≡ self.now }
        ensures sound { IsSound self.now }
        ensures accepted { IsAccepted self.now }
        ensures tokens { AllByRecursion IsFixedWord (fixed_words_of self.now) }
    {
        &self.parts.definition
    }

    /// Gives the tokens' table: the definition's fixed words.
    pub fn lexis(&self) -> &Lexis
        ensures { result.now ≡ fixed_words_of self.now }
    {
        &self.parts.lexis
    }

    /// Gives what the parser looks up of the definition.
    pub fn table(&self) -> &ParseTable
        ensures { IsParseTable self.now result.now }
    {
        &self.parts.table
    }

    /// Gives what is kept of the language. The parts are those of the definition.
    pub fn parts(&self) -> &LanguageParts
        ensures definition { result.now.definition ≡ self.now }
        ensures parts { IsLanguage result.now }
    {
        &self.parts
    }

    /// Says whether the kind, which is one of the definition, is a phylum that declares names. It looks it up.
    pub fn is_declaring(&self, kind: Kind) -> bool
        requires { HasKind self.now kind }
        ensures { IsTrue result ↔ IsDeclaringPhylum self.now kind }
    {
        self.parts.is_declaring(kind)
    }
}

impl LanguageParts {
    /// Says whether the kind is a phylum that declares names.
    pub fn is_declaring(&self, kind: Kind) -> bool
        requires language { IsLanguage self.now }
        requires kind { HasKind self.now.definition kind }
        ensures { IsTrue result ↔ IsDeclaringPhylum self.now.definition kind }
    {
        match kind {
            Kind::Phylum(phylum) => !self.tables.spaces()[phylum as usize].is_empty(),
            Kind::List(_) => false,
        }
    }
}
