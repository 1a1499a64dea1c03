//! The call that accepts a definition.
ghost use Rattle.std.specs.Prelude.{◌≡◌, IfErr, IfOk, OnOk};
ghost use Rattle.std.specs.List.{AllByRecursion};
ghost use Rattle.psg_class.specs.Class.{IsClass};
ghost use Rattle.psg_class.specs.Only.{HasOnlyTrees};
ghost use Rattle.psg_completions.specs.Completions.{OpenOrCompletable, RowOrTree};
ghost use Rattle.psg_grammar.specs.Sound.{IsSound};
ghost use Rattle.psg_grammar.specs.WellFormed.{fixed_words};
ghost use Rattle.psg_lexis.specs.Tokens.{IsFixedWord};
ghost use Rattle.psg_specimen.specs.Conditions.{IsMet};
ghost use Rattle.psg_specimen.specs.Refusal.{IsAccepted, Refuses};

use crate::accepting::{
    check_beginning, check_coverage, check_elements, check_places, check_specimens,
};
use crate::fault::{AcceptFault, Refused};
use crate::language::{Language, LanguageParts, tables_of};
use crate::laws::promises;
use psg_grammar::Definition;
use std::alloc::Global;

/// Tests the grammar class and then all conditions in their order.
fn check(alloc: Global, definition: &Definition) -> Result<(), AcceptFault>
    requires { IsSound definition.now }
    ensures class { OnOk result (IsClass definition.now) }
    ensures met { OnOk result (IsMet definition.now) }
    ensures refusal { IfErr result (Refuses definition.now) }
{
    check_beginning(alloc, definition)?;
    check_coverage(alloc, definition)?;
    check_places(alloc, definition)?;
    check_specimens(alloc, definition)?;
    check_elements(alloc, definition)?;
    Ok(())
}

/// Accepts a definition, or says which condition fails first, and for which first thing, and gives the definition back.
/// The conditions are those of the grammar class and then those that make hole rows and declare rows true of trees.
/// What an editor of the language needs is made here, once. `Memory` is returned where memory runs out, or
/// where the work of a condition passes a stated bound; natural definitions are far below it.
pub fn accept(alloc: Global, definition: Definition) -> Result<Language, Refused>
    requires sound { IsSound definition }
    requires words { AllByRecursion IsFixedWord (fixed_words definition) }
    ensures language { IfOk result (λ l. l ≡ definition) }
    ensures accepted { OnOk result (IsAccepted definition) }
    // a value is one of a hole row exactly where a complete legal tree has it
    ensures values { OnOk result (RowOrTree definition) }
    // a tree is open exactly where it has a legal completion
    ensures completions { OnOk result (OpenOrCompletable definition) }
    // no list of tokens has two trees
    ensures trees { OnOk result (HasOnlyTrees definition) }
    ensures back { IfErr result (λ r. r.definition ≡ definition) }
    ensures refusal { IfErr result (λ r. Refuses definition r.fault) }
{
    if let Err(fault) = check(alloc, &definition) {
        return Err(Refused { definition, fault });
    }
    promises(&definition);
    match tables_of(alloc, &definition) {
        Ok((tables, lexis, table)) => Ok(Language::of(LanguageParts {
            definition,
            tables,
            lexis,
            table,
        })),
        Err(_) => Err(Refused {
            definition,
            fault: AcceptFault::Memory,
        }),
    }
}
