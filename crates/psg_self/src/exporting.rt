//! The exported text, and the definition that it is.
ghost use Rattle.std.specs.Prelude.{◌≡◌, ◌<◌, ◌^◌, IfOk, IfErr, length, MatchResult};
ghost use Rattle.psg_grammar.specs.declared.types.Kind.TheVariants as kinds;
ghost use Rattle.std.specs.List.{AllByRecursion};
ghost use Rattle.psg_lexis.specs.Tokens.{IsFixedWord};
ghost use Rattle.psg_grammar.specs.Sound.{IsSound};
ghost use Rattle.psg_grammar.specs.WellFormed.{WellFormed, IsComplete, fixed_words};
ghost use Rattle.psg_grammar.specs.declared.types.Definition.{Definition as Plain};
ghost use Rattle.psg_defread.specs.Reading.{IsReadAs, Spells};
ghost use Rattle.psg_defread.specs.Refusals.{Refusal};
ghost use Rattle.psg_self.specs.SelfLanguage.{IsSelf};
ghost use Rattle.psg_self.specs.Export.{exported, IsExportFault};
ghost use Rattle.psg_self.specs.Says.{Says};

use crate::fault::ExportFault;
use crate::laws::only_says;
use crate::lines::exported_text;
use crate::opening::first_open;
use psg_defread::{DefFault, ReadFault, read_definition};
use psg_grammar::Definition;
use psg_specimen::Language;
use psg_tree::Tree;
use std::alloc::Global;

/// Returns the exported text of a tree of the language of definitions: `psg 1`, and a line for each line of the tree
/// and for each row of an operator. The language itself is not read.
///
/// `Unfinished` is returned exactly where the tree has a placeholder or an unfinished list, with the path of the first
/// one in the order of its text; `Memory` where memory runs out, at any time, or where 32 bits do not count the
/// children of a node. It takes time linear in the text and in the lengths of the paths of all nodes, and calls itself
/// as deep as the tree is nested.
pub fn export(alloc: Global, language: &Language, tree: &Tree) -> Result<Vec<u8>, ExportFault>
    requires itself { IsSelf language.now }
    requires formed { WellFormed language.now tree.now (kinds.List 0) }
    ensures bytes { IfOk result (λ bytes. bytes.items ≡ exported tree.now) }
    ensures complete { IfOk result (λ bytes. IsComplete tree.now) }
    ensures err { IfErr result (IsExportFault language.now tree.now) }
{
    let _ = language;
    match first_open(alloc, tree)? {
        Some(path) => Err(ExportFault::Unfinished(path)),
        None => {
            let text = exported_text(alloc, tree)?;
            Ok(text.into_bytes())
        }
    }
}

/// Exports a tree of the language of definitions and reads its text back: as the definition that the tree says, or with
/// the fault that the text has.
///
/// It returns an error exactly as `export` does. It takes the time of `export` and of reading the text.
pub fn check_export(
    alloc: Global,
    language: &Language,
    tree: &Tree,
) -> Result<Result<Definition, DefFault>, ExportFault>
    requires itself { IsSelf language.now }
    requires formed { WellFormed language.now tree.now (kinds.List 0) }
    requires short { IsComplete tree.now → length (exported tree.now) < 2 ^ 32 }
    ensures checked { IfOk result (λ inner.
        MatchResult inner (IsReadAs (exported tree.now)) (Refusal (exported tree.now))) }
    ensures only { IfOk result (λ inner. IfOk inner (λ d. (other : Plain) → Spells (exported tree.now) other
        → other ≡ d)) }
    ensures says { IfOk result (λ inner. IfOk inner (Says tree.now)) }
    ensures sound { IfOk result (λ inner. IfOk inner IsSound) }
    ensures words { IfOk result (λ inner. IfOk inner (λ d. AllByRecursion IsFixedWord (fixed_words d))) }
    ensures complete { IfOk result (λ inner. IsComplete tree.now) }
    ensures err { IfErr result (IsExportFault language.now tree.now) }
{
    only_says();
    let bytes = export(alloc, language, tree)?;
    match read_definition(alloc, bytes.as_slice()) {
        Ok(definition) => Ok(Ok(definition)),
        Err(fault) => match fault {
            ReadFault::Def(fault) => Ok(Err(fault)),
            ReadFault::Memory => Err(ExportFault::Memory),
        },
    }
}
