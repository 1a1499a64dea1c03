//! The fragment that bytes keep.
ghost use Rattle.std.specs.Prelude.{◌≡◌, IfErr, IfOk, MatchResult};
ghost use Rattle.psg_grammar.specs.Kinds.{HasKind};
ghost use Rattle.psg_grammar.specs.Sound.{IsSound};
ghost use Rattle.psg_grammar.specs.WellFormed.{WellFormed, fixed_words};
ghost use Rattle.psg_class.specs.Class.{IsClass};
ghost use Rattle.psg_parse.specs.Tables.{IsParseTable};
ghost use Rattle.psg_library.specs.declared.fragment.SavedFragment.{SavedFragment as Plain};
ghost use Rattle.psg_library.specs.declared.fragment.KeptFault.{KeptFault as Fault};
ghost use Rattle.psg_library.specs.declared.fragment.KeptFault.TheVariants as faults;
ghost use Rattle.psg_library.specs.Heads.{text_in};
ghost use Rattle.psg_library.specs.Keeping.{BeginsAs, CountsTokens, IsFirstFault, IsKept};
ghost use Rattle.psg_library.specs.Keeping.{IsReadAs, IsTextFault, MayCount, OrMemory};

use crate::fragment::{KeptFault, SavedFragment};
use crate::head::{first_line, read_head};
use psg_grammar::{Definition, Kind, kind_named};
use psg_lexis::{Lexis, lex};
use psg_parse::{Goal, ParseTable, parse_with};
use psg_terms::{Steps, Txt};
use psg_tree::Tree;
use std::alloc::Global;
use std::sync::ledger::Ledger;

/// What the head of a kept fragment says, and the text after it.
#[derive(Clone, Copy)]
struct Begun<'a> {
    name: &'a str,
    kind: Kind,
    text: &'a str,
}

/// Reads the fragment that the bytes keep: the name, the kind and the tree. Both forms of the head line are read, with
/// a `2` and without. The tree is well formed.
///
/// An error is the first of these that is there: `Head` where the bytes are not UTF-8 or their first line is no head,
/// `Phylum` where the language has no kind of the name in the head, `NoTokens` where the text after the head has none,
/// `NoTree` where no tree of the kind has them, `Deep` where one has them that is past a limit. `Memory` may be
/// returned at any time. It takes a step of the counter for each token that is parsed. Work and memory are linear in
/// the bytes.
pub fn read_fragment<L: Ledger>(
    alloc: Global,
    definition: &Definition,
    lexis: &Lexis,
    table: &ParseTable,
    bytes: &[u8],
    steps: &mut Steps<L>,
) -> Result<SavedFragment, KeptFault>
    requires sound { IsSound definition.now }
    requires class { IsClass definition.now }
    requires lexis { lexis.now ≡ fixed_words definition.now }
    requires table { IsParseTable definition.now table.now }
    ensures kept { IfOk result (IsKept definition.now bytes.now) }
    ensures formed { IfOk result (λ saved. WellFormed definition.now saved.tree saved.kind) }
    ensures kind { IfOk result (λ saved. HasKind definition.now saved.kind) }
    ensures fault { IfErr result (OrMemory (IsFirstFault definition.now bytes.now)) }
    // no other answer is possible, unless memory runs out
    ensures whole { (saved : Plain) → IsKept definition.now bytes.now saved
        → MatchResult result (λ found. found ≡ saved) (λ fault. fault ≡ faults.Memory) }
    ensures broken { (fault : Fault) → IsFirstFault definition.now bytes.now fault
        → MatchResult result (λ _. ⊥) (OrMemory (λ found. found ≡ fault)) }
    ensures steps { MayCount definition.now bytes.now steps.old steps.new }
{
    let begun = begin(definition, bytes)?;
    let tree = read_tree(
        alloc, definition, lexis, table, begun.kind, begun.text, steps,
    )?;
    let name = Txt::copy_of(alloc, begun.name)?;
    Ok(SavedFragment {
        name,
        kind: begun.kind,
        tree,
    })
}

/// Reads the head of the bytes, and returns it with the text after it.
fn begin<'a>(definition: &Definition, bytes: &'a [u8]) -> Result<Begun<'a>, KeptFault>
    requires { IsSound definition.now }
    ensures head { IfOk result (λ begun. BeginsAs definition.now bytes.now begun.name.now begun.kind) }
    ensures text { IfOk result (λ begun. begun.text.now ≡ text_in bytes.now) }
    ensures fault { IfErr result (IsFirstFault definition.now bytes.now) }
{
    let Ok(text) = str::from_utf8(bytes) else {
        return Err(KeptFault::Head);
    };
    let (line, text) = first_line(text);
    let Some((name, word)) = read_head(line) else {
        return Err(KeptFault::Head);
    };
    let Some(kind) = kind_named(definition, word) else {
        return Err(KeptFault::Phylum);
    };
    Ok(Begun { name, kind, text })
}

/// Reads the text as a tree of the kind.
fn read_tree<L: Ledger>(
    alloc: Global,
    definition: &Definition,
    lexis: &Lexis,
    table: &ParseTable,
    kind: Kind,
    text: &str,
    steps: &mut Steps<L>,
) -> Result<Tree, KeptFault>
    requires sound { IsSound definition.now }
    requires class { IsClass definition.now }
    requires lexis { lexis.now ≡ fixed_words definition.now }
    requires table { IsParseTable definition.now table.now }
    ensures tree { IfOk result (IsReadAs definition.now kind text.now) }
    ensures formed { IfOk result (λ tree. WellFormed definition.now tree kind) }
    ensures fault { IfErr result (OrMemory (IsTextFault definition.now kind text.now)) }
    ensures steps { CountsTokens definition.now text.now steps.old steps.new }
{
    let goal = Goal {
        kind,
        least: 0,
        around: 0,
    };
    let tokens = lex(alloc, lexis, text)?;
    let tree = parse_with(alloc, definition, table, goal, tokens.as_slice(), steps)?;
    Ok(tree)
}
