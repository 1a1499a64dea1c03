//! The languages of the tests, and what is read in them.
ghost use Rattle.std.specs.Prelude.{◌≡◌, ◌<◌, ◌≤◌, IfOk};
ghost use Rattle.psg_grammar.specs.Sound.{IsSound};
ghost use Rattle.psg_grammar.specs.declared.limits.TheConstants.{MOST_BRACKETS};
ghost use Rattle.psg_class.specs.Class.{IsClass};

use psg_class::class_check;
use psg_defread::read_definition;
use psg_grammar::{Definition, Item};
use psg_lexis::{Lexis, Spanned, lex};
use psg_parse::{Goal, ParseFault, parse};
use psg_terms::{Steps, Txt};
use psg_tree::Tree;
use std::alloc::{AllocError, Global};
use std::marker::Brand;
use std::sync::ledger::{Blank, Ledger};

/// The definition that the text spells.
pub(super) fn definition(alloc: Global, text: &str) -> Result<Definition, AllocError>
    ensures { IfOk result IsSound }
{
    if text.len() >= 1_048_576 {
        return Err(AllocError);
    }
    match read_definition(alloc, text.as_bytes()) {
        Ok(definition) => Ok(definition),
        Err(_) => Err(AllocError),
    }
}

/// Expressions with operators of each form, lists of them, and statements that declare. Differences have this level,
/// and lists are `unfinished` or `fixed`.
fn spelled(alloc: Global, minus: &str, ends: &str) -> Result<String, AllocError> {
    Ok(format!(in alloc;
        "psg 1
sort Unit = ok
entity Unit
phylum Exp : Unit bracketed
phylum Stm : Unit
list Args : Unit of Exp \",\" inline {ends}
op ex : Exp = \"x\"
op num : Exp = number
op str : Exp = text
op var : Exp = refers
op plus : Exp infixl 4 = Exp \"+\" Exp
op minus : Exp {minus} = Exp \"-\" Exp
op not : Exp prefix 3 = \"not\" Exp
op neg : Exp prefix 6 = \"~\" Exp
op fact : Exp postfix 8 = Exp tight \"!\"
op list : Exp = \"[\" tight Args tight \"]\"
op do : Exp scope = \"do\" Stm
op let : Stm = \"let\" declares \"be\" Exp \"end\"
"
    )?)
}

/// The definition of such expressions, which is of the grammar class.
pub(super) fn expressions(alloc: Global, minus: &str, ends: &str) -> Result<Definition, AllocError>
    ensures sound { IfOk result IsSound }
    ensures class { IfOk result IsClass }
{
    let text = spelled(alloc, minus, ends)?;
    let definition = definition(alloc, text.as_str())?;
    match class_check(alloc, &definition) {
        Ok(()) => Ok(definition),
        Err(_) => Err(AllocError),
    }
}

fn put_words(words: &mut Vec<Txt>, items: &[Item]) -> Result<(), AllocError> {
    for item in items {
        if let Item::Word(word) = item {
            words.push(word.share()?)?;
        }
    }
    Ok(())
}

/// The fixed words of the definition.
fn lexis(alloc: Global, definition: &Definition) -> Result<Lexis, AllocError> {
    let mut words = Vec::new(alloc);
    for operator in definition.operators.as_slice() {
        put_words(&mut words, operator.items.as_slice())?;
    }
    for list in definition.lists.as_slice() {
        words.push(list.separator.share()?)?;
    }
    Lexis::new(alloc, words.as_slice())
}

/// The tokens of a text of the language.
pub(super) fn tokens(
    alloc: Global,
    definition: &Definition,
    text: &str,
) -> Result<Vec<Spanned>, AllocError> {
    let lexis = lexis(alloc, definition)?;
    match lex(alloc, &lexis, text) {
        Ok(tokens) => Ok(tokens),
        Err(_) => Err(AllocError),
    }
}

fn counted<L: Ledger>(
    alloc: Global,
    definition: &Definition,
    goal: Goal,
    tokens: &[Spanned],
    ledger: Blank,
) -> Result<Tree, ParseFault>
    requires sound { IsSound definition.now }
    requires class { IsClass definition.now }
    requires around { goal.around ≤ MOST_BRACKETS }
    requires name { ledger.name ≡ L.name }
    requires parts { ledger.parts ≡ L.parts }
    requires some { 0 < L.parts }
{
    let mut steps = Steps::<L>::of(ledger);
    parse(alloc, definition, goal, tokens, &mut steps)
}

/// The tree of the tokens, or why there is none.
pub(super) fn tree(
    alloc: Global,
    definition: &Definition,
    goal: Goal,
    tokens: &[Spanned],
) -> Result<Tree, ParseFault>
    requires sound { IsSound definition.now }
    requires class { IsClass definition.now }
    requires around { goal.around ≤ MOST_BRACKETS }
{
    counted::<Brand>(alloc, definition, goal, tokens, Blank::new(1))
}
