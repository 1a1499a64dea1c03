//! The names and literals that a command's arguments give.
ghost use Rattle.std.specs.Prelude.{◌≡◌, ◌↔◌, ◌<◌, ◌≤◌, List, Some, map, length, IfNone, IfOk, IfSome, IsTrue};
ghost use Rattle.std.specs.List.{AllByRecursion};
ghost use Rattle.psg_grammar.specs.Insertion.{AreLeaves, Leaf as PlainLeaf};
ghost use Rattle.psg_grammar.specs.Lookups.{part_items};
ghost use Rattle.psg_session.specs.Leaves.{given, HasWord, leaf_of as plain_leaf_of, GivesLeaves};
ghost use Rattle.psg_session.specs.LeafItems.{has_leaf, IsNameLeaf, IsNumberLeaf, IsTextLeaf, IsNextLeaf, Suits};
ghost use Rattle.psg_session.specs.Views.{plain_leaf, IsLanguage};

use psg_grammar::Item;
use psg_lexis::{LexFault, Spanned, Token, lex};
use psg_specimen::LanguageParts;
use psg_terms::Txt;
use std::alloc::{AllocError, Global};

/// A name, number or text.
#[derive(Drop)]
pub enum Leaf {
    /// A word that is to be a name.
    Name(Txt),
    /// The value of a number.
    Number(u128),
    /// The contents of a text, without quotes and with its escapes resolved.
    Text(Txt),
}

/// Reads the names and literals that the arguments give to the operator, one for each of its name positions, numbers
/// and texts; `None` where the arguments have no tokens or their tokens are no such list. It takes the time of the
/// arguments.
pub fn read_leaves(
    alloc: Global,
    language: &LanguageParts,
    op: u32,
    arguments: &str,
) -> Result<Option<Vec<Leaf>>, AllocError>
    requires language { IsLanguage language.now }
    requires found { op < length language.now.definition.operators }
    ensures some { IfOk result (λ o. IfSome o (λ leaves.
        GivesLeaves language.now.definition op arguments.now (map plain_leaf leaves.items))) }
    ensures none { IfOk result (λ o. IfNone o ((leaves : List PlainLeaf) →
        GivesLeaves language.now.definition op arguments.now leaves → ⊥)) }
{
    let tokens = match lex(alloc, &language.lexis, arguments) {
        Ok(tokens) => tokens,
        Err(fault) => {
            if is_memory(fault) {
                return Err(AllocError);
            }
            return Ok(None);
        }
    };
    let Some(leaves) = leaves_of(alloc, tokens.as_slice())? else {
        return Ok(None);
    };
    let operator = &language.definition.operators.as_slice()[op as usize];
    if are_leaves(language, operator.items.as_slice(), leaves.as_slice()) {
        Ok(Some(leaves))
    } else {
        Ok(None)
    }
}

/// Says whether there was no memory for the tokens, so that the text may have some.
pub(crate) fn is_memory(fault: LexFault) -> bool
    ensures { IsTrue result ↔ (fault ≡ LexFault.Memory) }
{
    match fault {
        LexFault::Memory => true,
        _ => false,
    }
}

/// Returns the leaf that the token is, if it is one.
fn leaf_of(token: &Token) -> Result<Option<Leaf>, AllocError>
    ensures some { IfOk result (λ o. IfSome o (λ leaf. plain_leaf_of token.now ≡ Some (plain_leaf leaf))) }
    ensures none { IfOk result (λ o. IfNone o ((leaf : PlainLeaf) → plain_leaf_of token.now ≡ Some leaf → ⊥)) }
{
    match token {
        Token::Word(word) => Ok(Some(Leaf::Name(word.share()?))),
        Token::Number(number) => Ok(Some(Leaf::Number(*number))),
        Token::Text(text) => Ok(Some(Leaf::Text(text.share()?))),
        _ => Ok(None),
    }
}

/// Returns the leaves that the tokens are, if each is one.
fn leaves_of(alloc: Global, tokens: &[Spanned]) -> Result<Option<Vec<Leaf>>, AllocError>
    ensures some { IfOk result (λ o. IfSome o (λ leaves.
        map given tokens.now ≡ map Some (map plain_leaf leaves.items))) }
    ensures none { IfOk result (λ o. IfNone o ((leaves : List PlainLeaf) →
        map given tokens.now ≡ map Some leaves → ⊥)) }
{
    let mut leaves = Vec::new(alloc);
    for spanned in tokens {
        let Some(leaf) = leaf_of(&spanned.token)? else {
            return Ok(None);
        };
        leaves.push(leaf)?;
    }
    Ok(Some(leaves))
}

/// Says whether the item takes a leaf: a name position, a number or a text.
pub(crate) fn takes_leaf(item: &Item) -> bool
    ensures { result ≡ has_leaf item.now }
{
    match item {
        Item::Refers(_) => true,
        Item::Declares(_) => true,
        Item::Number => true,
        Item::Text => true,
        _ => false,
    }
}

/// Says whether the leaf is a name that is no fixed word, where it is a word if it is a name.
fn is_name_leaf(language: &LanguageParts, leaf: &Leaf) -> bool
    requires language { IsLanguage language.now }
    requires word { HasWord (plain_leaf leaf.now) }
    ensures { IsTrue result ↔ IsNameLeaf language.now.definition (plain_leaf leaf.now) }
{
    match leaf {
        Leaf::Name(name) => !language.lexis.reserved(name.as_str()),
        _ => false,
    }
}

/// Says whether the leaf is a number.
fn is_number_leaf(leaf: &Leaf) -> bool
    ensures { IsTrue result ↔ IsNumberLeaf (plain_leaf leaf.now) }
{
    match leaf {
        Leaf::Number(number) => {
            let _value = *number;
            true
        }
        _ => false,
    }
}

/// Says whether the leaf is a text.
fn is_text_leaf(leaf: &Leaf) -> bool
    ensures { IsTrue result ↔ IsTextLeaf (plain_leaf leaf.now) }
{
    match leaf {
        Leaf::Text(text) => {
            let _text = text.as_str();
            true
        }
        _ => false,
    }
}

/// Says whether the leaf is one for the item.
fn suits(language: &LanguageParts, item: &Item, leaf: &Leaf) -> bool
    requires language { IsLanguage language.now }
    requires word { HasWord (plain_leaf leaf.now) }
    ensures { IsTrue result ↔ Suits language.now.definition item.now (plain_leaf leaf.now) }
{
    match item {
        Item::Refers(_) => is_name_leaf(language, leaf),
        Item::Declares(_) => is_name_leaf(language, leaf),
        Item::Number => is_number_leaf(leaf),
        Item::Text => is_text_leaf(leaf),
        _ => false,
    }
}

/// Returns the number of the next leaf after the item, or none where the leaf is not one for it.
fn next_leaf(language: &LanguageParts, leaves: &[Leaf], at: usize, item: &Item) -> Option<usize>
    requires language { IsLanguage language.now }
    requires words { AllByRecursion HasWord (map plain_leaf leaves.now) }
    requires within { at ≤ length leaves.now }
    ensures { IsNextLeaf language.now.definition leaves.now at item.now result }
{
    if !takes_leaf(item) {
        return Some(at);
    }
    match leaves.get(at) {
        None => None,
        Some(leaf) => {
            if suits(language, item, leaf) {
                Some(at + 1)
            } else {
                None
            }
        }
    }
}

/// Says whether the leaves are one for each name position, number and text of the items, in order and of their kinds.
/// The names among them are words.
fn are_leaves(language: &LanguageParts, items: &[Item], leaves: &[Leaf]) -> bool
    requires language { IsLanguage language.now }
    requires words { AllByRecursion HasWord (map plain_leaf leaves.now) }
    ensures { IsTrue result ↔ AreLeaves language.now.definition (part_items items.now) (map plain_leaf leaves.now) }
{
    let mut at: usize = 0;
    for item in items {
        match next_leaf(language, leaves, at, item) {
            None => return false,
            Some(next) => at = next,
        }
    }
    at == leaves.len()
}
