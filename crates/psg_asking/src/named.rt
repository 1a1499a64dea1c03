//! The names of an answer that occur in a program.
ghost use Rattle.std.specs.Prelude.{◌≡◌, ◌++◌, ◌∷◌, [], bytes_eq, false, map, string_bytes, IfOk, OnOk};
ghost use Rattle.std.specs.List.{filter};
ghost use Rattle.psg_terms.specs.Names.{is_among};
ghost use Rattle.psg_grammar.specs.Fragments.{operator};
ghost use Rattle.psg_tree.specs.Shapes.{list_of, with_part, with_parts};
ghost use Rattle.psg_renaming.specs.Occurring.{occurring};
ghost use Rattle.psg_asking.specs.Told as told;

use psg_session::Refusal;
use psg_terms::Txt;
use psg_tree::{Part, Shape, Tree};
use std::alloc::{AllocError, Global};

/// Returns those of the texts that are read which are names of the tree. It fails where memory runs out.
pub(crate) fn names_among(
    alloc: Global,
    tree: &Tree,
    read: Result<Vec<String>, Refusal>,
) -> Result<Result<Vec<String>, Refusal>, AllocError>
    ensures { IfOk result (λ kept. told.read_of kept ≡ told.among (occurring tree.now) (told.read_of read)) }
{
    match read {
        Ok(words) => {
            let kept = kept_in(alloc, tree, words.as_slice())?;
            Ok(Ok(kept))
        }
        Err(refusal) => Ok(Err(refusal)),
    }
}

/// Returns those of the words that are names of the tree.
fn kept_in(alloc: Global, tree: &Tree, words: &[String]) -> Result<Vec<String>, AllocError>
    ensures { IfOk result (λ kept. map string_bytes kept.items
        ≡ filter (λ w. is_among (occurring tree.now) w) (map string_bytes words.now)) }
{
    let mut names = Vec::new(alloc);
    gather(&mut names, tree)?;
    let kept = kept_among(alloc, names.as_slice(), words)?;
    Ok(kept)
}

/// Returns those of the words that are among the names.
fn kept_among(alloc: Global, names: &[Txt], words: &[String]) -> Result<Vec<String>, AllocError>
    ensures { IfOk result (λ kept. map string_bytes kept.items
        ≡ filter (λ w. is_among names.now w) (map string_bytes words.now)) }
{
    let mut kept = Vec::new(alloc);
    for word in words {
        let text = word.as_str();
        keep_if(alloc, &mut kept, names, text)?;
    }
    Ok(kept)
}

/// Adds the word, if it is among the names.
fn keep_if(
    alloc: Global,
    kept: &mut Vec<String>,
    names: &[Txt],
    word: &str,
) -> Result<(), AllocError>
    ensures { OnOk result (map string_bytes kept.new.items
        ≡ map string_bytes kept.old.items ++ filter (λ w. is_among names.now w) (word.now ∷ [])) }
{
    let among = has_name(names, word);
    if among {
        let copy = String::from_str(alloc, word)?;
        kept.push(copy)?;
        return Ok(());
    }
    Ok(())
}

/// Says whether the word is among the names.
fn has_name(names: &[Txt], word: &str) -> bool
    ensures { result ≡ is_among names.now word.now }
{
    for place in 0..names.len() {
        let name = &names[place];
        if is_word(name, word) {
            return true;
        }
    }
    false
}

/// Says whether the name is the word.
fn is_word(name: &Txt, word: &str) -> bool
    ensures { result ≡ bytes_eq name.now word.now }
{
    name.as_str() == word
}

/// Adds the names of an operator's part.
#[cycle(gather)]
fn gather_part(found: &mut Vec<Txt>, part: &Part) -> Result<(), AllocError>
    ensures { IfOk result (λ _. found.new.items ≡ found.old.items ++ occurring (with_part (operator 0) part.now)) }
{
    match part {
        Part::Sub(tree) => {
            gather(found, tree)?;
            Ok(())
        }
        Part::Name(name) => {
            found.push(name.share()?)?;
            Ok(())
        }
        Part::Number(_) => Ok(()),
        Part::Text(_) => Ok(()),
    }
}

/// Adds the names of an operator's parts.
#[cycle(gather)]
fn gather_parts(found: &mut Vec<Txt>, parts: &[Part]) -> Result<(), AllocError>
    ensures { IfOk result (λ _. found.new.items ≡ found.old.items ++ occurring (with_parts (operator 0) parts.now)) }
{
    for part in parts {
        gather_part(found, part)?;
    }
    Ok(())
}

/// Adds the names of a list's elements.
#[cycle(gather)]
fn gather_elements(found: &mut Vec<Txt>, elements: &[Tree]) -> Result<(), AllocError>
    ensures { IfOk result (λ _. found.new.items ≡ found.old.items ++ occurring (list_of 0 elements.now false)) }
{
    for element in elements {
        gather(found, element)?;
    }
    Ok(())
}

/// Adds the names of the tree, each as often as it occurs, with one more owner.
#[cycle(gather)]
fn gather(found: &mut Vec<Txt>, tree: &Tree) -> Result<(), AllocError>
    ensures { IfOk result (λ _. found.new.items ≡ found.old.items ++ occurring tree.now) }
{
    match tree.shape() {
        Shape::Op { parts, .. } => {
            gather_parts(found, parts.as_slice())?;
            Ok(())
        }
        Shape::List { elements, .. } => {
            gather_elements(found, elements.as_slice())?;
            Ok(())
        }
        Shape::Hole { .. } => Ok(()),
    }
}
