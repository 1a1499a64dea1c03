//! Names that nothing else has: some letters with which no other name begins, and then a number.
ghost use Rattle.std.specs.Prelude.{◌≡◌, ◌++◌, decimal, string_bytes, IfOk, OnOk};
ghost use Rattle.psg_places.specs.NewNames.{IsFree, IsFront, IsLonger, beginning, begins_with, new_name as new_name_of};

use crate::numbers::one_if;
use crate::words::all_words;
use itoa::Buffer;
use psg_grammar::Definition;
use psg_terms::Txt;
use psg_tree::Tree;
use std::alloc::{AllocError, Global};

/// Letters, and how many names begin with them.
#[derive(Drop)]
struct Front {
    letters: String,
    left: usize,
}

/// Says whether the name begins with the front.
fn begins(front: &str, name: &Txt) -> bool
    ensures { result ≡ begins_with front.now name.now }
{
    name.as_str().as_bytes().starts_with(front.as_bytes())
}

/// Counts the names that begin with the front.
fn count(front: &str, names: &[Txt]) -> usize
    ensures { result ≡ beginning front.now names.now }
{
    let mut total = 0;
    for name in names {
        let so = begins(front, name);
        let more = one_if(so);
        total += more;
    }
    total
}

/// Returns the front with the letter after it, and counts the names that begin with that.
fn with_letter(alloc: Global, front: &str, letter: &str, names: &[Txt]) -> Result<Front, AllocError>
    ensures letters { IfOk result (λ f. string_bytes f.letters ≡ front.now ++ letter.now) }
    ensures left { IfOk result (λ f. f.left ≡ beginning (front.now ++ letter.now) names.now) }
{
    let mut letters = String::new(alloc);
    letters.push_str(front)?;
    letters.push_str(letter)?;
    let left = count(letters.as_str(), names);
    Ok(Front { letters, left })
}

/// Returns the front with an a or a b after it, with which fewer names begin: at most half of those before.
fn longer(alloc: Global, front: &str, names: &[Txt]) -> Result<Front, AllocError>
    ensures { IfOk result (λ f. IsLonger names.now front.now (string_bytes f.letters) f.left) }
{
    let by_a = with_letter(alloc, front, "a", names)?;
    let by_b = with_letter(alloc, front, "b", names)?;
    if by_a.left <= by_b.left {
        return Ok(by_a);
    }
    Ok(by_b)
}

/// Returns letters a and b with which none of the names begins, at most 64: each letter leaves at most half of the
/// names that began with those before it.
fn free_letters(alloc: Global, names: &[Txt]) -> Result<String, AllocError>
    ensures { IfOk result (λ letters. IsFree names.now (string_bytes letters)) }
{
    let mut letters = String::new(alloc);
    let mut left = names.len();
    'letters: while left > 0 {
        let next = longer(alloc, letters.as_str(), names)?;
        letters = next.letters;
        left = next.left;
    }
    Ok(letters)
}

/// Returns letters with which no name of the tree begins and no fixed word of the definition. It compares all names
/// with two fronts for each letter, of which there are no more than the logarithm of the number of names, and one.
pub(crate) fn front_of(
    alloc: Global,
    definition: &Definition,
    tree: &Tree,
) -> Result<Txt, AllocError>
    ensures { IfOk result (IsFront definition.now tree.now) }
{
    let names = all_words(alloc, definition, tree)?;
    let letters = free_letters(alloc, names.as_slice())?;
    let front = Txt::of(alloc, letters)?;
    Ok(front)
}

/// Writes the number in decimal.
fn write_number(out: &mut String, value: usize) -> Result<(), AllocError>
    ensures { OnOk result (string_bytes out.new ≡ string_bytes out.old ++ decimal value) }
{
    let mut buffer = Buffer::new();
    out.push_str(buffer.format(value))
}

/// Returns the new name for the place of the number, where new names begin with the letters of the front: these
/// letters, an a and the number. An error says that memory ran out.
pub fn new_name(alloc: Global, front: &Txt, place: usize) -> Result<Txt, AllocError>
    ensures { IfOk result (λ name. name ≡ new_name_of front.now place) }
{
    let mut letters = String::new(alloc);
    letters.push_str(front.as_str())?;
    letters.push_str("a")?;
    write_number(&mut letters, place)?;
    let name = Txt::of(alloc, letters)?;
    Ok(name)
}
