//! The suffixes of a list, from the end on.
ghost use Rattle.std.specs.Prelude.{◌≡◌, ◌∷◌, ◌<◌, [], ℕ, List, IfOk, get_or, length, replicate};
ghost use Rattle.std.specs.List.{AllByRecursion};
ghost use Rattle.psg_scope.specs.declared.header.NameCol.{NameCol as Position};
ghost use Rattle.psg_scope.specs.Headers.{IsOrdered};
ghost use Rattle.psg_floor.specs.Suffixes.{IsSomeSuffix, IsSuffix, key_count};

use crate::element::Element;
use psg_scope::{Header, header_of, join};
use psg_terms::{Seq, Term};
use std::alloc::{AllocError, Global};

/// A suffix of a list: its header, and a row with a term for each key.
#[derive(Drop)]
pub struct Suffix {
    /// The keys of its elements.
    pub header: Header,
    /// A term for each key.
    pub row: Seq<Term>,
}

/// The suffixes of a list: that of all elements, and those after each element, the end first.
#[derive(Drop)]
pub struct ListSuffixes {
    /// The suffix of all elements.
    pub whole: Suffix,
    /// The suffix after each element, that of the last element first.
    pub rests: Vec<Suffix>,
}

/// Returns the suffix without elements.
fn end(alloc: Global) -> Result<Suffix, AllocError>
    ensures suffix { IfOk result (IsSuffix []) }
    ensures ordered { IfOk result (λ s. IsOrdered s.header) }
{
    let header = header_of(alloc, Vec::new(alloc).as_slice())?;
    Ok(Suffix {
        header,
        row: Seq::of(Vec::new(alloc)),
    })
}

/// Returns a row with this number of terms: those of another row, shared, and after them the term.
fn row(alloc: Global, rest: &[Term], term: &Term, count: usize) -> Result<Vec<Term>, AllocError>
    ensures length { IfOk result (λ v. length v.items ≡ count) }
    ensures shared { IfOk result (λ v. (k : ℕ) → k < count → get_or v.items k term.now ≡ get_or rest.now k term.now) }
{
    let mut row = Vec::with_capacity(alloc, count)?;
    for k in 0..count {
        let column = rest.get(k).unwrap_or(term);
        row.push(column.share()?)?;
    }
    Ok(row)
}

/// Returns the suffix that begins with the element and goes on with the rest.
fn longer(
    alloc: Global,
    element: &Element,
    rest: &Suffix,
    term: &Term,
) -> Result<Suffix, AllocError>
    requires { IsOrdered rest.now.header }
    ensures suffix { IfOk result (λ s. (behind : List (List Position)) → IsSuffix behind rest.now
        → IsSuffix (element.now ∷ behind) s) }
    ensures ordered { IfOk result (λ s. IsOrdered s.header) }
{
    let joined = join(alloc, element.header(), &rest.header)?;
    let count = joined.header.names.as_slice().len();
    let row = row(alloc, rest.row.as_slice(), term, count)?;
    Ok(Suffix {
        header: joined.header,
        row: Seq::of(row),
    })
}

/// Walks over the list from its end. For each element it joins the element's header with that of the rest after it, and
/// shares a row with a term for each key. It fails where memory runs out.
pub fn walked(alloc: Global, elements: &[Element], term: &Term) -> Result<ListSuffixes, AllocError>
    ensures whole { IfOk result (λ s. IsSuffix elements.now s.whole) }
    ensures count { IfOk result (λ s. length s.rests.items ≡ length elements.now) }
    ensures rests { IfOk result (λ s. AllByRecursion (IsSomeSuffix elements.now) s.rests.items) }
{
    let mut whole = end(alloc)?;
    let mut rests = Vec::with_capacity(alloc, elements.len())?;
    let mut left = elements;
    while let Some((element, front)) = left.split_last() {
        let next = longer(alloc, element, &whole, term)?;
        rests.push(whole)?;
        whole = next;
        left = front;
    }
    Ok(ListSuffixes { whole, rests })
}

/// Counts the keys of the list by one walk over its suffixes.
pub fn keys_of(alloc: Global, elements: &[Element], term: &Term) -> Result<usize, AllocError>
    ensures { IfOk result (λ n. n ≡ key_count elements.now) }
{
    let known = walked(alloc, elements, term)?;
    Ok(known.whole.row.as_slice().len())
}

/// Counts the keys of the list again for each of this number of times.
pub fn counted(
    alloc: Global,
    elements: &[Element],
    term: &Term,
    rounds: usize,
) -> Result<Vec<usize>, AllocError>
    ensures { IfOk result (λ v. v.items ≡ replicate rounds (key_count elements.now)) }
{
    let mut counts = Vec::with_capacity(alloc, rounds)?;
    for _round in 0..rounds {
        let count = keys_of(alloc, elements, term)?;
        counts.push(count)?;
    }
    Ok(counts)
}
