//! The work that is done for specimens, and its bound.
ghost use Rattle.std.specs.Prelude.{◌≡◌, ◌<◌, ◌-◌, ◌^◌, Some, length, min, slice_get};
ghost use Rattle.psg_grammar.specs.declared.types.ListKind.{ListKind};
ghost use Rattle.psg_specimen.specs.Work.{end_work, shown_work, term_work, terms_work};

use psg_grammar::Definition;
use psg_relation::Rel;
use psg_terms::{Room, Term};

/// How much work is done at most for the specimens of a definition, in the unit of `pattern_op`.
const MOST_WORK: u64 = 0x1000_0000;

/// How much a row or a term of the definition counts, where a comparison of two symbols counts 1.
const TERM_WORK: u64 = 8;

/// Returns the room for the specimens of a definition, of which none is gone over: 2^28 in the unit of `pattern_op`.
pub(crate) fn specimen_room() -> Room
    ensures { result.left ≡ 2 ^ 28 }
{
    Room::of(MOST_WORK)
}

/// Returns the work of the pattern of the list's end, or `u64::MAX` if it is more.
pub(crate) fn end_work(definition: &Definition, list: u32) -> u64
    requires { list < length definition.now.lists }
    ensures { (l : ListKind) → slice_get definition.now.lists list ≡ Some l
        → result ≡ min (end_work l.nil_rows) (2 ^ 64 - 1) }
{
    let lists = definition.lists.as_slice();
    let rows = lists[list as usize].nil_rows.as_slice();
    weight_of(rows).saturating_add(TERM_WORK)
}

/// Returns the work of comparing the terms with columns of each row of the relation, or `u64::MAX` if it is more.
pub(crate) fn shown_work(rel: &Rel, terms: &[Term]) -> u64
    ensures { result ≡ min (shown_work rel.now terms.now) (2 ^ 64 - 1) }
{
    let each = (rel.rows().len() as u64).saturating_mul(weight_of(terms));
    rel.weight().saturating_add(each)
}

/// Returns the work of reading the terms, or `u64::MAX` if it is more.
fn weight_of(terms: &[Term]) -> u64
    ensures { result ≡ min (terms_work terms.now) (2 ^ 64 - 1) }
{
    let mut weight = 0u64;
    for term in terms {
        weight = weight.saturating_add(term_work(term));
    }
    weight
}

/// Returns the work of reading the term, or `u64::MAX` if it is more.
fn term_work(term: &Term) -> u64
    ensures { result ≡ min (term_work term.now) (2 ^ 64 - 1) }
{
    TERM_WORK.saturating_add(term.symbols())
}
