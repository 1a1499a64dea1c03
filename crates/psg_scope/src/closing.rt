//! What passes outward from a region.
ghost use Rattle.std.specs.Prelude.{◌≡◌, [], ℕ, Bool, false, not, ◌||◌, List, IfOk};
ghost use Rattle.psg_grammar.specs.Keys.{Key, outward};
ghost use Rattle.psg_scope.specs.Headers.{AreAscending, ArePlaces, has_space, IsHeader, IsOrdered, keys, PassesOutward};

use crate::header::{Header, NameCol};
use crate::names::Names;
use psg_terms::Seq;
use std::alloc::{AllocError, Global};

/// What passes outward from a region.
#[derive(Drop)]
pub struct Closed {
    /// The header of the scope operator, as its surroundings see it.
    pub header: Header,
    /// For each key that passes outward its place in the header of the region.
    pub kept: Seq<usize>,
}

/// Makes the header of a scope operator from that of its inside region: the keys that the region neither declares nor
/// may still declare. It declares none of them, and leaves no space unfinished. It asks of each key twice, once to
/// count those that pass and once to share them: in steps, the keys times the logarithm of the unfinished spaces.
pub fn close_region(alloc: Global, header: &Header) -> Result<Closed, AllocError>
    requires { IsOrdered header.now }
    ensures outward { IfOk result (λ c. PassesOutward header.now c.header) }
    ensures ordered { IfOk result (λ c. IsOrdered c.header) }
    // the header of a scope operator, whatever its inside region is
    ensures region { IfOk result (λ c. (names declared : List Key) (unfinished : ℕ → Bool)
        → IsHeader names declared unfinished header.now
        → IsHeader (outward unfinished declared names) [] (λ _. false) c.header) }
    ensures kept { IfOk result (λ c. ArePlaces header.now.names c.kept (keys c.header.names)) }
{
    let all = header.names.as_slice();
    let unfinished = header.unfinished.as_slice();
    let count = passing(all, unfinished);
    let mut names = Vec::with_capacity(alloc, count)?;
    let mut kept = Vec::with_capacity(alloc, count)?;
    for i in 0..all.len() {
        let key = &all[i];
        if passes(key, unfinished) {
            names.push(key.share(false)?)?;
            kept.push(i)?;
        }
    }
    let shared = Names::of(alloc, names)?;
    Ok(Closed {
        header: Header {
            names: shared,
            unfinished: Seq::of(Vec::new(alloc)),
            twice: false,
        },
        kept: Seq::of(kept),
    })
}

/// Counts the keys that pass outward.
fn passing(names: &[NameCol], unfinished: &[u32]) -> usize
    requires { AreAscending unfinished.now }
{
    let mut count = 0usize;
    for key in names {
        if passes(key, unfinished) {
            count = count.saturating_add(1);
        }
    }
    count
}

/// Says whether the key passes outward.
fn passes(key: &NameCol, unfinished: &[u32]) -> bool
    requires { AreAscending unfinished.now }
    ensures { result ≡ not (has_space unfinished.now key.now.space || key.now.declared) }
{
    !is_among(unfinished, key.space) && !key.declared
}

/// Says whether the space is among the ascending ones.
fn is_among(spaces: &[u32], space: u32) -> bool
    requires { AreAscending spaces.now }
    ensures { result ≡ has_space spaces.now space }
{
    spaces.binary_search(&space).is_ok()
}
