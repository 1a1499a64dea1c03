//! Headers of parts made one.
ghost use Rattle.std.specs.Prelude.{◌≡◌, ◌||◌, ◌++◌, [], ℕ, Bool, false, List, IfOk};
ghost use Rattle.psg_grammar.specs.Keys.{Key};
ghost use Rattle.psg_scope.specs.Headers.{ArePlaces, declared_keys, IsHeader, IsOrdered, IsUnion, keys};

use crate::header::{Header, NameCol};
use crate::merging::is_either;
use crate::sharing::whole_of;
use crate::spaces::union;
use psg_terms::Seq;
use std::alloc::{AllocError, Global};

/// The header of two parts of one region.
#[derive(Drop)]
pub struct Joined {
    /// The header of the whole.
    pub header: Header,
    /// For each key of the left header its place in the joined one.
    pub left: Seq<usize>,
    /// For each key of the right header its place in the joined one.
    pub right: Seq<usize>,
}

/// Makes the header of a region that has the positions of two: its keys are those of both, in order and each once, and
/// a key that one of them declares is declared. It declares a key twice where one of them does or both declare one key.
///
/// Where one header has all keys of the other one, and the other one declares none, the joined header shares the first
/// one's list of keys. Each key of the other one is then looked for: by binary search where the first one has at least
/// eight times as many keys, else by one walk over both. In all other cases each key is copied once, and the names are
/// shared. A place is made for each key of each header.
pub fn join(alloc: Global, left: &Header, right: &Header) -> Result<Joined, AllocError>
    requires left { IsOrdered left.now }
    requires right { IsOrdered right.now }
    ensures union { IfOk result (λ j. IsUnion left.now right.now j.header) }
    ensures ordered { IfOk result (λ j. IsOrdered j.header) }
    // the header of two parts of a region, whatever the region is
    ensures region { IfOk result (λ j.
        (names others declared others_declared : List Key) (unfinished others_unfinished : ℕ → Bool)
        → IsHeader names declared unfinished left.now → IsHeader others others_declared others_unfinished right.now
        → IsHeader (names ++ others) (declared ++ others_declared)
        (λ s. unfinished s || others_unfinished s) j.header) }
    ensures left { IfOk result (λ j. ArePlaces j.header.names j.left (keys left.now.names)) }
    ensures right { IfOk result (λ j. ArePlaces j.header.names j.right (keys right.now.names)) }
{
    let all = whole_of(alloc, &left.names, &right.names)?;
    let unfinished = union(
        alloc,
        left.unfinished.as_slice(),
        right.unfinished.as_slice(),
    )?;
    Ok(Joined {
        header: Header {
            names: all.names,
            unfinished: Seq::of(unfinished),
            twice: is_either(is_either(left.twice, right.twice), all.clashes),
        },
        left: Seq::of(all.left),
        right: Seq::of(all.right),
    })
}

/// Makes the header of an operator's own positions. It joins the headers of both halves, so it takes a number of steps
/// that is that of the positions times its logarithm.
pub fn header_of(alloc: Global, positions: &[NameCol]) -> Result<Header, AllocError>
    ensures header { IfOk result (IsHeader (keys positions.now) (declared_keys positions.now) (λ _. false)) }
    ensures ordered { IfOk result IsOrdered }
{
    if positions.len() <= 1 {
        let Some(position) = positions.first() else {
            return Ok(Header::empty(alloc));
        };
        let only = Header::of_one(alloc, position)?;
        return Ok(only);
    }
    let (front, behind) = positions.split_at(positions.len() / 2);
    let left = header_of(alloc, front)?;
    let right = header_of(alloc, behind)?;
    let joined = join(alloc, &left, &right)?;
    Ok(joined.header)
}
