//! Two lists of keys made one, without a copy where one list has all keys of the other.
ghost use Rattle.std.specs.Prelude.{IfOk, IfSome};
ghost use Rattle.psg_scope.specs.Headers.{ArePlaces, AreRising, keys};
ghost use Rattle.psg_scope.specs.Sharing.{IsInside, IsUsedAt, IsWhole};

use crate::header::NameCol;
use crate::merging::{below, merged};
use crate::names::Names;
use std::alloc::{AllocError, Global};
use std::cmp::Ordering;

/// The keys of two lists, and the places of those of each list among them.
#[derive(Drop)]
pub(crate) struct Whole {
    pub(crate) names: Names,
    pub(crate) left: Vec<usize>,
    pub(crate) right: Vec<usize>,
    /// Whether both lists declare one key.
    pub(crate) clashes: bool,
}

/// Returns the place of the first key that is not below the key, which is at `from` or after it. It looks at the keys
/// one by one.
fn walked(cols: &[NameCol], from: usize, key: &NameCol) -> usize {
    for place in from..cols.len() {
        match cols[place].order(key) {
            Ordering::Less => {}
            Ordering::Equal => return place,
            Ordering::Greater => return place,
        }
    }
    cols.len()
}

/// Returns the only place where the list can have the key: it is at `from` or after it. It is found by a walk from
/// there, or by binary search where the list is far longer than that of which the key is.
fn only_place(cols: &[NameCol], from: usize, far_longer: bool, key: &NameCol) -> usize
    requires { AreRising (keys cols.now) }
{
    if far_longer {
        return below(cols, key);
    }
    walked(cols, from, key)
}

/// Returns the place of the key in the list, if the key is there, at `from` or after it, and is only used.
fn used_at(cols: &[NameCol], from: usize, far_longer: bool, key: &NameCol) -> Option<usize>
    requires { AreRising (keys cols.now) }
    ensures { IfSome result (λ place. IsUsedAt cols.now key.now place) }
{
    if key.declared {
        return None;
    }
    let place = only_place(cols, from, far_longer, key);
    if place >= cols.len() {
        return None;
    }
    match cols[place].order(key) {
        Ordering::Less => None,
        Ordering::Equal => Some(place),
        Ordering::Greater => None,
    }
}

/// Returns the places of the keys of a short list in a long one, if each of them is there and is only used. It asks for
/// memory after it found the first key. Each key is looked for by binary search where the long list has at least eight
/// times as many keys, else all by one walk over both lists.
fn places_in(
    alloc: Global,
    short: &[NameCol],
    long: &[NameCol],
) -> Result<Option<Vec<usize>>, AllocError>
    requires { AreRising (keys long.now) }
    ensures { IfOk result (λ found. IfSome found (λ v. IsInside long.now short.now v.items)) }
{
    if short.len() > long.len() {
        return Ok(None);
    }
    let far_longer = long.len() / 8 >= short.len();
    let mut places = Vec::new(alloc);
    let mut from = 0;
    for i in 0..short.len() {
        let key = &short[i];
        let Some(place) = used_at(long, from, far_longer, key) else {
            return Ok(None);
        };
        places.reserve_exact(short.len() - i)?;
        places.push(place)?;
        from = place;
    }
    Ok(Some(places))
}

/// Returns the places of a list's keys in itself, from 0 on.
fn own_places(alloc: Global, cols: &[NameCol]) -> Result<Vec<usize>, AllocError>
    ensures { IfOk result (λ v. ArePlaces cols.now v.items (keys cols.now)) }
{
    let mut places = Vec::with_capacity(alloc, cols.len())?;
    for place in 0..cols.len() {
        places.push(place)?;
    }
    Ok(places)
}

/// Returns the left list once more, if it has all keys of the right one and the right one declares none.
fn left_alone(alloc: Global, left: &Names, right: &Names) -> Result<Option<Whole>, AllocError>
    requires left { AreRising (keys left.now) }
    requires right { AreRising (keys right.now) }
    ensures { IfOk result (λ found. IfSome found (λ w. IsWhole left.now right.now w)) }
{
    let long = left.as_slice();
    let short = right.as_slice();
    let Some(inside) = places_in(alloc, short, long)? else {
        return Ok(None);
    };
    let own = own_places(alloc, long)?;
    let names = left.share()?;
    Ok(Some(Whole {
        names,
        left: own,
        right: inside,
        clashes: false,
    }))
}

/// Returns the right list once more, if it has all keys of the left one and the left one declares none.
fn right_alone(alloc: Global, left: &Names, right: &Names) -> Result<Option<Whole>, AllocError>
    requires left { AreRising (keys left.now) }
    requires right { AreRising (keys right.now) }
    ensures { IfOk result (λ found. IfSome found (λ w. IsWhole left.now right.now w)) }
{
    let long = right.as_slice();
    let short = left.as_slice();
    let Some(inside) = places_in(alloc, short, long)? else {
        return Ok(None);
    };
    let own = own_places(alloc, long)?;
    let names = right.share()?;
    Ok(Some(Whole {
        names,
        left: inside,
        right: own,
        clashes: false,
    }))
}

/// Returns the keys of two lists in order, each once. Where one list has all keys of the other, and the other one only
/// uses them, it is shared and no key is copied; else each key is copied once.
pub(crate) fn whole_of(alloc: Global, left: &Names, right: &Names) -> Result<Whole, AllocError>
    requires left { AreRising (keys left.now) }
    requires right { AreRising (keys right.now) }
    ensures { IfOk result (λ w. IsWhole left.now right.now w) }
{
    if let Some(whole) = left_alone(alloc, left, right)? {
        return Ok(whole);
    }
    if let Some(whole) = right_alone(alloc, left, right)? {
        return Ok(whole);
    }
    let all = merged(alloc, left.as_slice(), right.as_slice())?;
    let names = Names::of(alloc, all.names)?;
    Ok(Whole {
        names,
        left: all.left,
        right: all.right,
        clashes: all.clashes,
    })
}
