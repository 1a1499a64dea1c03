//! Two lists of keys in order made one.
ghost use Rattle.std.specs.Prelude.{◌≡◌, ◌≤◌, ◌∷◌, ◌++◌, [], ◌||◌, ◌&&◌, IfOk, List, OnOk, length, take};
ghost use Rattle.std.specs.List.{AllByRecursion};
ghost use Rattle.std.specs.declared.cmp.Ordering.TheVariants.{Less};
ghost use Rattle.psg_grammar.specs.Keys.{key_cmp};
ghost use Rattle.psg_scope.specs.Headers.{key_of, keys, both, ArePlaces, AreRising};
ghost use Rattle.psg_scope.specs.declared.header.NameCol.{NameCol as Col};
ghost use Rattle.psg_scope.specs.Merging.{merge, clashes, AreBefore, GoesOn, GrowsBy, IsNext, IsUpTo};

use crate::header::NameCol;
use std::alloc::{AllocError, Global};
use std::cmp::Ordering;

/// The keys of two lists, and the places of those of each list among them.
#[derive(Drop)]
pub(crate) struct Merging {
    pub(crate) names: Vec<NameCol>,
    pub(crate) left: Vec<usize>,
    pub(crate) right: Vec<usize>,
    /// Whether both lists declare one key.
    pub(crate) clashes: bool,
}

/// The next key of two lists, and what follows it.
pub(crate) enum First<'a> {
    Left(&'a NameCol, &'a [NameCol]),
    Right(&'a NameCol, &'a [NameCol]),
    Both(&'a NameCol, &'a [NameCol], &'a NameCol, &'a [NameCol]),
    End,
}

/// Says which of the first keys of two lists is the next one: the lesser, or both if they are equal.
fn next<'a>(left: &'a [NameCol], right: &'a [NameCol]) -> First<'a>
    ensures { IsNext left.now right.now result }
{
    let Some((one, lefts)) = left.split_first() else {
        return match right.split_first() {
            Some((two, rights)) => First::Right(two, rights),
            None => First::End,
        };
    };
    let Some((two, rights)) = right.split_first() else {
        return First::Left(one, lefts);
    };
    match one.order(two) {
        Ordering::Less => First::Left(one, lefts),
        Ordering::Equal => First::Both(one, lefts, two, rights),
        Ordering::Greater => First::Right(two, rights),
    }
}

/// Counts the keys of a list that are below the key. It looks at a number of keys that is the logarithm of theirs.
pub(crate) fn below(cols: &[NameCol], key: &NameCol) -> usize
    requires { AreRising (keys cols.now) }
    ensures within { result ≤ length cols.now }
    ensures below { AllByRecursion (λ (c : Col). key_cmp (key_of c) (key_of key.now) ≡ Less) (take result cols.now) }
{
    let mut low = 0;
    let mut high = cols.len();
    while low < high {
        let middle = low + (high - low) / 2;
        match cols[middle].order(key) {
            Ordering::Less => low = middle + 1,
            Ordering::Equal => high = middle,
            Ordering::Greater => high = middle,
        }
    }
    low
}

/// Counts the first keys of a long list that are below the first key of a short one. Of a list that is less than eight
/// times as long as the other it counts none: there the walk key by key looks at no more keys than a search does.
fn before(long: &[NameCol], short: &[NameCol]) -> usize
    requires { AreRising (keys long.now) }
    ensures within { result ≤ length long.now }
    ensures before { AreBefore (take result long.now) short.now }
{
    if long.len() / 8 < short.len() {
        return 0;
    }
    match short.first() {
        Some(key) => below(long, key),
        None => long.len(),
    }
}

/// What two lists are after the keys that were taken of them.
#[derive(Clone, Copy)]
struct Rests<'a> {
    left: &'a [NameCol],
    right: &'a [NameCol],
}

impl Merging {
    /// Adds keys of the left list that are below those of the right one.
    fn add_lefts(&mut self, run: &[NameCol]) -> Result<(), AllocError>
        ensures { OnOk result ((whole others rest right : List Col) → AreBefore run.now right
            → IsUpTo whole others (run.now ++ rest) right self.old → IsUpTo whole others rest right self.new) }
    {
        for key in run {
            self.add_left(key)?;
        }
        Ok(())
    }

    /// Adds keys of the right list that are below those of the left one.
    fn add_rights(&mut self, run: &[NameCol]) -> Result<(), AllocError>
        ensures { OnOk result ((whole others left rest : List Col) → AreBefore run.now left
            → IsUpTo whole others left (run.now ++ rest) self.old → IsUpTo whole others left rest self.new) }
    {
        for key in run {
            self.add_right(key)?;
        }
        Ok(())
    }

    /// Adds the first keys of a long list that are below those of a short one.
    fn add_runs<'a>(
        &mut self,
        left: &'a [NameCol],
        right: &'a [NameCol],
    ) -> Result<Rests<'a>, AllocError>
        requires left { AreRising (keys left.now) }
        requires right { AreRising (keys right.now) }
        ensures { IfOk result (λ r. GoesOn self.old self.new left.now right.now r.left.now r.right.now) }
    {
        let (lefts, left) = left.split_at(before(left, right));
        self.add_lefts(lefts)?;
        let (rights, right) = right.split_at(before(right, left));
        self.add_rights(rights)?;
        Ok(Rests { left, right })
    }

    fn add_left(&mut self, key: &NameCol) -> Result<(), AllocError>
        ensures { OnOk result (GrowsBy self.old self.new key.now (length self.old.names.items ∷ []) []) }
    {
        let place = self.names.len();
        self.names.push(key.share(key.declared)?)?;
        self.left.push(place)?;
        Ok(())
    }

    fn add_right(&mut self, key: &NameCol) -> Result<(), AllocError>
        ensures { OnOk result (GrowsBy self.old self.new key.now [] (length self.old.names.items ∷ [])) }
    {
        let place = self.names.len();
        self.names.push(key.share(key.declared)?)?;
        self.right.push(place)?;
        Ok(())
    }

    fn add_both(&mut self, one: &NameCol, two: &NameCol) -> Result<(), AllocError>
        ensures { OnOk result (GrowsBy self.old self.new (both one.now two.now) (length self.old.names.items ∷ [])
            (length self.old.names.items ∷ [])) }
    {
        let place = self.names.len();
        self.names
            .push(one.share(is_either(one.declared, two.declared))?)?;
        self.left.push(place)?;
        self.right.push(place)?;
        Ok(())
    }
}

/// Says whether one of the two holds. It has no branch, so that what follows a call is proved once.
pub(crate) fn is_either(one: bool, two: bool) -> bool
    ensures { result ≡ (one || two) }
{
    one || two
}

fn are_declared(one: &NameCol, two: &NameCol) -> bool
    ensures { result ≡ (one.now.declared && two.now.declared) }
{
    one.declared && two.declared
}

/// Returns the keys of two lists in order, each once. It copies each key once. Of a list that is at least eight times
/// as long as the other it looks at as many keys as it takes to find the place of each key of the other by binary
/// search.
pub(crate) fn merged(
    alloc: Global,
    left: &[NameCol],
    right: &[NameCol],
) -> Result<Merging, AllocError>
    requires left { AreRising (keys left.now) }
    requires right { AreRising (keys right.now) }
    ensures names { IfOk result (λ m. m.names.items ≡ merge left.now right.now) }
    ensures clashes { IfOk result (λ m. m.clashes ≡ clashes left.now right.now) }
    ensures left { IfOk result (λ m. ArePlaces m.names.items m.left.items (keys left.now)) }
    ensures right { IfOk result (λ m. ArePlaces m.names.items m.right.items (keys right.now)) }
{
    let mut all = Merging {
        names: Vec::with_capacity(alloc, left.len() + right.len())?,
        left: Vec::with_capacity(alloc, left.len())?,
        right: Vec::with_capacity(alloc, right.len())?,
        clashes: false,
    };
    let mut a = left;
    let mut b = right;
    loop {
        let rests = all.add_runs(a, b)?;
        a = rests.left;
        b = rests.right;
        match next(a, b) {
            First::Left(one, lefts) => {
                all.add_left(one)?;
                a = lefts;
            }
            First::Right(two, rights) => {
                all.add_right(two)?;
                b = rights;
            }
            First::Both(one, lefts, two, rights) => {
                all.add_both(one, two)?;
                all.clashes = is_either(all.clashes, are_declared(one, two));
                a = lefts;
                b = rights;
            }
            First::End => {
                all.names.shrink_to_fit();
                return Ok(all);
            }
        }
    }
}
