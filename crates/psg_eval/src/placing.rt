//! The columns of keys, where the keys of two lists are made one list.
ghost use Rattle.std.specs.Prelude.{◌≡◌, ◌+◌, ◌<◌, ◌∷◌, ◌++◌, ◌↔◌, ◌^◌, [], ℕ, List, Some, All};
ghost use Rattle.std.specs.Prelude.{IfOk, IsTrue, OnOk, length, slice_get, slice_index};
ghost use Rattle.psg_grammar.specs.Keys.{Key};
ghost use Rattle.psg_scope.specs.Headers.{ArePlaces, keys};
ghost use Rattle.psg_eval.specs.Walks.{FillPlaces, GrowsBy, IsWalk};

use psg_scope::Joined;
use std::alloc::{AllocError, Global};

/// The columns of the joined keys so far, and the pairs of columns of those that both sides have.
#[derive(Drop)]
pub(crate) struct Placed {
    pub(crate) columns: Vec<usize>,
    pub(crate) pairs: Vec<(usize, usize)>,
    /// How many keys of each side are placed.
    pub(crate) lefts: usize,
    pub(crate) rights: usize,
}

impl Placed {
    fn add_left(&mut self, left: &[usize]) -> Result<(), AllocError>
        requires { self.old.lefts < length left.now }
        ensures { OnOk result (GrowsBy self.old self.new [] (slice_index left.now self.old.lefts) 1 0) }
    {
        let column = left[self.lefts];
        self.columns.push(column)?;
        self.lefts += 1;
        Ok(())
    }

    fn add_right(&mut self, right: &[usize], offset: usize) -> Result<(), AllocError>
        requires there { self.old.rights < length right.now }
        requires room { All (λ b. offset + b < 2 ^ 64) right.now }
        ensures { OnOk result (GrowsBy self.old self.new [] (offset + slice_index right.now self.old.rights) 0 1) }
    {
        let column = right[self.rights];
        self.columns.push(offset + column)?;
        self.rights += 1;
        Ok(())
    }

    fn add_both(&mut self, left: &[usize], right: &[usize]) -> Result<(), AllocError>
        requires left { self.old.lefts < length left.now }
        requires right { self.old.rights < length right.now }
        ensures { OnOk result (GrowsBy self.old self.new
            ((slice_index left.now self.old.lefts, slice_index right.now self.old.rights) ∷ [])
            (slice_index left.now self.old.lefts) 1 1) }
    {
        let one = left[self.lefts];
        let two = right[self.rights];
        self.columns.push(one)?;
        self.pairs.push((one, two))?;
        self.lefts += 1;
        self.rights += 1;
        Ok(())
    }
}

/// Returns how many joined keys there are.
fn all_keys(joined: &Joined) -> usize {
    joined.header.names.as_slice().len()
}

/// Returns how many of the joined keys both sides have.
fn shared_keys(joined: &Joined) -> usize {
    let lefts = joined.left.as_slice().len();
    let rights = joined.right.as_slice().len();
    lefts
        .saturating_add(rights)
        .saturating_sub(all_keys(joined))
}

/// Says whether the next of the places is this one.
fn is_next(places: &[usize], number: usize, place: usize) -> bool
    ensures { IsTrue result ↔ (slice_get places.now number ≡ Some place) }
{
    number < places.len() && places[number] == place
}

/// Returns the columns of the joined keys in a left row with a right one after it, and pairs of a left and a right
/// column, one for each key that both sides have. The left row has `offset` columns, and `left` and `right` are the
/// columns of both sides' keys in their own rows. It looks at each key once. It fails where memory runs out.
pub(crate) fn key_columns(
    alloc: Global,
    joined: &Joined,
    left: &[usize],
    right: &[usize],
    offset: usize,
) -> Result<Placed, AllocError>
    requires lefts { length left.now ≡ length joined.now.left }
    requires rights { length right.now ≡ length joined.now.right }
    requires room { All (λ b. offset + b < 2 ^ 64) right.now }
    // each joined key is of a side
    requires all { FillPlaces 0 (length joined.now.header.names) joined.now.left joined.now.right }
    ensures { IfOk result (λ p. (K L : List Key) → ArePlaces joined.now.header.names joined.now.left K
        → ArePlaces joined.now.header.names joined.now.right L
        → IsWalk offset left.now right.now K L (keys joined.now.header.names) p.pairs.items p.columns.items) }
{
    let lefts = joined.left.as_slice();
    let rights = joined.right.as_slice();
    let mut made = Placed {
        columns: Vec::with_capacity(alloc, all_keys(joined))?,
        pairs: Vec::with_capacity(alloc, shared_keys(joined))?,
        lefts: 0,
        rights: 0,
    };
    for place in 0..joined.header.names.as_slice().len() {
        let on_left = is_next(lefts, made.lefts, place);
        let on_right = is_next(rights, made.rights, place);
        if on_left {
            if on_right {
                made.add_both(left, right)?;
            } else {
                made.add_left(left)?;
            }
        } else if on_right {
            made.add_right(right, offset)?;
        } else {
            unreachable!();
        }
    }
    Ok(made)
}
