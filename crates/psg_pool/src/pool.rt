//! The pool and its calls.
ghost use Rattle.std.specs.Prelude.{◌≡◌, ◌<◌, [], ◌∷◌, ◌++◌, length, take, slice_get, Some, All, IfOk, OnOk, OnErr};
ghost use Rattle.psg_pool.specs.Cells.{free, constructor, IsAmong, arguments_of};
ghost use Rattle.psg_pool.specs.Bindings.{IsFree, Holds, Leads, IsSound};
ghost use Rattle.psg_pool.specs.Marks.{IsReleasable};
ghost use Rattle.psg_pool.specs.Layout.{end_of as argument_end};

use crate::cells::{Binding, Cell, CellId};
use crate::mark::Mark;
use std::alloc::{AllocError, Global};
use std::marker::Model;

/// What a slot holds.
#[derive(Clone, Copy)]
enum Content {
    /// A free cell. It is bound where the binding at `place` binds it, and else `place` says nothing.
    Free { sort: u32, place: usize },
    /// A constructor over `count` arguments.
    Con { con: u32, count: usize },
}

impl Content {
    ghost use Rattle.psg_pool.specs.Layout.{bound_at};

    /// Returns the content of a free cell that the binding at `place` binds; a constructor stays as it is.
    fn bound_at(self, place: usize) -> Content
        ensures { result ≡ bound_at self place }
    {
        match self {
            Content::Free { sort, .. } => Content::Free { sort, place },
            Content::Con { con, count } => Content::Con { con, count },
        }
    }
}

/// A cell in the pool: its arguments begin at `start` in the buffer of all arguments, as those of the next cell would
/// where it has none.
#[derive(Clone, Copy)]
struct Slot {
    start: usize,
    content: Content,
}

/// Returns where the arguments of the first `cells` slots end in the buffer, which has `length` arguments.
fn end_of(slots: &[Slot], cells: usize, length: usize) -> usize
    ensures { result ≡ argument_end slots.now cells length }
{
    slots.get(cells).map_or(length, |slot| slot.start)
}

/// A pool of cells and bindings, taken in order and released from a mark on.
///
/// A contract sees it as two lists: `cells` as they were put, and `bindings` in the order in which they were made.
#[derive(Drop)]
pub struct Pool {
    slots: Vec<Slot>,
    arguments: Vec<CellId>,
    bindings: Vec<Binding>,
}

impl Model for Pool {
    ghost use Rattle.psg_pool.specs.Bindings.{Kept};

    ghost Value = { Kept };

    ghost use Rattle.psg_pool.specs.Inside.{kept_of, IsKept};

    ghost view = { kept_of };

    ghost invariant = { IsKept };
}

impl Pool {
    /// Makes an empty pool. It keeps the allocator for the calls that grow it, and takes no memory itself.
    pub fn new(alloc: Global) -> Pool
        ensures cells { result.cells ≡ [] }
        ensures bindings { result.bindings ≡ [] }
        ensures sound { IsSound result }
    {
        Pool {
            slots: Vec::new(alloc),
            arguments: Vec::new(alloc),
            bindings: Vec::new(alloc),
        }
    }

    /// Puts a free cell of the sort at the end and gives its number. `AllocError` is returned only where memory runs
    /// out.
    pub fn put_free(&mut self, sort: u32) -> Result<CellId, AllocError>
        ensures ok { OnOk result (self.new.cells ≡ self.old.cells ++ free sort ∷ []) }
        ensures id { IfOk result (λ id. id.0 ≡ length self.old.cells) }
        ensures keeps { self.new.bindings ≡ self.old.bindings }
        ensures err { OnErr result (self.new ≡ self.old) }
        ensures sound { IsSound self.new }
    {
        let id = CellId(self.slots.len());
        self.slots.push(Slot {
            start: self.arguments.len(),
            content: Content::Free { sort, place: 0 },
        })?;
        Ok(id)
    }

    /// Puts a constructor cell over the arguments at the end and gives its number. `AllocError` is returned only
    /// where memory runs out. The time is that of copying the arguments.
    pub fn put_con(&mut self, con: u32, args: &[CellId]) -> Result<CellId, AllocError>
        requires { All (IsAmong self.old.cells) args.now }
        ensures ok { OnOk result (self.new.cells ≡ self.old.cells ++ constructor con args.now ∷ []) }
        ensures id { IfOk result (λ id. id.0 ≡ length self.old.cells) }
        ensures keeps { self.new.bindings ≡ self.old.bindings }
        ensures err { OnErr result (self.new ≡ self.old) }
        ensures sound { IsSound self.new }
    {
        let id = CellId(self.slots.len());
        let start = self.arguments.len();
        self.slots.reserve(1)?;
        self.arguments.extend_from_slice(args)?;
        self.slots.push_reserved(Slot {
            start,
            content: Content::Con {
                con,
                count: args.len(),
            },
        });
        Ok(id)
    }

    /// Returns the number of cells. The time is constant.
    pub fn count(&self) -> usize
        ensures { result ≡ length self.now.cells }
    {
        self.slots.len()
    }

    /// Returns what the cell holds. The time is constant.
    pub fn cell(&self, id: CellId) -> Cell
        requires { IsAmong self.now.cells id }
        ensures holds { Holds self.now id result }
        ensures sound { IsSound self.now }
    {
        match self.slots[id.0].content {
            Content::Free { sort, place } => match self.bindings.get(place) {
                Some(binding) if binding.bound.0 == id.0 => Cell::Bound(binding.target),
                _ => Cell::Free(sort),
            },
            Content::Con { con, count } => Cell::Con { con, count },
        }
    }

    /// Returns the argument `k`, counted from 0, of the constructor cell. The time is constant.
    pub fn arg(&self, id: CellId, k: usize) -> CellId
        requires { k < length (arguments_of self.now.cells id) }
        ensures value { slice_get (arguments_of self.now.cells id) k ≡ Some result }
        ensures sound { IsSound self.now }
    {
        let slot = self.slots[id.0];
        self.arguments[slot.start + k]
    }

    /// Binds a free cell to a cell from which bindings do not lead back to it. `AllocError` is returned only
    /// where memory runs out. The time is constant.
    pub fn bind(&mut self, free: CellId, to: CellId) -> Result<(), AllocError>
        requires is_free { IsFree self.old free }
        requires among { IsAmong self.old.cells to }
        requires apart { ¬ Leads self.old.bindings to free }
        ensures ok { OnOk result (self.new.bindings ≡ self.old.bindings ++ record { bound = free; target = to } ∷ []) }
        ensures keeps { self.new.cells ≡ self.old.cells }
        ensures err { OnErr result (self.new ≡ self.old) }
        ensures sound { IsSound self.new }
    {
        let place = self.bindings.len();
        self.bindings.push(Binding {
            bound: free,
            target: to,
        })?;
        let slot = &mut self.slots[free.0];
        slot.content = slot.content.bound_at(place);
        Ok(())
    }

    /// Returns the lengths of both lists, to which the pool can be released as long as no earlier mark is.
    pub fn mark(&self) -> Mark
        ensures cells { result.cells ≡ length self.now.cells }
        ensures bindings { result.bindings ≡ length self.now.bindings }
        ensures releasable { IsReleasable self.now result }
        ensures sound { IsSound self.now }
    {
        Mark {
            cells: self.slots.len(),
            bindings: self.bindings.len(),
        }
    }

    /// Cuts both lists to the mark's lengths. The time is at most that of going over what is cut.
    pub fn release(&mut self, mark: Mark)
        requires { IsReleasable self.old mark }
        ensures cells { self.new.cells ≡ take mark.cells self.old.cells }
        ensures bindings { self.new.bindings ≡ take mark.bindings self.old.bindings }
        ensures sound { IsSound self.new }
    {
        let end = end_of(&self.slots, mark.cells, self.arguments.len());
        self.arguments.truncate(end);
        self.slots.truncate(mark.cells);
        self.bindings.truncate(mark.bindings);
    }
}
