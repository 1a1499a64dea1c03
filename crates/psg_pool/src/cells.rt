//! The numbers of cells, and what a cell holds.

/// The number of a cell. The cells of a pool count from 0 in the order in which they were put.
#[derive(Clone, Copy, Debug, PartialEq, Eq)]
pub struct CellId(pub usize);

/// What a cell holds.
#[derive(Clone, Copy, Debug, PartialEq, Eq)]
pub enum Cell {
    /// It was put free, of the sort with this number, and is not bound.
    Free(u32),
    /// It was put free and is bound to this cell.
    Bound(CellId),
    /// It is the constructor with the number `con` over `count` arguments.
    Con { con: u32, count: usize },
}

/// A binding: a cell that was put free, and the cell that it is bound to.
#[derive(Clone, Copy)]
pub struct Binding {
    /// The cell that is bound. It was put free.
    pub bound: CellId,
    /// The cell that it is bound to.
    pub target: CellId,
}
