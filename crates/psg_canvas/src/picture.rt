//! Pictures of a screen.
ghost use Rattle.std.specs.Prelude.{◌≡◌, ◌+◌, ◌<◌, ◌^◌, IfSome};
ghost use Rattle.psg_canvas.specs.Cells.{IsPicture};

use crate::slot::Slot;
use std::alloc::Global;
use std::marker::Model;

/// A picture of a screen: rows of columns, full of cells, and where the cursor is shown, if it is.
#[derive(Drop)]
pub struct Picture {
    pub(crate) rows: usize,
    pub(crate) cols: usize,
    pub(crate) slots: Vec<Slot>,
    pub(crate) cursor: Option<usize>,
}

impl Model for Picture {
    ghost use Rattle.psg_canvas.specs.Cells.{Picture as Shown, IsPicture};

    ghost Value = { Shown };

    ghost view = { λ p. record { rows = p.rows; cols = p.cols; slots = p.slots.items; cursor = p.cursor } };

    ghost invariant = { λ p.
        IsPicture (record { rows = p.rows; cols = p.cols; slots = p.slots.items; cursor = p.cursor }) };
}

impl Picture {
    /// Returns how many rows there are.
    pub fn rows(&self) -> usize
        ensures { result ≡ self.now.rows }
    {
        self.rows
    }

    /// Returns how many columns there are.
    pub fn cols(&self) -> usize
        ensures { result ≡ self.now.cols }
    {
        self.cols
    }

    /// Returns the columns, row by row.
    pub fn slots(&self) -> &[Slot]
        ensures slots { result.now ≡ self.now.slots }
        ensures picture { IsPicture self.now }
    {
        self.slots.as_slice()
    }

    /// Returns the place of the cursor among the columns, where it is shown.
    pub fn cursor(&self) -> Option<usize>
        ensures cursor { result ≡ self.now.cursor }
        ensures picture { IsPicture self.now }
        ensures small { IfSome result (λ place. place + 1 < 2 ^ 64) }
    {
        self.cursor
    }
}
