//! A state of a pool to which it can be released.
use std::marker::Model;

/// How many cells and bindings a pool had. A contract sees it as these two numbers.
#[derive(Clone, Copy)]
pub struct Mark {
    pub(crate) cells: usize,
    pub(crate) bindings: usize,
}

impl Model for Mark {
    ghost use Rattle.psg_pool.specs.Marks.{Lengths};

    ghost Value = { Lengths };

    ghost view = { λ m. record { cells = m.cells; bindings = m.bindings } };

    ghost inverse = { λ v. record { cells = v.cells; bindings = v.bindings } };
}
