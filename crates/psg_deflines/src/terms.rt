//! Terms as they are written in a line.
use psg_terms::{Seq, Txt};
use std::marker::Model;

/// A term as it is written.
#[cycle(line_term)]
#[derive(Drop)]
pub enum TermShape {
    /// A variable, without its mark.
    Variable(Txt),
    /// A constructor with its arguments.
    Named { name: Txt, args: Seq<LineTerm> },
}

/// A term of a line.
#[cycle(line_term)]
#[derive(Drop)]
pub struct LineTerm {
    /// What the term is.
    pub shape: TermShape,
}

impl Model for LineTerm {
    ghost use Rattle.psg_deflines.specs.WrittenTerms.{WrittenTerm};
    ghost use Rattle.psg_deflines.specs.TermCode.{coded_term};

    ghost Value = { WrittenTerm };

    ghost coded = { coded_term };

    ghost use Rattle.psg_deflines.specs.Shapes.{term_of, term_height, deep_le-height};
    ghost use Rattle.std.proofs.Common.{arith};

    ghost view = { λ t. term_of t.shape };

    ghost size = { term_height };

    ghost size_decreases = { λ a h. Prim.grind (arith, deep_le-height) };
}
