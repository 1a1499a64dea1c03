//! Terms, shared.
ghost use Rattle.std.specs.Prelude.{◌≡◌, ◌+◌, ◌-◌, ◌^◌, IfOk, min, ℕ};
ghost use Rattle.psg_terms.specs.Terms.{variable, symbol, applied};
ghost use Rattle.psg_terms.specs.Signature.{HasSort, TakesArguments};
ghost use Rattle.psg_terms.specs.Weight.{symbols_of, depth_of, above_of};

use crate::seq::Seq;
use crate::sorts::{ConId, Signature, SortId};
use std::alloc::{AllocError, Global};
use std::marker::Model;
use std::rc::Rc;

/// A variable of a sort, or a constructor with its arguments.
#[cycle(term)]
#[derive(Drop)]
pub enum Node {
    /// A variable, by its sort and its number.
    Var { sort: SortId, number: u32 },
    /// A constructor, and an argument for each of its sorts. A constant has no arguments.
    Con { con: ConId, args: Seq<Term> },
}

/// A node with how many variables and constructors its term has and how deep it is, both at most `u64::MAX`, and with
/// one above the greatest number of its variables.
#[cycle(term)]
#[derive(Drop)]
struct Weighed {
    node: Node,
    symbols: u64,
    depth: u64,
    above: u64,
}

/// A term, which may have several owners.
#[cycle(term)]
#[derive(Drop)]
pub struct Term {
    shared: Rc<Weighed>,
}

impl Model for Term {
    ghost use Rattle.psg_terms.specs.Terms.{Term as Plain};
    ghost use Rattle.psg_terms.specs.TermCode.{coded_term};

    ghost Value = { Plain };

    ghost coded = { coded_term };

    ghost use Rattle.psg_terms.specs.Shapes.{height, deep_le-height};
    ghost use Rattle.psg_terms.specs.Weighing.{weighed_term, IsWeighed};
    ghost use Rattle.std.proofs.Common.{arith};

    ghost view = { λ t. weighed_term t.shared.value };

    ghost invariant = { λ t. IsWeighed t.shared.value };

    ghost size = { height };

    ghost size_decreases = { λ a h. Prim.grind (arith, deep_le-height) };
}

impl Term {
    ghost use Rattle.psg_terms.specs.Shapes.{term_of};

    /// Makes a variable.
    pub fn var(alloc: Global, sort: SortId, number: u32) -> Result<Term, AllocError>
        ensures { IfOk result (λ t. t ≡ variable sort.0 number) }
    {
        let weighed = Weighed {
            node: Node::Var { sort, number },
            symbols: 1,
            depth: 1,
            above: number as u64 + 1,
        };
        Ok(Term {
            shared: Rc::new(alloc, weighed)?,
        })
    }

    /// Makes a constructor with arguments of its sorts.
    pub fn con(
        alloc: Global,
        sig: &Signature,
        con: ConId,
        args: Vec<Term>,
    ) -> Result<Term, AllocError>
        requires { TakesArguments sig.now con.0 args.items }
        ensures { IfOk result (λ t. t ≡ applied (symbol con.0) args.items) }
    {
        let _ = sig;
        Ok(Term::apply(alloc, con, args)?)
    }

    /// Makes a constructor with arguments of any sorts. It reads each argument once.
    pub fn apply(alloc: Global, con: ConId, args: Vec<Term>) -> Result<Term, AllocError>
        ensures { IfOk result (λ t. t ≡ applied (symbol con.0) args.items) }
    {
        let symbols = symbols_with(args.as_slice());
        let depth = depth_with(args.as_slice());
        let above = above_with(args.as_slice());
        let weighed = Weighed {
            node: Node::Con {
                con,
                args: Seq::of(args),
            },
            symbols,
            depth,
            above,
        };
        Ok(Term {
            shared: Rc::new(alloc, weighed)?,
        })
    }

    /// Returns the variable, or the constructor with its arguments.
    pub fn node(&self) -> &Node
        ensures { term_of result.now ≡ self.now }
    {
        &self.shared.as_ref().node
    }

    /// Returns how many variables and constructors the term has, or `u64::MAX` if there are more. It takes one step.
    pub fn symbols(&self) -> u64
        ensures { result ≡ min (symbols_of self.now) (2 ^ 64 - 1) }
    {
        self.shared.as_ref().symbols
    }

    /// Returns how many nodes are nested at most, or `u64::MAX` if there are more. A variable and a constant have depth
    /// 1. It takes one step.
    pub fn depth(&self) -> u64
        ensures { result ≡ min (depth_of self.now) (2 ^ 64 - 1) }
    {
        self.shared.as_ref().depth
    }

    /// Returns one more than the greatest number of a variable of the term, and 0 where the term has none. It takes one
    /// step.
    pub fn above(&self) -> u64
        ensures { result ≡ above_of self.now }
    {
        self.shared.as_ref().above
    }

    /// Returns the sort of the term, which is one of the signature.
    pub fn sort(&self, sig: &Signature) -> SortId
        requires { (s : ℕ) × HasSort sig.now self.now s }
        ensures { HasSort sig.now self.now result.0 }
    {
        match self.node() {
            Node::Var { sort, .. } => *sort,
            Node::Con { con, .. } => sig.sort_of(*con),
        }
    }

    /// Returns one more owner of the term.
    pub fn share(&self) -> Result<Term, AllocError>
        ensures { IfOk result (λ t. t ≡ self.now) }
    {
        Ok(Term {
            shared: self.shared.clone()?,
        })
    }
}

/// Returns how many variables and constructors a constructor with these arguments has.
fn symbols_with(args: &[Term]) -> u64
    ensures { result ≡ min (symbols_of (applied (symbol 0) args.now)) (2 ^ 64 - 1) }
{
    let mut symbols = 1u64;
    for arg in args {
        symbols = symbols.saturating_add(arg.symbols());
    }
    symbols
}

/// Returns how deep a constructor with these arguments is.
fn depth_with(args: &[Term]) -> u64
    ensures { result ≡ min (depth_of (applied (symbol 0) args.now)) (2 ^ 64 - 1) }
{
    let mut depth = 1u64;
    for arg in args {
        depth = depth.max(arg.depth().saturating_add(1));
    }
    depth
}

/// Returns one above the greatest number of a variable of a constructor with these arguments.
fn above_with(args: &[Term]) -> u64
    ensures { result ≡ above_of (applied (symbol 0) args.now) }
{
    let mut above = 0u64;
    for arg in args {
        above = above.max(arg.above());
    }
    above
}
