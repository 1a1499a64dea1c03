//! Claims on the steps of a tree, with verdicts on the rows of which each step is made.
use psg_terms::{Seq, Term, Txt};
use psg_tree::Path;

/// How an equation is derived. All numbers count from 0; the equation of a rule has the rule's place as its number.
#[derive(Clone, Copy, Debug, PartialEq, Eq)]
pub enum Rule {
    /// The given equation of this number.
    Given(u32),
    /// `Part(e, k)`: the arguments number k of both sides of the equation e, whose sides have one constructor.
    Part(u32, u32),
    /// An equation turned around.
    Flip(u32),
    /// The first equation, in which the variable on the left of the second one is replaced by its right side.
    Replace(u32, u32),
}

/// A verdict on a row, or on a pair of rows, of which a step is made.
#[derive(Drop)]
pub enum Verdict {
    /// All of them are instances of the claimed row of the number: the columns of the step, rewritten by the derived
    /// equations of these numbers one after the other, are that row with these values for its variables from 1 on.
    Covered {
        to: u32,
        rules: Seq<Rule>,
        bindings: Seq<u32>,
        values: Seq<Term>,
    },
    /// There are none: the derived equation of the number has different constructors.
    Clash {
        rules: Seq<Rule>,
        number: u32,
    },
    /// There are none: in the derived equation of the number a variable is properly inside the other side.
    Circle {
        rules: Seq<Rule>,
        number: u32,
    },
}

/// The rows of a step, and why it has no others.
#[derive(Drop)]
pub struct Claim {
    /// The path of the node, from the root of the tree.
    pub path: Path,
    /// Of a list the number of the cell; the end has as many as the list has elements.
    pub cell: Option<u32>,
    /// The number of the step.
    pub step: u32,
    /// The rows.
    pub rows: Seq<Seq<Term>>,
    /// A verdict on each row or pair of rows of which the step is made, in order.
    pub verdicts: Seq<Verdict>,
}

/// Why a tree has no completion.
#[derive(Drop)]
pub enum Refutation {
    /// The region of the node declares the name twice; or, if it is a scope operator, its inside region.
    Twice { path: Path, space: u32, name: Txt },
    /// The steps in the subtree of the node, up to one without rows.
    Empty { path: Path, claims: Seq<Claim> },
}

/// The equation that cannot be solved.
#[derive(Drop)]
pub enum Reason {
    /// Its sides have different constructors.
    Clash(Term, Term),
    /// Its left side is a variable that is properly inside its right side.
    Circle(Term, Term),
}

/// What the rows of a step are made of.
#[derive(Clone, Copy, Debug, PartialEq, Eq)]
pub enum Label {
    /// A row of the node's own or of the step before, by its number.
    Row(usize),
    /// A row of the step before and a row of the added child, by their numbers.
    Pair(usize, usize),
}

/// What the two sides of a given equation are.
#[derive(Drop)]
pub enum Subject {
    /// The value that is wanted of the child, and the child's value.
    Value,
    /// The entities of the name in the space.
    Key { space: u32, name: Txt },
}

/// Why a row or a pair of rows makes no row of a step. The given equations before one have a common solution, and with
/// it they have none.
#[derive(Drop)]
pub struct CaseReason {
    /// The row or the pair.
    pub label: Label,
    /// The number of the given equation, from 0.
    pub number: usize,
    /// What its sides are.
    pub subject: Subject,
    /// Its left side.
    pub left: Term,
    /// Its right side.
    pub right: Term,
    /// The equation that cannot be solved, as it is then.
    pub reason: Reason,
}
