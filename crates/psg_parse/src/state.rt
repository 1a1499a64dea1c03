//! The state of the parser.
use crate::standing::{Built, Grown, Listed};
use psg_grammar::{Item, Operator};
use psg_lexis::Spanned;

/// What waits for a tree that is being read. The innermost is the last of a stack.
#[derive(Drop)]
pub(crate) enum Frame<'a> {
    /// A tree of the phylum is finished, and led operators may go on.
    Grow {
        phylum: u32,
        least: u32,
        level: Option<u32>,
    },
    /// A child of an operator, after which these items follow.
    Parts {
        operator: &'a Operator,
        built: Built,
        more: &'a [Item],
    },
    /// A bracket is open.
    Close,
    /// An element of a list, after these ones.
    List {
        list: u32,
        listed: Listed,
    },
}

/// What is done next.
#[derive(Drop)]
pub(crate) enum Mode<'a> {
    Start {
        phylum: u32,
        least: u32,
    },
    List {
        list: u32,
    },
    Grow {
        phylum: u32,
        least: u32,
        tree: Grown,
        level: Option<u32>,
    },
    Parts {
        operator: &'a Operator,
        built: Built,
        more: &'a [Item],
    },
    Give {
        tree: Grown,
    },
}

/// The parser, with the tokens that are left.
#[derive(Drop)]
pub(crate) struct State<'a> {
    pub(crate) mode: Mode<'a>,
    pub(crate) stack: Vec<Frame<'a>>,
    pub(crate) rest: &'a [Spanned],
}

/// The result of a step.
#[derive(Drop)]
pub(crate) enum Step<'a> {
    Go(State<'a>),
    Done(Grown),
    NoTree,
}
