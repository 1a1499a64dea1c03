//! The nodes around a tree.
use crate::summary::Summary;
use psg_terms::{Seq, Txt};

/// The node just above a tree, with what is known of all that is beside it.
#[derive(Drop)]
pub enum Frame {
    /// An operator with its names in order, and a summary for each of its slots. The tree is at the slot `hot`, from 0,
    /// whatever summary is there.
    Op {
        op: u32,
        names: Seq<Txt>,
        children: Seq<Summary>,
        hot: u32,
    },
    /// A list. The tree is an element after those of `before`, and `rest` is the summary of the list after it.
    Elem {
        list: u32,
        before: Seq<Summary>,
        rest: Summary,
    },
}
