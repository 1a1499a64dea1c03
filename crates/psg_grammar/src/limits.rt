//! How large fragments may be. They keep the work of one command, and the depth of calls, within what a small machine
//! has.

/// The most nodes of a fragment.
pub const MOST_NODES: u64 = 20_000;

/// The greatest depth of a fragment; a leaf has depth 1.
pub const MOST_DEPTH: u64 = 200;

/// The most elements of a list.
pub const MOST_ELEMENTS: u64 = 4_096;

/// The greatest sum of the weights of the relations of all nodes and list suffixes of a fragment.
pub const MOST_WEIGHTS: u64 = 4_000_000;

/// How many brackets may be inside each other in a text.
pub const MOST_BRACKETS: u32 = 400;
