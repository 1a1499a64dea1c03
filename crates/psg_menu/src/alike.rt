//! Numbers by which a summary is found among others.
ghost use Rattle.std.specs.Prelude.{OnOk};

use psg_eval::Summary;
use psg_grammar::Kind;
use psg_scope::Header;
use psg_terms::{Node, Term};
use std::alloc::{AllocError, Global};
use std::collections::HashMap;

/// An odd number of 64 bits, about half of which are set.
const FACTOR: u64 = 0x9e37_79b9_7f4a_7c15;

/// How many bytes of a name are read at its beginning, and how many at its end.
const READ: usize = 8;

/// How many things of one number are compared with a new one at most.
const COMPARED: usize = 16;

/// Returns the number with one more mixed in.
fn mixed(hash: u64, more: u64) -> u64 {
    (hash.rotate_left(5) ^ more).wrapping_mul(FACTOR)
}

/// Returns the first eight bytes as one number.
fn packed(bytes: &[u8]) -> u64 {
    let mut word = 0u64;
    for byte in bytes.iter().take(READ) {
        word = word.wrapping_mul(256).wrapping_add(*byte as u64);
    }
    word
}

/// Returns the number with a name mixed in: its length, its first bytes and its last ones.
fn with_name(hash: u64, name: &str) -> u64 {
    let bytes = name.as_bytes();
    let whole = mixed(hash, bytes.len() as u64);
    let first = mixed(whole, packed(bytes));
    if bytes.len() <= READ {
        return first;
    }
    mixed(first, packed(&bytes[bytes.len() - READ..]))
}

/// Returns the number with the keys of a header mixed in.
fn with_header(hash: u64, header: &Header) -> u64 {
    let mut made = mixed(hash, header.twice as u64);
    for space in header.unfinished.as_slice() {
        made = mixed(made, *space as u64);
    }
    for key in header.names.as_slice() {
        let own = (key.space as u64)
            .wrapping_mul(2)
            .wrapping_add(key.declared as u64);
        made = with_name(mixed(made, own), key.name.as_str());
    }
    made
}

/// Returns the number with the variable or the constructor of a term mixed in.
fn with_head(hash: u64, term: &Term) -> u64 {
    match term.node() {
        Node::Var { number, .. } => mixed(hash, (*number as u64).wrapping_mul(2)),
        Node::Con { con, .. } => mixed(hash, (con.0 as u64).wrapping_mul(2).wrapping_add(1)),
    }
}

/// Returns the number with a term mixed in: how many variables and constructors it has, with which one it begins, and
/// with which ones its arguments begin.
fn with_term(hash: u64, term: &Term) -> u64 {
    let mut made = with_head(mixed(hash, term.symbols()), term);
    if let Node::Con { args, .. } = term.node() {
        for arg in args.as_slice() {
            made = with_head(mixed(made, arg.symbols()), arg);
        }
    }
    made
}

/// Returns a number of the summary, which equal summaries have in common. It takes a few steps for each key, and
/// for each term of the rows and each argument of one.
pub(crate) fn number_of(summary: &Summary) -> u64 {
    let kind = match summary.kind() {
        Kind::Phylum(phylum) => (phylum as u64).wrapping_mul(2),
        Kind::List(list) => (list as u64).wrapping_mul(2).wrapping_add(1),
    };
    let mut made = with_header(mixed(kind, summary.seen() as u64), summary.header());
    for row in summary.rel().rows() {
        made = mixed(made, 1);
        for term in row.terms() {
            made = with_term(made, term);
        }
    }
    made
}

/// The places of things in a list, by their numbers. What a place holds is compared by who looks it up, so no contract
/// speaks of the numbers.
#[derive(Drop)]
pub(crate) struct Alike {
    table: HashMap<u64, Vec<usize>>,
}

impl Alike {
    /// Returns the table without places.
    pub(crate) fn new(alloc: Global) -> Alike {
        Alike {
            table: HashMap::new(alloc),
        }
    }

    /// Returns the places that were noted under the number, at most sixteen, the first ones.
    pub(crate) fn places(&self, number: u64) -> &[usize] {
        match self.table.get(&number) {
            Some(places) => places.as_slice(),
            None => &[],
        }
    }

    /// Notes the place under the number. It fails where memory runs out.
    pub(crate) fn note(
        &mut self,
        alloc: Global,
        number: u64,
        place: usize,
    ) -> Result<(), AllocError> {
        let mut places = match self.table.remove(&number) {
            Some(own) => own,
            None => Vec::new(alloc),
        };
        if places.len() < COMPARED {
            places.push(place)?;
        }
        self.table.insert(number, places)?;
        Ok(())
    }
}
