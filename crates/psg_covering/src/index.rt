//! The hole rows of a definition, found by how their terms begin.
ghost use Rattle.std.specs.Prelude.{◌≡◌, ◌==◌, ◌<◌, ◌∷◌, ◌++◌, [], cond, length, false, IfOk, OnOk, ℕ};
ghost use Rattle.psg_terms.specs.Terms.{applied, symbol};
ghost use Rattle.psg_terms.specs.Relations.{IsIn};
ghost use Rattle.psg_relation.specs.Heads.{head_of, places_at};
ghost use Rattle.psg_covering.specs.Fronts.{AreRowsOf};
ghost use Rattle.psg_covering.specs.Index.{AreMet, Begins, Collects, IsIndex, IsPut, Puts, key_of, kind_key, next_key};

use crate::numbers::{note_row, row_of};
use crate::room::spend_look;
use psg_grammar::{Definition, HoleRow, Kind};
use psg_terms::{Node, Room, Term};
use std::alloc::{AllocError, Global};
use std::collections::HashMap;

/// Of how many arguments at most the constructors are looked at.
const MOST: usize = 2;

/// How many keys are distinguished where one more constructor is put to them.
const KEPT: u64 = 0x100_0000_0000;

/// How many constructors are distinguished.
const WIDTH: u64 = 0x10_0000;

/// The numbers of hole rows by keys. A key is made of a kind and of constructors with which a term begins. A hole row
/// is found under the key of each number of constructors with which its term begins, and among those that end there
/// under the key of all of them.
#[derive(Drop)]
pub(crate) struct Index {
    /// By the key of that many constructors: the hole rows whose terms begin with these, and may go on.
    pub(crate) passing: HashMap<u64, Vec<usize>>,
    /// By the key of that many constructors: the hole rows whose terms begin with these and no more that are looked at.
    pub(crate) ending: HashMap<u64, Vec<usize>>,
}

impl Index {
    /// Answers the index of the hole rows of a definition. It takes a few steps for each of them.
    pub(crate) fn of(alloc: Global, definition: &Definition) -> Result<Index, AllocError>
        ensures { IfOk result (IsIndex definition.now) }
    {
        let rows = definition.hole_rows.as_slice();
        let mut index = Index::new(alloc);
        for number in 0..rows.len() {
            note(alloc, &mut index, number, &rows[number])?;
        }
        Ok(index)
    }

    /// Answers the index of no hole rows.
    fn new(alloc: Global) -> Index
        ensures passing { (k : ℕ) → places_at result.passing k ≡ [] }
        ensures ending { (k : ℕ) → places_at result.ending k ≡ [] }
    {
        Index {
            passing: HashMap::new(alloc),
            ending: HashMap::new(alloc),
        }
    }
}

/// Answers the numbers of hole rows of the kind, among them all whose terms have an instance in common with the term.
/// It takes 16 steps for each constructor with which the term begins and 16 more, and one for each hole row that it
/// finds.
pub(crate) fn rows_meeting(
    alloc: Global,
    definition: &Definition,
    index: &Index,
    room: &mut Room,
    kind: Kind,
    term: &Term,
) -> Result<Vec<usize>, AllocError>
    requires { IsIndex definition.now index.now }
    ensures rows { IfOk result (λ v. AreRowsOf definition.now kind v.items) }
    ensures met { IfOk result (λ v. AreMet definition.now kind term.now v.items) }
{
    let front = front_of(alloc, term)?;
    let front = front.as_slice();
    let mut numbers = Vec::new(alloc);
    let mut key = kind_key(kind);
    for i in 0..front.len() {
        let places = places_of(&index.ending, key);
        collect(definition, room, kind, places, &mut numbers)?;
        key = next_key(key, front[i]);
    }
    let places = places_of(&index.passing, key);
    collect(definition, room, kind, places, &mut numbers)?;
    Ok(numbers)
}

/// Puts those of the places at the end whose hole rows are of the kind.
fn collect(
    definition: &Definition,
    room: &mut Room,
    kind: Kind,
    places: &[usize],
    numbers: &mut Vec<usize>,
) -> Result<(), AllocError>
    requires { (r : ℕ) → IsIn r places.now → r < length definition.now.hole_rows }
    ensures { OnOk result (Collects definition.now kind places.now numbers.old.items numbers.new.items) }
{
    spend_look(room, places.len())?;
    let rows = definition.hole_rows.as_slice();
    for i in 0..places.len() {
        let place = places[i];
        note_row(numbers, place, row_of(rows, place), kind)?;
    }
    Ok(())
}

/// Puts the hole row into the index.
fn note(alloc: Global, index: &mut Index, number: usize, row: &HoleRow) -> Result<(), AllocError>
    ensures { OnOk result (IsPut number row.now (places_at index.old.passing) (places_at index.old.ending)
        (places_at index.new.passing) (places_at index.new.ending)) }
{
    let front = front_of(alloc, &row.term)?;
    let front = front.as_slice();
    let mut key = kind_key(row.kind);
    for i in 0..front.len() {
        put(alloc, &mut index.passing, key, number)?;
        key = next_key(key, front[i]);
    }
    put(alloc, &mut index.passing, key, number)?;
    put(alloc, &mut index.ending, key, number)?;
    Ok(())
}

/// Answers constructors with which each instance of the term begins: its own, and then those of its arguments up to the
/// first variable.
fn front_of(alloc: Global, term: &Term) -> Result<Vec<u32>, AllocError>
    ensures { IfOk result (λ v. Begins term.now v.items) }
{
    match term.node() {
        Node::Var { .. } => Ok(Vec::new(alloc)),
        Node::Con { con, args } => {
            let front = with_heads(alloc, con.0, args.as_slice())?;
            Ok(front)
        }
    }
}

fn with_heads(alloc: Global, con: u32, args: &[Term]) -> Result<Vec<u32>, AllocError>
    ensures { IfOk result (λ v. Begins (applied (symbol con) args.now) v.items) }
{
    let mut front = Vec::new(alloc);
    front.push(con)?;
    for i in 0..args.len().min(MOST) {
        let Some(head) = head_of(&args[i]) else {
            return Ok(front);
        };
        front.push(head)?;
    }
    Ok(front)
}

fn head_of(term: &Term) -> Option<u32>
    ensures { result ≡ head_of term.now }
{
    match term.node() {
        Node::Var { .. } => None,
        Node::Con { con, .. } => Some(con.0),
    }
}

fn kind_key(kind: Kind) -> u64
    ensures { result ≡ kind_key kind }
{
    match kind {
        Kind::Phylum(number) => 2 * number as u64,
        Kind::List(number) => 2 * number as u64 + 1,
    }
}

fn next_key(key: u64, con: u32) -> u64
    ensures { result ≡ next_key key con }
{
    (key % KEPT) * WIDTH + con as u64
}

/// Answers the places under a key.
fn places_of(table: &HashMap<u64, Vec<usize>>, key: u64) -> &[usize]
    ensures { result.now ≡ places_at table.now key }
{
    match table.get(&key) {
        Some(places) => places.as_slice(),
        None => &[],
    }
}

/// Takes the places under a key out of the table.
fn taken(alloc: Global, places: &mut HashMap<u64, Vec<usize>>, key: u64) -> Vec<usize>
    ensures taken { result.items ≡ places_at places.old key }
    ensures others { (k : ℕ) → (key == k) ≡ false → places_at places.new k ≡ places_at places.old k }
{
    match places.remove(&key) {
        Some(own) => own,
        None => Vec::new(alloc),
    }
}

fn add(
    alloc: Global,
    places: &mut HashMap<u64, Vec<usize>>,
    key: u64,
    place: usize,
) -> Result<(), AllocError>
    ensures { OnOk result ((k : ℕ) → places_at places.new k
        ≡ cond (key == k) (places_at places.old k ++ place ∷ []) (places_at places.old k)) }
{
    let mut own = taken(alloc, places, key);
    own.push(place)?;
    places.insert(key, own)?;
    Ok(())
}

/// Puts a place at the end of those under a key.
fn put(
    alloc: Global,
    places: &mut HashMap<u64, Vec<usize>>,
    key: u64,
    place: usize,
) -> Result<(), AllocError>
    ensures { OnOk result (Puts key place (places_at places.old) (places_at places.new)) }
{
    add(alloc, places, key, place)?;
    Ok(())
}
