//! What the search takes from its room.
ghost use Rattle.std.specs.Prelude.{◌≡◌, ◌+◌, ◌-◌, ◌^◌, min, OnOk};
ghost use Rattle.psg_covering.specs.Work.{choice_work, kept_work, look_work, row_work, test_work};

use psg_relation::RelRow;
use psg_terms::{Room, Term};
use std::alloc::AllocError;

/// How much work the search of one definition may take.
const MOST_WORK: u64 = 0x4000_0000;

/// What a join takes beside the symbols that it reads and makes.
const ONE_JOIN: u64 = 128;

/// What a join takes for each symbol that it reads or makes, and a test whether a term is an instance for each symbol.
const READ: u64 = 8;

/// What a row that is kept takes for each of its symbols.
const KEPT: u64 = 256;

/// What to look up a term takes.
const LOOK: u64 = 16;

/// Returns the room of a definition of which nothing is searched: 2^30 steps.
///
/// To look a term up takes 16 for each constructor with which it begins and 16 more, and one for each hole row that is
/// found. To look for a place where a term differs from that of a hole row takes one for each symbol of the latter. A
/// test whether a term is an instance takes 8, and 8 for each symbol of the hole row's term. A join takes 128, and 8
/// for each symbol of both rows and of the row that it makes. A row that is kept takes 256 for each of its symbols, so
/// that at most 2^22 symbols are kept.
pub fn search_room() -> Room
    ensures { result.left ≡ 2 ^ 30 }
{
    Room::of(MOST_WORK)
}

/// Takes what it takes to look up a term under one key, where that many hole rows are.
pub(crate) fn spend_look(room: &mut Room, found: usize) -> Result<(), AllocError>
    ensures { OnOk result (room.old.left ≡ room.new.left + look_work found) }
{
    room.spend(LOOK)?;
    room.spend(found as u64)?;
    Ok(())
}

/// Returns the work of choosing a hole row for a column of the row, or `u64::MAX` if it is more.
pub(crate) fn choice_work(row: &RelRow, hole: &Term) -> u64
    ensures { result ≡ min (choice_work row.now hole.now) (2 ^ 64 - 1) }
{
    let symbols = row.symbols().saturating_add(hole.symbols());
    symbols.saturating_mul(READ).saturating_add(ONE_JOIN)
}

/// Returns the work of making a row and looking at its head, or `u64::MAX` if it is more.
pub(crate) fn row_work(row: &RelRow) -> u64
    ensures { result ≡ min (row_work row.now) (2 ^ 64 - 1) }
{
    row.symbols().saturating_mul(READ)
}

/// Returns the work of keeping a row, or `u64::MAX` if it is more.
pub(crate) fn kept_work(row: &RelRow) -> u64
    ensures { result ≡ min (kept_work row.now) (2 ^ 64 - 1) }
{
    row.symbols().saturating_mul(KEPT)
}

/// Returns the work of testing whether a term is an instance of this one, or `u64::MAX` if it is more.
pub(crate) fn test_work(general: &Term) -> u64
    ensures { result ≡ min (test_work general.now) (2 ^ 64 - 1) }
{
    general.symbols().saturating_add(1).saturating_mul(READ)
}
