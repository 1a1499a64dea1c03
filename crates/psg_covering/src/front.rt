//! Rows for which there is still something to choose.
ghost use Rattle.std.specs.Prelude.{◌≡◌, ◌⊎◌, ◌++◌, ◌∷◌, [], IsTrue, OnOk};
ghost use Rattle.psg_terms.specs.Signature.{AreTerms};
ghost use Rattle.psg_terms.specs.Relations.{IsIn};

use psg_relation::RelRow;
use psg_terms::matching::same_all;
use psg_terms::{Signature, row_text};
use std::alloc::{AllocError, Global};
use std::collections::HashMap;

/// How many symbols a row has at most whose text is written.
const MOST_WRITTEN: u64 = 16_384;

/// Rows, and for each that is not too large the place where it is, by its text.
#[derive(Drop)]
pub(crate) struct Front {
    pub(crate) rows: Vec<RelRow>,
    places: HashMap<String, usize>,
}

impl Front {
    /// Answers a front without rows.
    pub(crate) fn new(alloc: Global) -> Front
        ensures { result.rows.items ≡ [] }
    {
        Front {
            rows: Vec::new(alloc),
            places: HashMap::new(alloc),
        }
    }

    /// Puts a row at the end, unless it is there already. A row of more than 16,384 symbols is put in always.
    pub(crate) fn put(
        &mut self,
        alloc: Global,
        sig: &Signature,
        row: RelRow,
    ) -> Result<(), AllocError>
        requires { AreTerms sig.now row }
        ensures { OnOk result ((self.new.rows.items ≡ self.old.rows.items ++ row ∷ [])
            ⊎ ((self.new.rows.items ≡ self.old.rows.items) × IsIn row self.old.rows.items)) }
    {
        if row.symbols() > MOST_WRITTEN {
            self.rows.push(row)?;
            return Ok(());
        }
        let text = row_text(alloc, sig, row.terms())?;
        if is_there(self.rows.as_slice(), self.places.get(text.as_str()), &row) {
            return Ok(());
        }
        self.places.insert(text, self.rows.len())?;
        self.rows.push(row)?;
        Ok(())
    }
}

/// Tests whether the row is at the place.
fn is_there(rows: &[RelRow], place: Option<&usize>, row: &RelRow) -> bool
    ensures { IsTrue result → IsIn row.now rows.now }
{
    let Some(place) = place else {
        return false;
    };
    match rows.get(*place) {
        Some(other) => same_all(other.terms(), row.terms()),
        None => false,
    }
}
