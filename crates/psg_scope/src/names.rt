//! Lists of keys that have several owners.
ghost use Rattle.std.specs.Prelude.{◌≡◌, [], IfOk};

use crate::header::NameCol;
use std::alloc::{AllocError, Global};
use std::marker::Model;
use std::rc::Rc;

/// The keys of a header, shared by its owners. A clause sees them as a list. A list without keys takes no memory.
#[derive(Drop)]
pub struct Names {
    shared: Option<Rc<Vec<NameCol>>>,
}

impl Model for Names {
    ghost use Rattle.std.specs.Prelude.{List, []};
    ghost use Rattle.std.specs.Coded.{coded_list};
    ghost use Rattle.std.specs.Option.{option_map, unwrap_or};
    ghost use Rattle.psg_scope.specs.declared.header.NameCol.{NameCol as Col};
    ghost use Rattle.psg_scope.specs.contracts.header.NameCol as col;

    ghost Value = { List Col };

    ghost coded = { coded_list col.the_row.coded };

    ghost view = { λ s. unwrap_or (option_map (λ r. r.value.items) s.shared) [] };
}

impl Names {
    /// Returns the list without keys.
    pub fn none() -> Names
        ensures { result ≡ [] }
    {
        Names { shared: None }
    }

    /// Makes the list of these keys, to be shared. They are moved and not copied. It fails where memory runs out.
    pub fn of(alloc: Global, keys: Vec<NameCol>) -> Result<Names, AllocError>
        ensures { IfOk result (λ n. n ≡ keys.items) }
    {
        if keys.is_empty() {
            return Ok(Names::none());
        }
        Ok(Names {
            shared: Some(Rc::new(alloc, keys)?),
        })
    }

    /// Returns the keys, in order.
    pub fn as_slice(&self) -> &[NameCol]
        ensures { result.now ≡ self.now }
    {
        match &self.shared {
            Some(keys) => keys.as_ref().as_slice(),
            None => &[],
        }
    }

    /// Returns one more owner of the same list. It fails where memory runs out.
    pub fn share(&self) -> Result<Names, AllocError>
        ensures { IfOk result (λ n. n ≡ self.now) }
    {
        match &self.shared {
            Some(keys) => Ok(Names {
                shared: Some(keys.clone()?),
            }),
            None => Ok(Names::none()),
        }
    }
}
