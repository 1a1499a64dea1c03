//! The variables of a line.
ghost use Rattle.std.specs.Prelude.{IfOk, OnOk};
ghost use Rattle.std.specs.List.{AllByRecursion};
ghost use Rattle.psg_defnumber.specs.Naming.{IsMet};
ghost use Rattle.psg_defnumber.specs.Sorts.{HasOneSort, MeetsOne};

use indexmap::IndexMap;
use psg_terms::SortId;
use psg_terms::canonical::number_of;
use std::alloc::AllocError;

/// The names of a line's variables in the order of their first places, with the sorts of these.
pub type LineVariables<'a> = IndexMap<&'a str, SortId>;

/// Returns the number of the variable of the name, which is at a place of the sort.
pub fn variable<'a>(
    known: &mut LineVariables<'a>,
    name: &'a str,
    sort: SortId,
) -> Result<u32, AllocError>
    requires { AllByRecursion (HasOneSort name.now sort.0) known.old.entries }
    ensures met { IfOk result (IsMet known.old.entries known.new.entries name.now sort.0) }
    ensures one { OnOk result (MeetsOne known.old.entries known.new.entries name.now sort.0) }
{
    match known.get_full(name) {
        Some((place, _own, _sort)) => Ok(number_of(0, place)?),
        None => {
            let place = known.len();
            known.insert(name, sort)?;
            Ok(number_of(0, place)?)
        }
    }
}
