//! What does not depend on the choice of new names.
ghost use Rattle.psg_grammar.specs.Sound.{IsSound};
ghost use Rattle.psg_renaming.specs.NewNames.{OpenForNewNames, WideForNewNames};

use psg_grammar::Definition;
use psg_relation::column_laws::fewer_columns;

/// States that a fragment with an operator put into it is open, or has a relation that is too large, for all new names
/// and literals of the operator or for none.
pub fn new_names(definition: &Definition)
    requires sound { IsSound definition.now }
    ensures open { OpenForNewNames definition.now }
    ensures wide { WideForNewNames definition.now }
{
    fewer_columns(&definition.signature);
}
