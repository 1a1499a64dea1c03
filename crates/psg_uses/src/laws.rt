//! Laws of the names that nothing declares.
ghost use Rattle.psg_uses.specs.Outward.{WarnsOfFree};

use psg_grammar::Definition;

/// States that the names that nothing declares have the keys of the tree that are not declared in it.
pub fn warns_of_free(definition: &Definition)
    ensures { WarnsOfFree definition.now }
{
    let _same = definition;
}
