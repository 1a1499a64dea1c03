//! What waits for a tree can always be ended, and each kind has a tree.
ghost use Rattle.psg_parse.specs.Onward.{IsEndable};
ghost use Rattle.psg_stop.specs.Accepted.{CanEnd, HasTrees};

use psg_grammar::Definition;

/// States that all that the parser of such a definition waits for can be ended: a slot by its placeholder, a list by
/// nothing, a word by its token. The call has no cost.
pub fn endable(_definition: &Definition)
    requires { CanEnd _definition.now }
    ensures { IsEndable _definition.now }
{}

/// States that each kind of such a definition has a tree, so tokens begin one of it: a list the empty one, a phylum its
/// placeholder, or where it has none some operator with placeholders. The call has no cost.
pub fn trees(_definition: &Definition)
    requires { CanEnd _definition.now }
    ensures { HasTrees _definition.now }
{}
