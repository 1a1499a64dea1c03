//! What is never missing.
ghost use Rattle.psg_grammar.specs.Sound.{IsSound};
ghost use Rattle.psg_grammar.specs.WellFormed.{fixed_words};
ghost use Rattle.psg_session.specs.Told.{HasAskedRelations, HasRelations, HasShownRelations, HasStepRelations};
ghost use Rattle.psg_session.specs.Told.{HasTokensOrFault, HasTreeWeights};

use psg_grammar::Definition;

/// States that each well-formed tree has a relation, and one of the values of each of its nodes. It does nothing at run
/// time.
pub fn some_rows(definition: &Definition)
    requires { IsSound definition.now }
    ensures own { HasRelations definition.now }
    ensures shown { HasShownRelations definition.now }
{}

/// States that each step of each node of a well-formed tree has a relation, whatever its size, and so has each step
/// that is made where the relation of one of its nodes is asked for. It does nothing at run time.
pub fn some_step_rows(definition: &Definition)
    requires { IsSound definition.now }
    ensures own { HasStepRelations definition.now }
    ensures asked { HasAskedRelations definition.now }
{}

/// States that the relations of all nodes of a well-formed tree have a weight together, however large it is. It does
/// nothing at run time.
pub fn some_weights(definition: &Definition)
    requires { IsSound definition.now }
    ensures { HasTreeWeights definition.now }
{}

/// States that each text has tokens or a first fault, by the fixed words of the definition. It does nothing at run
/// time.
pub fn some_tokens(definition: &Definition)
    ensures { HasTokensOrFault (fixed_words definition.now) }
{}
