//! Laws of what is read of a text that is no program, and of what is left of it.
ghost use Rattle.psg_class.specs.Class.{IsClass};
ghost use Rattle.psg_grammar.specs.Sound.{IsSound};
ghost use Rattle.psg_stop.specs.Accepted.{CanEnd};
ghost use Rattle.psg_recover.specs.Leaving.{BeginsAsFormat, LeavesTrees, ProgramsLoseNothing, ReadStandIns};
ghost use Rattle.psg_recover.specs.Leaving.{YieldStandIns};

use psg_grammar::Definition;

/// States that the placeholders of what is read at last, and of the tree that it is, may take the place of tokens. The
/// call has no cost.
pub fn stand_ins(_definition: &Definition)
    requires { IsSound _definition.now }
    ensures tokens { ReadStandIns _definition.now }
    ensures trees { YieldStandIns _definition.now }
{}

/// States that what is left of such a tree is one of the definition. The call has no cost.
pub fn leaves_trees(_definition: &Definition)
    requires { CanEnd _definition.now }
    ensures { LeavesTrees _definition.now }
{}

/// States that a text that is a program has no stops, and that nothing of it is left out. The call has no cost.
pub fn programs_lose_nothing(_definition: &Definition)
    requires can_end { CanEnd _definition.now }
    requires class { IsClass _definition.now }
    ensures { ProgramsLoseNothing _definition.now }
{}

/// States that the first stop of a text is reported as `format` reports it. The call has no cost.
pub fn begins_as_format(_definition: &Definition)
    requires can_end { CanEnd _definition.now }
    requires class { IsClass _definition.now }
    ensures { BeginsAsFormat _definition.now }
{}
