//! A law of programs and of what is reported where there is none, as the contract of a call that does nothing.
ghost use Rattle.psg_class.specs.Class.{IsClass};
ghost use Rattle.psg_program.specs.OneAnswer.{HasOneAnswer};

use psg_grammar::Definition;

/// States that bytes are one program of a kind at most, or that one thing is reported at one place why they are none,
/// and not both. The call has no cost.
pub fn one_answer(_definition: &Definition)
    requires { IsClass _definition.now }
    ensures { HasOneAnswer _definition.now }
{}
