//! Laws of programs with comments that are printed, as contracts of calls that do nothing.
#![tactic(auto)]

ghost use Rattle.psg_class.specs.Class.{IsClass};
ghost use Rattle.psg_comments.specs.Fitting.{IsFit};
ghost use Rattle.psg_format_laws.specs.Formats.{FormatsTwice, NeverAsItIs};
ghost use Rattle.psg_grammar.specs.Sound.{IsSound};
ghost use Rattle.psg_grammar.specs.WellFormed.{fixed_words};
ghost use Rattle.psg_lexis.specs.Tokens.{IsFixedWord};
ghost use Rattle.std.specs.List.{AllByRecursion};

use psg_grammar::Definition;

/// States that a program with comments is never written as it is because a comment would be lost: the printed text
/// keeps them all. The call has no cost.
pub fn never_as_it_is(definition: &Definition, token: &str)
    requires sound { IsSound definition.now }
    requires words { AllByRecursion IsFixedWord (fixed_words definition.now) }
    requires class { IsClass definition.now }
    requires fit { IsFit (fixed_words definition.now) token.now }
    ensures { NeverAsItIs definition.now token.now }
{}

/// States that what is printed of a program with comments is this program, without its own comments, and that it is
/// printed again as it is. So to format twice is to format once. The call has no cost.
pub fn formats_twice(definition: &Definition, token: &str)
    requires sound { IsSound definition.now }
    requires words { AllByRecursion IsFixedWord (fixed_words definition.now) }
    requires class { IsClass definition.now }
    requires fit { IsFit (fixed_words definition.now) token.now }
    ensures { FormatsTwice definition.now token.now }
{}
