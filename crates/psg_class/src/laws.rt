//! Laws of what trees yield, as contracts of calls that do nothing.
ghost use Rattle.psg_class.specs.Class.{IsClass};
ghost use Rattle.psg_class.specs.Only.{HasOnlyTrees, YieldsAreTrees};
ghost use Rattle.psg_class.specs.Places.{HasSameLevels};

use psg_grammar::{Definition, Operator};

/// States that whatever yields tokens of a program is a well-formed tree of its kind, also in a definition that is not
/// of the class. The call has no cost.
pub fn yielded_is_well_formed(_definition: &Definition)
    ensures { YieldsAreTrees _definition.now }
{}

/// States that a definition of the class has at most one tree for a kind, a level and a list of tokens, with one
/// nesting of brackets. The call has no cost.
pub fn one_tree(_definition: &Definition)
    requires { IsClass _definition.now }
    ensures { HasOnlyTrees _definition.now }
{}

/// States that printing and reading ask the same level of a tree in a slot: the least level of the slot by its place
/// among all items is that by the items on both sides of it without the marks for the layout. The call has no cost.
pub fn same_levels(_operator: &Operator)
    ensures { HasSameLevels _operator.now }
{}
