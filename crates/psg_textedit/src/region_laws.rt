//! The laws of regions, as contracts of calls that do nothing.
ghost use Rattle.std.specs.List.{AllByRecursion};
ghost use Rattle.psg_lexis.specs.Tokens.{IsFixedWord};
ghost use Rattle.psg_grammar.specs.Sound.{IsSound};
ghost use Rattle.psg_grammar.specs.WellFormed.{fixed_words};
ghost use Rattle.psg_grammar.specs.Fragments.{Fragment};
ghost use Rattle.psg_class.specs.Class.{IsClass};
ghost use Rattle.psg_textedit.specs.Laws.{CleanIsTyped, DepthOfChange, IsNested, IsSurrounded, ReadingIsOne};
ghost use Rattle.psg_textedit.specs.Laws.{SomeReading};

use psg_grammar::Definition;

/// States that the tree of a clean node's new bytes, put in its place, is the tree of the whole new text. Its brackets
/// nest as deep as those around the node and in it, or less deep than the old tree is. The call has no cost.
pub fn clean_is_typed(_definition: &Definition)
    requires sound { IsSound _definition.now }
    requires words { AllByRecursion IsFixedWord (fixed_words _definition.now) }
    requires class { IsClass _definition.now }
    ensures { (f : Fragment) → CleanIsTyped _definition.now f }
{}

/// States that a change has one reading: the path that is found and the tokens that are read. The call has no cost.
pub fn one_reading(_definition: &Definition)
    ensures { (f : Fragment) → ReadingIsOne _definition.now f }
{}

/// States that a change of a well-formed tree has a reading, whatever the change is: that it has none is refuted. The
/// call has no cost.
pub fn some_reading(_definition: &Definition)
    ensures { (f : Fragment) → SomeReading _definition.now f }
{}

/// States that a tree within a limit of depth stays within it exactly where what is put at a path does. The call has no
/// cost.
pub fn depth_of_change(_definition: &Definition)
    ensures { (f : Fragment) → DepthOfChange _definition.now f }
{}

/// States that the level that is wanted at a node, and the brackets around it, are those that the way down to it gives.
/// The call has no cost.
pub fn surrounded(_definition: &Definition)
    ensures { (f : Fragment) → IsSurrounded _definition.now f }
{}

/// States that the span of a node is in the span of its parent. The call has no cost.
pub fn nested(_definition: &Definition)
    requires class { IsClass _definition.now }
    ensures { (f : Fragment) → IsNested _definition.now f }
{}
