//! The laws of printed trees, as contracts of calls that do nothing.
ghost use Rattle.std.specs.List.{AllByRecursion};
ghost use Rattle.psg_lexis.specs.Tokens.{IsFixedWord};
ghost use Rattle.psg_grammar.specs.Sound.{IsSound};
ghost use Rattle.psg_grammar.specs.WellFormed.{fixed_words};
ghost use Rattle.psg_grammar.specs.Fragments.{Fragment};
ghost use Rattle.psg_class.specs.Class.{IsClass};
ghost use Rattle.psg_unparse.specs.Back.{ReadsBackIfPrintable};
ghost use Rattle.psg_unparse.specs.Nodes.{NodesReadBackIfPrintable};
ghost use Rattle.psg_unparse.specs.Spaced.{SpacedReadsBackIfPrintable};

use psg_grammar::Definition;

/// States that the text of each printable well-formed tree of a kind reads back as that tree, of its kind, at level 0,
/// with brackets nested less deep than the tree is. The definition is of the class, and each of its fixed words is one
/// token. The call has no cost.
pub fn reads_back(_definition: &Definition)
    requires sound { IsSound _definition.now }
    requires words { AllByRecursion IsFixedWord (fixed_words _definition.now) }
    requires class { IsClass _definition.now }
    ensures { (f : Fragment) → ReadsBackIfPrintable _definition.now f }
{}

/// States of each node of such a tree that the bytes on which it is written read as the node, at the level that is
/// wanted at its place. The call has no cost.
pub fn nodes_read_back(_definition: &Definition)
    requires sound { IsSound _definition.now }
    requires words { AllByRecursion IsFixedWord (fixed_words _definition.now) }
    requires class { IsClass _definition.now }
    ensures { (f : Fragment) → NodesReadBackIfPrintable _definition.now f }
{}

/// States of each such tree that its text reads back as it however its tokens are spaced: the gaps are of spaces and
/// line feeds, and a gap is empty only where the tokens beside it do not run together. Such a text has the tokens of
/// the text that is printed of the tree. The call has no cost.
pub fn spaced_reads_back(_definition: &Definition)
    requires sound { IsSound _definition.now }
    requires words { AllByRecursion IsFixedWord (fixed_words _definition.now) }
    requires class { IsClass _definition.now }
    ensures { (f : Fragment) → SpacedReadsBackIfPrintable _definition.now f }
{}
