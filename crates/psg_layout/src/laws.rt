//! Laws of arranged trees, as contracts of calls that do nothing.
ghost use Rattle.std.specs.Prelude.{ℕ};
ghost use Rattle.std.specs.List.{AllByRecursion};
ghost use Rattle.psg_lexis.specs.Tokens.{IsFixedWord};
ghost use Rattle.psg_grammar.specs.Sound.{IsSound};
ghost use Rattle.psg_grammar.specs.WellFormed.{fixed_words};
ghost use Rattle.psg_grammar.specs.Fragments.{Fragment};
ghost use Rattle.psg_class.specs.Class.{IsClass};
ghost use Rattle.psg_layout.specs.Laws.{ArrangesSpaced, IsPlainWithoutBreaks, ReadsBackArranged, SpansAreOwn};

use crate::layout::Layout;
use psg_grammar::Definition;

/// States that the tokens of an arranged tree are those of its row, in order, and that its gaps keep them apart. The
/// call has no cost.
pub fn arranges_spaced(_definition: &Definition, _layout: &Layout)
    ensures { ArrangesSpaced _definition.now _layout.now }
{}

/// States that the span of each node of an arranged tree has the tokens of the node: they are among those of the whole
/// text, in order, and the bytes from the span's start to its end are theirs. The call has no cost.
pub fn spans_are_own(_definition: &Definition, _layout: &Layout)
    ensures { SpansAreOwn _definition.now _layout.now }
{}

/// States that the arranged text of a printable tree reads back as the tree, and has the tokens of its plain text. The
/// definition is of the class, and each of its fixed words is one token. The call has no cost.
pub fn arranged_reads_back(_definition: &Definition, _layout: &Layout)
    requires sound { IsSound _definition.now }
    requires words { AllByRecursion IsFixedWord (fixed_words _definition.now) }
    requires class { IsClass _definition.now }
    ensures { (cols : ℕ) (f : Fragment) → ReadsBackArranged _definition.now _layout.now cols f }
{}

/// States that without breaks the arranged text and the spans are those of the plain text, whatever the groups are. The
/// call has no cost.
pub fn no_breaks(_definition: &Definition, _layout: &Layout)
    ensures { IsPlainWithoutBreaks _definition.now _layout.now }
{}
