//! The laws of kept fragments, as contracts of calls that do nothing.
ghost use Rattle.std.specs.Prelude.{ℕ, List};
ghost use Rattle.std.specs.List.{AllByRecursion};
ghost use Rattle.psg_lexis.specs.Tokens.{IsFixedWord};
ghost use Rattle.psg_grammar.specs.Sound.{IsSound};
ghost use Rattle.psg_grammar.specs.WellFormed.{fixed_words};
ghost use Rattle.psg_class.specs.Class.{IsClass};
ghost use Rattle.psg_library.specs.declared.fragment.SavedFragment.{SavedFragment};
ghost use Rattle.psg_library.specs.Keeping.{HasOneReading, IsKeptIfPrintable};

use psg_grammar::Definition;

/// States that bytes keep at most one fragment of a language of the class, or have one first fault. The call has no
/// cost.
pub fn one_reading(_definition: &Definition)
    requires sound { IsSound _definition.now }
    requires class { IsClass _definition.now }
    ensures { (bytes : List ℕ) → HasOneReading _definition.now bytes }
{}

/// States that what is written of a fragment keeps it, where its name is one and its tree is well formed, printable and
/// at most 200 deep. So what `fragment_bytes` wrote of it `read_fragment` reads as the same name, kind and tree. The
/// definition is of the class, and each of its fixed words is one token. The call has no cost.
pub fn written_is_kept(_definition: &Definition)
    requires sound { IsSound _definition.now }
    requires words { AllByRecursion IsFixedWord (fixed_words _definition.now) }
    requires class { IsClass _definition.now }
    ensures { (saved : SavedFragment) → IsKeptIfPrintable _definition.now saved }
{}
