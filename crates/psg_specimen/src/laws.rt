//! What follows from the order of the conditions.
ghost use Rattle.std.specs.Prelude.{ℕ};
ghost use Rattle.psg_class.specs.Only.{HasOnlyTrees};
ghost use Rattle.psg_completions.specs.Completions.{OpenOrCompletable, RowOrTree};
ghost use Rattle.psg_completions.specs.Conditions.{HasTrueRows};
ghost use Rattle.psg_grammar.specs.Sound.{IsSound};
ghost use Rattle.psg_specimen.specs.Conditions.{IsMet, IsQuietSlot};
ghost use Rattle.psg_specimen.specs.OneRefusal.{HasNoRefusal, HasOneRefusal};
ghost use Rattle.psg_specimen.specs.Refusal.{IsAccepted};

use psg_class::laws::one_tree;
use psg_completions::laws::{open_fragments, values_of_kinds};
use psg_grammar::Definition;

/// Shows that a definition has at most one refusal.
pub fn one_refusal(definition: &Definition)
    ensures { HasOneRefusal definition.now }
{}

/// Shows that an accepted definition has no refusal.
pub fn accepted_or_refused(definition: &Definition)
    requires { IsAccepted definition.now }
    ensures { HasNoRefusal definition.now }
{}

/// Shows that the rows of an accepted definition are true of trees, and no slot of its operators is of a phylum that
/// declares.
pub fn true_rows(definition: &Definition)
    requires { IsMet definition.now }
    ensures rows { HasTrueRows definition.now }
    ensures slots { (o k : ℕ) → IsQuietSlot definition.now o k }
{}

/// States what is promised of an accepted definition. A term is a value of a hole row of a phylum or list exactly where
/// some complete legal tree of it has this value; a tree is open exactly where it has a legal completion; and a list of
/// tokens has at most one tree.
pub fn promises(definition: &Definition)
    requires sound { IsSound definition.now }
    requires accepted { IsAccepted definition.now }
    ensures values { RowOrTree definition.now }
    ensures completions { OpenOrCompletable definition.now }
    ensures trees { HasOnlyTrees definition.now }
{
    true_rows(definition);
    values_of_kinds(definition);
    open_fragments(definition);
    one_tree(definition);
}
