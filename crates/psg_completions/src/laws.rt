//! What follows for trees from true rows.
ghost use Rattle.psg_grammar.specs.Sound.{IsSound};
ghost use Rattle.psg_completions.specs.Conditions.{HasTrueRows};
ghost use Rattle.psg_completions.specs.CoveredRows.{CellsByRows, OperatorsByRows};
ghost use Rattle.psg_completions.specs.SpecimenRows.{CaseByRows, DeclareByRows};
ghost use Rattle.psg_completions.specs.Completions.{
  MarkedByCompletions,
  OpenOrCompletable,
  RelatedOrCompletable,
  RowOrTree,
  SeenOrPossible,
  ShownByRows,
  ShownOrPossible,
};

use psg_grammar::Definition;

/// Shows that a term is a value of a hole row of a kind exactly where some complete legal tree of the kind has it.
pub fn values_of_kinds(definition: &Definition)
    requires sound { IsSound definition.now }
    requires rows { HasTrueRows definition.now }
    ensures { RowOrTree definition.now }
{}

/// Shows that a fragment is open, and its relation has a row, exactly where it has a legal completion, with its
/// unfinished lists and its free names. So its mark and its culprits are those that completions give.
pub fn open_fragments(definition: &Definition)
    requires sound { IsSound definition.now }
    requires rows { HasTrueRows definition.now }
    ensures open_trees { OpenOrCompletable definition.now }
    ensures relations { RelatedOrCompletable definition.now }
    ensures marks { MarkedByCompletions definition.now }
{}

/// Shows that the values that are seen at observed nodes, or at one node of a fragment, are exactly those that it has
/// in legal completions.
pub fn seen_values(definition: &Definition)
    requires sound { IsSound definition.now }
    requires rows { HasTrueRows definition.now }
    ensures observed { SeenOrPossible definition.now }
    ensures shown { ShownOrPossible definition.now }
    ensures relations { ShownByRows definition.now }
{}

/// Shows that a specimen shows all values of its case, or of its declare row, exactly where the row of their terms is
/// an instance of a row of the specimen's relation, which has a column for each hole place.
pub fn general_specimens(definition: &Definition)
    requires { IsSound definition.now }
    ensures cases { CaseByRows definition.now }
    ensures declares { DeclareByRows definition.now }
{}

/// Shows that the most general rows of the values of an operator's row, or of a cell row, over hole rows of the
/// children are instances of hole rows exactly where each choice of hole rows that has a value has all its values in
/// one hole row.
pub fn covered_values(definition: &Definition)
    requires { IsSound definition.now }
    ensures operators { OperatorsByRows definition.now }
    ensures cells { CellsByRows definition.now }
{}
