//! Laws of fragments, as contracts of calls that do nothing.
ghost use Rattle.std.specs.Prelude.{◌≡◌, ◌↔◌, ◌<◌, ◌^◌, List, ℕ, Some, map};
ghost use Rattle.psg_terms.specs.Terms.{Term as Plain};
ghost use Rattle.psg_terms.specs.Relations.{IsIn, IsMaximal};
ghost use Rattle.psg_terms.specs.Text.{row_text};
ghost use Rattle.psg_terms.specs.Weight.{weight_of};
ghost use Rattle.psg_grammar.specs.Fragments.{Fragment};
ghost use Rattle.psg_grammar.specs.Paths.{Path, node_at};
ghost use Rattle.psg_grammar.specs.Relations.{IsPossible, IsRelationOf};
ghost use Rattle.psg_grammar.specs.Sound.{IsSound};
ghost use Rattle.psg_grammar.specs.Ways.{ChangesInPlace, KeepsPaths};

use crate::types::Definition;

/// Shows that the rows of a fragment's relation are exactly its maximal shapes, and a fragment has at most one
/// relation: two have the same rows, and the same texts in the same order. They are the same list where their weight is
/// below 2^64, so that the numbers of variables are written whole.
pub fn one_relation(definition: &Definition)
    requires { IsSound definition.now }
    ensures maximal { (fragment : Fragment) (rows : List (List Plain))
        (relation : IsRelationOf definition.now fragment rows)
        (row : List Plain) → IsIn row rows
        ↔ IsMaximal definition.now.signature relation.0 (IsPossible definition.now fragment) row }
    ensures rows { (fragment : Fragment) (rows others : List (List Plain)) → IsRelationOf definition.now fragment rows
        → IsRelationOf definition.now fragment others → (row : List Plain) → IsIn row rows → IsIn row others }
    ensures texts { (fragment : Fragment) (rows others : List (List Plain)) → IsRelationOf definition.now fragment rows
        → IsRelationOf definition.now fragment others
        → map (row_text definition.now.signature) rows ≡ map (row_text definition.now.signature) others }
    ensures list { (fragment : Fragment) (rows others : List (List Plain)) → IsRelationOf definition.now fragment rows
        → IsRelationOf definition.now fragment others → weight_of rows < 2 ^ 64 → rows ≡ others }
{}

/// Shows that a replaced node changes the tree at its path alone: below the path the new node's nodes are found, above
/// it the old ones with the new node inside and with the same operators, names, literals and list ends, and beside it
/// the old ones.
pub fn changed_in_place()
    ensures { (fragment : Fragment) (path : Path) (old new : Fragment) → node_at fragment path ≡ Some old
        → ChangesInPlace fragment path new }
{}

/// Shows that each path of a well-formed fragment is a path of what fills it, and leads to what fills the node.
pub fn filled_paths(_definition: &Definition)
    ensures { KeepsPaths _definition.now }
{}
