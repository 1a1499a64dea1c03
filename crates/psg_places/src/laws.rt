//! Laws of blame.
ghost use Rattle.std.specs.Prelude.{ℕ, ◌<◌, ◌^◌, Bool, List};
ghost use Rattle.psg_cache.specs.Notes.{IsFormed};
ghost use Rattle.psg_completions.specs.Conditions.{HasTrueRows};
ghost use Rattle.psg_grammar.specs.Fragments.{Fragment};
ghost use Rattle.psg_grammar.specs.Legal.{IsCompletable};
ghost use Rattle.psg_grammar.specs.Open.{IsOpen};
ghost use Rattle.psg_grammar.specs.Sound.{IsSound};
ghost use Rattle.psg_terms.specs.Names.{Name};
ghost use Rattle.psg_places.specs.Blame.{IsFalling, IsForAllNames, IsGoodIfKept, IsNeeded, IsNoneWhereGood, IsOfPlaces};
ghost use Rattle.psg_places.specs.Blame.{IsOne};
ghost use Rattle.psg_places.specs.Blame.{IsWhole, KeepsAll, Leaves};
ghost use Rattle.psg_places.specs.ByPlaces.{AreNumbered};
ghost use Rattle.psg_places.specs.Leading.{LeadsBack, LeadsThere};
ghost use Rattle.psg_places.specs.NewNames.{AreNew, IsFront, new_name};
ghost use Rattle.psg_places.specs.Places.{AreCounted, place_count};

use psg_grammar::Definition;

/// States that no blamed place is superfluous.
pub fn needed(definition: &Definition)
    ensures open { (fresh : ℕ → Name) (f : Fragment) → IsNeeded (IsOpen definition.now) definition.now f fresh }
    ensures completable { (fresh : ℕ → Name) (f : Fragment)
        → IsNeeded (IsCompletable definition.now) definition.now f fresh }
{
    let _same = definition;
}

/// States that there is one list of answers for each choice of new names.
pub fn one_answer(definition: &Definition)
    ensures open { (fresh : ℕ → Name) (f : Fragment) → IsOne (IsOpen definition.now) definition.now f fresh }
    ensures completable { (fresh : ℕ → Name) (f : Fragment)
        → IsOne (IsCompletable definition.now) definition.now f fresh }
{
    let _same = definition;
}

/// States that the choice of new names does not matter.
pub fn any_names(definition: &Definition)
    requires sound { IsSound definition.now }
    ensures open { (f : Fragment) → IsForAllNames (IsOpen definition.now) definition.now f }
    ensures completable { HasTrueRows definition.now → (f : Fragment) → IsFormed definition.now f
        → IsForAllNames (IsCompletable definition.now) definition.now f }
{
    let _same = definition;
}

/// States that a front with which no name of the tree begins and no fixed word gives new names, if 64 bits hold the
/// number of places.
pub fn new_names(definition: &Definition)
    ensures { (f : Fragment) (front : Name) → IsFront definition.now f front → place_count definition.now f < 2 ^ 64
        → AreNew definition.now f (new_name front) }
{
    let _same = definition;
}

/// States that what is kept is good if the tree with nothing kept is, and that the whole tree is good if no place is
/// blamed.
pub fn kept_is_good(definition: &Definition)
    ensures open { (fresh : ℕ → Name) (f : Fragment) → Leaves (IsOpen definition.now) definition.now f fresh }
    ensures completable { (fresh : ℕ → Name) (f : Fragment)
        → Leaves (IsCompletable definition.now) definition.now f fresh }
    ensures whole_open { (fresh : ℕ → Name) (f : Fragment)
        → IsGoodIfKept (IsOpen definition.now) definition.now f fresh }
    ensures whole_completable { (fresh : ℕ → Name) (f : Fragment)
        → IsGoodIfKept (IsCompletable definition.now) definition.now f fresh }
{
    let _same = definition;
}

/// States that no place of a good tree is blamed, if a good tree is still good with its last places opened.
pub fn keeps_all(definition: &Definition)
    ensures open { (fresh : ℕ → Name) (f : Fragment) → KeepsAll (IsOpen definition.now) definition.now f fresh }
    ensures completable { (fresh : ℕ → Name) (f : Fragment)
        → KeepsAll (IsCompletable definition.now) definition.now f fresh }
{
    let _same = definition;
}

/// States that a good tree is still good with its places from some number on opened, in a definition with true hole
/// rows.
pub fn falls(definition: &Definition)
    requires sound { IsSound definition.now }
    ensures open { HasTrueRows definition.now → (f : Fragment) → IsFormed definition.now f → (fresh : ℕ → Name)
        → AreNew definition.now f fresh → IsFalling (IsOpen definition.now) definition.now f fresh }
    ensures completable { HasTrueRows definition.now → (f : Fragment) → IsFormed definition.now f → (fresh : ℕ → Name)
        → AreNew definition.now f fresh → IsFalling (IsCompletable definition.now) definition.now f fresh }
{
    let _same = definition;
}

/// States that no place is blamed exactly if the tree is good, in a definition with true hole rows.
pub fn none_where_good(definition: &Definition)
    requires sound { IsSound definition.now }
    ensures open { HasTrueRows definition.now → (f : Fragment) → IsFormed definition.now f → (fresh : ℕ → Name)
        → AreNew definition.now f fresh → IsNoneWhereGood (IsOpen definition.now) definition.now f fresh }
    ensures completable { HasTrueRows definition.now → (f : Fragment) → IsFormed definition.now f → (fresh : ℕ → Name)
        → AreNew definition.now f fresh → IsNoneWhereGood (IsCompletable definition.now) definition.now f fresh }
{
    let _same = definition;
}

/// States that the path there of a node leads to what becomes of it in the tree of the kept places: to a placeholder if
/// the node is opened itself, and else to the node with some places below it opened.
pub fn leads_there(definition: &Definition)
    ensures { (kept : List Bool) (fresh : ℕ → Name) (f : Fragment) → IsFormed definition.now f
        → LeadsThere definition.now kept fresh f }
{
    let _same = definition;
}

/// States that each node of the tree of the kept places is one of the whole tree: its path back leads there, and the
/// path there of that node is its own.
pub fn leads_back(definition: &Definition)
    ensures { (kept : List Bool) (fresh : ℕ → Name) (f : Fragment) → IsFormed definition.now f
        → LeadsBack definition.now kept fresh f }
{
    let _same = definition;
}

/// States which place each number is: as many places are counted as are listed, a tree by numbers is the tree by
/// places, it depends only on what is said of its places, and all places kept give the tree itself.
pub fn numbers_are_places(definition: &Definition)
    ensures counted { AreCounted definition.now }
    ensures numbered { AreNumbered definition.now }
    ensures of_places { IsOfPlaces definition.now }
    ensures whole { IsWhole definition.now }
{
    let _same = definition;
}
